// Entries on a shelf in code: walking from trailer to trailer, reading and judging them, and laying a file's records.
#![tactic(auto)]

mod judging;
mod lines;
mod reading;
mod stamps;
mod walking;

pub use lines::{Measure, lay_lines, measure_lines};
pub use reading::record_at;
pub use stamps::start_of;
pub use walking::Walk;
