// What is reported of a file's records: rows, riders that an edition finds wrong, the plain copy, and what payees come to.
#![tactic(auto)]

mod copies;
mod moves;
mod pairs;
mod rows;
mod sorts;

pub use copies::plain_record;
pub use moves::{movement, pair_behind};
pub use pairs::Pair;
pub use rows::row_in;
pub use sorts::{cause_in, copies_of, level_behind};
