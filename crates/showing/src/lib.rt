// The calls that only read an entry: showing it, and its plain copy.
#![tactic(auto)]

mod copying;
mod table;
mod walk;

pub use copying::plain_copy;
pub use table::show;
