// A file of records in code: its lines, the judge, and checking.
#![tactic(auto)]

mod checking;
mod judge;
mod lines;
mod numbering;
mod order;
mod payers;
mod reading;
mod single;

pub use checking::check;
pub use judge::{Item, Judge, Section};
pub use lines::{Broken, Lines};
pub use numbering::at_record;
pub use order::ended;
pub use payers::{NotJudged, Payers};
pub use reading::too_many;
pub use single::{One, read_one};
