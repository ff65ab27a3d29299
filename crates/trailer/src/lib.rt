// Trailers and closing records: 80 digits that say what lies before them on a shelf.
#![tactic(auto)]

mod digits;
mod layout;
mod records;

pub use layout::{Totals, Trailer};
pub use records::{closing_says, is_right_closing, read_trailer, write_closing, write_trailer};
