// Parts of a record: text, digits, numbers, currencies, dates, time stamps and references.
// A reader is handed its part as a slice and knows nothing of the record around it: a rule of the project, for which each
// reader asks for its part's length in a clause.
#![tactic(auto)]

mod bytes;
mod dates;
mod money;
mod numbers;
mod references;

pub use bytes::{blanks, digit, digits, text, texts};
pub use dates::{Date, read_date, read_time_stamp};
pub use money::{Currency, read_amount, read_currency};
pub use numbers::{read_number, read_twenty};
pub use references::{ReferenceForm, read_extra_reference, read_reference};
