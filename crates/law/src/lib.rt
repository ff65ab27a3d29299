// The calls of a volume with the law over lists of calls: what holds of every list on one shelf, and of two such lists on two.
#![tactic(auto)]

mod calls;
mod laws;

pub use calls::{balance, close, fetch, open, open_again, plain_copy, show, take_in};
pub use laws::{every_run, twin_example, two_runs};
