// One record of 80 bytes: the thirteen layouts, reserve positions, editions, and what class a
// record has.
#![tactic(auto)]

mod classes;
mod editions;
mod faults;
mod fields;
mod kinds;
mod layouts;
mod lines;
mod reserve;
mod rows;

pub use classes::{Class, Rider, Sort, classify, sort_in};
pub use editions::{Bare, Edition, House, Level};
pub use faults::{RecordFault, fields_read, sound};
pub use fields::{Core, Deposit, DepositType, End, Field, Opening, Start, TestMark, Transfer};
pub use kinds::{Kind, NotCore};
pub use layouts::read_core;
pub use lines::{LineEnd, cut};
pub use reserve::used;
pub use rows::{Row, core_row};
