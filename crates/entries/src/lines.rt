// The whole records at the front of a file, line by line: how many they are, and onto a shelf.
ghost use Rattle.std.specs.Prelude.{◌≡◌, ◌+◌, ◌≤◌, ◌++◌, length};
ghost use Rattle.manual.specs.Slots.{slots};
ghost use Rattle.manual.specs.Slots.{front};
ghost use Rattle.filing.specs.Entries.{deposits_from, no_deposits};

use file::Lines;
use filing::Deposits;
use record::{Bare, classify};
use shelf::Shelf;

// What the records of a file come to, before any of them is laid on a shelf.
#[derive(Clone, Copy, Debug, PartialEq, Eq)]
pub struct Measure {
    pub records: usize,
    pub deposits: Deposits,
}

// Counts the whole records at the front of the file, and adds up their deposits. The first bytes that are no whole
// record end it.
#[tactic(auto, using(crate::proofs::FileLines::slots_few))]
pub fn measure_lines(file: &[u8]) -> Measure
    ensures records { result.records ≡ length (front (slots file.now)) }
    ensures deposits { result.deposits ≡ deposits_from no_deposits (front (slots file.now)) }
{
    let mut records: usize = 0;
    let mut deposits = Deposits { sek: 0, eur: 0 };
    for line in Lines::new(file) {
        let Ok(record) = line else {
            break;
        };
        deposits.take(classify(record, &Bare));
        records += 1;
    }
    Measure { records, deposits }
}

// Adds the whole records at the front of the file, in order. There is a place for each, so that the shelf refuses none.
pub fn lay_lines<S: Shelf>(shelf: &mut S, file: &[u8])
    requires { length (S.records shelf.old) + length (front (slots file.now)) ≤ S.room shelf.old }
    ensures list { S.records shelf.new ≡ S.records shelf.old ++ front (slots file.now) }
    ensures limit { S.room shelf.new ≡ S.room shelf.old }
    ensures same { S.same shelf.old shelf.new }
{
    for line in Lines::new(file) {
        let Ok(record) = line else {
            break;
        };
        let _ = shelf.add(record);
    }
}
