// Reading an entry as a file: under the bare edition, with payers not judged.
ghost use Rattle.std.specs.Prelude.{◌≡◌, ◌+◌, ◌-◌, ◌<◌, ◌≤◌, [], length, slice_index_or};
ghost use Rattle.std.specs.List.{between};
ghost use Rattle.record.specs.Classes.{class_of};
ghost use Rattle.record.specs.Editions.{bare};
ghost use Rattle.file.specs.Lines.{slot_in};
ghost use Rattle.filing.specs.Entries.{slot_of, deposits_behind, reads};

use field::texts;
use file::{Broken, Judge, NotJudged};
use filing::Deposits;
use manual::FileFault;
use record::{Bare, classify};
use shelf::Shelf;
use trailer::Totals;

// The record with this shelf number.
pub fn record_at<S: Shelf>(shelf: &S, at: usize) -> [u8; 80]
    requires { (0 < at) × (at ≤ length (S.records shelf.now)) }
    ensures { result ≡ slice_index_or (S.records shelf.now) (at - 1) [] }
{
    let mut item = [0u8; 80];
    let _ = shelf.copy(at, &mut item);
    item
}

// The record as a line of a file: a whole one where all of it is text.
fn line_of(item: &[u8; 80]) -> Result<&[u8; 80], Broken>
    ensures { slot_in result ≡ slot_of item.now }
{
    if texts(item) { Ok(item) } else { Err(Broken) }
}

// The deposits with what this record adds to them.
fn add_deposit(deposits: &mut Deposits, item: &[u8; 80])
    ensures { deposits.new ≡ deposits_behind deposits.old (class_of bare item.now) }
{
    deposits.take(classify(item, &Bare));
}

// What the entry of so many records behind the first `before` comes to, or why it cannot be read.
pub fn read_entry<S: Shelf>(shelf: &S, before: usize, count: usize) -> Result<Totals, FileFault>
    requires { before + count ≤ length (S.records shelf.now) }
    ensures { result ≡ reads (between before (before + count) (S.records shelf.now)) }
{
    let mut judge = Judge::new(NotJudged);
    let mut deposits = Deposits { sek: 0, eur: 0 };
    // from 0, though records count from 1: `1..=count` ends the loop in two ways, and no proof was found that says its step once
    for i in 0..count {
        let number = i + 1;
        let item = record_at(shelf, before + number);
        judge.read(number, line_of(&item), &Bare)?;
        add_deposit(&mut deposits, &item);
    }
    Ok(deposits.totals(judge.finish(count + 1)?))
}
