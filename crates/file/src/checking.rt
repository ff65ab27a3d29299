ghost use Rattle.std.specs.Prelude.{◌≡◌, length};
ghost use Rattle.manual.specs.Judging.{check_of};
ghost use Rattle.manual.specs.Laws.{CheckLaws, judging};
ghost use Rattle.manual.specs.Accepting.{Right};

use crate::judge::Judge;
use crate::lines::Lines;
use manual::{FileFault, check_laws};
use record::{Edition, End};
use sums::{Row, Table};

// Judges the lines of a file one after the other, with a table for its payers.
fn judge_lines<E: Edition>(
    file: &[u8],
    edition: &E,
    payers: &mut [Row<u64>],
) -> Result<End, FileFault>
    ensures { result ≡ check_of (judging (length payers.old)) (E.meaning edition.now) file.now }
{
    let mut judge = Judge::new(Table::new(payers));
    // the number of the record that is next, which is also told where none comes any more
    let mut number = 1;
    for line in Lines::new(file) {
        judge.read(number, line, edition)?;
        number += 1;
    }
    judge.finish(number)
}

// The counts of the end record, or the first refusal. What the table of payers holds afterwards is not fixed.
// The answer is right by the manual: a file is accepted exactly where it has a reading, and then has one. Whatever the
// file, the laws of `CheckLaws` hold of what checking answers.
pub fn check<E: Edition>(
    file: &[u8],
    edition: &E,
    payers: &mut [Row<u64>],
) -> Result<End, FileFault>
    ensures answer { result ≡ check_of (judging (length payers.old)) (E.meaning edition.now) file.now }
    ensures manual { Right (length payers.old) (E.meaning edition.now) file.now result }
    ensures laws { CheckLaws }
{
    check_laws();
    judge_lines(file, edition, payers)
}
