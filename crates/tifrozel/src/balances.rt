// The command `balance`.
ghost use Rattle.std.specs.Prelude.{◌≡◌, IfOk, MatchResult};
ghost use Rattle.filing.specs.Volumes.{entries_of};
ghost use Rattle.report.specs.Balances.{balance_of};

use crate::answers::{Done, refused, rows};
use crate::lines::BalanceLine;
use archive::Archive;
use filing::VolumeFault;
use report::Pair;
use shelf::Shelf;
use std::alloc::{AllocError, Global};
use sums::Row;

// The balance of all entries, from a table that is never too short, as it has a row for each record of the shelf. It is not inlined, so
// that bench/ can count it by itself.
#[inline(never)]
fn balance_rows<S: Shelf + Drop>(
    heap: Global,
    archive: &Archive<S>,
) -> Result<Result<Vec<Row<Pair>>, VolumeFault>, AllocError>
    ensures { IfOk result (λ answer. MatchResult answer (λ rows. rows.items ≡ balance_of (entries_of (S.records archive.now.shelf))) (λ _. ⊥)) }
{
    let mut table = vec![in heap; Row::zero(); archive.count()]?;
    match archive.balance(&mut table) {
        Ok(filled) => {
            table.truncate(filled);
            Ok(Ok(table))
        }
        Err(fault) => Ok(Err(fault)),
    }
}

// The rows as lines, one for each, in one text.
fn lines_of(heap: Global, table: &[Row<Pair>]) -> Result<String, AllocError> {
    let mut lines = String::new(heap);
    for row in table {
        let row = BalanceLine(*row);
        let line = format!(in heap; "{row}")?;
        lines.push_str(line.as_str())?;
    }
    Ok(lines)
}

pub fn balance<S: Shelf + Drop>(rt: &HostRuntime, head: &str, archive: &Archive<S>) -> Done {
    match balance_rows(rt.alloc(), archive)? {
        Ok(table) => {
            let many = rows(table.len());
            let lines = lines_of(rt.alloc(), &table)?;
            let lines = lines.as_str();
            println!(rt; "{head}: {many}")?;
            print!(rt; "{lines}")?;
            Ok(())
        }
        Err(fault) => refused(rt, head, fault),
    }
}
