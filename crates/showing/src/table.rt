// Showing an entry.
ghost use Rattle.std.specs.Prelude.{◌≡◌, ◌+◌, ◌-◌, ◌≤◌, [], ◌++◌, length, drop, IfOk, slice_index_or};
ghost use Rattle.std.specs.List.{between};
ghost use Rattle.filing.specs.Refusals.{RefusedBy, of_showing};
ghost use Rattle.filing.specs.Volumes.{entries_of};
ghost use Rattle.volume.specs.Tokens.{Own};
ghost use Rattle.report.specs.Rows.{row_then, rows_of};
ghost use Rattle.report.specs.Listing.{RowsStand};
ghost use Rattle.filing.specs.declared.faults.VolumeFault.TheVariants.{RowsShort};
ghost use Rattle.showing.specs.Riders.{ReadsEntry, FillsEntry};
ghost use Rattle.showing.specs.Showing.{with_part, shown, how_many, filled_in};

use crate::walk::find;
use entries::record_at;
use filing::VolumeFault;
use record::{Edition, Row, classify};
use report::row_in;
use shelf::Shelf;
use volume::Volume;

// Puts a row, if there is one, behind those that are filled, and answers how many then are.
fn put(rows: &mut [Row], filled: usize, row: Option<Row>) -> usize
    requires { filled + length (row_then row []) ≤ length rows.old }
    ensures rows { rows.new ≡ with_part rows.old filled (row_then row []) }
    ensures filled { result ≡ filled + length (row_then row []) }
{
    match row {
        Some(row) => {
            rows[filled] = row;
            filled + 1
        }
        None => filled,
    }
}

// Fills the rows of these records, of which there are enough.
fn fill<S: Shelf, E: Edition>(shelf: &S, before: usize, count: usize, edition: &E, rows: &mut [Row])
    requires inside { before + count ≤ length (S.records shelf.now) }
    requires enough { length (rows_of (E.meaning edition.now) (between before (before + count) (S.records shelf.now))) ≤ length rows.old }
    ensures { rows.new ≡ rows_of (E.meaning edition.now) (between before (before + count) (S.records shelf.now)) ++ drop (length (rows_of (E.meaning edition.now) (between before (before + count) (S.records shelf.now)))) rows.old }
{
    let mut filled: usize = 0;
    for i in 0..count {
        let number = i + 1;
        let class = classify(&record_at(shelf, before + number), edition);
        filled = put(rows, filled, row_in(number, class));
    }
}

// `show`, without the clauses on which refusals can come and when 13 and 14 do.
fn show_entry<S: Shelf, E: Edition>(
    shelf: &S,
    volume: &Volume,
    entry: usize,
    edition: &E,
    rows: &mut [Row],
) -> Result<usize, VolumeFault>
    requires { Own volume.now (S.records shelf.now) (S.room shelf.now) }
    ensures answer { result ≡ how_many (shown (E.meaning edition.now) entry (length rows.old) (entries_of (S.records shelf.now))) }
    ensures table { rows.new ≡ filled_in (shown (E.meaning edition.now) entry (length rows.old) (entries_of (S.records shelf.now))) rows.old }
    ensures stands { IfOk result (λ _. RowsStand (E.meaning edition.now) (slice_index_or (entries_of (S.records shelf.now)) (entry - 1) [])) }
{
    let span = find(shelf, volume, entry, edition)?;
    if rows.len() < span.rows {
        return Err(VolumeFault::RowsShort(span.rows));
    }
    fill(shelf, span.before, span.count, edition, rows);
    Ok(span.rows)
}

/// Fills the caller's rows with what entry `entry` says, read under `edition`: one row for each core record and rider, in order,
/// and answers how many. Later rows stay as they were, and a refusal leaves all of them so.
pub fn show<S: Shelf, E: Edition>(
    shelf: &S,
    volume: &Volume,
    entry: usize,
    edition: &E,
    rows: &mut [Row],
) -> Result<usize, VolumeFault>
    requires { Own volume.now (S.records shelf.now) (S.room shelf.now) }
    ensures reads { ReadsEntry (E.meaning edition.now) entry (entries_of (S.records shelf.now)) result }
    ensures answer { result ≡ how_many (shown (E.meaning edition.now) entry (length rows.old) (entries_of (S.records shelf.now))) }
    ensures table { rows.new ≡ filled_in (shown (E.meaning edition.now) entry (length rows.old) (entries_of (S.records shelf.now))) rows.old }
    ensures fills { FillsEntry (rows_of (E.meaning edition.now)) RowsShort (E.meaning edition.now) entry (entries_of (S.records shelf.now)) rows.old rows.new result }
    ensures refusals { RefusedBy of_showing result }
    ensures stands { IfOk result (λ _. RowsStand (E.meaning edition.now) (slice_index_or (entries_of (S.records shelf.now)) (entry - 1) [])) }
{
    show_entry(shelf, volume, entry, edition, rows)
}
