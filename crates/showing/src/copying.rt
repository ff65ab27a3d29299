// The plain copy of an entry.
ghost use Rattle.std.specs.Prelude.{◌≡◌, ◌+◌, ◌-◌, ◌≤◌, [], ◌++◌, length, drop, IfOk, slice_index_or};
ghost use Rattle.std.specs.List.{between};
ghost use Rattle.filing.specs.Refusals.{RefusedBy, of_copying};
ghost use Rattle.filing.specs.Volumes.{entries_of};
ghost use Rattle.volume.specs.Tokens.{Own};
ghost use Rattle.report.specs.Copies.{copied};
ghost use Rattle.report.specs.Stands.{CopyStands};
ghost use Rattle.filing.specs.declared.faults.VolumeFault.TheVariants.{CopyShort};
ghost use Rattle.showing.specs.Riders.{ReadsEntry, FillsEntry};
ghost use Rattle.showing.specs.Showing.{with_part, line_of, copying as copying_term, how_many, filled_in};

use crate::walk::find;
use entries::record_at;
use filing::VolumeFault;
use record::{Edition, sort_in};
use report::plain_record;
use shelf::Shelf;
use volume::Volume;

// Puts a record's line, if there is one, behind the bytes that are filled, and answers how many then are.
fn put_line(buffer: &mut [u8], filled: usize, line: Option<[u8; 80]>) -> usize
    requires { filled + length (line_of line) ≤ length buffer.old }
    ensures bytes { buffer.new ≡ with_part buffer.old filled (line_of line) }
    ensures filled { result ≡ filled + length (line_of line) }
{
    match line {
        Some(line) => {
            buffer[filled..filled + 80].copy_from_slice(&line);
            buffer[filled + 80..filled + 82].copy_from_slice(b"\r\n");
            filled + 82
        }
        None => filled,
    }
}

// Writes the copy of these records into a buffer that is large enough.
fn write<S: Shelf, E: Edition>(
    shelf: &S,
    before: usize,
    count: usize,
    edition: &E,
    buffer: &mut [u8],
)
    requires inside { before + count ≤ length (S.records shelf.now) }
    requires enough { length (copied (E.meaning edition.now) (between before (before + count) (S.records shelf.now))) ≤ length buffer.old }
    ensures { buffer.new ≡ copied (E.meaning edition.now) (between before (before + count) (S.records shelf.now)) ++ drop (length (copied (E.meaning edition.now) (between before (before + count) (S.records shelf.now)))) buffer.old }
{
    let mut filled: usize = 0;
    for i in 0..count {
        let number = i + 1;
        let item = record_at(shelf, before + number);
        let sort = sort_in(&item, edition);
        filled = put_line(buffer, filled, plain_record(sort, item));
    }
}

// `plain_copy`, without the clauses on which refusals can come and when 13 and 14 do.
fn copy_entry<S: Shelf, E: Edition>(
    shelf: &S,
    volume: &Volume,
    entry: usize,
    edition: &E,
    buffer: &mut [u8],
) -> Result<usize, VolumeFault>
    requires { Own volume.now (S.records shelf.now) (S.room shelf.now) }
    ensures answer { result ≡ how_many (copying_term (E.meaning edition.now) entry (length buffer.old) (entries_of (S.records shelf.now))) }
    ensures buffer { buffer.new ≡ filled_in (copying_term (E.meaning edition.now) entry (length buffer.old) (entries_of (S.records shelf.now))) buffer.old }
    ensures stands { IfOk result (λ _. CopyStands (E.meaning edition.now) (slice_index_or (entries_of (S.records shelf.now)) (entry - 1) [])) }
{
    let span = find(shelf, volume, entry, edition)?;
    let needed = span.rows * 82;
    if buffer.len() < needed {
        return Err(VolumeFault::CopyShort(needed));
    }
    write(shelf, span.before, span.count, edition, buffer);
    Ok(needed)
}

/// Writes the plain copy of entry `entry`, read under `edition`: each core record with its reserve positions blank and each rider as
/// it stands, each with CR LF, 82 bytes a record, and answers how many bytes. Unknown records are left out. Later bytes stay as
/// they were, and a refusal leaves all of them so.
pub fn plain_copy<S: Shelf, E: Edition>(
    shelf: &S,
    volume: &Volume,
    entry: usize,
    edition: &E,
    buffer: &mut [u8],
) -> Result<usize, VolumeFault>
    requires { Own volume.now (S.records shelf.now) (S.room shelf.now) }
    ensures reads { ReadsEntry (E.meaning edition.now) entry (entries_of (S.records shelf.now)) result }
    ensures answer { result ≡ how_many (copying_term (E.meaning edition.now) entry (length buffer.old) (entries_of (S.records shelf.now))) }
    ensures buffer { buffer.new ≡ filled_in (copying_term (E.meaning edition.now) entry (length buffer.old) (entries_of (S.records shelf.now))) buffer.old }
    ensures fills { FillsEntry (copied (E.meaning edition.now)) CopyShort (E.meaning edition.now) entry (entries_of (S.records shelf.now)) buffer.old buffer.new result }
    ensures refusals { RefusedBy of_copying result }
    ensures stands { IfOk result (λ _. CopyStands (E.meaning edition.now) (slice_index_or (entries_of (S.records shelf.now)) (entry - 1) [])) }
{
    copy_entry(shelf, volume, entry, edition, buffer)
}
