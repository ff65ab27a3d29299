// Taking a file in: the file's refusals, then those of the volume; then its records and their
// trailer are laid.
ghost use Rattle.std.specs.Prelude.{◌≡◌, ◌+◌, ◌<◌, ◌≤◌, [], ◌∷◌, ◌++◌, length, OnOk};
ghost use Rattle.trailer.specs.Trailers.{trailer_of};
ghost use Rattle.manual.specs.Slots.{front};
ghost use Rattle.manual.specs.Judging.{check_of};
ghost use Rattle.manual.specs.Laws.{judging};
ghost use Rattle.manual.specs.Slots.{slots};
ghost use Rattle.filing.specs.Refusals.{RefusedBy, of_taking};
ghost use Rattle.filing.specs.Taking.{start_of, marked, admitted};
ghost use Rattle.filing.specs.Volumes.{entries_of};
ghost use Rattle.filing.specs.Readings.{EntryLaws};
ghost use Rattle.volume.specs.Examples.{ExamplesHold};
ghost use Rattle.volume.specs.Laws.{Laid};
ghost use Rattle.volume.specs.Taking.{take_answer, take_records, take_token};
ghost use Rattle.volume.specs.Tokens.{OwnOpen};

use crate::examples::examples_hold;
use crate::tokens::OpenVolume;
use entries::{Walk, lay_lines, measure_lines, start_of};
use file::{Lines, check};
use filing::{VolumeFault, filing_laws};
use record::{Edition, Start, TestMark};
use shelf::Shelf;
use sums::Row;
use trailer::{Trailer, write_trailer};

// The start record of a file's records.
fn file_start(file: &[u8]) -> Option<Start>
    ensures { result ≡ start_of (front (slots file.now)) }
{
    let record = Lines::new(file).next()?.ok()?;
    start_of(record)
}

// Whether a start record is marked as a test.
fn is_marked(start: Option<Start>) -> bool
    ensures { result ≡ marked start }
{
    start.is_some_and(|start| start.mark == TestMark::Test)
}

// Whether the file's records, so many, may be taken in.
fn admit<S: Shelf>(
    shelf: &S,
    volume: &OpenVolume,
    file: &[u8],
    many: usize,
) -> Result<(), VolumeFault>
    requires own { OwnOpen volume.now (S.records shelf.now) (S.room shelf.now) }
    requires counted { many ≡ length (front (slots file.now)) }
    requires few { many ≤ 50000 }
    ensures { result ≡ admitted (S.room shelf.now) (length (S.records shelf.now))
        (entries_of (S.records shelf.now)) (front (slots file.now)) }
{
    let start = file_start(file);
    if is_marked(start) {
        return Err(VolumeFault::Marked);
    }
    if let Some(entry) = Walk::of(shelf, volume.last, volume.entries).first_with(start) {
        return Err(VolumeFault::SameStamp(entry));
    }
    if shelf.count() + many + 2 <= shelf.limit() {
        Ok(())
    } else {
        Err(VolumeFault::NoRoom)
    }
}

// Lays a trailer behind the last record.
fn lay_trailer<S: Shelf>(shelf: &mut S, t: &Trailer)
    requires { length (S.records shelf.old) < S.room shelf.old }
    ensures list { S.records shelf.new ≡ S.records shelf.old ++ trailer_of t.now ∷ [] }
    ensures limit { S.room shelf.new ≡ S.room shelf.old }
    ensures same { S.same shelf.old shelf.new }
{
    let mut item = [0u8; 80];
    write_trailer(t, &mut item);
    let _ = shelf.add(&item);
}

/// Takes a file in, and answers its entry number. The entries of the shelf are then the same with
/// the file's records added last, and their trailer has what the file's reading comes to. A refusal
/// changes neither shelf nor token. What the table of payers holds afterwards is not fixed.
/// Whatever the shelf, the laws of reading entries hold, and so do the worked examples of the
/// rules.
pub fn take_in<S: Shelf, E: Edition>(
    shelf: &mut S,
    volume: &mut OpenVolume,
    file: &[u8],
    edition: &E,
    payers: &mut [Row<u64>],
) -> Result<usize, VolumeFault>
    requires { OwnOpen volume.old (S.records shelf.old) (S.room shelf.old) }
    ensures answer { result ≡ take_answer
        (check_of (judging (length payers.old)) (E.meaning edition.now) file.now)
        (S.room shelf.old) (S.records shelf.old) volume.old (front (slots file.now)) }
    ensures list { S.records shelf.new ≡ take_records result (S.records shelf.old) volume.old (front (slots file.now)) }
    ensures token { volume.new ≡ take_token result (S.records shelf.old) volume.old (front (slots file.now)) }
    ensures limit { S.room shelf.new ≡ S.room shelf.old }
    ensures same { S.same shelf.old shelf.new }
    ensures entries { OnOk result (entries_of (S.records shelf.new) ≡ entries_of (S.records shelf.old) ++ front (slots file.now) ∷ []) }
    ensures reading { OnOk result (Laid (E.meaning edition.now) file.now volume.old
        (S.records shelf.old) (front (slots file.now)) (S.records shelf.new)) }
    ensures readings { EntryLaws }
    ensures own { OwnOpen volume.new (S.records shelf.new) (S.room shelf.new) }
    ensures refusals { RefusedBy of_taking result }
    ensures examples { ExamplesHold }
{
    examples_hold();
    filing_laws();
    let counts = check(file, edition, payers)?;
    let size = measure_lines(file);
    admit(shelf, volume, file, size.records)?;
    let trailer = Trailer {
        records: size.records as u64,
        entry: volume.entries as u64 + 1,
        previous: volume.last as u64,
        totals: size.deposits.totals(counts),
    };
    lay_lines(shelf, file);
    lay_trailer(shelf, &trailer);
    volume.entries += 1;
    volume.last += size.records + 1;
    Ok(volume.entries)
}
