// The calls of a volume, each with the law over lists of calls.
ghost use Rattle.std.specs.Prelude.{◌≡◌, ◌-◌, [], ◌∷◌, ◌++◌, length, IfOk, OnOk, Ok, slice_index_or};
ghost use Rattle.manual.specs.Judging.{check_of};
ghost use Rattle.manual.specs.Laws.{judging};
ghost use Rattle.manual.specs.Slots.{slots, front};
ghost use Rattle.filing.specs.Laws.{FilingLaws, closed as closed_records};
ghost use Rattle.filing.specs.Readings.{EntryLaws};
ghost use Rattle.filing.specs.Refusals.{RefusedBy, of_opening, of_taking, of_fetching, of_showing, of_copying};
ghost use Rattle.filing.specs.Volumes.{entries_of};
ghost use Rattle.filing.specs.declared.faults.VolumeFault.TheVariants.{RowsShort, CopyShort};
ghost use Rattle.volume.specs.Examples.{ExamplesHold};
ghost use Rattle.volume.specs.Laws.{OpensExactly, Laid};
ghost use Rattle.volume.specs.Tokens.{found_on, with_token, Own, OwnOpen, OwnClosed};
ghost use Rattle.volume.specs.Taking.{take_answer, take_records, take_token, fetched, fetch_answer, fetch_bytes};
ghost use Rattle.report.specs.Copies.{copied};
ghost use Rattle.report.specs.Listing.{RowsStand};
ghost use Rattle.report.specs.Rows.{rows_of};
ghost use Rattle.report.specs.Stands.{CopyStands};
ghost use Rattle.showing.specs.Riders.{ReadsEntry, FillsEntry};
ghost use Rattle.showing.specs.Showing.{shown, copying, how_many, filled_in};
ghost use Rattle.balancing.specs.Balancing.{balanced, balance_answer, balance_table, of_balancing};
ghost use Rattle.balancing.specs.Stands.{BalanceStands};
ghost use Rattle.law.specs.Archive.{taking_in, closing, opening_again, showing, fetching, balancing, taken_in, closed, opened, rows as rows_answer, bytes as bytes_answer, sums as sums_answer};
ghost use Rattle.law.specs.Copies.{CopyInLaw};
ghost use Rattle.law.specs.Runs.{Made, InLaw, told, tells};

use filing::VolumeFault;
use record::{Edition, Row};
use report::Pair;
use shelf::Shelf;
use volume::{ClosedVolume, OpenVolume, Volume};

/// What opening a shelf finds, in a token. A shelf that some list of calls has made of an empty one is never refused, and an empty shelf
/// that opens is where a list of calls begins.
pub fn open<S: Shelf>(shelf: &S) -> Result<Volume, VolumeFault>
    ensures answer { result ≡ with_token (found_on (S.records shelf.now) (S.room shelf.now)) }
    ensures laws { FilingLaws }
    ensures readings { EntryLaws }
    ensures exactly { OpensExactly (S.records shelf.now) (S.room shelf.now) result }
    ensures own { IfOk result (λ v. Own v (S.records shelf.now) (S.room shelf.now)) }
    ensures refusals { RefusedBy of_opening result }
    ensures first { IfOk result (λ _. S.records shelf.now ≡ [] → Made (S.room shelf.now) [] (S.records shelf.now) (S.room shelf.now)) }
    ensures law { InLaw (S.records shelf.now) (S.room shelf.now) opening_again (opened (told result)) (S.records shelf.now) (S.room shelf.now) }
{
    volume::open(shelf)
}

/// Takes up the old volume, which is what opening its shelf anew would find.
pub fn open_again<S: Shelf>(shelf: &S, old: Volume) -> Volume
    requires { Own old (S.records shelf.now) (S.room shelf.now) }
    ensures same { result ≡ old }
    ensures law { InLaw (S.records shelf.now) (S.room shelf.now) opening_again (opened (Ok (tells result))) (S.records shelf.now) (S.room shelf.now) }
{
    volume::open_again(shelf, old)
}

/// Takes a file in, and answers its entry number. A refusal changes neither shelf nor token. What the table of payers holds afterwards is
/// not fixed.
pub fn take_in<S: Shelf, E: Edition>(
    shelf: &mut S,
    volume: &mut OpenVolume,
    file: &[u8],
    edition: &E,
    payers: &mut [sums::Row<u64>],
) -> Result<usize, VolumeFault>
    requires { OwnOpen volume.old (S.records shelf.old) (S.room shelf.old) }
    ensures answer { result ≡ take_answer
        (check_of (judging (length payers.old)) (E.meaning edition.now) file.now)
        (S.room shelf.old) (S.records shelf.old) volume.old (front (slots file.now)) }
    ensures list { S.records shelf.new ≡ take_records result (S.records shelf.old) volume.old (front (slots file.now)) }
    ensures token { volume.new ≡ take_token result (S.records shelf.old) volume.old (front (slots file.now)) }
    ensures limit { S.room shelf.new ≡ S.room shelf.old }
    ensures same { S.same shelf.old shelf.new }
    ensures entries { OnOk result (entries_of (S.records shelf.new) ≡ entries_of (S.records shelf.old) ++ front (slots file.now) ∷ []) }
    ensures reading { OnOk result (Laid (E.meaning edition.now) file.now volume.old
        (S.records shelf.old) (front (slots file.now)) (S.records shelf.new)) }
    ensures readings { EntryLaws }
    ensures own { OwnOpen volume.new (S.records shelf.new) (S.room shelf.new) }
    ensures refusals { RefusedBy of_taking result }
    ensures examples { ExamplesHold }
    ensures law { InLaw (S.records shelf.old) (S.room shelf.old)
        (taking_in file.now (E.meaning edition.now) (length payers.old)) (taken_in result)
        (S.records shelf.new) (S.room shelf.new) }
{
    volume::take_in(shelf, volume, file, edition, payers)
}

/// Lays the closing record. It is never refused, and the entries stay.
pub fn close<S: Shelf>(shelf: &mut S, volume: OpenVolume) -> ClosedVolume
    requires { OwnOpen volume (S.records shelf.old) (S.room shelf.old) }
    ensures entries { result.entries ≡ volume.entries }
    ensures last { result.last ≡ volume.last }
    ensures list { S.records shelf.new ≡ closed_records volume.entries (S.records shelf.old) }
    ensures limit { S.room shelf.new ≡ S.room shelf.old }
    ensures same { S.same shelf.old shelf.new }
    ensures found { entries_of (S.records shelf.new) ≡ entries_of (S.records shelf.old) }
    ensures own { OwnClosed result (S.records shelf.new) (S.room shelf.new) }
    ensures law { InLaw (S.records shelf.old) (S.room shelf.old) closing closed (S.records shelf.new) (S.room shelf.new) }
{
    volume::close(shelf, volume)
}

/// Copies record `number` of entry `entry` as it stands on the shelf. A refusal leaves the bytes as they were.
pub fn fetch<S: Shelf>(
    shelf: &S,
    volume: &Volume,
    entry: usize,
    number: usize,
    out: &mut [u8; 80],
) -> Result<(), VolumeFault>
    requires { Own volume.now (S.records shelf.now) (S.room shelf.now) }
    ensures answer { result ≡ fetch_answer (fetched entry number (entries_of (S.records shelf.now))) }
    ensures buffer { out.new ≡ fetch_bytes (fetched entry number (entries_of (S.records shelf.now))) out.old }
    ensures refusals { RefusedBy of_fetching result }
    ensures law { InLaw (S.records shelf.now) (S.room shelf.now) (fetching entry number out.old) (bytes_answer result out.new) (S.records shelf.now) (S.room shelf.now) }
{
    volume::fetch(shelf, volume, entry, number, out)
}

/// Fills the caller's rows with what entry `entry` says, read under `edition`, and answers how many. Later rows stay as they were, and a
/// refusal leaves all of them so.
pub fn show<S: Shelf, E: Edition>(
    shelf: &S,
    volume: &Volume,
    entry: usize,
    edition: &E,
    rows: &mut [Row],
) -> Result<usize, VolumeFault>
    requires { Own volume.now (S.records shelf.now) (S.room shelf.now) }
    ensures reads { ReadsEntry (E.meaning edition.now) entry (entries_of (S.records shelf.now)) result }
    ensures answer { result ≡ how_many (shown (E.meaning edition.now) entry (length rows.old) (entries_of (S.records shelf.now))) }
    ensures table { rows.new ≡ filled_in (shown (E.meaning edition.now) entry (length rows.old) (entries_of (S.records shelf.now))) rows.old }
    ensures fills { FillsEntry (rows_of (E.meaning edition.now)) RowsShort (E.meaning edition.now) entry (entries_of (S.records shelf.now)) rows.old rows.new result }
    ensures refusals { RefusedBy of_showing result }
    ensures stands { IfOk result (λ _. RowsStand (E.meaning edition.now) (slice_index_or (entries_of (S.records shelf.now)) (entry - 1) [])) }
    ensures law { InLaw (S.records shelf.now) (S.room shelf.now) (showing entry (E.meaning edition.now) rows.old) (rows_answer result rows.new) (S.records shelf.now) (S.room shelf.now) }
{
    showing::show(shelf, volume, entry, edition, rows)
}

/// Writes the plain copy of entry `entry`, read under `edition`, and answers how many bytes. Later bytes stay as they were, and a refusal
/// leaves all of them so. It changes nothing on the shelf, and so is no call of a list: the list goes on as it was.
pub fn plain_copy<S: Shelf, E: Edition>(
    shelf: &S,
    volume: &Volume,
    entry: usize,
    edition: &E,
    buffer: &mut [u8],
) -> Result<usize, VolumeFault>
    requires { Own volume.now (S.records shelf.now) (S.room shelf.now) }
    ensures reads { ReadsEntry (E.meaning edition.now) entry (entries_of (S.records shelf.now)) result }
    ensures answer { result ≡ how_many (copying (E.meaning edition.now) entry (length buffer.old) (entries_of (S.records shelf.now))) }
    ensures buffer { buffer.new ≡ filled_in (copying (E.meaning edition.now) entry (length buffer.old) (entries_of (S.records shelf.now))) buffer.old }
    ensures fills { FillsEntry (copied (E.meaning edition.now)) CopyShort (E.meaning edition.now) entry (entries_of (S.records shelf.now)) buffer.old buffer.new result }
    ensures refusals { RefusedBy of_copying result }
    ensures stands { IfOk result (λ _. CopyStands (E.meaning edition.now) (slice_index_or (entries_of (S.records shelf.now)) (entry - 1) [])) }
    ensures law { CopyInLaw (S.records shelf.now) (S.room shelf.now) (E.meaning edition.now) entry buffer.old result buffer.new }
{
    showing::plain_copy(shelf, volume, entry, edition, buffer)
}

/// Fills a row for each payee and currency of the entries, with what was paid and deducted in its sections, in öre or cents, in order of
/// first appearance, and answers how many. Later rows become zero, and all do where the table has too few.
pub fn balance<S: Shelf>(
    shelf: &S,
    volume: &Volume,
    rows: &mut [sums::Row<Pair>],
) -> Result<usize, VolumeFault>
    requires { Own volume.now (S.records shelf.now) (S.room shelf.now) }
    ensures answer { result ≡ balance_answer (balanced (length rows.old) (entries_of (S.records shelf.now))) }
    ensures table { rows.new ≡ balance_table (balanced (length rows.old) (entries_of (S.records shelf.now))) (length rows.old) }
    ensures refusals { RefusedBy of_balancing result }
    ensures stands { BalanceStands (entries_of (S.records shelf.now)) rows.old result rows.new }
    ensures law { InLaw (S.records shelf.now) (S.room shelf.now) (balancing rows.old) (sums_answer result rows.new) (S.records shelf.now) (S.room shelf.now) }
{
    balancing::balance(shelf, volume, rows)
}
