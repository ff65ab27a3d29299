// A shelf and the volume on it, in one hand: every call finds the token that is the shelf's own.
#![tactic(auto)]

ghost use Rattle.std.specs.Prelude.{◌≡◌, ℕ, ◌+◌, ◌-◌, ◌≤◌, [], length, IfOk, IfErr, IfSome, MatchResult, Ok, Err, Result, slice_index_or};
ghost use Rattle.std.specs.List.{between};
ghost use Rattle.manual.specs.Judging.{check_of};
ghost use Rattle.manual.specs.Laws.{judging};
ghost use Rattle.manual.specs.Slots.{slots, front};
ghost use Rattle.shelf.specs.Records.{flat};
ghost use Rattle.filing.specs.Refusals.{RefusedBy, of_opening, of_taking, of_fetching, of_showing, of_copying};
ghost use Rattle.filing.specs.Volumes.{entries_of};
ghost use Rattle.volume.specs.Taking.{fetched, fetch_answer, fetch_bytes};
ghost use Rattle.volume.specs.Tokens.{Own, found_on, says, with_token};
ghost use Rattle.report.specs.Balances.{balance_of};
ghost use Rattle.report.specs.Listing.{RowsStand};
ghost use Rattle.report.specs.Stands.{CopyStands};
ghost use Rattle.showing.specs.Riders.{ReadsEntry};
ghost use Rattle.showing.specs.Showing.{shown, copying, how_many, filled_in};
ghost use Rattle.filing.specs.declared.faults.VolumeFault.{VolumeFault};
ghost use Rattle.balancing.specs.Balancing.{balanced, balance_answer, balance_table, of_balancing};
ghost use Rattle.balancing.specs.Stands.{BalanceStands};
ghost use Rattle.law.specs.Archive.{taking_in, closing, opening_again, showing, fetching, balancing, taken_in, closed, opened, rows as rows_answer, bytes as bytes_answer, sums as sums_answer};
ghost use Rattle.law.specs.Copies.{CopyInLaw};
ghost use Rattle.law.specs.Runs.{Made, InLaw, tells};
ghost use Rattle.archive.specs.Archives.{archive_answer, taking_answer, taking_records, taking_volume, closing_answer, closing_records, closing_volume, record_count, ToldBy};

use filing::{Opened, VolumeFault};
use law::{balance, close, fetch, open, open_again, plain_copy, show, take_in};
use record::{Edition, Row};
use report::Pair;
use shelf::{Shelf, read_range};
use std::alloc::{AllocError, Global};
use volume::{Volume, find_trailer, is_among};

/// Why nothing was laid on the shelf.
#[derive(Clone, Copy, Debug, PartialEq, Eq)]
pub enum NotLaid {
    /// The volume is closed.
    Closed,
    /// The volume's call refused.
    Refused(VolumeFault),
}

/// A shelf, and the token of the volume on it, which is the shelf's own.
#[derive(Drop)]
pub struct Archive<S: Shelf> {
    shelf: S,
    volume: Volume,
    // The token is the shelf's own.
    ghost own: { Own volume (S.records shelf) (S.room shelf) },
}

impl<S: Shelf + Drop> Archive<S> {
    /// Opens the volume on a shelf. Where that is refused, the shelf is let go.
    pub fn open(shelf: S) -> Result<Archive<S>, VolumeFault>
        ensures shelf { IfOk result (λ a. a.shelf ≡ shelf) }
        ensures volume { IfOk result (λ a. Ok a.volume ≡ with_token (found_on (S.records shelf) (S.room shelf))) }
        ensures refused { IfErr result (λ e. found_on (S.records shelf) (S.room shelf) ≡ Err e) }
        ensures refusals { RefusedBy of_opening result }
        ensures first { IfOk result (λ a. S.records shelf ≡ [] → Made (S.room shelf) [] (S.records a.shelf) (S.room a.shelf)) }
        ensures law { MatchResult result
            (λ a. InLaw (S.records shelf) (S.room shelf) opening_again (opened (Ok (tells a.volume))) (S.records a.shelf) (S.room a.shelf))
            (λ e. InLaw (S.records shelf) (S.room shelf) opening_again (opened (Err e)) (S.records shelf) (S.room shelf)) }
    {
        let volume = open(&shelf)?;
        Ok(Archive { shelf, volume })
    }

    /// Reads the whole shelf again, as opening it does.
    pub fn reopen(self) -> Archive<S>
        ensures shelf { result.shelf ≡ self.shelf }
        ensures volume { result.volume ≡ self.volume }
        ensures law { InLaw (S.records self.shelf) (S.room self.shelf) opening_again (opened (Ok (tells result.volume))) (S.records result.shelf) (S.room result.shelf) }
    {
        let Archive { shelf, volume } = self;
        let volume = open_again(&shelf, volume);
        Archive { shelf, volume }
    }

    /// What opening found, or has become of it.
    pub fn opened(&self) -> Opened
        ensures { Ok result ≡ found_on (S.records self.now.shelf) (S.room self.now.shelf) }
    {
        Opened::from(&self.volume)
    }

    /// Takes a file in, and answers its entry's number. What the table of payers holds afterwards is not fixed.
    pub fn take_in<E: Edition>(
        &mut self,
        file: &[u8],
        edition: &E,
        payers: &mut [sums::Row<u64>],
    ) -> Result<usize, NotLaid>
        ensures answer { result ≡ taking_answer (check_of (judging (length payers.old)) (E.meaning edition.now) file.now) (S.room self.old.shelf) (S.records self.old.shelf) self.old.volume (front (slots file.now)) }
        ensures list { S.records self.new.shelf ≡ taking_records result (S.records self.old.shelf) self.old.volume (front (slots file.now)) }
        ensures volume { self.new.volume ≡ taking_volume result (S.records self.old.shelf) self.old.volume (front (slots file.now)) }
        ensures limit { S.room self.new.shelf ≡ S.room self.old.shelf }
        ensures same { S.same self.old.shelf self.new.shelf }
        ensures refusals { IfErr result (ToldBy of_taking) }
        ensures law { (r : Result ℕ VolumeFault) → result ≡ archive_answer r → InLaw (S.records self.old.shelf) (S.room self.old.shelf)
            (taking_in file.now (E.meaning edition.now) (length payers.old)) (taken_in r) (S.records self.new.shelf) (S.room self.new.shelf) }
    {
        match &mut self.volume {
            Volume::Open(token) => {
                take_in(&mut self.shelf, token, file, edition, payers).map_err(NotLaid::Refused)
            }
            Volume::Closed(_) => Err(NotLaid::Closed),
        }
    }

    /// Closes the volume, and answers how many entries it has.
    pub fn close(self) -> (Archive<S>, Result<usize, NotLaid>)
        ensures answer { result.1 ≡ closing_answer self.volume }
        ensures list { S.records result.0.shelf ≡ closing_records self.volume (S.records self.shelf) }
        ensures volume { result.0.volume ≡ closing_volume self.volume }
        ensures limit { S.room result.0.shelf ≡ S.room self.shelf }
        ensures same { S.same self.shelf result.0.shelf }
        ensures law { IfOk result.1 (λ _. InLaw (S.records self.shelf) (S.room self.shelf) closing closed (S.records result.0.shelf) (S.room result.0.shelf)) }
    {
        let Archive { mut shelf, volume } = self;
        match volume {
            Volume::Open(token) => {
                let token = close(&mut shelf, token);
                let archive = Archive {
                    shelf,
                    volume: Volume::Closed(token),
                };
                let entries = archive.opened().entries;
                (archive, Ok(entries))
            }
            closed => (
                Archive {
                    shelf,
                    volume: closed,
                },
                Err(NotLaid::Closed),
            ),
        }
    }

    /// Copies one record of an entry, as it stands on the shelf.
    pub fn fetch(&self, entry: usize, number: usize, out: &mut [u8; 80]) -> Result<(), VolumeFault>
        ensures answer { result ≡ fetch_answer (fetched entry number (entries_of (S.records self.now.shelf))) }
        ensures buffer { out.new ≡ fetch_bytes (fetched entry number (entries_of (S.records self.now.shelf))) out.old }
        ensures refusals { RefusedBy of_fetching result }
        ensures law { InLaw (S.records self.now.shelf) (S.room self.now.shelf) (fetching entry number out.old) (bytes_answer result out.new) (S.records self.now.shelf) (S.room self.now.shelf) }
    {
        fetch(&self.shelf, &self.volume, entry, number, out)
    }

    /// Fills the caller's rows with what an entry says, read under an edition: one row for each core record and rider, in order,
    /// and answers how many. Later rows stay as they were, and a refusal leaves all of them so.
    pub fn show<E: Edition>(
        &self,
        entry: usize,
        edition: &E,
        rows: &mut [Row],
    ) -> Result<usize, VolumeFault>
        ensures reads { ReadsEntry (E.meaning edition.now) entry (entries_of (S.records self.now.shelf)) result }
        ensures answer { result ≡ how_many (shown (E.meaning edition.now) entry (length rows.old) (entries_of (S.records self.now.shelf))) }
        ensures table { rows.new ≡ filled_in (shown (E.meaning edition.now) entry (length rows.old) (entries_of (S.records self.now.shelf))) rows.old }
        ensures refusals { RefusedBy of_showing result }
        ensures stands { IfOk result (λ _. RowsStand (E.meaning edition.now) (slice_index_or (entries_of (S.records self.now.shelf)) (entry - 1) [])) }
        ensures law { InLaw (S.records self.now.shelf) (S.room self.now.shelf) (showing entry (E.meaning edition.now) rows.old) (rows_answer result rows.new) (S.records self.now.shelf) (S.room self.now.shelf) }
    {
        show(&self.shelf, &self.volume, entry, edition, rows)
    }

    /// Writes the plain copy of an entry, read under an edition: each core record with its reserve positions blank and each rider as
    /// it stands, 82 bytes a record, and answers how many bytes. Later bytes stay as they were, and a refusal leaves all of them so.
    pub fn plain_copy<E: Edition>(
        &self,
        entry: usize,
        edition: &E,
        buffer: &mut [u8],
    ) -> Result<usize, VolumeFault>
        ensures reads { ReadsEntry (E.meaning edition.now) entry (entries_of (S.records self.now.shelf)) result }
        ensures answer { result ≡ how_many (copying (E.meaning edition.now) entry (length buffer.old) (entries_of (S.records self.now.shelf))) }
        ensures buffer { buffer.new ≡ filled_in (copying (E.meaning edition.now) entry (length buffer.old) (entries_of (S.records self.now.shelf))) buffer.old }
        ensures refusals { RefusedBy of_copying result }
        ensures stands { IfOk result (λ _. CopyStands (E.meaning edition.now) (slice_index_or (entries_of (S.records self.now.shelf)) (entry - 1) [])) }
        ensures law { CopyInLaw (S.records self.now.shelf) (S.room self.now.shelf) (E.meaning edition.now) entry buffer.old result buffer.new }
    {
        plain_copy(&self.shelf, &self.volume, entry, edition, buffer)
    }

    /// Fills a row for each payee and currency of the entries, with what was paid and deducted in its sections, in öre or cents, in
    /// order of first appearance, and answers how many. Later rows become zero, and all do where there are too few.
    pub fn balance(&self, rows: &mut [sums::Row<Pair>]) -> Result<usize, VolumeFault>
        ensures answer { result ≡ balance_answer (balanced (length rows.old) (entries_of (S.records self.now.shelf))) }
        ensures table { rows.new ≡ balance_table (balanced (length rows.old) (entries_of (S.records self.now.shelf))) (length rows.old) }
        ensures refusals { RefusedBy of_balancing result }
        ensures stands { BalanceStands (entries_of (S.records self.now.shelf)) rows.old result rows.new }
        ensures law { InLaw (S.records self.now.shelf) (S.room self.now.shelf) (balancing rows.old) (sums_answer result rows.new) (S.records self.now.shelf) (S.room self.now.shelf) }
    {
        balance(&self.shelf, &self.volume, rows)
    }

    /// How many records an entry has: so many rows are enough to show it.
    pub fn records_of(&self, entry: usize) -> Option<usize>
        ensures records { result ≡ record_count entry (entries_of (S.records self.now.shelf)) }
        ensures few { IfSome result (λ many. many ≤ 500000) }
        ensures run { IfSome result (λ many. (before : ℕ) × (slice_index_or (entries_of (S.records self.now.shelf)) (entry - 1) [] ≡ between before (before + many) (S.records self.now.shelf))) }
    {
        let opened = self.opened();
        if is_among(entry, opened.entries) {
            Some(find_trailer(&self.shelf, opened, entry).records as usize)
        } else {
            None
        }
    }

    /// How many records the shelf holds, trailers among them: so many rows are enough for a balance.
    pub fn count(&self) -> usize
        ensures count { result ≡ length (S.records self.now.shelf) }
        ensures enough { length (balance_of (entries_of (S.records self.now.shelf))) ≤ result }
    {
        self.shelf.count()
    }

    /// The bytes of all records.
    pub fn bytes(&self, heap: Global) -> Result<Vec<u8>, AllocError>
        ensures { IfOk result (λ b. b.items ≡ flat (S.records self.now.shelf)) }
    {
        let mut bytes = vec![in heap; 0u8; 80 * self.count()]?;
        let _ = read_range(&self.shelf, 1, &mut bytes);
        Ok(bytes)
    }
}
