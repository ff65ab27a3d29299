// Opening a shelf: its trailers, its entries, its end.
ghost use Rattle.std.specs.Prelude.{◌≡◌, ◌<◌, ◌≤◌, length, IfOk};
ghost use Rattle.filing.specs.Entries.{reads};
ghost use Rattle.filing.specs.Laws.{FilingLaws};
ghost use Rattle.filing.specs.Readings.{EntryLaws};
ghost use Rattle.filing.specs.Refusals.{RefusedBy, of_opening};
ghost use Rattle.filing.specs.Volumes.{opening_open, opening_closed, begins_98, last_of};
ghost use Rattle.volume.specs.Tokens.{with_token, found_on, Own};
ghost use Rattle.volume.specs.Laws.{OpensExactly};

use crate::tokens::{ClosedVolume, OpenVolume, Volume};
use entries::{Walk, record_at};
use filing::{VolumeFault, filing_laws};
use shelf::Shelf;
use trailer::{closing_says, is_right_closing};

// Whether the last record is taken for a closing record.
fn ends_98<S: Shelf>(shelf: &S) -> bool
    ensures { result ≡ begins_98 (last_of (S.records shelf.now)) }
{
    let count = shelf.count();
    if count == 0 {
        return false;
    }
    let item = record_at(shelf, count);
    item.starts_with(b"98")
}

// With `open_closed` it shares the walk; what is asked before and behind it is another thing.
fn open_open<S: Shelf>(shelf: &S) -> Result<Volume, VolumeFault>
    ensures { result ≡ with_token (opening_open reads (S.room shelf.now) (S.records shelf.now)) }
{
    let count = shelf.count();
    let walk = Walk::back_from(shelf, count)?;
    let entries = walk.entries();
    walk.judge()?;
    if count < shelf.limit() {
        Ok(Volume::Open(OpenVolume {
            entries,
            last: count,
        }))
    } else {
        Err(VolumeFault::NoRoom)
    }
}

fn open_closed<S: Shelf>(shelf: &S) -> Result<Volume, VolumeFault>
    requires { 0 < length (S.records shelf.now) }
    ensures { result ≡ with_token (opening_closed reads (S.records shelf.now)) }
{
    let count = shelf.count();
    let item = record_at(shelf, count);
    if !is_right_closing(&item, count) {
        return Err(VolumeFault::NoTrailer(count));
    }
    let last = count - 1;
    let walk = Walk::back_from(shelf, last)?;
    let entries = walk.entries();
    walk.judge()?;
    if closing_says(&item, entries) {
        Ok(Volume::Closed(ClosedVolume { entries, last }))
    } else {
        Err(VolumeFault::ClosingDiffers)
    }
}

/// What opening a shelf finds: the number of entries, and whether the volume is open or closed, in
/// a token. It opens exactly where its records are what filing some entries that can be read lays
/// down, with the closing record behind them or a place free; and these are the entries that later
/// calls find. Whatever the shelf, the laws of filing and of reading entries hold.
pub fn open<S: Shelf>(shelf: &S) -> Result<Volume, VolumeFault>
    ensures answer { result ≡ with_token (found_on (S.records shelf.now) (S.room shelf.now)) }
    ensures laws { FilingLaws }
    ensures readings { EntryLaws }
    ensures exactly { OpensExactly (S.records shelf.now) (S.room shelf.now) result }
    ensures own { IfOk result (λ v. Own v (S.records shelf.now) (S.room shelf.now)) }
    ensures refusals { RefusedBy of_opening result }
{
    filing_laws();
    if ends_98(shelf) {
        open_closed(shelf)
    } else {
        open_open(shelf)
    }
}
