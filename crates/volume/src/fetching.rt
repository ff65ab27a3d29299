// Fetching one record of an entry.
ghost use Rattle.std.specs.Prelude.{◌≡◌, ◌+◌, ◌-◌, ◌<◌, ◌≤◌, [], length, Ok, slice_index_or};
ghost use Rattle.std.specs.List.{between};
ghost use Rattle.filing.specs.Refusals.{RefusedBy, of_fetching};
ghost use Rattle.filing.specs.Volumes.{entries_of};
ghost use Rattle.volume.specs.Tokens.{says, found_on, Own};
ghost use Rattle.volume.specs.Taking.{numbered_in, fetched, fetch_answer, fetch_bytes};

use crate::tokens::Volume;
use entries::{Walk, record_at};
use filing::{Opened, Standing, VolumeFault};
use shelf::Shelf;
use trailer::Trailer;

// What opening found, as a token says it.
impl From<&Volume> for Opened {
    ghost from_gives = { λ volume r. r ≡ says volume.now };

    fn from(volume: &Volume) -> Opened {
        match volume {
            Volume::Open(t) => Opened {
                entries: t.entries,
                last: t.last,
                standing: Standing::Open,
            },
            Volume::Closed(t) => Opened {
                entries: t.entries,
                last: t.last,
                standing: Standing::Closed,
            },
        }
    }
}

/// Whether k is the number of one of so many, counted from 1.
pub fn is_among(k: usize, many: usize) -> bool
    ensures { result ≡ numbered_in k many }
{
    (1..=many).contains(&k)
}

/// The trailer that bounds entry k: its records lie behind the first `previous`, so many as it says.
pub fn find_trailer<S: Shelf>(shelf: &S, opened: Opened, k: usize) -> Trailer
    requires own { found_on (S.records shelf.now) (S.room shelf.now) ≡ Ok opened }
    requires low { 0 < k }
    requires high { k ≤ opened.entries }
    ensures entry { between result.previous (result.previous + result.records) (S.records shelf.now)
        ≡ slice_index_or (entries_of (S.records shelf.now)) (k - 1) [] }
    ensures inside { result.previous + result.records ≤ length (S.records shelf.now) }
{
    Walk::of(shelf, opened.last, opened.entries).find_entry(k)
}

/// Copies record `number` of entry `entry` as it stands on the shelf.
pub fn fetch<S: Shelf>(
    shelf: &S,
    volume: &Volume,
    entry: usize,
    number: usize,
    out: &mut [u8; 80],
) -> Result<(), VolumeFault>
    requires { Own volume.now (S.records shelf.now) (S.room shelf.now) }
    ensures answer { result
        ≡ fetch_answer (fetched entry number (entries_of (S.records shelf.now))) }
    ensures buffer { out.new
        ≡ fetch_bytes (fetched entry number (entries_of (S.records shelf.now))) out.old }
    ensures refusals { RefusedBy of_fetching result }
{
    let opened = Opened::from(volume);
    if !is_among(entry, opened.entries) {
        return Err(VolumeFault::NoEntry(entry));
    }
    let trailer = find_trailer(shelf, opened, entry);
    if !is_among(number, trailer.records as usize) {
        return Err(VolumeFault::NoEntry(entry));
    }
    *out = record_at(shelf, trailer.previous as usize + number);
    Ok(())
}
