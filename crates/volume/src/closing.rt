// Closing a volume, and opening it again.
ghost use Rattle.std.specs.Prelude.{◌≡◌};
ghost use Rattle.filing.specs.Laws.{closed};
ghost use Rattle.filing.specs.Volumes.{entries_of};
ghost use Rattle.volume.specs.Tokens.{Own, OwnOpen, OwnClosed};

use crate::opening::open;
use crate::tokens::{ClosedVolume, OpenVolume, Volume};
use shelf::Shelf;
use trailer::write_closing;

/// Lays the closing record. It is never refused, since an open volume leaves a place free. The
/// entries stay.
pub fn close<S: Shelf>(shelf: &mut S, volume: OpenVolume) -> ClosedVolume
    requires { OwnOpen volume (S.records shelf.old) (S.room shelf.old) }
    ensures entries { result.entries ≡ volume.entries }
    ensures last { result.last ≡ volume.last }
    ensures list { S.records shelf.new ≡ closed volume.entries (S.records shelf.old) }
    ensures limit { S.room shelf.new ≡ S.room shelf.old }
    ensures same { S.same shelf.old shelf.new }
    ensures found { entries_of (S.records shelf.new) ≡ entries_of (S.records shelf.old) }
    ensures own { OwnClosed result (S.records shelf.new) (S.room shelf.new) }
{
    let mut item = [0u8; 80];
    write_closing(volume.entries as u64, volume.last as u64, &mut item);
    let _ = shelf.add(&item);
    ClosedVolume {
        entries: volume.entries,
        last: volume.last,
    }
}

// Takes up the old volume: as its token is the shelf's own, opening answers it again.
pub fn open_again<S: Shelf>(shelf: &S, old: Volume) -> Volume
    requires { Own old (S.records shelf.now) (S.room shelf.now) }
    ensures { result ≡ old }
{
    match open(shelf) {
        Ok(volume) => volume,
        Err(_) => unreachable(),
    }
}
