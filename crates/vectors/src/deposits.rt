//! What a dealer makes of the calls' contracts alone: a file that was taken in is shown again under its edition, and twin files in two
//! archives have as many rows.
ghost use Rattle.std.specs.Prelude.{◌≡◌, [], replicate, IfSome};
ghost use Rattle.twins.specs.Twins.{spare_in, Twins};
ghost use Rattle.vectors.specs.Deposits.{NotWrong, EqualCounts};

use filing::VolumeFault;
use law::{close, open, show, take_in};
use record::{Edition, Row};
use shelf::Shelf;
use volume::Volume;

/// Takes a file in on an empty shelf, closes it, and shows the entry under the edition of its taking in. None where the shelf does not
/// open or the file is refused.
pub fn deposit_and_show<S: Shelf, E: Edition>(
    shelf: &mut S,
    file: &[u8],
    edition: &E,
    payers: &mut [sums::Row<u64>],
    rows: &mut [Row],
) -> Option<Result<usize, VolumeFault>>
    ensures { S.records shelf.old ≡ [] → IfSome result NotWrong }
{
    let Ok(Volume::Open(mut token)) = open(shelf) else {
        return None;
    };
    let Ok(entry) = take_in(shelf, &mut token, file, edition, payers) else {
        return None;
    };
    let token = close(shelf, token);
    Some(show(shelf, &Volume::Closed(token), entry, edition, rows))
}

/// Takes a file in on an empty shelf and its twin on another, and shows both under the edition of their taking in. None where a shelf does
/// not open or a file is refused. The table of payers serves twice, as only its length counts.
pub fn deposit_twice<S: Shelf, T: Shelf, E: Edition>(
    shelf: &mut S,
    other: &mut T,
    file: &[u8],
    twin: &[u8],
    edition: &E,
    payers: &mut [sums::Row<u64>],
    rows: &mut [Row],
    others: &mut [Row],
) -> Option<(Result<usize, VolumeFault>, Result<usize, VolumeFault>)>
    ensures { S.records shelf.old ≡ [] → T.records other.old ≡ [] → rows.old ≡ others.old
        → Twins (spare_in (replicate 4 (E.meaning edition.now))) file.now twin.now
        → IfSome result (λ both. EqualCounts both.0 both.1) }
{
    let Ok(Volume::Open(mut token)) = open(shelf) else {
        return None;
    };
    let Ok(Volume::Open(mut second)) = open(other) else {
        return None;
    };
    let Ok(entry) = take_in(shelf, &mut token, file, edition, payers) else {
        return None;
    };
    let Ok(_) = take_in(other, &mut second, twin, edition, payers) else {
        return None;
    };
    let one = show(shelf, &Volume::Open(token), entry, edition, rows);
    let two = show(other, &Volume::Open(second), entry, edition, others);
    Some((one, two))
}
