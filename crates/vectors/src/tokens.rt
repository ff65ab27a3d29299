// Calls where more than one token is at hand. Each call gets the one that is its shelf's own, as the shelf is at the call. The
// edits in must-fail/ hand over another, and then nothing proves that it is the own one.
ghost use Rattle.std.specs.Prelude.{◌≡◌, length, IfSome};
ghost use Rattle.record.specs.Editions.{bare};
ghost use Rattle.filing.specs.Volumes.{entries_of};
ghost use Rattle.volume.specs.Taking.{fetched, fetch_answer};
ghost use Rattle.volume.specs.Tokens.{OwnOpen, OwnClosed};
ghost use Rattle.showing.specs.Showing.{shown, how_many};
ghost use Rattle.balancing.specs.Balancing.{balanced, balance_answer};

use filing::VolumeFault;
use law::{balance, close, fetch, open, show, take_in};
use record::{Bare, Row as Shown};
use report::Pair;
use shelf::Shelf;
use sums::Row;
use volume::{ClosedVolume, OpenVolume, Volume};

// Takes the file in on two shelves, and answers their tokens afterwards; none where one of the two is not an open volume.
pub fn take_in_on_both<A: Shelf, B: Shelf>(
    first: &mut A,
    second: &mut B,
    file: &[u8],
) -> Option<(OpenVolume, OpenVolume)>
    ensures first { IfSome result (λ t. OwnOpen t.0 (A.records first.new) (A.room first.new)) }
    ensures second { IfSome result (λ t. OwnOpen t.1 (B.records second.new) (B.room second.new)) }
{
    let mut payers = [Row::zero()];
    let Ok(Volume::Open(mut token)) = open(first) else {
        return None;
    };
    let Ok(Volume::Open(mut other)) = open(second) else {
        return None;
    };
    let _ = take_in(first, &mut token, file, &Bare, &mut payers);
    let _ = take_in(second, &mut other, file, &Bare, &mut payers);
    Some((token, other))
}

// Closes the volumes of two shelves; none where one of the two is not an open volume.
pub fn close_both<A: Shelf, B: Shelf>(
    first: &mut A,
    second: &mut B,
) -> Option<(ClosedVolume, ClosedVolume)>
    ensures first { IfSome result (λ t. OwnClosed t.0 (A.records first.new) (A.room first.new)) }
    ensures second { IfSome result (λ t. OwnClosed t.1 (B.records second.new) (B.room second.new)) }
{
    let Ok(Volume::Open(token)) = open(first) else {
        return None;
    };
    let Ok(Volume::Open(other)) = open(second) else {
        return None;
    };
    let closed = close(first, token);
    let other_closed = close(second, other);
    Some((closed, other_closed))
}

// Fetches the first record of entry 1 from two shelves; none where one of the two is no volume.
pub fn fetch_from_both<A: Shelf, B: Shelf>(
    first: &A,
    second: &B,
    out: &mut [u8; 80],
    other_out: &mut [u8; 80],
) -> Option<(Result<(), VolumeFault>, Result<(), VolumeFault>)>
    ensures first { IfSome result (λ r. r.0 ≡ fetch_answer (fetched 1 1 (entries_of (A.records first.now)))) }
    ensures second { IfSome result (λ r. r.1 ≡ fetch_answer (fetched 1 1 (entries_of (B.records second.now)))) }
{
    let Ok(token) = open(first) else {
        return None;
    };
    let Ok(other) = open(second) else {
        return None;
    };
    let answer = fetch(first, &token, 1, 1, out);
    let other_answer = fetch(second, &other, 1, 1, other_out);
    Some((answer, other_answer))
}

// Takes two files in by one token, and answers it; none where the shelf is not an open volume. The older token is let go.
pub fn take_in_two<S: Shelf>(shelf: &mut S, file: &[u8], next: &[u8]) -> Option<OpenVolume>
    ensures { IfSome result (λ t. OwnOpen t (S.records shelf.new) (S.room shelf.new)) }
{
    let mut payers = [Row::zero()];
    let Ok(Volume::Open(mut old)) = open(shelf) else {
        return None;
    };
    let Ok(Volume::Open(mut token)) = open(shelf) else {
        return None;
    };
    let _ = take_in(shelf, &mut token, file, &Bare, &mut payers);
    let _ = take_in(shelf, &mut token, next, &Bare, &mut payers);
    Some(token)
}

// Takes a file in, and fetches the first record of entry 1; none where the shelf is not an open volume. The older token is
// let go.
pub fn take_in_and_fetch<S: Shelf>(
    shelf: &mut S,
    file: &[u8],
    out: &mut [u8; 80],
) -> Option<Result<(), VolumeFault>>
    ensures { IfSome result (λ r. r ≡ fetch_answer (fetched 1 1 (entries_of (S.records shelf.new)))) }
{
    let mut payers = [Row::zero()];
    let Ok(old) = open(shelf) else {
        return None;
    };
    let Ok(Volume::Open(mut token)) = open(shelf) else {
        return None;
    };
    let _ = take_in(shelf, &mut token, file, &Bare, &mut payers);
    let taken = Volume::Open(token);
    Some(fetch(shelf, &taken, 1, 1, out))
}

// Closes a volume, and fetches the first record of entry 1; none where the shelf is not an open volume. The older token is
// let go.
pub fn close_and_fetch<S: Shelf>(
    shelf: &mut S,
    out: &mut [u8; 80],
) -> Option<Result<(), VolumeFault>>
    ensures { IfSome result (λ r. r ≡ fetch_answer (fetched 1 1 (entries_of (S.records shelf.new)))) }
{
    let Ok(Volume::Open(old)) = open(shelf) else {
        return None;
    };
    let Ok(Volume::Open(token)) = open(shelf) else {
        return None;
    };
    let closed = Volume::Closed(close(shelf, token));
    Some(fetch(shelf, &closed, 1, 1, out))
}

// Takes a file in, and balances; none where the shelf is not an open volume. The older token is let go.
pub fn take_in_and_balance<S: Shelf>(
    shelf: &mut S,
    file: &[u8],
    rows: &mut [Row<Pair>],
) -> Option<Result<usize, VolumeFault>>
    ensures { IfSome result (λ r. r ≡ balance_answer (balanced (length rows.old) (entries_of (S.records shelf.new)))) }
{
    let mut payers = [Row::zero()];
    let Ok(old) = open(shelf) else {
        return None;
    };
    let Ok(Volume::Open(mut token)) = open(shelf) else {
        return None;
    };
    let _ = take_in(shelf, &mut token, file, &Bare, &mut payers);
    let taken = Volume::Open(token);
    Some(balance(shelf, &taken, rows))
}

// Shows entry 1 of two shelves under the bare edition; none where one of the two is no volume.
pub fn show_both<A: Shelf, B: Shelf>(
    first: &A,
    second: &B,
    rows: &mut [Shown],
    other_rows: &mut [Shown],
) -> Option<(Result<usize, VolumeFault>, Result<usize, VolumeFault>)>
    ensures first { IfSome result (λ r. r.0 ≡ how_many (shown bare 1 (length rows.old) (entries_of (A.records first.now)))) }
    ensures second { IfSome result (λ r. r.1 ≡ how_many (shown bare 1 (length other_rows.old) (entries_of (B.records second.now)))) }
{
    let Ok(token) = open(first) else {
        return None;
    };
    let Ok(other) = open(second) else {
        return None;
    };
    let answer = show(first, &token, 1, &Bare, rows);
    let other_answer = show(second, &other, 1, &Bare, other_rows);
    Some((answer, other_answer))
}
