// Time stamps of entries: which entry of a volume has a given one.
ghost use Rattle.std.specs.Prelude.{◌≡◌, ◌+◌, ◌≤◌, map, reverse, length};
ghost use Rattle.filing.specs.Taking.{start_in, start_of, same_stamp, first_same};
ghost use Rattle.filing.specs.Volumes.{entry_of};
ghost use Rattle.entries.specs.Walks.{parts_below, part_of};

use crate::reading::record_at;
use crate::walking::Walk;
use record::{Bare, Class, Core, Start, classify};
use shelf::Shelf;
use trailer::Trailer;

// The fields of this record, if it is a right start record.
pub fn start_of(item: &[u8; 80]) -> Option<Start>
    ensures { result ≡ start_in item.now }
{
    match classify(item, &Bare) {
        Class::Core(_, Ok(Core::Start(start))) => Some(start),
        _ => None,
    }
}

// Whether both are start records, and have one time stamp. No `==`, since their marks may differ.
fn same_stamp(x: Option<Start>, y: Option<Start>) -> bool
    ensures { result ≡ same_stamp x y }
{
    x.is_some_and(|x| y.is_some_and(|y| y.stamp == x.stamp))
}

// Whether the entry before this trailer has the time stamp. An entry of no records has none.
#[tactic(auto, using(crate::proofs::EntryStamps::no_start, crate::proofs::EntryStamps::start_at))]
fn has_same<S: Shelf>(shelf: &S, trailer: Trailer, start: Option<Start>) -> bool
    requires { trailer.previous + trailer.records ≤ length (S.records shelf.now) }
    ensures { result ≡ same_stamp start (start_of (part_of (S.records shelf.now) trailer).entry) }
{
    if trailer.records == 0 {
        return false;
    }
    same_stamp(
        start,
        start_of(&record_at(shelf, trailer.previous as usize + 1)),
    )
}

impl<'a, S: Shelf> Walk<'a, S> {
    // The number of the first entry still to come that has the time stamp: of those that have it, the one met last.
    pub fn first_with(self, start: Option<Start>) -> Option<usize>
        ensures { result ≡ first_same start 1 (reverse (map entry_of (parts_below (S.records self.entry.shelf.now) self.entry.at))) }
    {
        let shelf = self.shelf;
        let mut found = None;
        for (number, trailer) in self {
            if has_same(shelf, trailer, start) {
                found = Some(number);
            }
        }
        found
    }
}
