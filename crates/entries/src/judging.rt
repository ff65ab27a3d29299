// Entries against their trailers.
ghost use Rattle.std.specs.Prelude.{◌≡◌, ◌+◌, ◌≤◌, length};
ghost use Rattle.field.specs.Chains.{then};
ghost use Rattle.filing.specs.Entries.{reads};
ghost use Rattle.filing.specs.Volumes.{compared, judge};
ghost use Rattle.entries.specs.Walks.{parts_below, part_of};

use crate::reading::read_entry;
use crate::walking::Walk;
use filing::VolumeFault;
use shelf::Shelf;
use trailer::Trailer;

// Entry `number` before this trailer: whether it can be read, and is what the trailer says.
fn judge_one<S: Shelf>(shelf: &S, number: usize, trailer: Trailer) -> Result<(), VolumeFault>
    requires { trailer.previous + trailer.records ≤ length (S.records shelf.now) }
    ensures { result ≡ compared number (part_of (S.records shelf.now) trailer) (reads (part_of (S.records shelf.now) trailer).entry) }
{
    match read_entry(shelf, trailer.previous as usize, trailer.records as usize) {
        Ok(totals) => {
            if trailer.entry == number as u64 && trailer.totals == totals {
                Ok(())
            } else {
                Err(VolumeFault::Differs(number))
            }
        }
        Err(fault) => Err(VolumeFault::Unreadable(number, fault)),
    }
}

impl<'a, S: Shelf> Walk<'a, S> {
    // Each entry that is still to come against its trailer. The newest is met first, so that the fault met last is that of
    // the first faulty entry.
    pub fn judge(self) -> Result<(), VolumeFault>
        ensures { result ≡ judge reads (parts_below (S.records self.entry.shelf.now) self.entry.at) }
    {
        let shelf = self.shelf;
        let mut answer = Ok(());
        for (number, trailer) in self {
            answer = judge_one(shelf, number, trailer).and(answer);
        }
        answer
    }
}
