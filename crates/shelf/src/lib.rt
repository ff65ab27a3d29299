//! What holds records of 80 bytes: the calls of any shelf, a shelf over the caller's bytes, and two shelves as one.
#![tactic(auto)]

ghost use Rattle.std.specs.Prelude.{◌≡◌, ℕ, List, length};
ghost use Rattle.shelf.specs.Laws.{Laws};
ghost use Rattle.shelf.specs.Answers.{add_answer, added, copy_answer, copied};
ghost use Rattle.shelf.specs.Refusals.{refusal_of};

use refusal::{Layer, Place, Reason, Refusal};

mod memory;
mod pair;
mod runs;

pub use memory::MemoryShelf;
pub use pair::Joined;
pub use runs::{lay, read_range};

// No shelf has more places.
const MOST: usize = 500_000;

/// Why a shelf refused a call.
#[derive(Clone, Copy, Debug, PartialEq, Eq)]
pub enum ShelfFault {
    /// No place is left, at that many records.
    Full(usize),
    /// No record has that number.
    NoRecord(usize),
}

/// What a fault tells: its reason, the layer and the place.
impl From<ShelfFault> for Refusal {
    ghost from_gives = { λ fault told. told ≡ refusal_of fault };

    fn from(fault: ShelfFault) -> Refusal {
        let (reason, place) = match fault {
            ShelfFault::Full(count) => (Reason::ShelfFull, Place::Count(count)),
            ShelfFault::NoRecord(n) => (Reason::NoShelfRecord, Place::ShelfRecord(n)),
        };
        Refusal {
            reason,
            layer: Layer::Shelf,
            place: Some(place),
            within: None,
        }
    }
}

/// A list of records of 80 bytes, and a limit to its length. A refused call changes nothing.
// That the limit and the lenders stay is a clause each of every call that changes a shelf: two plain equations, and no name for both.
pub trait Shelf {
    ghost records: { Self → List (List ℕ) };

    ghost room: { Self → ℕ };

    // That two states of a shelf borrow from the same lenders: by it a caller knows what its bytes hold once the shelf is gone.
    ghost same: { Self → Self → Type 0 };

    ghost laws: { Laws records room same };

    /// How many records it holds.
    fn count(&self) -> usize
        ensures { result ≡ length (records self.now) };

    /// How many it can come to hold.
    fn limit(&self) -> usize
        ensures { result ≡ room self.now };

    /// Puts a record behind the last, unless the count is the limit.
    fn add(&mut self, item: &[u8; 80]) -> Result<(), ShelfFault>
        ensures answer { result ≡ add_answer (length (records self.old)) (room self.old) }
        ensures list { records self.new ≡ added (records self.old) (room self.old) item.now }
        ensures limit { room self.new ≡ room self.old }
        ensures same { same self.old self.new };

    /// Copies record n, counted from 1, to `out`.
    fn copy(&self, n: usize, out: &mut [u8; 80]) -> Result<(), ShelfFault>
        ensures answer { result ≡ copy_answer n (length (records self.now)) }
        ensures buffer { out.new ≡ copied (records self.now) n out.old };
}
