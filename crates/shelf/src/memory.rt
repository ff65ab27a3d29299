//! A shelf over the caller's bytes.
ghost use Rattle.std.specs.Prelude.{◌≡◌, ◌≤◌, min, length, refl};
ghost use Rattle.std.proofs.Common.{◌∙◌};
ghost use Rattle.shelf.specs.Records.{places, held, written, whole_held, inside_held, bound_places};
ghost use Rattle.shelf.specs.Answers.{add_answer, added};

use crate::{MOST, Shelf, ShelfFault};

/// Records in the caller's bytes, each in the next 80 of them: there is no heap, by a rule of the project.
#[derive(Drop)]
pub struct MemoryShelf<'a> {
    bytes: &'a mut [u8],
    count: usize,
    // Each record has its place.
    ghost inside: { count ≤ places bytes.now },
}

// How many records a run of bytes has places for.
fn places_in(bytes: &[u8]) -> usize
    ensures { result ≡ places bytes.now }
{
    (bytes.len() / 80).min(MOST)
}

impl<'a> MemoryShelf<'a> {
    /// A shelf of the `count` records that lie in `bytes`, or of as many as it has places for.
    pub fn new(bytes: &'a mut [u8], count: usize) -> MemoryShelf<'a>
        ensures records { held result.bytes.now result.count ≡ held bytes.old count }
        ensures count { result.count ≡ min count (places bytes.old) }
        ensures bytes { result.bytes.now ≡ bytes.old }
        ensures named { result.bytes.ghost_name ≡ bytes.entry.ghost_name }
    {
        let places = places_in(bytes);
        MemoryShelf {
            bytes,
            count: count.min(places),
        }
    }

    // The records as they lie in the bytes.
    fn records(&self) -> &[[u8; 80]]
        ensures list { result.now ≡ held self.now.bytes.now self.now.count }
        ensures count { length result.now ≡ self.now.count }
    {
        &self.bytes.as_chunks::<80>().0[..self.count]
    }
}

impl Shelf for MemoryShelf<'_> {
    ghost records = { λ s. held s.bytes.now s.count };

    ghost room = { λ s. places s.bytes.now };

    ghost same = { λ s t. t.bytes.ghost_name ≡ s.bytes.ghost_name };

    ghost laws = { record { whole = λ s. whole_held s.bytes.now s.count; inside = λ s. inside_held s.bytes.now s.count; bound = λ s. bound_places s.bytes.now; same_refl = λ s. refl; same_trans = λ s t u p q. q ∙ p } };

    fn count(&self) -> usize {
        self.records().len()
    }

    fn limit(&self) -> usize {
        places_in(self.bytes)
    }

    // The last clause is more than any shelf promises: which of the caller's bytes change.
    fn add(&mut self, item: &[u8; 80]) -> Result<(), ShelfFault>
        ensures answer { result ≡ add_answer (length (⟦<Self as Shelf>⟧.records self.old)) (⟦<Self as Shelf>⟧.room self.old) }
        ensures list { ⟦<Self as Shelf>⟧.records self.new ≡ added (⟦<Self as Shelf>⟧.records self.old) (⟦<Self as Shelf>⟧.room self.old) item.now }
        ensures limit { ⟦<Self as Shelf>⟧.room self.new ≡ ⟦<Self as Shelf>⟧.room self.old }
        ensures same { ⟦<Self as Shelf>⟧.same self.old self.new }
        ensures bytes { self.new.bytes.now ≡ written self.old.bytes.now self.old.count item.now }
    {
        let count = self.records().len();
        if count == self.limit() {
            return Err(ShelfFault::Full(count));
        }
        let from = 80 * count;
        self.bytes[from..from + 80].copy_from_slice(item);
        self.count = count + 1;
        Ok(())
    }

    fn copy(&self, n: usize, out: &mut [u8; 80]) -> Result<(), ShelfFault> {
        let records = self.records();
        if n == 0 || n > records.len() {
            return Err(ShelfFault::NoRecord(n));
        }
        *out = records[n - 1];
        Ok(())
    }
}
