//! Two shelves as one.
ghost use Rattle.std.specs.Prelude.{◌≡◌, length, if◌then◌else◌};
ghost use Rattle.shelf.specs.Answers.{add_answer, added};
ghost use Rattle.shelf.specs.Pair.{parts, joins, to_second, fillable, pair_records, pair_room, PairLimit, pair_laws};

use crate::{MOST, Shelf, ShelfFault};

/// The records of the first and then those of the second. If their limits add to more than a shelf can have, it is the
/// first alone.
#[derive(Drop)]
pub struct Joined<A, B> {
    pub first: A,
    pub second: B,
}

impl<A: Shelf, B: Shelf> Joined<A, B> {
    // Whether the second counts.
    fn both(&self) -> bool
        ensures { result ≡ joins (parts A.Shelf B.Shelf self.now) }
    {
        self.first.limit() + self.second.limit() <= MOST
    }

    // Whether a record that is added goes to the second.
    fn to_second(&self) -> bool
        ensures { result ≡ to_second (parts A.Shelf B.Shelf self.now) }
    {
        self.both() && (self.second.count() > 0 || self.first.count() == self.first.limit())
    }

    /// The places that it can still fill. The free places of the first count only while the second is empty.
    pub fn free(&self) -> usize
        ensures value { result ≡ fillable (parts A.Shelf B.Shelf self.now) }
        ensures limit { PairLimit (parts A.Shelf B.Shelf self.now) }
    {
        let first = self.first.limit() - self.first.count();
        let second = self.second.limit() - self.second.count();
        if !self.both() {
            return first;
        }
        if self.second.count() > 0 {
            second
        } else {
            first + second
        }
    }
}

impl<A: Shelf, B: Shelf> Shelf for Joined<A, B> {
    ghost records = { λ s. pair_records (parts A.Shelf B.Shelf s) };

    ghost room = { λ s. pair_room (parts A.Shelf B.Shelf s) };

    ghost same = { λ s t. A.same s.first t.first × B.same s.second t.second };

    ghost laws = { pair_laws A.Shelf B.Shelf };

    fn count(&self) -> usize {
        if !self.both() {
            return self.first.count();
        }
        self.first.count() + self.second.count()
    }

    fn limit(&self) -> usize {
        self.count() + self.free()
    }

    // The last two clauses are more than any shelf promises: to which part the record goes.
    fn add(&mut self, item: &[u8; 80]) -> Result<(), ShelfFault>
        ensures answer { result ≡ add_answer (length (⟦<Self as Shelf>⟧.records self.old)) (⟦<Self as Shelf>⟧.room self.old) }
        ensures list { ⟦<Self as Shelf>⟧.records self.new ≡ added (⟦<Self as Shelf>⟧.records self.old) (⟦<Self as Shelf>⟧.room self.old) item.now }
        ensures limit { ⟦<Self as Shelf>⟧.room self.new ≡ ⟦<Self as Shelf>⟧.room self.old }
        ensures same { ⟦<Self as Shelf>⟧.same self.old self.new }
        ensures first { A.records self.new.first ≡ (if to_second (parts A.Shelf B.Shelf self.old) then A.records self.old.first else added (A.records self.old.first) (A.room self.old.first) item.now) }
        ensures second { B.records self.new.second ≡ (if to_second (parts A.Shelf B.Shelf self.old) then added (B.records self.old.second) (B.room self.old.second) item.now else B.records self.old.second) }
    {
        if self.free() == 0 {
            return Err(ShelfFault::Full(self.count()));
        }
        if self.to_second() {
            self.second.add(item)
        } else {
            self.first.add(item)
        }
    }

    fn copy(&self, n: usize, out: &mut [u8; 80]) -> Result<(), ShelfFault> {
        if n == 0 || n > self.count() {
            return Err(ShelfFault::NoRecord(n));
        }
        let first = self.first.count();
        if n <= first {
            self.first.copy(n, out)
        } else {
            self.second.copy(n - first, out)
        }
    }
}
