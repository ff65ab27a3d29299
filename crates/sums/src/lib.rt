//! A table of sums for any kind of key, over the caller's rows.
#![tactic(auto)]

mod key;

ghost use Rattle.std.specs.Prelude.{◌≡◌, ◌<◌, ◌≤◌, length, take, replicate, IfSome, OnErr, nat_le};
ghost use Rattle.sums.specs.Table.{place, zero_row, grown, answered, covered as covered_term};
ghost use Rattle.sums.specs.Laws.{Entered};

pub use key::Key;

/// A new key finds no free row.
#[derive(Clone, Copy, Debug, PartialEq, Eq)]
pub struct NoRow;

/// What was added and what was taken away under one key. Each column stops at the largest u64.
#[derive(Clone, Copy, Debug, PartialEq, Eq)]
pub struct Row<K> {
    pub key: K,
    pub added: u64,
    pub taken: u64,
}

impl<K: Key> Row<K> {
    /// A row in which nothing was entered.
    pub fn zero() -> Row<K>
        ensures { result ≡ zero_row K.zero }
    {
        Row {
            key: K::blank(),
            added: 0,
            taken: 0,
        }
    }

    // This row with the columns of the entry added to its own.
    fn plus(self, entry: Row<K>) -> Row<K>
        ensures { result ≡ grown self entry.added entry.taken }
    {
        Row {
            key: self.key,
            added: self.added.saturating_add(entry.added),
            taken: self.taken.saturating_add(entry.taken),
        }
    }

    // Whether no more was taken than added.
    fn is_covered(&self) -> bool
        ensures { result ≡ nat_le self.now.taken self.now.added }
    {
        self.taken <= self.added
    }
}

/// Sums in the caller's rows. The rows in use stand at the front, one for each key, in order of first appearance.
#[derive(Drop)]
pub struct Table<'a, K> {
    rows: &'a mut [Row<K>],
    used: usize,
    ghost within: { used ≤ length rows.now },
}

impl<'a, K: Key> Table<'a, K> {
    /// None of the rows is in use.
    pub fn new(rows: &'a mut [Row<K>]) -> Table<'a, K>
        ensures used { result.used ≡ 0 }
        ensures rows { result.rows.now ≡ rows.old }
        ensures lender { result.rows.ghost_name ≡ rows.entry.ghost_name }
    {
        Table { rows, used: 0 }
    }

    /// The first `used` rows are in use.
    pub fn with_used(rows: &'a mut [Row<K>], used: usize) -> Table<'a, K>
        requires { used ≤ length rows.old }
        ensures used { result.used ≡ used }
        ensures rows { result.rows.now ≡ rows.old }
        ensures lender { result.rows.ghost_name ≡ rows.entry.ghost_name }
    {
        Table { rows, used }
    }

    /// The rows in use.
    pub fn rows(&self) -> &[Row<K>]
        ensures { result.now ≡ take self.now.used self.now.rows.now }
    {
        &self.rows[..self.used]
    }

    /// No row is in use any more. What the rows hold stays.
    pub fn clear(&mut self)
        ensures used { self.new.used ≡ 0 }
        ensures rows { self.new.rows.now ≡ self.old.rows.now }
        ensures lender { self.new.rows.ghost_name ≡ self.old.rows.ghost_name }
    {
        self.used = 0;
    }

    /// Adds to the row of the entry's key, or takes the next free row if there is none.
    /// A refusal changes nothing.
    pub fn enter(&mut self, entry: Row<K>) -> Result<(), NoRow>
        ensures entered { Entered K.same self.old.used entry.key entry.added entry.taken
            self.old.rows.now self.new.rows.now (answered result self.new.used) }
        ensures refused { OnErr result (self.new.used ≡ self.old.used) }
        ensures room { length self.new.rows.now ≡ length self.old.rows.now }
        ensures lender { self.new.rows.ghost_name ≡ self.old.rows.ghost_name }
    {
        if let Some(i) = find(self.rows(), &entry.key) {
            self.rows[i] = self.rows[i].plus(entry);
            return Ok(());
        }
        if self.used == self.rows.len() {
            return Err(NoRow);
        }
        self.rows[self.used] = entry;
        self.used += 1;
        Ok(())
    }
}

/// The index of the first row that has this key.
pub fn find<K: Key>(rows: &[Row<K>], key: &K) -> Option<usize>
    ensures within { IfSome result (λ i. i < length rows.now) }
    ensures first { result ≡ place K.same rows.now key.now }
{
    rows.iter().position(|row| row.key.same_key(key))
}

/// Whether no row has more taken than added.
pub fn covered<K: Key>(rows: &[Row<K>]) -> bool
    ensures { result ≡ covered_term rows.now }
{
    rows.iter().all(|row| row.is_covered())
}

/// Makes a zero row of each row of the slice.
pub fn empty<K: Key>(rows: &mut [Row<K>])
    ensures { rows.new ≡ replicate (length rows.old) (zero_row K.zero) }
{
    for row in rows.iter_mut() {
        *row = Row::zero();
    }
}
