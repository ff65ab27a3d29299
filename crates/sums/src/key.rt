//! What a key of a table is.
ghost use Rattle.std.specs.Prelude.{◌≡◌, Bool, nat_eq};
ghost use Rattle.sums.specs.Keys.{Lawful};
ghost use Rattle.std.proofs.Common.{rules};

/// A kind of key, by the equality that it is looked up by. Equal keys may be different values.
pub trait Key: Copy {
    // whether two keys are equal
    ghost same: { Self → Self → Bool };

    // the key of a zero row
    ghost zero: { Self };

    /// Whether this key equals the other.
    fn same_key(&self, other: &Self) -> bool
        ensures { result ≡ same self.now other.now };

    /// The key of a zero row.
    fn blank() -> Self
        ensures { result ≡ zero };

    // each kind of key owes that this is an equivalence
    ghost lawful: { Lawful same };
}

// Numbers, equal where they are the same number.
impl Key for u64 {
    ghost same = { nat_eq };

    ghost zero = { 0 };

    ghost lawful = { Prim.search rules };

    fn same_key(&self, other: &u64) -> bool {
        *self == *other
    }

    fn blank() -> u64 {
        0
    }
}
