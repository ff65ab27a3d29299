ghost use Rattle.std.specs.Prelude.{◌≡◌, ◌-◌, ◌%◌, ◌^◌, ◌<◌, ◌≤◌, [], ◌∷◌, ◌++◌, length, take, drop};
ghost use Rattle.field.specs.Bytes.{every};
ghost use Rattle.trailer.specs.Digits.{value, value_of, is_zero, digits_of, check_of};

// Every byte has a value, so that whether it is a digit can be asked apart, once for a whole record.
fn value(b: u8) -> u64
    ensures { result ≡ value b }
{
    u64::from(b.saturating_sub(b'0').min(9))
}

// The number that up to 18 digits write, which a u64 always holds.
#[tactic(auto, using(field::proofs::Steps::ten_room))]
pub fn value_of(part: &[u8]) -> u64
    requires { length part.now ≤ 18 }
    ensures value { result ≡ value_of part.now }
    ensures bound { result < 10 ^ length part.now }
{
    let mut n: u64 = 0;
    for b in part {
        n = n * 10 + value(*b);
    }
    n
}

pub fn zeros(part: &[u8]) -> bool
    ensures { result ≡ every is_zero part.now }
{
    part.iter().all(|b| *b == b'0')
}

// The remainder, on division by 97, of digits followed by 00. No number holds so many digits, so only the remainder is
// carried along.
#[tactic(auto, using(crate::proofs::Steps::mod_step, crate::proofs::Steps::remainder_end))]
fn remainder(front: &[u8]) -> u64
    ensures { result ≡ value_of (front.now ++ 48 ∷ 48 ∷ []) % 97 }
{
    let mut rest: u64 = 0;
    for b in front {
        rest = (rest * 10 + value(*b)) % 97;
    }
    rest * 100 % 97
}

pub fn check_of(front: &[u8]) -> u64
    ensures { result ≡ check_of front.now }
{
    98 - remainder(front)
}

// Writes a number in as many digits as there is room for, from the last one on. By index, since nothing is known afterwards of
// a slice that was written through `iter_mut().rev()`.
#[tactic(auto, using(crate::proofs::Steps::digits_step), unfolding(crate::specs::Digits::digits_of))]
fn write_digits(n: u64, part: &mut [u8])
    ensures { part.new ≡ digits_of n (length part.old) }
{
    let mut left = n;
    for i in (0..part.len()).rev() {
        part[i] = b'0' + (left % 10) as u8;
        left /= 10;
    }
}

// Writes a number in the digits of a record from index `from` to index `to`. The second clause is for a record that is
// written from its first digit to its last: only what is written already counts there.
#[tactic(auto, using(crate::proofs::Numbers::length_digits))]
pub fn put(out: &mut [u8; 80], from: usize, to: usize, n: u64)
    requires { (from ≤ to) × (to ≤ 80) }
    ensures whole { out.new ≡ take from out.old ++ digits_of n (to - from) ++ drop to out.old }
    ensures front { take to out.new ≡ take from out.old ++ digits_of n (to - from) }
{
    write_digits(n, &mut out[from..to]);
}
