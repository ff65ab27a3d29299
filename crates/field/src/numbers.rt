ghost use Rattle.std.specs.Prelude.{◌≡◌, ◌+◌, ◌*◌, ◌^◌, ◌<◌, ◌≤◌, length, IfSome};
ghost use Rattle.field.specs.Numbers.{number_of};

use crate::bytes::digit;

// The number that 1 to 19 digits write; none where another byte is among them.
#[tactic(auto, using(crate::proofs::Steps::ten_room))]
pub fn read_number(part: &[u8]) -> Option<u64>
    requires { (1 ≤ length part.now) × (length part.now ≤ 19) }
    ensures value { result ≡ number_of part.now }
    ensures bound { IfSome result (λ n. n < 10 ^ length part.now) }
{
    let mut n: u64 = 0;
    for b in part {
        if !digit(*b) {
            return None;
        }
        n = n * 10 + u64::from(*b - b'0');
    }
    Some(n)
}

// Ten digits more behind a number.
fn joined(high: u64, low: u64) -> u128
    ensures { result ≡ high * 10000000000 + low }
{
    u128::from(high) * 10_000_000_000 + u128::from(low)
}

// The number that twenty digits write, which no u64 holds: those of a time stamp.
#[tactic(auto, using(crate::proofs::Halves::halves))]
pub fn read_twenty(part: &[u8]) -> Option<u128>
    requires { length part.now ≡ 20 }
    ensures { result ≡ number_of part.now }
{
    let high = read_number(&part[0..10])?;
    let low = read_number(&part[10..20])?;
    Some(joined(high, low))
}
