ghost use Rattle.std.specs.Prelude.{◌≡◌};
ghost use Rattle.record.specs.Reserve.{used as used_term};

use crate::kinds::Kind;

// The last position that the kind's layout names: reserve positions are those after it, to 80.
pub fn used(kind: Kind) -> usize
    ensures { result ≡ used_term kind }
{
    match kind {
        Kind::Start => 45,
        Kind::Opening => 25,
        Kind::Deposit => 80,
        Kind::Payment => 70,
        Kind::Deduction => 71,
        Kind::ExtraReference => 70,
        Kind::NegativeReference => 70,
        Kind::Information => 52,
        Kind::Name => 72,
        Kind::AddressOne => 46,
        Kind::AddressTwo => 74,
        Kind::CompanyNumber => 14,
        Kind::End => 34,
    }
}
