ghost use Rattle.std.specs.Prelude.{◌≡◌, length};
ghost use Rattle.field.specs.Money.{currency_of, amount_of};

use crate::numbers::read_number;

#[derive(Clone, Copy, Debug, PartialEq, Eq)]
pub enum Currency {
    Sek,
    Eur,
}

pub fn read_currency(part: &[u8]) -> Option<Currency>
    requires { length part.now ≡ 3 }
    ensures { result ≡ currency_of part.now }
{
    match part {
        b"SEK" => Some(Currency::Sek),
        b"EUR" => Some(Currency::Eur),
        _ => None,
    }
}

// An amount in öre or cents: its first five positions are zeros.
pub fn read_amount(part: &[u8]) -> Option<u64>
    requires { length part.now ≡ 18 }
    ensures { result ≡ amount_of part.now }
{
    read_number(part).filter(|n| *n <= 9_999_999_999_999)
}
