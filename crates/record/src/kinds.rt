ghost use Rattle.std.specs.Prelude.{◌≡◌};
ghost use Rattle.record.specs.Kinds.{code_of, kind_of, IsKindOf};

use std::error::Error;
use std::fmt;

// The thirteen kinds of core record, those that the manual describes.
#[derive(Clone, Copy, Debug, PartialEq, Eq)]
pub enum Kind {
    Start,
    Opening,
    Deposit,
    Payment,
    Deduction,
    ExtraReference,
    NegativeReference,
    Information,
    Name,
    AddressOne,
    AddressTwo,
    CompanyNumber,
    End,
}

// The code of a kind.
impl From<Kind> for u8 {
    ghost from_gives = { λ kind r. r ≡ code_of kind };

    fn from(kind: Kind) -> u8 {
        match kind {
            Kind::Start => 1,
            Kind::Opening => 5,
            Kind::Deposit => 15,
            Kind::Payment => 20,
            Kind::Deduction => 21,
            Kind::ExtraReference => 22,
            Kind::NegativeReference => 23,
            Kind::Information => 25,
            Kind::Name => 26,
            Kind::AddressOne => 27,
            Kind::AddressTwo => 28,
            Kind::CompanyNumber => 29,
            Kind::End => 70,
        }
    }
}

// A code that is no core code.
#[derive(Clone, Copy, Debug, PartialEq, Eq)]
pub struct NotCore(pub u8);

impl fmt::Display for NotCore {
    fn fmt<W: fmt::Write>(&self, f: &mut fmt::Formatter<W>) -> fmt::Result {
        write!(f, "no core record has the code {:02}", self.0)
    }
}

impl Error for NotCore {}

// The core kind with a code.
impl TryFrom<u8> for Kind {
    type Error = NotCore;

    ghost try_from_gives = { IsKindOf };

    fn try_from(code: u8) -> Result<Kind, NotCore> {
        match code {
            1 => Ok(Kind::Start),
            5 => Ok(Kind::Opening),
            15 => Ok(Kind::Deposit),
            20 => Ok(Kind::Payment),
            21 => Ok(Kind::Deduction),
            22 => Ok(Kind::ExtraReference),
            23 => Ok(Kind::NegativeReference),
            25 => Ok(Kind::Information),
            26 => Ok(Kind::Name),
            27 => Ok(Kind::AddressOne),
            28 => Ok(Kind::AddressTwo),
            29 => Ok(Kind::CompanyNumber),
            70 => Ok(Kind::End),
            _ => Err(NotCore(code)),
        }
    }
}
