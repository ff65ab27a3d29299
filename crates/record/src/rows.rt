ghost use Rattle.std.specs.Prelude.{◌≡◌};
ghost use Rattle.record.specs.Rows.{kind_in, bare_row, row_of};

use crate::fields::Core;
use crate::kinds::Kind;
use field::ReferenceForm;

// What is shown of a record. What the record lacks is 0, and the form absent.
#[derive(Clone, Copy, Debug, PartialEq, Eq)]
pub struct Row {
    pub number: usize,
    pub code: u8,
    // payee or payer
    pub party: u64,
    // amount or sum, in öre or cents
    pub money: u64,
    pub serial: u64,
    pub reference: ReferenceForm,
}

// The kind of a core record.
impl From<Core> for Kind {
    ghost from_gives = { λ core r. r ≡ kind_in core };

    fn from(core: Core) -> Kind {
        match core {
            Core::Start(_) => Kind::Start,
            Core::Opening(_) => Kind::Opening,
            Core::Deposit(_) => Kind::Deposit,
            Core::Payment(_) => Kind::Payment,
            Core::Deduction(_) => Kind::Deduction,
            Core::ExtraReference(_) => Kind::ExtraReference,
            Core::NegativeReference(_) => Kind::NegativeReference,
            Core::Information => Kind::Information,
            Core::Name => Kind::Name,
            Core::AddressOne => Kind::AddressOne,
            Core::AddressTwo => Kind::AddressTwo,
            Core::CompanyNumber(_) => Kind::CompanyNumber,
            Core::End(_) => Kind::End,
        }
    }
}

// A row with number and code only.
fn bare_row(number: usize, code: u8) -> Row
    ensures { result ≡ bare_row number code }
{
    Row {
        number,
        code,
        party: 0,
        money: 0,
        serial: 0,
        reference: ReferenceForm::Absent,
    }
}

// The row of a core record that has this number.
pub fn core_row(number: usize, core: Core) -> Row
    ensures { result ≡ row_of number core }
{
    let bare = bare_row(number, u8::from(Kind::from(core)));
    match core {
        Core::Opening(o) => Row {
            party: o.payee,
            ..bare
        },
        Core::Payment(t)
        | Core::Deduction(t)
        | Core::ExtraReference(t)
        | Core::NegativeReference(t) => Row {
            party: t.payer,
            money: t.amount,
            serial: t.serial,
            reference: t.reference,
            ..bare
        },
        Core::Deposit(d) => Row {
            money: d.sum,
            serial: d.serial,
            ..bare
        },
        _ => bare,
    }
}
