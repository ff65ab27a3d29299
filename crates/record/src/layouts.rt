ghost use Rattle.std.specs.Prelude.{◌≡◌, ℕ, length};
ghost use Rattle.record.specs.Layouts.{must, layout_name, mark_of, read_start, read_opening, transfer_of, read_payment, deduction_code, read_deduction, read_extra, deposit_type_of, read_deposit, read_end, read_text, read_core as core_term};

use crate::fields::{Core, Deposit, DepositType, End, Field, Opening, Start, TestMark, Transfer};
use crate::kinds::Kind;
use field::{
    ReferenceForm, blanks, digit, digits, read_amount, read_currency, read_date,
    read_extra_reference, read_number, read_reference, read_time_stamp, texts,
};

// Each reader takes the 78 bytes behind the code: position p of the record is byte p - 3 of the rest. It takes them as a
// slice and asks for their length, since a rule of the project hands records and their parts on as slices.

fn must(holds: bool, field: Field) -> Result<(), Field>
    ensures { result ≡ must holds field }
{
    if holds { Ok(()) } else { Err(field) }
}

// `BGMAX` and 15 blanks.
fn is_layout_name(part: &[u8]) -> bool
    requires { length part.now ≡ 20 }
    ensures { result ≡ layout_name part.now }
{
    part.starts_with(b"BGMAX") && blanks(&part[5..20])
}

fn test_mark(b: u8) -> Option<TestMark>
    ensures { result ≡ mark_of b }
{
    match b {
        b'T' => Some(TestMark::Test),
        b'P' => Some(TestMark::Production),
        _ => None,
    }
}

fn start(rest: &[u8]) -> Result<Start, Field>
    requires { length rest.now ≡ 78 }
    ensures { result ≡ read_start rest.now }
{
    must(is_layout_name(&rest[0..20]), Field::LayoutName)?;
    must(digits(&rest[20..22]), Field::Version)?;
    let stamp = read_time_stamp(&rest[22..42]).ok_or(Field::TimeStamp)?;
    let mark = test_mark(rest[42]).ok_or(Field::TestMark)?;
    Ok(Start { stamp, mark })
}

fn opening(rest: &[u8]) -> Result<Opening, Field>
    requires { length rest.now ≡ 78 }
    ensures { result ≡ read_opening rest.now }
{
    let payee = read_number(&rest[0..10]).ok_or(Field::Payee)?;
    let plusgiro = &rest[10..20];
    must(digits(plusgiro) || blanks(plusgiro), Field::PlusgiroNumber)?;
    let currency = read_currency(&rest[20..23]).ok_or(Field::Currency)?;
    Ok(Opening { payee, currency })
}

// The fields of a payment, with the reference as its kind reads it.
fn transfer(rest: &[u8], form: Option<ReferenceForm>) -> Result<Transfer, Field>
    requires { length rest.now ≡ 78 }
    ensures { result ≡ transfer_of form rest.now }
{
    let payer = read_number(&rest[0..10]).ok_or(Field::Payer)?;
    let reference = form.ok_or(Field::Reference)?;
    let amount = read_amount(&rest[35..53]).ok_or(Field::Amount)?;
    must(digit(rest[54]), Field::Channel)?;
    let serial = read_number(&rest[55..67]).ok_or(Field::Serial)?;
    must(digit(rest[67]), Field::ImageMark)?;
    Ok(Transfer {
        payer,
        reference,
        amount,
        serial,
    })
}

fn payment(rest: &[u8]) -> Result<Transfer, Field>
    requires { length rest.now ≡ 78 }
    ensures { result ≡ read_payment rest.now }
{
    transfer(rest, read_reference(rest[53], &rest[10..35]))
}

// A deduction is whole, in part, or the last of several.
fn is_deduction_code(b: u8) -> bool
    ensures { result ≡ deduction_code b }
{
    matches!(b, b'0'..=b'2')
}

fn deduction(rest: &[u8]) -> Result<Transfer, Field>
    requires { length rest.now ≡ 78 }
    ensures { result ≡ read_deduction rest.now }
{
    let fields = payment(rest)?;
    must(is_deduction_code(rest[68]), Field::DeductionCode)?;
    Ok(fields)
}

fn extra(rest: &[u8]) -> Result<Transfer, Field>
    requires { length rest.now ≡ 78 }
    ensures { result ≡ read_extra rest.now }
{
    transfer(rest, read_extra_reference(rest[53], &rest[10..35]))
}

fn deposit_type(b: u8) -> Option<DepositType>
    ensures { result ≡ deposit_type_of b }
{
    match b as char {
        'K' => Some(DepositType::K),
        'D' => Some(DepositType::D),
        'S' => Some(DepositType::S),
        ' ' => Some(DepositType::Unmarked),
        _ => None,
    }
}

fn deposit(rest: &[u8]) -> Result<Deposit, Field>
    requires { length rest.now ≡ 78 }
    ensures { result ≡ read_deposit rest.now }
{
    must(digits(&rest[0..35]), Field::Account)?;
    let date = read_date(&rest[35..43]).ok_or(Field::Date)?;
    let serial = read_number(&rest[43..48]).ok_or(Field::DepositSerial)?;
    let sum = read_number(&rest[48..66]).ok_or(Field::Sum)?;
    let currency = read_currency(&rest[66..69]).ok_or(Field::Currency)?;
    let count = read_number(&rest[69..77]).ok_or(Field::Count)?;
    let kind = deposit_type(rest[77]).ok_or(Field::DepositType)?;
    Ok(Deposit {
        date,
        serial,
        sum,
        currency,
        count,
        kind,
    })
}

fn end(rest: &[u8]) -> Result<End, Field>
    requires { length rest.now ≡ 78 }
    ensures { result ≡ read_end rest.now }
{
    let payments = read_number(&rest[0..8]).ok_or(Field::Payments)?;
    let deductions = read_number(&rest[8..16]).ok_or(Field::Deductions)?;
    let extras = read_number(&rest[16..24]).ok_or(Field::ExtraReferences)?;
    let deposits = read_number(&rest[24..32]).ok_or(Field::Deposits)?;
    Ok(End {
        payments,
        deductions,
        extras,
        deposits,
    })
}

// A record of which only is asked that this part of it is text.
fn words(part: &[u8], core: Core) -> Result<Core, Field>
    ensures { result ≡ read_text core part.now }
{
    must(texts(part), Field::Text)?;
    Ok(core)
}

// The fields of a record of this kind, or the first field that breaks its layout.
pub fn read_core(kind: Kind, rest: &[u8]) -> Result<Core, Field>
    requires { length rest.now ≡ 78 }
    ensures { result ≡ core_term kind rest.now }
{
    match kind {
        Kind::Start => Ok(Core::Start(start(rest)?)),
        Kind::Opening => Ok(Core::Opening(opening(rest)?)),
        Kind::Deposit => Ok(Core::Deposit(deposit(rest)?)),
        Kind::Payment => Ok(Core::Payment(payment(rest)?)),
        Kind::Deduction => Ok(Core::Deduction(deduction(rest)?)),
        Kind::ExtraReference => Ok(Core::ExtraReference(extra(rest)?)),
        Kind::NegativeReference => Ok(Core::NegativeReference(extra(rest)?)),
        Kind::Information => words(&rest[0..50], Core::Information),
        Kind::Name => words(&rest[0..70], Core::Name),
        Kind::AddressOne => words(&rest[0..44], Core::AddressOne),
        Kind::AddressTwo => words(&rest[0..72], Core::AddressTwo),
        Kind::CompanyNumber => {
            let number = read_number(&rest[0..12]).ok_or(Field::CompanyNumber)?;
            Ok(Core::CompanyNumber(number))
        }
        Kind::End => Ok(Core::End(end(rest)?)),
    }
}
