use field::{Currency, Date, ReferenceForm};
use std::fmt;

// A file meant for tests, or for production.
#[derive(Clone, Copy, Debug, PartialEq, Eq)]
pub enum TestMark {
    Test,
    Production,
}

#[derive(Clone, Copy, Debug, PartialEq, Eq)]
pub struct Start {
    // the twenty digits of the time stamp, as one number
    pub stamp: u128,
    pub mark: TestMark,
}

#[derive(Clone, Copy, Debug, PartialEq, Eq)]
pub struct Opening {
    pub payee: u64,
    pub currency: Currency,
}

// What payments, deductions and extra references have alike.
#[derive(Clone, Copy, Debug, PartialEq, Eq)]
pub struct Transfer {
    // the payer's number; zero where it is not known, as the record has it
    pub payer: u64,
    pub reference: ReferenceForm,
    // in öre or cents
    pub amount: u64,
    pub serial: u64,
}

// A mark that the payee has agreed on with its bank.
#[derive(Clone, Copy, Debug, PartialEq, Eq)]
pub enum DepositType {
    K,
    D,
    S,
    // blank: a mark as good as the others, and not a mark that could not be read
    Unmarked,
}

#[derive(Clone, Copy, Debug, PartialEq, Eq)]
pub struct Deposit {
    pub date: Date,
    pub serial: u64,
    // in öre or cents
    pub sum: u64,
    pub currency: Currency,
    // of payment and deduction records
    pub count: u64,
    pub kind: DepositType,
}

// How many records of each sort the file says that it has.
#[derive(Clone, Copy, Debug, PartialEq, Eq)]
pub struct End {
    pub payments: u64,
    pub deductions: u64,
    pub extras: u64,
    pub deposits: u64,
}

// A core record's fields. Reserve positions leave no trace in it.
#[derive(Clone, Copy, Debug, PartialEq, Eq)]
pub enum Core {
    Start(Start),
    Opening(Opening),
    Deposit(Deposit),
    Payment(Transfer),
    Deduction(Transfer),
    ExtraReference(Transfer),
    NegativeReference(Transfer),
    Information,
    Name,
    AddressOne,
    AddressTwo,
    CompanyNumber(u64),
    End(End),
}

// A field of a layout, to tell a person which one breaks it.
#[derive(Clone, Copy, Debug, PartialEq, Eq)]
pub enum Field {
    LayoutName,
    Version,
    TimeStamp,
    TestMark,
    Payee,
    PlusgiroNumber,
    Currency,
    Payer,
    Reference,
    Amount,
    Channel,
    Serial,
    ImageMark,
    DeductionCode,
    Text,
    CompanyNumber,
    Account,
    Date,
    DepositSerial,
    Sum,
    Count,
    DepositType,
    Payments,
    Deductions,
    ExtraReferences,
    Deposits,
}

// Where the field stands, for a person.
impl fmt::Display for Field {
    fn fmt<W: fmt::Write>(&self, f: &mut fmt::Formatter<W>) -> fmt::Result {
        f.write_str(match self {
            Field::LayoutName => "layout name, positions 3-22",
            Field::Version => "version, positions 23-24",
            Field::TimeStamp => "time stamp, positions 25-44",
            Field::TestMark => "test mark, position 45",
            Field::Payee => "payee, positions 3-12",
            Field::PlusgiroNumber => "plusgiro number, positions 13-22",
            Field::Currency => "currency, positions 23-25 of an opening, 69-71 of a deposit",
            Field::Payer => "payer, positions 3-12",
            Field::Reference => "reference, positions 13-37, under its code, position 56",
            Field::Amount => "amount, positions 38-55",
            Field::Channel => "payment channel, position 57",
            Field::Serial => "serial, positions 58-69",
            Field::ImageMark => "image mark, position 70",
            Field::DeductionCode => "deduction code, position 71",
            Field::Text => "text, from position 3",
            Field::CompanyNumber => "company number, positions 3-14",
            Field::Account => "account, positions 3-37",
            Field::Date => "date, positions 38-45",
            Field::DepositSerial => "serial, positions 46-50",
            Field::Sum => "sum, positions 51-68",
            Field::Count => "count, positions 72-79",
            Field::DepositType => "deposit type, position 80",
            Field::Payments => "payments, positions 3-10",
            Field::Deductions => "deductions, positions 11-18",
            Field::ExtraReferences => "extra references, positions 19-26",
            Field::Deposits => "deposits, positions 27-34",
        })
    }
}
