//! What every refusal tells: its reason, the layer that refused, the place, and the file's refusal
//! for which an entry can't be read; and how it is written for a person.
#![tactic(auto)]

ghost use Rattle.std.specs.Prelude.{◌≡◌};
ghost use Rattle.refusal.specs.Causes.{cause_of};
ghost use Rattle.refusal.specs.Reasons.{number_of, words_of, Names};
ghost use Rattle.refusal.specs.Refusals.{refusal_of};

use std::error::Error;
use std::fmt;

/// Why something was refused.
#[derive(Clone, Copy, Debug, PartialEq, Eq)]
pub enum Reason {
    BrokenRecord,
    BadCode,
    OutOfOrder,
    BadField,
    UnlikeItem,
    TooMuchInformation,
    NoPlaceForPayer,
    PayerOwes,
    DepositDisagrees,
    CountsDisagree,
    TooManyRecords,
    Unfinished,
    RiderIllFormed,
    RiderAtWrongLevel,
    ShelfFull,
    NoShelfRecord,
    MarkedTest,
    SameTimeStamp,
    NoRoom,
    NoEntry,
    RowTableShort,
    BalanceTableShort,
    CopyBufferShort,
    NoTrailer,
    EntryUnreadable,
    TrailerDisagrees,
}

impl Reason {
    /// The number that stands for it.
    pub fn number(self) -> u8
        ensures { result ≡ number_of self }
    {
        match self {
            Reason::BrokenRecord => 1,
            Reason::BadCode => 2,
            Reason::OutOfOrder => 3,
            Reason::BadField => 4,
            Reason::UnlikeItem => 5,
            Reason::TooMuchInformation => 6,
            Reason::NoPlaceForPayer => 7,
            Reason::PayerOwes => 8,
            Reason::DepositDisagrees => 9,
            Reason::CountsDisagree => 10,
            Reason::TooManyRecords => 11,
            Reason::Unfinished => 12,
            Reason::RiderIllFormed => 13,
            Reason::RiderAtWrongLevel => 14,
            Reason::ShelfFull => 15,
            Reason::NoShelfRecord => 16,
            Reason::MarkedTest => 20,
            Reason::SameTimeStamp => 21,
            Reason::NoRoom => 22,
            Reason::NoEntry => 24,
            Reason::RowTableShort => 25,
            Reason::BalanceTableShort => 26,
            Reason::CopyBufferShort => 27,
            Reason::NoTrailer => 30,
            Reason::EntryUnreadable => 31,
            Reason::TrailerDisagrees => 32,
        }
    }

    /// It in words.
    pub fn words(self) -> &'static str
        ensures { result.now ≡ words_of self }
    {
        match self {
            Reason::BrokenRecord => "no whole record",
            Reason::BadCode => "code not two digits",
            Reason::OutOfOrder => "core record out of order, or first not start",
            Reason::BadField => "field breaks its layout",
            Reason::UnlikeItem => "extra reference unlike its item",
            Reason::TooMuchInformation => "100th information record",
            Reason::NoPlaceForPayer => "no place for a new payer",
            Reason::PayerOwes => "a payer's deductions too high",
            Reason::DepositDisagrees => "deposit disagrees",
            Reason::CountsDisagree => "end counts disagree",
            Reason::TooManyRecords => "record 50,001",
            Reason::Unfinished => "file ends before its end record",
            Reason::RiderIllFormed => "rider ill-formed",
            Reason::RiderAtWrongLevel => "rider at a wrong level",
            Reason::ShelfFull => "adding to a full shelf",
            Reason::NoShelfRecord => "no such shelf record",
            Reason::MarkedTest => "marked T",
            Reason::SameTimeStamp => "time stamp already there",
            Reason::NoRoom => "no room on the shelf",
            Reason::NoEntry => "no such entry or record",
            Reason::RowTableShort => "row table short",
            Reason::BalanceTableShort => "balance table short",
            Reason::CopyBufferShort => "copy buffer short",
            Reason::NoTrailer => "no right trailer where one is due",
            Reason::EntryUnreadable => "entry can't be read",
            Reason::TrailerDisagrees => "trailer disagrees with entry",
        }
    }
}

/// A number that no reason has.
#[derive(Clone, Copy, Debug, PartialEq, Eq)]
pub struct NoSuchRefusal(pub u8);

impl TryFrom<u8> for Reason {
    type Error = NoSuchRefusal;

    ghost try_from_gives = { Names };

    fn try_from(number: u8) -> Result<Self, NoSuchRefusal> {
        match number {
            1 => Ok(Reason::BrokenRecord),
            2 => Ok(Reason::BadCode),
            3 => Ok(Reason::OutOfOrder),
            4 => Ok(Reason::BadField),
            5 => Ok(Reason::UnlikeItem),
            6 => Ok(Reason::TooMuchInformation),
            7 => Ok(Reason::NoPlaceForPayer),
            8 => Ok(Reason::PayerOwes),
            9 => Ok(Reason::DepositDisagrees),
            10 => Ok(Reason::CountsDisagree),
            11 => Ok(Reason::TooManyRecords),
            12 => Ok(Reason::Unfinished),
            13 => Ok(Reason::RiderIllFormed),
            14 => Ok(Reason::RiderAtWrongLevel),
            15 => Ok(Reason::ShelfFull),
            16 => Ok(Reason::NoShelfRecord),
            20 => Ok(Reason::MarkedTest),
            21 => Ok(Reason::SameTimeStamp),
            22 => Ok(Reason::NoRoom),
            24 => Ok(Reason::NoEntry),
            25 => Ok(Reason::RowTableShort),
            26 => Ok(Reason::BalanceTableShort),
            27 => Ok(Reason::CopyBufferShort),
            30 => Ok(Reason::NoTrailer),
            31 => Ok(Reason::EntryUnreadable),
            32 => Ok(Reason::TrailerDisagrees),
            _ => Err(NoSuchRefusal(number)),
        }
    }
}

/// The words of the reason that has the number.
pub fn cause(number: u8) -> &'static str
    ensures { result.now ≡ cause_of number }
{
    match Reason::try_from(number) {
        Ok(reason) => reason.words(),
        Err(_) => "no such refusal",
    }
}

/// The part of the product that refused.
#[derive(Clone, Copy, Debug, PartialEq, Eq)]
pub enum Layer {
    File,
    Shelf,
    Volume,
}

/// Where it was refused, or what it would have needed.
#[derive(Clone, Copy, Debug, PartialEq, Eq)]
pub enum Place {
    /// A record of the file, counted from 1; where the file ends too early, the last record + 1.
    Record(usize),
    /// How many records the shelf holds.
    Count(usize),
    /// A record of the shelf, counted from 1.
    ShelfRecord(usize),
    /// An entry of the volume, counted from 1; 0 stands for the closing record.
    Entry(usize),
    /// A record of an entry, both counted from 1.
    EntryRecord { entry: usize, at: usize },
    /// How many rows the caller's table would have needed.
    Rows(usize),
    /// How many bytes the caller's buffer would have needed.
    Bytes(usize),
}

/// A file's refusal entire: why, and at which record, counted from 1.
#[derive(Clone, Copy, Debug, PartialEq, Eq)]
pub struct FileRefusal {
    /// Why.
    pub reason: Reason,
    /// The record; where the file ends too early, the last record + 1.
    pub at: usize,
}

/// What is told of a refused call.
#[derive(Clone, Copy, Debug, PartialEq, Eq)]
pub struct Refusal {
    pub reason: Reason,
    pub layer: Layer,
    /// None with the reasons 20, 22 and 26, which have no place.
    pub place: Option<Place>,
    /// The file's refusal for which an entry can't be read; none with any reason but 31.
    pub within: Option<FileRefusal>,
}

impl From<FileRefusal> for Refusal {
    ghost from_gives = { λ file r. r ≡ refusal_of file };

    fn from(file: FileRefusal) -> Refusal {
        Refusal {
            reason: file.reason,
            layer: Layer::File,
            place: Some(Place::Record(file.at)),
            within: None,
        }
    }
}

impl Refusal {
    /// The number of its reason.
    pub fn number(self) -> u8
        ensures { result ≡ number_of self.reason }
    {
        self.reason.number()
    }
}

impl fmt::Display for Reason {
    fn fmt<W: fmt::Write>(&self, f: &mut fmt::Formatter<W>) -> fmt::Result {
        f.write_str(self.words())
    }
}

impl fmt::Display for NoSuchRefusal {
    fn fmt<W: fmt::Write>(&self, f: &mut fmt::Formatter<W>) -> fmt::Result {
        write!(f, "no refusal has number {}", self.0)
    }
}

impl Error for NoSuchRefusal {}

impl fmt::Display for Layer {
    fn fmt<W: fmt::Write>(&self, f: &mut fmt::Formatter<W>) -> fmt::Result {
        f.write_str(match self {
            Layer::File => "file",
            Layer::Shelf => "shelf",
            Layer::Volume => "volume",
        })
    }
}

impl fmt::Display for Place {
    fn fmt<W: fmt::Write>(&self, f: &mut fmt::Formatter<W>) -> fmt::Result {
        match self {
            Place::Record(n) => write!(f, ", record {n}"),
            Place::Count(n) => write!(f, ", count {n}"),
            Place::ShelfRecord(n) => write!(f, ", shelf record {n}"),
            Place::Entry(n) => write!(f, ", entry {n}"),
            Place::EntryRecord { entry, at } => write!(f, ", entry {entry}, record {at}"),
            Place::Rows(n) => write!(f, ", {n} rows needed"),
            Place::Bytes(n) => write!(f, ", {n} bytes needed"),
        }
    }
}

impl fmt::Display for FileRefusal {
    fn fmt<W: fmt::Write>(&self, f: &mut fmt::Formatter<W>) -> fmt::Result {
        let FileRefusal { reason, at } = *self;
        let number = reason.number();
        write!(f, "{number}, file, record {at}: {reason}")
    }
}

impl fmt::Display for Refusal {
    fn fmt<W: fmt::Write>(&self, f: &mut fmt::Formatter<W>) -> fmt::Result {
        let Refusal {
            reason,
            layer,
            place,
            within,
        } = *self;
        let number = reason.number();
        match place {
            Some(place) => write!(f, "{number}, {layer}{place}: {reason}")?,
            None => write!(f, "{number}, {layer}: {reason}")?,
        }
        match within {
            Some(file) => write!(f, ": {file}"),
            None => Ok(()),
        }
    }
}
