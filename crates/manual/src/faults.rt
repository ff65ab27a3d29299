ghost use Rattle.std.specs.Prelude.{◌≡◌};
ghost use Rattle.manual.specs.declared.faults.Cause.TheVariants.{Unreadable, NoPlace};
ghost use Rattle.manual.specs.Refusals.{reason_of, told_of, file_refusal};

use record::RecordFault;
use refusal::{FileRefusal, Reason, Refusal};
use sums::NoRow;

// Why a file is refused at a record.
#[derive(Clone, Copy, Debug, PartialEq, Eq)]
pub enum Cause {
    // bytes are left, and no whole record
    Broken,
    // the record cannot be read by itself
    Unreadable(RecordFault),
    // a core record out of order, or the first record is no start record
    Order,
    // an extra reference has another payer or serial than its item
    UnlikeItem,
    // the 100th information record of an item
    Information,
    // a new payer finds no row in the table
    NoPlace,
    // a payer's deductions exceed its payments
    PayerOwes,
    // the deposit has not its section's currency, count or sum
    Deposit,
    // the end record has not the file's counts
    Counts,
    // record 50,001
    TooMany,
    // no end record came
    Unfinished,
    RiderIllFormed,
    RiderLevel,
}

impl From<RecordFault> for Cause {
    ghost from_gives = { λ e r. r ≡ Unreadable e };

    fn from(e: RecordFault) -> Cause {
        Cause::Unreadable(e)
    }
}

impl From<NoRow> for Cause {
    ghost from_gives = { λ _ r. r ≡ NoPlace };

    fn from(_e: NoRow) -> Cause {
        Cause::NoPlace
    }
}

// A file refused at the record with this number, counted from 1.
#[derive(Clone, Copy, Debug, PartialEq, Eq)]
pub struct FileFault {
    pub number: usize,
    pub cause: Cause,
}

// Why the file is refused, as every refusal tells it.
impl From<Cause> for Reason {
    ghost from_gives = { λ cause r. r ≡ reason_of cause };

    fn from(cause: Cause) -> Reason {
        match cause {
            Cause::Unreadable(e) => Reason::from(e),
            Cause::Broken => Reason::BrokenRecord,
            Cause::Order => Reason::OutOfOrder,
            Cause::UnlikeItem => Reason::UnlikeItem,
            Cause::Information => Reason::TooMuchInformation,
            Cause::NoPlace => Reason::NoPlaceForPayer,
            Cause::PayerOwes => Reason::PayerOwes,
            Cause::Deposit => Reason::DepositDisagrees,
            Cause::Counts => Reason::CountsDisagree,
            Cause::TooMany => Reason::TooManyRecords,
            Cause::Unfinished => Reason::Unfinished,
            Cause::RiderIllFormed => Reason::RiderIllFormed,
            Cause::RiderLevel => Reason::RiderAtWrongLevel,
        }
    }
}

// What the refusal tells: why, and at which record.
impl From<FileFault> for FileRefusal {
    ghost from_gives = { λ fault r. r ≡ told_of fault };

    fn from(fault: FileFault) -> FileRefusal {
        FileRefusal {
            reason: Reason::from(fault.cause),
            at: fault.number,
        }
    }
}

impl From<FileFault> for Refusal {
    ghost from_gives = { λ fault r. r ≡ file_refusal fault };

    fn from(fault: FileFault) -> Refusal {
        Refusal::from(FileRefusal::from(fault))
    }
}
