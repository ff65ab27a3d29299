ghost use Rattle.std.specs.Prelude.{◌≡◌};
ghost use Rattle.filing.specs.declared.faults.VolumeFault.TheVariants.{File as OfFile};
ghost use Rattle.filing.specs.Refusals.{volume_refusal, at_volume as volume_told};
ghost use Rattle.filing.specs.Refusals.{unreadable as unreadable_told, at_entry_record as entry_told};

use manual::FileFault;
use refusal::{FileRefusal, Layer, Place, Reason, Refusal};

/// Why a call of a volume is refused.
#[derive(Clone, Copy, Debug, PartialEq, Eq)]
pub enum VolumeFault {
    /// The file to be taken in is refused.
    File(FileFault),
    /// The file is marked as a test.
    Marked,
    /// The entry with this number has the file's time stamp.
    SameStamp(usize),
    /// Not enough places are free.
    NoRoom,
    /// The entry with this number, or the record asked for in it, is not there.
    NoEntry(usize),
    /// The shelf record with this number is no right trailer, where one is due.
    NoTrailer(usize),
    /// The entry with this number cannot be read as a file, and why.
    Unreadable(usize, FileFault),
    /// The entry with this number is not what its trailer says.
    Differs(usize),
    /// The closing record does not say how many entries there are, or has not its zeros.
    ClosingDiffers,
    /// The entry with this number has a rider that the reader's edition finds ill-formed or at a
    /// wrong level: which of the two, and at which record of the entry.
    Rider(usize, FileFault),
    /// The caller's table has too few rows for those of an entry; so many are needed.
    RowsShort(usize),
    /// The caller's table has too few rows for a balance.
    BalanceShort,
    /// The caller's buffer has too few bytes for the plain copy of an entry; so many are needed.
    CopyShort(usize),
}

impl From<FileFault> for VolumeFault {
    ghost from_gives = { λ e r. r ≡ OfFile e };

    fn from(e: FileFault) -> VolumeFault {
        VolumeFault::File(e)
    }
}

// What the refusal tells.
impl From<VolumeFault> for Refusal {
    ghost from_gives = { λ fault r. r ≡ volume_refusal fault };

    fn from(fault: VolumeFault) -> Refusal {
        match fault {
            VolumeFault::File(e) => Refusal::from(e),
            VolumeFault::Unreadable(entry, e) => unreadable(entry, FileRefusal::from(e)),
            VolumeFault::Rider(entry, e) => at_entry_record(entry, FileRefusal::from(e)),
            VolumeFault::Marked => at_volume(Reason::MarkedTest, None),
            VolumeFault::SameStamp(entry) => {
                at_volume(Reason::SameTimeStamp, Some(Place::Entry(entry)))
            }
            VolumeFault::NoRoom => at_volume(Reason::NoRoom, None),
            VolumeFault::NoEntry(entry) => at_volume(Reason::NoEntry, Some(Place::Entry(entry))),
            VolumeFault::NoTrailer(n) => at_volume(Reason::NoTrailer, Some(Place::ShelfRecord(n))),
            VolumeFault::Differs(entry) => {
                at_volume(Reason::TrailerDisagrees, Some(Place::Entry(entry)))
            }
            // the closing record is told as entry 0
            VolumeFault::ClosingDiffers => {
                at_volume(Reason::TrailerDisagrees, Some(Place::Entry(0)))
            }
            VolumeFault::RowsShort(n) => at_volume(Reason::RowTableShort, Some(Place::Rows(n))),
            VolumeFault::BalanceShort => at_volume(Reason::BalanceTableShort, None),
            VolumeFault::CopyShort(n) => at_volume(Reason::CopyBufferShort, Some(Place::Bytes(n))),
        }
    }
}

// A refusal of the layer volume, with its place if it has one.
fn at_volume(reason: Reason, place: Option<Place>) -> Refusal
    ensures { result ≡ volume_told reason place }
{
    Refusal {
        reason,
        layer: Layer::Volume,
        place,
        within: None,
    }
}

// The refusal of an entry that cannot be read, with the file's entire.
fn unreadable(entry: usize, file: FileRefusal) -> Refusal
    ensures { result ≡ unreadable_told entry file }
{
    Refusal {
        reason: Reason::EntryUnreadable,
        layer: Layer::Volume,
        place: Some(Place::Entry(entry)),
        within: Some(file),
    }
}

// A file's refusal, told of the record in its entry.
fn at_entry_record(entry: usize, file: FileRefusal) -> Refusal
    ensures { result ≡ entry_told entry file }
{
    Refusal {
        reason: file.reason,
        layer: Layer::File,
        place: Some(Place::EntryRecord { entry, at: file.at }),
        within: None,
    }
}
