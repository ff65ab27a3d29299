// The plain copy of one record.
ghost use Rattle.std.specs.Prelude.{◌≡◌};
ghost use Rattle.record.specs.Reserve.{blanked};
ghost use Rattle.report.specs.Sorts.{plain_of};

use record::{Kind, Sort, used};

// The record with every reserve position blank.
fn blank_reserve(kind: Kind, line: [u8; 80]) -> [u8; 80]
    ensures { result ≡ blanked kind line }
{
    let mut plain = line;
    plain[used(kind)..].fill(b' ');
    plain
}

/// What the copy has of a record of this sort: a core record with its reserve positions blank, a rider as it stands, and
/// nothing of an unknown one.
pub fn plain_record(sort: Sort, line: [u8; 80]) -> Option<[u8; 80]>
    ensures { result ≡ plain_of sort line }
{
    match sort {
        Sort::Core(kind) => Some(blank_reserve(kind, line)),
        Sort::Rider(_) => Some(line),
        Sort::BadCode | Sort::Unknown => None,
    }
}
