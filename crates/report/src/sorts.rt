// What the walk over an entry asks of a record, by its sort, so that no field is read.
ghost use Rattle.std.specs.Prelude.{◌≡◌};
ghost use Rattle.report.specs.Sorts.{cause_in as cause_term, level_behind as level_term, adds};

use manual::{Cause, level_after, rider_fault};
use record::{Level, Sort};

/// Why a record at a place of this level is a wrong rider, if it is one.
pub fn cause_in(level: Option<Level>, sort: Sort) -> Option<Cause>
    ensures { result ≡ cause_term level sort }
{
    match sort {
        Sort::Rider(rider) => rider_fault(level, rider),
        Sort::BadCode | Sort::Core(_) | Sort::Unknown => None,
    }
}

/// The level of the place behind one more record, if riders may stand there.
pub fn level_behind(level: Option<Level>, sort: Sort) -> Option<Level>
    ensures { result ≡ level_term level sort }
{
    match sort {
        Sort::Core(kind) => level_after(kind),
        Sort::BadCode | Sort::Rider(_) | Sort::Unknown => level,
    }
}

/// How many records the plain copy has of one of this sort, and so how many rows show it.
pub fn copies_of(sort: Sort) -> usize
    ensures { result ≡ adds sort }
{
    match sort {
        Sort::Core(_) | Sort::Rider(_) => 1,
        Sort::BadCode | Sort::Unknown => 0,
    }
}
