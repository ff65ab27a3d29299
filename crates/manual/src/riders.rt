ghost use Rattle.std.specs.Prelude.{◌≡◌};
ghost use Rattle.manual.specs.Manual.{level_after as level_after_term};
ghost use Rattle.manual.specs.Riders.{level_at as level_at_term, rider_cause};

use crate::faults::Cause;
use crate::places::Place;
use record::{Kind, Level, Rider};

/// The level of the place behind a core record of this kind; none where no rider may stand.
pub fn level_after(kind: Kind) -> Option<Level>
    ensures { result ≡ level_after_term kind }
{
    match kind {
        Kind::Start | Kind::Deposit => Some(Level::File),
        Kind::Opening => Some(Level::Section),
        Kind::Payment
        | Kind::Deduction
        | Kind::ExtraReference
        | Kind::NegativeReference
        | Kind::Information
        | Kind::Name
        | Kind::AddressOne
        | Kind::AddressTwo
        | Kind::CompanyNumber => Some(Level::Item),
        Kind::End => None,
    }
}

/// The level of a place; none where no rider may stand.
pub fn level_at(place: Place) -> Option<Level>
    ensures { result ≡ level_at_term place }
{
    match place {
        Place::Begun | Place::Between => Some(Level::File),
        Place::Opened => Some(Level::Section),
        Place::Within(_) => Some(Level::Item),
        Place::Fresh | Place::Done => None,
    }
}

/// Why a rider at a place of this level is wrong, if it is: the one test of riders, for checking and for showing.
pub fn rider_fault(level: Option<Level>, rider: Rider) -> Option<Cause>
    ensures { result ≡ rider_cause level rider }
{
    if level != Some(rider.level) {
        Some(Cause::RiderLevel)
    } else if !rider.formed {
        Some(Cause::RiderIllFormed)
    } else {
        None
    }
}
