ghost use Rattle.std.specs.Prelude.{◌≡◌};
ghost use Rattle.manual.specs.Judging.{may_follow, place_after, begun as begun_term, ended as ended_term};
ghost use Rattle.manual.specs.declared.places.Place.TheVariants.{Within};

use manual::{Place, Stage};
use record::Kind;

// Whether a core record of this kind may follow at this place.
pub fn follows(place: Place, kind: Kind) -> bool
    ensures { result ≡ may_follow place kind }
{
    match place {
        Place::Fresh => kind == Kind::Start,
        Place::Begun => kind == Kind::Opening,
        Place::Opened => matches!(kind, Kind::Payment | Kind::Deduction),
        Place::Within(stage) => follows_in_item(stage, kind),
        Place::Between => matches!(kind, Kind::Opening | Kind::End),
        Place::Done => false,
    }
}

// The same in an item, where the next item or the deposit may follow but for half an address.
fn follows_in_item(stage: Stage, kind: Kind) -> bool
    ensures { result ≡ may_follow (Within stage) kind }
{
    match kind {
        Kind::ExtraReference | Kind::NegativeReference => stage == Stage::Head,
        Kind::Information | Kind::Name => matches!(stage, Stage::Head | Stage::Information),
        Kind::AddressOne => matches!(stage, Stage::Head | Stage::Information | Stage::Name),
        Kind::AddressTwo => stage == Stage::HalfAddress,
        Kind::CompanyNumber => !matches!(stage, Stage::HalfAddress | Stage::CompanyNumber),
        Kind::Payment | Kind::Deduction | Kind::Deposit => stage != Stage::HalfAddress,
        Kind::Start | Kind::Opening | Kind::End => false,
    }
}

// The place behind a core record of this kind.
pub fn place_behind(kind: Kind) -> Place
    ensures { result ≡ place_after kind }
{
    match kind {
        Kind::Start => Place::Begun,
        Kind::Opening => Place::Opened,
        Kind::Deposit => Place::Between,
        Kind::Payment | Kind::Deduction | Kind::ExtraReference | Kind::NegativeReference => {
            Place::Within(Stage::Head)
        }
        Kind::Information => Place::Within(Stage::Information),
        Kind::Name => Place::Within(Stage::Name),
        Kind::AddressOne => Place::Within(Stage::HalfAddress),
        Kind::AddressTwo => Place::Within(Stage::Address),
        Kind::CompanyNumber => Place::Within(Stage::CompanyNumber),
        Kind::End => Place::Done,
    }
}

// Whether the start record has come.
pub fn begun(place: Place) -> bool
    ensures { result ≡ begun_term place }
{
    place != Place::Fresh
}

// Whether the end record has come.
pub fn ended(place: Place) -> bool
    ensures { result ≡ ended_term place }
{
    place == Place::Done
}
