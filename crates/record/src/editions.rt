ghost use Rattle.std.specs.Prelude.{◌≡◌, ℕ, Bool, List, length, Option};
ghost use Rattle.record.specs.Editions.{Meaning, bare, house, sought, formed_by};

use field::{digits, read_date, texts};

// Where a rider may stand: between sections, in a section before its first item, or in an item.
#[derive(Clone, Copy, Debug, PartialEq, Eq)]
pub enum Level {
    File,
    Section,
    Item,
}

// An edition knows record kinds beyond the core. Its meaning is two tables: the level of each code that it knows, and
// which records of such a code are well formed. It knows no core code. A record comes as a slice of 80 bytes, not as an array,
// by a rule of the project.
pub trait Edition {
    ghost meaning: { Self → Meaning };

    fn level(&self, code: u8) -> Option<Level>
        ensures { result ≡ (meaning self.now).level code };

    fn is_formed(&self, code: u8, line: &[u8]) -> bool
        requires { length line.now ≡ 80 }
        ensures { result ≡ (meaning self.now).formed code line.now };
}

// The edition that knows nothing.
#[derive(Clone, Copy, Debug, PartialEq, Eq)]
pub struct Bare;

impl Edition for Bare {
    ghost meaning = { λ _. bare };

    fn level(&self, _code: u8) -> Option<Level> {
        None
    }

    fn is_formed(&self, _code: u8, _line: &[u8]) -> bool {
        false
    }
}

// What a house kind has behind its code; an enum and no closure, since the kinds are rows of a constant table.
#[derive(Clone, Copy, Debug, PartialEq, Eq)]
pub enum Form {
    // a date in positions 3 to 10
    Dated,
    // digits in positions 3 to 12
    Numbered,
}

#[derive(Clone, Copy, Debug, PartialEq, Eq)]
pub struct HouseKind {
    pub code: u8,
    pub level: Level,
    pub form: Form,
}

const HOUSE_KINDS: [HouseKind; 2] = [
    HouseKind {
        code: 40,
        level: Level::File,
        form: Form::Dated,
    },
    HouseKind {
        code: 41,
        level: Level::Item,
        form: Form::Numbered,
    },
];

// The kind with this code.
fn seek(kinds: &[HouseKind], code: u8) -> Option<HouseKind>
    ensures { result ≡ sought kinds.now code }
{
    kinds.iter().find(|kind| kind.code == code).copied()
}

// Whether a record has this form, the rest being text.
fn has_form(form: Form, line: &[u8]) -> bool
    requires { length line.now ≡ 80 }
    ensures { result ≡ formed_by form line.now }
{
    match form {
        Form::Dated => read_date(&line[2..10]).is_some() && texts(&line[10..80]),
        Form::Numbered => digits(&line[2..12]) && texts(&line[12..80]),
    }
}

// The edition of this house: kinds 40 and 41.
#[derive(Clone, Copy, Debug, PartialEq, Eq)]
pub struct House;

impl Edition for House {
    ghost meaning = { λ _. house };

    fn level(&self, code: u8) -> Option<Level> {
        seek(&HOUSE_KINDS, code).map(|kind| kind.level)
    }

    fn is_formed(&self, code: u8, line: &[u8]) -> bool {
        seek(&HOUSE_KINDS, code).is_some_and(|kind| has_form(kind.form, line))
    }
}
