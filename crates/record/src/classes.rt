ghost use Rattle.std.specs.Prelude.{◌≡◌, length};
ghost use Rattle.record.specs.Codes.{code_at};
ghost use Rattle.record.specs.Classes.{class_of, class_in, outside};
ghost use Rattle.record.specs.Laws.{ClassLaws};
ghost use Rattle.record.specs.Sorts.{sort_of, sort_at};

use crate::editions::{Edition, Level};
use crate::fields::{Core, Field};
use crate::kinds::Kind;
use crate::layouts::read_core;
use field::digit;

// A record of a kind that its edition knows beyond the core.
#[derive(Clone, Copy, Debug, PartialEq, Eq)]
pub struct Rider {
    pub code: u8,
    pub level: Level,
    pub formed: bool,
}

// All that is ever asked of a whole record.
#[derive(Clone, Copy, Debug, PartialEq, Eq)]
pub enum Class {
    // its code is not two digits
    BadCode,
    // a core record with its fields, or the first field that breaks its layout
    Core(Kind, Result<Core, Field>),
    Rider(Rider),
    // neither core nor known to the edition
    Unknown,
}

/// The class of a record, less the fields of a core record, which need not be read for it.
#[derive(Clone, Copy, Debug, PartialEq, Eq)]
pub enum Sort {
    /// Its code is not two digits.
    BadCode,
    /// A core record of this kind.
    Core(Kind),
    /// A record of a code that the edition knows, with its level and whether it is well formed.
    Rider(Rider),
    /// Neither core nor known to the edition.
    Unknown,
}

// The code that two digits write.
fn code(a: u8, b: u8) -> Option<u8>
    ensures { result ≡ code_at a b }
{
    if digit(a) && digit(b) {
        Some((a - b'0') * 10 + (b - b'0'))
    } else {
        None
    }
}

// The sort of a record whose code is not a core code.
fn beyond<E: Edition>(code: u8, line: &[u8], edition: &E) -> Sort
    requires { length line.now ≡ 80 }
    ensures { result ≡ sort_of (outside (E.meaning edition.now) code line.now) }
{
    match edition.level(code) {
        None => Sort::Unknown,
        Some(level) => Sort::Rider(Rider {
            code,
            level,
            formed: edition.is_formed(code, line),
        }),
    }
}

// The sort of a record of 80 bytes that begins with these two.
fn sort_coded<E: Edition>(a: u8, b: u8, line: &[u8], edition: &E) -> Sort
    requires { length line.now ≡ 80 }
    ensures { result ≡ sort_of (class_in (E.meaning edition.now) (code_at a b) line.now) }
{
    let Some(code) = code(a, b) else {
        return Sort::BadCode;
    };
    match Kind::try_from(code) {
        Ok(kind) => Sort::Core(kind),
        Err(_) => beyond(code, line, edition),
    }
}

/// The sort of a record of 80 bytes under an edition: a look at its code, and for a rider at
/// whether the edition finds it well formed.
pub fn sort_in<E: Edition>(line: &[u8], edition: &E) -> Sort
    requires { length line.now ≡ 80 }
    ensures { result ≡ sort_at (E.meaning edition.now) line.now }
{
    let [a, b, ..] = line else { unreachable() };
    sort_coded(*a, *b, line, edition)
}

// What holds of all classes, proved once; there is nothing to run.
#[tactic(auto, using(crate::proofs::ClassLaws::laws))]
fn class_laws()
    ensures { ClassLaws }
{}

// The class of a record of 80 bytes under an edition. Whatever the record and the editions, reserve
// positions do not change a class, and the other laws of `ClassLaws` hold.
pub fn classify<E: Edition>(line: &[u8], edition: &E) -> Class
    requires { length line.now ≡ 80 }
    ensures class { result ≡ class_of (E.meaning edition.now) line.now }
    ensures laws { ClassLaws }
{
    class_laws();
    let [a, b, rest @ ..] = line else {
        unreachable()
    };
    match sort_coded(*a, *b, line, edition) {
        Sort::BadCode => Class::BadCode,
        Sort::Core(kind) => Class::Core(kind, read_core(kind, rest)),
        Sort::Rider(rider) => Class::Rider(rider),
        Sort::Unknown => Class::Unknown,
    }
}
