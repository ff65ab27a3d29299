ghost use Rattle.std.specs.Prelude.{◌≡◌, length, not, position};
ghost use Rattle.field.specs.Bytes.{is_blank};
ghost use Rattle.field.specs.References.{numeric_from, reference_of, extra_of};

use crate::bytes::{blanks, digits, texts};
use std::fmt;

// The form of a record's reference. Each reference code has a variant of its own, also where two share a layout.
#[derive(Clone, Copy, Debug, PartialEq, Eq)]
pub enum ReferenceForm {
    // the record has no reference; a form of its own, since a row that is shown has one of these whatever its record
    Absent,
    // code 0: the payer gave none
    Blank,
    // code 1: none, on a paper form
    BlankPaper,
    // code 2: digits up to the field's end; the position in the record at which they begin, 13 to 37
    Numeric(u8),
    // code 3: any text, not checked by the bank
    Unchecked,
    // code 4: text that begins at once, found right by the bank
    Confirmed,
    // code 5: any text, found wrong by the bank
    Rejected,
}

impl fmt::Display for ReferenceForm {
    fn fmt<W: fmt::Write>(&self, f: &mut fmt::Formatter<W>) -> fmt::Result {
        match self {
            ReferenceForm::Absent => f.write_str("absent"),
            ReferenceForm::Blank => f.write_str("blank"),
            ReferenceForm::BlankPaper => f.write_str("blank-paper"),
            ReferenceForm::Numeric(position) => write!(f, "numeric {position}"),
            ReferenceForm::Unchecked => f.write_str("unchecked"),
            ReferenceForm::Confirmed => f.write_str("confirmed"),
            ReferenceForm::Rejected => f.write_str("rejected"),
        }
    }
}

// The index of the first byte that is no blank.
fn first_not_blank(part: &[u8]) -> Option<usize>
    ensures { result ≡ position (λ b. not (is_blank b)) part.now }
{
    part.iter().position(|b| *b != b' ')
}

// Blanks and then one or more digits to the end: the position in the record of the first digit.
#[tactic(auto, using(crate::proofs::Steps::numeric_is, std::proofs::lemmas::List::take_rest))]
fn first_digit(part: &[u8]) -> Option<u8>
    requires { length part.now ≡ 25 }
    ensures { result ≡ numeric_from 13 part.now }
{
    let start = first_not_blank(part)?;
    digits(&part[start..]).then_some(13 + start as u8)
}

// The form of the reference in positions 13 to 37 under its code; none where it has not the form that the code asks.
pub fn read_reference(code: u8, part: &[u8]) -> Option<ReferenceForm>
    requires { length part.now ≡ 25 }
    ensures { result ≡ reference_of code part.now }
{
    match code {
        b'0' if blanks(part) => Some(ReferenceForm::Blank),
        b'1' if blanks(part) => Some(ReferenceForm::BlankPaper),
        b'2' => first_digit(part).map(ReferenceForm::Numeric),
        b'3' if texts(part) => Some(ReferenceForm::Unchecked),
        b'4' if texts(part) && part[0] != b' ' => Some(ReferenceForm::Confirmed),
        b'5' if texts(part) => Some(ReferenceForm::Rejected),
        _ => None,
    }
}

// The same of an extra reference, which takes the codes 2, 4 and 5 only.
pub fn read_extra_reference(code: u8, part: &[u8]) -> Option<ReferenceForm>
    requires { length part.now ≡ 25 }
    ensures { result ≡ extra_of code part.now }
{
    match code {
        b'2' | b'4' | b'5' => read_reference(code, part),
        _ => None,
    }
}
