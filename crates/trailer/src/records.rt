ghost use Rattle.std.specs.Prelude.{◌≡◌, ◌+◌, ◌^◌, ◌<◌, take, ◌==◌};
ghost use Rattle.std.specs.List.{between};
ghost use Rattle.field.specs.Bytes.{every};
ghost use Rattle.trailer.specs.Digits.{value_of, is_zero};
ghost use Rattle.trailer.specs.Trailers.{checked, trailer_front, trailer_of, closing_front, closing_of, is_checked, fields_of, is_placed, read_trailer, right_closing, closing_says};
ghost use Rattle.trailer.specs.Laws.{TrailerLaws};

use crate::digits::{check_of, put, value_of, zeros};
use crate::layout::{Totals, Trailer};
use field::digits;

// The first two digits of a record say which of the two it is.
const TRAILER_CODE: u64 = 99;

const CLOSING_CODE: u64 = 98;

// What holds of all trailers and closing records, proved once; there is nothing to run.
#[tactic(auto, using(crate::proofs::TrailerLaws::laws))]
fn trailer_laws()
    ensures { TrailerLaws }
{}

// Writes the check digits of a record behind its other digits.
fn put_check(out: &mut [u8; 80])
    ensures { out.new ≡ checked (take 78 out.old) }
{
    let check = check_of(&out[0..78]);
    put(out, 78, 80, check);
}

fn put_fields(t: &Trailer, out: &mut [u8; 80])
    ensures { take 78 out.new ≡ trailer_front t.now }
{
    put(out, 0, 2, TRAILER_CODE);
    put(out, 2, 10, t.records);
    put(out, 10, 18, t.entry);
    put(out, 18, 26, t.previous);
    put(out, 26, 34, t.totals.payments);
    put(out, 34, 42, t.totals.deductions);
    put(out, 42, 60, t.totals.sek);
    put(out, 60, 78, t.totals.eur);
}

// Writes a trailer as it stands on a shelf. A number that is too large for its digits loses the first ones: the laws say
// for which trailers nothing is lost.
#[tactic(auto, unfolding(crate::specs::Trailers::trailer_of))]
pub fn write_trailer(t: &Trailer, out: &mut [u8; 80])
    ensures bytes { out.new ≡ trailer_of t.now }
    ensures laws { TrailerLaws }
{
    trailer_laws();
    put_fields(t, out);
    put_check(out);
}

fn put_closing(entries: u64, last: u64, out: &mut [u8; 80])
    ensures { take 78 out.new ≡ closing_front entries last }
{
    put(out, 0, 2, CLOSING_CODE);
    put(out, 2, 10, entries);
    put(out, 10, 18, last);
    put(out, 18, 78, 0);
}

// Writes the closing record of a shelf with so many entries, whose last trailer has the shelf number `last`.
#[tactic(auto, unfolding(crate::specs::Trailers::closing_of))]
pub fn write_closing(entries: u64, last: u64, out: &mut [u8; 80])
    ensures { out.new ≡ closing_of entries last }
{
    put_closing(entries, last, out);
    put_check(out);
}

// Whether a record is 80 digits with this code and their check digits.
fn is_checked(code: u64, item: &[u8; 80]) -> bool
    ensures { result ≡ is_checked code item.now }
{
    digits(&item[..])
        && value_of(&item[0..2]) == code
        && value_of(&item[78..80]) == check_of(&item[0..78])
}

// The numbers that stand where a trailer has its fields, whatever the record. The bounds are for the sum of two of them.
fn fields(item: &[u8; 80]) -> Trailer
    ensures value { result ≡ fields_of item.now }
    ensures bound { (result.records < 10 ^ 8) × (result.previous < 10 ^ 8) }
{
    Trailer {
        records: value_of(&item[2..10]),
        entry: value_of(&item[10..18]),
        previous: value_of(&item[18..26]),
        totals: Totals {
            payments: value_of(&item[26..34]),
            deductions: value_of(&item[34..42]),
            sek: value_of(&item[42..60]),
            eur: value_of(&item[60..78]),
        },
    }
}

fn is_placed(t: &Trailer, own: usize) -> bool
    requires { (t.now.records < 10 ^ 8) × (t.now.previous < 10 ^ 8) }
    ensures { result ≡ is_placed t.now own }
{
    t.previous + t.records + 1 == own as u64
}

// The trailer that the record with the shelf number `own` is; none where it is not a right one. Whatever the record,
// reading and writing undo one another, as the laws say.
#[tactic(auto, unfolding(crate::specs::Trailers::read_trailer))]
pub fn read_trailer(item: &[u8; 80], own: usize) -> Option<Trailer>
    ensures answer { result ≡ read_trailer item.now own }
    ensures laws { TrailerLaws }
{
    trailer_laws();
    if !is_checked(TRAILER_CODE, item) {
        return None;
    }
    let t = fields(item);
    is_placed(&t, own).then_some(t)
}

// Whether a closing record names the record before it, where it has the shelf number `own` itself.
fn is_behind_last(item: &[u8; 80], own: usize) -> bool
    ensures { result ≡ (value_of (between 10 18 item.now) + 1 == own) }
{
    value_of(&item[10..18]) + 1 == own as u64
}

// Whether the record with the shelf number `own` is a right closing record.
#[tactic(auto, unfolding(crate::specs::Trailers::right_closing))]
pub fn is_right_closing(item: &[u8; 80], own: usize) -> bool
    ensures { result ≡ right_closing item.now own }
{
    is_checked(CLOSING_CODE, item) && is_behind_last(item, own)
}

fn has_entries(item: &[u8; 80], entries: usize) -> bool
    ensures { result ≡ (value_of (between 2 10 item.now) == entries) }
{
    value_of(&item[2..10]) == entries as u64
}

fn has_zeros(item: &[u8; 80]) -> bool
    ensures { result ≡ every is_zero (between 18 78 item.now) }
{
    zeros(&item[18..78])
}

// Whether a closing record has this number of entries, and its zeros.
#[tactic(auto, unfolding(crate::specs::Trailers::closing_says))]
pub fn closing_says(item: &[u8; 80], entries: usize) -> bool
    ensures { result ≡ closing_says item.now entries }
{
    has_entries(item, entries) && has_zeros(item)
}
