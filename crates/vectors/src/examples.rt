// The worked examples that concern files, over one file of five records.
use field::ReferenceForm;
use file::check;
use record::{Bare, Class, Core, classify};
use refusal::Refusal;
use std::alloc::{AllocError, Global};
use std::test::Fail;
use sums::Row;

pub(crate) const START: &[u8; 80] =
    b"01BGMAX               0120310402081500000000P                                   ";

pub(crate) const OPENING: &[u8; 80] =
    b"050000004711          SEK                                                       ";

pub(crate) const PAYMENT: &[u8; 80] =
    b"200000000815                     1230000000000000125000200000000000170          ";

pub(crate) const DEPOSIT: &[u8; 80] =
    b"15000000000000000000000000000000000002031040200000000000000000125000SEK00000001 ";

pub(crate) const END: &[u8; 80] =
    b"7000000001000000000000000000000001                                              ";
// deposits of 124999, on 29 February 2031 and on 29 February 2032
const SHORT: &[u8; 80] =
    b"15000000000000000000000000000000000002031040200000000000000000124999SEK00000001 ";

const NO_DAY: &[u8; 80] =
    b"15000000000000000000000000000000000002031022900000000000000000125000SEK00000001 ";

const LEAP_DAY: &[u8; 80] =
    b"15000000000000000000000000000000000002032022900000000000000000125000SEK00000001 ";

pub(crate) const UNKNOWN: &[u8; 80] =
    b"77                                                                              ";

fn file_of(heap: Global, records: &[&[u8; 80]]) -> Result<Vec<u8>, AllocError> {
    let mut bytes = Vec::new(heap);
    for record in records {
        bytes.extend_from_slice(*record)?;
        bytes.push(b'\n')?;
    }
    Ok(bytes)
}

// Refusal and record, or zeros and the four counts as the end record has them.
fn told(bytes: &[u8]) -> (u8, usize, [u64; 4]) {
    let mut payers = [Row::zero()];
    match check(bytes, &Bare, &mut payers) {
        Ok(end) => (
            0,
            0,
            [end.payments, end.deductions, end.extras, end.deposits],
        ),
        Err(fault) => (Refusal::from(fault).number(), fault.number, [0; 4]),
    }
}

const ACCEPTED: (u8, usize, [u64; 4]) = (0, 0, [1, 0, 0, 1]);

#[test]
fn files(rt: HostRuntime) -> Result<(), Fail> {
    let heap = rt.alloc();
    assert_eq!(rt; told(b""), (12, 1, [0; 4]));
    let f = file_of(heap, &[START, OPENING, PAYMENT, DEPOSIT, END])?;
    assert_eq!(rt; told(&f), ACCEPTED);
    let short = file_of(heap, &[START, OPENING, PAYMENT, SHORT, END])?;
    assert_eq!(rt; told(&short), (9, 4, [0; 4]));
    let later = file_of(heap, &[START, OPENING, PAYMENT, UNKNOWN, SHORT, END])?;
    assert_eq!(rt; told(&later), (9, 5, [0; 4]));
    let passed = file_of(heap, &[START, OPENING, PAYMENT, UNKNOWN, DEPOSIT, END])?;
    assert_eq!(rt; told(&passed), ACCEPTED);
    let no_day = file_of(heap, &[START, OPENING, PAYMENT, NO_DAY, END])?;
    assert_eq!(rt; told(&no_day), (4, 4, [0; 4]));
    let leap_day = file_of(heap, &[START, OPENING, PAYMENT, LEAP_DAY, END])?;
    assert_eq!(rt; told(&leap_day), ACCEPTED);
    Ok(())
}

#[test]
fn reference_begins(rt: HostRuntime) -> Result<(), Fail> {
    let Class::Core(_, Ok(Core::Payment(t))) = classify(PAYMENT, &Bare) else {
        return Err(Fail::new("no payment"));
    };
    assert_eq!(rt; t.reference, ReferenceForm::Numeric(34));
    Ok(())
}
