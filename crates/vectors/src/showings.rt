// Entries shown: their rows, which refusal comes first, and what a refusal leaves.
ghost use Rattle.vectors.specs.Sevens.{sevens};

use crate::letters::{file_of, shelf_of};
use crate::volumes::told;
use archive::Archive;
use field::ReferenceForm;
use field::ReferenceForm::{Absent, Blank, BlankPaper, Confirmed, Numeric, Rejected, Unchecked};
use filing::VolumeFault;
use record::{Bare, Edition, House, Level, Row};
use shelf::{MemoryShelf, Shelf};
use std::alloc::{AllocError, Global};
use std::process::Abort;
use std::test::Fail;

// Knows 77, at file level, and finds each well formed.
struct Sevens;

impl Edition for Sevens {
    ghost meaning = { λ _. sevens };

    fn level(&self, code: u8) -> Option<Level> {
        if code == 77 { Some(Level::File) } else { None }
    }

    fn is_formed(&self, _code: u8, _line: &[u8]) -> bool {
        true
    }
}

// The edition under which an entry is read.
#[derive(Clone, Copy)]
pub(crate) enum Under {
    Bare,
    House,
    Sevens,
}

pub(crate) fn shown<S: Shelf + Drop>(
    archive: &Archive<S>,
    entry: usize,
    under: Under,
    rows: &mut [Row],
) -> Result<usize, VolumeFault> {
    match under {
        Under::Bare => archive.show(entry, &Bare, rows),
        Under::House => archive.show(entry, &House, rows),
        Under::Sevens => archive.show(entry, &Sevens, rows),
    }
}

pub(crate) fn copied<S: Shelf + Drop>(
    archive: &Archive<S>,
    entry: usize,
    under: Under,
    buffer: &mut [u8],
) -> Result<usize, VolumeFault> {
    match under {
        Under::Bare => archive.plain_copy(entry, &Bare, buffer),
        Under::House => archive.plain_copy(entry, &House, buffer),
        Under::Sevens => archive.plain_copy(entry, &Sevens, buffer),
    }
}

// So many rows or bytes, or a refusal with its number, layer, place and cause.
pub(crate) fn answered(
    heap: Global,
    answer: Result<usize, VolumeFault>,
) -> Result<String, AllocError> {
    match answer {
        Ok(filled) => format!(in heap; "{filled} filled"),
        Err(fault) => told(heap, fault),
    }
}

// A row: number, code, party, money, serial and reference form.
pub(crate) type Columns = (usize, u8, u64, u64, u64, ReferenceForm);

fn columns(row: Row) -> Columns {
    (
        row.number,
        row.code,
        row.party,
        row.money,
        row.serial,
        row.reference,
    )
}

// What stands in a table before a call.
pub(crate) const OLD: Row = Row {
    number: 9,
    code: 99,
    party: 9,
    money: 9,
    serial: 9,
    reference: ReferenceForm::Rejected,
};

// F; F with an unknown record before its deposit.
pub(crate) const F: [Columns; 5] = [
    (1, 1, 0, 0, 0, Absent),
    (2, 5, 4711, 0, 0, Absent),
    (3, 20, 815, 125_000, 17, Numeric(34)),
    (4, 15, 0, 125_000, 0, Absent),
    (5, 70, 0, 0, 0, Absent),
];

pub(crate) const F_WITH_77: [Columns; 5] = [
    (1, 1, 0, 0, 0, Absent),
    (2, 5, 4711, 0, 0, Absent),
    (3, 20, 815, 125_000, 17, Numeric(34)),
    (5, 15, 0, 125_000, 0, Absent),
    (6, 70, 0, 0, 0, Absent),
];

// F with an unknown record behind its start, for a reader to whom it is a rider.
const F_WITH_RIDER: [Columns; 6] = [
    (1, 1, 0, 0, 0, Absent),
    (2, 77, 0, 0, 0, Absent),
    (3, 5, 4711, 0, 0, Absent),
    (4, 20, 815, 125_000, 17, Numeric(34)),
    (5, 15, 0, 125_000, 0, Absent),
    (6, 70, 0, 0, 0, Absent),
];

// F with an unknown record behind its start.
const F_BARE: [Columns; 5] = [
    (1, 1, 0, 0, 0, Absent),
    (3, 5, 4711, 0, 0, Absent),
    (4, 20, 815, 125_000, 17, Numeric(34)),
    (5, 15, 0, 125_000, 0, Absent),
    (6, 70, 0, 0, 0, Absent),
];

// Every form of a reference, and the highest numbers.
const FORMS: [Columns; 16] = [
    (1, 1, 0, 0, 0, Absent),
    (2, 5, 4711, 0, 0, Absent),
    (
        3,
        20,
        9_999_999_999,
        9_999_999_999_999,
        999_999_999_999,
        Blank,
    ),
    (4, 22, 9_999_999_999, 1, 999_999_999_999, Numeric(37)),
    (5, 23, 9_999_999_999, 2, 999_999_999_999, Confirmed),
    (6, 22, 9_999_999_999, 0, 999_999_999_999, Rejected),
    (7, 15, 0, 9_999_999_999_999, 12_345, Absent),
    (8, 5, 4711, 0, 0, Absent),
    (9, 20, 815, 18, 18, BlankPaper),
    (10, 20, 815, 125_000, 17, Numeric(34)),
    (11, 20, 815, 5, 19, Numeric(13)),
    (12, 21, 815, 7, 20, Unchecked),
    (13, 20, 815, 0, 0, Confirmed),
    (14, 21, 815, 25, 21, Rejected),
    (15, 15, 0, 124_991, 99_999, Absent),
    (16, 70, 0, 0, 0, Absent),
];

// Riders at file level and in an item, and an unknown record as its twelfth; with the riders known, and not.
const RIDERS: [Columns; 14] = [
    (1, 1, 0, 0, 0, Absent),
    (2, 40, 0, 0, 0, Absent),
    (3, 5, 4711, 0, 0, Absent),
    (4, 20, 815, 125_000, 17, Numeric(34)),
    (5, 41, 0, 0, 0, Absent),
    (6, 25, 0, 0, 0, Absent),
    (7, 26, 0, 0, 0, Absent),
    (8, 27, 0, 0, 0, Absent),
    (9, 41, 0, 0, 0, Absent),
    (10, 28, 0, 0, 0, Absent),
    (11, 29, 0, 0, 0, Absent),
    (13, 15, 0, 125_000, 0, Absent),
    (14, 40, 0, 0, 0, Absent),
    (15, 70, 0, 0, 0, Absent),
];

const NO_RIDERS: [Columns; 10] = [
    (1, 1, 0, 0, 0, Absent),
    (3, 5, 4711, 0, 0, Absent),
    (4, 20, 815, 125_000, 17, Numeric(34)),
    (6, 25, 0, 0, 0, Absent),
    (7, 26, 0, 0, 0, Absent),
    (8, 27, 0, 0, 0, Absent),
    (10, 28, 0, 0, 0, Absent),
    (11, 29, 0, 0, 0, Absent),
    (13, 15, 0, 125_000, 0, Absent),
    (15, 70, 0, 0, 0, Absent),
];

const FIVE: &str = "25, volume, 5 rows needed: row table short";

const TEN: &str = "25, volume, 10 rows needed: row table short";

const FOURTEEN: &str = "25, volume, 14 rows needed: row table short";

// Every kind of an item's record, riders and an unknown record; and every form of a reference.
pub(crate) const KINDS: &[u8] = b"SAOPBinjBklXDAE";

pub(crate) const ALL_FORMS: &[u8] = b"SOHIJKLUVPYMNFrs";

// the file that is entry 1, the edition, the rows that are lent, the answer, and what is filled in
const SHOWN: [(&[u8], Under, usize, &str, &[Columns]); 16] = [
    (b"SOPDE", Under::Bare, 5, "5 filled", &F),
    (b"SOPDE", Under::House, 5, "5 filled", &F),
    (b"SOPXDE", Under::Bare, 5, "5 filled", &F_WITH_77),
    (b"SOPXDE", Under::House, 6, "5 filled", &F_WITH_77),
    (ALL_FORMS, Under::House, 16, "16 filled", &FORMS),
    (KINDS, Under::House, 14, "14 filled", &RIDERS),
    (KINDS, Under::Bare, 10, "10 filled", &NO_RIDERS),
    (b"SXOPDE", Under::Sevens, 6, "6 filled", &F_WITH_RIDER),
    // a 40 that is ill-formed, to a reader who does not know it
    (b"SROPDE", Under::Bare, 5, "5 filled", &F_BARE),
    // more rows than are needed, and fewer
    (b"SOPDE", Under::House, 6, "5 filled", &F),
    (b"SOPDE", Under::House, 20, "5 filled", &F),
    (b"SOPDE", Under::House, 4, FIVE, &[]),
    (b"SOPDE", Under::House, 0, FIVE, &[]),
    (b"SOPXDE", Under::House, 4, FIVE, &[]),
    (KINDS, Under::House, 13, FOURTEEN, &[]),
    (KINDS, Under::Bare, 9, TEN, &[]),
];

// Shows an entry, and asserts the answer, the rows that are filled in, and that all the others are as they were.
pub(crate) fn show_as<S: Shelf + Drop>(
    rt: &impl Abort,
    heap: Global,
    archive: &Archive<S>,
    asked: (usize, Under, usize),
    answer: &str,
    filled: &[Columns],
) -> Result<(), Fail> {
    let (entry, under, lent) = asked;
    let mut rows = [OLD; 20];
    assert!(rt; lent <= 20);
    let given = shown(archive, entry, under, &mut rows[..lent]);
    assert_eq!(rt; answered(heap, given)?.as_str(), answer);
    for (i, row) in rows.iter().enumerate() {
        let wanted = filled.get(i).copied().unwrap_or(columns(OLD));
        assert_eq!(rt; columns(*row), wanted, "{answer}, row {i}");
    }
    Ok(())
}

// A volume in these places, with this file as entry 1, taken in under the bare edition.
pub(crate) fn archive_with<'a>(
    rt: &impl Abort,
    places: &'a mut [u8],
    file: &[u8],
) -> Result<Archive<MemoryShelf<'a>>, Fail> {
    let mut archive = Archive::open(MemoryShelf::new(places, 0))?;
    let mut payers = [sums::Row::zero()];
    let answer = archive.take_in(file, &Bare, &mut payers);
    assert_eq!(rt; answer, Ok(1));
    Ok(archive)
}

#[test]
fn rows(rt: HostRuntime) -> Result<(), Fail> {
    let heap = rt.alloc();
    for (letters, under, lent, answer, filled) in SHOWN {
        let file = file_of(heap, letters)?;
        let mut places = shelf_of(heap, b"", 20)?;
        let archive = archive_with(&rt, &mut places, &file)?;
        show_as(&rt, heap, &archive, (1, under, lent), answer, filled)?;
    }
    Ok(())
}
