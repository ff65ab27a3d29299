// All calls of a volume mixed in one list, refusals between them, on one shelf and on two as one.
use crate::balances::{Sums, balance_as};
use crate::letters::{record, shelf_of};
use crate::showings::{Columns, F, Under, show_as};
use crate::volumes::{Call, fetched, make, pair_over};
use archive::Archive;
use field::Currency::{Eur, Sek};
use field::ReferenceForm::{Absent, Numeric};
use shelf::{MemoryShelf, Shelf};
use std::alloc::Global;
use std::process::Abort;
use std::test::Fail;

// A call with what it brings: for showing an entry, the edition and the rows that are lent; for fetching an entry and a record in
// it; for balancing the rows that are lent. Then its answer, and what it fills in, a record by its letter.
#[derive(Clone, Copy)]
enum Step {
    Do(Call<'static>, &'static str),
    Show((usize, Under, usize), &'static str, &'static [Columns]),
    Fetch(usize, usize, &'static str, Option<u8>),
    Balance(usize, &'static str, &'static [Sums]),
}

use Step::{Balance, Do, Fetch, Show};

const NO_ENTRY_0: &str = "24, volume, entry 0: no such entry or record";

const NO_ENTRY_1: &str = "24, volume, entry 1: no such entry or record";

const NO_ENTRY_2: &str = "24, volume, entry 2: no such entry or record";

const NO_ENTRY_3: &str = "24, volume, entry 3: no such entry or record";

const SUMS_SHORT: &str = "26, volume: balance table short";

// G with a section in EUR more, as entry 2.
const TWO_SECTIONS: [Columns; 8] = [
    (1, 1, 0, 0, 0, Absent),
    (2, 5, 4711, 0, 0, Absent),
    (3, 20, 815, 125_000, 17, Numeric(34)),
    (4, 15, 0, 125_000, 0, Absent),
    (5, 5, 4711, 0, 0, Absent),
    (6, 20, 815, 125_000, 17, Numeric(34)),
    (7, 15, 0, 125_000, 0, Absent),
    (8, 70, 0, 0, 0, Absent),
];

const ONE_SUM: [Sums; 1] = [(4711, Sek, 125_000, 0)];

const TWO_SUMS: [Sums; 2] = [(4711, Sek, 250_000, 0), (4711, Eur, 125_000, 0)];

// The places are 16: F and its trailer take 6, the other file and its trailer 9, and the closing record the last.
const MIXED: [Step; 35] = [
    Do(Call::OpenAgain, "0 entries, open"),
    Balance(2, "0 filled", &[]),
    Balance(0, "0 filled", &[]),
    Show((1, Under::Bare, 8), NO_ENTRY_1, &[]),
    Fetch(1, 1, NO_ENTRY_1, None),
    // one öre short; 15 records; then F
    Do(
        Call::TakeIn(b"SOPdE"),
        "9, file, record 4: deposit disagrees",
    ),
    Do(
        Call::TakeIn(b"SAOPBinjBklXDAE"),
        "22, volume: no room on the shelf",
    ),
    Balance(1, "0 filled", &[]),
    Do(Call::TakeIn(b"SOPDE"), "entry 1"),
    Balance(0, SUMS_SHORT, &[]),
    Balance(1, "1 filled", &ONE_SUM),
    Show(
        (1, Under::House, 4),
        "25, volume, 5 rows needed: row table short",
        &[],
    ),
    Show((1, Under::House, 6), "5 filled", &F),
    Do(
        Call::TakeIn(b"SOPDE"),
        "21, volume, entry 1: time stamp already there",
    ),
    Fetch(1, 6, NO_ENTRY_1, None),
    Fetch(1, 4, "fetched", Some(b'D')),
    Do(Call::OpenAgain, "1 entries, open"),
    // a second payer, for which the payer table has no row
    Do(
        Call::TakeIn(b"GOPHDE"),
        "7, file, record 4: no place for a new payer",
    ),
    Show((2, Under::Bare, 8), NO_ENTRY_2, &[]),
    Balance(6, "1 filled", &ONE_SUM),
    Do(Call::TakeIn(b"GOPDUPuW"), "entry 2"),
    Balance(1, SUMS_SHORT, &[]),
    Fetch(2, 5, "fetched", Some(b'U')),
    Balance(2, "2 filled", &TWO_SUMS),
    Show((2, Under::Bare, 8), "8 filled", &TWO_SECTIONS),
    Do(
        Call::TakeIn(b"GOPDE"),
        "21, volume, entry 2: time stamp already there",
    ),
    Do(Call::Close, "2 entries, closed"),
    Balance(3, "2 filled", &TWO_SUMS),
    Balance(1, SUMS_SHORT, &[]),
    Show((3, Under::House, 8), NO_ENTRY_3, &[]),
    Show((1, Under::Bare, 5), "5 filled", &F),
    Fetch(0, 1, NO_ENTRY_0, None),
    Do(Call::OpenAgain, "2 entries, closed"),
    Fetch(2, 1, "fetched", Some(b'G')),
    Balance(2, "2 filled", &TWO_SUMS),
];

// Fetches a record, and asserts the answer and what then stands in the 80 bytes.
fn fetch_as<S: Shelf + Drop>(
    rt: &impl Abort,
    heap: Global,
    archive: &Archive<S>,
    asked: (usize, usize),
    answer: &str,
    letter: Option<u8>,
) -> Result<(), Fail> {
    let mut out = [b'#'; 80];
    let given = archive.fetch(asked.0, asked.1, &mut out);
    assert_eq!(rt; fetched(heap, given)?.as_str(), answer);
    let wanted = match letter {
        Some(letter) => *record(letter),
        None => [b'#'; 80],
    };
    assert_eq!(rt; out, wanted);
    Ok(())
}

// Makes one call, and asserts its answer and what it fills in.
fn take_step<S: Shelf + Drop>(
    rt: &impl Abort,
    heap: Global,
    archive: Archive<S>,
    step: Step,
) -> Result<Archive<S>, Fail> {
    match step {
        Do(call, answer) => {
            let (after, told) = make(heap, archive, call)?;
            assert_eq!(rt; told.as_str(), answer);
            return Ok(after);
        }
        Show(asked, answer, filled) => show_as(rt, heap, &archive, asked, answer, filled)?,
        Fetch(entry, number, answer, letter) => {
            fetch_as(rt, heap, &archive, (entry, number), answer, letter)?
        }
        Balance(lent, answer, filled) => balance_as(rt, heap, &archive, lent, answer, filled)?,
    }
    Ok(archive)
}

fn take_steps<S: Shelf + Drop>(rt: &impl Abort, heap: Global, shelf: S) -> Result<(), Fail> {
    let mut archive = Archive::open(shelf)?;
    for step in MIXED {
        archive = take_step(rt, heap, archive, step)?;
    }
    Ok(())
}

#[test]
fn on_one_shelf(rt: HostRuntime) -> Result<(), Fail> {
    let heap = rt.alloc();
    let mut places = shelf_of(heap, b"", 16)?;
    take_steps(&rt, heap, MemoryShelf::new(&mut places, 0))
}

// The first shelf has no place, is full within the first entry or within the second, or has every place.
#[test]
fn on_two_shelves(rt: HostRuntime) -> Result<(), Fail> {
    let heap = rt.alloc();
    for (first, second) in [(0, 16), (4, 12), (9, 7), (16, 0)] {
        let mut front = shelf_of(heap, b"", first)?;
        let mut back = shelf_of(heap, b"", second)?;
        take_steps(&rt, heap, pair_over(&mut front, &mut back))?;
    }
    Ok(())
}
