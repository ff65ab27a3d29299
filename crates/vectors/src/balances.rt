// Volumes balanced: the rows of payees and currencies, and what too short a table leaves.
use crate::letters::{file_of as file_of_letters, shelf_of};
use crate::sections::{Section, file_of};
use crate::showings::{ALL_FORMS, KINDS, answered, archive_with};
use archive::Archive;
use field::Currency;
use field::Currency::{Eur, Sek};
use record::Bare;
use report::Pair;
use shelf::{MemoryShelf, Shelf};
use std::alloc::Global;
use std::process::Abort;
use std::test::Fail;
use sums::Row;

// A row: payee, currency, what was added and what was taken away.
pub(crate) type Sums = (u64, Currency, u64, u64);

fn columns(row: Row<Pair>) -> Sums {
    (row.key.payee, row.key.currency, row.added, row.taken)
}

// What stands in a table before a call, and in a row behind those in use after it.
pub(crate) const OLD: Row<Pair> = Row {
    key: Pair {
        payee: 9,
        currency: Eur,
    },
    added: 9,
    taken: 9,
};

const ZERO: Sums = (0, Sek, 0, 0);

const SHORT: &str = "26, volume: balance table short";

// Balances a volume by a table of so many rows, and asserts the answer, the rows that are filled in, that the other rows of the
// table are zero, and that those which were not lent are as they were.
pub(crate) fn balance_as<S: Shelf + Drop>(
    rt: &impl Abort,
    heap: Global,
    archive: &Archive<S>,
    lent: usize,
    answer: &str,
    filled: &[Sums],
) -> Result<(), Fail> {
    let mut rows = [OLD; 6];
    assert!(rt; lent <= 6);
    let given = archive.balance(&mut rows[..lent]);
    assert_eq!(rt; answered(heap, given)?.as_str(), answer);
    for (i, row) in rows.iter().enumerate() {
        let behind = if i < lent { ZERO } else { columns(OLD) };
        let wanted = filled.get(i).copied().unwrap_or(behind);
        assert_eq!(rt; columns(*row), wanted, "{answer}, row {i}");
    }
    Ok(())
}

const SEK_4711: &str = "0000004711          SEK";

const EUR_4711: &str = "0000004711          EUR";

const SEK_4712: &str = "0000004712          SEK";

const EUR_4712: &str = "0000004712          EUR";

// The same payee and currency as the first, with a plusgiro number.
const PLUSGIRO: &str = "00000047110000004712SEK";

// Payee 0 in SEK, as a row that became zero.
const NO_PAYEE: &str = "0000000000          SEK";

const F: &[Section] = &[(SEK_4711, &[125_000], &[])];

// Two sections of one pair, with one of another between them.
const TWICE: &[Section] = &[
    (SEK_4711, &[100, 20], &[]),
    (EUR_4712, &[7], &[]),
    (SEK_4711, &[3], &[]),
];

// One payee in both currencies.
const BOTH: &[Section] = &[(SEK_4711, &[100], &[]), (EUR_4711, &[40], &[])];

// Every pair of two payees and two currencies, and again in the other order.
const FOUR: &[Section] = &[
    (EUR_4712, &[1], &[]),
    (SEK_4712, &[20], &[]),
    (EUR_4711, &[300], &[]),
    (SEK_4711, &[4_000], &[]),
];

const FOUR_BACK: &[Section] = &[
    (SEK_4711, &[50_000], &[]),
    (EUR_4711, &[600_000], &[]),
    (SEK_4712, &[7_000_000], &[]),
    (EUR_4712, &[80_000_000], &[]),
];

const DEDUCTED: &[Section] = &[
    (SEK_4711, &[500, 30], &[100, 9]),
    (SEK_4711, &[60], &[60]),
    (EUR_4711, &[2], &[]),
];

// The highest amount, three times, and one öre or nothing paid.
const HIGHEST: &[Section] = &[
    (
        SEK_4711,
        &[9_999_999_999_999, 9_999_999_999_999],
        &[9_999_999_999_999],
    ),
    (EUR_4712, &[0], &[]),
    (NO_PAYEE, &[1], &[1]),
];

// the files that are taken in, the rows that are lent, the answer, and what is filled in
const BALANCED: [(&[&[Section]], usize, &str, &[Sums]); 24] = [
    // no entry: no row is filled, and the rows of the table become zero
    (&[], 3, "0 filled", &[]),
    (&[], 0, "0 filled", &[]),
    (&[F], 1, "1 filled", &[(4711, Sek, 125_000, 0)]),
    (&[F], 5, "1 filled", &[(4711, Sek, 125_000, 0)]),
    (&[F], 0, SHORT, &[]),
    // one pair: in two sections, and over two files
    (
        &[TWICE],
        2,
        "2 filled",
        &[(4711, Sek, 123, 0), (4712, Eur, 7, 0)],
    ),
    (
        &[TWICE],
        6,
        "2 filled",
        &[(4711, Sek, 123, 0), (4712, Eur, 7, 0)],
    ),
    (&[TWICE], 1, SHORT, &[]),
    (&[F, F], 1, "1 filled", &[(4711, Sek, 250_000, 0)]),
    (&[F, F, F], 4, "1 filled", &[(4711, Sek, 375_000, 0)]),
    // two pairs: of one payee, of one currency
    (
        &[BOTH],
        2,
        "2 filled",
        &[(4711, Sek, 100, 0), (4711, Eur, 40, 0)],
    ),
    (&[BOTH], 1, SHORT, &[]),
    (&[BOTH], 0, SHORT, &[]),
    (
        &[&[(SEK_4711, &[8], &[]), (SEK_4712, &[9], &[])]],
        3,
        "2 filled",
        &[(4711, Sek, 8, 0), (4712, Sek, 9, 0)],
    ),
    // a plusgiro number makes no other pair
    (
        &[&[(SEK_4711, &[8], &[]), (PLUSGIRO, &[9], &[])]],
        2,
        "1 filled",
        &[(4711, Sek, 17, 0)],
    ),
    // what is deducted has a column of its own
    (
        &[DEDUCTED],
        3,
        "2 filled",
        &[(4711, Sek, 590, 169), (4711, Eur, 2, 0)],
    ),
    (
        &[F, DEDUCTED],
        2,
        "2 filled",
        &[(4711, Sek, 125_590, 169), (4711, Eur, 2, 0)],
    ),
    // a pair for which nothing is paid has a row, and so has payee 0
    (
        &[HIGHEST],
        4,
        "3 filled",
        &[
            (4711, Sek, 19_999_999_999_998, 9_999_999_999_999),
            (4712, Eur, 0, 0),
            (0, Sek, 1, 1),
        ],
    ),
    (&[HIGHEST], 2, SHORT, &[]),
    // the order of first appearance, over the files
    (
        &[FOUR, FOUR_BACK],
        4,
        "4 filled",
        &[
            (4712, Eur, 80_000_001, 0),
            (4712, Sek, 7_000_020, 0),
            (4711, Eur, 600_300, 0),
            (4711, Sek, 54_000, 0),
        ],
    ),
    (
        &[FOUR_BACK, FOUR],
        6,
        "4 filled",
        &[
            (4711, Sek, 54_000, 0),
            (4711, Eur, 600_300, 0),
            (4712, Sek, 7_000_020, 0),
            (4712, Eur, 80_000_001, 0),
        ],
    ),
    (
        &[F, BOTH, FOUR],
        4,
        "4 filled",
        &[
            (4711, Sek, 129_100, 0),
            (4711, Eur, 340, 0),
            (4712, Eur, 1, 0),
            (4712, Sek, 20, 0),
        ],
    ),
    (&[F, BOTH, FOUR], 3, SHORT, &[]),
    (&[F, FOUR], 1, SHORT, &[]),
];

// A volume on a shelf in these places, with these files as its entries.
fn archive_of<'a>(
    rt: &impl Abort,
    heap: Global,
    places: &'a mut [u8],
    files: &[&[Section]],
) -> Result<Archive<MemoryShelf<'a>>, Fail> {
    let mut archive = Archive::open(MemoryShelf::new(places, 0))?;
    for (i, sections) in files.iter().enumerate() {
        let file = file_of(heap, i, sections)?;
        let mut payers = [Row::zero()];
        let answer = archive.take_in(file.as_bytes(), &Bare, &mut payers);
        assert_eq!(rt; answer, Ok(i.saturating_add(1)));
    }
    Ok(archive)
}

// While the volume is open, when it is opened again, and when it is closed.
#[test]
fn rows(rt: HostRuntime) -> Result<(), Fail> {
    let heap = rt.alloc();
    for (files, lent, answer, filled) in BALANCED {
        let mut places = shelf_of(heap, b"", 60)?;
        let archive = archive_of(&rt, heap, &mut places, files)?;
        balance_as(&rt, heap, &archive, lent, answer, filled)?;
        let archive = archive.reopen();
        balance_as(&rt, heap, &archive, lent, answer, filled)?;
        let (archive, _) = archive.close();
        balance_as(&rt, heap, &archive, lent, answer, filled)?;
    }
    Ok(())
}

// the records of entry 1, and its rows: neither extra references nor riders or unknown records enter anything, whatever they look
// like
const OTHERS: [(&[u8], &str, &[Sums]); 4] = [
    (
        ALL_FORMS,
        "2 filled",
        &[(4711, Sek, 9_999_999_999_999, 0), (4711, Eur, 125_023, 32)],
    ),
    (KINDS, "1 filled", &[(4711, Sek, 125_000, 0)]),
    (b"SXOXPXDXEX", "1 filled", &[(4711, Sek, 125_000, 0)]),
    (b"S7O8P9DEtc", "1 filled", &[(4711, Sek, 125_000, 0)]),
];

#[test]
fn other_records(rt: HostRuntime) -> Result<(), Fail> {
    let heap = rt.alloc();
    for (letters, answer, filled) in OTHERS {
        let mut places = shelf_of(heap, b"", 20)?;
        let archive = archive_with(&rt, &mut places, &file_of_letters(heap, letters)?)?;
        balance_as(&rt, heap, &archive, 6, answer, filled)?;
    }
    Ok(())
}
