// Twins: two volumes with the same calls, one with a file and one with its twin, answer alike but for the numbers of records.
use crate::balances::OLD as OLD_SUMS;
use crate::copies::{CR_LF, DIGITS, Dress, HIGHEST, PLAIN, file_with};
use crate::letters::{file_of, shelf_of};
use crate::showings::{KINDS, OLD, Under, copied, shown};
use crate::volumes::{found, taken};
use archive::Archive;
use record::{House, Row};
use shelf::{MemoryShelf, Shelf};
use std::alloc::{AllocError, Global};
use std::process::Abort;
use std::test::Fail;

// The records of a file, in parts that each come in their own dress, and the numbers of its rows under the house edition.
type Side = (&'static [(&'static [u8], Dress)], &'static [usize]);

const FILE_F: Side = (&[(b"SOPDE", PLAIN)], &[1, 2, 3, 4, 5]);

const FILE_OF_KINDS: Side = (
    &[(KINDS, PLAIN)],
    &[1, 2, 3, 4, 5, 6, 7, 8, 9, 10, 11, 13, 14, 15],
);

// Other reserve positions and other line ends.
const CHANGED: Dress = (b"\r\n", b'\xff');

const TWINS: [(Side, Side); 16] = [
    (FILE_F, FILE_F),
    // an unknown record before the deposit, two behind the start, and one behind the end; then taken out here and put in there
    (FILE_F, (&[(b"SOPXDE", PLAIN)], &[1, 2, 3, 5, 6])),
    (FILE_F, (&[(b"SXXOPDE", PLAIN)], &[1, 4, 5, 6, 7])),
    (FILE_F, (&[(b"SOPDEX", PLAIN)], &[1, 2, 3, 4, 5])),
    (
        (&[(b"SOXPDXE", PLAIN)], &[1, 2, 4, 5, 7]),
        (&[(b"SXOPDE", PLAIN)], &[1, 3, 4, 5, 6]),
    ),
    // reserve positions of one record, and of all
    (
        FILE_F,
        (
            &[(b"SO", PLAIN), (b"P", HIGHEST), (b"DE", PLAIN)],
            &[1, 2, 3, 4, 5],
        ),
    ),
    (FILE_F, (&[(b"SOPDE", HIGHEST)], &[1, 2, 3, 4, 5])),
    (FILE_F, (&[(b"SOPDE", DIGITS)], &[1, 2, 3, 4, 5])),
    // line ends: of the first, of the last, and of all
    (
        FILE_F,
        (&[(b"S", CR_LF), (b"OPDE", PLAIN)], &[1, 2, 3, 4, 5]),
    ),
    (
        FILE_F,
        (&[(b"SOPD", PLAIN), (b"E", CR_LF)], &[1, 2, 3, 4, 5]),
    ),
    (FILE_F, (&[(b"SOPDE", CR_LF)], &[1, 2, 3, 4, 5])),
    // all three changes
    (FILE_F, (&[(b"SOPXDE", CHANGED)], &[1, 2, 3, 5, 6])),
    (FILE_F, (&[(b"SXOXPXDXEX", CHANGED)], &[1, 3, 5, 7, 9])),
    // with every kind of an item and riders: an unknown record less, and others between address 1 and address 2
    (
        FILE_OF_KINDS,
        (
            &[(b"SAOPBinjBklDAE", CHANGED)],
            &[1, 2, 3, 4, 5, 6, 7, 8, 9, 10, 11, 12, 13, 14],
        ),
    ),
    (
        FILE_OF_KINDS,
        (
            &[(b"SAOPBinXjXBXklDAE", CHANGED)],
            &[1, 2, 3, 4, 5, 6, 7, 9, 11, 13, 14, 15, 16, 17],
        ),
    ),
    // two sections
    (
        (&[(b"SOPDUPuW", PLAIN)], &[1, 2, 3, 4, 5, 6, 7, 8]),
        (&[(b"SOPDXUXPuW", CHANGED)], &[1, 2, 3, 4, 6, 8, 9, 10]),
    ),
];

fn file_of_parts(heap: Global, parts: &[(&[u8], Dress)]) -> Result<Vec<u8>, AllocError> {
    let mut bytes = Vec::new(heap);
    for (letters, (end, byte)) in parts {
        bytes.extend_from_slice(&file_with(heap, letters, end, *byte)?)?;
    }
    Ok(bytes)
}

// Takes a file in under the house edition, and tells the answer.
pub(crate) fn take<S: Shelf + Drop>(
    heap: Global,
    archive: &mut Archive<S>,
    file: &[u8],
) -> Result<String, AllocError> {
    let mut payers = [sums::Row::zero()];
    let answer = archive.take_in(file, &House, &mut payers);
    taken(heap, answer)
}

// A row with a number that is the same for all.
fn unnumbered(row: Row) -> Row {
    Row { number: 0, ..row }
}

// Shows entry 1 of both, and asserts that the rows have these numbers and are else equal, those behind them as they were.
fn same_rows<A: Shelf + Drop, B: Shelf + Drop>(
    rt: &impl Abort,
    first: &Archive<A>,
    second: &Archive<B>,
    numbers: (&[usize], &[usize]),
) {
    let mut rows = [OLD; 20];
    let mut others = [OLD; 20];
    let answer = shown(first, 1, Under::House, &mut rows);
    assert_eq!(rt; answer, Ok(numbers.0.len()));
    let answer = shown(second, 1, Under::House, &mut others);
    assert_eq!(rt; answer, Ok(numbers.1.len()));
    for (i, (row, other)) in rows.iter().zip(&others).enumerate() {
        let number = numbers.0.get(i).copied().unwrap_or(OLD.number);
        assert_eq!(rt; row.number, number, "row {i}");
        let number = numbers.1.get(i).copied().unwrap_or(OLD.number);
        assert_eq!(rt; other.number, number, "row {i} of the twin");
        assert_eq!(rt; unnumbered(*row), unnumbered(*other), "row {i}");
    }
}

// Makes the calls that name no record with tables and buffers of so many rows and bytes, and asserts that all is equal.
fn same_answers<A: Shelf + Drop, B: Shelf + Drop>(
    rt: &impl Abort,
    first: &Archive<A>,
    second: &Archive<B>,
    lent: (usize, usize, usize),
) {
    assert!(rt; lent.0 <= 4 && lent.1 <= 3 && lent.2 <= 1640);
    let mut rows = [OLD; 4];
    let mut others = [OLD; 4];
    let answer = shown(first, 1, Under::House, &mut rows[..lent.0]);
    assert!(rt; answer.is_err());
    assert_eq!(rt;
        answer,
        shown(second, 1, Under::House, &mut others[..lent.0])
    );
    assert_eq!(rt; rows, others);
    let mut sums = [OLD_SUMS; 3];
    let mut others = [OLD_SUMS; 3];
    let answer = first.balance(&mut sums[..lent.1]);
    assert_eq!(rt; answer, second.balance(&mut others[..lent.1]));
    assert_eq!(rt; sums, others);
    let mut copy = [b'#'; 1640];
    let mut other = [b'#'; 1640];
    for under in [Under::Bare, Under::House] {
        let answer = copied(first, 1, under, &mut copy[..lent.2]);
        assert_eq!(rt; answer, copied(second, 1, under, &mut other[..lent.2]));
        assert_eq!(rt; copy, other);
    }
}

const LENT: [(usize, usize, usize); 3] = [(4, 3, 1640), (0, 0, 409), (1, 1, 410)];

fn all_calls<A: Shelf + Drop, B: Shelf + Drop>(
    rt: &impl Abort,
    heap: Global,
    first: &Archive<A>,
    second: &Archive<B>,
    numbers: (&[usize], &[usize]),
) -> Result<(), Fail> {
    same_rows(rt, first, second, numbers);
    for lent in LENT {
        same_answers(rt, first, second, lent);
    }
    let standing = found(heap, first.opened())?;
    assert_eq!(rt; standing.as_str(), found(heap, second.opened())?.as_str());
    Ok(())
}

// A volume with the file as entry 1, to which its twin is then brought, which has the time stamp of that entry.
fn archive_of<'a>(
    rt: &impl Abort,
    heap: Global,
    places: &'a mut [u8],
    file: &[u8],
    twin: &[u8],
) -> Result<Archive<MemoryShelf<'a>>, Fail> {
    let mut archive = Archive::open(MemoryShelf::new(places, 0))?;
    assert_eq!(rt; take(heap, &mut archive, file)?.as_str(), "entry 1");
    let there = "21, volume, entry 1: time stamp already there";
    assert_eq!(rt; take(heap, &mut archive, twin)?.as_str(), there);
    Ok(archive)
}

// Closes the volume, which has one entry.
fn closed<S: Shelf + Drop>(rt: &impl Abort, archive: Archive<S>) -> Archive<S> {
    let (archive, entries) = archive.close();
    assert_eq!(rt; entries, Ok(1));
    archive
}

// While both volumes are open, opened again, and closed.
fn all_standings<A: Shelf + Drop, B: Shelf + Drop>(
    rt: &impl Abort,
    heap: Global,
    first: Archive<A>,
    second: Archive<B>,
    numbers: (&[usize], &[usize]),
) -> Result<(), Fail> {
    all_calls(rt, heap, &first, &second, numbers)?;
    let (first, second) = (first.reopen(), second.reopen());
    all_calls(rt, heap, &first, &second, numbers)?;
    let (first, second) = (closed(rt, first), closed(rt, second));
    all_calls(rt, heap, &first, &second, numbers)
}

#[test]
fn alike(rt: HostRuntime) -> Result<(), Fail> {
    let heap = rt.alloc();
    for (side, other_side) in TWINS {
        let file = file_of_parts(heap, side.0)?;
        let twin = file_of_parts(heap, other_side.0)?;
        let mut places = shelf_of(heap, b"", 20)?;
        let mut other_places = shelf_of(heap, b"", 20)?;
        let first = archive_of(&rt, heap, &mut places, &file, &twin)?;
        let second = archive_of(&rt, heap, &mut other_places, &twin, &file)?;
        all_standings(&rt, heap, first, second, (side.1, other_side.1))?;
    }
    Ok(())
}

// a file and its twin, and why each of them is refused
const REFUSED: [(&[u8], &[u8], [&str; 2]); 9] = [
    (
        b"SOPdE",
        b"SOPXdE",
        [
            "9, file, record 4: deposit disagrees",
            "9, file, record 5: deposit disagrees",
        ],
    ),
    (
        b"SOPDe",
        b"SXOPDXe",
        [
            "10, file, record 5: end counts disagree",
            "10, file, record 7: end counts disagree",
        ],
    ),
    // right behind the last whole record
    (
        b"SOPD",
        b"SOPXD",
        [
            "12, file, record 5: file ends before its end record",
            "12, file, record 6: file ends before its end record",
        ],
    ),
    (
        b"SOpDE",
        b"SXOpDE",
        [
            "1, file, record 3: no whole record",
            "1, file, record 4: no whole record",
        ],
    ),
    // riders of the house edition
    (
        b"SROPDE",
        b"SXROPDE",
        [
            "13, file, record 2: rider ill-formed",
            "13, file, record 3: rider ill-formed",
        ],
    ),
    (
        b"SOPADE",
        b"SOPXADE",
        [
            "14, file, record 4: rider at a wrong level",
            "14, file, record 5: rider at a wrong level",
        ],
    ),
    // a second payer, for which the payer table has no row
    (
        b"SOPHDE",
        b"SOXPXHDE",
        [
            "7, file, record 4: no place for a new payer",
            "7, file, record 6: no place for a new payer",
        ],
    ),
    // the first record keeps its number, and a test mark has none
    (
        b"OPDE",
        b"OXPDE",
        ["3, file, record 1: core record out of order, or first not start"; 2],
    ),
    (b"TOPDE", b"TOPXDE", ["20, volume: marked T"; 2]),
];

#[test]
fn refused_alike(rt: HostRuntime) -> Result<(), Fail> {
    let heap = rt.alloc();
    for (letters, twin_letters, answers) in REFUSED {
        for (letters, answer) in [letters, twin_letters].iter().zip(&answers) {
            let mut places = shelf_of(heap, b"", 20)?;
            let mut archive = Archive::open(MemoryShelf::new(&mut places, 0))?;
            let told = take(heap, &mut archive, &file_of(heap, letters)?)?;
            assert_eq!(rt; told.as_str(), *answer);
            assert_eq!(rt; found(heap, archive.opened())?.as_str(), "0 entries, open");
        }
    }
    Ok(())
}
