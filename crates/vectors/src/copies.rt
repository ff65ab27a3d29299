// Plain copies of entries, byte for byte, and what is read from them.
use crate::letters::{lines_of, record, shelf_of};
use crate::showings::{ALL_FORMS, KINDS, Under, answered, archive_with, copied};
use archive::{Archive, NotLaid};
use file::check;
use filing::VolumeFault;
use record::{Bare, House};
use shelf::Shelf;
use std::alloc::{AllocError, Global};
use std::process::Abort;
use std::test::Fail;
use sums::Row;

// the code of a core record, and the first of its reserve positions, which go up to 80; a deposit has none
const RESERVES: [([u8; 2], usize); 12] = [
    (*b"01", 46),
    (*b"05", 26),
    (*b"20", 71),
    (*b"21", 72),
    (*b"22", 71),
    (*b"23", 71),
    (*b"25", 53),
    (*b"26", 73),
    (*b"27", 47),
    (*b"28", 75),
    (*b"29", 15),
    (*b"70", 35),
];

// A record with each of its reserve positions full of this byte.
fn filled_with(letter: u8, byte: u8) -> [u8; 80] {
    let mut item = *record(letter);
    let code = [item[0], item[1]];
    let first = match RESERVES.iter().find(|row| row.0 == code) {
        Some((_, first)) => *first,
        None => 81,
    };
    for i in 0..80 {
        if first <= i + 1 {
            item[i] = byte;
        }
    }
    item
}

// A file of such records, each with this line end.
pub(crate) fn file_with(
    heap: Global,
    letters: &[u8],
    end: &[u8],
    byte: u8,
) -> Result<Vec<u8>, AllocError> {
    let mut bytes = Vec::new(heap);
    for letter in letters {
        bytes.extend_from_slice(&filled_with(*letter, byte))?;
        bytes.extend_from_slice(end)?;
    }
    Ok(bytes)
}

const SHORT: &str = "27, volume, 410 bytes needed: copy buffer short";

const ONE_MORE: &str = "27, volume, 492 bytes needed: copy buffer short";

// A record's line end, and what stands in its reserve positions.
pub(crate) type Dress = (&'static [u8], u8);

pub(crate) const PLAIN: Dress = (b"\n", b' ');

pub(crate) const CR_LF: Dress = (b"\r\n", b' ');

pub(crate) const DIGITS: Dress = (b"\r\n", b'0');

pub(crate) const HIGHEST: Dress = (b"\n", b'\xff');

// the records of entry 1 and how they come; the edition, the bytes that are lent, the answer, and the records of the copy
const COPIED: [(&[u8], Dress, Under, usize, &str, &[u8]); 18] = [
    (b"SOPDE", PLAIN, Under::House, 410, "410 filled", b"SOPDE"),
    (b"SOPDE", CR_LF, Under::Bare, 410, "410 filled", b"SOPDE"),
    (b"SOPDE", DIGITS, Under::House, 410, "410 filled", b"SOPDE"),
    (
        b"SXOXPXDXEX",
        HIGHEST,
        Under::Bare,
        410,
        "410 filled",
        b"SOPDE",
    ),
    (
        KINDS,
        HIGHEST,
        Under::House,
        1148,
        "1148 filled",
        b"SAOPBinjBklDAE",
    ),
    (KINDS, DIGITS, Under::Bare, 820, "820 filled", b"SOPinjklDE"),
    (
        ALL_FORMS,
        HIGHEST,
        Under::House,
        1312,
        "1312 filled",
        ALL_FORMS,
    ),
    (
        b"SXOPDE",
        DIGITS,
        Under::Sevens,
        492,
        "492 filled",
        b"SXOPDE",
    ),
    // a 40 that is ill-formed, to a reader who does not know it
    (b"SROPDE", PLAIN, Under::Bare, 410, "410 filled", b"SOPDE"),
    // more bytes than are needed, and fewer
    (b"SOPDE", PLAIN, Under::House, 411, "410 filled", b"SOPDE"),
    (
        b"SOPDE",
        HIGHEST,
        Under::House,
        1640,
        "410 filled",
        b"SOPDE",
    ),
    (b"SOPDE", PLAIN, Under::House, 409, SHORT, b""),
    (b"SOPDE", CR_LF, Under::House, 409, SHORT, b""),
    (b"SOPDE", PLAIN, Under::House, 5, SHORT, b""),
    (b"SOPDE", PLAIN, Under::House, 0, SHORT, b""),
    (b"SOPXDE", PLAIN, Under::House, 409, SHORT, b""),
    (b"SAOPDE", PLAIN, Under::House, 491, ONE_MORE, b""),
    (b"SAOPDE", PLAIN, Under::Bare, 409, SHORT, b""),
];

// Copies an entry, and asserts the answer, the lines of these records, and that all bytes behind them are as they were.
pub(crate) fn copy_as<S: Shelf + Drop>(
    rt: &impl Abort,
    heap: Global,
    archive: &Archive<S>,
    asked: (usize, Under, usize),
    answer: &str,
    records: &[u8],
) -> Result<(), Fail> {
    let (entry, under, lent) = asked;
    let mut buffer = [b'#'; 1640];
    assert!(rt; lent <= 1640);
    let given = copied(archive, entry, under, &mut buffer[..lent]);
    assert_eq!(rt; answered(heap, given)?.as_str(), answer);
    let mut wanted = lines_of(heap, records, b"\r\n")?;
    for _ in wanted.len()..1640 {
        wanted.push(b'#')?;
    }
    assert_eq!(rt; buffer.as_slice(), wanted.as_slice());
    Ok(())
}

#[test]
fn lines(rt: HostRuntime) -> Result<(), Fail> {
    let heap = rt.alloc();
    for (letters, (end, byte), under, lent, answer, records) in COPIED {
        let file = file_with(heap, letters, end, byte)?;
        let mut places = shelf_of(heap, b"", 20)?;
        let archive = archive_with(&rt, &mut places, &file)?;
        copy_as(&rt, heap, &archive, (1, under, lent), answer, records)?;
    }
    Ok(())
}

// The four counts of a file that is accepted under the house edition.
fn counted(file: &[u8]) -> Option<[u64; 4]> {
    let mut payers = [Row::zero()];
    let end = check(file, &House, &mut payers).ok()?;
    Some([end.payments, end.deductions, end.extras, end.deposits])
}

// the records of a file with the bytes that its copy under the house edition has, and the four counts
const KEPT: [(&[u8], usize, [u64; 4]); 3] = [
    (b"SXOPDE", 410, [1, 0, 0, 1]),
    (KINDS, 1148, [1, 0, 0, 1]),
    (ALL_FORMS, 1312, [5, 2, 3, 2]),
];

// The copy is accepted as its file was, and is known to be the entry that it came from.
#[test]
fn copy_of_an_entry(rt: HostRuntime) -> Result<(), Fail> {
    let heap = rt.alloc();
    for (letters, needed, counts) in KEPT {
        let file = file_with(heap, letters, b"\n", b'x')?;
        assert_eq!(rt; counted(&file), Some(counts));
        let mut places = shelf_of(heap, b"", 60)?;
        let mut archive = archive_with(&rt, &mut places, &file)?;
        let mut copy = vec![in heap; b'#'; needed]?;
        assert_eq!(rt; copied(&archive, 1, Under::House, &mut copy), Ok(needed));
        assert_eq!(rt; counted(&copy), Some(counts));
        let mut payers = [Row::zero()];
        let answer = archive.take_in(&copy, &Bare, &mut payers);
        assert_eq!(rt; answer, Err(NotLaid::Refused(VolumeFault::SameStamp(1))));
    }
    Ok(())
}
