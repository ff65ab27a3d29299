// Opening shelves that a stranger filled.
use crate::letters::{record, shelf_of};
use crate::shelves::Alike;
use crate::volumes::opened;
use filing::VolumeFault;
use shelf::{Joined, MemoryShelf, Shelf};
use std::alloc::{AllocError, Global};
use std::test::Fail;
use trailer::{Totals, Trailer, write_trailer};
use volume::open;

const NO_1: &str = "30, volume, shelf record 1: no right trailer where one is due";

const NO_5: &str = "30, volume, shelf record 5: no right trailer where one is due";

const NO_6: &str = "30, volume, shelf record 6: no right trailer where one is due";

const NO_7: &str = "30, volume, shelf record 7: no right trailer where one is due";

const NO_8: &str = "30, volume, shelf record 8: no right trailer where one is due";

const OTHER_0: &str = "32, volume, entry 0: trailer disagrees with entry";

const OTHER_1: &str = "32, volume, entry 1: trailer disagrees with entry";

const OTHER_2: &str = "32, volume, entry 2: trailer disagrees with entry";

const FULL: &str = "22, volume: no room on the shelf";

// the records of a memory shelf, its places, and what opening answers
const SHELVES: [(&[u8], usize, &str); 34] = [
    (b"", 0, FULL),
    (b"", 1, "0 entries, open"),
    (b"v", 1, "0 entries, closed"),
    (b"SOPDE1", 6, FULL),
    (b"SOPDE1", 7, "1 entries, open"),
    (b"SOPDE1w", 7, "1 entries, closed"),
    (b"SOPDE1w", 9, "1 entries, closed"),
    (b"SOPDE1GOPDE2", 12, FULL),
    (b"SOPDE1GOPDE2", 13, "2 entries, open"),
    // no trailer where one is due
    (b"S", 9, NO_1),
    (b"9", 9, NO_1),
    (b"SOPDE", 9, NO_5),
    (b"SOPDE1S", 9, NO_7),
    (b"SOPDE11", 9, NO_7),
    (b"SOPDE1wS", 9, NO_8),
    (b"SOPDEXw", 9, NO_6),
    (b"GOPDE2", 9, NO_6),
    // two entries with their trailers in the other order, and only the files
    (
        b"GOPDE2SOPDE1",
        13,
        "30, volume, shelf record 12: no right trailer where one is due",
    ),
    (b"GOPDE1SOPDE2", 13, "2 entries, open"),
    // a closing record that is not right, or behind which another stands
    (b"8", 9, NO_1),
    (b"SOPDE18", 9, NO_7),
    (b"SOPDE1v", 9, NO_7),
    (b"SOPDE1x", 9, NO_7),
    (b"SOPDE1wh", 9, NO_7),
    // one that is right, with other entries or zeros
    (b"SOPDE1a", 9, OTHER_0),
    (b"SOPDE1b", 9, OTHER_0),
    (b"SOPDE1f", 9, OTHER_0),
    (b"SOPDE1g", 9, OTHER_0),
    // the first of several faults
    (b"SOPDE0", 6, OTHER_1),
    (b"SOPDE0a", 9, OTHER_1),
    (b"SOPDE0GOPdE2", 12, OTHER_1),
    (
        b"SOPdE0GOPdE2",
        13,
        "31, volume, entry 1: entry can't be read: 9, file, record 4: deposit disagrees",
    ),
    (
        b"SOPdE1a",
        9,
        "31, volume, entry 1: entry can't be read: 9, file, record 4: deposit disagrees",
    ),
    (b"SOPdEXv", 9, NO_7),
];

#[test]
fn shelves(rt: HostRuntime) -> Result<(), Fail> {
    let heap = rt.alloc();
    for (letters, places, answer) in SHELVES {
        let mut bytes = shelf_of(heap, letters, places)?;
        let shelf = MemoryShelf::new(&mut bytes, letters.len());
        assert_eq!(rt; opened(heap, &shelf)?.as_str(), answer);
    }
    Ok(())
}

// the records of a shelf, and of the trailer behind them, which has its check digits: records, entry, previous trailer,
// payments, deductions, sums in SEK and EUR; then what opening answers
const TRAILERS: [(&[u8], [u64; 7], &str); 29] = [
    (b"SOPDE", [5, 1, 0, 1, 0, 125_000, 0], "1 entries, open"),
    (
        b"SOPDE1GOPDE",
        [5, 2, 6, 1, 0, 125_000, 0],
        "2 entries, open",
    ),
    // neither equal time stamps are looked at, nor test marks, payers or riders
    (
        b"SOPDE1SOPDE",
        [5, 2, 6, 1, 0, 125_000, 0],
        "2 entries, open",
    ),
    (b"TOPDE", [5, 1, 0, 1, 0, 125_000, 0], "1 entries, open"),
    (b"SOPQqe", [6, 1, 0, 1, 1, 120_000, 0], "1 entries, open"),
    (b"SROPDE", [6, 1, 0, 1, 0, 125_000, 0], "1 entries, open"),
    (b"SUPuE", [5, 1, 0, 1, 0, 0, 125_000], "1 entries, open"),
    // previous trailer and number of records do not lead to one
    (b"SOPDE", [4, 1, 0, 1, 0, 125_000, 0], NO_6),
    (b"SOPDE", [6, 1, 0, 1, 0, 125_000, 0], NO_6),
    (b"SOPDE", [5, 1, 1, 1, 0, 125_000, 0], NO_6),
    (b"SOPDE", [4, 1, 1, 1, 0, 125_000, 0], NO_1),
    (b"SOPDE", [0, 1, 5, 1, 0, 125_000, 0], NO_5),
    (b"SOPDE1GOPDE", [6, 2, 5, 1, 0, 125_000, 0], NO_5),
    (b"SOPDE1GOPDE", [10, 2, 1, 1, 0, 125_000, 0], NO_1),
    (b"SOPDE1wGOPDE", [5, 2, 7, 1, 0, 125_000, 0], NO_7),
    // one number or sum is not that of the entry
    (b"SOPDE", [5, 0, 0, 1, 0, 125_000, 0], OTHER_1),
    (b"SOPDE", [5, 2, 0, 1, 0, 125_000, 0], OTHER_1),
    (b"SOPDE", [5, 1, 0, 0, 0, 125_000, 0], OTHER_1),
    (b"SOPDE", [5, 1, 0, 2, 0, 125_000, 0], OTHER_1),
    (b"SOPDE", [5, 1, 0, 1, 1, 125_000, 0], OTHER_1),
    (b"SOPDE", [5, 1, 0, 1, 0, 124_999, 0], OTHER_1),
    (b"SOPDE", [5, 1, 0, 1, 0, 125_000, 1], OTHER_1),
    (b"SOPDE", [5, 1, 0, 1, 0, 0, 125_000], OTHER_1),
    (b"SUPuE", [5, 1, 0, 1, 0, 125_000, 0], OTHER_1),
    (b"SOPQqe", [6, 1, 0, 1, 0, 120_000, 0], OTHER_1),
    (b"SOPDE1GOPDE", [5, 1, 6, 1, 0, 125_000, 0], OTHER_2),
    (b"SOPDE1GOPDE", [5, 3, 6, 1, 0, 125_000, 0], OTHER_2),
    (b"SOPDE1GOPDE", [5, 2, 6, 2, 0, 125_000, 0], OTHER_2),
    (b"SOPDE1GOPDE", [5, 2, 6, 1, 0, 250_000, 0], OTHER_2),
];

// Opens a memory shelf with these records and a trailer of these fields, which has its check digits.
fn opened_with(heap: Global, letters: &[u8], fields: [u64; 7]) -> Result<String, AllocError> {
    let [records, entry, previous, payments, deductions, sek, eur] = fields;
    let trailer = Trailer {
        records,
        entry,
        previous,
        totals: Totals {
            payments,
            deductions,
            sek,
            eur,
        },
    };
    let mut item = [0u8; 80];
    write_trailer(&trailer, &mut item);
    let mut bytes = shelf_of(heap, letters, 20)?;
    let mut shelf = MemoryShelf::new(&mut bytes, letters.len());
    let _ = shelf.add(&item);
    opened(heap, &shelf)
}

#[test]
fn trailers(rt: HostRuntime) -> Result<(), Fail> {
    let heap = rt.alloc();
    for (letters, fields, answer) in TRAILERS {
        assert_eq!(rt; opened_with(heap, letters, fields)?.as_str(), answer);
    }
    Ok(())
}

// the records of an entry 1 and its number of records, then the file's refusal
const UNREADABLE: [(&[u8], u64, &str); 9] = [
    (
        b"",
        0,
        "12, file, record 1: file ends before its end record",
    ),
    (
        b"SOPD",
        4,
        "12, file, record 5: file ends before its end record",
    ),
    (
        b"OPDE",
        4,
        "3, file, record 1: core record out of order, or first not start",
    ),
    (
        b"SOPDEE",
        6,
        "3, file, record 6: core record out of order, or first not start",
    ),
    // a second file behind the trailer of the first, and one behind a closing record
    (
        b"SOPDE1GOPDE",
        11,
        "3, file, record 7: core record out of order, or first not start",
    ),
    (
        b"wGOPDE",
        6,
        "3, file, record 1: core record out of order, or first not start",
    ),
    (b"SOpDE", 5, "1, file, record 3: no whole record"),
    (b"SOPZDE", 6, "2, file, record 4: code not two digits"),
    (b"SOPDe", 5, "10, file, record 5: end counts disagree"),
];

// The same behind another entry has the same record, as it counts in its own entry.
#[test]
fn unreadable_entries(rt: HostRuntime) -> Result<(), Fail> {
    let heap = rt.alloc();
    for (letters, records, refusal) in UNREADABLE {
        let first = opened_with(heap, letters, [records, 1, 0, 1, 0, 125_000, 0])?;
        let words = format!(in heap; "31, volume, entry 1: entry can't be read: {refusal}")?;
        assert_eq!(rt; first.as_str(), words.as_str());
        let mut both = b"SOPDE1".to_vec(heap)?;
        both.extend_from_slice(letters)?;
        let second = opened_with(heap, &both, [records, 2, 6, 1, 0, 125_000, 0])?;
        let words = format!(in heap; "31, volume, entry 2: entry can't be read: {refusal}")?;
        assert_eq!(rt; second.as_str(), words.as_str());
    }
    Ok(())
}

// Opens a volume of F, closed or not, whose last record has this digit at this place.
fn refused_with(
    heap: Global,
    letters: &[u8],
    place: usize,
    digit: u8,
) -> Result<Option<VolumeFault>, AllocError> {
    let mut bytes = shelf_of(heap, letters, letters.len())?;
    if place < 80 && 80 <= bytes.len() {
        let last = bytes.len() - 80;
        bytes[last + place] = digit;
    }
    let shelf = MemoryShelf::new(&mut bytes, letters.len());
    Ok(open(&shelf).err())
}

// One other digit at any place of a trailer or closing record makes it one that is not right.
#[test]
fn one_digit(rt: HostRuntime) -> Result<(), Fail> {
    let heap = rt.alloc();
    for i in 0..1600 {
        let (letters, last): (&[u8], &[u8; 80]) = if i < 800 {
            (b"SOPDE1", record(b'1'))
        } else {
            (b"SOPDE1w", record(b'w'))
        };
        let place = i % 80;
        let digit = b"0123456789"[i / 80 % 10];
        if digit != last[place] {
            let answer = refused_with(heap, letters, place, digit)?;
            assert_eq!(rt;
                answer,
                Some(VolumeFault::NoTrailer(letters.len())),
                "{place}"
            );
        }
    }
    Ok(())
}

// The bytes of 50 records that look random: any bytes, or digits that begin each record with 99.
fn noise(heap: Global, digits: bool) -> Result<Vec<u8>, AllocError> {
    let mut bytes = Vec::new(heap);
    let mut state: u32 = 1;
    for i in 0..4000 {
        state = state.wrapping_mul(1_664_525).wrapping_add(1_013_904_223);
        let byte = state.to_be_bytes()[0];
        bytes.push(match i % 80 {
            _ if !digits => byte,
            0 | 1 => b'9',
            _ => b'0' + byte % 10,
        })?;
    }
    Ok(bytes)
}

#[test]
fn random_bytes(rt: HostRuntime) -> Result<(), Fail> {
    for i in 2..100 {
        let mut bytes = noise(rt.alloc(), i % 2 == 0)?;
        let shelf = MemoryShelf::new(&mut bytes, i / 2);
        assert_eq!(rt;
            open(&shelf).err(),
            Some(VolumeFault::NoTrailer(i / 2)),
            "{i}"
        );
    }
    Ok(())
}

// Entries of many records, all but the first and the trailer on paper.
#[test]
fn long_entries(rt: HostRuntime) -> Result<(), Fail> {
    let heap = rt.alloc();
    let rows = [
        (
            49_999,
            "12, file, record 50001: file ends before its end record",
        ),
        (50_000, "11, file, record 50001: record 50,001"),
        (400_000, "11, file, record 50001: record 50,001"),
    ];
    for (more, refusal) in rows {
        let mut start = shelf_of(heap, b"S", 1)?;
        let mut end = shelf_of(heap, b"", 2)?;
        let shelf = on_paper(&mut start, more, &mut end);
        let words = format!(in heap; "31, volume, entry 1: entry can't be read: {refusal}")?;
        assert_eq!(rt; opened(heap, &shelf)?.as_str(), words.as_str());
    }
    Ok(())
}

// A start record, records of sevens, so many, and their trailer.
fn on_paper<'a>(
    start: &'a mut [u8],
    more: usize,
    end: &'a mut [u8],
) -> Joined<Joined<MemoryShelf<'a>, Alike>, MemoryShelf<'a>> {
    let trailer = Trailer {
        records: (more as u64).saturating_add(1),
        entry: 1,
        previous: 0,
        totals: Totals {
            payments: 0,
            deductions: 0,
            sek: 0,
            eur: 0,
        },
    };
    let mut item = [0u8; 80];
    write_trailer(&trailer, &mut item);
    let mut shelf = Joined {
        first: Joined {
            first: MemoryShelf::new(start, 1),
            second: Alike {
                count: more,
                byte: b'7',
            },
        },
        second: MemoryShelf::new(end, 0),
    };
    let _ = shelf.add(&item);
    shelf
}
