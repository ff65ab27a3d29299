// Whole files, each record written as a letter.
use file::{Judge, Lines, NotJudged, check};
use manual::{FileFault, Place};
use record::{Bare, End, House};
use refusal::Refusal;
use std::alloc::{AllocError, Global};
use std::test::Fail;
use sums::Row;

// Each letter's record with its line end.
const LINES: [(u8, &[u8]); 40] = [
    (
        b'S',
        b"01BGMAX               0120310402081500000000P                                   \n",
    ),
    (
        b'l',
        b"01BGMAX               0120310402241500000000P                                   \n",
    ),
    (
        b'O',
        b"050000004711          SEK                                                       \n",
    ),
    (
        b'P',
        b"200000000815                         000000000000001000010000000000170          \n",
    ),
    (
        b'Q',
        b"200000000816                         000000000000000500010000000000180          \n",
    ),
    (
        b'd',
        b"210000000815                         0000000000000004000100000000001900         \n",
    ),
    (
        b'e',
        b"210000000816                         0000000000000006000100000000002001         \n",
    ),
    (
        b'x',
        b"220000000815                     1230000000000000000000210000000000170          \n",
    ),
    (
        b'y',
        b"220000000815                     1230000000000000000000210000000000180          \n",
    ),
    (
        b'z',
        b"230000000816                     1230000000000000000000210000000000170          \n",
    ),
    (
        b'i',
        b"25grave 17                                                                      \n",
    ),
    (
        b'n',
        b"26Brita                                                                         \n",
    ),
    (
        b'a',
        b"27Storgatan 1                                                                   \n",
    ),
    (
        b'b',
        b"28Lund                                                                          \n",
    ),
    (
        b'c',
        b"29000000000001                                                                  \n",
    ),
    (
        b'D',
        b"15000000000000000000000000000000000002031040200001000000000000001000SEK00000001 \n",
    ),
    (
        b'F',
        b"15000000000000000000000000000000000002031040200001000000000000000600SEK00000002 \n",
    ),
    (
        b'G',
        b"15000000000000000000000000000000000002031040200001000000000000001500SEK00000002 \n",
    ),
    (
        b'H',
        b"15000000000000000000000000000000000002031040200001000000000000000999SEK00000001 \n",
    ),
    (
        b'J',
        b"15000000000000000000000000000000000002031040200001000000000000001000EUR00000001 \n",
    ),
    (
        b'M',
        b"15000000000000000000000000000000000002031040200001000000000000000900SEK00000003 \n",
    ),
    (
        b'N',
        b"15000000000000000000000000000000000002031022900001000000000000001000SEK00000001 \n",
    ),
    (
        b'B',
        b"15000000000000000000000000000000000002032022900001000000000000001000SEK00000001 \n",
    ),
    (
        b'C',
        b"15000000000000000000000000000000000002031040200001000000000000001000SEK00000002 \n",
    ),
    (
        b'E',
        b"7000000001000000000000000000000001                                              \n",
    ),
    (
        b'U',
        b"7000000001000000010000000000000001                                              \n",
    ),
    (
        b'V',
        b"7000000002000000000000000000000002                                              \n",
    ),
    (
        b'W',
        b"7000000001000000000000000100000001                                              \n",
    ),
    (
        b'X',
        b"7000000002000000000000000000000001                                              \n",
    ),
    (
        b'Y',
        b"7000000001000000000000000000000002                                              \n",
    ),
    (
        b'h',
        b"700000000000000000000000000000000                                               \n",
    ),
    (
        b'u',
        b"77                                                                              \n",
    ),
    (
        b'7',
        b"97                                                                              \n",
    ),
    (
        b'8',
        b"98                                                                              \n",
    ),
    (
        b'9',
        b"99                                                                              \n",
    ),
    (
        b'r',
        b"4020310402                                                                      \n",
    ),
    (
        b'R',
        b"4020310229                                                                      \n",
    ),
    (
        b't',
        b"410000000815                                                                    \n",
    ),
    (
        b'T',
        b"41000000081x                                                                    \n",
    ),
    (
        b'Z',
        b"x7                                                                              \n",
    ),
];

// The record of a letter; a line that is no record for any other, as `!`.
fn line(letter: u8) -> &'static [u8] {
    match LINES.iter().find(|(named, _)| *named == letter) {
        Some((_, bytes)) => *bytes,
        None => b"no record\n",
    }
}

fn file_of(heap: Global, letters: &[u8]) -> Result<Vec<u8>, AllocError> {
    let mut bytes = Vec::new(heap);
    for letter in letters {
        bytes.extend_from_slice(line(*letter))?;
    }
    Ok(bytes)
}

// Number and record of a refusal; zeros where the file is accepted.
fn told(answer: Result<End, FileFault>) -> (u8, usize) {
    match answer {
        Ok(_) => (0, 0),
        Err(fault) => (Refusal::from(fault).number(), fault.number),
    }
}

// The edition under which a file is checked.
#[derive(Clone, Copy, Debug, PartialEq, Eq)]
enum Under {
    Bare,
    House,
}

fn checked(
    heap: Global,
    bytes: &[u8],
    payers: usize,
    under: Under,
) -> Result<(u8, usize), AllocError> {
    let mut table = vec![in heap; Row::zero(); payers]?;
    Ok(told(match under {
        Under::Bare => check(bytes, &Bare, &mut table),
        Under::House => check(bytes, &House, &mut table),
    }))
}

// letters, rows of the payer table, the edition, refusal and record (zeros where accepted)
const CASES: [(&[u8], usize, Under, (u8, usize)); 60] = [
    (b"", 4, Under::House, (12, 1)),
    (b"SOPDE", 4, Under::House, (0, 0)),
    (b"!", 4, Under::House, (1, 1)),
    (b"SOPDE!", 4, Under::House, (1, 6)),
    (b"Z", 4, Under::House, (2, 1)),
    (b"SOPDEZ", 4, Under::House, (2, 6)),
    (b"O", 4, Under::House, (3, 1)),
    (b"u", 4, Under::House, (3, 1)),
    (b"r", 4, Under::House, (3, 1)),
    (b"SOPDES", 4, Under::House, (3, 6)),
    (b"l", 4, Under::House, (4, 1)),
    (b"SOPDh", 4, Under::House, (4, 5)),
    (b"SOPNE", 4, Under::House, (4, 4)),
    (b"SOPBE", 4, Under::House, (0, 0)),
    (b"SOPy", 4, Under::House, (5, 4)),
    (b"SOPz", 4, Under::House, (5, 4)),
    (b"SOPDOPy", 4, Under::House, (5, 7)),
    (
        b"SOPiiiiiiiiiiiiiiiiiiiiiiiiiiiiiiiiiiiiiiiiiiiiiiiiiiiiiiiiiiiiiiiiiiiiiiiiiiiiiiiiiiiiiiiiiiiiiiiiiiiDE",
        4,
        Under::House,
        (0, 0),
    ),
    (
        b"SOPiiiiiiiiiiiiiiiiiiiiiiiiiiiiiiiiiiiiiiiiiiiiiiiiiiiiiiiiiiiiiiiiiiiiiiiiiiiiiiiiiiiiiiiiiiiiiiiiiiii",
        4,
        Under::House,
        (6, 103),
    ),
    (b"SOPDE", 0, Under::House, (7, 3)),
    (b"SOPQ", 1, Under::House, (7, 4)),
    (b"SOPDOPDV", 1, Under::House, (0, 0)),
    (b"SOPDOPQGV", 1, Under::House, (7, 7)),
    (b"SOePD", 4, Under::House, (8, 5)),
    (b"SOQePM", 4, Under::House, (8, 6)),
    (b"SOdPFU", 4, Under::House, (0, 0)),
    (b"SOPDOQePM", 4, Under::House, (8, 9)),
    (b"SOPHE", 4, Under::House, (9, 4)),
    (b"SOPuHE", 4, Under::House, (9, 5)),
    (b"SOPuDE", 4, Under::House, (0, 0)),
    (b"SOPJE", 4, Under::House, (9, 4)),
    (b"SOPCE", 4, Under::House, (9, 4)),
    (b"SOPtCE", 4, Under::House, (9, 5)),
    (b"SOPDOPHV", 4, Under::House, (9, 7)),
    (b"SOPDX", 4, Under::House, (10, 5)),
    (b"SOPDY", 4, Under::House, (10, 5)),
    (b"SOPxDE", 4, Under::House, (10, 6)),
    (b"SOPxDW", 4, Under::House, (0, 0)),
    (b"S", 4, Under::House, (12, 2)),
    (b"SOPD", 4, Under::House, (12, 5)),
    (b"SR", 4, Under::House, (13, 2)),
    (b"SOPTDE", 4, Under::House, (13, 4)),
    (b"SROPDE", 4, Under::Bare, (0, 0)),
    (b"St", 4, Under::House, (14, 2)),
    (b"SOr", 4, Under::House, (14, 3)),
    (b"SOR", 4, Under::House, (14, 3)),
    (b"SOPDEr", 4, Under::House, (14, 6)),
    (b"SOPDEr", 4, Under::Bare, (0, 0)),
    (b"SrOPtDrE", 4, Under::House, (0, 0)),
    (b"SOPaubDE", 4, Under::House, (0, 0)),
    (b"SOPatbDE", 4, Under::House, (0, 0)),
    (b"SOPaDE", 4, Under::House, (3, 5)),
    (b"SOPbDE", 4, Under::House, (3, 4)),
    (b"SOPxinabcDW", 4, Under::House, (0, 0)),
    (b"SOPcn", 4, Under::House, (3, 5)),
    (b"S7O8P9DE9", 4, Under::House, (0, 0)),
    (b"SOdDE", 4, Under::House, (3, 4)),
    (b"SODE", 4, Under::House, (3, 3)),
    (b"SE", 4, Under::House, (3, 2)),
    (b"SOPDOPDE", 4, Under::House, (10, 8)),
];

#[test]
fn cases(rt: HostRuntime) -> Result<(), Fail> {
    for (letters, payers, under, answer) in CASES {
        let bytes = file_of(rt.alloc(), letters)?;
        assert_eq!(rt; checked(rt.alloc(), &bytes, payers, under)?, answer);
    }
    Ok(())
}

// Records of one letter until there are so many, before the others.
fn long_file(heap: Global, first: &[u8], more: usize, last: &[u8]) -> Result<Vec<u8>, AllocError> {
    let mut bytes = file_of(heap, first)?;
    for _ in 0..more {
        bytes.extend_from_slice(line(b'u'))?;
    }
    let end = file_of(heap, last)?;
    bytes.extend_from_slice(&end)?;
    Ok(bytes)
}

// records before, unknown records, records behind, rows of the payer table, refusal and record: each refusal where it can
// come last
const LONG: [(&[u8], usize, &[u8], usize, (u8, usize)); 17] = [
    (b"S", 49995, b"OPDE", 4, (0, 0)),
    (b"S", 49995, b"OPDEu", 4, (11, 50001)),
    (b"S", 49995, b"OPDE!", 4, (11, 50001)),
    (b"S", 49999, b"", 4, (12, 50001)),
    (b"S", 49996, b"OPD", 4, (12, 50001)),
    (b"S", 49998, b"!", 4, (1, 50000)),
    (b"S", 49998, b"Z", 4, (2, 50000)),
    (b"S", 49994, b"OPDES", 4, (3, 50000)),
    (b"S", 49995, b"OPDh", 4, (4, 50000)),
    (b"S", 49996, b"OPy", 4, (5, 50000)),
    (
        b"S",
        49897,
        b"OPiiiiiiiiiiiiiiiiiiiiiiiiiiiiiiiiiiiiiiiiiiiiiiiiiiiiiiiiiiiiiiiiiiiiiiiiiiiiiiiiiiiiiiiiiiiiiiiiiiii",
        4,
        (6, 50000),
    ),
    (b"S", 49997, b"OP", 0, (7, 50000)),
    (b"S", 49995, b"OePD", 4, (8, 50000)),
    (b"S", 49996, b"OPH", 4, (9, 50000)),
    (b"S", 49995, b"OPDX", 4, (10, 50000)),
    (b"S", 49996, b"OPT", 4, (13, 50000)),
    (b"S", 49994, b"OPDEr", 4, (14, 50000)),
];

#[test]
fn long_files(rt: HostRuntime) -> Result<(), Fail> {
    for (first, more, last, payers, answer) in LONG {
        let bytes = long_file(rt.alloc(), first, more, last)?;
        assert_eq!(rt; checked(rt.alloc(), &bytes, payers, Under::House)?, answer);
    }
    Ok(())
}

// A judge of no payers is plain data: its copy goes on by itself.
#[test]
fn judge_copied(rt: HostRuntime) {
    let judge = Judge::new(NotJudged);
    let mut copy = judge;
    for line in Lines::new(LINES[0].1) {
        assert!(rt; copy.read(1, line, &Bare).is_ok());
    }
    assert_eq!(rt; judge.place, Place::Fresh);
    assert_eq!(rt; copy.place, Place::Begun);
}
