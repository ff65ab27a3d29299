// Records and files for the calls of a volume, written as letters.
use crate::examples::{DEPOSIT, END, OPENING, PAYMENT, START, UNKNOWN};
use std::alloc::{AllocError, Global};

// Each letter, and its record; any other letter is the unknown record of examples.rt.
const RECORDS: [(u8, &[u8; 80]); 58] = [
    // F and the unknown record of examples.rt
    (b'S', START),
    (b'O', OPENING),
    (b'P', PAYMENT),
    (b'D', DEPOSIT),
    (b'E', END),
    // F's start record with the time stamp of G, and with F's own and marked as a test
    (
        b'G',
        b"01BGMAX               0120310403081500000000P                                   ",
    ),
    (
        b'T',
        b"01BGMAX               0120310402081500000000T                                   ",
    ),
    // a deposit that is one öre short, a payment with a byte that is no text, a record with no code
    (
        b'd',
        b"15000000000000000000000000000000000002031040200000000000000000124999SEK00000001 ",
    ),
    (
        b'p',
        b"200000000815\x7f                    1230000000000000125000200000000000170          ",
    ),
    (
        b'Z',
        b"x7                                                                              ",
    ),
    // a deduction of a payer who paid nothing, the deposit of its section, the end of its file
    (
        b'Q',
        b"210000000816                         0000000000000050000000000000001802         ",
    ),
    (
        b'q',
        b"15000000000000000000000000000000000002031040200000000000000000120000SEK00000002 ",
    ),
    (
        b'e',
        b"7000000001000000010000000000000001                                              ",
    ),
    // opening record and deposit of a section in EUR, and the end of F with this section more
    (
        b'U',
        b"050000004711          EUR                                                       ",
    ),
    (
        b'u',
        b"15000000000000000000000000000000000002031040200000000000000000125000EUR00000001 ",
    ),
    (
        b'W',
        b"7000000002000000000000000000000002                                              ",
    ),
    // a rider that the house edition refuses
    (
        b'R',
        b"4020310229                                                                      ",
    ),
    // a file's own records with codes that are the calls' own; the last two would be a right trailer as shelf record
    // 9 and a right closing record as shelf record 10
    (
        b'7',
        b"97                                                                              ",
    ),
    (
        b'8',
        b"98                                                                              ",
    ),
    (
        b'9',
        b"99                                                                              ",
    ),
    (
        b't',
        b"99000000080000000100000000000000010000000000000000000012500000000000000000000085",
    ),
    (
        b'c',
        b"98000000010000000900000000000000000000000000000000000000000000000000000000000006",
    ),
    // trailers: of F as entry 1, of G as entry 2, of F with the records just named, with all but the last of them, and
    // with the section in EUR
    (
        b'1',
        b"99000000050000000100000000000000010000000000000000000012500000000000000000000010",
    ),
    (
        b'2',
        b"99000000050000000200000006000000010000000000000000000012500000000000000000000031",
    ),
    (
        b'3',
        b"99000000100000000100000000000000010000000000000000000012500000000000000000000038",
    ),
    (
        b'4',
        b"99000000090000000100000000000000010000000000000000000012500000000000000000000013",
    ),
    (
        b'5',
        b"99000000080000000100000000000000020000000000000000000012500000000000000012500055",
    ),
    // closing records: of no entry, of F, of F and G, of F with those records, and with all but the last of them
    (
        b'v',
        b"98000000000000000000000000000000000000000000000000000000000000000000000000000086",
    ),
    (
        b'w',
        b"98000000010000000600000000000000000000000000000000000000000000000000000000000041",
    ),
    (
        b'x',
        b"98000000020000001200000000000000000000000000000000000000000000000000000000000093",
    ),
    (
        b'y',
        b"98000000010000001100000000000000000000000000000000000000000000000000000000000015",
    ),
    (
        b'z',
        b"98000000010000001000000000000000000000000000000000000000000000000000000000000059",
    ),
    // a trailer of F with one payment too many
    (
        b'0',
        b"99000000050000000100000000000000020000000000000000000012500000000000000000000075",
    ),
    // closing records behind F: with two entries, with none, with another digit than zero last and first, and behind a
    // closing record
    (
        b'a',
        b"98000000020000000600000000000000000000000000000000000000000000000000000000000066",
    ),
    (
        b'b',
        b"98000000000000000600000000000000000000000000000000000000000000000000000000000016",
    ),
    (
        b'f',
        b"98000000010000000600000000000000000000000000000000000000000000000000000000000138",
    ),
    (
        b'g',
        b"98000000010000000610000000000000000000000000000000000000000000000000000000000056",
    ),
    (
        b'h',
        b"98000000010000000700000000000000000000000000000000000000000000000000000000000094",
    ),
    // riders of the house edition that are well formed: 40, and 41; and a 41 that is not
    (
        b'A',
        b"4020310402 as it stands                                                        .",
    ),
    (
        b'B',
        b"410000000001 as it stands                                                      .",
    ),
    (
        b'C',
        b"41000000000x                                                                    ",
    ),
    // the other kinds of an item, each with text up to its last field's end: information, name, address 1 and 2, company
    // number
    (
        b'i',
        b"25information                                      !                            ",
    ),
    (
        b'n',
        b"26name                                                                 !        ",
    ),
    (
        b'j',
        b"27street                             12345678!                                  ",
    ),
    (
        b'k',
        b"28town                               country                            SE      ",
    ),
    (
        b'l',
        b"29123456789012                                                                  ",
    ),
    // a payment with code 0 and the highest numbers, three extra references of it with codes 2, 4 and 5, and its deposit
    (
        b'H',
        b"209999999999                         000009999999999999009999999999990          ",
    ),
    (
        b'I',
        b"229999999999                        7000000000000000001209999999999990          ",
    ),
    (
        b'J',
        b"239999999999A                        000000000000000002409999999999990          ",
    ),
    (
        b'K',
        b"229999999999                         000000000000000000509999999999990          ",
    ),
    (
        b'L',
        b"15111111111111111111111111111111111112032022912345000009999999999999SEK00000001K",
    ),
    // payments and deductions with codes 1, 2, 3, 4 and 5, their deposit in EUR behind the payment of F, and the end of a
    // file of both sections
    (
        b'V',
        b"200000000815                         000000000000000018100000000000180          ",
    ),
    (
        b'Y',
        b"2000000008151234567890123456789012345000000000000000005200000000000190          ",
    ),
    (
        b'M',
        b"210000000815                         0000000000000000073000000000002000         ",
    ),
    (
        b'N',
        b"200000000815\xa0                        000000000000000000400000000000000          ",
    ),
    (
        b'F',
        b"210000000815found wrong              0000000000000000255000000000002102         ",
    ),
    (
        b'r',
        b"15000000000000000000000000000000000002031040299999000000000000124991EUR00000006 ",
    ),
    (
        b's',
        b"7000000005000000020000000300000002                                              ",
    ),
];

pub(crate) fn record(letter: u8) -> &'static [u8; 80] {
    match RECORDS.iter().find(|row| row.0 == letter) {
        Some((_, record)) => record,
        None => UNKNOWN,
    }
}

// A file, each record with LF.
pub(crate) fn file_of(heap: Global, letters: &[u8]) -> Result<Vec<u8>, AllocError> {
    lines_of(heap, letters, b"\n")
}

// A file, each record with this line end.
pub(crate) fn lines_of(heap: Global, letters: &[u8], end: &[u8]) -> Result<Vec<u8>, AllocError> {
    let mut bytes = Vec::new(heap);
    for letter in letters {
        bytes.extend_from_slice(record(*letter))?;
        bytes.extend_from_slice(end)?;
    }
    Ok(bytes)
}

// The bytes of a memory shelf with these records and so many places, those behind the records full of `#`.
pub(crate) fn shelf_of(heap: Global, letters: &[u8], places: usize) -> Result<Vec<u8>, AllocError> {
    let mut bytes = Vec::new(heap);
    for letter in letters {
        bytes.extend_from_slice(record(*letter))?;
    }
    for _ in letters.len()..places {
        bytes.extend_from_slice(&[b'#'; 80])?;
    }
    Ok(bytes)
}
