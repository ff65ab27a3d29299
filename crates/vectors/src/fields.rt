// Parts of records at their edges.
use field::{
    ReferenceForm, read_amount, read_currency, read_date, read_extra_reference, read_reference,
    read_time_stamp, text,
};

const DATES: [([u8; 8], bool); 14] = [
    (*b"20310402", true),
    (*b"20310229", false),
    (*b"20320229", true),
    (*b"20000229", true),
    (*b"21000229", false),
    (*b"00000229", true),
    (*b"99991231", true),
    (*b"20310431", false),
    (*b"20311231", true),
    (*b"20311232", false),
    (*b"20310001", false),
    (*b"20311301", false),
    (*b"20310400", false),
    (*b"203104 2", false),
];

#[test]
fn dates(rt: HostRuntime) {
    for (part, good) in DATES {
        assert_eq!(rt; read_date(&part).is_some(), good);
    }
}

const STAMPS: [([u8; 20], Option<u128>); 7] = [
    (*b"20310402235959999999", Some(20310402235959999999)),
    (*b"99991231235959999999", Some(99991231235959999999)),
    (*b"20310402240000000000", None),
    (*b"20310402006000000000", None),
    (*b"20310402000060000000", None),
    (*b"20310229000000000000", None),
    (*b"2031040200000000000x", None),
];

#[test]
fn time_stamps(rt: HostRuntime) {
    for (part, stamp) in STAMPS {
        assert_eq!(rt; read_time_stamp(&part), stamp);
    }
}

const AMOUNTS: [([u8; 18], Option<u64>); 4] = [
    (*b"000000000000000000", Some(0)),
    (*b"000009999999999999", Some(9_999_999_999_999)),
    (*b"000010000000000000", None),
    (*b"00000000000000000x", None),
];

#[test]
fn amounts(rt: HostRuntime) {
    for (part, amount) in AMOUNTS {
        assert_eq!(rt; read_amount(&part), amount);
    }
}

const CURRENCIES: [([u8; 3], bool); 5] = [
    (*b"SEK", true),
    (*b"EUR", true),
    (*b"USD", false),
    (*b"sek", false),
    (*b"SER", false),
];

#[test]
fn currencies(rt: HostRuntime) {
    for (part, good) in CURRENCIES {
        assert_eq!(rt; read_currency(&part).is_some(), good);
    }
}

// code, reference, what a payment reads, what an extra reference reads
const REFERENCES: [(u8, [u8; 25], Option<ReferenceForm>, Option<ReferenceForm>); 21] = [
    (
        b'0',
        *b"                         ",
        Some(ReferenceForm::Blank),
        None,
    ),
    (b'0', *b"                        x", None, None),
    (
        b'1',
        *b"                         ",
        Some(ReferenceForm::BlankPaper),
        None,
    ),
    (b'1', *b"x                        ", None, None),
    (
        b'2',
        *b"1234567890123456789012345",
        Some(ReferenceForm::Numeric(13)),
        Some(ReferenceForm::Numeric(13)),
    ),
    (
        b'2',
        *b"                        7",
        Some(ReferenceForm::Numeric(37)),
        Some(ReferenceForm::Numeric(37)),
    ),
    (
        b'2',
        *b"                     1230",
        Some(ReferenceForm::Numeric(34)),
        Some(ReferenceForm::Numeric(34)),
    ),
    (b'2', *b"                         ", None, None),
    (b'2', *b"                    1 230", None, None),
    (b'2', *b"1230                     ", None, None),
    (b'2', *b"                    123x ", None, None),
    (
        b'3',
        *b"                         ",
        Some(ReferenceForm::Unchecked),
        None,
    ),
    (
        b'3',
        *b"Grave 17, third row      ",
        Some(ReferenceForm::Unchecked),
        None,
    ),
    (b'3', *b"Grave 17, third row     \x7f", None, None),
    (
        b'4',
        *b"x                        ",
        Some(ReferenceForm::Confirmed),
        Some(ReferenceForm::Confirmed),
    ),
    (b'4', *b" x                       ", None, None),
    (b'4', *b"                         ", None, None),
    (
        b'5',
        *b"                         ",
        Some(ReferenceForm::Rejected),
        Some(ReferenceForm::Rejected),
    ),
    (
        b'5',
        *b"unreadable               ",
        Some(ReferenceForm::Rejected),
        Some(ReferenceForm::Rejected),
    ),
    (b'6', *b"                         ", None, None),
    (b'9', *b"                         ", None, None),
];

fn of_payment(code: u8, part: &[u8; 25]) -> Option<ReferenceForm> {
    read_reference(code, part)
}

fn of_extra(code: u8, part: &[u8; 25]) -> Option<ReferenceForm> {
    read_extra_reference(code, part)
}

#[test]
fn references(rt: HostRuntime) {
    for (code, part, payment, extra) in REFERENCES {
        assert_eq!(rt; of_payment(code, &part), payment);
        assert_eq!(rt; of_extra(code, &part), extra);
    }
}

const TEXT: [(u8, bool); 8] = [
    (31, false),
    (32, true),
    (126, true),
    (127, false),
    (159, false),
    (160, true),
    (255, true),
    (10, false),
];

#[test]
fn text_bytes(rt: HostRuntime) {
    for (b, good) in TEXT {
        assert_eq!(rt; text(b), good);
    }
}
