ghost use Rattle.std.specs.Prelude.{◌≡◌};
ghost use Rattle.field.specs.Bytes.{is_digit, is_text, is_blank, every};

pub fn digit(b: u8) -> bool
    ensures { result ≡ is_digit b }
{
    matches!(b, b'0'..=b'9')
}

// The printable part of Latin-1: bytes 32 to 126 and 160 to 255. Every byte of every file comes here, where comparing it was the
// dearest part of checking: one look at a table is faster.
pub fn text(b: u8) -> bool
    ensures { result ≡ is_text b }
{
    TEXT[b as usize]
}

pub fn digits(part: &[u8]) -> bool
    ensures { result ≡ every is_digit part.now }
{
    part.iter().all(|b| digit(*b))
}

pub fn texts(part: &[u8]) -> bool
    ensures { result ≡ every is_text part.now }
{
    part.iter().all(|b| text(*b))
}

pub fn blanks(part: &[u8]) -> bool
    ensures { result ≡ every is_blank part.now }
{
    part.iter().all(|b| *b == b' ')
}

// Which bytes are text.
const TEXT: [bool; 256] = [
    false, false, false, false, false, false, false, false, false, false, false, false, false,
    false, false, false, false, false, false, false, false, false, false, false, false, false,
    false, false, false, false, false, false, true, true, true, true, true, true, true, true, true,
    true, true, true, true, true, true, true, true, true, true, true, true, true, true, true, true,
    true, true, true, true, true, true, true, true, true, true, true, true, true, true, true, true,
    true, true, true, true, true, true, true, true, true, true, true, true, true, true, true, true,
    true, true, true, true, true, true, true, true, true, true, true, true, true, true, true, true,
    true, true, true, true, true, true, true, true, true, true, true, true, true, true, true, true,
    true, true, true, true, true, true, false, false, false, false, false, false, false, false,
    false, false, false, false, false, false, false, false, false, false, false, false, false,
    false, false, false, false, false, false, false, false, false, false, false, false, true, true,
    true, true, true, true, true, true, true, true, true, true, true, true, true, true, true, true,
    true, true, true, true, true, true, true, true, true, true, true, true, true, true, true, true,
    true, true, true, true, true, true, true, true, true, true, true, true, true, true, true, true,
    true, true, true, true, true, true, true, true, true, true, true, true, true, true, true, true,
    true, true, true, true, true, true, true, true, true, true, true, true, true, true, true, true,
    true, true, true, true, true, true, true, true, true, true, true, true, true, true,
];
