ghost use Rattle.std.specs.Prelude.{◌≡◌, ◌+◌, ◌≤◌, length, IfSome};
ghost use Rattle.record.specs.Lines.{line_end, cut as cut_term, width as width_term};

use field::texts;

// What ends a record's line.
#[derive(Clone, Copy, Debug, PartialEq, Eq)]
pub enum LineEnd {
    Lf,
    CrLf,
}

// The line end with which these bytes begin.
fn line_end(after: &[u8]) -> Option<LineEnd>
    ensures value { result ≡ line_end after.now }
    ensures within { IfSome result (λ end. width_term end ≤ 80 + length after.now) }
{
    match after {
        [b'\n', ..] => Some(LineEnd::Lf),
        [b'\r', b'\n', ..] => Some(LineEnd::CrLf),
        _ => None,
    }
}

// How the first line of these bytes ends, if it is a whole record: 80 text bytes and a line end.
pub fn cut(bytes: &[u8]) -> Option<LineEnd>
    ensures value { result ≡ cut_term bytes.now }
    ensures within { IfSome result (λ end. width_term end ≤ length bytes.now) }
{
    if bytes.len() < 80 {
        return None;
    }
    if !texts(&bytes[0..80]) {
        return None;
    }
    line_end(&bytes[80..])
}

impl LineEnd {
    // How many bytes a record takes with this line end.
    pub fn width(self) -> usize
        ensures { result ≡ width_term self }
    {
        match self {
            LineEnd::Lf => 81,
            LineEnd::CrLf => 82,
        }
    }
}
