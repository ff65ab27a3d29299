// A file's bytes, line by line.
ghost use Rattle.std.specs.Prelude.{◌≡◌};
ghost use Rattle.std.specs.Option.{option_map};
ghost use Rattle.record.specs.Lines.{cut as cut_term, width};
ghost use Rattle.manual.specs.declared.faults.Cause.TheVariants.{Broken as broken};
ghost use Rattle.file.specs.Lines.{first_line, line_parts};

use manual::Cause;
use record::cut;

// Bytes that do not begin with a whole record and its line end.
#[derive(Clone, Copy, Debug, PartialEq, Eq)]
pub struct Broken;

impl From<Broken> for Cause {
    ghost from_gives = { λ _ r. r ≡ broken };

    fn from(_e: Broken) -> Cause {
        Cause::Broken
    }
}

// The first line of these bytes, if it is a whole record, without its line end; and the bytes behind it.
fn split_line(bytes: &[u8]) -> Option<(&[u8; 80], &[u8])>
    ensures { option_map line_parts result ≡ first_line bytes.now }
{
    let end = cut(bytes)?;
    let (line, rest) = bytes.split_at(end.width());
    Some((line.first_chunk()?, rest))
}

// The lines of a file, one after the other: each whole record, and at last `Broken` where bytes are left that begin with none.
#[derive(Clone, Drop)]
pub struct Lines<'a> {
    rest: &'a [u8],
}

impl<'a> Lines<'a> {
    pub fn new(file: &'a [u8]) -> Lines<'a>
        ensures { result.rest.now ≡ file.now }
    {
        Lines { rest: file }
    }
}

impl<'a> Iterator for Lines<'a> {
    type Item = Result<&'a [u8; 80], Broken>;

    ghost use Rattle.std.specs.Iterator.{YieldsFirstBy, item_count};
    ghost use Rattle.manual.specs.Slots.{slots};
    ghost use Rattle.file.specs.Lines.{slot_in};

    ghost next_gives = { YieldsFirstBy slot_in (λ s. slots s.rest.now) };

    ghost remaining = { item_count (λ s. slots s.rest.now) };

    fn next(&mut self) -> Option<Result<&'a [u8; 80], Broken>> {
        if self.rest.is_empty() {
            return None;
        }
        match split_line(self.rest) {
            Some((record, rest)) => {
                self.rest = rest;
                Some(Ok(record))
            }
            None => {
                self.rest = &[];
                Some(Err(Broken))
            }
        }
    }
}
