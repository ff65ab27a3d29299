// The records of a file, each by itself, as lines.
ghost use Rattle.std.specs.Prelude.{IfOk};
ghost use Rattle.file.specs.Single.{Listed};

use crate::lines::RowLine;
use file::read_one;
use manual::FileFault;
use record::{Class, Edition, core_row};
use std::alloc::{AllocError, Global};

#[derive(Drop)]
pub struct Listing {
    // a line for each record that was read
    pub lines: String,
    pub records: usize,
    // what ended the reading before the file's end
    pub fault: Option<FileFault>,
}

// The line of a record with this number; `a` and `b` are the digits of its code.
fn line(heap: Global, number: usize, class: Class, a: u8, b: u8) -> Result<String, AllocError> {
    let a = a as char;
    let b = b as char;
    match class {
        Class::Core(_, Ok(core)) => {
            let row = RowLine(core_row(number, core));
            format!(in heap; "{row}")
        }
        Class::Rider(_) => format!(in heap; "  {number} {a}{b} rider\n"),
        _ => format!(in heap; "  {number} {a}{b} unknown\n"),
    }
}

// Reads to the end of the bytes, or to the first record that cannot be read by itself.
pub fn list<E: Edition>(heap: Global, bytes: &[u8], edition: &E) -> Result<Listing, AllocError>
    ensures { IfOk result (λ l. Listed (E.meaning edition.now) 0 bytes.now l.records l.fault) }
{
    let mut lines = String::new(heap);
    let mut records: usize = 0;
    let mut rest = bytes;
    // no `for`: what a record took is what `read_one` says of it, and how many were read is answered
    while !rest.is_empty() {
        match read_one(rest, records + 1, edition) {
            Ok(one) => {
                records += 1;
                let text = line(heap, records, one.class, rest[0], rest[1])?;
                lines.push_str(text.as_str())?;
                let (_, after) = rest.split_at(one.width);
                rest = after;
            }
            Err(fault) => {
                return Ok(Listing {
                    lines,
                    records,
                    fault: Some(fault),
                });
            }
        }
    }
    Ok(Listing {
        lines,
        records,
        fault: None,
    })
}
