ghost use Rattle.std.specs.Prelude.{◌≡◌, ◌<◌, ◌≤◌, length, IfOk};
ghost use Rattle.file.specs.Numbering.{numbered};
ghost use Rattle.file.specs.Single.{one_of};

use crate::numbering::at_record;
use manual::{Cause, FileFault};
use record::{Class, Edition, classify, cut, sound};

// One record of a file.
#[derive(Clone, Copy, Debug, PartialEq, Eq)]
pub struct One {
    pub class: Class,
    // the bytes that it takes, line end included
    pub width: usize,
}

fn first_record<E: Edition>(bytes: &[u8], edition: &E) -> Result<One, Cause>
    ensures value { result ≡ one_of (E.meaning edition.now) bytes.now }
    ensures within { IfOk result (λ one. (80 < one.width) × (one.width ≤ length bytes.now)) }
{
    let Some(end) = cut(bytes) else {
        return Err(Cause::Broken);
    };
    let class = sound(classify(&bytes[0..80], edition))?;
    Ok(One {
        class,
        width: end.width(),
    })
}

// The first record of these bytes, read by itself, where it has this number in its file.
pub fn read_one<E: Edition>(bytes: &[u8], number: usize, edition: &E) -> Result<One, FileFault>
    ensures value { result ≡ numbered number (one_of (E.meaning edition.now) bytes.now) }
    ensures within { IfOk result (λ one. (80 < one.width) × (one.width ≤ length bytes.now)) }
{
    at_record(number, first_record(bytes, edition))
}
