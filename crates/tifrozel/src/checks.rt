// The command `check`.
ghost use Rattle.std.specs.Prelude.{◌≡◌, IfOk};
ghost use Rattle.manual.specs.Judging.{check_of};
ghost use Rattle.manual.specs.Laws.{judging};

use file::check;
use manual::FileFault;
use record::{Edition, End};
use std::alloc::{AllocError, Global};
use sums::Row;

// What checking the file answers, with a table of so many payers. It is not inlined, so that bench/ can count it by itself.
#[inline(never)]
pub fn checked<E: Edition>(
    heap: Global,
    bytes: &[u8],
    edition: &E,
    payers: usize,
) -> Result<Result<End, FileFault>, AllocError>
    ensures { IfOk result (λ answer. answer ≡ check_of (judging payers) (E.meaning edition.now) bytes.now) }
{
    let mut table = vec![in heap; Row::zero(); payers]?;
    Ok(check(bytes, edition, &mut table))
}
