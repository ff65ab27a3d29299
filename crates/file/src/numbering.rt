ghost use Rattle.std.specs.Prelude.{◌≡◌};
ghost use Rattle.file.specs.Numbering.{numbered};

use manual::{Cause, FileFault};

// A cause becomes a fault of the file at the record with this number.
pub fn at_record<T>(number: usize, answer: Result<T, Cause>) -> Result<T, FileFault>
    ensures { result ≡ numbered number answer }
{
    answer.map_err(|cause| FileFault { number, cause })
}
