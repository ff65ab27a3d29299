//! Runs of records, on any shelf.
ghost use Rattle.std.specs.Prelude.{◌≡◌, ◌/◌, length};
ghost use Rattle.shelf.specs.Runs.{lay_answer, laid, covered, first_missing, read_answer, read_bytes};

use crate::{Shelf, ShelfFault};

/// Adds all the records, in order, or none where not all find places.
pub fn lay<S: Shelf>(shelf: &mut S, items: &[[u8; 80]]) -> Result<(), ShelfFault>
    ensures answer { result ≡ lay_answer (length (S.records shelf.old)) (S.room shelf.old) (length items.now) }
    ensures list { S.records shelf.new ≡ laid (S.records shelf.old) (S.room shelf.old) items.now }
    ensures limit { S.room shelf.new ≡ S.room shelf.old }
    ensures same { S.same shelf.old shelf.new }
{
    let count = shelf.count();
    if shelf.limit() - count < items.len() {
        return Err(ShelfFault::Full(count));
    }
    for item in items {
        shelf.add(item)?;
    }
    Ok(())
}

// Whether the k records from number n on are all among `count`.
fn covers(n: usize, k: usize, count: usize) -> bool
    ensures { result ≡ covered n k count }
{
    k == 0 || (n > 0 && n <= count && k <= count - n + 1)
}

// The first number from n on that no record has.
fn missing<S: Shelf>(shelf: &S, n: usize) -> usize
    ensures { result ≡ first_missing n (length (S.records shelf.now)) }
{
    if n == 0 {
        return 0;
    }
    n.max(shelf.count() + 1)
}

/// Copies the records from number n on to the whole eighties of `out`, as many as it has; refused with the first number
/// that is missing.
pub fn read_range<S: Shelf>(shelf: &S, n: usize, out: &mut [u8]) -> Result<(), ShelfFault>
    ensures answer { result ≡ read_answer n (length out.old / 80) (length (S.records shelf.now)) }
    ensures buffer { out.new ≡ read_bytes (S.records shelf.now) n out.old }
{
    let k = out.len() / 80;
    if !covers(n, k, shelf.count()) {
        return Err(ShelfFault::NoRecord(missing(shelf, n)));
    }
    let mut item = [0u8; 80];
    // by index, since nothing is known afterwards of a slice that was written through its chunks
    for i in 0..k {
        shelf.copy(n + i, &mut item)?;
        let from = 80 * i;
        out[from..from + 80].copy_from_slice(&item);
    }
    Ok(())
}
