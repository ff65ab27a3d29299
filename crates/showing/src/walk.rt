// The walk over an entry's records that showing and copying share: is there such an entry, is a rider of it wrong, how
// many of its records are core records or riders.
ghost use Rattle.std.specs.Prelude.{◌≡◌, ◌+◌, ◌≤◌, length, IfOk, IfErr, Ok, Err};
ghost use Rattle.std.specs.List.{between};
ghost use Rattle.filing.specs.Volumes.{entries_of};
ghost use Rattle.volume.specs.Tokens.{Own};
ghost use Rattle.report.specs.Rows.{rows_of};
ghost use Rattle.showing.specs.Showing.{surveyed, passed};

use entries::record_at;
use filing::{Opened, VolumeFault};
use manual::FileFault;
use record::{Edition, Level, sort_in};
use report::{cause_in, copies_of, level_behind};
use shelf::Shelf;
use volume::{Volume, find_trailer, is_among};

// How many records behind the first `before`, so many of them, are core records or riders, or the first rider among them that is wrong.
fn survey<S: Shelf, E: Edition>(
    shelf: &S,
    before: usize,
    count: usize,
    edition: &E,
) -> Result<usize, FileFault>
    requires { before + count ≤ length (S.records shelf.now) }
    ensures { result ≡ surveyed (E.meaning edition.now) (between before (before + count) (S.records shelf.now)) }
{
    let mut level: Option<Level> = None;
    let mut rows: usize = 0;
    for i in 0..count {
        let number = i + 1;
        let sort = sort_in(&record_at(shelf, before + number), edition);
        if let Some(cause) = cause_in(level, sort) {
            return Err(FileFault { number, cause });
        }
        rows += copies_of(sort);
        level = level_behind(level, sort);
    }
    Ok(rows)
}

// Where an entry lies on its shelf: behind so many records, so many long; and how many of its records are core or riders.
#[derive(Clone, Copy, Debug, PartialEq, Eq)]
pub(crate) struct Span {
    pub(crate) before: usize,
    pub(crate) count: usize,
    pub(crate) rows: usize,
}

// The entry with this number, in which no rider is wrong.
pub(crate) fn find<S: Shelf, E: Edition>(
    shelf: &S,
    volume: &Volume,
    entry: usize,
    edition: &E,
) -> Result<Span, VolumeFault>
    requires { Own volume.now (S.records shelf.now) (S.room shelf.now) }
    ensures records { IfOk result (λ p. passed (E.meaning edition.now) entry (entries_of (S.records shelf.now)) ≡ Ok (between p.before (p.before + p.count) (S.records shelf.now))) }
    ensures inside { IfOk result (λ p. p.before + p.count ≤ length (S.records shelf.now)) }
    ensures rows { IfOk result (λ p. p.rows ≡ length (rows_of (E.meaning edition.now) (between p.before (p.before + p.count) (S.records shelf.now)))) }
    ensures refused { IfErr result (λ f. passed (E.meaning edition.now) entry (entries_of (S.records shelf.now)) ≡ Err f) }
{
    let opened = Opened::from(volume);
    if !is_among(entry, opened.entries) {
        return Err(VolumeFault::NoEntry(entry));
    }
    let trailer = find_trailer(shelf, opened, entry);
    let before = trailer.previous as usize;
    let count = trailer.records as usize;
    match survey(shelf, before, count, edition) {
        Ok(rows) => Ok(Span {
            before,
            count,
            rows,
        }),
        Err(fault) => Err(VolumeFault::Rider(entry, fault)),
    }
}
