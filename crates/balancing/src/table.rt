// Balancing all entries.
ghost use Rattle.std.specs.Prelude.{◌≡◌, ◌-◌, ◌≤◌, [], ◌++◌, length, take, replicate, IfSome};
ghost use Rattle.sums.specs.Table.{zero_row, in_use};
ghost use Rattle.sums.specs.Laws.{run};
ghost use Rattle.filing.specs.Refusals.{RefusedBy};
ghost use Rattle.filing.specs.Volumes.{entries_of};
ghost use Rattle.volume.specs.Tokens.{Own};
ghost use Rattle.report.specs.Pairs.{same_pair, no_pair};
ghost use Rattle.report.specs.Balances.{moves_from};
ghost use Rattle.balancing.specs.Balancing.{entered_by, balanced, balance_answer, balance_table, of_balancing};
ghost use Rattle.balancing.specs.Stands.{BalanceStands};

use entries::record_at;
use filing::VolumeFault;
use record::{Bare, classify};
use report::{Pair, movement, pair_behind};
use shelf::Shelf;
use sums::{Key, Row, Table, empty};
use volume::Volume;

// Enters what a record enters, if it enters anything. Answers how many rows are then in use, or None if none was free.
fn enter(table: &mut Table<Pair>, entry: Option<Row<Pair>>) -> Option<usize>
    ensures used { IfSome result (λ n. n ≡ table.new.used) }
    ensures held { in_use table.new.rows.now result ≡ entered_by (length table.old.rows.now) (take table.old.used table.old.rows.now) entry }
    ensures room { length table.new.rows.now ≡ length table.old.rows.now }
    ensures lender { table.new.rows.ghost_name ≡ table.old.rows.ghost_name }
{
    if let Some(entry) = entry {
        if table.enter(entry).is_err() {
            return None;
        }
    }
    Some(table.rows().len())
}

// Enters what all records of a shelf enter, in order; its trailers enter nothing, so that no entry is looked for. Answers how many
// rows are then in use, or None if the table has too few.
fn enter_all<S: Shelf>(shelf: &S, rows: &mut [Row<Pair>]) -> Option<usize>
    ensures within { IfSome result (λ n. n ≤ length rows.new) }
    ensures room { length rows.new ≡ length rows.old }
    ensures held { in_use rows.new result ≡ run same_pair (length rows.old) [] (moves_from no_pair (S.records shelf.now)) }
{
    let mut table = Table::new(rows);
    let mut pair = Pair::blank();
    for i in 0..shelf.count() {
        let class = classify(&record_at(shelf, i + 1), &Bare);
        let Some(_) = enter(&mut table, movement(pair, class)) else {
            return None;
        };
        pair = pair_behind(pair, class);
    }
    Some(table.rows().len())
}

// Makes zero rows of those behind the rows in use.
fn empty_from(rows: &mut [Row<Pair>], used: usize)
    requires { used ≤ length rows.old }
    ensures { rows.new ≡ take used rows.old ++ replicate (length rows.old - used) (zero_row no_pair) }
{
    empty(&mut rows[used..]);
}

// `balance`, without the clause on what the balance comes to.
fn balance_all<S: Shelf>(
    shelf: &S,
    volume: &Volume,
    rows: &mut [Row<Pair>],
) -> Result<usize, VolumeFault>
    requires { Own volume.now (S.records shelf.now) (S.room shelf.now) }
    ensures answer { result ≡ balance_answer (balanced (length rows.old) (entries_of (S.records shelf.now))) }
    ensures table { rows.new ≡ balance_table (balanced (length rows.old) (entries_of (S.records shelf.now))) (length rows.old) }
{
    let Some(used) = enter_all(shelf, rows) else {
        empty(rows);
        return Err(VolumeFault::BalanceShort);
    };
    empty_from(rows, used);
    Ok(used)
}

/// Fills a row for each payee and currency of the entries' opening records, in order of first appearance, with the amounts paid
/// (`added`) and deducted (`taken`) in their sections, in öre or cents, and answers how many rows. Later rows become zero: payee 0, SEK,
/// nothing added or taken. Where the table has too few rows, all of them become so.
pub fn balance<S: Shelf>(
    shelf: &S,
    volume: &Volume,
    rows: &mut [Row<Pair>],
) -> Result<usize, VolumeFault>
    requires { Own volume.now (S.records shelf.now) (S.room shelf.now) }
    ensures answer { result ≡ balance_answer (balanced (length rows.old) (entries_of (S.records shelf.now))) }
    ensures table { rows.new ≡ balance_table (balanced (length rows.old) (entries_of (S.records shelf.now))) (length rows.old) }
    ensures refusals { RefusedBy of_balancing result }
    ensures stands { BalanceStands (entries_of (S.records shelf.now)) rows.old result rows.new }
{
    balance_all(shelf, volume, rows)
}
