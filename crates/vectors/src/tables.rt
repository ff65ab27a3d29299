// Tables of sums, by example.
ghost use Rattle.std.specs.Prelude.{◌≡◌, ◌≤◌, [], length, IfSome, ◌==◌};
ghost use Rattle.sums.specs.Table.{in_use};
ghost use Rattle.sums.specs.Laws.{Entered, run};
ghost use Rattle.std.proofs.Common.{rules};

use sums::{Key, Row, Table, covered, empty, find};

// A key that is looked up by its number alone.
#[derive(Clone, Copy)]
struct Noted {
    number: u64,
    note: u64,
}

impl Key for Noted {
    ghost same = { λ x y. (x.number == y.number) };

    ghost zero = { record { number = 0; note = 0 } };

    ghost lawful = { Prim.search rules };

    fn same_key(&self, other: &Noted) -> bool {
        self.number == other.number
    }

    fn blank() -> Noted {
        Noted { number: 0, note: 0 }
    }
}

// Enters an entry. Answers how many rows are then in use, or None if it was refused.
fn enter<K: Key>(table: &mut Table<K>, key: K, added: u64, taken: u64) -> Option<usize>
    ensures used { IfSome result (λ n. n ≡ table.new.used) }
    ensures entered { Entered K.same table.old.used key added taken table.old.rows.now table.new.rows.now result }
    ensures room { length table.new.rows.now ≡ length table.old.rows.now }
    ensures lender { table.new.rows.ghost_name ≡ table.old.rows.ghost_name }
{
    match table.enter(Row { key, added, taken }) {
        Ok(()) => Some(table.rows().len()),
        Err(_) => None,
    }
}

// Enters all of them into an empty table. Answers how many rows are then in use, or None if one was refused.
fn enter_all<K: Key>(rows: &mut [Row<K>], entries: &[Row<K>]) -> Option<usize>
    ensures within { IfSome result (λ n. n ≤ length rows.new) }
    ensures held { in_use rows.new result ≡ run K.same (length rows.old) [] entries.now }
{
    let mut table = Table::new(rows);
    for entry in entries {
        enter(&mut table, entry.key, entry.added, entry.taken)?;
    }
    Some(table.rows().len())
}

const ENTRIES: [Row<u64>; 5] = [
    Row {
        key: 9,
        added: 5,
        taken: 0,
    },
    Row {
        key: 3,
        added: 1,
        taken: 2,
    },
    Row {
        key: 9,
        added: 20,
        taken: 7,
    },
    Row {
        key: 5,
        added: 0,
        taken: 0,
    },
    Row {
        key: 3,
        added: 1,
        taken: 0,
    },
];

// Room for so many rows, so many of the entries, and the answer.
const ROOMS: [(usize, usize, Option<usize>); 8] = [
    (0, 0, Some(0)),
    (0, 1, None),
    (1, 1, Some(1)),
    (1, 2, None),
    (2, 3, Some(2)),
    (2, 4, None),
    (3, 4, Some(3)),
    (3, 5, Some(3)),
];

#[test]
fn rooms(rt: HostRuntime) {
    for (room, count, answer) in ROOMS {
        assert!(rt; room <= 3 && count <= 5);
        let mut rows = [Row::zero(); 3];
        assert_eq!(rt; enter_all(&mut rows[0..room], &ENTRIES[0..count]), answer);
    }
}

// Rows stand in order of first appearance, with the sums of their entries, and the free row is as it was.
#[test]
fn sums_in_order(rt: HostRuntime) {
    let mut rows = [Row::zero(); 4];
    assert_eq!(rt; enter_all(&mut rows, &ENTRIES), Some(3));
    let wanted = [(9, 25, 7), (3, 2, 2), (5, 0, 0), (0, 0, 0)];
    for (row, sums) in rows.iter().zip(&wanted) {
        assert_eq!(rt; (row.key, row.added, row.taken), *sums);
    }
    for (i, key) in [9, 3, 5].iter().enumerate() {
        assert_eq!(rt; find(&rows[..3], key), Some(i));
    }
    assert_eq!(rt; find(&rows[..3], &4), None);
    assert_eq!(rt; find(&rows[..2], &5), None, "a row that is not in use");
}

// The first of two equal keys stays, though they are different values.
#[test]
fn equal_keys(rt: HostRuntime) {
    let first = Noted {
        number: 1,
        note: 10,
    };
    let second = Noted {
        number: 1,
        note: 11,
    };
    let mut rows = [Row {
        key: <Noted as Key>::blank(),
        added: 0,
        taken: 0,
    }; 2];
    let mut table = Table::new(&mut rows);
    assert_eq!(rt; enter(&mut table, first, 1, 0), Some(1));
    assert_eq!(rt; enter(&mut table, second, 2, 5), Some(1));
    assert_eq!(rt; find(table.rows(), &second), Some(0));
    assert_eq!(rt;
        (rows[0].key.note, rows[0].added, rows[0].taken),
        (10, 3, 5)
    );
}

// A column stops at the largest number, and nothing is refused for it.
#[test]
fn saturates(rt: HostRuntime) {
    let mut rows = [Row::zero(); 1];
    let mut table = Table::new(&mut rows);
    assert_eq!(rt; enter(&mut table, 7, u64::MAX - 1, 3), Some(1));
    assert_eq!(rt; enter(&mut table, 7, 1, u64::MAX), Some(1));
    assert_eq!(rt; (rows[0].added, rows[0].taken), (u64::MAX, u64::MAX));
    let mut table = Table::with_used(&mut rows, 1);
    assert_eq!(rt; enter(&mut table, 7, 1, 0), Some(1));
    assert_eq!(rt; rows[0].added, u64::MAX);
}

// A new key that finds no free row changes nothing; a known one still has its row.
#[test]
fn refusal(rt: HostRuntime) {
    let mut rows = [
        Row {
            key: 4,
            added: 5,
            taken: 6,
        },
        Row {
            key: 8,
            added: 1,
            taken: 1,
        },
    ];
    let mut table = Table::with_used(&mut rows, 2);
    assert_eq!(rt; enter(&mut table, 9, 1, 1), None);
    assert_eq!(rt; table.rows().len(), 2);
    assert_eq!(rt; (rows[0].key, rows[0].added, rows[0].taken), (4, 5, 6));
    assert_eq!(rt; (rows[1].key, rows[1].added, rows[1].taken), (8, 1, 1));
    let mut table = Table::with_used(&mut rows, 2);
    assert_eq!(rt; enter(&mut table, 8, 1, 2), Some(2));
    assert_eq!(rt; (rows[1].key, rows[1].added, rows[1].taken), (8, 2, 3));
    let mut table = Table::with_used(&mut rows, 2);
    table.clear();
    assert_eq!(rt; table.rows().len(), 0);
    assert_eq!(rt; (rows[1].key, rows[1].added, rows[1].taken), (8, 2, 3));
    empty(&mut rows);
    assert_eq!(rt; (rows[0].key, rows[0].added, rows[0].taken), (0, 0, 0));
    assert_eq!(rt; (rows[1].key, rows[1].added, rows[1].taken), (0, 0, 0));
}

// Only rows in use count, and a row may have all of it taken.
#[test]
fn covering(rt: HostRuntime) {
    let rows = [
        Row {
            key: 1u64,
            added: 5,
            taken: 4,
        },
        Row {
            key: 2,
            added: 5,
            taken: 5,
        },
        Row {
            key: 3,
            added: 5,
            taken: 6,
        },
    ];
    assert!(rt; covered(&rows[..0]) && covered(&rows[..1]) && covered(&rows[..2]));
    assert!(rt; !covered(&rows));
}
