//! Shelves at their limits, and two shelves as one.
ghost use Rattle.std.specs.Prelude.{◌≡◌, min, length};
ghost use Rattle.shelf.specs.Records.{highest, held, places};
ghost use Rattle.shelf.specs.Runs.{lay_answer, laid};
ghost use Rattle.vectors.specs.Alike.{alike, whole_alike, inside_alike, bound_alike};
ghost use Rattle.vectors.specs.Told.{told_of};

use refusal::Refusal;
use shelf::{Joined, MemoryShelf, Shelf, ShelfFault, lay, read_range};

// A full shelf of `count` records whose bytes are all `byte`: its limit takes no memory.
#[derive(Clone, Copy)]
pub(crate) struct Alike {
    pub(crate) count: usize,
    pub(crate) byte: u8,
}

impl Shelf for Alike {
    ghost records = { λ s. alike s.count s.byte };

    ghost room = { λ s. min s.count highest };

    ghost same = { λ _ _. Unit {0} };

    ghost laws = { record { whole = λ s. whole_alike s.count s.byte; inside = λ s. inside_alike s.count s.byte; bound = λ s. bound_alike s.count; same_refl = λ _. tt; same_trans = λ _ _ _ _ _. tt } };

    fn count(&self) -> usize {
        self.count.min(500_000)
    }

    fn limit(&self) -> usize {
        self.count.min(500_000)
    }

    fn add(&mut self, _item: &[u8; 80]) -> Result<(), ShelfFault> {
        Err(ShelfFault::Full(self.count()))
    }

    fn copy(&self, n: usize, out: &mut [u8; 80]) -> Result<(), ShelfFault> {
        if n == 0 || n > self.count() {
            return Err(ShelfFault::NoRecord(n));
        }
        *out = [self.byte; 80];
        Ok(())
    }
}

// The number and the place of a refusal; zeros where there was none.
fn told(answer: Result<(), ShelfFault>) -> (u8, usize)
    ensures { result ≡ told_of answer }
{
    let Err(fault) = answer else {
        return (0, 0);
    };
    let number = Refusal::from(fault).number();
    match fault {
        ShelfFault::Full(count) => (number, count),
        ShelfFault::NoRecord(n) => (number, n),
    }
}

// Lays records behind those in the caller's bytes. What any shelf promises is enough to know what the bytes hold once the
// shelf is gone.
fn lay_in(bytes: &mut [u8], count: usize, items: &[[u8; 80]]) -> Result<(), ShelfFault>
    ensures answer { result ≡ lay_answer (length (held bytes.old count)) (places bytes.old) (length items.now) }
    ensures list { held bytes.new (length (laid (held bytes.old count) (places bytes.old) items.now)) ≡ laid (held bytes.old count) (places bytes.old) items.now }
{
    let mut shelf = MemoryShelf::new(bytes, count);
    lay(&mut shelf, items)
}

#[test]
fn limits_of_bytes(rt: HostRuntime) {
    for (size, places) in [(0, 0), (79, 0), (80, 1), (81, 1)] {
        let mut bytes = [7u8; 81];
        assert!(rt; size <= 81);
        let shelf = MemoryShelf::new(&mut bytes[0..size], 9);
        assert_eq!(rt; shelf.limit(), places);
        assert_eq!(rt; shelf.count(), places);
    }
}

#[test]
fn bytes_once_the_shelf_is_gone(rt: HostRuntime) {
    let mut bytes = [1u8; 250];
    assert_eq!(rt; told(lay_in(&mut bytes, 1, &[[2; 80], [3; 80]])), (0, 0));
    assert_eq!(rt;
        (bytes[79], bytes[80], bytes[160], bytes[239], bytes[240]),
        (1, 2, 3, 3, 1)
    );
    assert_eq!(rt; told(lay_in(&mut bytes, 2, &[[4; 80], [5; 80]])), (15, 2));
    assert_eq!(rt; (bytes[80], bytes[160]), (2, 3));
}

// The limits on paper: with 500,000 places the pair is both, with one more the first alone.
#[test]
fn limits_of_pairs(rt: HostRuntime) {
    let rows = [
        (500_000, 0, 500_000, 1),
        (499_999, 1, 500_000, 2),
        (0, 500_000, 500_000, 2),
        (500_000, 1, 500_000, 1),
        (499_999, 2, 499_999, 1),
        (1, 500_000, 1, 1),
        (900_000, 1, 500_000, 1),
    ];
    for (first, second, count, last) in rows {
        let pair = Joined {
            first: Alike {
                count: first,
                byte: 1,
            },
            second: Alike {
                count: second,
                byte: 2,
            },
        };
        assert_eq!(rt; pair.limit(), count);
        assert_eq!(rt; pair.count(), count);
        let mut out = [0u8; 80];
        assert_eq!(rt; told(pair.copy(count, &mut out)), (0, 0));
        assert_eq!(rt; out[79], last);
        assert_eq!(rt; told(pair.copy(count + 1, &mut out)), (16, count + 1));
        assert_eq!(rt; out[79], last);
    }
}

// One place in memory behind 499,999 records is the last that a shelf can have.
#[test]
fn last_place(rt: HostRuntime) {
    for (size, limit, after) in [(80, 500_000, (0, 0)), (160, 499_999, (15, 499_999))] {
        let mut bytes = [0u8; 160];
        assert!(rt; size <= 160);
        let mut pair = Joined {
            first: Alike {
                count: 499_999,
                byte: 1,
            },
            second: MemoryShelf::new(&mut bytes[0..size], 0),
        };
        assert_eq!(rt; pair.limit(), limit);
        assert_eq!(rt; told(pair.add(&[9; 80])), after);
        assert_eq!(rt; pair.count(), limit);
        assert_eq!(rt; told(pair.add(&[9; 80])), (15, limit));
    }
}

// A record in the second part closes the free places of the first.
#[test]
fn second_part_begun(rt: HostRuntime) {
    let mut front = [1u8; 240];
    let mut back = [2u8; 160];
    let mut pair = Joined {
        first: MemoryShelf::new(&mut front, 1),
        second: MemoryShelf::new(&mut back, 1),
    };
    assert_eq!(rt; (pair.count(), pair.free(), pair.limit()), (2, 1, 3));
    assert_eq!(rt; told(pair.add(&[3; 80])), (0, 0));
    assert_eq!(rt; (pair.first.count(), pair.second.count()), (1, 2));
    assert_eq!(rt; told(pair.add(&[4; 80])), (15, 3));
    let mut out = [0u8; 80];
    for (n, answer, byte) in [
        (1, (0, 0), 1),
        (2, (0, 0), 2),
        (3, (0, 0), 3),
        (4, (16, 4), 3),
        (0, (16, 0), 3),
    ] {
        assert_eq!(rt; told(pair.copy(n, &mut out)), answer);
        assert_eq!(rt; out[0], byte);
    }
}

// Three parts are filled in turn, and read back as one run.
#[test]
fn joined_of_joined(rt: HostRuntime) {
    let mut a = [0u8; 80];
    let mut b = [0u8; 85];
    let mut c = [0u8; 165];
    let mut all = Joined {
        first: Joined {
            first: MemoryShelf::new(&mut a, 0),
            second: MemoryShelf::new(&mut b, 0),
        },
        second: MemoryShelf::new(&mut c, 0),
    };
    assert_eq!(rt; (all.count(), all.limit()), (0, 4));
    let items = [[1; 80], [2; 80], [3; 80]];
    assert_eq!(rt; told(lay(&mut all, &items)), (0, 0));
    assert_eq!(rt; told(lay(&mut all, &items)), (15, 3));
    assert_eq!(rt;
        (all.first.count(), all.second.count(), all.limit()),
        (2, 1, 4)
    );
    for (n, answer) in [(0, (16, 0)), (3, (16, 4)), (7, (16, 7)), (2, (0, 0))] {
        let mut out = [9u8; 161];
        assert_eq!(rt; told(read_range(&all, n, &mut out)), answer);
        let read = if n == 2 {
            (2, 2, 3, 3, 9)
        } else {
            (9, 9, 9, 9, 9)
        };
        assert_eq!(rt; (out[0], out[79], out[80], out[159], out[160]), read);
    }
}
