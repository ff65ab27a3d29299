// A code is free where no edition in use knows it.
use crate::letters::{file_of, shelf_of};
use crate::showings::{OLD, Under, answered, copied, shown};
use crate::twinned::take;
use archive::Archive;
use shelf::MemoryShelf;
use std::test::Fail;

const LEVEL_4: &str = "14, file, entry 1, record 4: rider at a wrong level";

const LEVEL_6: &str = "14, file, entry 1, record 6: rider at a wrong level";

// a file, and its rows and plain copy to a reader who knows 77 at file level
const KNOWN: [(&[u8], &str, &str); 5] = [
    (b"SOPDE", "5 filled", "410 filled"),
    (b"SXOPDE", "6 filled", "492 filled"),
    (b"SOPDXE", "6 filled", "492 filled"),
    (b"SOPXDE", LEVEL_4, LEVEL_4),
    (b"SOPDEX", LEVEL_6, LEVEL_6),
];

// Where one call of a list knows 77, it is no free code, and these files are no twins, as they are where all calls know no more than
// the house edition.
#[test]
fn known_to_one_call(rt: HostRuntime) -> Result<(), Fail> {
    let heap = rt.alloc();
    for (letters, rows, bytes) in KNOWN {
        let mut places = shelf_of(heap, b"", 20)?;
        let mut archive = Archive::open(MemoryShelf::new(&mut places, 0))?;
        let told = take(heap, &mut archive, &file_of(heap, letters)?)?;
        assert_eq!(rt; told.as_str(), "entry 1");
        for (under, rows, bytes) in [
            (Under::House, "5 filled", "410 filled"),
            (Under::Sevens, rows, bytes),
        ] {
            let answer = shown(&archive, 1, under, &mut [OLD; 6]);
            assert_eq!(rt; answered(heap, answer)?.as_str(), rows);
            let answer = copied(&archive, 1, under, &mut [b'#'; 492]);
            assert_eq!(rt; answered(heap, answer)?.as_str(), bytes);
        }
    }
    Ok(())
}
