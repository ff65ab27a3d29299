// What showing and copying have in common: who refuses, and on which shelves.
use crate::copies::copy_as;
use crate::letters::{file_of, shelf_of};
use crate::showings::{F, F_WITH_77, OLD, Under, archive_with, copied, show_as, shown};
use crate::volumes::{Call, pair_over, play, told};
use archive::Archive;
use filing::VolumeFault;
use manual::{Cause, FileFault};
use shelf::{MemoryShelf, Shelf};
use std::alloc::{AllocError, Global};
use std::process::Abort;
use std::test::Fail;

// Shows and copies an entry, and asserts that both are refused so, and leave all that is lent as it was.
fn refused<S: Shelf + Drop>(
    rt: &impl Abort,
    heap: Global,
    archive: &Archive<S>,
    asked: (usize, Under),
    fault: VolumeFault,
    words: &str,
) -> Result<(), Fail> {
    let (entry, under) = asked;
    assert_eq!(rt; told(heap, fault)?.as_str(), words);
    for lent in [0, 20] {
        let mut rows = [OLD; 20];
        let answer = shown(archive, entry, under, &mut rows[..lent]);
        assert_eq!(rt; answer, Err(fault), "{words}");
        assert_eq!(rt; rows, [OLD; 20], "{words}");
        let mut buffer = [b'#'; 1640];
        let answer = copied(archive, entry, under, &mut buffer[..lent * 82]);
        assert_eq!(rt; answer, Err(fault), "{words}");
        assert!(rt; buffer == [b'#'; 1640], "{words}");
    }
    Ok(())
}

// the file that is entry 1, the edition, and which rider of it is refused why
const RIDERS: [(&[u8], Under, usize, Cause); 13] = [
    (b"SROPDE", Under::House, 2, Cause::RiderIllFormed),
    (b"SXAROPDE", Under::House, 4, Cause::RiderIllFormed),
    (b"SOPXCDE", Under::House, 5, Cause::RiderIllFormed),
    // in an item, in a section, between sections, behind the end
    (b"SOPXDE", Under::Sevens, 4, Cause::RiderLevel),
    (b"SOPADE", Under::House, 4, Cause::RiderLevel),
    (b"SOAPDE", Under::House, 3, Cause::RiderLevel),
    (b"SXXOXPDE", Under::Sevens, 5, Cause::RiderLevel),
    (b"SOPDBE", Under::House, 5, Cause::RiderLevel),
    (b"SOPDXEA", Under::House, 7, Cause::RiderLevel),
    // the level is told before the form, and of two records the first
    (b"SOPRDE", Under::House, 4, Cause::RiderLevel),
    (b"SOPDECA", Under::House, 6, Cause::RiderLevel),
    (b"SROAPDE", Under::House, 2, Cause::RiderIllFormed),
    (b"SOAPCDE", Under::House, 3, Cause::RiderLevel),
];

fn words_of(heap: Global, number: usize, cause: Cause) -> Result<String, AllocError> {
    match cause {
        Cause::RiderIllFormed => {
            format!(in heap; "13, file, entry 1, record {number}: rider ill-formed")
        }
        _ => format!(in heap; "14, file, entry 1, record {number}: rider at a wrong level"),
    }
}

#[test]
fn riders(rt: HostRuntime) -> Result<(), Fail> {
    let heap = rt.alloc();
    for (letters, under, number, cause) in RIDERS {
        let file = file_of(heap, letters)?;
        let mut places = shelf_of(heap, b"", 20)?;
        let archive = archive_with(&rt, &mut places, &file)?;
        let fault = VolumeFault::Rider(1, FileFault { number, cause });
        let words = words_of(heap, number, cause)?;
        refused(&rt, heap, &archive, (1, under), fault, words.as_str())?;
    }
    Ok(())
}

// Asks for these entries, none of which is there.
fn no_entry<S: Shelf + Drop>(
    rt: &impl Abort,
    heap: Global,
    archive: &Archive<S>,
    entries: &[usize],
) -> Result<(), Fail> {
    for entry in entries {
        let entry = *entry;
        let words = format!(in heap; "24, volume, entry {entry}: no such entry or record")?;
        let fault = VolumeFault::NoEntry(entry);
        refused(
            rt,
            heap,
            archive,
            (entry, Under::House),
            fault,
            words.as_str(),
        )?;
    }
    Ok(())
}

const NONE: [(Call<'static>, &str); 1] = [(Call::Close, "0 entries, closed")];

// While the volume is open, and when it is closed.
#[test]
fn of_no_entry(rt: HostRuntime) -> Result<(), Fail> {
    let heap = rt.alloc();
    for calls in [0, 1] {
        let mut places = shelf_of(heap, b"", 1)?;
        let shelf = MemoryShelf::new(&mut places, 0);
        let archive = play(&rt, heap, shelf, &NONE[..calls])?;
        no_entry(&rt, heap, &archive, &[0, 1, usize::MAX])?;
    }
    Ok(())
}

const TWO: [(Call<'static>, &str); 3] = [
    (Call::TakeIn(b"SOPXDE"), "entry 1"),
    (Call::TakeIn(b"GOPDER"), "entry 2"),
    (Call::Close, "2 entries, closed"),
];

// The same on a shelf of two, the first of which ends within the first entry. Records are counted in their entry.
#[test]
fn on_two_shelves(rt: HostRuntime) -> Result<(), Fail> {
    let heap = rt.alloc();
    for calls in [2, 3] {
        let mut front = shelf_of(heap, b"", 4)?;
        let mut back = shelf_of(heap, b"", 20)?;
        let pair = pair_over(&mut front, &mut back);
        let archive = play(&rt, heap, pair, &TWO[..calls])?;
        show_as(
            &rt,
            heap,
            &archive,
            (1, Under::House, 8),
            "5 filled",
            &F_WITH_77,
        )?;
        copy_as(
            &rt,
            heap,
            &archive,
            (1, Under::House, 500),
            "410 filled",
            b"SOPDE",
        )?;
        show_as(&rt, heap, &archive, (2, Under::Bare, 8), "5 filled", &F)?;
        copy_as(
            &rt,
            heap,
            &archive,
            (2, Under::Bare, 500),
            "410 filled",
            b"GOPDE",
        )?;
        let fault = FileFault {
            number: 6,
            cause: Cause::RiderLevel,
        };
        let words = "14, file, entry 2, record 6: rider at a wrong level";
        let fault = VolumeFault::Rider(2, fault);
        refused(&rt, heap, &archive, (2, Under::House), fault, words)?;
        no_entry(&rt, heap, &archive, &[0, 3, usize::MAX])?;
    }
    Ok(())
}
