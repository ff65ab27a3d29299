// The calls of a volume, on shelves that nothing else fills.
use crate::letters::{file_of, record, shelf_of};
use crate::tokens::{
    close_and_fetch, close_both, fetch_from_both, take_in_and_fetch, take_in_on_both, take_in_two,
};
use archive::{Archive, NotLaid};
use filing::{Opened, Standing, VolumeFault};
use record::Bare;
use refusal::Refusal;
use shelf::{Joined, MemoryShelf, Shelf};
use std::alloc::{AllocError, Global};
use std::process::Abort;
use std::test::Fail;
use sums::Row;
use volume::open;

// A refusal with its number, layer, place and cause; behind 31 the file's refusal, entire.
pub(crate) fn told(heap: Global, fault: VolumeFault) -> Result<String, AllocError> {
    Refusal::from(fault).to_string(heap)
}

pub(crate) fn found(heap: Global, opened: Opened) -> Result<String, AllocError> {
    let standing = match opened.standing {
        Standing::Open => "open",
        Standing::Closed => "closed",
    };
    format!(in heap; "{} entries, {standing}", opened.entries)
}

// What opening a shelf answers, in words.
pub(crate) fn opened<S: Shelf>(heap: Global, shelf: &S) -> Result<String, AllocError> {
    match open(shelf) {
        Ok(volume) => found(heap, Opened::from(&volume)),
        Err(fault) => told(heap, fault),
    }
}

// A call with what it brings: a file, by its letters.
#[derive(Clone, Copy)]
pub(crate) enum Call<'a> {
    TakeIn(&'a [u8]),
    Close,
    OpenAgain,
}

pub(crate) fn taken(heap: Global, answer: Result<usize, NotLaid>) -> Result<String, AllocError> {
    match answer {
        Ok(entry) => format!(in heap; "entry {entry}"),
        Err(NotLaid::Refused(fault)) => told(heap, fault),
        Err(NotLaid::Closed) => String::from_str(heap, "no open volume"),
    }
}

// Makes one call, and tells its answer: after closing and opening again what the token then says.
pub(crate) fn make<S: Shelf + Drop>(
    heap: Global,
    mut archive: Archive<S>,
    call: Call<'_>,
) -> Result<(Archive<S>, String), AllocError> {
    match call {
        Call::TakeIn(letters) => {
            let file = file_of(heap, letters)?;
            let mut payers = [Row::zero()];
            let answer = archive.take_in(&file, &Bare, &mut payers);
            let told = taken(heap, answer)?;
            Ok((archive, told))
        }
        Call::Close => {
            let (archive, _) = archive.close();
            let told = found(heap, archive.opened())?;
            Ok((archive, told))
        }
        Call::OpenAgain => {
            let archive = archive.reopen();
            let told = found(heap, archive.opened())?;
            Ok((archive, told))
        }
    }
}

// Makes the calls one after the other, from an opening on, and asserts what each answers.
pub(crate) fn play<S: Shelf + Drop>(
    rt: &impl Abort,
    heap: Global,
    shelf: S,
    calls: &[(Call<'_>, &str)],
) -> Result<Archive<S>, Fail> {
    let mut archive = Archive::open(shelf)?;
    for (call, answer) in calls {
        let (after, told) = make(heap, archive, *call)?;
        assert_eq!(rt; told.as_str(), *answer);
        archive = after;
    }
    Ok(archive)
}

const ONE_PLACE: [(Call<'static>, &str); 4] = [
    (Call::OpenAgain, "0 entries, open"),
    (Call::TakeIn(b"SOPDE"), "22, volume: no room on the shelf"),
    (Call::Close, "0 entries, closed"),
    (Call::OpenAgain, "0 entries, closed"),
];

const SIX_PLACES: [(Call<'static>, &str); 2] = [
    (Call::TakeIn(b"SOPDE"), "22, volume: no room on the shelf"),
    (Call::OpenAgain, "0 entries, open"),
];

// A refusal leaves shelf and token as they were. The file's own refusals come first, then 20, 21, 22.
const SEVEN_PLACES: [(Call<'static>, &str); 10] = [
    (Call::TakeIn(b"SOPDE"), "entry 1"),
    (
        Call::TakeIn(b"SOPDE"),
        "21, volume, entry 1: time stamp already there",
    ),
    (Call::TakeIn(b"TOPDE"), "20, volume: marked T"),
    (
        Call::TakeIn(b"TOPdE"),
        "9, file, record 4: deposit disagrees",
    ),
    (
        Call::TakeIn(b""),
        "12, file, record 1: file ends before its end record",
    ),
    (
        Call::TakeIn(b"SOPDXQ"),
        "3, file, record 6: core record out of order, or first not start",
    ),
    (Call::TakeIn(b"GOPDE"), "22, volume: no room on the shelf"),
    (Call::OpenAgain, "1 entries, open"),
    (Call::Close, "1 entries, closed"),
    (Call::OpenAgain, "1 entries, closed"),
];

const TWO_FILES: [(Call<'static>, &str); 7] = [
    (Call::TakeIn(b"SOPDE"), "entry 1"),
    (Call::TakeIn(b"GOPDE"), "entry 2"),
    (
        Call::TakeIn(b"GOPDE"),
        "21, volume, entry 2: time stamp already there",
    ),
    (
        Call::TakeIn(b"SOPDE"),
        "21, volume, entry 1: time stamp already there",
    ),
    (Call::OpenAgain, "2 entries, open"),
    (Call::Close, "2 entries, closed"),
    (Call::OpenAgain, "2 entries, closed"),
];

const TWO_CURRENCIES: [(Call<'static>, &str); 1] = [(Call::TakeIn(b"SOPDUPuW"), "entry 1")];

// A file's own records with the codes 97 to 99 stay its own, also where they look like a trailer or closing record.
const OWN_CODES: [(Call<'static>, &str); 4] = [
    (Call::TakeIn(b"S7O8P9DEtc"), "entry 1"),
    (Call::OpenAgain, "1 entries, open"),
    (Call::Close, "1 entries, closed"),
    (Call::OpenAgain, "1 entries, closed"),
];

const OWN_TRAILER_LAST: [(Call<'static>, &str); 4] = [
    (Call::TakeIn(b"S7O8P9DEt"), "entry 1"),
    (Call::OpenAgain, "1 entries, open"),
    (Call::Close, "1 entries, closed"),
    (Call::OpenAgain, "1 entries, closed"),
];

// Makes the calls on an empty memory shelf of so many places. It then opens as the last call said, and its bytes are these
// records and what they held before.
fn play_in_memory(
    rt: &impl Abort,
    heap: Global,
    places: usize,
    calls: &[(Call<'_>, &str)],
    records: &[u8],
) -> Result<(), Fail> {
    let mut bytes = shelf_of(heap, b"", places)?;
    let archive = play(rt, heap, MemoryShelf::new(&mut bytes, 0), calls)?;
    let said = found(heap, archive.opened())?;
    drop(archive);
    let shelf = MemoryShelf::new(&mut bytes, records.len());
    assert_eq!(rt; opened(heap, &shelf)?.as_str(), said.as_str());
    drop(shelf);
    let after = shelf_of(heap, records, places)?;
    assert_eq!(rt; bytes.as_slice(), after.as_slice());
    Ok(())
}

#[test]
fn limits(rt: HostRuntime) -> Result<(), Fail> {
    let heap = rt.alloc();
    let mut none = [0u8; 0];
    let shelf = MemoryShelf::new(&mut none, 0);
    assert_eq!(rt;
        opened(heap, &shelf)?.as_str(),
        "22, volume: no room on the shelf"
    );
    play_in_memory(&rt, heap, 1, &ONE_PLACE, b"v")?;
    play_in_memory(&rt, heap, 6, &SIX_PLACES, b"")?;
    play_in_memory(&rt, heap, 7, &SEVEN_PLACES, b"SOPDE1w")?;
    play_in_memory(&rt, heap, 13, &TWO_FILES, b"SOPDE1GOPDE2x")?;
    play_in_memory(&rt, heap, 20, &TWO_FILES, b"SOPDE1GOPDE2x")?;
    Ok(())
}

#[test]
fn entries_as_they_are(rt: HostRuntime) -> Result<(), Fail> {
    let heap = rt.alloc();
    play_in_memory(&rt, heap, 10, &TWO_CURRENCIES, b"SOPDUPuW5")?;
    play_in_memory(&rt, heap, 12, &OWN_CODES, b"S7O8P9DEtc3y")?;
    play_in_memory(&rt, heap, 11, &OWN_TRAILER_LAST, b"S7O8P9DEt4z")?;
    Ok(())
}

pub(crate) fn pair_over<'a>(
    front: &'a mut [u8],
    back: &'a mut [u8],
) -> Joined<MemoryShelf<'a>, MemoryShelf<'a>> {
    Joined {
        first: MemoryShelf::new(front, 0),
        second: MemoryShelf::new(back, 0),
    }
}

// The first shelf is full within the first entry.
#[test]
fn on_two_shelves(rt: HostRuntime) -> Result<(), Fail> {
    let heap = rt.alloc();
    let mut front = shelf_of(heap, b"", 4)?;
    let mut back = shelf_of(heap, b"", 9)?;
    let pair = pair_over(&mut front, &mut back);
    drop(play(&rt, heap, pair, &TWO_FILES)?);
    let first = shelf_of(heap, b"SOPD", 4)?;
    let second = shelf_of(heap, b"E1GOPDE2x", 9)?;
    assert_eq!(rt; front.as_slice(), first.as_slice());
    assert_eq!(rt; back.as_slice(), second.as_slice());
    Ok(())
}

pub(crate) fn fetched(heap: Global, answer: Result<(), VolumeFault>) -> Result<String, AllocError> {
    match answer {
        Ok(()) => String::from_str(heap, "fetched"),
        Err(fault) => told(heap, fault),
    }
}

// Fetches the records of an entry, and asserts that they are those of the letters.
fn fetch_each<S: Shelf + Drop>(
    rt: &impl Abort,
    archive: &Archive<S>,
    entry: usize,
    records: &[u8],
) {
    for (i, letter) in records.iter().enumerate() {
        let mut out = [b'#'; 80];
        assert_eq!(rt; archive.fetch(entry, i + 1, &mut out), Ok(()));
        assert_eq!(rt; out, *record(*letter));
    }
}

const TO_FETCH: [(Call<'static>, &str); 3] = [
    (Call::TakeIn(b"S7O8P9DEtc"), "entry 1"),
    (Call::TakeIn(b"GOPDE"), "entry 2"),
    (Call::Close, "2 entries, closed"),
];

const NOT_THERE: [(usize, usize); 10] = [
    (0, 0),
    (0, 1),
    (1, 0),
    (1, 11),
    (2, 0),
    (2, 6),
    (3, 0),
    (3, 1),
    (1, usize::MAX),
    (usize::MAX, 1),
];

// Asks for each of these, and asserts that 24 comes with the entry asked for and leaves the buffer.
fn fetch_none<S: Shelf + Drop>(
    rt: &impl Abort,
    heap: Global,
    archive: &Archive<S>,
) -> Result<(), Fail> {
    for (entry, number) in NOT_THERE {
        let mut out = [b'#'; 80];
        let answer = archive.fetch(entry, number, &mut out);
        let words = format!(in heap; "24, volume, entry {entry}: no such entry or record")?;
        assert_eq!(rt; fetched(heap, answer)?.as_str(), words.as_str());
        assert_eq!(rt; out, [b'#'; 80]);
    }
    Ok(())
}

// While the volume is open, and when it is closed.
#[test]
fn fetching(rt: HostRuntime) -> Result<(), Fail> {
    let heap = rt.alloc();
    for calls in [2, 3] {
        assert!(rt; calls <= 3);
        let mut bytes = shelf_of(heap, b"", 18)?;
        let archive = play(
            &rt,
            heap,
            MemoryShelf::new(&mut bytes, 0),
            &TO_FETCH[..calls],
        )?;
        fetch_each(&rt, &archive, 1, b"S7O8P9DEtc");
        fetch_each(&rt, &archive, 2, b"GOPDE");
        fetch_none(&rt, heap, &archive)?;
    }
    Ok(())
}

// Two shelves side by side.
#[test]
fn two_shelves(rt: HostRuntime) -> Result<(), Fail> {
    let heap = rt.alloc();
    let file = file_of(heap, b"SOPDE")?;
    let mut bytes = shelf_of(heap, b"", 13)?;
    let mut more = shelf_of(heap, b"GOPDE1", 13)?;
    let mut shelf = MemoryShelf::new(&mut bytes, 0);
    let mut other = MemoryShelf::new(&mut more, 6);
    assert!(rt; take_in_on_both(&mut shelf, &mut other, &file).is_some());
    let mut out = [0u8; 80];
    let mut other_out = [0u8; 80];
    let answers = fetch_from_both(&shelf, &other, &mut out, &mut other_out);
    assert_eq!(rt; answers, Some((Ok(()), Ok(()))));
    assert_eq!(rt; out, *record(b'S'));
    assert_eq!(rt; other_out, *record(b'G'));
    assert!(rt; close_both(&mut shelf, &mut other).is_some());
    assert_eq!(rt; opened(heap, &shelf)?.as_str(), "1 entries, closed");
    assert_eq!(rt; opened(heap, &other)?.as_str(), "2 entries, closed");
    assert!(rt; close_both(&mut shelf, &mut other).is_none());
    Ok(())
}

// Two tokens of one shelf, of which only one is handed on.
#[test]
fn two_tokens(rt: HostRuntime) -> Result<(), Fail> {
    let heap = rt.alloc();
    let file = file_of(heap, b"SOPDE")?;
    let next = file_of(heap, b"GOPDE")?;
    let mut bytes = shelf_of(heap, b"", 13)?;
    let mut shelf = MemoryShelf::new(&mut bytes, 0);
    let mut out = [0u8; 80];
    assert_eq!(rt;
        take_in_and_fetch(&mut shelf, &file, &mut out),
        Some(Ok(()))
    );
    assert_eq!(rt; out, *record(b'S'));
    assert!(rt; take_in_two(&mut shelf, &file, &next).is_some());
    assert_eq!(rt; opened(heap, &shelf)?.as_str(), "2 entries, open");
    assert_eq!(rt; close_and_fetch(&mut shelf, &mut out), Some(Ok(())));
    assert_eq!(rt; opened(heap, &shelf)?.as_str(), "2 entries, closed");
    assert_eq!(rt; close_and_fetch(&mut shelf, &mut out), None);
    Ok(())
}
