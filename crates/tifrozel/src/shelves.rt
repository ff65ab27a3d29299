// The commands at a shelf, and those that lay something on it: `take-in` and `close`.
ghost use Rattle.std.specs.Prelude.{◌≡◌, ◌⊎◌, ⊤, true, false, length, is_ok, IfOk, OnOk, IsSomeAnd, MatchOption, MatchResult};
ghost use Rattle.filing.specs.declared.faults.VolumeFault.{VolumeFault};
ghost use Rattle.tifrozel.specs.declared.shelves.Seat.TheVariants.{NoShelf, At, Shut, Unwritten};
ghost use Rattle.archive.specs.Archives.{closing_answer};
ghost use Rattle.tifrozel.specs.Commands.{Does, Kept, Lays, Leaves, LeavesTaking, LeavesClosing, file_answer};

use crate::answers::{Done, Undone, bytes_of, entries, not_run, refused, say};
use crate::balances::balance;
use crate::disk::replace;
use crate::reading::{fetch, plain, show};
use crate::requests::{AtShelf, FileAsked};
use crate::words::EditionName;
use archive::{Archive, NotLaid};
use filing::{Standing, VolumeFault};
use shelf::Shelf;
use std::{fmt, fs, io};
use sums::Row;

// How it stands with the shelf of this run.
#[derive(Drop)]
pub enum Seat<S: Shelf> {
    NoShelf,
    At(Archive<S>),
    // opening it was refused
    Shut(VolumeFault),
    // something was laid that is not known to be in its file
    Unwritten,
}

// What is left of the shelf's standing by a command, and whether it did what it was asked.
pub type Turn<S> = (Seat<S>, Done);

// What is left of an archive by a command: none where something was laid that could not be written.
type Left<S> = (Option<Archive<S>>, Done);

const UNWRITTEN: &str =
    "an earlier command could not write the shelf; start again from what is on disk";

// A shelf's file, and how many bytes of it this run has read or written.
#[derive(Clone, Copy)]
pub struct ShelfFile<'a> {
    pub path: &'a str,
    pub size: usize,
}

// Puts what stands in the archive into the shelf's file.
fn keep<S: Shelf + Drop>(
    rt: &HostRuntime,
    archive: &Archive<S>,
    file: &mut ShelfFile<'_>,
) -> io::Result<()> {
    let bytes = archive.bytes(rt.alloc())?;
    replace(rt, file.path, file.size, &bytes)?;
    file.size = bytes.len();
    Ok(())
}

// What was laid is put into the file, and only then is said. Where it cannot be, the command says that.
fn laid<S: Shelf + Drop, W: fmt::Display + Drop>(
    rt: &HostRuntime,
    head: &str,
    archive: Archive<S>,
    file: &mut ShelfFile<'_>,
    done: W,
) -> Left<S>
    ensures { MatchOption result.0 ⊤ (λ a. (a.shelf ≡ archive.shelf) × (a.volume ≡ archive.volume)) }
{
    match keep(rt, &archive, file) {
        Ok(()) => (Some(archive), say(rt, head, done)),
        Err(e) => {
            let path = file.path;
            let said = not_run(rt, head, format_args!("cannot write {path}: {e}"));
            (None, said)
        }
    }
}

fn open<S: Shelf + Drop>(rt: &HostRuntime, head: &str, archive: Archive<S>) -> Left<S>
    ensures { IsSomeAnd result.0 (λ a. (a.shelf ≡ archive.shelf) × (a.volume ≡ archive.volume)) }
{
    let archive = archive.reopen();
    let found = archive.opened();
    let many = entries(found.entries);
    let said = match found.standing {
        Standing::Open => say(rt, head, format_args!("{many}, open")),
        Standing::Closed => say(rt, head, format_args!("{many}, closed")),
    };
    (Some(archive), said)
}

// What taking in is handed beside the shelf.
#[derive(Drop)]
struct Brought {
    file: Vec<u8>,
    edition: EditionName,
    payers: Vec<Row<u64>>,
}

fn bring(rt: &HostRuntime, head: &str, asked: FileAsked, payers: usize) -> Result<Brought, Undone>
    ensures { IfOk result (λ b. (b.edition ≡ asked.entry.edition) × (length b.payers.items ≡ payers)) }
{
    let file = bytes_of(rt, head, asked.path, fs::read(rt, asked.path))?;
    let payers = vec![in rt.alloc(); Row::zero(); payers]?;
    Ok(Brought {
        file,
        edition: asked.edition,
        payers,
    })
}

fn take_in<S: Shelf + Drop>(
    rt: &HostRuntime,
    head: &str,
    mut archive: Archive<S>,
    file: &mut ShelfFile<'_>,
    brought: Result<Brought, Undone>,
) -> Left<S>
    ensures left { MatchOption result.0 ⊤ (λ a. MatchResult brought (λ b. LeavesTaking (length b.payers.items) b.edition b.file.items (S.room archive.shelf) (S.records archive.shelf) archive.volume (S.records a.shelf) a.volume) (λ _. Kept (S.records archive.shelf) archive.volume (S.records a.shelf) a.volume)) }
    ensures limit { MatchOption result.0 ⊤ (λ a. S.room a.shelf ≡ S.room archive.shelf) }
    ensures done { OnOk result.1 (MatchResult brought (λ b. is_ok (file_answer (length b.payers.items) b.edition b.file.items (S.room archive.shelf) (S.records archive.shelf) archive.volume) ≡ true) (λ _. ⊥)) }
{
    let mut brought = match brought {
        Ok(brought) => brought,
        Err(e) => return (Some(archive), Err(e)),
    };
    match archive.take_in(&brought.file, &brought.edition, &mut brought.payers) {
        Ok(entry) => laid(rt, head, archive, file, format_args!("entry {entry}")),
        Err(NotLaid::Closed) => (
            Some(archive),
            not_run(rt, head, "the volume is closed; use another shelf"),
        ),
        Err(NotLaid::Refused(fault)) => (Some(archive), refused(rt, head, fault)),
    }
}

fn close<S: Shelf + Drop>(
    rt: &HostRuntime,
    head: &str,
    archive: Archive<S>,
    file: &mut ShelfFile<'_>,
) -> Left<S>
    ensures left { MatchOption result.0 ⊤ (λ a. LeavesClosing (S.records archive.shelf) archive.volume (S.records a.shelf) a.volume) }
    ensures limit { MatchOption result.0 ⊤ (λ a. S.room a.shelf ≡ S.room archive.shelf) }
    ensures done { OnOk result.1 (is_ok (closing_answer archive.volume) ≡ true) }
{
    let (archive, answer) = archive.close();
    match answer {
        Ok(many) => {
            let many = entries(many);
            laid(rt, head, archive, file, format_args!("{many}, closed"))
        }
        Err(NotLaid::Closed) => (Some(archive), not_run(rt, head, "the volume is closed")),
        Err(NotLaid::Refused(fault)) => (Some(archive), refused(rt, head, fault)),
    }
}

// Runs a command at an archive.
fn at_archive<S: Shelf + Drop>(
    rt: &HostRuntime,
    head: &str,
    archive: Archive<S>,
    file: &mut ShelfFile<'_>,
    asked: AtShelf,
    payers: usize,
) -> Left<S>
    ensures left { MatchOption result.0 (Lays asked.entry) (λ a. Leaves asked.entry payers (S.room archive.shelf) (S.records archive.shelf) archive.volume (S.records a.shelf) a.volume) }
    ensures limit { MatchOption result.0 ⊤ (λ a. S.room a.shelf ≡ S.room archive.shelf) }
    ensures done { OnOk result.1 (Does asked.entry payers (S.room archive.shelf) (S.records archive.shelf) archive.volume) }
{
    match asked {
        AtShelf::Open => open(rt, head, archive),
        AtShelf::TakeIn(asked) => {
            let brought = bring(rt, head, asked, payers);
            take_in(rt, head, archive, file, brought)
        }
        AtShelf::Close => close(rt, head, archive, file),
        AtShelf::Fetch { entry, number } => {
            let fetched = fetch(rt, head, &archive, entry, number);
            (Some(archive), fetched)
        }
        AtShelf::Balance => {
            let balanced = balance(rt, head, &archive);
            (Some(archive), balanced)
        }
        AtShelf::Show(asked) => {
            let shown = show(rt, head, &archive, asked);
            (Some(archive), shown)
        }
        AtShelf::Plain { asked, path } => {
            let copied = plain(rt, head, &archive, asked, path);
            (Some(archive), copied)
        }
    }
}

fn seat_of<S: Shelf + Drop>(left: Option<Archive<S>>) -> Seat<S>
    ensures { MatchOption left (result ≡ Unwritten) (λ a. result ≡ At a) }
{
    match left {
        Some(archive) => Seat::At(archive),
        None => Seat::Unwritten,
    }
}

// Runs a command at the shelf, if there is one to run it at.
pub fn at_seat<S: Shelf + Drop>(
    rt: &HostRuntime,
    head: &str,
    seat: Seat<S>,
    file: &mut ShelfFile<'_>,
    asked: AtShelf,
    payers: usize,
) -> Turn<S>
    ensures none { seat ≡ NoShelf → (result.0 ≡ NoShelf) × (is_ok result.1 ≡ false) }
    ensures shut { (e : VolumeFault) → seat ≡ Shut e → (result.0 ≡ Shut e) × (is_ok result.1 ≡ false) }
    ensures unwritten { seat ≡ Unwritten → (result.0 ≡ Unwritten) × (is_ok result.1 ≡ false) }
    ensures archive { (a : _) → seat ≡ At a → ((result.0 ≡ Unwritten) × Lays asked.entry) ⊎ ((after : _) × ((result.0 ≡ At after) × Leaves asked.entry payers (S.room a.shelf) (S.records a.shelf) a.volume (S.records after.shelf) after.volume)) }
    ensures done { (a : _) → seat ≡ At a → OnOk result.1 (Does asked.entry payers (S.room a.shelf) (S.records a.shelf) a.volume) }
{
    match seat {
        Seat::NoShelf => (Seat::NoShelf, not_run(rt, head, "no shelf is named")),
        Seat::Shut(fault) => (Seat::Shut(fault), refused(rt, head, fault)),
        Seat::Unwritten => (Seat::Unwritten, not_run(rt, head, UNWRITTEN)),
        Seat::At(archive) => {
            let (left, answer) = at_archive(rt, head, archive, file, asked, payers);
            (seat_of(left), answer)
        }
    }
}
