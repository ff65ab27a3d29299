// What the words of a command ask for.
ghost use Rattle.std.specs.Prelude.{MatchOption, ℕ, List};
ghost use Rattle.tifrozel.specs.declared.requests.FileAsked.{FileAsked};
ghost use Rattle.tifrozel.specs.declared.requests.EntryAsked.{EntryAsked};
ghost use Rattle.tifrozel.specs.declared.requests.Request.{Request};
ghost use Rattle.tifrozel.specs.Requests.{Asks, AsksCopy, AsksEntry, AsksFile};

use crate::words::{Command, EditionName, edition_asked};
use std::fmt;

// A file, and the edition that it is read under.
#[derive(Clone, Copy)]
pub struct FileAsked<'a> {
    pub path: &'a str,
    pub edition: EditionName,
}

// An entry, and the edition that it is read under.
#[derive(Clone, Copy, Debug, PartialEq, Eq)]
pub struct EntryAsked {
    pub entry: usize,
    pub edition: EditionName,
}

// What is asked at a shelf.
#[derive(Clone, Copy)]
pub enum AtShelf<'a> {
    Open,
    TakeIn(FileAsked<'a>),
    Close,
    Show(EntryAsked),
    Fetch { entry: usize, number: usize },
    Balance,
    Plain { asked: EntryAsked, path: &'a str },
}

#[derive(Clone, Copy)]
pub enum Request<'a> {
    Read(FileAsked<'a>),
    Check(FileAsked<'a>),
    AtShelf(AtShelf<'a>),
}

// The command's words without its edition, and without the file that it writes.
impl fmt::Display for AtShelf<'_> {
    fn fmt<W: fmt::Write>(&self, f: &mut fmt::Formatter<W>) -> fmt::Result {
        match *self {
            AtShelf::Open => write!(f, "{}", Command::Open),
            AtShelf::TakeIn(asked) => write!(f, "{} {}", Command::TakeIn, asked.path),
            AtShelf::Close => write!(f, "{}", Command::Close),
            AtShelf::Show(asked) => write!(f, "{} {}", Command::Show, asked.entry),
            AtShelf::Fetch { entry, number } => write!(f, "{} {entry} {number}", Command::Fetch),
            AtShelf::Balance => write!(f, "{}", Command::Balance),
            AtShelf::Plain { asked, .. } => write!(f, "{} {}", Command::Plain, asked.entry),
        }
    }
}

impl fmt::Display for Request<'_> {
    fn fmt<W: fmt::Write>(&self, f: &mut fmt::Formatter<W>) -> fmt::Result {
        match *self {
            Request::Read(asked) => write!(f, "{} {}", Command::Read, asked.path),
            Request::Check(asked) => write!(f, "{} {}", Command::Check, asked.path),
            Request::AtShelf(asked) => write!(f, "{asked}"),
        }
    }
}

// The file and the edition of `COMMAND FILE [under EDITION]`.
fn file_asked(words: &[String]) -> Option<FileAsked<'_>>
    ensures { MatchOption result ((f : FileAsked) → ¬ (AsksFile words.now f)) (λ f. AsksFile words.now f) }
{
    let edition = edition_asked(words)?;
    Some(FileAsked {
        path: words[1].as_str(),
        edition,
    })
}

// The entry and the edition of `COMMAND ENTRY [under EDITION]`.
fn entry_asked(words: &[String]) -> Option<EntryAsked>
    ensures { MatchOption result ((a : EntryAsked) → ¬ (AsksEntry words.now a)) (λ a. AsksEntry words.now a) }
{
    let edition = edition_asked(words)?;
    let entry = words[1].as_str().parse().ok()?;
    Some(EntryAsked { entry, edition })
}

// The entry, the edition and the file of `COMMAND ENTRY FILE [under EDITION]`.
fn copy_asked(words: &[String]) -> Option<(EntryAsked, &str)>
    ensures { MatchOption result ((a : EntryAsked) (path : List ℕ) → ¬ (AsksCopy words.now a path)) (λ r. AsksCopy words.now r.0 r.1.now) }
{
    let (_, rest) = words.split_first()?;
    let edition = edition_asked(rest)?;
    let entry = rest[0].as_str().parse().ok()?;
    Some((EntryAsked { entry, edition }, rest[1].as_str()))
}

// What is asked of the command by its words; none where they are not put as it wants them.
pub fn request_of<'a>(command: Command, words: &'a [String]) -> Option<Request<'a>>
    ensures { MatchOption result ((r : Request) → ¬ (Asks command words.now r)) (λ r. Asks command words.now r) }
{
    match (command, words) {
        (Command::Read, _) => Some(Request::Read(file_asked(words)?)),
        (Command::Check, _) => Some(Request::Check(file_asked(words)?)),
        (Command::TakeIn, _) => Some(Request::AtShelf(AtShelf::TakeIn(file_asked(words)?))),
        (Command::Open, [_]) => Some(Request::AtShelf(AtShelf::Open)),
        (Command::Close, [_]) => Some(Request::AtShelf(AtShelf::Close)),
        (Command::Show, _) => Some(Request::AtShelf(AtShelf::Show(entry_asked(words)?))),
        (Command::Fetch, [_, entry, number]) => Some(Request::AtShelf(AtShelf::Fetch {
            entry: entry.as_str().parse().ok()?,
            number: number.as_str().parse().ok()?,
        })),
        (Command::Balance, [_]) => Some(Request::AtShelf(AtShelf::Balance)),
        (Command::Plain, _) => {
            let (asked, path) = copy_asked(words)?;
            Some(Request::AtShelf(AtShelf::Plain { asked, path }))
        }
        _ => None,
    }
}
