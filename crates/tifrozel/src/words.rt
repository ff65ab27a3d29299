// The words of a command line.
ghost use Rattle.std.specs.Prelude.{◌≡◌, ◌≤◌, ℕ, List, true, ◌&&◌, length, is_some, IfSome, MatchOption, Some, None, ◌==◌, ◌≢◌, nat_lt, slice_index};
ghost use Rattle.tifrozel.specs.declared.words.EditionName.{EditionName};
ghost use Rattle.tifrozel.specs.declared.words.EditionName.TheVariants.{House as named_house};
ghost use Rattle.tifrozel.specs.Words.{AsksEdition, BeginWith, IsEditionNamed, IsCommandNamed, IsAsked, IsOption, SecondWrites};
ghost use Rattle.tifrozel.specs.Editions.{meant};

use record::{Bare, Edition, House, Level};
use std::alloc::{AllocError, Global};
use std::fmt;
use std::str::FromStr;

#[derive(Clone, Copy, Debug, PartialEq, Eq)]
pub enum EditionName {
    Bare,
    House,
}

// A word that names no edition.
#[derive(Clone, Copy, Debug, PartialEq, Eq)]
pub struct NoSuchEdition;

impl FromStr for EditionName {
    type Err = NoSuchEdition;

    ghost from_str_gives = { IsEditionNamed };

    fn from_str(word: &str) -> Result<EditionName, NoSuchEdition> {
        match word {
            "bare" => Ok(EditionName::Bare),
            "house" => Ok(EditionName::House),
            _ => Err(NoSuchEdition),
        }
    }
}

// An edition that is known by its name only when the program runs.
impl Edition for EditionName {
    ghost meaning = { meant };

    fn level(&self, code: u8) -> Option<Level> {
        match self {
            EditionName::Bare => Bare.level(code),
            EditionName::House => House.level(code),
        }
    }

    fn is_formed(&self, code: u8, line: &[u8]) -> bool {
        match self {
            EditionName::Bare => Bare.is_formed(code, line),
            EditionName::House => House.is_formed(code, line),
        }
    }
}

#[derive(Clone, Copy, Debug, PartialEq, Eq)]
pub enum Command {
    Read,
    Check,
    Open,
    TakeIn,
    Close,
    Show,
    Fetch,
    Balance,
    Plain,
}

impl fmt::Display for Command {
    fn fmt<W: fmt::Write>(&self, f: &mut fmt::Formatter<W>) -> fmt::Result {
        f.write_str(match self {
            Command::Read => "read",
            Command::Check => "check",
            Command::Open => "open",
            Command::TakeIn => "take-in",
            Command::Close => "close",
            Command::Show => "show",
            Command::Fetch => "fetch",
            Command::Balance => "balance",
            Command::Plain => "plain",
        })
    }
}

// How a command is written, for whoever wrote it otherwise. A type of its own, since the command alone is its word.
#[derive(Clone, Copy, Debug, PartialEq, Eq)]
pub struct Form(pub Command);

impl fmt::Display for Form {
    fn fmt<W: fmt::Write>(&self, f: &mut fmt::Formatter<W>) -> fmt::Result {
        let command = self.0;
        match command {
            Command::Read | Command::Check | Command::TakeIn => {
                write!(f, "write {command} FILE [under bare|house]")
            }
            Command::Open | Command::Close | Command::Balance => write!(f, "write {command} alone"),
            Command::Show => write!(f, "write {command} ENTRY [under bare|house], a number"),
            Command::Fetch => write!(f, "write {command} ENTRY RECORD, two numbers"),
            Command::Plain => write!(
                f,
                "write {command} ENTRY FILE [under bare|house], a number and a file"
            ),
        }
    }
}

// A word that names no command.
#[derive(Clone, Copy, Debug, PartialEq, Eq)]
pub struct NoSuchCommand;

impl FromStr for Command {
    type Err = NoSuchCommand;

    ghost from_str_gives = { IsCommandNamed };

    fn from_str(word: &str) -> Result<Command, NoSuchCommand> {
        match word {
            "read" => Ok(Command::Read),
            "check" => Ok(Command::Check),
            "open" => Ok(Command::Open),
            "take-in" => Ok(Command::TakeIn),
            "close" => Ok(Command::Close),
            "show" => Ok(Command::Show),
            "fetch" => Ok(Command::Fetch),
            "balance" => Ok(Command::Balance),
            "plain" => Ok(Command::Plain),
            _ => Err(NoSuchCommand),
        }
    }
}

// The edition that `COMMAND WORD [under EDITION]` asks for; none where the words are not so put.
pub fn edition_asked(words: &[String]) -> Option<EditionName>
    ensures words { is_some result ≡ true → 2 ≤ length words.now }
    ensures edition { MatchOption result ((e : EditionName) → ¬ (AsksEdition words.now e)) (λ e. AsksEdition words.now e) }
    ensures unnamed { length words.now ≡ 2 → result ≡ Some named_house }
    ensures ill_put { (length words.now ≢ 2) → (length words.now ≢ 4) → result ≡ None }
{
    match words {
        [_, _] => Some(EditionName::House),
        [_, _, under, name] if under.as_str() == "under" => name.as_str().parse().ok(),
        _ => None,
    }
}

// No shelf has more places.
const MOST_PLACES: usize = 500_000;

// No file has more payers than records.
pub const MOST_PAYERS: usize = 50_000;

// A number that an option gives, and the words behind it.
#[derive(Clone, Copy)]
pub struct Given<'a> {
    pub number: usize,
    pub words: &'a [String],
}

// The number behind the option of this name, where the words begin with it; else `otherwise`. None where no number stands
// there.
pub fn option<'a>(words: &'a [String], name: &str, otherwise: usize) -> Option<Given<'a>>
    ensures { MatchOption result (BeginWith name.now words.now × ((n : ℕ) → ¬ (SecondWrites words.now n))) (λ o. IsOption name.now otherwise words.now o.number o.words.now) }
{
    match words.split_first() {
        Some((first, rest)) if first.as_str() == name => {
            let (number, words) = rest.split_first()?;
            Some(Given {
                number: number.as_str().parse().ok()?,
                words,
            })
        }
        _ => Some(Given {
            number: otherwise,
            words,
        }),
    }
}

#[derive(Clone, Copy)]
pub struct Asked<'a> {
    // places on the shelf
    pub limit: usize,
    // rows of the payer table
    pub payers: usize,
    // the command, or the shelf, and what stands behind it
    pub words: &'a [String],
}

// What is asked, where the words before are `--limit N`, `--payers N`, both in this order, or none; none where they are others
// or nothing stands behind them.
pub fn options_asked(args: &[String]) -> Option<Asked<'_>>
    ensures limit { IfSome result (λ o. o.limit ≤ 500000) }
    ensures payers { IfSome result (λ o. o.payers ≤ 50000) }
    ensures some { IfSome result (λ o. 1 ≤ length o.words.now) }
    ensures asked { MatchOption result ((l p : ℕ) (ws : List _) → ¬ (IsAsked args.now l p ws)) (λ o. IsAsked args.now o.limit o.payers o.words.now) }
{
    let limit = option(args, "--limit", MOST_PLACES)?;
    let payers = option(limit.words, "--payers", MOST_PAYERS)?;
    let words = payers.words;
    if words.is_empty() {
        return None;
    }
    Some(Asked {
        limit: limit.number.min(MOST_PLACES),
        payers: payers.number.min(MOST_PAYERS),
        words,
    })
}

// The words of a line, parted by blanks.
pub fn words_of(heap: Global, line: &str) -> Result<Vec<String>, AllocError> {
    line.split_whitespace()
        .map(|word| String::from_str(heap, word))
        .try_collect(heap)
}

// Whether a line begins with `#`, and so asks for nothing.
pub fn is_comment(line: &str) -> bool
    ensures { result ≡ (nat_lt 0 (length line.now) && slice_index line.now 0 == 35) }
{
    line.as_bytes().starts_with(b"#")
}
