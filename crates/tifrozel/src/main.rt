// The program of the support desk: arguments, files and printing. Every decision is made in the library.
#![tactic(auto)]

ghost use Rattle.std.specs.Prelude.{◌≤◌};

mod answers;
mod balances;
mod checks;
mod disk;
mod files;
mod lines;
mod listing;
mod reading;
mod requests;
mod shelves;
mod words;

use answers::{Done, Undone, bytes_of, not_run, records, tell};
use archive::Archive;
use disk::{places, read_shelf};
use files::{check, read};
use requests::{Request, request_of};
use shelf::{MemoryShelf, Shelf};
use shelves::{Seat, ShelfFile, Turn, at_seat};
use std::env;
use std::io::IsTerminal;
use std::process::ExitCode;
use words::{Asked, Command, Form, MOST_PAYERS, is_comment, option, options_asked, words_of};

const USAGE: &str = "write tifrozel [--limit N] [--payers N] SHELF [COMMAND ARG ..], \
    tifrozel [--payers N] check FILE [under bare|house], or tifrozel read FILE [under bare|house]";

// Runs what is asked; `head` is its words without its edition.
fn run<S: Shelf + Drop>(
    rt: &HostRuntime,
    head: &str,
    seat: Seat<S>,
    file: &mut ShelfFile<'_>,
    request: Request,
    payers: usize,
) -> Turn<S> {
    match request {
        Request::Read(asked) => (seat, read(rt, head, asked)),
        Request::Check(asked) => (seat, check(rt, head, asked, payers)),
        Request::AtShelf(asked) => at_seat(rt, head, seat, file, asked, payers),
    }
}

// Runs the command of these words, of which there is at least one.
fn step<S: Shelf + Drop>(
    rt: &HostRuntime,
    seat: Seat<S>,
    file: &mut ShelfFile<'_>,
    words: &[String],
    payers: usize,
) -> Turn<S> {
    let Some(word) = words.first() else {
        return (seat, not_run(rt, "tifrozel", USAGE));
    };
    let word = word.as_str();
    let Ok(command) = word.parse::<Command>() else {
        return (seat, not_run(rt, word, "no such command"));
    };
    let Some(request) = request_of(command, words) else {
        return (seat, not_run(rt, word, Form(command)));
    };
    match format!(in rt.alloc(); "{request}") {
        Ok(head) => {
            let (seat, answer) = run(rt, head.as_str(), seat, file, request, payers);
            (seat, tell(rt, head.as_str(), answer))
        }
        Err(e) => (seat, Err(Undone::from(e))),
    }
}

// One line of standard input: a command, perhaps with a number of payers of its own before it.
fn step_of_line<S: Shelf + Drop>(
    rt: &HostRuntime,
    seat: Seat<S>,
    file: &mut ShelfFile<'_>,
    words: &[String],
    payers: usize,
) -> Turn<S> {
    match option(words, "--payers", payers) {
        Some(given) => step(rt, seat, file, given.words, given.number.min(MOST_PAYERS)),
        None => (seat, not_run(rt, "--payers", USAGE)),
    }
}

// Commands from standard input, one to a line; empty lines and those that begin with `#` are passed over.
fn serve<S: Shelf + Drop>(
    rt: &HostRuntime,
    seat: Seat<S>,
    file: &mut ShelfFile<'_>,
    payers: usize,
) -> Done {
    let heap = rt.alloc();
    let mut seat = seat;
    let mut good = true;
    for line in rt.lines(heap) {
        let line = line?;
        let words = words_of(heap, line.as_str())?;
        if words.is_empty() || is_comment(line.as_str()) {
            continue;
        }
        let (after, answer) = step_of_line(rt, seat, file, &words, payers);
        seat = after;
        good = good && answer.is_ok();
    }
    if good { Ok(()) } else { Err(Undone::Told) }
}

// The command, or those of standard input where there is none.
fn commands<S: Shelf + Drop>(
    rt: &HostRuntime,
    seat: Seat<S>,
    file: &mut ShelfFile<'_>,
    words: &[String],
    payers: usize,
) -> Done {
    if words.is_empty() {
        return serve(rt, seat, file, payers);
    }
    let (_, answer) = step(rt, seat, file, words, payers);
    answer
}

// Opens the shelf, and runs the commands at it.
fn at_shelf<S: Shelf + Drop>(
    rt: &HostRuntime,
    shelf: S,
    file: &mut ShelfFile<'_>,
    words: &[String],
    payers: usize,
) -> Done {
    let seat = match Archive::open(shelf) {
        Ok(archive) => Seat::At(archive),
        Err(fault) => Seat::Shut(fault),
    };
    commands(rt, seat, file, words, payers)
}

// The commands at the shelf that lies in the file of this path.
fn at_file(rt: &HostRuntime, asked: Asked, path: &str, words: &[String]) -> Done
    requires { asked.limit ≤ 500000 }
{
    let bytes = bytes_of(rt, path, path, read_shelf(rt, path))?;
    let size = bytes.len();
    if size % 80 != 0 {
        return not_run(rt, path, "its length is no multiple of 80");
    }
    let many = records(size / 80);
    if size > LONG && rt.stderr().is_terminal() {
        eprintln!(rt; "{path}: opening {many}")?;
    }
    let mut places = places(rt.alloc(), &bytes, asked.limit)?;
    let shelf = MemoryShelf::new(&mut places, size / 80);
    let mut file = ShelfFile { path, size };
    at_shelf(rt, shelf, &mut file, words, asked.payers)
}

// Commands that need no shelf: the one of these words, or those of standard input.
fn at_none(rt: &HostRuntime, words: &[String], payers: usize) -> Done {
    let mut nowhere = ShelfFile { path: "", size: 0 };
    commands(
        rt,
        Seat::<MemoryShelf>::NoShelf,
        &mut nowhere,
        words,
        payers,
    )
}

// From so many bytes on, a shelf takes a while to open.
const LONG: usize = 8_000_000;

// What the arguments ask: a command that needs no shelf, or commands at a shelf; without any, commands from standard input.
fn asked(rt: &HostRuntime) -> Done {
    let args: Vec<String> = env::args(rt)?.skip(1).collect(rt.alloc())?;
    if args.is_empty() {
        return at_none(rt, &args, MOST_PAYERS);
    }
    let Some(asked) = options_asked(&args) else {
        return not_run(rt, "tifrozel", USAGE);
    };
    let Some((first, words)) = asked.words.split_first() else {
        return not_run(rt, "tifrozel", USAGE);
    };
    match first.as_str() {
        "check" | "read" => at_none(rt, asked.words, asked.payers),
        option if option.starts_with("--") => not_run(rt, "tifrozel", USAGE),
        path => at_file(rt, asked, path, words),
    }
}

// Status 1 where a command was refused or could not run. Why has been printed by then.
fn main(rt: HostRuntime) -> ExitCode {
    let answer = asked(&rt);
    if tell(&rt, "tifrozel", answer).is_ok() {
        ExitCode::SUCCESS
    } else {
        ExitCode::FAILURE
    }
}
