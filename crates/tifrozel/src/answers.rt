// What every command prints that does not do what it was asked.
ghost use Rattle.std.specs.Prelude.{◌≡◌, false, is_ok, IfOk, Ok};
ghost use Rattle.tifrozel.specs.declared.answers.Undone.TheVariants.{System};

use filing::VolumeFault;
use manual::Cause;
use record::RecordFault;
use refusal::Refusal;
use std::alloc::AllocError;
use std::{fmt, io};

// Why a command did not do what it was asked.
#[derive(Debug, Drop)]
pub enum Undone {
    // what is to be said of it has been printed
    Told,
    // want of memory, or input or output that failed
    System(io::Error),
}

pub type Done = Result<(), Undone>;

impl From<io::Error> for Undone {
    ghost from_gives = { λ e r. r ≡ System e };

    fn from(e: io::Error) -> Undone {
        Undone::System(e)
    }
}

impl From<AllocError> for Undone {
    fn from(e: AllocError) -> Undone {
        Undone::System(io::Error::from(e))
    }
}

// Prints what failed, where nothing has been said of it yet.
pub fn tell(rt: &HostRuntime, head: &str, answer: Done) -> Done
    ensures { is_ok result ≡ is_ok answer }
{
    match answer {
        Err(Undone::System(e)) => not_run(rt, head, e),
        told => told,
    }
}

// What a command did.
pub fn say<W: fmt::Display + Drop>(rt: &HostRuntime, head: &str, done: W) -> Done {
    println!(rt; "{head}: {done}")?;
    Ok(())
}

// A command that cannot run says why. `head` is the command's words without its edition, here and below.
pub fn not_run<W: fmt::Display + Drop>(rt: &HostRuntime, head: &str, why: W) -> Done
    ensures { is_ok result ≡ false }
{
    println!(rt; "{head}: not run, {why}")?;
    Err(Undone::Told)
}

// A refusal, in the words of its fault.
pub fn refused(rt: &HostRuntime, head: &str, fault: VolumeFault) -> Done
    ensures { is_ok result ≡ false }
{
    let refusal = Refusal::from(fault);
    println!(rt; "{head}: refused {refusal}")?;
    if let VolumeFault::File(file) | VolumeFault::Unreadable(_, file) = fault
        && let Cause::Unreadable(RecordFault::Layout(field)) = file.cause
    {
        eprintln!(rt; "the field is {field}")?;
    }
    Err(Undone::Told)
}

// The bytes of a file; where it cannot be read, the command says so.
pub fn bytes_of(
    rt: &HostRuntime,
    head: &str,
    path: &str,
    read: io::Result<Vec<u8>>,
) -> Result<Vec<u8>, Undone>
    ensures { IfOk result (λ bytes. read ≡ Ok bytes) }
{
    match read {
        Ok(bytes) => Ok(bytes),
        Err(e) => {
            println!(rt; "{head}: not run, cannot read {path}: {e}")?;
            Err(Undone::Told)
        }
    }
}

// A number and the noun for so many.
#[derive(Clone, Copy, Debug, PartialEq, Eq)]
pub struct Counted {
    pub many: usize,
    pub one: &'static str,
    pub more: &'static str,
}

impl fmt::Display for Counted {
    fn fmt<W: fmt::Write>(&self, f: &mut fmt::Formatter<W>) -> fmt::Result {
        let many = self.many;
        let noun = if many == 1 { self.one } else { self.more };
        write!(f, "{many} {noun}")
    }
}

pub fn records(many: usize) -> Counted
    ensures { result.many ≡ many }
{
    Counted {
        many,
        one: "record",
        more: "records",
    }
}

pub fn rows(many: usize) -> Counted
    ensures { result.many ≡ many }
{
    Counted {
        many,
        one: "row",
        more: "rows",
    }
}

pub fn bytes(many: usize) -> Counted
    ensures { result.many ≡ many }
{
    Counted {
        many,
        one: "byte",
        more: "bytes",
    }
}

pub fn entries(many: usize) -> Counted
    ensures { result.many ≡ many }
{
    Counted {
        many,
        one: "entry",
        more: "entries",
    }
}
