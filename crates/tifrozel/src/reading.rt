// The commands that read an entry: `show`, `fetch` and `plain`.
ghost use Rattle.std.specs.Prelude.{◌≡◌, true, is_ok, IfOk, OnOk, MatchResult, Ok, Err};
ghost use Rattle.filing.specs.Volumes.{entries_of};
ghost use Rattle.volume.specs.Taking.{fetched};
ghost use Rattle.tifrozel.specs.Commands.{entry_rows, entry_copy};
ghost use Rattle.tifrozel.specs.Editions.{meant};

use crate::answers::{Done, bytes, not_run, refused, rows, say};
use crate::disk::{Created, create};
use crate::lines::{RecordLine, RowLine};
use crate::requests::EntryAsked;
use archive::Archive;
use field::ReferenceForm;
use filing::VolumeFault;
use record::{Edition, Row};
use shelf::Shelf;
use std::alloc::{AllocError, Global};

const NO_ROW: Row = Row {
    number: 0,
    code: 0,
    party: 0,
    money: 0,
    serial: 0,
    reference: ReferenceForm::Absent,
};

// The rows of an entry, from a table with a row for each of its records. It is not inlined, so that bench/ can count it by itself.
#[inline(never)]
fn entry_rows<S: Shelf + Drop, E: Edition>(
    heap: Global,
    archive: &Archive<S>,
    entry: usize,
    edition: &E,
) -> Result<Result<Vec<Row>, VolumeFault>, AllocError>
    ensures { IfOk result (λ answer. MatchResult answer (λ rows. entry_rows (E.meaning edition.now) entry (entries_of (S.records archive.now.shelf)) ≡ Ok rows.items) (λ fault. entry_rows (E.meaning edition.now) entry (entries_of (S.records archive.now.shelf)) ≡ Err fault)) }
{
    let many = archive.records_of(entry).unwrap_or(0);
    let mut table = vec![in heap; NO_ROW; many]?;
    match archive.show(entry, edition, &mut table) {
        Ok(filled) => {
            table.truncate(filled);
            Ok(Ok(table))
        }
        Err(fault) => Ok(Err(fault)),
    }
}

// The bytes of an entry's plain copy, from a buffer with a line for each of its records. It is not inlined, so that bench/ can count
// it by itself.
#[inline(never)]
fn entry_copy<S: Shelf + Drop, E: Edition>(
    heap: Global,
    archive: &Archive<S>,
    entry: usize,
    edition: &E,
) -> Result<Result<Vec<u8>, VolumeFault>, AllocError>
    ensures { IfOk result (λ answer. MatchResult answer (λ bytes. entry_copy (E.meaning edition.now) entry (entries_of (S.records archive.now.shelf)) ≡ Ok bytes.items) (λ fault. entry_copy (E.meaning edition.now) entry (entries_of (S.records archive.now.shelf)) ≡ Err fault)) }
{
    let many = archive.records_of(entry).unwrap_or(0);
    let mut buffer = vec![in heap; 0u8; 82 * many]?;
    match archive.plain_copy(entry, edition, &mut buffer) {
        Ok(filled) => {
            buffer.truncate(filled);
            Ok(Ok(buffer))
        }
        Err(fault) => Ok(Err(fault)),
    }
}

// The rows as lines, one for each, in one text.
fn lines_of(heap: Global, rows: &[Row]) -> Result<String, AllocError> {
    let mut lines = String::new(heap);
    for row in rows {
        let row = RowLine(*row);
        let line = format!(in heap; "{row}")?;
        lines.push_str(line.as_str())?;
    }
    Ok(lines)
}

pub fn show<S: Shelf + Drop>(
    rt: &HostRuntime,
    head: &str,
    archive: &Archive<S>,
    asked: EntryAsked,
) -> Done
    ensures { OnOk result (is_ok (entry_rows (meant asked.edition) asked.entry (entries_of (S.records archive.now.shelf))) ≡ true) }
{
    match entry_rows(rt.alloc(), archive, asked.entry, &asked.edition)? {
        Ok(table) => {
            let many = rows(table.len());
            let lines = lines_of(rt.alloc(), &table)?;
            let lines = lines.as_str();
            println!(rt; "{head}: {many}")?;
            print!(rt; "{lines}")?;
            Ok(())
        }
        Err(fault) => refused(rt, head, fault),
    }
}

pub fn fetch<S: Shelf + Drop>(
    rt: &HostRuntime,
    head: &str,
    archive: &Archive<S>,
    entry: usize,
    number: usize,
) -> Done
    ensures { OnOk result (is_ok (fetched entry number (entries_of (S.records archive.now.shelf))) ≡ true) }
{
    let mut record = [0u8; 80];
    if let Err(fault) = archive.fetch(entry, number, &mut record) {
        return refused(rt, head, fault);
    }
    let line = RecordLine(record);
    println!(rt; "{head}:")?;
    print!(rt; "{line}")?;
    Ok(())
}

// Puts the bytes into a new file, and says how many they are. What has the file's name already is left as it is, and told.
fn put_copy(rt: &HostRuntime, head: &str, path: &str, copy: &[u8]) -> Done {
    match create(rt, path, copy) {
        Ok(Created::New) => say(rt, head, bytes(copy.len())),
        Ok(Created::There) => not_run(rt, head, format_args!("{path} is there already")),
        Err(e) => not_run(rt, head, format_args!("cannot write {path}: {e}")),
    }
}

pub fn plain<S: Shelf + Drop>(
    rt: &HostRuntime,
    head: &str,
    archive: &Archive<S>,
    asked: EntryAsked,
    path: &str,
) -> Done
    ensures { OnOk result (is_ok (entry_copy (meant asked.edition) asked.entry (entries_of (S.records archive.now.shelf))) ≡ true) }
{
    match entry_copy(rt.alloc(), archive, asked.entry, &asked.edition)? {
        Ok(copy) => put_copy(rt, head, path, &copy),
        Err(fault) => refused(rt, head, fault),
    }
}
