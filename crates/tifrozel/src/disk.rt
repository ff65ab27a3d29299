// Files on disk: a shelf's file, read once, and put whole in the place of the old one after each call that lays something; and new
// files, which take no other's place.
ghost use Rattle.std.specs.Prelude.{◌≡◌, ◌≤◌, IfOk};
ghost use Rattle.tifrozel.specs.Places.{with_places};

use std::alloc::{AllocError, Global};
use std::fs::File;
use std::io::{Error, ErrorKind, Write};
use std::{fs, io, process};

// The bytes of a shelf's file; none where it is not there.
pub fn read_shelf(rt: &HostRuntime, path: &str) -> io::Result<Vec<u8>> {
    match fs::read(rt, path) {
        Err(e) if e.kind() == ErrorKind::NotFound => Ok(Vec::new(rt.alloc())),
        read => read,
    }
}

// So many places of 80 bytes: those of the file as far as they go, then zeros.
pub fn places(heap: Global, file: &[u8], limit: usize) -> Result<Vec<u8>, AllocError>
    requires { limit ≤ 500000 }
    ensures { IfOk result (λ b. b.items ≡ with_places limit file.now) }
{
    let kept = &file[..file.len().min(80 * limit)];
    let mut bytes = Vec::new(heap);
    bytes.extend_from_slice(kept)?;
    bytes.resize(80 * limit, 0)?;
    Ok(bytes)
}

// The folder that a file lies in.
fn folder_of(path: &str) -> &str {
    match path.rsplit_once('/') {
        None => ".",
        Some(("", _)) => "/",
        Some((folder, _)) => folder,
    }
}

// Where the file itself lies, if it is there and the path leads to it by a link.
fn target_of(rt: &HostRuntime, path: &str) -> io::Result<String> {
    match fs::canonicalize(rt, path) {
        Ok(target) => Ok(String::from_str(rt.alloc(), target.as_str())?),
        Err(e) if e.kind() == ErrorKind::NotFound => Ok(String::from_str(rt.alloc(), path)?),
        Err(e) => Err(e),
    }
}

// The length of a file; 0 where it is not there.
fn size_of(rt: &HostRuntime, path: &str) -> io::Result<u64> {
    match fs::metadata(rt, path) {
        Ok(found) => Ok(found.len()),
        Err(e) if e.kind() == ErrorKind::NotFound => Ok(0),
        Err(e) => Err(e),
    }
}

// What the name of an unfinished file has in it: a shelf's file until it takes the old one's place, and a new file until it gets its
// name. A shelf's file of such a name that an earlier run left is written over, so no shelf should be called so.
const UNFINISHED: &str = ".tifrozel-unfinished";

// Puts the bytes in the place of a file that was `known` bytes long: written beside it, synced, then renamed. Whoever else
// works at a shelf in that folder waits meanwhile, and a file that is not as long as it was is left as it is.
pub fn replace(rt: &HostRuntime, path: &str, known: usize, bytes: &[u8]) -> io::Result<()> {
    let target = target_of(rt, path)?;
    let target = target.as_str();
    let folder = File::open(rt, folder_of(target))?;
    folder.lock()?;
    if size_of(rt, target)? != known as u64 {
        return Err(Error::new(ErrorKind::Other, "it has changed meanwhile"));
    }
    let beside = format!(in rt.alloc(); "{target}{UNFINISHED}")?;
    let mut file = File::create(rt, beside.as_str())?;
    if let Ok(found) = fs::metadata(rt, target) {
        file.set_permissions(found.permissions())?;
    }
    file.write_all(bytes)?;
    file.sync_all()?;
    fs::rename(rt, beside.as_str(), target)?;
    folder.sync_all()
}

// What came of writing a new file.
#[derive(Clone, Copy, Debug, PartialEq, Eq)]
pub enum Created {
    New,
    // something has its name already, and was left as it is
    There,
}

// Writes the bytes to a file that has just been made, and gives it this name as well, unless something has that name.
fn write_and_name(
    rt: &HostRuntime,
    mut file: File,
    beside: &str,
    path: &str,
    bytes: &[u8],
) -> io::Result<Created> {
    file.write_all(bytes)?;
    file.sync_all()?;
    match fs::hard_link(rt, beside, path) {
        Ok(()) => Ok(Created::New),
        Err(e) if e.kind() == ErrorKind::AlreadyExists => Ok(Created::There),
        Err(e) => Err(e),
    }
}

// Writes a new file with these bytes, whole or not at all: written under a name of this process's own, synced, and only then given
// its name as well. Whether something has that name is asked first, so that nothing is written in vain. Giving the name fails too
// where something has it, be it a link that leads nowhere, so what has come meanwhile is not lost.
pub fn create(rt: &HostRuntime, path: &str, bytes: &[u8]) -> io::Result<Created> {
    if fs::symlink_metadata(rt, path).is_ok() {
        return Ok(Created::There);
    }
    if path.ends_with(UNFINISHED) {
        return Err(Error::new(
            ErrorKind::InvalidInput,
            "a shelf that is being written has such a name",
        ));
    }
    let name = folder_of(path);
    let folder = File::open(rt, name)?;
    folder.lock()?;
    let id = process::id(rt.process());
    let beside = format!(in rt.alloc(); "{name}/{UNFINISHED}-{id}")?;
    let beside = beside.as_str();
    let file = File::create_new(rt, beside)?;
    let created = write_and_name(rt, file, beside, path, bytes);
    // where this fails the file is whole all the same
    let _ = fs::remove_file(rt, beside);
    let created = created?;
    folder.sync_all()?;
    Ok(created)
}

#[cfg(test)]
mod tests {
    use super::{Created, create, read_shelf, replace, write_and_name};
    use std::fs::File;
    use std::os::unix::fs::symlink;
    use std::{env, fs, io, process};

    // What was written is read back whole, a second writing takes the place of the first, and one that knows the file
    // otherwise leaves it as it is.
    #[test]
    fn written_and_read_back(rt: HostRuntime) -> io::Result<()> {
        let folder = env::temp_dir(&rt)?;
        let folder = folder.as_str();
        let id = process::id(rt.process());
        let path = format!(in rt.alloc(); "{folder}/tifrozel-{id}.shelf")?;
        let path = path.as_str();
        assert_eq!(rt; read_shelf(&rt, path)?.len(), 0);
        replace(&rt, path, 0, &[b'1'; 80])?;
        replace(&rt, path, 80, &[b'2'; 160])?;
        assert!(rt; replace(&rt, path, 80, &[b'3'; 240]).is_err());
        let bytes = read_shelf(&rt, path)?;
        fs::remove_file(&rt, path)?;
        assert_eq!(rt; bytes.len(), 160);
        assert!(rt; bytes.iter().all(|byte| *byte == b'2'));
        Ok(())
    }

    // A folder of this test's own, new and empty.
    fn fresh_folder(rt: &HostRuntime, name: &str) -> io::Result<String> {
        let folder = env::temp_dir(rt)?;
        let folder = folder.as_str();
        let id = process::id(rt.process());
        let path = format!(in rt.alloc(); "{folder}/tifrozel-{name}-{id}")?;
        fs::create_dir(rt, path.as_str())?;
        Ok(path)
    }

    // A new file has all the bytes, and nothing is left beside it.
    #[test]
    fn new_file(rt: HostRuntime) -> io::Result<()> {
        let folder = fresh_folder(&rt, "new")?;
        let folder = folder.as_str();
        let path = format!(in rt.alloc(); "{folder}/copy")?;
        let path = path.as_str();
        assert_eq!(rt; create(&rt, path, &[b'1'; 164])?, Created::New);
        let bytes = fs::read(&rt, path)?;
        fs::remove_file(&rt, path)?;
        fs::remove_dir(&rt, folder)?;
        assert_eq!(rt; bytes.as_slice(), [b'1'; 164].as_slice());
        Ok(())
    }

    // What has the name is left as it was, a folder too, and nothing is left beside it.
    #[test]
    fn name_taken(rt: HostRuntime) -> io::Result<()> {
        let folder = fresh_folder(&rt, "taken")?;
        let folder = folder.as_str();
        let path = format!(in rt.alloc(); "{folder}/copy")?;
        let path = path.as_str();
        assert_eq!(rt; create(&rt, path, b"first")?, Created::New);
        assert_eq!(rt; create(&rt, path, b"second")?, Created::There);
        assert_eq!(rt; create(&rt, folder, b"second")?, Created::There);
        let bytes = fs::read(&rt, path)?;
        fs::remove_file(&rt, path)?;
        fs::remove_dir(&rt, folder)?;
        assert_eq!(rt; bytes.as_slice(), b"first".as_slice());
        Ok(())
    }

    // What came to have the name only after it was asked for is left as it was: a file, and a link that leads nowhere.
    #[test]
    fn name_taken_meanwhile(rt: HostRuntime) -> io::Result<()> {
        let folder = fresh_folder(&rt, "meanwhile")?;
        let folder = folder.as_str();
        let path = format!(in rt.alloc(); "{folder}/copy")?;
        let path = path.as_str();
        let link = format!(in rt.alloc(); "{folder}/link")?;
        let link = link.as_str();
        let beside = format!(in rt.alloc(); "{folder}/beside")?;
        let beside = beside.as_str();
        assert_eq!(rt; create(&rt, path, b"first")?, Created::New);
        symlink(&rt, "nowhere", link)?;
        let file = File::create_new(&rt, beside)?;
        let answer = write_and_name(&rt, file, beside, path, b"second")?;
        assert_eq!(rt; answer, Created::There);
        assert!(rt; fs::exists(&rt, beside)?);
        fs::remove_file(&rt, beside)?;
        let file = File::create_new(&rt, beside)?;
        let answer = write_and_name(&rt, file, beside, link, b"second")?;
        assert_eq!(rt; answer, Created::There);
        assert!(rt; fs::symlink_metadata(&rt, link)?.is_symlink());
        let bytes = fs::read(&rt, path)?;
        fs::remove_file(&rt, beside)?;
        fs::remove_file(&rt, link)?;
        fs::remove_file(&rt, path)?;
        fs::remove_dir(&rt, folder)?;
        assert_eq!(rt; bytes.as_slice(), b"first".as_slice());
        Ok(())
    }

    // A link is left as it was, and so is what it leads to, or that there is nothing.
    #[test]
    fn link_taken(rt: HostRuntime) -> io::Result<()> {
        let folder = fresh_folder(&rt, "link")?;
        let folder = folder.as_str();
        let path = format!(in rt.alloc(); "{folder}/copy")?;
        let path = path.as_str();
        let link = format!(in rt.alloc(); "{folder}/link")?;
        let link = link.as_str();
        symlink(&rt, path, link)?;
        assert_eq!(rt; create(&rt, link, b"second")?, Created::There);
        assert!(rt; !fs::exists(&rt, path)?);
        assert_eq!(rt; create(&rt, path, b"first")?, Created::New);
        assert_eq!(rt; create(&rt, link, b"second")?, Created::There);
        assert!(rt; fs::symlink_metadata(&rt, link)?.is_symlink());
        let bytes = fs::read(&rt, path)?;
        fs::remove_file(&rt, link)?;
        fs::remove_file(&rt, path)?;
        fs::remove_dir(&rt, folder)?;
        assert_eq!(rt; bytes.as_slice(), b"first".as_slice());
        Ok(())
    }

    // A name that a shelf has while it is being written is taken by no copy, though nothing has it.
    #[test]
    fn name_of_unfinished(rt: HostRuntime) -> io::Result<()> {
        let folder = fresh_folder(&rt, "unfinished")?;
        let folder = folder.as_str();
        let path = format!(in rt.alloc(); "{folder}/estate.shelf.tifrozel-unfinished")?;
        let path = path.as_str();
        let created = create(&rt, path, b"first");
        let there = fs::exists(&rt, path)?;
        fs::remove_dir(&rt, folder)?;
        assert!(rt; created.is_err());
        assert!(rt; !there);
        Ok(())
    }

    // Where there is no such folder, the file cannot be written.
    #[test]
    fn no_folder(rt: HostRuntime) -> io::Result<()> {
        let folder = fresh_folder(&rt, "none")?;
        let folder = folder.as_str();
        let path = format!(in rt.alloc(); "{folder}/none/copy")?;
        let created = create(&rt, path.as_str(), b"first");
        fs::remove_dir(&rt, folder)?;
        assert!(rt; created.is_err());
        Ok(())
    }
}
