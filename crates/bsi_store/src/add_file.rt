//! Opens row files, and locks the file of the saved index that rows are added to.

ghost use Rattle.std.specs.Prelude.{◌≡◌, IfErr, IfOk, length};
ghost use Rattle.std.specs.List.{Contains};
ghost use Rattle.bsi_store.specs.Saving.{IsNotAboutBytes};
ghost use Rattle.bsi_store.specs.Faults.{NamesPath};

use crate::{FileFault, LockFile, StoreFault, open_file};
use bsi_answers::FilesFault;
use std::fs::{OpenFile, OpenOptions};
use std::io::Read;
use std::os::unix::fs::MetadataExt;
use std::rt::Files;
use std::time::{Clock, Duration};
use std::{fs, io, thread};

/// How often a lock is tried.
const LOCK_TRIES: u32 = 100;

/// How many milliseconds are waited after each try.
const LOCK_PAUSE: u64 = 100;

/// Opens files for reading, in their order.
pub(crate) fn open_each<'a, R: AllocGlobal + Files<File = S>, S: Read + Drop>(
    rt: &R,
    paths: &[&'a str],
) -> Result<Vec<S>, StoreFault<'a>>
    ensures many { IfOk result (λ files. length files.items ≡ length paths.now) }
    ensures fault { IfErr result IsNotAboutBytes }
    ensures named { IfErr result (NamesPath (Contains paths.now)) }
{
    let mut files = Vec::with_capacity(rt.alloc(), paths.len())?;
    'files: for path in paths {
        let file = open_file(rt, path)?;
        files.push(file).map_err(|_| FilesFault::NoMemory)?;
    }
    Ok(files)
}

/// Opens the file of a path for reading and for further segments, and locks it beside those who read it.
pub(crate) fn open_to_add<'a, R: Files<File = S>, S: OpenFile + LockFile + Drop>(
    rt: &R,
    path: &'a str,
) -> Result<S, StoreFault<'a>>
    ensures fault { IfErr result IsNotAboutBytes }
    ensures named { IfErr result (NamesPath (λ named. named ≡ path.entry)) }
{
    let mut options = OpenOptions::new();
    options.read(true).append(true);
    let Ok(file) = options.open(rt, path) else {
        return Err(StoreFault::CannotOpen(path));
    };
    match lock_to_read(&file) {
        Ok(true) => Ok(file),
        Ok(false) => Err(StoreFault::Unusable(path, FileFault::InUse)),
        Err(error) => Err(StoreFault::unwritten(path, &error)),
    }
}

/// Locks a file beside those who read it. It returns false where a command writes it, and refuses what is no regular file.
fn lock_to_read<S: OpenFile + LockFile>(file: &S) -> io::Result<bool> {
    if !file.metadata()?.is_file() {
        return Err(io::Error::from(io::ErrorKind::InvalidInput));
    }
    file.try_lock_shared()
}

/// Locks the file of a path for this command alone, and waits while another command has it, 10 seconds at most. It refuses
/// one that this has then, or in whose place another was put since it was opened.
pub(crate) fn lock_to_add<'a, R: Clock + Files<File = S>, S: OpenFile + LockFile>(
    rt: &R,
    path: &'a str,
    file: &S,
) -> Result<(), StoreFault<'a>>
    ensures fault { IfErr result IsNotAboutBytes }
    ensures named { IfErr result (NamesPath (λ named. named ≡ path.entry)) }
{
    match lock_current_file(rt, path, file) {
        Ok(true) => Ok(()),
        Ok(false) => Err(StoreFault::Unusable(path, FileFault::InUse)),
        Err(error) => Err(StoreFault::unwritten(path, &error)),
    }
}

/// Locks a file for this command alone. It returns false where another command has locked it, or has put another in
/// its place.
fn lock_current_file<R: Clock + Files<File = S>, S: OpenFile + LockFile>(
    rt: &R,
    path: &str,
    file: &S,
) -> io::Result<bool> {
    'tries: for _ in 0..LOCK_TRIES {
        if file.try_lock_exclusive()? {
            return is_at(rt, path, file);
        }
        thread::sleep(rt, Duration::from_millis(LOCK_PAUSE));
    }
    Ok(false)
}

/// Returns whether a path still names a file that was opened by it.
pub(crate) fn is_at<R: Files<File = S>, S: OpenFile>(
    rt: &R,
    path: &str,
    file: &S,
) -> io::Result<bool> {
    let here = file.metadata()?;
    match fs::metadata(rt, path) {
        Ok(there) => Ok(here.ino() == there.ino() && here.dev() == there.dev()),
        Err(error) if error.kind() == io::ErrorKind::NotFound => Ok(false),
        Err(error) => Err(error),
    }
}
