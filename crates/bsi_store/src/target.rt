//! Finds what is at the path that `bsi save` writes to (`SaveTarget`), locks it, and refuses what must not be replaced.

ghost use Rattle.std.specs.Prelude.{◌≡◌, false, IfErr, IfOk};
ghost use Rattle.bsi_segments.specs.Segments.{MayBegin};
ghost use Rattle.bsi_store.specs.Saving.{IsMet, IsNotAboutBytes};
ghost use Rattle.bsi_store.specs.Faults.{NamesPath};

use crate::add_file::is_at;
use crate::{FileFault, LockFile, StoreFault, open_file};
use bsi_storage::may_begin;
use std::fs::OpenFile;
use std::io::Read;
use std::path::{Path, PathBuf};
use std::rt::Files;
use std::{fs, io};

/// The target of a save.
#[derive(Drop)]
pub(crate) struct SaveTarget<'a, S: Drop> {
    /// The path as it was written.
    pub(crate) path: &'a str,
    /// The path of the file itself, if the other one is that of a link.
    linked: Option<PathBuf>,
    /// The file that is there, if there is one. It is locked beside those who read it, so that no command adds to it.
    pub(crate) old: Option<S>,
    /// The folder in which it is. It is opened first, so that rows are not read in vain where it can't be.
    pub(crate) folder: S,
}

impl<'a, S: Read + OpenFile + LockFile + Drop> SaveTarget<'a, S> {
    /// Finds what is at a path. It refuses an empty path, what is no regular file, a link to nothing, a file that a
    /// command adds to and, unless by force, one that has bytes and does not begin as a saved index.
    pub(crate) fn find<R: AllocGlobal + Files<File = S>>(
        rt: &R,
        path: &'a str,
        force: bool,
    ) -> Result<SaveTarget<'a, S>, StoreFault<'a>>
        ensures path { IfOk result (λ target. target.path ≡ path.entry) }
        ensures fault { IfErr result (IsMet S.remaining) }
        ensures named { IfErr result (NamesPath (λ named. named ≡ path.entry)) }
    {
        let existing = match find_existing(rt, path) {
            Ok(existing) => existing,
            Err(error) => return Err(StoreFault::unwritten(path, &error)),
        };
        match existing {
            Existing::Nothing => {
                let folder = open_folder(rt, path, path)?;
                Ok(SaveTarget {
                    path,
                    linked: None,
                    old: None,
                    folder,
                })
            }
            Existing::File(linked) => {
                let old = open_old(rt, path, force)?;
                let folder = open_folder(rt, path, linked_or(&linked, path))?;
                Ok(SaveTarget {
                    path,
                    linked,
                    old: Some(old),
                    folder,
                })
            }
        }
    }

    /// Returns the path of the file itself.
    pub(crate) fn file_path(&self) -> &str {
        linked_or(&self.linked, self.path)
    }

    /// Returns whether what was found there is still there.
    pub(crate) fn is_unchanged<R: Files<File = S>>(&self, rt: &R) -> io::Result<bool> {
        match &self.old {
            Some(old) => is_at(rt, self.path, old),
            None => Ok(!fs::exists(rt, self.path)?),
        }
    }
}

/// Returns the path of the file that a link leads to, or the other one.
fn linked_or<'p>(linked: &'p Option<PathBuf>, path: &'p str) -> &'p str {
    match linked {
        Some(linked) => linked.as_str(),
        None => path,
    }
}

/// Opens the folder of the file of a path, which may be that of a link.
fn open_folder<'a, R: Files<File = S>, S: Drop>(
    rt: &R,
    path: &'a str,
    target: &str,
) -> Result<S, StoreFault<'a>>
    ensures fault { IfErr result IsNotAboutBytes }
    ensures named { IfErr result (NamesPath (λ named. named ≡ path.entry)) }
{
    match fs::open(rt, folder_of(target)) {
        Ok(folder) => Ok(folder),
        Err(error) => Err(StoreFault::unwritten(path, &error)),
    }
}

/// Returns the folder of a path.
fn folder_of(path: &str) -> &str {
    match Path::new(path).parent() {
        Some(folder) if !folder.as_str().is_empty() => folder.as_str(),
        _ => ".",
    }
}

/// What a path names.
#[derive(Drop)]
enum Existing {
    /// Nothing.
    Nothing,
    /// A regular file, which has this path if the other one is that of a link.
    File(Option<PathBuf>),
}

/// Looks what a path names, and follows links. It refuses an empty path, a link to nothing, and what is no regular file.
fn find_existing<R: AllocGlobal + Files>(rt: &R, path: &str) -> io::Result<Existing> {
    if path.is_empty() {
        return Err(io::Error::from(io::ErrorKind::NotFound));
    }
    match fs::symlink_metadata(rt, path) {
        Ok(metadata) if metadata.is_file() => Ok(Existing::File(None)),
        Ok(metadata) if metadata.is_symlink() => follow_link(rt, path),
        Ok(_) => Err(io::Error::from(io::ErrorKind::InvalidInput)),
        Err(error) if error.kind() == io::ErrorKind::NotFound => Ok(Existing::Nothing),
        Err(error) => Err(error),
    }
}

/// Looks what a link names. It refuses one to nothing, and what is no regular file.
fn follow_link<R: AllocGlobal + Files>(rt: &R, path: &str) -> io::Result<Existing> {
    let linked = fs::canonicalize(rt, path)?;
    if !fs::metadata(rt, linked.as_str())?.is_file() {
        return Err(io::Error::from(io::ErrorKind::InvalidInput));
    }
    Ok(Existing::File(Some(linked)))
}

/// Opens the file that is to be replaced, and locks it beside those who read it. It refuses one that a command adds to
/// and, unless by force, one that has bytes and does not begin as a saved index.
fn open_old<'a, R: Files<File = S>, S: Read + LockFile + Drop>(
    rt: &R,
    path: &'a str,
    force: bool,
) -> Result<S, StoreFault<'a>>
    ensures begins { force ≡ false → IfOk result (λ old.
        (file : S) × MayBegin (S.remaining file) (S.remaining old)) }
    ensures fault { IfErr result (IsMet S.remaining) }
    ensures named { IfErr result (NamesPath (λ named. named ≡ path.entry)) }
{
    let mut old = open_file(rt, path)?;
    // A file that can't be locked here is read without.
    if matches!(old.try_lock_shared(), Ok(false)) {
        return Err(StoreFault::Unusable(path, FileFault::InUse));
    }
    if force {
        return Ok(old);
    }
    match may_begin(&mut old) {
        Ok(true) => Ok(old),
        Ok(false) => Err(StoreFault::Unusable(path, FileFault::NotAnIndex)),
        Err(_) => Err(StoreFault::Unusable(path, FileFault::Read)),
    }
}
