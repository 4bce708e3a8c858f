//! The files of a journal, and of the one that replaces it.

use std::alloc::{AllocError, Global};
use std::fs::{File, OpenFile, Permissions};
use std::io::ErrorKind;
use std::os::unix::fs::{MetadataExt, PermissionsExt, chown};
use std::path::PathBuf;
use std::rt::Files;
use std::{fs, io};

/// How many numbers are tried for the name of a copy.
const MOST_COPIES: u32 = 10_000;

/// The bits of a mode that say who may read and write a file.
const ACCESS_BITS: u32 = 0o777;

/// The paths of a journal and of the new one that is made beside it.
#[derive(Drop)]
pub struct JournalFiles {
    path: PathBuf,
    fresh: String,
    fresh_log: String,
}

impl JournalFiles {
    /// The files of the journal at a path, which lies where a link leads; `None` if there is no file, or an empty one.
    pub fn of<R: Files + AllocGlobal>(rt: &R, path: &str) -> io::Result<Option<JournalFiles>> {
        if !has_bytes(rt, path) {
            return Ok(None);
        }
        let path = fs::canonicalize(rt, path)?;
        let fresh = beside(rt.alloc(), path.as_str(), ".new")?;
        let fresh_log = beside(rt.alloc(), path.as_str(), ".new-wal")?;
        Ok(Some(JournalFiles {
            path,
            fresh,
            fresh_log,
        }))
    }

    /// The path of the journal.
    pub fn path(&self) -> &str {
        self.path.as_str()
    }

    /// The path of the new journal, until it replaces the other one.
    pub fn fresh_path(&self) -> &str {
        self.fresh.as_str()
    }

    /// Copies the file of the journal to one behind whose name is a number, the first that is free, and flushes the copy. Gives
    /// its path. After an error there is no copy.
    pub fn copy<R: Files + AllocGlobal>(&self, rt: &R) -> io::Result<String> {
        for number in 1..MOST_COPIES {
            let name = numbered(rt.alloc(), self.path(), number)?;
            if is_free(rt, name.as_str())? && self.has_copied(rt, name.as_str())? {
                return Ok(name);
            }
        }
        Err(io::Error::from(ErrorKind::AlreadyExists))
    }

    /// Copies the file of the journal to a new file; `false` if that is there. After an error there is no new one.
    fn has_copied<R: Files>(&self, rt: &R, name: &str) -> io::Result<bool> {
        match File::create_new(rt, name) {
            Ok(_) => {}
            Err(error) if error.kind() == ErrorKind::AlreadyExists => return Ok(false),
            Err(error) => return Err(error),
        }
        match self.fill(rt, name) {
            Ok(()) => Ok(true),
            Err(error) => {
                remove_copy(rt, name);
                Err(error)
            }
        }
    }

    fn fill<R: Files>(&self, rt: &R, name: &str) -> io::Result<()> {
        let _count = fs::copy(rt, self.path(), name)?;
        self.give_access(rt, name)?;
        fs::open(rt, name)?.sync_all()?;
        self.flush_folder(rt)
    }

    /// Gives a file the owner, the group and the mode of that of the journal.
    fn give_access<R: Files>(&self, rt: &R, name: &str) -> io::Result<()> {
        let journal = fs::metadata(rt, self.path())?;
        let made = fs::metadata(rt, name)?;
        if made.uid() != journal.uid() || made.gid() != journal.gid() {
            chown(rt, name, Some(journal.uid()), Some(journal.gid()))?;
        }
        let mode = journal.mode() & ACCESS_BITS;
        fs::set_permissions(rt, name, Permissions::from_mode(mode))
    }

    /// Removes what an earlier run has left of a new journal.
    pub fn remove_fresh<R: Files>(&self, rt: &R) -> io::Result<()> {
        remove_if_there(rt, self.fresh.as_str())?;
        remove_if_there(rt, self.fresh_log.as_str())
    }

    /// Puts the file of the new journal in the place of the other one, by a rename. After an error the other one is in its place.
    pub fn replace<R: Files>(&self, rt: &R) -> io::Result<()> {
        self.give_access(rt, self.fresh.as_str())?;
        fs::rename(rt, self.fresh.as_str(), self.path())
    }

    /// Removes the empty log of the new journal, and flushes the folder.
    pub fn settle<R: Files>(&self, rt: &R) -> io::Result<()> {
        remove_if_there(rt, self.fresh_log.as_str())?;
        self.flush_folder(rt)
    }

    fn flush_folder<R: Files>(&self, rt: &R) -> io::Result<()> {
        match self.path.parent() {
            Some(folder) => fs::open(rt, folder)?.sync_all(),
            None => Ok(()),
        }
    }
}

/// Whether there is a file at a path that is not empty: to open another one would make a journal of it.
pub fn has_bytes<R: Files>(rt: &R, path: &str) -> bool {
    match fs::metadata(rt, path) {
        Ok(metadata) => metadata.len() > 0,
        Err(_) => false,
    }
}

/// Removes a copy that is not needed. If that fails, it stays.
pub fn remove_copy<R: Files>(rt: &R, name: &str) {
    let _ = fs::remove_file(rt, name);
}

fn beside(alloc: Global, path: &str, end: &str) -> Result<String, AllocError> {
    format!(in alloc; "{path}{end}")
}

fn numbered(alloc: Global, path: &str, number: u32) -> Result<String, AllocError> {
    format!(in alloc; "{path}.{number}")
}

/// Whether there is neither a file with this name nor the log of one, which would be taken for that of a copy.
fn is_free<R: Files + AllocGlobal>(rt: &R, name: &str) -> io::Result<bool> {
    let log = beside(rt.alloc(), name, "-wal")?;
    Ok(!is_there(rt, name)? && !is_there(rt, log.as_str())?)
}

/// Whether a name is taken, also by a link that leads nowhere.
fn is_there<R: Files>(rt: &R, name: &str) -> io::Result<bool> {
    match fs::symlink_metadata(rt, name) {
        Ok(_) => Ok(true),
        Err(error) if error.kind() == ErrorKind::NotFound => Ok(false),
        Err(error) => Err(error),
    }
}

fn remove_if_there<R: Files>(rt: &R, name: &str) -> io::Result<()> {
    match fs::remove_file(rt, name) {
        Err(error) if error.kind() == ErrorKind::NotFound => Ok(()),
        removed => removed,
    }
}
