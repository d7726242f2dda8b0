// What a disk of files asks of a file system, and what it tells of a call that failed.
ghost use Rattle.std.specs.Prelude.{◌≡◌, IfOk};

use std::alloc::AllocError;
use std::fmt::{self, Display, Formatter};
use std::fs::{File, TryLockError};
use std::io;
use std::io::ErrorKind;
use std::os::unix::fs::FileExt;

/// An open file or folder of a file system in which a store can lie: std's `File`, or one of a test.
pub trait StoreFile: FileExt {
    /// Takes the file's lock for this handle alone, and fails at once where another handle has it.
    fn lock_at_once(&self) -> io::Result<()>;
}

impl StoreFile for File {
    fn lock_at_once(&self) -> io::Result<()> {
        match self.try_lock() {
            Ok(()) => Ok(()),
            Err(TryLockError::WouldBlock) => Err(io::Error::new(
                ErrorKind::WouldBlock,
                "another program uses this store",
            )),
            Err(TryLockError::Error(error)) => Err(error),
        }
    }
}

// Why a call on a store's files isn't done: the file (none: the folder), what was tried, and the system's reason.
#[derive(Clone, Copy)]
pub(crate) enum Trouble {
    System {
        area: Option<u32>,
        attempt: &'static str,
        error: io::Error,
    },
    Memory,
}

impl Trouble {
    pub(crate) fn new(area: Option<u32>, attempt: &'static str, error: io::Error) -> Trouble {
        Trouble::System {
            area,
            attempt,
            error,
        }
    }
}

impl From<AllocError> for Trouble {
    fn from(_: AllocError) -> Trouble {
        Trouble::Memory
    }
}

// Says of a failed call on which file it was, and what was tried.
pub(crate) fn tried<T>(
    area: Option<u32>,
    attempt: &'static str,
    outcome: io::Result<T>,
) -> Result<T, Trouble> {
    match outcome {
        Ok(value) => Ok(value),
        Err(error) => Err(Trouble::new(area, attempt, error)),
    }
}

/// A fault of a disk of files, in words for a person: the file or folder, what was tried, and the system's reason.
#[derive(Drop)]
pub struct FileFault<'a> {
    folder: &'a str,
    trouble: Trouble,
}

impl<'a> FileFault<'a> {
    pub(crate) fn new(folder: &'a str, trouble: Trouble) -> FileFault<'a> {
        FileFault { folder, trouble }
    }
}

impl Display for FileFault<'_> {
    fn fmt<W: fmt::Write>(&self, f: &mut Formatter<W>) -> fmt::Result {
        let folder = self.folder;
        match self.trouble {
            Trouble::System {
                area: Some(area),
                attempt,
                error,
            } => write!(f, "{folder}/area-{area}: {attempt}: {error}"),
            Trouble::System {
                area: None,
                attempt,
                error,
            } => write!(f, "{folder}: {attempt}: {error}"),
            Trouble::Memory => write!(f, "{folder}: open: out of memory"),
        }
    }
}
