// A disk whose areas are files.
ghost use Rattle.std.specs.Prelude.{◌≡◌, ◌<◌, ◌≤◌, IfOk, IfSome, is_some};
ghost use Rattle.std.specs.Vec.{vec_len};
ghost use Rattle.gl_base.specs.Counts.{HasCause, Rose};
ghost use Rattle.gl_outside.specs.declared.fault.Outside.TheVariants.{Failed};
ghost use Rattle.gl_outside.specs.Faults.{NeedsNoMemory};
ghost use Rattle.gl_system.specs.Mute.{mute};

use crate::store_file::{FileFault, StoreFile, Trouble, tried};
use gl_outside::{Disk, Outside, count_one};
use std::alloc::Global;
use std::fs::{File, Files, OpenFile, OpenOptions};
use std::io::ErrorKind;
use std::os::unix::fs::{FileExt, MetadataExt, OpenOptionsExt};
use std::{fs, io};

// How many areas are open at once. Each log works on one area; the others are looked at while a store is opened.
const OPEN_AREAS: usize = 8;

/// A disk whose areas are the files `area-0`, `area-1` and so on of a folder that is there. It tells nothing.
///
/// The folder is locked before anything in it is looked at, and until the disk is dropped; where another program has the
/// lock, each call is a fault and nothing is touched. A folder that is missing, that can't be read, or whose name has become
/// another folder's is a fault, and not a disk without areas. An area that has no file has no bytes. At most eight files are
/// open at once: another one more closes the one opened first, synced. A file that may not be written to serves the calls
/// that only read. New files are for their owner alone.
///
/// Want of memory for opening a file is told as such by `length`, by `read` and by a `write_at` that begins an area;
/// elsewhere it counts as a fault.
#[derive(Drop)]
pub struct FileDisk<R: Files>
where
    R::File: StoreFile,
{
    rt: R,
    alloc: Global,
    folder: String,
    // the folder, once it is locked
    home: Option<R::File>,
    // the one opened first stands first
    areas: Vec<OpenArea<R::File>>,
    // whether each file that is there would be found after a crash
    folder_is_synced: bool,
    faults: u64,
    first: Option<Trouble>,
}

#[derive(Drop)]
struct OpenArea<F> {
    area: u32,
    file: F,
    may_write: bool,
    is_synced: bool,
}

// What a call needs of an area's file.
#[derive(Clone, Copy, PartialEq, Eq)]
enum Need {
    Look,
    Change,
    Make,
}

impl<R: Files> FileDisk<R>
where
    R::File: StoreFile,
{
    /// The disk of a folder. No file is touched yet.
    pub fn new(rt: R, alloc: Global, folder: String) -> FileDisk<R>
        ensures { result.faults ≡ 0 }
    {
        FileDisk {
            rt,
            alloc,
            folder,
            home: None,
            areas: Vec::new(alloc),
            // an earlier run may have made files
            folder_is_synced: false,
            faults: 0,
            first: None,
        }
    }

    /// What the first fault was, in words for a person; none where there was none.
    pub fn first_fault(&self) -> Option<FileFault<'_>>
        ensures { is_some result ≡ is_some self.now.first }
    {
        match self.first {
            Some(trouble) => Some(FileFault::new(self.folder.as_str(), trouble)),
            None => None,
        }
    }

    // Opens and locks the folder, once, and sees that its name still means the folder that is locked.
    fn enter(&mut self) -> Result<(), Trouble>
        ensures { self.new.faults ≡ self.old.faults }
    {
        let folder = self.folder.as_str();
        let named = tried(None, "open", fs::metadata(&self.rt, folder))?;
        if !named.is_dir() {
            let error = io::Error::from(ErrorKind::NotADirectory);
            return Err(Trouble::new(None, "open", error));
        }
        let Some(home) = &self.home else {
            let home = tried(None, "open", File::open(&self.rt, folder))?;
            tried(None, "lock", home.lock_at_once())?;
            self.home = Some(home);
            return Ok(());
        };
        let held = tried(None, "open", home.metadata())?;
        if (named.dev(), named.ino()) == (held.dev(), held.ino()) {
            return Ok(());
        }
        let error = io::Error::new(ErrorKind::NotFound, "another folder has this name now");
        Err(Trouble::new(None, "open", error))
    }

    // The place of the area's open file.
    fn place(&self, area: u32) -> Option<usize>
        ensures { IfSome result (λ place. place < vec_len self.now.areas) }
    {
        for place in 0..self.areas.len() {
            if self.areas[place].area == area {
                return Some(place);
            }
        }
        None
    }

    // Opens the area's file, unless it is open and serves, and gives its place; none where the area has no file and needs none.
    fn open_area(&mut self, area: u32, need: Need) -> Result<Option<usize>, Trouble>
        ensures faults { self.new.faults ≡ self.old.faults }
        ensures place { IfOk result (λ found. IfSome found (λ place. place < vec_len self.new.areas)) }
    {
        if let Some(place) = self.place(area) {
            if need == Need::Look || self.areas[place].may_write {
                return Ok(Some(place));
            }
            // Opened for reading alone: asked for again, so that the system's reason is told.
            self.areas.remove(place);
        }
        self.enter()?;
        self.make_room()?;
        let Some(opened) = self.open_file(area, need)? else {
            return Ok(None);
        };
        let place = self.areas.len();
        if self.areas.push(opened).is_err() {
            return Err(Trouble::Memory);
        }
        Ok(Some(place))
    }

    fn open_file(&mut self, area: u32, need: Need) -> Result<Option<OpenArea<R::File>>, Trouble>
        ensures { self.new.faults ≡ self.old.faults }
    {
        let folder = self.folder.as_str();
        let path = format!(in self.alloc; "{folder}/area-{area}")?;
        let mut options = OpenOptions::new();
        options.read(true).write(true).mode(0o600);
        let mut may_write = true;
        let mut outcome = options.open(&self.rt, path.as_str());
        if let Err(error) = outcome {
            match error.kind() {
                ErrorKind::NotFound if need == Need::Make => {
                    self.folder_is_synced = false;
                    options.create(true);
                }
                ErrorKind::NotFound => return Ok(None),
                ErrorKind::PermissionDenied | ErrorKind::ReadOnlyFilesystem if need == Need::Look =>
                    {
                        may_write = false;
                        options.write(false);
                    }
                _ => return Err(Trouble::new(Some(area), "open", error)),
            }
            outcome = options.open(&self.rt, path.as_str());
        }
        let file = tried(Some(area), "open", outcome)?;
        Ok(Some(OpenArea {
            area,
            file,
            may_write,
            is_synced: true,
        }))
    }

    // Closes the file opened first where no other one may be opened; what it holds is kept.
    fn make_room(&mut self) -> Result<(), Trouble>
        ensures { self.new.faults ≡ self.old.faults }
    {
        if self.areas.len() < OPEN_AREAS {
            return Ok(());
        }
        let oldest = self.areas.remove(0);
        if oldest.is_synced {
            return Ok(());
        }
        tried(Some(oldest.area), "sync", oldest.file.sync_all())
    }

    fn length_of(&mut self, area: u32) -> Result<u64, Trouble>
        ensures { self.new.faults ≡ self.old.faults }
    {
        let Some(place) = self.open_area(area, Need::Look)? else {
            return Ok(0);
        };
        let found = tried(Some(area), "length", self.areas[place].file.metadata())?;
        Ok(found.len())
    }

    fn read_all(&mut self, area: u32, at: u64, into: &mut [u8]) -> Result<(), Trouble>
        ensures { self.new.faults ≡ self.old.faults }
    {
        if into.is_empty() {
            return Ok(());
        }
        let Some(place) = self.open_area(area, Need::Look)? else {
            let error = io::Error::from(ErrorKind::NotFound);
            return Err(Trouble::new(Some(area), "read", error));
        };
        tried(
            Some(area),
            "read",
            self.areas[place].file.read_exact_at(into, at),
        )
    }

    fn write_all(&mut self, area: u32, at: u64, bytes: &[u8]) -> Result<(), Trouble>
        ensures { self.new.faults ≡ self.old.faults }
    {
        if bytes.is_empty() {
            return Ok(());
        }
        let Some(place) = self.open_area(area, Need::Make)? else {
            let error = io::Error::from(ErrorKind::NotFound);
            return Err(Trouble::new(Some(area), "write", error));
        };
        self.areas[place].is_synced = false;
        tried(
            Some(area),
            "write",
            self.areas[place].file.write_all_at(bytes, at),
        )
    }

    fn shorten(&mut self, area: u32, length: u64) -> Result<(), Trouble>
        ensures { self.new.faults ≡ self.old.faults }
    {
        let Some(place) = self.open_area(area, Need::Change)? else {
            return Ok(());
        };
        self.areas[place].is_synced = false;
        tried(Some(area), "cut", self.areas[place].file.set_len(length))
    }

    // The file's bytes and length, and its entry in the folder.
    fn sync_all(&mut self, area: u32) -> Result<(), Trouble>
        ensures { self.new.faults ≡ self.old.faults }
    {
        let Some(place) = self.open_area(area, Need::Look)? else {
            return Ok(());
        };
        tried(Some(area), "sync", self.areas[place].file.sync_all())?;
        self.areas[place].is_synced = true;
        self.sync_folder()
    }

    fn sync_folder(&mut self) -> Result<(), Trouble>
        ensures { self.new.faults ≡ self.old.faults }
    {
        if self.folder_is_synced {
            return Ok(());
        }
        if let Some(home) = &self.home {
            tried(None, "sync", home.sync_all())?;
        }
        self.folder_is_synced = true;
        Ok(())
    }

    // Counts a fault of the system.
    fn told<T>(&mut self, outcome: Result<T, Trouble>) -> Result<T, Outside>
        ensures { HasCause Failed self.old.faults self.new.faults result }
    {
        match outcome {
            Ok(value) => Ok(value),
            Err(Trouble::Memory) => Err(Outside::OutOfMemory),
            Err(trouble) => {
                self.count(trouble);
                Err(Outside::Failed)
            }
        }
    }

    // Counts want of memory too, where the call may not answer it.
    fn told_as_fault(&mut self, outcome: Result<(), Trouble>) -> Result<(), Outside>
        ensures cause { HasCause Failed self.old.faults self.new.faults result }
        ensures memory { NeedsNoMemory result }
    {
        match outcome {
            Ok(()) => Ok(()),
            Err(trouble) => {
                self.count(trouble);
                Err(Outside::Failed)
            }
        }
    }

    fn count(&mut self, trouble: Trouble)
        ensures rose { Rose self.old.faults self.new.faults }
        ensures later { self.old.faults ≤ self.new.faults }
    {
        count_one(&mut self.faults);
        if self.first.is_none() {
            self.first = Some(trouble);
        }
    }
}

impl<R: Files> Disk for FileDisk<R>
where
    R::File: StoreFile,
{
    ghost state = { λ _. mute };

    ghost faults = { λ d. d.faults };

    fn length(&mut self, area: u32) -> Result<u64, Outside> {
        let outcome = self.length_of(area);
        self.told(outcome)
    }

    fn read(&mut self, area: u32, at: u64, into: &mut [u8]) -> Result<(), Outside> {
        let outcome = self.read_all(area, at, into);
        self.told(outcome)
    }

    fn write_at(&mut self, area: u32, at: u64, bytes: &[u8]) -> Result<(), Outside> {
        let outcome = self.write_all(area, at, bytes);
        if at == 0 {
            return self.told(outcome);
        }
        // The area is there, and a write within it may not want memory.
        self.told_as_fault(outcome)
    }

    fn cut(&mut self, area: u32, length: u64) -> Result<(), Outside> {
        let outcome = self.shorten(area, length);
        self.told_as_fault(outcome)
    }

    fn sync(&mut self, area: u32) -> Result<(), Outside> {
        let outcome = self.sync_all(area);
        self.told_as_fault(outcome)
    }

    fn faults(&self) -> u64 {
        self.faults
    }
}
