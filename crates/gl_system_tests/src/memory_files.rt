// A file system in memory of one folder, `S`, for the areas of a store.
use gl_system::StoreFile;
use std::alloc::{AllocError, Allocator, Global};
use std::cell::{Cell, RefCell, RefMut};
use std::fs::{Files, Metadata, OpenFile, OpenOptions};
use std::io::{self, ErrorKind, Read, Seek, SeekFrom, Write};
use std::os::unix::fs::FileExt;

#[derive(Drop)]
struct Area {
    bytes: Vec<u8>,
    // what is there after a power cut, where the folder has its name
    on_device: Vec<u8>,
    is_there: bool,
    name_is_on_device: bool,
}

#[derive(Drop)]
struct Inside {
    areas: Vec<Area>,
    calls: u64,
    // the number of the call that fails
    failing: u64,
    // how many bytes a read or a write moves at most
    most: usize,
    open: usize,
    most_open: usize,
    is_locked: bool,
    may_write: bool,
}

/// What lies on the device, and what was done.
#[derive(Drop)]
pub struct World {
    inside: RefCell<Inside>,
}

impl World {
    /// No area is there; so many may come.
    pub fn new(alloc: Global, count: usize) -> Result<World, AllocError> {
        let mut areas = Vec::new(alloc);
        for _ in 0..count {
            areas.push(Area {
                bytes: Vec::new(alloc),
                on_device: Vec::new(alloc),
                is_there: false,
                name_is_on_device: false,
            })?;
        }
        Ok(World {
            inside: RefCell::new(Inside {
                areas,
                calls: 0,
                failing: 0,
                most: usize::MAX,
                open: 0,
                most_open: 0,
                is_locked: false,
                may_write: true,
            }),
        })
    }

    /// The file system that a disk is handed.
    pub fn files(&self) -> MemoryFiles<'_> {
        MemoryFiles { world: self }
    }

    /// Fails the call of this number, counted from now on.
    pub fn fail(&self, number: u64) {
        if let Ok(mut inside) = self.inside.try_borrow_mut() {
            inside.calls = 0;
            inside.failing = number;
        }
    }

    /// Has a read or a write move so many bytes at most.
    pub fn move_at_most(&self, most: usize) {
        if let Ok(mut inside) = self.inside.try_borrow_mut() {
            inside.most = most;
        }
    }

    /// Lets no file be written to from now on.
    pub fn freeze(&self) {
        if let Ok(mut inside) = self.inside.try_borrow_mut() {
            inside.may_write = false;
        }
    }

    /// How many calls were made since the last `fail`.
    pub fn calls(&self) -> u64 {
        match self.inside.try_borrow_mut() {
            Ok(inside) => inside.calls,
            Err(_) => 0,
        }
    }

    /// How many files and folders were open at once at most.
    pub fn most_open(&self) -> usize {
        match self.inside.try_borrow_mut() {
            Ok(inside) => inside.most_open,
            Err(_) => usize::MAX,
        }
    }

    /// Whether just these bytes are in the area after a power cut now.
    pub fn keeps(&self, area: usize, bytes: &[u8]) -> bool {
        let Ok(inside) = self.inside.try_borrow_mut() else {
            return false;
        };
        match inside.areas.get(area) {
            Some(area) => area.name_is_on_device && area.on_device.as_slice() == bytes,
            None => false,
        }
    }

    fn call(&self) -> io::Result<RefMut<'_, Inside>> {
        let mut inside = self.inside.try_borrow_mut()?;
        inside.calls = inside.calls.saturating_add(1);
        if inside.calls == inside.failing {
            return Err(io::Error::other("told to fail"));
        }
        Ok(inside)
    }
}

#[derive(Clone, Copy)]
pub struct MemoryFiles<'w> {
    world: &'w World,
}

/// An open area, or the folder where it has no area.
pub struct Handle<'w> {
    world: &'w World,
    area: Option<usize>,
    may_write: bool,
    has_lock: Cell<bool>,
}

impl Drop for Handle<'_> {
    fn drop(self) {
        let had_lock = self.has_lock.get();
        let Handle {
            world,
            area: _,
            may_write: _,
            has_lock: _,
        } = self;
        if let Ok(mut inside) = world.inside.try_borrow_mut() {
            inside.open = inside.open.saturating_sub(1);
            if had_lock {
                inside.is_locked = false;
            }
        }
    }
}

fn unsupported() -> io::Error {
    io::Error::from(ErrorKind::Unsupported)
}

fn not_found() -> io::Error {
    io::Error::from(ErrorKind::NotFound)
}

fn number_of(path: &str) -> Option<usize> {
    path.strip_prefix("S/area-")?.parse::<usize>().ok()
}

// Opens or makes the area, and says whether it may be written to.
fn open_area(inside: &mut Inside, how: &OpenOptions, number: usize) -> io::Result<bool> {
    let may_write = inside.may_write;
    let Some(area) = inside.areas.get_mut(number) else {
        return Err(not_found());
    };
    if !area.is_there {
        if !how.asks_create() {
            return Err(not_found());
        }
        area.is_there = true;
    }
    if how.asks_write() && !may_write {
        return Err(io::Error::from(ErrorKind::PermissionDenied));
    }
    Ok(how.asks_write())
}

impl<'w> Files for MemoryFiles<'w> {
    type File = Handle<'w>;

    type Dir = io::Empty;

    fn open_file(&self, how: &OpenOptions, path: &str) -> io::Result<Handle<'w>> {
        let world = self.world;
        let mut inside = world.call()?;
        let mut may_write = false;
        let mut area = None;
        if path != "S" {
            let number = number_of(path).ok_or_else(not_found)?;
            may_write = open_area(&mut inside, how, number)?;
            area = Some(number);
        }
        inside.open = inside.open.saturating_add(1);
        inside.most_open = inside.most_open.max(inside.open);
        Ok(Handle {
            world,
            area,
            may_write,
            has_lock: Cell::new(false),
        })
    }

    fn open_dir(&self, _path: &str) -> io::Result<io::Empty> {
        Err(unsupported())
    }

    fn metadata(&self, path: &str) -> io::Result<Metadata> {
        let inside = self.world.call()?;
        drop(inside);
        if path == "S" {
            Ok(Metadata::of_dir())
        } else {
            Err(not_found())
        }
    }

    fn symlink_metadata(&self, path: &str) -> io::Result<Metadata> {
        self.metadata(path)
    }

    fn copy(&self, _from: &str, _to: &str) -> io::Result<u64> {
        Err(unsupported())
    }

    fn rename(&self, _from: &str, _to: &str) -> io::Result<()> {
        Err(unsupported())
    }

    fn remove_file(&self, _path: &str) -> io::Result<()> {
        Err(unsupported())
    }

    fn create_dir(&self, _path: &str) -> io::Result<()> {
        Err(unsupported())
    }

    fn remove_dir(&self, _path: &str) -> io::Result<()> {
        Err(unsupported())
    }

    fn remove_dir_all<B: Allocator>(&self, _alloc: B, _path: &str) -> io::Result<()> {
        Err(unsupported())
    }
}

impl OpenFile for Handle<'_> {
    fn metadata(&self) -> io::Result<Metadata> {
        let inside = self.world.call()?;
        match self.area {
            None => Ok(Metadata::of_dir()),
            Some(number) => match inside.areas.get(number) {
                Some(area) => Ok(Metadata::of_file(area.bytes.len() as u64)),
                None => Err(not_found()),
            },
        }
    }

    fn set_len(&self, size: u64) -> io::Result<()> {
        let mut inside = self.world.call()?;
        let Some(area) = self.area.and_then(|number| inside.areas.get_mut(number)) else {
            return Err(not_found());
        };
        area.bytes.truncate(size as usize);
        Ok(())
    }

    fn sync_all(&self) -> io::Result<()> {
        let mut inside = self.world.call()?;
        let Some(number) = self.area else {
            for area in &mut inside.areas {
                area.name_is_on_device = area.is_there;
            }
            return Ok(());
        };
        let Some(area) = inside.areas.get_mut(number) else {
            return Err(not_found());
        };
        area.on_device.clear();
        area.on_device.extend_from_slice(&area.bytes)?;
        Ok(())
    }

    fn sync_data(&self) -> io::Result<()> {
        Err(unsupported())
    }
}

impl FileExt for Handle<'_> {
    fn read_at(&self, buf: &mut [u8], offset: u64) -> io::Result<usize> {
        let inside = self.world.call()?;
        let most = inside.most;
        let Some(area) = self.area.and_then(|number| inside.areas.get(number)) else {
            return Err(not_found());
        };
        let bytes = area.bytes.as_slice();
        let start = bytes.len().min(offset as usize);
        let count = (bytes.len() - start).min(buf.len()).min(most);
        buf[..count].copy_from_slice(&bytes[start..start + count]);
        Ok(count)
    }

    fn write_at(&self, buf: &[u8], offset: u64) -> io::Result<usize> {
        let mut inside = self.world.call()?;
        let count = inside.most.min(buf.len());
        let Some(area) = self.area.and_then(|number| inside.areas.get_mut(number)) else {
            return Err(not_found());
        };
        let start = offset as usize;
        if !self.may_write || start > area.bytes.len() {
            return Err(unsupported());
        }
        let end = start.saturating_add(count);
        if end > area.bytes.len() {
            area.bytes.resize(end, 0)?;
        }
        area.bytes[start..end].copy_from_slice(&buf[..count]);
        Ok(count)
    }
}

impl StoreFile for Handle<'_> {
    fn lock_at_once(&self) -> io::Result<()> {
        let mut inside = self.world.call()?;
        if inside.is_locked {
            return Err(io::Error::from(ErrorKind::WouldBlock));
        }
        inside.is_locked = true;
        self.has_lock.set(true);
        Ok(())
    }
}

impl Read for Handle<'_> {
    fn read(&mut self, _buf: &mut [u8]) -> io::Result<usize> {
        Err(unsupported())
    }
}

impl Write for Handle<'_> {
    fn write(&mut self, _buf: &[u8]) -> io::Result<usize> {
        Err(unsupported())
    }

    fn flush(&mut self) -> io::Result<()> {
        Err(unsupported())
    }
}

impl Seek for Handle<'_> {
    fn seek(&mut self, _to: SeekFrom) -> io::Result<u64> {
        Err(unsupported())
    }
}
