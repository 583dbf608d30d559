ghost use Rattle.std.specs.Prelude.{◌≡◌, ◌≤◌, Err, None};
ghost use Rattle.cm_outside.specs.Faults.{Rose};

use cm_outside::{Store, StoreFault};
use cm_plain::Str;
use std::alloc::{AllocError, Global};
use std::fs::{self, OpenFile};
use std::io::{self, ErrorKind, Write};
use std::rt::Files;

/// The greatest number of bytes of a file that is loaded.
const MOST: u64 = 4_294_967_296;

/// What the name of a file has at its end while it is written.
const NEW: &str = ".ccm-new";

/// The files in and under the folder that the program is run in. It tells nothing of what they hold. A name that leads out of the
/// folder, which is one that is empty, begins with `/` or has a part `..`, has no file: a call with it fails.
#[derive(Drop)]
pub struct FolderStore<'a, R: Files + AllocGlobal> {
    rt: &'a R,
    faults: u64,
}

/// Whether a name leads to a place in the folder or under it.
fn is_inside(name: &str) -> bool {
    !name.is_empty() && !name.starts_with('/') && name.split('/').all(|part| part != "..")
}

/// An error of the file system: out of memory, or a fault.
fn fault_of(error: &io::Error) -> StoreFault {
    match error.kind() {
        ErrorKind::OutOfMemory => StoreFault::NoMemory,
        _ => StoreFault::Failed,
    }
}

/// The bytes of the file at a path, if there is one. A file of more than `MOST` bytes isn't read.
fn load<R: Files + AllocGlobal>(rt: &R, path: &str) -> Result<Option<Vec<u8>>, StoreFault> {
    match fs::metadata(rt, path) {
        Ok(metadata) if metadata.len() > MOST => return Err(StoreFault::Failed),
        Ok(_) => {}
        Err(error) if error.kind() == ErrorKind::NotFound => return Ok(None),
        Err(error) => return Err(fault_of(&error)),
    }
    match fs::read(rt, path) {
        Ok(bytes) if bytes.len() as u64 > MOST => Err(StoreFault::Failed),
        Ok(bytes) => Ok(Some(bytes)),
        Err(error) => Err(fault_of(&error)),
    }
}

/// Writes a new file and brings it to the disk.
fn write_new<R: Files>(rt: &R, path: &str, bytes: &[u8]) -> io::Result<()> {
    let mut file = fs::create(rt, path)?;
    file.write_all(bytes)?;
    file.sync_all()
}

/// Writes a neighbour of the file at a path and puts it in its place.
fn put_in_place<R: Files>(rt: &R, path: &str, new: &str, bytes: &[u8]) -> io::Result<()> {
    write_new(rt, new, bytes)?;
    fs::rename(rt, new, path)
}

/// Replaces the file at a path by way of a neighbour, so that there is the old or the new file whenever the program or the machine
/// stops. A neighbour that was made is gone after an error; where it can't be made, all is as before.
fn replace<R: Files>(rt: &R, path: &str, new: &str, bytes: &[u8]) -> io::Result<()> {
    write_new(rt, new, &[])?;
    let placed = put_in_place(rt, path, new, bytes);
    if placed.is_err() {
        let _ = fs::remove_file(rt, new);
    }
    placed
}

impl<'a, R: Files + AllocGlobal> FolderStore<'a, R> {
    /// The files of the folder that the program is run in. None of its calls failed yet.
    pub fn new(rt: &'a R) -> FolderStore<'a, R> {
        FolderStore { rt, faults: 0 }
    }

    /// The path of a name, none where it leads out of the folder.
    fn path(&self, name: &Str) -> Result<Option<String>, AllocError> {
        let path = name.text()?;
        if is_inside(path.as_str()) {
            Ok(Some(path))
        } else {
            Ok(None)
        }
    }

    /// Counts a fault, and hands the outcome on.
    fn counted<T: Drop>(&mut self, outcome: Result<T, StoreFault>) -> Result<T, StoreFault>
        ensures later { self.old.faults ≤ self.new.faults }
        ensures cause { result ≡ Err StoreFault.Failed → Rose self.old.faults self.new.faults }
    {
        match outcome {
            Ok(value) => Ok(value),
            Err(StoreFault::NoMemory) => Err(StoreFault::NoMemory),
            Err(StoreFault::Failed) => {
                self.faults = self.faults.saturating_add(1);
                Err(StoreFault::Failed)
            }
        }
    }

    fn load_named(&self, name: &Str) -> Result<Option<Vec<u8>>, StoreFault> {
        match self.path(name) {
            Ok(Some(path)) => load(self.rt, path.as_str()),
            Ok(None) => Err(StoreFault::Failed),
            Err(_) => Err(StoreFault::NoMemory),
        }
    }

    fn save_named(&self, name: &Str, bytes: &[u8]) -> Result<(), StoreFault> {
        let Ok(path) = self.path(name) else {
            return Err(StoreFault::NoMemory);
        };
        let Some(path) = path else {
            return Err(StoreFault::Failed);
        };
        let Ok(new) = neighbour(self.rt.alloc(), path.as_str()) else {
            return Err(StoreFault::NoMemory);
        };
        match replace(self.rt, path.as_str(), new.as_str(), bytes) {
            Ok(()) => Ok(()),
            Err(error) => Err(fault_of(&error)),
        }
    }
}

/// The path of the file that is written before it takes the place of another.
fn neighbour(alloc: Global, path: &str) -> Result<String, AllocError> {
    let mut new = String::new(alloc);
    new.push_str(path)?;
    new.push_str(NEW)?;
    Ok(new)
}

impl<'a, R: Files + AllocGlobal> Store for FolderStore<'a, R> {
    ghost files = { λ s. None };

    ghost faults = { λ s. s.faults };

    fn load(&mut self, name: &Str) -> Result<Option<Vec<u8>>, StoreFault> {
        let loaded = self.load_named(name);
        self.counted(loaded)
    }

    fn save(&mut self, name: &Str, bytes: &[u8]) -> Result<(), StoreFault> {
        let saved = self.save_named(name, bytes);
        self.counted(saved)
    }
}
