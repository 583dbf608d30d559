ghost use Rattle.std.specs.Prelude.{◌≡◌, ◌≤◌, ◌↔◌, [], ℕ, List, Option, Some, Err, IsTrue, IfOk, OnOk, OnErr, option_copied};
ghost use Rattle.std.specs.List.{position_or_len};
ghost use Rattle.cm_outside.specs.Faults.{Rose};
ghost use Rattle.cm_outside.specs.Files.{Files, IsSaved, Loads, Saves, found_bytes};
ghost use Rattle.cm_outside.specs.Memory.{is_failing};
ghost use Rattle.cm_outside.specs.MemFiles.{IsCounted, MemStoreView, files_of, is_named};

use crate::leaves::Leaves;
use crate::store::Store;
use crate::store_fault::StoreFault;
use cm_plain::Str;
use std::alloc::{AllocError, Global};
use std::marker::Model;

/// A file in memory.
#[derive(Drop)]
struct MemFile {
    name: Str,
    bytes: Vec<u8>,
}

impl Model for MemFile {
    ghost use Rattle.cm_outside.specs.MemFiles.{FileView};

    ghost Value = { FileView };

    ghost view = { λ f. record { name = f.name; bytes = f.bytes.items } };
}

/// A store that keeps files in memory. The calls of `load` and `save` that are named by their number, counted together
/// from 0, fail. Its counts of calls and of faults stand still at the greatest 64-bit number.
#[derive(Drop)]
pub struct MemStore {
    files: Vec<MemFile>,
    failing: Vec<u64>,
    leaves: Leaves,
    calls: u64,
    faults: u64,
}

impl Model for MemStore {
    ghost use Rattle.cm_outside.specs.MemFiles.{MemStoreView};

    ghost Value = { MemStoreView };

    ghost view = { λ s. record {
      files = s.files.items;
      failing = s.failing.items;
      leaves = s.leaves;
      calls = s.calls;
      faults = s.faults;
    } };
}

/// The place of the first file of this name, or their count.
fn place_of(files: &[MemFile], name: &Str) -> usize
    ensures { result ≡ position_or_len (is_named name.now) files.now }
{
    for (place, file) in files.iter().enumerate() {
        if file.name.same(name) {
            return place;
        }
    }
    files.len()
}

/// The bytes of the file of this name, if there is one. `Err`: out of memory.
fn found(files: &Vec<MemFile>, name: &Str) -> Result<Option<Vec<u8>>, AllocError>
    ensures { IfOk result (λ found. found_bytes found ≡ files_of files.now.items name.now) }
{
    let place = place_of(files.as_slice(), name);
    if place >= files.len() {
        return Ok(None);
    }
    let bytes = Vec::from_slice(*files.allocator(), files[place].bytes.as_slice())?;
    Ok(Some(bytes))
}

/// Puts a file in place of the one of this name, or after the others. `Err`: out of memory, and all is as before.
fn put(files: &mut Vec<MemFile>, name: &Str, bytes: &[u8]) -> Result<(), AllocError>
    ensures saved { OnOk result (IsSaved name.now bytes.now (files_of files.old.items) (files_of files.new.items)) }
    ensures memory { OnErr result (files.new.items ≡ files.old.items) }
{
    let place = place_of(files.as_slice(), name);
    let bytes = Vec::from_slice(*files.allocator(), bytes)?;
    if place < files.len() {
        files[place].bytes = bytes;
        return Ok(());
    }
    let name = name.try_copy()?;
    files.push(MemFile { name, bytes })?;
    Ok(())
}

impl MemStore {
    /// A store without files, whose calls fail where their number, counted from 0, is in `failing`.
    pub fn new(alloc: Global, failing: Vec<u64>, leaves: Leaves) -> MemStore
        ensures { result ≡ record {
          files = [];
          failing = failing.items;
          leaves = leaves;
          calls = 0;
          faults = 0;
        } }
    {
        MemStore {
            files: Vec::new(alloc),
            failing,
            leaves,
            calls: 0,
            faults: 0,
        }
    }

    /// Puts a file there in place of the one of its name, or after the others; this is no call. `Err`: out of memory, and all is
    /// as before.
    pub fn put(&mut self, name: &Str, bytes: &[u8]) -> Result<(), AllocError>
        ensures saved { OnOk result (IsSaved name.now bytes.now (files_of self.old.files) (files_of self.new.files)) }
        ensures same { self.new ≡ record self.old { files = self.new.files } }
        ensures memory { OnErr result (self.new ≡ self.old) }
    {
        put(&mut self.files, name, bytes)
    }

    /// The bytes of the file of this name, if there is one; this is no call. Takes no memory.
    pub fn bytes(&self, name: &Str) -> Option<&[u8]>
        ensures { option_copied result ≡ files_of self.now.files name.now }
    {
        let place = place_of(self.files.as_slice(), name);
        if place >= self.files.len() {
            return None;
        }
        Some(self.files[place].bytes.as_slice())
    }

    /// Counts a call. Answers whether it is to fail, which is counted too.
    fn begin(&mut self) -> bool
        ensures fails { IsTrue result ↔ IsTrue (is_failing self.old.calls self.old.failing) }
        ensures same { self.new.files ≡ self.old.files }
        ensures counted { IsCounted self.old self.new }
        ensures later { self.old.faults ≤ self.new.faults }
        ensures cause { IsTrue result → Rose self.old.faults self.new.faults }
    {
        let call = self.calls;
        self.calls = self.calls.saturating_add(1);
        let fails = self.failing.contains(&call);
        if fails {
            self.faults = self.faults.saturating_add(1);
        }
        fails
    }
}

impl Store for MemStore {
    ghost files = { λ s. Some (files_of s.files) };

    ghost faults = { λ s. s.faults };

    fn load(&mut self, name: &Str) -> Result<Option<Vec<u8>>, StoreFault>
        ensures files { Loads result name.now (files_of self.old.files) (Some (files_of self.new.files)) }
        ensures later { self.old.faults ≤ self.new.faults }
        ensures cause { result ≡ Err StoreFault.Failed → Rose self.old.faults self.new.faults }
        // The calls that fail are those that are named.
        ensures fails { (result ≡ Err StoreFault.Failed) ↔ IsTrue (is_failing self.old.calls self.old.failing) }
        ensures same { self.new.files ≡ self.old.files }
        ensures counted { IsCounted self.old self.new }
    {
        if self.begin() {
            return Err(StoreFault::Failed);
        }
        match found(&self.files, name) {
            Ok(bytes) => Ok(bytes),
            Err(_) => Err(StoreFault::NoMemory),
        }
    }

    fn save(&mut self, name: &Str, bytes: &[u8]) -> Result<(), StoreFault>
        ensures files { Saves result name.now bytes.now (files_of self.old.files) (Some (files_of self.new.files)) }
        ensures later { self.old.faults ≤ self.new.faults }
        ensures cause { result ≡ Err StoreFault.Failed → Rose self.old.faults self.new.faults }
        // The calls that fail are those that are named.
        ensures fails { (result ≡ Err StoreFault.Failed) ↔ IsTrue (is_failing self.old.calls self.old.failing) }
        ensures left { IsTrue (is_failing self.old.calls self.old.failing) → self.old.leaves ≡ Leaves.AsBefore
            → self.new.files ≡ self.old.files }
        ensures counted { IsCounted self.old self.new }
    {
        if self.begin() {
            if self.leaves == Leaves::AsAsked {
                let _ = put(&mut self.files, name, bytes);
            }
            return Err(StoreFault::Failed);
        }
        match put(&mut self.files, name, bytes) {
            Ok(()) => Ok(()),
            Err(_) => Err(StoreFault::NoMemory),
        }
    }
}
