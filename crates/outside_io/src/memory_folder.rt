//! A folder in memory, for the tests of this crate and of the crates above it.
ghost use Rattle.std.specs.Prelude.{◌≡◌, ◌<◌, ◌↔◌, [], length, option_map, None, IsTrue, IfOk, OnOk, OnErr, IfSome, IfNone};
ghost use Rattle.outside_io.specs.Files.{StoredFile, bytes_of, IsPlace, with_file};

use crate::diary::{CallKind, Diary, MemoryCall};
use crate::fault_plan::FaultPlan;
use crate::folder::{Folder, LoadErr, NewFile, StoreErr, Unstored};
use crate::piece_file::PieceFile;
use std::alloc::{AllocError as NoMemory, Global};
use std::marker::Model;

/// A file of a folder in memory.
#[derive(Debug, Drop)]
pub struct MemoryFile {
    /// The file's name. Names are compared as bytes.
    pub name: String,
    pub bytes: Vec<u8>,
}

impl Model for MemoryFile {
    ghost use Rattle.std.specs.Prelude.{string_bytes};
    ghost use Rattle.outside_io.specs.Files.{StoredFile};

    ghost Value = { StoredFile };

    ghost view = { λ a. record { name = string_bytes a.name; bytes = a.bytes.items } };
}

impl MemoryFile {
    /// Returns a file with a copy of this name and of these bytes.
    ///
    /// # Errors
    ///
    /// Fails only if memory runs out.
    pub fn new(alloc: Global, name: &str, bytes: &[u8]) -> Result<MemoryFile, NoMemory>
        ensures name { IfOk result (λ file. file.name ≡ name.now) }
        ensures bytes { IfOk result (λ file. file.bytes ≡ bytes.now) }
    {
        Ok(MemoryFile {
            name: String::from_str(alloc, name)?,
            bytes: Vec::from_slice(alloc, bytes)?,
        })
    }
}

/// A modelled folder in memory, for tests. Pieces come from the contents that the file had at `begin`, whatever is stored later.
#[derive(Debug, Drop)]
pub struct MemoryFolder {
    files: Vec<MemoryFile>,
    begun: PieceFile,
    plan: FaultPlan,
    diary: Diary,
}

impl Model for MemoryFolder {
    ghost use Rattle.std.specs.Prelude.{◌==◌, length};
    ghost use Rattle.outside_io.specs.Memory.{FolderView};

    ghost Value = { FolderView };

    ghost view = { λ a. record { files = a.files.items; begun = a.begun; faults = a.plan.faults; steady = length a.plan.failing.items == 0; calls = a.diary } };
}

impl MemoryFolder {
    /// Returns a folder of these files, none of them open. Calls of `load`, `store`, `begin` and `piece` are counted together from
    /// 1; those whose numbers are in `failing` fail. If several files have the same name, only the first is visible. The folder
    /// keeps no diary.
    pub fn new(files: Vec<MemoryFile>, failing: Vec<u64>) -> MemoryFolder
        ensures files { result.files ≡ files.items }
        ensures left { result.begun.left ≡ [] }
        ensures come { result.begun.come ≡ 0 }
        ensures most { result.begun.most ≡ 0 }
        ensures faults { result.faults ≡ 0 }
        ensures steady { IsTrue result.steady ↔ (failing.items ≡ []) }
        ensures calls { result.calls ≡ None }
    {
        MemoryFolder {
            begun: PieceFile::none(*files.allocator()),
            files,
            plan: FaultPlan::new(failing),
            diary: Diary::none(),
        }
    }

    /// Returns the folder that `new` returns, with a diary in which no call is entered yet. Each entry takes memory, and the diary
    /// is lost if that runs out.
    pub fn with_diary(files: Vec<MemoryFile>, failing: Vec<u64>) -> MemoryFolder
        ensures files { result.files ≡ files.items }
        ensures left { result.begun.left ≡ [] }
        ensures come { result.begun.come ≡ 0 }
        ensures most { result.begun.most ≡ 0 }
        ensures faults { result.faults ≡ 0 }
        ensures steady { IsTrue result.steady ↔ (failing.items ≡ []) }
        ensures calls { result.calls ≡ Some [] }
    {
        let alloc = *files.allocator();
        MemoryFolder {
            begun: PieceFile::none(alloc),
            files,
            plan: FaultPlan::new(failing),
            diary: Diary::empty(alloc),
        }
    }

    /// Returns the calls so far, the latest first, if the folder keeps a diary.
    pub fn calls(&self) -> Option<&[MemoryCall]>
        ensures { option_map (λ calls. calls.now) result ≡ self.now.calls }
    {
        self.diary.calls()
    }

    /// Returns the bytes of the file of this name, if there is one.
    pub fn bytes(&self, name: &str) -> Option<&[u8]>
        ensures { option_map (λ bytes. bytes.now) result ≡ bytes_of self.now.files name.now }
    {
        bytes_under(&self.files, name)
    }
}

// Returns the place of the first file of this name.
fn place(files: &[MemoryFile], name: &str) -> Option<usize>
    ensures absent { IfNone result (bytes_of files.now name.now ≡ None) }
    ensures found { IfSome result (IsPlace files.now name.now) }
{
    for (i, file) in files.iter().enumerate() {
        if file.name.as_str() == name {
            return Some(i);
        }
    }
    None
}

// Returns the bytes of the first file of this name.
fn bytes_under<'a>(files: &'a [MemoryFile], name: &str) -> Option<&'a [u8]>
    ensures { option_map (λ bytes. bytes.now) result ≡ bytes_of files.now name.now }
{
    let at = place(files, name)?;
    let file = &files[at];
    Some(&file.bytes)
}

// Stores a copy of these bytes under the name.
fn put(files: &mut Vec<MemoryFile>, name: &str, bytes: &[u8]) -> Result<(), NoMemory>
    ensures ok { OnOk result (files.new.items ≡ with_file files.old.items name.now bytes.now) }
    ensures err { OnErr result (files.new.items ≡ files.old.items) }
{
    let alloc = *files.allocator();
    match place(files, name) {
        Some(at) => files[at].bytes = Vec::from_slice(alloc, bytes)?,
        None => files.push(MemoryFile::new(alloc, name, bytes)?)?,
    }
    Ok(())
}

impl Folder for MemoryFolder {
    ghost use Rattle.std.specs.Prelude.{Some};

    ghost modelled = { λ s. record { files = Some s.files; faults = s.faults; steady = s.steady; calls = s.calls } };

    ghost left = { λ s. Some s.begun.left };

    ghost come = { λ s. s.begun.come };

    ghost most = { λ s. s.begun.most };

    fn load(&mut self, name: &str, limit: u64, into: &mut Vec<u8>) -> Result<(), LoadErr> {
        into.clear();
        if self.plan.next_fails() {
            return self
                .diary
                .loaded(CallKind::Load, name, Err(LoadErr::Failed));
        }
        let Some(bytes) = bytes_under(&self.files, name) else {
            self.plan.count_fault();
            return self
                .diary
                .loaded(CallKind::Load, name, Err(LoadErr::Failed));
        };
        if bytes.len() as u64 > limit {
            return self
                .diary
                .loaded(CallKind::Load, name, Err(LoadErr::TooLong));
        }
        if into.extend_from_slice(bytes).is_err() {
            return self
                .diary
                .loaded(CallKind::Load, name, Err(LoadErr::NoMemory));
        }
        self.diary.loaded(CallKind::Load, name, Ok(()))
    }

    fn store(&mut self, name: &str, bytes: &[u8]) -> Result<(), StoreErr> {
        if self.plan.next_fails() {
            return self.diary.stored(name, Err(StoreErr::Failed));
        }
        match put(&mut self.files, name, bytes) {
            Ok(()) => self.diary.stored(name, Ok(())),
            Err(_) => self.diary.stored(name, Err(StoreErr::NoMemory)),
        }
    }

    fn store_all(&mut self, files: &[NewFile<'_>]) -> Result<(), Unstored> {
        for (at, file) in files.iter().enumerate() {
            if let Err(why) = self.store(file.name, file.bytes) {
                return Err(Unstored::new(at, why));
            }
        }
        Ok(())
    }

    fn begin(&mut self, name: &str, limit: u64) -> Result<(), LoadErr> {
        self.begun.limit_to(limit);
        if self.plan.next_fails() {
            return self
                .diary
                .loaded(CallKind::Begin, name, Err(LoadErr::Failed));
        }
        let Some(bytes) = bytes_under(&self.files, name) else {
            self.plan.count_fault();
            return self
                .diary
                .loaded(CallKind::Begin, name, Err(LoadErr::Failed));
        };
        if bytes.len() as u64 > limit {
            return self
                .diary
                .loaded(CallKind::Begin, name, Err(LoadErr::TooLong));
        }
        if self.begun.fill(bytes).is_err() {
            return self
                .diary
                .loaded(CallKind::Begin, name, Err(LoadErr::NoMemory));
        }
        self.diary.loaded(CallKind::Begin, name, Ok(()))
    }

    fn piece(&mut self, into: &mut Vec<u8>) -> Result<(), LoadErr> {
        into.clear();
        if self.plan.next_fails() {
            self.begun.end();
            return self.diary.not_read(LoadErr::Failed);
        }
        if self.begun.take_piece(into).is_err() {
            return self.diary.not_read(LoadErr::NoMemory);
        }
        Ok(())
    }
}
