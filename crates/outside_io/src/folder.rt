//! The files that a program reads and stores: the trait `Folder`, and why a call of it fails.
ghost use Rattle.std.specs.Prelude.{◌≡◌, ◌≢◌, ◌<◌, ◌≤◌, ◌+◌, ℕ, [], List, Option, true, Some, IfErr, OnErr, OnOk, length, map};
ghost use Rattle.outside_io.specs.declared.diary.CallKind.TheVariants.{Load, Begin};
ghost use Rattle.outside_io.specs.Diary.{Adds, AddsPiece, load_call, store_call};
ghost use Rattle.outside_io.specs.Faults.{HasRisen};
ghost use Rattle.outside_io.specs.StoreAll.{AreAllStored, StopsAt, stored_file};
ghost use Rattle.outside_io.specs.Loads.{FindsExisting, Loads, Stores};
ghost use Rattle.outside_io.specs.Pieces.{Begins, GivesPiece, piece_size};
ghost use Rattle.outside_io.specs.Models.{FolderModel};

use std::alloc::AllocError;

/// The most bytes in a piece of a file.
pub const PIECE_SIZE: usize = 65_536;

/// Why a file was not loaded.
#[derive(Clone, Copy, Debug, PartialEq, Eq)]
pub enum LoadErr {
    /// The outside failed, or there is no file of that name.
    Failed,
    /// The file is longer than the limit.
    TooLong,
    NoMemory,
}

impl From<AllocError> for LoadErr {
    ghost use Rattle.outside_io.specs.declared.folder.LoadErr.TheVariants.{NoMemory};

    ghost from_gives = { λ _ why. why ≡ NoMemory };

    fn from(_: AllocError) -> LoadErr {
        LoadErr::NoMemory
    }
}

/// Why a file was not stored.
#[derive(Clone, Copy, Debug, PartialEq, Eq)]
pub enum StoreErr {
    /// The outside failed.
    Failed,
    NoMemory,
}

impl From<AllocError> for StoreErr {
    ghost use Rattle.outside_io.specs.declared.folder.StoreErr.TheVariants.{NoMemory};

    ghost from_gives = { λ _ why. why ≡ NoMemory };

    fn from(_: AllocError) -> StoreErr {
        StoreErr::NoMemory
    }
}

/// A file to store: its name, and its new bytes.
#[derive(Clone, Copy, Debug)]
pub struct NewFile<'a> {
    pub name: &'a str,
    pub bytes: &'a [u8],
}

/// Which of several files was not stored, by its place among them from 0, and why.
#[derive(Clone, Copy, Debug, PartialEq, Eq)]
pub struct Unstored {
    pub at: usize,
    pub why: StoreErr,
}

impl Unstored {
    /// Returns the error that the file at this place was not stored.
    pub fn new(at: usize, why: StoreErr) -> Unstored
        ensures at { result.at ≡ at }
        ensures why { result.why ≡ why }
    {
        Unstored { at, why }
    }
}

/// Files by name. One file at a time may be read in pieces: `begin` opens it, and each `piece` returns its next bytes. Loads and
/// stores do not disturb it.
pub trait Folder {
    /// The files of a modelled folder, the count of faults, whether the outside never fails, and the diary if one is kept.
    ghost modelled: { Self → FolderModel };

    /// The bytes of the open file that are still to be read, in a modelled folder. If no file is open, no bytes are left in any
    /// folder.
    ghost left: { Self → Option (List ℕ) };

    /// The number of bytes read in pieces since the last `begin`.
    ghost come: { Self → ℕ };

    /// The limit of the last `begin`, in bytes.
    ghost most: { Self → ℕ };

    /// Loads a file of at most `limit` bytes into `into`, which is empty after an error.
    fn load(&mut self, name: &str, limit: u64, into: &mut Vec<u8>) -> Result<(), LoadErr>
        ensures modelled { Loads (modelled self.old).files name.now limit result into.new.items }
        ensures within { OnOk result (length into.new.items ≤ limit) }
        ensures empty { OnErr result (into.new.items ≡ []) }
        ensures files { (modelled self.new).files ≡ (modelled self.old).files }
        ensures counted { (modelled self.old).faults ≤ (modelled self.new).faults }
        ensures failed { result ≡ Err LoadErr.Failed → HasRisen (modelled self.old).faults (modelled self.new).faults }
        ensures faults_unchanged { result ≢ Err LoadErr.Failed → (modelled self.new).faults ≡ (modelled self.old).faults }
        ensures left { left self.new ≡ left self.old }
        ensures come { come self.new ≡ come self.old }
        ensures most { most self.new ≡ most self.old }
        ensures steady { (modelled self.new).steady ≡ (modelled self.old).steady }
        ensures steady_never_fails { FindsExisting (modelled self.old) name.now result }
        ensures called { Adds (load_call Load name.now result) (modelled self.old).calls (modelled self.new).calls };

    /// Replaces the contents of the file of this name by these bytes, or makes the file. After an error that file may hold
    /// anything, or be gone; other files are unchanged.
    fn store(&mut self, name: &str, bytes: &[u8]) -> Result<(), StoreErr>
        ensures modelled { Stores (modelled self.old).files (modelled self.new).files name.now bytes.now result }
        ensures counted { (modelled self.old).faults ≤ (modelled self.new).faults }
        ensures failed { result ≡ Err StoreErr.Failed → HasRisen (modelled self.old).faults (modelled self.new).faults }
        ensures faults_unchanged { result ≢ Err StoreErr.Failed → (modelled self.new).faults ≡ (modelled self.old).faults }
        ensures left { left self.new ≡ left self.old }
        ensures come { come self.new ≡ come self.old }
        ensures most { most self.new ≡ most self.old }
        ensures steady { (modelled self.new).steady ≡ (modelled self.old).steady }
        ensures steady_never_fails { (modelled self.old).steady ≡ true → result ≢ Err StoreErr.Failed }
        ensures called { Adds (store_call name.now result) (modelled self.old).calls (modelled self.new).calls };

    /// Stores these files in order, each as `store` does, up to the first that cannot be stored. If the folder is not modelled, no
    /// contract says when each file appears.
    fn store_all(&mut self, files: &[NewFile<'_>]) -> Result<(), Unstored>
        ensures stored { OnOk result (AreAllStored (map stored_file files.now) (modelled self.old) (modelled self.new)) }
        ensures stopped { IfErr result (λ e. StopsAt (map stored_file files.now) e.at e.why (modelled self.old) (modelled self.new)) }
        ensures left { left self.new ≡ left self.old }
        ensures come { come self.new ≡ come self.old }
        ensures most { most self.new ≡ most self.old };

    /// Opens a file of at most `limit` bytes for reading in pieces, in place of the one that was open. After an error no file is
    /// open and no bytes are left. In a folder that is not modelled the file is not modelled either, and `TooLong` may come only
    /// from a later piece.
    fn begin(&mut self, name: &str, limit: u64) -> Result<(), LoadErr>
        ensures modelled { Begins (modelled self.old).files name.now limit result (left self.new) }
        ensures ended { OnErr result (left self.new ≡ Some []) }
        ensures come { come self.new ≡ 0 }
        ensures most { most self.new ≡ limit }
        ensures files { (modelled self.new).files ≡ (modelled self.old).files }
        ensures counted { (modelled self.old).faults ≤ (modelled self.new).faults }
        ensures failed { result ≡ Err LoadErr.Failed → HasRisen (modelled self.old).faults (modelled self.new).faults }
        ensures faults_unchanged { result ≢ Err LoadErr.Failed → (modelled self.new).faults ≡ (modelled self.old).faults }
        ensures steady { (modelled self.new).steady ≡ (modelled self.old).steady }
        ensures steady_never_fails { FindsExisting (modelled self.old) name.now result }
        ensures called { Adds (load_call Begin name.now result) (modelled self.old).calls (modelled self.new).calls };

    /// Replaces the contents of `into` by the next bytes of the open file. No bytes mean the end of the file, or that no file is
    /// open. After an error there are no bytes, and no file is open.
    ///
    /// A file that is not modelled is too long if its bytes would exceed the limit of `begin`. That error comes only when less than
    /// a full piece is left within the limit.
    fn piece(&mut self, into: &mut Vec<u8>) -> Result<(), LoadErr>
        ensures modelled { GivesPiece (left self.old) (left self.new) result into.new.items }
        ensures size { length into.new.items ≤ piece_size }
        ensures empty { OnErr result (into.new.items ≡ []) }
        ensures ended { OnErr result (left self.new ≡ Some []) }
        ensures come { come self.new ≡ come self.old + length into.new.items }
        ensures most { most self.new ≡ most self.old }
        ensures within { come self.new ≤ most self.new }
        ensures long { result ≡ Err LoadErr.TooLong → most self.old < come self.old + piece_size }
        ensures files { (modelled self.new).files ≡ (modelled self.old).files }
        ensures counted { (modelled self.old).faults ≤ (modelled self.new).faults }
        ensures failed { result ≡ Err LoadErr.Failed → HasRisen (modelled self.old).faults (modelled self.new).faults }
        ensures faults_unchanged { result ≢ Err LoadErr.Failed → (modelled self.new).faults ≡ (modelled self.old).faults }
        ensures steady { (modelled self.new).steady ≡ (modelled self.old).steady }
        ensures steady_never_fails { (modelled self.old).steady ≡ true → result ≢ Err LoadErr.Failed }
        ensures called { AddsPiece result (modelled self.old).calls (modelled self.new).calls };
}
