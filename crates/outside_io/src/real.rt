//! The folder and sink of the operating system: its files and its standard output. Neither is modelled.
ghost use Rattle.std.specs.Prelude.{◌≡◌, ◌<◌, ◌≤◌, [], length, false, OnOk, OnErr, IfSome};
ghost use Rattle.std.specs.Io.KnownBytes.{Consumes};
ghost use Rattle.outside_io.specs.Pieces.{piece_size};

use crate::atomic_store::store_together;
use crate::folder::{Folder, LoadErr, NewFile, PIECE_SIZE, StoreErr, Unstored};
use crate::sink::{Failed, Sink};
use crate::writing::write_all;
use std::alloc::Global;
use std::fs::OpenFile;
use std::io::Read;
use std::marker::Model;
use std::rt::Files;
use std::{fs, io};

/// The files of the operating system; a name is a path. Contracts see the count of faults, whether a file is open for pieces, how
/// many of its bytes were read, and its limit.
#[derive(Drop)]
pub struct RealFolder<'r, R: Files> {
    files: &'r R,
    alloc: Global,
    faults: u64,
    // The file that is open for pieces, until its end was met.
    begun: Option<R::File>,
    come: u64,
    most: u64,
}

impl<'r, R: Files> Model for RealFolder<'r, R> {
    ghost use Rattle.std.specs.Prelude.{◌≤◌, is_some};
    ghost use Rattle.outside_io.specs.Real.{RealView};

    ghost Value = { RealView };

    ghost view = { λ a. record { faults = a.faults; begun = is_some a.begun; come = a.come; most = a.most } };

    ghost invariant = { λ a. a.come ≤ a.most };
}

impl<'r, R: Files> RealFolder<'r, R> {
    /// Returns a folder with no fault so far and no open file.
    pub fn new(files: &'r R, alloc: Global) -> RealFolder<'r, R>
        ensures faults { result.faults ≡ 0 }
        ensures begun { result.begun ≡ false }
        ensures come { result.come ≡ 0 }
        ensures most { result.most ≡ 0 }
    {
        RealFolder {
            files,
            alloc,
            faults: 0,
            begun: None,
            come: 0,
            most: 0,
        }
    }
}

/// The standard output. Contracts see its count of faults.
#[derive(Drop)]
pub struct RealSink<'r, R> {
    out: &'r R,
    faults: u64,
}

impl<'r, R> Model for RealSink<'r, R> {
    ghost use Rattle.std.specs.Prelude.{ℕ};

    ghost Value = { ℕ };

    ghost view = { λ a. a.faults };
}

impl<'r, R: Print> RealSink<'r, R> {
    /// Returns a sink with no fault so far.
    pub fn new(out: &'r R) -> RealSink<'r, R>
        ensures { result ≡ 0 }
    {
        RealSink { out, faults: 0 }
    }
}

// Reads to the end of the file, or to the first piece that exceeds the limit.
fn read_all<F: Read>(file: &mut F, limit: u64, into: &mut Vec<u8>) -> Result<(), LoadErr>
    requires { into.old.items ≡ [] }
    ensures within { OnOk result (length into.new.items ≤ limit) }
    // If the reader is modelled, all that it had left was read.
    ensures whole { OnOk result (IfSome (F.remaining file.old) (λ bytes. into.new.items ≡ bytes)) }
    ensures long { result ≡ Err LoadErr.TooLong → IfSome (F.remaining file.old) (λ bytes. limit < length bytes) }
{
    let mut piece = [0; PIECE_SIZE];
    for _ in 0..u64::MAX {
        let left = limit - into.len() as u64;
        let wanted = left.saturating_add(1).min(PIECE_SIZE as u64) as usize;
        match file.read(&mut piece[..wanted]) {
            Err(_) => return Err(LoadErr::Failed),
            Ok(0) => return Ok(()),
            Ok(count) if count as u64 > left => return Err(LoadErr::TooLong),
            Ok(count) => into.extend_from_slice(&piece[..count])?,
        }
    }
    Err(LoadErr::Failed)
}

// Reads the next piece of a file. At most `room` further bytes are allowed.
fn read_piece<F: Read>(file: &mut F, room: u64, into: &mut Vec<u8>) -> Result<(), LoadErr>
    requires { into.old.items ≡ [] }
    ensures size { length into.new.items ≤ piece_size }
    ensures within { length into.new.items ≤ room }
    ensures near { result ≡ Err LoadErr.TooLong → room < piece_size }
    ensures empty { OnErr result (into.new.items ≡ []) }
    // If the reader is modelled, its next bytes were read, and none only at its end.
    ensures read { OnOk result (Consumes (F.remaining file.old) (F.remaining file.new) into.new.items) }
    ensures end { OnOk result (into.new.items ≡ [] → IfSome (F.remaining file.old) (λ bytes. bytes ≡ [])) }
    ensures long { result ≡ Err LoadErr.TooLong → IfSome (F.remaining file.old) (λ bytes. room < length bytes) }
{
    let mut piece = [0; PIECE_SIZE];
    let wanted = room.saturating_add(1).min(PIECE_SIZE as u64) as usize;
    match file.read(&mut piece[..wanted]) {
        Err(_) => return Err(LoadErr::Failed),
        Ok(count) if count as u64 > room => return Err(LoadErr::TooLong),
        Ok(count) => into.extend_from_slice(&piece[..count])?,
    }
    Ok(())
}

// Whether a plain file is longer than the limit, according to the system. If the file grows later, reading it reports `TooLong`.
fn is_longer<F: OpenFile>(file: &F, limit: u64) -> bool {
    match file.metadata() {
        Ok(found) => found.is_file() && found.len() > limit,
        Err(_) => false,
    }
}

impl<'r, R: Files> Folder for RealFolder<'r, R> {
    ghost use Rattle.std.specs.Prelude.{None, Some, false, if◌then◌else◌};

    ghost modelled = { λ s. record { files = None; faults = s.faults; steady = false; calls = None } };

    ghost left = { λ s. if s.begun then None else Some [] };

    ghost come = { λ s. s.come };

    ghost most = { λ s. s.most };

    fn load(&mut self, name: &str, limit: u64, into: &mut Vec<u8>) -> Result<(), LoadErr> {
        into.clear();
        let loaded = match fs::open(self.files, name) {
            Ok(mut file) => read_all(&mut file, limit, into),
            Err(_) => Err(LoadErr::Failed),
        };
        if loaded.is_err() {
            into.clear();
        }
        if loaded == Err(LoadErr::Failed) {
            self.faults = self.faults.saturating_add(1);
        }
        loaded
    }

    fn store(&mut self, name: &str, bytes: &[u8]) -> Result<(), StoreErr> {
        match self.store_all(&[NewFile { name, bytes }]) {
            Ok(()) => Ok(()),
            Err(unstored) => Err(unstored.why),
        }
    }

    fn store_all(&mut self, files: &[NewFile<'_>]) -> Result<(), Unstored> {
        let Err(unstored) = store_together(self.files, self.alloc, files) else {
            return Ok(());
        };
        if let StoreErr::Failed = unstored.why {
            self.faults = self.faults.saturating_add(1);
        }
        Err(unstored)
    }

    fn begin(&mut self, name: &str, limit: u64) -> Result<(), LoadErr> {
        self.begun = None;
        self.come = 0;
        self.most = limit;
        let Ok(file) = fs::open(self.files, name) else {
            self.faults = self.faults.saturating_add(1);
            return Err(LoadErr::Failed);
        };
        if is_longer(&file, limit) {
            return Err(LoadErr::TooLong);
        }
        self.begun = Some(file);
        Ok(())
    }

    fn piece(&mut self, into: &mut Vec<u8>) -> Result<(), LoadErr> {
        into.clear();
        let Some(file) = &mut self.begun else {
            return Ok(());
        };
        let read = read_piece(file, self.most - self.come, into);
        self.come += into.len() as u64;
        if into.is_empty() {
            self.begun = None;
        }
        if read == Err(LoadErr::Failed) {
            self.faults = self.faults.saturating_add(1);
        }
        read
    }
}

impl<'r, R: Print> Sink for RealSink<'r, R> {
    ghost use Rattle.std.specs.Prelude.{None};

    ghost modelled = { λ faults. record { held = None; faults = faults; sure = 0 } };

    fn write(&mut self, bytes: &[u8]) -> Result<(), Failed> {
        let written = write_all(&mut io::writer(self.out), bytes);
        if written.is_err() {
            self.faults = self.faults.saturating_add(1);
        }
        written
    }
}
