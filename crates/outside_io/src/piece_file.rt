//! The file that a folder in memory reads in pieces. Only `MemoryFolder` uses it.
ghost use Rattle.std.specs.Prelude.{◌≡◌, ◌+◌, ◌≤◌, [], take, drop, length, OnOk, OnErr};
ghost use Rattle.outside_io.specs.Pieces.{piece_size};

use crate::folder::PIECE_SIZE;
use std::alloc::{AllocError as NoMemory, Global};
use std::marker::Model;

/// A copy of the file's bytes, and how far they were read. If no file is open, no bytes are left.
#[derive(Debug, Drop)]
pub(crate) struct PieceFile {
    bytes: Vec<u8>,
    // The bytes from here on are left.
    next: usize,
    // How many bytes were read since the last `begin`, and its limit.
    come: u64,
    most: u64,
}

impl Model for PieceFile {
    ghost use Rattle.std.specs.Prelude.{◌+◌, ◌-◌, ◌≤◌, drop, vec_len};
    ghost use Rattle.outside_io.specs.Memory.{PieceFileView};

    ghost Value = { PieceFileView };

    ghost view = { λ a. record { left = drop a.next a.bytes.items; come = a.come; most = a.most } };

    ghost invariant = { λ a. (a.next ≤ vec_len a.bytes) × (a.come + (vec_len a.bytes - a.next) ≤ a.most) };
}

impl PieceFile {
    /// Returns the state in which no file is or was open.
    pub(crate) fn none(alloc: Global) -> PieceFile
        ensures left { result.left ≡ [] }
        ensures come { result.come ≡ 0 }
        ensures most { result.most ≡ 0 }
    {
        PieceFile {
            bytes: Vec::new(alloc),
            next: 0,
            come: 0,
            most: 0,
        }
    }

    /// Closes the file: no bytes are left.
    pub(crate) fn end(&mut self)
        ensures left { self.new.left ≡ [] }
        ensures come { self.new.come ≡ self.old.come }
        ensures most { self.new.most ≡ self.old.most }
        ensures within { self.new.come ≤ self.new.most }
    {
        self.bytes.clear();
        self.next = 0;
    }

    /// Closes the file and sets the limit for the next one, in bytes.
    pub(crate) fn limit_to(&mut self, limit: u64)
        ensures left { self.new.left ≡ [] }
        ensures come { self.new.come ≡ 0 }
        ensures most { self.new.most ≡ limit }
    {
        self.bytes.clear();
        self.next = 0;
        self.come = 0;
        self.most = limit;
    }

    /// Opens a file of these bytes.
    pub(crate) fn fill(&mut self, bytes: &[u8]) -> Result<(), NoMemory>
        requires ended { self.old.left ≡ [] }
        requires within { self.old.come + length bytes.now ≤ self.old.most }
        ensures filled { OnOk result (self.new.left ≡ bytes.now) }
        ensures ended { OnErr result (self.new.left ≡ []) }
        ensures come { self.new.come ≡ self.old.come }
        ensures most { self.new.most ≡ self.old.most }
    {
        self.end();
        self.bytes.extend_from_slice(bytes)?;
        Ok(())
    }

    /// Returns the next piece in `into`. After an error no file is open and no bytes are left.
    pub(crate) fn take_piece(&mut self, into: &mut Vec<u8>) -> Result<(), NoMemory>
        requires { into.old.items ≡ [] }
        ensures size { length into.new.items ≤ piece_size }
        ensures piece { OnOk result (into.new.items ≡ take piece_size self.old.left) }
        ensures rest { OnOk result (self.new.left ≡ drop piece_size self.old.left) }
        ensures empty { OnErr result (into.new.items ≡ []) }
        ensures ended { OnErr result (self.new.left ≡ []) }
        ensures come { self.new.come ≡ self.old.come + length into.new.items }
        ensures most { self.new.most ≡ self.old.most }
        ensures within { self.new.come ≤ self.new.most }
    {
        let left = &self.bytes[self.next..];
        let count = PIECE_SIZE.min(left.len());
        if into.extend_from_slice(&left[..count]).is_err() {
            self.end();
            return Err(NoMemory);
        }
        self.next += count;
        self.come += count as u64;
        Ok(())
    }
}
