//! The diary that a folder in memory may keep: the calls that were made of it, and how each ended.
ghost use Rattle.std.specs.Prelude.{◌≡◌, ◌∷◌, [], None, Some, Err, IfOk, option_map};
ghost use Rattle.outside_io.specs.Diary.{Adds, load_call, load_end, piece_call, store_call, store_end};

use crate::folder::{LoadErr, StoreErr};
use std::alloc::{AllocError as NoMemory, Global};
use std::marker::Model;

/// What a call of a folder asked.
#[derive(Clone, Copy, Debug, PartialEq, Eq)]
pub enum CallKind {
    Load,
    Begin,
    Piece,
    Store,
}

/// How a call of a folder ended.
#[derive(Clone, Copy, Debug, PartialEq, Eq)]
pub enum CallEnd {
    Done,
    Failed,
    TooLong,
    NoMemory,
}

/// A call of a folder in memory. A piece is of the file that was begun last, and has no name.
#[derive(Debug, Drop)]
pub struct MemoryCall {
    pub kind: CallKind,
    pub name: String,
    pub end: CallEnd,
}

impl Model for MemoryCall {
    ghost use Rattle.std.specs.Prelude.{string_bytes};
    ghost use Rattle.outside_io.specs.Diary.{FolderCall};

    ghost Value = { FolderCall };

    ghost view = { λ a. record { kind = a.kind; name = string_bytes a.name; end = a.end } };
}

/// The calls so far, the latest first, or none if no diary is kept. A diary is lost if memory runs out for an entry.
#[derive(Debug, Drop)]
pub(crate) struct Diary {
    calls: Option<Vec<MemoryCall>>,
}

impl Model for Diary {
    ghost use Rattle.std.specs.Prelude.{List, Option, option_map};
    ghost use Rattle.outside_io.specs.Diary.{FolderCall};

    ghost Value = { Option (List FolderCall) };

    ghost view = { λ a. option_map (λ calls. calls.items) a.calls };
}

// Returns how a load, a `begin` or a piece ended.
fn load_end(ended: Result<(), LoadErr>) -> CallEnd
    ensures { result ≡ load_end ended }
{
    match ended {
        Ok(()) => CallEnd::Done,
        Err(LoadErr::Failed) => CallEnd::Failed,
        Err(LoadErr::TooLong) => CallEnd::TooLong,
        Err(LoadErr::NoMemory) => CallEnd::NoMemory,
    }
}

// Returns how a store ended.
fn store_end(ended: Result<(), StoreErr>) -> CallEnd
    ensures { result ≡ store_end ended }
{
    match ended {
        Ok(()) => CallEnd::Done,
        Err(StoreErr::Failed) => CallEnd::Failed,
        Err(StoreErr::NoMemory) => CallEnd::NoMemory,
    }
}

// Returns these calls with one more, as the latest. Fails only if memory runs out.
fn with_call(
    calls: Vec<MemoryCall>,
    kind: CallKind,
    name: &str,
    end: CallEnd,
) -> Result<Vec<MemoryCall>, NoMemory>
    ensures { IfOk result (λ new. new.items ≡ record { kind = kind; name = name.now; end = end } ∷ calls.items) }
{
    let mut calls = calls;
    let name = String::from_str(*calls.allocator(), name)?;
    calls.insert(0, MemoryCall { kind, name, end })?;
    Ok(calls)
}

impl Diary {
    /// Returns no diary.
    pub(crate) fn none() -> Diary
        ensures { result ≡ None }
    {
        Diary { calls: None }
    }

    /// Returns a diary without calls.
    pub(crate) fn empty(alloc: Global) -> Diary
        ensures { result ≡ Some [] }
    {
        Diary {
            calls: Some(Vec::new(alloc)),
        }
    }

    /// Returns the calls so far, the latest first.
    pub(crate) fn calls(&self) -> Option<&[MemoryCall]>
        ensures { option_map (λ calls. calls.now) result ≡ self.now }
    {
        match &self.calls {
            Some(calls) => Some(calls),
            None => None,
        }
    }

    // Adds a call.
    fn add(&mut self, kind: CallKind, name: &str, end: CallEnd)
        ensures { Adds (record { kind = kind; name = name.now; end = end }) self.old self.new }
    {
        let Some(calls) = self.calls.take() else {
            return;
        };
        if let Ok(more) = with_call(calls, kind, name, end) {
            self.calls = Some(more);
        }
    }

    /// Adds a load or a `begin` of the file of this name, which ended so, and returns how it ended.
    pub(crate) fn loaded(
        &mut self,
        kind: CallKind,
        name: &str,
        ended: Result<(), LoadErr>,
    ) -> Result<(), LoadErr>
        ensures same { result ≡ ended }
        ensures added { Adds (load_call kind name.now ended) self.old self.new }
    {
        self.add(kind, name, load_end(ended));
        ended
    }

    /// Adds a piece that failed so, and returns the error.
    pub(crate) fn not_read(&mut self, why: LoadErr) -> Result<(), LoadErr>
        ensures same { result ≡ Err why }
        ensures added { Adds (piece_call (Err why)) self.old self.new }
    {
        self.add(CallKind::Piece, "", load_end(Err(why)));
        Err(why)
    }

    /// Adds a store under this name, which ended so, and returns how it ended.
    pub(crate) fn stored(&mut self, name: &str, ended: Result<(), StoreErr>) -> Result<(), StoreErr>
        ensures same { result ≡ ended }
        ensures added { Adds (store_call name.now ended) self.old self.new }
    {
        self.add(CallKind::Store, name, store_end(ended));
        ended
    }
}
