//! A sink in memory, for tests: it keeps what was written, and chosen writes fail.

ghost use Rattle.std.specs.Prelude.{◌≡◌, ◌-◌, ◌++◌, ◌≤◌, ◌↔◌, [], take, length, min, IsTrue, IfOk};

use crate::fault_plan::FaultPlan;
use crate::sink::{Failed, Sink};
use std::alloc::{AllocError as NoMemory, Global};
use std::marker::Model;

/// A modelled sink in memory, for tests.
#[derive(Debug, Drop)]
pub struct MemorySink {
    held: Vec<u8>,
    // How many more bytes fit. Their room is reserved.
    room: usize,
    plan: FaultPlan,
}

impl Model for MemorySink {
    ghost use Rattle.std.specs.Prelude.{◌==◌, ◌+◌, ◌≤◌, length, vec_len, vec_capacity};
    ghost use Rattle.outside_io.specs.Memory.{SinkView};

    ghost Value = { SinkView };

    ghost view = { λ a. record { held = a.held.items; room = a.room; faults = a.plan.faults; steady = length a.plan.failing.items == 0 } };

    ghost invariant = { λ a. vec_len a.held + a.room ≤ vec_capacity a.held };
}

impl MemorySink {
    /// Returns a sink with room for this many bytes. Writes of at least one byte are counted from 1; those whose numbers are in
    /// `failing` fail and write nothing.
    ///
    /// # Errors
    ///
    /// Fails only if memory runs out.
    pub fn new(alloc: Global, room: usize, failing: Vec<u64>) -> Result<MemorySink, NoMemory>
        ensures held { IfOk result (λ sink. sink.held ≡ []) }
        ensures room { IfOk result (λ sink. sink.room ≡ room) }
        ensures faults { IfOk result (λ sink. sink.faults ≡ 0) }
        ensures steady { IfOk result (λ sink. IsTrue sink.steady ↔ (failing.items ≡ [])) }
    {
        Ok(MemorySink {
            held: Vec::with_capacity(alloc, room)?,
            room,
            plan: FaultPlan::new(failing),
        })
    }

    /// Returns the bytes written so far.
    pub fn bytes(&self) -> &[u8]
        ensures { result.now ≡ self.now.held }
    {
        &self.held
    }

    // Writes as many of the bytes as fit, from the first on, and returns their number.
    fn send(&mut self, bytes: &[u8]) -> usize
        ensures sent { result ≡ min (length bytes.now) self.old.room }
        ensures held { self.new.held ≡ self.old.held ++ take result bytes.now }
        ensures room { self.new.room ≡ self.old.room - result }
        ensures faults { self.new.faults ≡ self.old.faults }
        ensures steady { self.new.steady ≡ self.old.steady }
    {
        let sent = bytes.len().min(self.room);
        // The room is reserved, so this allocates nothing.
        self.held.extend_from_slice(&bytes[..sent]).unwrap();
        self.room -= sent;
        sent
    }
}

impl Sink for MemorySink {
    ghost use Rattle.std.specs.Prelude.{Some, if◌then◌else◌};

    ghost modelled = { λ s. record { held = Some s.held; faults = s.faults; sure = if s.steady then s.room else 0 } };

    fn write(&mut self, bytes: &[u8]) -> Result<(), Failed> {
        if bytes.is_empty() {
            return Ok(());
        }
        if self.plan.next_fails() {
            return Err(Failed);
        }
        if self.send(bytes) < bytes.len() {
            self.plan.count_fault();
            return Err(Failed);
        }
        Ok(())
    }
}
