//! A sink in memory.

ghost use Rattle.std.specs.Prelude.{◌≡◌, ◌≤◌, ◌↔◌, ◌⊎◌, Some, [], length, IfOk, IsErr, true};
ghost use Rattle.mari_io.specs.Outside.{Counts, taken_after, TookNothing, GaveError};
ghost use Rattle.mari_io.specs.Memory.{write_fails, takes, after_write};

use crate::{Failed, FaultPlan, Sink};
use mari_units::Memory;
use std::alloc::Global;
use std::marker::Model;

/// A sink in memory, which reports what it took. It has room for `room` bytes, takes at most `most` in a call, and a
/// write that the plan names fails.
#[derive(Drop)]
pub struct MemorySink {
    bytes: Vec<u8>,
    most: u32,
    room: u32,
    plan: FaultPlan,
    calls: u64,
    faults: u64,
}

impl Model for MemorySink {
    ghost use Rattle.std.specs.Prelude.{◌≤◌, length, vec_capacity};
    ghost use Rattle.mari_io.specs.Memory.{SinkState};

    ghost Value = { SinkState };

    ghost view = { λ s. record { bytes = s.bytes.items; most = s.most; room = s.room; plan = s.plan; calls = s.calls; faults = s.faults } };

    ghost invariant = { λ s. (length s.bytes.items ≤ s.room) × (s.room ≤ vec_capacity s.bytes) };
}

impl MemorySink {
    /// An empty sink with room for `room` bytes, which are reserved here, so that no write takes memory.
    pub fn new(alloc: Global, most: u32, room: u32, plan: FaultPlan) -> Result<MemorySink, Memory>
        ensures { IfOk result (λ sink. sink ≡ record { bytes = []; most = most; room = room; plan = plan; calls = 0; faults = 0 }) }
    {
        let bytes = Vec::with_capacity(alloc, room as usize)?;
        Ok(MemorySink {
            bytes,
            most,
            room,
            plan,
            calls: 0,
            faults: 0,
        })
    }

    /// What the sink took.
    pub fn bytes(&self) -> &[u8]
        ensures { result.now ≡ self.now.bytes }
    {
        &self.bytes
    }
}

impl Sink for MemorySink {
    ghost taken = { λ s. Some s.bytes };

    ghost faults = { λ s. s.faults };

    /// Takes the first bytes of the piece: the least of its length, `most`, and what is left of the room.
    fn write(&mut self, piece: &[u8]) -> Result<usize, Failed>
        ensures bound { IfOk result (λ n. n ≤ length piece.now) }
        ensures taken { Some self.new.bytes ≡ taken_after (Some self.old.bytes) piece.now result }
        ensures cause { Counts (GaveError result ⊎ TookNothing piece.now result) self.old.faults self.new.faults }

        // The plan alone makes a call fail, and nothing else raises the count.
        ensures planned { IsErr result ↔ (write_fails self.old ≡ true) }
        ensures count { IfOk result (λ n. n ≡ takes self.old piece.now) }
        ensures counts { self.new ≡ after_write self.old piece.now result }
    {
        self.calls = self.calls.saturating_add(1);
        if self.plan.names(self.calls) {
            self.faults = self.faults.saturating_add(1);
            return Err(Failed);
        }
        let left = self.room as usize - self.bytes.len();
        let count = piece.len().min((self.most as usize).min(left));
        if count == 0 && !piece.is_empty() {
            self.faults = self.faults.saturating_add(1);
        }
        self.bytes.extend_from_slice(&piece[..count]).unwrap();
        Ok(count)
    }
}
