//! A sink that keeps its bytes in memory, and that fails where a test wants it to.
ghost use Rattle.std.specs.Prelude.{◌≡◌, ◌+◌, ◌≤◌, ◌<◌, ◌⊎◌, [], ◌++◌, length, IfOk, OnOk, OnErr, Some, IsTrue, false};
ghost use Rattle.bus_outside.specs.Causes.{HasCause, SameTelling, WriteAdds, one_more, faults_after};
ghost use Rattle.bus_outside.specs.Memory.{fails_at};

use crate::{Failed, Sink};
use std::alloc::{AllocError, Global};
use std::marker::Model;

/// A sink that holds what is written in memory, up to its room, and fails where it is told to.
#[derive(Drop)]
pub struct MemorySink {
    held: Vec<u8>,
    room: usize,
    fails: Vec<u64>,
    writes: u64,
    faults: u64,
}

impl Model for MemorySink {
    ghost use Rattle.std.specs.Prelude.{◌≤◌, vec_len, vec_capacity};
    ghost use Rattle.bus_outside.specs.Memory.{SinkValue};

    ghost Value = { SinkValue };

    ghost view = { λ s. record {
      held = s.held.items;
      fails = s.fails.items;
      room = s.room;
      writes = s.writes;
      faults = s.faults;
    } };

    ghost invariant = { λ s. (vec_len s.held ≤ s.room) × (s.room ≤ vec_capacity s.held) };
}

impl MemorySink {
    /// A sink with room for so many bytes. The writes whose number, from 1, is in `fails` fail, and
    /// so does each whose piece doesn't fit in the room left; they add nothing.
    ///
    /// # Errors
    ///
    /// `AllocError` where there is no memory for the room. No later call takes any.
    pub fn new(alloc: Global, room: usize, fails: Vec<u64>) -> Result<MemorySink, AllocError>
        ensures { IfOk result (λ sink. sink ≡ record { held = []; fails = fails.items; room = room; writes = 0; faults = 0 }) }
    {
        let held = Vec::with_capacity(alloc, room)?;
        Ok(MemorySink {
            held,
            room,
            fails,
            writes: 0,
            faults: 0,
        })
    }

    /// The bytes held.
    pub fn bytes(&self) -> &[u8]
        ensures { result.now ≡ self.now.held }
    {
        &self.held
    }
}

impl Sink for MemorySink {
    ghost held = { λ s. Some s.held };

    ghost faults = { λ s. s.faults };

    fn write(&mut self, piece: &[u8]) -> Result<(), Failed>
        ensures bytes { WriteAdds (Some self.old.held) (Some self.new.held) result piece.now }
        ensures told { SameTelling (Some self.old.held) (Some self.new.held) }
        ensures cause { HasCause self.old.faults self.new.faults result }
        ensures nothing { OnErr result (self.new.held ≡ self.old.held) }
        ensures fails { OnErr result (
            IsTrue (fails_at self.old.fails (one_more self.old.writes))
            ⊎ (self.old.room < length self.old.held + length piece.now)) }
        ensures succeeds { OnOk result (
            (fails_at self.old.fails (one_more self.old.writes) ≡ false)
            × (length self.old.held + length piece.now ≤ self.old.room)) }
        ensures script { self.new ≡ record self.old {
          held = self.new.held;
          writes = one_more self.old.writes;
          faults = faults_after result self.old.faults;
        } }
    {
        self.writes = self.writes.saturating_add(1);
        if self.fails.contains(&self.writes) || piece.len() > self.room - self.held.len() {
            self.faults = self.faults.saturating_add(1);
            return Err(Failed);
        }
        // There is room, so nothing is allocated.
        match self.held.extend_from_slice(piece) {
            Ok(()) => Ok(()),
            Err(_) => unreachable!(),
        }
    }
}
