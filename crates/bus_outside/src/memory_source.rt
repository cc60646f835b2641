//! A source whose bytes lie in memory, and that fails where a test wants it to.
ghost use Rattle.std.specs.Prelude.{◌≡◌, min, length, IfOk, OnOk, OnErr, Some, IsTrue, false};
ghost use Rattle.std.specs.Io.{ReadsAtMost};
ghost use Rattle.std.specs.Io.KnownBytes.{ReadConsumes};
ghost use Rattle.bus_outside.specs.Causes.{HasCause, SameTelling, one_more, faults_after};
ghost use Rattle.bus_outside.specs.Memory.{fails_at};

use crate::copying::copy_front;
use crate::{Failed, Source};
use std::marker::Model;

/// A source of bytes in memory that gives them in small pieces and fails where it is told to.
#[derive(Drop)]
pub struct MemorySource {
    bytes: Vec<u8>,
    at: usize,
    fails: Vec<u64>,
    most: usize,
    reads: u64,
    faults: u64,
}

impl Model for MemorySource {
    ghost use Rattle.std.specs.Prelude.{drop, length, ◌≤◌, ◌<◌};
    ghost use Rattle.bus_outside.specs.Memory.{SourceValue};

    ghost Value = { SourceValue };

    ghost view = { λ s. record {
      left = drop s.at s.bytes.items;
      fails = s.fails.items;
      most = s.most;
      reads = s.reads;
      faults = s.faults;
    } };

    ghost invariant = { λ s. (s.at ≤ length s.bytes.items) × (0 < s.most) };
}

impl MemorySource {
    ghost use Rattle.std.specs.Prelude.{◌<◌};

    /// A source of these bytes. No read gives more than `most` bytes, which is above 0, and the reads
    /// whose number, from 1, is in `fails` fail and take nothing.
    pub fn new(bytes: Vec<u8>, fails: Vec<u64>, most: usize) -> MemorySource
        requires { 0 < most }
        ensures { result ≡ record { left = bytes.items; fails = fails.items; most = most; reads = 0; faults = 0 } }
    {
        MemorySource {
            bytes,
            at: 0,
            fails,
            most,
            reads: 0,
            faults: 0,
        }
    }
}

impl Source for MemorySource {
    ghost left = { λ s. Some s.left };

    ghost faults = { λ s. s.faults };

    /// Gives the least of the piece's length, `most` and the number of bytes left.
    fn read(&mut self, piece: &mut [u8]) -> Result<usize, Failed>
        ensures bound { ReadsAtMost result piece.new }
        ensures bytes { ReadConsumes (Some self.old.left) (Some self.new.left) result piece.new }
        ensures told { SameTelling (Some self.old.left) (Some self.new.left) }
        ensures cause { HasCause self.old.faults self.new.faults result }
        ensures count { IfOk result (λ n. n ≡ min (min (length piece.old) self.old.most) (length self.old.left)) }
        ensures fails { OnErr result (IsTrue (fails_at self.old.fails (one_more self.old.reads))) }
        ensures succeeds { OnOk result (fails_at self.old.fails (one_more self.old.reads) ≡ false) }
        ensures script { self.new ≡ record self.old {
          left = self.new.left;
          reads = one_more self.old.reads;
          faults = faults_after result self.old.faults;
        } }
    {
        self.reads = self.reads.saturating_add(1);
        if self.fails.contains(&self.reads) {
            self.faults = self.faults.saturating_add(1);
            return Err(Failed);
        }
        let count = copy_front(&self.bytes, self.at, piece, self.most);
        self.at += count;
        Ok(count)
    }
}
