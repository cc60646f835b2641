// A source and a sink that never fail.
ghost use Rattle.std.specs.Prelude.{◌≡◌, length, min, None, Some, IsOkAnd, IsOk};
ghost use Rattle.std.specs.Io.{ReadsAtMost};
ghost use Rattle.std.specs.Io.KnownBytes.{ReadConsumes};
ghost use Rattle.bus_outside.specs.Causes.{HasCause, SameTelling};

use crate::copying::copy_front;
use crate::{Failed, Sink, Source};
use std::marker::Model;

/// A source of bytes in memory that never fails: its count of faults is always 0.
#[derive(Drop)]
pub struct SteadySource {
    bytes: Vec<u8>,
    at: usize,
}

impl Model for SteadySource {
    ghost use Rattle.std.specs.Prelude.{List, ℕ, drop, ◌≤◌, length};

    ghost Value = { List ℕ };

    ghost view = { λ s. drop s.at s.bytes.items };

    ghost invariant = { λ s. s.at ≤ length s.bytes.items };
}

impl SteadySource {
    /// A source of these bytes.
    pub fn new(bytes: Vec<u8>) -> SteadySource
        ensures { result ≡ bytes.items }
    {
        SteadySource { bytes, at: 0 }
    }
}

impl Source for SteadySource {
    ghost left = { λ s. Some s };

    ghost faults = { λ _. 0 };

    /// Gives the lesser of the piece's length and the number of bytes left.
    fn read(&mut self, piece: &mut [u8]) -> Result<usize, Failed>
        ensures bound { ReadsAtMost result piece.new }
        ensures bytes { ReadConsumes (Some self.old) (Some self.new) result piece.new }
        ensures told { SameTelling (Some self.old) (Some self.new) }
        ensures cause { HasCause 0 0 result }
        ensures count { IsOkAnd result (λ n. n ≡ min (length piece.old) (length self.old)) }
    {
        let count = copy_front(&self.bytes, self.at, piece, usize::MAX);
        self.at += count;
        Ok(count)
    }
}

/// A sink that takes everything and tells nothing. It never fails: its count of faults is always 0.
#[derive(Clone, Copy, Debug)]
pub struct NullSink;

impl NullSink {
    /// The sink that keeps nothing.
    pub fn new() -> NullSink {
        NullSink
    }
}

impl Sink for NullSink {
    ghost held = { λ _. None };

    ghost faults = { λ _. 0 };

    fn write(&mut self, _piece: &[u8]) -> Result<(), Failed> {
        Ok(())
    }
}
