// The two traits, and what they mean.
ghost use Rattle.std.specs.Prelude.{ℕ, List};
ghost use Rattle.std.specs.declared.option.Option.{Option};
ghost use Rattle.std.specs.Io.{ReadsAtMost};
ghost use Rattle.std.specs.Io.KnownBytes.{ReadConsumes};
ghost use Rattle.bus_outside.specs.Causes.{HasCause, SameTelling, WriteAdds};

/// A read or a write that failed. The source or sink has counted it.
#[derive(Clone, Copy, Debug, PartialEq, Eq)]
pub struct Failed;

/// Where bytes come from.
pub trait Source {
    /// The bytes left, where the source tells them. Each call keeps whether it does.
    ghost left: { Self → Option (List ℕ) };

    /// How often the source has failed. It never falls.
    ghost faults: { Self → ℕ };

    /// Puts the first bytes left into the front of the piece, and says how many. 0 for a piece that
    /// isn't empty means that nothing is left.
    ///
    /// # Errors
    ///
    /// `Failed` only where the count of faults rose or stands at its last value. The bytes left stay.
    fn read(&mut self, piece: &mut [u8]) -> Result<usize, Failed>
        ensures bound { ReadsAtMost result piece.new }
        ensures bytes { ReadConsumes (left self.old) (left self.new) result piece.new }
        ensures told { SameTelling (left self.old) (left self.new) }
        ensures cause { HasCause (faults self.old) (faults self.new) result };
}

/// Where bytes go.
pub trait Sink {
    /// The bytes held, where the sink tells them. Each call keeps whether it does.
    ghost held: { Self → Option (List ℕ) };

    /// How often the sink has failed. It never falls.
    ghost faults: { Self → ℕ };

    /// Adds the whole piece to the bytes held.
    ///
    /// # Errors
    ///
    /// `Failed` only where the count of faults rose or stands at its last value. A front of the
    /// piece was added, maybe an empty one.
    fn write(&mut self, piece: &[u8]) -> Result<(), Failed>
        ensures bytes { WriteAdds (held self.old) (held self.new) result piece.now }
        ensures told { SameTelling (held self.old) (held self.new) }
        ensures cause { HasCause (faults self.old) (faults self.new) result };
}
