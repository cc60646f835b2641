//! A law of waves, the contract of a function with nothing to do.
ghost use Rattle.std.specs.Prelude.{◌≡◌, ℕ, List};
ghost use Rattle.bus_base.specs.declared.samples.Pair.{Pair};
ghost use Rattle.bus_wave.specs.Waves.{wave_changes};
ghost use Rattle.bus_wave.specs.ReadBack.{ticks_of};

/// The ticks of a capture are found again in its wave: its times and levels, read one after the other, give what both channels showed in each tick, and no
/// tick more.
pub fn the_ticks_are_found_in_the_wave()
    ensures { (k : ℕ) (past : List Pair) → ticks_of (wave_changes k past) ≡ past }
{}
