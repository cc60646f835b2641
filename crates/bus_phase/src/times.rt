//! Times in picoseconds, and the ticks that are nearest to them.
ghost use Rattle.std.specs.Prelude.{◌≡◌};
ghost use Rattle.bus_phase.specs.Times as spec;

/// The picoseconds of a tick of half a bit time (MIL-STD-1553B 4.3.3.3).
pub const TICK: u64 = 500_000;

/// The whole number of ticks that is nearest to a time; half a tick counts up.
pub(crate) fn nearest(time: u64) -> u64
    ensures { result ≡ spec.nearest time }
{
    if time % TICK >= 250_000 {
        time / TICK + 1
    } else {
        time / TICK
    }
}

/// The same backwards, where half a tick counts down.
pub(crate) fn nearest_back(time: u64) -> u64
    ensures { result ≡ spec.nearest_back time }
{
    if time % TICK > 250_000 {
        time / TICK + 1
    } else {
        time / TICK
    }
}

/// Whether a time lies within 125 ns of a whole number of ticks.
pub(crate) fn is_good(time: u64) -> bool
    ensures { result ≡ spec.is_good time }
{
    time % TICK <= 125_000 || time % TICK >= 375_000
}
