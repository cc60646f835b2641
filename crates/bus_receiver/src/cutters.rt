//! Both channels, cut into bursts and slots.
ghost use Rattle.std.specs.Prelude.{◌≡◌, ℕ, ◌<◌, ◌^◌, List, length};
ghost use Rattle.bus_base.specs.declared.samples.Sample.{Sample};
ghost use Rattle.bus_line.specs.Past.{quiet_ticks};
ghost use Rattle.bus_line.specs.declared.cutter.TheConstants.{LAG};
ghost use Rattle.bus_receiver.specs.Cuts.{cut_on, CuttersStand, CuttersHear};
ghost use Rattle.bus_receiver.specs.Nothing as nothing;

use bus_base::{Channel, Pair};
use bus_line::{Cut, Cutter};

/// What became known of the bursts on both channels in a tick.
#[derive(Clone, Copy)]
pub struct Cuts {
    pub a: Cut,
    pub b: Cut,
}

impl Cuts {
    /// What became known on a channel.
    #[inline(always)]
    pub fn on(&self, channel: Channel) -> Cut
        ensures { result ≡ cut_on self.now channel }
    {
        match channel {
            Channel::A => self.a,
            Channel::B => self.b,
        }
    }

    /// Whether nothing became known on either: no slot and no burst ended.
    #[inline(always)]
    pub fn are_nothing(&self) -> bool
        ensures { result ≡ nothing.are_nothing self.now }
    {
        is_nothing(self.a) && is_nothing(self.b)
    }
}

// Whether nothing became known of a channel.
#[inline(always)]
fn is_nothing(cut: Cut) -> bool
    ensures { result ≡ nothing.is_nothing cut }
{
    matches!(cut, Cut::Nothing)
}

/// A cutter for each channel.
#[derive(Drop)]
pub struct Cutters {
    a: Cutter,
    b: Cutter,
}

impl Cutters {
    /// Cutters that heard nothing, or any number of quiet ticks.
    pub fn new() -> Cutters
        ensures { (n m : ℕ) → CuttersStand LAG result (quiet_ticks n) (quiet_ticks m) }
    {
        Cutters {
            a: Cutter::new(),
            b: Cutter::new(),
        }
    }

    /// Hears what both channels show in a tick. For all that the cutters stood for, what they tell is found in it with this tick, and they stand for
    /// it with this tick.
    #[inline(always)]
    pub fn hear(&mut self, shown: Pair) -> Cuts
        requires { (on_a : List Sample) × (on_b : List Sample) × CuttersStand LAG self.old on_a on_b × (length on_a < 2 ^ 60) × (length on_b < 2 ^ 60) }
        ensures { CuttersHear LAG self.old self.new shown result }
    {
        let a = self.a.hear(shown.a);
        let b = self.b.hear(shown.b);
        Cuts { a, b }
    }
}
