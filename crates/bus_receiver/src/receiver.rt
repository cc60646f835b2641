//! What is heard of each tick of a bus.
ghost use Rattle.std.specs.Prelude.{◌≡◌, ℕ, ◌<◌, ◌^◌, List, [], ◌∷◌, length};
ghost use Rattle.bus_base.specs.Samples.{sample_on};
ghost use Rattle.bus_base.specs.declared.samples.Pair.{Pair};
ghost use Rattle.bus_line.specs.Channels.{quiet_both};
ghost use Rattle.bus_line.specs.declared.cutter.TheConstants.{LAG};
ghost use Rattle.bus_receiver.specs.Cuts.{cut_on, CuttersHear};
ghost use Rattle.bus_receiver.specs.Moments.{moment_of, ReceiverStands};

use crate::cutters::{Cuts, Cutters};
use bus_base::{Channel, Pair, Sample, Tick};
use bus_line::Cut;

/// A tick that was heard: what both channels showed in it, and what became known with it. A receiver alone makes one, so it is that of what was heard.
#[derive(Clone, Copy)]
pub struct Moment {
    tick: Tick,
    next: Tick,
    shown: Pair,
    cuts: Cuts,
    before: u64,
    quiet: u64,
}

impl Moment {
    /// Its number.
    #[inline(always)]
    pub fn tick(&self) -> Tick
        ensures { result ≡ self.now.tick }
    {
        self.tick
    }

    /// The number of the tick to come.
    #[inline(always)]
    pub fn next(&self) -> Tick
        ensures { result ≡ self.now.next }
    {
        self.next
    }

    /// What the channels showed.
    #[inline(always)]
    pub fn shown(&self) -> Pair
        ensures { result ≡ self.now.shown }
    {
        self.shown
    }

    /// What a channel showed.
    #[inline(always)]
    pub fn sample(&self, channel: Channel) -> Sample
        ensures { result ≡ sample_on self.now.shown channel }
    {
        self.shown.on(channel)
    }

    /// What became known of the bursts on both channels.
    #[inline(always)]
    pub fn cuts(&self) -> Cuts
        ensures { result ≡ self.now.cuts }
    {
        self.cuts
    }

    /// What became known of the bursts on a channel.
    #[inline(always)]
    pub fn cut(&self, channel: Channel) -> Cut
        ensures { result ≡ cut_on self.now.cuts channel }
    {
        self.cuts.on(channel)
    }

    /// The ticks in a row before this one in which both channels were quiet.
    #[inline(always)]
    pub fn before(&self) -> u64
        ensures { result ≡ self.now.before }
    {
        self.before
    }

    /// The ticks in a row up to this one in which both channels were quiet.
    #[inline(always)]
    pub fn quiet(&self) -> u64
        ensures { result ≡ self.now.quiet }
    {
        self.quiet
    }
}

/// Listens to both channels.
#[derive(Drop)]
pub struct Receiver {
    cutters: Cutters,
    next: u64,
    quiet: u64,
}

impl Receiver {
    /// A receiver that heard nothing yet.
    #[tactic(auto, unfolding(crate::specs::Moments::ReceiverStands))]
    pub fn new() -> Receiver
        ensures { ReceiverStands LAG result [] }
    {
        Receiver {
            cutters: Cutters::new(),
            next: 0,
            quiet: 0,
        }
    }

    /// Hears a tick.
    #[tactic(auto, unfolding(crate::specs::Moments::ReceiverStands))]
    #[inline(always)]
    pub fn hear(&mut self, now: Tick, shown: Pair) -> Moment
        requires { (past : List Pair) × ReceiverStands LAG self.old past × (now.0 ≡ length past) × (length past < 2 ^ 60) }
        ensures moment { (past : List Pair) → ReceiverStands LAG self.old past → result ≡ moment_of LAG shown past }
        ensures stands { (past : List Pair) → ReceiverStands LAG self.old past → ReceiverStands LAG self.new (shown ∷ past) }
        ensures hears { CuttersHear LAG self.old.cutters self.new.cutters shown result.cuts }
    {
        let cuts = self.cutters.hear(shown);
        let before = self.quiet;
        self.next = now.0 + 1;
        self.quiet = quiet_after(before, shown);
        Moment {
            tick: now,
            next: Tick(self.next),
            shown,
            cuts,
            before,
            quiet: self.quiet,
        }
    }

    /// The number of the tick to come.
    #[tactic(auto, unfolding(crate::specs::Moments::ReceiverStands))]
    pub fn next(&self) -> Tick
        ensures { (past : List Pair) → ReceiverStands LAG self.now past → result.0 ≡ length past }
    {
        Tick(self.next)
    }

    /// The ticks in a row up to now in which both channels were quiet.
    #[tactic(auto, unfolding(crate::specs::Moments::ReceiverStands))]
    pub fn quiet(&self) -> u64
        ensures { (past : List Pair) → ReceiverStands LAG self.now past → result ≡ quiet_both past }
    {
        self.quiet
    }
}

fn quiet_after(quiet: u64, shown: Pair) -> u64
    requires { quiet < 2 ^ 60 }
    ensures { (past : List Pair) → quiet ≡ quiet_both past → result ≡ quiet_both (shown ∷ past) }
{
    match (shown.a, shown.b) {
        (Sample::Quiet, Sample::Quiet) => quiet + 1,
        _ => 0,
    }
}
