//! What is heard of both channels, for the wave.
ghost use Rattle.std.specs.Prelude.{◌≡◌, ◌+◌, ◌<◌, ◌≤◌, ◌^◌, ◌++◌, ◌∷◌, ◌&&◌, [], ℕ, List, suc, length, if◌then◌else◌};
ghost use Rattle.bus_base.specs.declared.samples.Pair.{Pair};
ghost use Rattle.bus_base.specs.Samples.{is_quiet as quiet, quiet_pairs};
ghost use Rattle.bus_line.specs.Channels.{both_quiet as are_quiet};
ghost use Rattle.bus_monitor.specs.Channels.{is_idle_on};
ghost use Rattle.bus_monitor.specs.Parts.{part};
ghost use Rattle.bus_wave.specs.Drawers.{ListerStands as Stands, KeepsTicks, NothingTold, QuietTell, PartTells, LineEnds, no_lines};
ghost use Rattle.bus_wave.specs.Waves.{gap_of};

use crate::delay_line::DelayLine;
use crate::marking::Marker;
use bus_base::{Channel, Pair, Sample};
use bus_capture::Block;
use bus_monitor::{Lister, Page};

/// Hears both channels, and keeps the columns of the last ticks, which a drawer draws. It lists nothing itself, and takes no memory.
#[derive(Drop)]
pub struct WaveLister {
    pub a: Marker,
    pub b: Marker,
    pub line: DelayLine,
    /// The ticks that it heard.
    pub ticks: u64,
    /// The ticks in a row up to now in which both channels were quiet.
    pub quiet: u64,
}

impl WaveLister {
    /// A lister that heard nothing.
    pub fn new() -> WaveLister
        ensures { Stands result [] }
    {
        WaveLister {
            a: Marker::new(),
            b: Marker::new(),
            line: DelayLine::new(),
            ticks: 0,
            quiet: 0,
        }
    }

    // The quiet ticks before the next one, if any tick wasn't quiet.
    #[inline(always)]
    fn gap(&self) -> Option<u64>
        ensures { result ≡ gap_of self.now.quiet self.now.ticks }
    {
        if self.quiet == self.ticks {
            None
        } else {
            Some(self.quiet)
        }
    }

    // Counts a tick that both channels heard.
    #[inline(always)]
    fn count(&mut self, shown: Pair)
        requires { (self.old.ticks < 2 ^ 60) × (self.old.quiet < 2 ^ 60) }
        ensures { self.new ≡ record self.old { ticks = self.old.ticks + 1; quiet = if are_quiet shown then suc self.old.quiet else 0 } }
    {
        self.ticks += 1;
        if both_quiet(shown) {
            self.quiet += 1;
        } else {
            self.quiet = 0;
        }
    }

    // Keeps a tick that tells nothing.
    #[inline(always)]
    fn keep(&mut self, shown: Pair)
        requires { (past : List Pair) × KeepsTicks self.old past × (length past < 2 ^ 60) }
        ensures a { self.new.a ≡ self.old.a }
        ensures b { self.new.b ≡ self.old.b }
        ensures keeps { (past : List Pair) → KeepsTicks self.old past → NothingTold shown past → KeepsTicks self.new (shown ∷ past) }
    {
        self.line.begin(self.ticks, shown);
        self.count(shown);
    }

    // Keeps so many quiet ticks that tell nothing.
    fn keep_quiet(&mut self, ticks: u64)
        requires { (past : List Pair) × KeepsTicks self.old past × QuietTell ticks past × (length past + ticks < 2 ^ 60) }
        ensures a { self.new.a ≡ self.old.a }
        ensures b { self.new.b ≡ self.old.b }
        ensures keeps { (past : List Pair) → KeepsTicks self.old past → QuietTell ticks past → KeepsTicks self.new (quiet_pairs ticks ++ past) }
    {
        let mut kept = 0;
        'ticks: while kept < ticks {
            self.keep(Pair::QUIET);
            kept += 1;
        }
    }

    // Keeps so many ticks of a block from one on, which tell nothing.
    #[inline(always)]
    fn keep_part(&mut self, block: &Block, at: u32, ticks: u32)
        requires within { at + ticks ≤ block.now.ticks }
        requires few { block.now.ticks ≤ 64 }
        requires past { (past : List Pair) × KeepsTicks self.old past × PartTells block.now at ticks past × (length past + 64 < 2 ^ 60) }
        ensures a { self.new.a ≡ self.old.a }
        ensures b { self.new.b ≡ self.old.b }
        ensures keeps { (past : List Pair) → KeepsTicks self.old past → PartTells block.now at ticks past → KeepsTicks self.new (part block.now at ticks ++ past) }
    {
        let mut kept = 0;
        'ticks: while kept < ticks {
            self.keep(block.tick(at + kept));
            kept += 1;
        }
    }

    /// The ticks that it heard.
    pub fn ticks(&self) -> u64
        ensures { result ≡ self.now.ticks }
    {
        self.ticks
    }

    /// Hears that the ticks end.
    pub fn end(&mut self)
        requires { (past : List Pair) × Stands self.old past × (length past < 2 ^ 60) }
        ensures { (past : List Pair) → Stands self.old past → LineEnds self.new past }
    {
        let ticks = self.ticks;
        self.line.begin(ticks, Pair::QUIET);
        self.a.finish(Channel::A, ticks, &mut self.line);
        self.b.finish(Channel::B, ticks, &mut self.line);
    }
}

#[inline(always)]
fn both_quiet(shown: Pair) -> bool
    ensures { result ≡ are_quiet shown }
{
    is_quiet(shown.a) && is_quiet(shown.b)
}

#[inline(always)]
fn is_quiet(sample: Sample) -> bool
    ensures { result ≡ quiet sample }
{
    match sample {
        Sample::Quiet => true,
        Sample::Plus | Sample::Minus => false,
    }
}

impl Lister for WaveLister {
    ghost stands = { Stands };

    ghost lines = { no_lines };

    ghost whole = { no_lines };

    ghost idle = { λ lister. is_idle_on lister.a.lister && is_idle_on lister.b.lister };

    fn is_idle(&self) -> bool {
        self.a.lister.is_idle() && self.b.lister.is_idle()
    }

    fn skip(&mut self, ticks: u64) {
        self.keep_quiet(ticks);
    }

    #[inline(always)]
    fn list(&mut self, shown: Pair, text: &mut Page) {
        let now = self.ticks;
        let gap = self.gap();
        self.line.begin(now, shown);
        self.a.hear(Channel::A, now, shown.a, gap, &mut self.line);
        self.b.hear(Channel::B, now, shown.b, gap, &mut self.line);
        self.count(shown);
    }

    #[inline(always)]
    fn pass(&mut self, block: &Block, at: u32) -> u32 {
        let heard_a = block.heard_a >> at;
        let heard_b = block.heard_b >> at;
        let ticks = self
            .a
            .lister
            .still(heard_a, self.ticks)
            .min(self.b.lister.still(heard_b, self.ticks))
            .min(block.ticks - at);
        if ticks == 0 {
            return 0;
        }
        self.a.lister.pass(heard_a, block.plus_a >> at, ticks);
        self.b.lister.pass(heard_b, block.plus_b >> at, ticks);
        self.keep_part(block, at, ticks);
        ticks
    }

    fn finish(&self, text: &mut Page) {}
}
