//! The valid words of both channels, tick by tick.
ghost use Rattle.std.specs.Prelude.{◌≡◌, ◌<◌, ◌≤◌, ◌+◌, ◌^◌, ◌&&◌, ℕ, true, List, [], ◌∷◌, ◌++◌, length};
ghost use Rattle.bus_base.specs.Samples.{quiet_pairs};
ghost use Rattle.bus_base.specs.declared.samples.Channel.TheVariants as channels;
ghost use Rattle.bus_base.specs.declared.samples.Pair.{Pair};
ghost use Rattle.bus_line.specs.declared.cutter.TheConstants.{LAG};
ghost use Rattle.bus_monitor.specs.Progress.{heard_now};
ghost use Rattle.bus_monitor.specs.Listers.{WordListerStands, heard_in};
ghost use Rattle.bus_monitor.specs.Parts.{part, TellNothingOn};
ghost use Rattle.bus_planes.specs.Still.{rests};

use bus_base::{Channel, Pair, Tick};
use bus_capture::Block;
use bus_formats::Heard;
use bus_line::Cut;
use bus_planes::BitCutter;

/// Lists the valid words of both channels. It keeps the samples of the two slots that run, and takes no memory.
#[derive(Drop)]
pub struct WordLister {
    pub(crate) a: BitCutter,
    pub(crate) b: BitCutter,
    pub(crate) ticks: u64,
}

impl WordLister {
    /// A lister that heard nothing.
    pub fn new() -> WordLister
        ensures { WordListerStands result [] }
    {
        WordLister {
            a: BitCutter::new(),
            b: BitCutter::new(),
            ticks: 0,
        }
    }

    /// The ticks that it heard.
    pub(crate) fn ticks(&self) -> u64
        ensures { (past : List Pair) → WordListerStands self.now past → result ≡ length past }
    {
        self.ticks
    }

    /// Hears what both channels show in one tick. The valid words that end in this tick, the one on channel A first, each with
    /// its first tick (MIL-STD-1553B 4.4.1.1).
    pub fn hear(&mut self, heard: Pair) -> [Option<Heard>; 2]
        requires { (past : List Pair) × WordListerStands self.old past × (length past < 2 ^ 60) }
        ensures words { (past : List Pair) → WordListerStands self.old past →
            result ≡ heard_now LAG channels.A (heard ∷ past) ∷ heard_now LAG channels.B (heard ∷ past) ∷ [] }
        ensures stands { (past : List Pair) → WordListerStands self.old past → WordListerStands self.new (heard ∷ past) }
    {
        let tick = self.ticks;
        let a = self.a.hear(heard.a);
        let b = self.b.hear(heard.b);
        self.count();
        [word_in(a, Channel::A, tick), word_in(b, Channel::B, tick)]
    }

    /// Counts a tick that both cutters heard.
    #[inline(always)]
    pub(crate) fn count(&mut self)
        requires { self.old.ticks < 2 ^ 60 }
        ensures { self.new ≡ record self.old { ticks = self.old.ticks + 1 } }
    {
        self.ticks += 1;
    }

    /// Whether no burst runs.
    pub(crate) fn is_idle(&self) -> bool
        ensures { result ≡ (rests LAG self.now.a && rests LAG self.now.b) }
    {
        self.a.rests() && self.b.rests()
    }

    /// Hears the ticks of a block from one on in which nothing is told, as far as is looked. How many.
    #[inline(always)]
    pub(crate) fn pass(&mut self, block: &Block, at: u32) -> u32
        requires at { at < block.now.ticks }
        requires few { block.now.ticks ≤ 64 }
        requires past { (past : List Pair) × WordListerStands self.old past × (length past + 64 < 2 ^ 60) }
        ensures within { result + at ≤ block.now.ticks }
        ensures stands { (past : List Pair) → WordListerStands self.old past → WordListerStands self.new (part block.now at result ++ past) }
        ensures tells { (past : List Pair) → WordListerStands self.old past → TellNothingOn LAG (part block.now at result) past }
    {
        let heard_a = block.heard_a >> at;
        let heard_b = block.heard_b >> at;
        let ticks = self
            .a
            .still(heard_a)
            .min(self.b.still(heard_b))
            .min(block.ticks - at);
        if ticks == 0 {
            return 0;
        }
        self.a.pass(heard_a, block.plus_a >> at, ticks);
        self.b.pass(heard_b, block.plus_b >> at, ticks);
        self.ticks += u64::from(ticks);
        ticks
    }

    /// Hears so many ticks at once in which both channels are quiet, where no burst runs: so no valid word ends in them.
    pub(crate) fn skip(&mut self, ticks: u64)
        requires idle { (rests LAG self.old.a && rests LAG self.old.b) ≡ true }
        requires past { (past : List Pair) × WordListerStands self.old past × (length past + ticks < 2 ^ 60) }
        ensures { (past : List Pair) → WordListerStands self.old past → WordListerStands self.new (quiet_pairs ticks ++ past) }
    {
        self.ticks += ticks;
    }
}

/// The valid word that ends in this tick, which is the last of its forty.
pub fn word_in(cut: Cut, channel: Channel, tick: u64) -> Option<Heard>
    ensures { result ≡ heard_in cut channel tick }
{
    match cut {
        Cut::Slot {
            word: Some(word),
            ..
        } => Some(Heard {
            tick: Tick(tick.saturating_sub(39)),
            channel,
            word,
        }),
        _ => None,
    }
}
