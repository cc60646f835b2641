//! The breaches of one channel, tick by tick.
ghost use Rattle.std.specs.Prelude.{◌≡◌, ◌≤◌, ◌<◌, ◌+◌, ◌%◌, ◌^◌, ◌++◌, ◌==◌, ◌||◌, not, false, nat_lt, min, is_none, ℕ, List, [], ◌∷◌, length, reverse};
ghost use Rattle.bus_base.specs.declared.samples.Sample.{Sample};
ghost use Rattle.bus_line.specs.Past.{runs};
ghost use Rattle.bus_line.specs.declared.cutter.TheConstants.{LAG};
ghost use Rattle.bus_formats.specs.Times.{least_quiet};
ghost use Rattle.bus_planes.specs.Still.{IsStill, samples_in};
ghost use Rattle.bus_monitor.specs.Channels.{is_idle_on};
ghost use Rattle.bus_monitor.specs.Parts.{InTime};
ghost use Rattle.bus_rules.specs.Breaches.{known_on};
ghost use Rattle.bus_rules.specs.Stands.{ChannelJudgeStands, Adds, NoneKnown, is_on};

use crate::breach_text::{add_begun, add_ended};
use bus_base::{Channel, Sample};
use bus_monitor::{ChannelLister, Page, Told};

/// Tells the breaches of one channel where they become known. It takes no memory.
#[derive(Drop)]
pub(crate) struct ChannelJudge {
    messages: ChannelLister,
    // whether a slot of the burst that runs is no valid word
    damaged: bool,
}

impl ChannelJudge {
    /// A judge that heard nothing.
    pub(crate) fn new() -> ChannelJudge
        ensures { ChannelJudgeStands result [] }
    {
        ChannelJudge {
            messages: ChannelLister::new(),
            damaged: false,
        }
    }

    /// Hears what the channel shows in tick `now`, and adds the lines of the breaches that become known with it; how many. `busy` is whether a burst ran on the
    /// other channel before this tick.
    #[inline(always)]
    pub(crate) fn judge(
        &mut self,
        channel: Channel,
        now: u64,
        sample: Sample,
        busy: bool,
        text: &mut Page,
    ) -> u64
        requires past { (past : List Sample) × ChannelJudgeStands self.old past × (length past ≡ now) × (now < 2 ^ 60) }
        requires room { length text.old ≤ 3800 }
        ensures adds { (past : List Sample) (quiet : ℕ) → ChannelJudgeStands self.old past → length past ≡ now →
            (runs LAG past ≡ false → busy ≡ nat_lt quiet (min least_quiet now)) →
            Adds text.old text.new result (known_on LAG channel quiet (sample ∷ past)) }
        ensures few { result ≤ 3 }
        ensures grows { length text.new ≤ length text.old + 120 }
        ensures stands { (past : List Sample) → ChannelJudgeStands self.old past → length past ≡ now → ChannelJudgeStands self.new (sample ∷ past) }
    {
        match self.messages.hear(now, sample) {
            Told::Nothing => 0,
            Told::Begun(from) => add_begun(channel, now, from, busy, text),
            Told::Slot(valid) => {
                self.damaged = is_damaged(self.damaged, valid);
                0
            }
            Told::Ended(end) => {
                let damaged = self.damaged;
                self.damaged = false;
                add_ended(channel, now, end, damaged, text)
            }
        }
    }

    /// How many of the ticks from `now` on tell nothing, as far as is looked. Bit i of `heard` is the i-th of them: whether the channel wasn't quiet.
    #[inline(always)]
    pub(crate) fn still(&self, heard: u64, now: u64) -> u32
        ensures still { (n : ℕ) → n ≤ result → IsStill LAG self.now.messages.cutter heard n }
        ensures time { (n : ℕ) → 0 < n → n ≤ result → InTime self.now.messages now n }
    {
        self.messages.still(heard, now)
    }

    /// Hears so many ticks at once, which tell nothing.
    #[inline(always)]
    pub(crate) fn pass(&mut self, heard: u64, plus: u64, ticks: u32)
        requires some { 0 < ticks }
        requires still { IsStill LAG self.old.messages.cutter heard ticks }
        requires past { (past : List Sample) × ChannelJudgeStands self.old past }
        ensures stands { (past : List Sample) → ChannelJudgeStands self.old past → InTime self.old.messages (length past) ticks →
            ChannelJudgeStands self.new (reverse (samples_in heard plus ticks) ++ past) }
        ensures none { (past : List Sample) → ChannelJudgeStands self.old past → NoneKnown (reverse (samples_in heard plus ticks)) past }
        ensures on { (past : List Sample) → ChannelJudgeStands self.old past →
            is_on (reverse (samples_in heard plus ticks) ++ past) ≡ (heard % 2 == 1) }
    {
        self.messages.pass(heard, plus, ticks);
    }

    /// Whether no burst runs and no message waits.
    pub(crate) fn is_idle(&self) -> bool
        ensures { result ≡ is_idle_on self.now.messages }
    {
        self.messages.is_idle()
    }

    /// The first tick of the burst that runs, if one does.
    pub(crate) fn running(&self) -> Option<u64>
        ensures { result ≡ self.now.messages.running }
    {
        self.messages.running()
    }
}

// Whether a slot of a burst is no valid word, with one slot more.
fn is_damaged(damaged: bool, valid: bool) -> bool
    ensures { result ≡ (damaged || not valid) }
{
    damaged || !valid
}
