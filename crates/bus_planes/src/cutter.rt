//! What one channel shows, cut into bursts and slots as the ticks come, or many ticks at once: what `bus_line::Cutter` tells, over a slot that is
//! kept as bits. It keeps no past, and stands for every past after which it may be as it is.
ghost use Rattle.std.specs.Prelude.{◌≡◌, ℕ, ◌<◌, ◌≤◌, ◌+◌, ◌*◌, ◌^◌, ◌↔◌, IsTrue, true, false, if◌then◌else◌, List, ◌∷◌, ◌++◌, reverse, length, Option};
ghost use Rattle.bus_base.specs.declared.samples.Sample.{Sample};
ghost use Rattle.bus_base.specs.Samples.{is_quiet};
ghost use Rattle.bus_line.specs.declared.cutter.TheConstants.{LAG};
ghost use Rattle.bus_line.specs.Past.{quiet, quiet_ticks, runs, first_tick, samples_from, stopped};
ghost use Rattle.bus_line.specs.Cutting.{cut_now};
ghost use Rattle.bus_line.specs.Spelling.{is_plus};
ghost use Rattle.bus_planes.specs.Cutting.{Follows, BitCutterStands, begun};
ghost use Rattle.bus_planes.specs.Still.{rests, IsStill, TellNothing, sample_in, samples_in};
ghost use Rattle.bus_words.specs.declared.word.Word.{Word};

use crate::slot::read_slot;
use bus_base::Sample;
use bus_line::{Cut, LAG};

/// Cuts what one channel shows, sample by sample, into bursts and slots.
#[derive(Clone, Copy, Debug)]
pub struct BitCutter {
    // the samples of the slot that isn't whole yet as bits, the first sample's the lowest: those that weren't quiet, and those that were plus
    heard: u64,
    plus: u64,
    // the whole slots of the burst that runs, and the ticks after them to its last tick that wasn't quiet
    slots: u64,
    rest: u8,
    // the quiet ticks after that tick; `LAG` + 1 where no burst runs
    quiet: u8,
}

impl BitCutter {
    /// A cutter that heard nothing, or any number of quiet ticks.
    pub fn new() -> BitCutter
        ensures stands { (n : ℕ) → BitCutterStands LAG result (quiet_ticks n) }
    {
        BitCutter {
            heard: 0,
            plus: 0,
            slots: 0,
            rest: 0,
            quiet: LAG + 1,
        }
    }

    /// Hears the channel's sample of one tick, and tells what became known with it: for every past for which the cutter stands, what is
    /// found in that past with the sample. It stands for that past then.
    #[tactic(auto, unfolding(crate::specs::Cutting::BitCutterStands))]
    #[inline(always)]
    pub fn hear(&mut self, sample: Sample) -> Cut
        requires { (past : List Sample) × BitCutterStands LAG self.old past × (length past < 2 ^ 60) }
        ensures cut { (past : List Sample) → BitCutterStands LAG self.old past → result ≡ cut_now LAG (sample ∷ past) }
        ensures stands { (past : List Sample) → BitCutterStands LAG self.old past → BitCutterStands LAG self.new (sample ∷ past) }
    {
        match sample {
            Sample::Quiet => self.hear_quiet(),
            Sample::Plus | Sample::Minus => self.hear_pulse(sample),
        }
    }

    /// Whether no burst runs.
    #[inline(always)]
    pub fn rests(&self) -> bool
        ensures { result ≡ rests LAG self.now }
    {
        LAG < self.quiet
    }

    /// How many of the ticks to come tell nothing and begin no burst, as far as is looked. Bit i of `heard` is tick i: whether the channel wasn't
    /// quiet.
    #[inline(always)]
    pub fn still(&self, heard: u64) -> u32
        ensures few { result ≤ 64 }
        ensures still { (n : ℕ) → n ≤ result → IsStill LAG self.now heard n }
    {
        if !self.runs() {
            return heard.trailing_zeros();
        }
        if heard % 2 == 0 {
            return heard.trailing_zeros().min(u32::from(LAG - self.quiet));
        }
        if self.quiet == 0 {
            return heard
                .trailing_ones()
                .min(u32::from(39u8.saturating_sub(self.rest)));
        }
        0
    }

    /// Hears so many ticks at once, which tell nothing.
    #[inline(always)]
    #[tactic(auto, unfolding(crate::specs::Cutting::BitCutterStands))]
    pub fn pass(&mut self, heard: u64, plus: u64, ticks: u32)
        requires some { 0 < ticks }
        requires still { IsStill LAG self.old heard ticks }
        requires past { (past : List Sample) × BitCutterStands LAG self.old past }
        ensures stands { (past : List Sample) → BitCutterStands LAG self.old past → BitCutterStands LAG self.new (reverse (samples_in heard plus ticks) ++ past) }
        ensures tells { (past : List Sample) → BitCutterStands LAG self.old past → TellNothing LAG (reverse (samples_in heard plus ticks)) past }
    {
        if !self.runs() {
            return;
        }
        if heard % 2 == 0 {
            self.quiet += ticks as u8;
            return;
        }
        let mask = (1u64 << ticks) - 1;
        self.heard |= mask << self.rest;
        self.plus |= (plus & mask) << self.rest;
        self.rest += ticks as u8;
    }

    /// The ticks of the burst that runs, up to its last one that wasn't quiet; any number where none runs.
    pub fn burst_ticks(&self) -> u64
        ensures { (past : List Sample) → BitCutterStands LAG self.now past → runs LAG past ≡ true → length past < 2 ^ 60 →
            first_tick LAG past + result ≡ stopped past }
    {
        self.slots
            .saturating_mul(40)
            .saturating_add(u64::from(self.rest))
    }

    /// The quiet ticks after the last tick of the burst that runs, where one does.
    #[inline(always)]
    pub fn quiet_ticks(&self) -> u8
        ensures { (past : List Sample) → BitCutterStands LAG self.now past → runs LAG past ≡ true → result ≡ quiet past }
    {
        self.quiet
    }

    /// The forty samples of the slot that this sample ends, where it ends one: it is the channel's next, and not yet heard.
    #[tactic(auto, unfolding(crate::specs::Cutting::BitCutterStands))]
    pub fn slot_with(&self, sample: Sample) -> [Sample; 40]
        requires { (past : List Sample) × BitCutterStands LAG self.now past }
        ensures { (past : List Sample) (i : ℕ) (word : Option Word) → BitCutterStands LAG self.now past →
            cut_now LAG (sample ∷ past) ≡ Cut.Slot i word → result ≡ samples_from (sample ∷ past) (first_tick LAG past + 40 * i) 40 }
    {
        let place = self.rest + self.quiet;
        let heard = self.heard | 1 << place;
        let plus = self.plus | plus_bit(sample) << place;
        samples_of(heard, plus)
    }

    // Whether a burst runs.
    #[inline(always)]
    fn runs(&self) -> bool
        ensures { IsTrue result ↔ (self.now.quiet ≤ LAG) }
    {
        self.quiet <= LAG
    }

    #[inline(always)]
    fn hear_quiet(&mut self) -> Cut
        requires { (past : List Sample) × Follows LAG self.old past × (length past < 2 ^ 60) }
        ensures cut { (past : List Sample) → Follows LAG self.old past → result ≡ cut_now LAG (Sample.Quiet ∷ past) }
        ensures stands { (past : List Sample) → Follows LAG self.old past → Follows LAG self.new (Sample.Quiet ∷ past) }
    {
        if !self.runs() {
            return Cut::Nothing;
        }
        self.quiet += 1;
        if self.runs() {
            return Cut::Nothing;
        }
        Cut::Ended {
            slots: self.slots,
            rest: self.rest,
        }
    }

    // A sample that isn't quiet.
    #[inline(always)]
    fn hear_pulse(&mut self, sample: Sample) -> Cut
        requires past { (past : List Sample) × Follows LAG self.old past × (length past < 2 ^ 60) }
        requires pulse { is_quiet sample ≡ false }
        ensures cut { (past : List Sample) → Follows LAG self.old past → result ≡ cut_now LAG (sample ∷ past) }
        ensures stands { (past : List Sample) → Follows LAG self.old past → Follows LAG self.new (sample ∷ past) }
    {
        if !self.runs() {
            self.begin(sample);
            return Cut::Nothing;
        }
        let place = self.rest + self.quiet;
        let heard = self.heard | 1 << place;
        let plus = self.plus | plus_bit(sample) << place;
        self.quiet = 0;
        if place < 39 {
            self.heard = heard;
            self.plus = plus;
            self.rest = place + 1;
            return Cut::Nothing;
        }
        let index = self.slots;
        self.heard = heard >> 40;
        self.plus = plus >> 40;
        self.slots += 1;
        self.rest = place - 39;
        let word = if place == 39 {
            read_slot(heard, plus)
        } else {
            None
        };
        Cut::Slot { index, word }
    }

    // The first sample of a burst.
    #[inline(always)]
    fn begin(&mut self, sample: Sample)
        requires { is_quiet sample ≡ false }
        ensures { self.new ≡ begun sample }
    {
        self.heard = 1;
        self.plus = plus_bit(sample);
        self.slots = 0;
        self.rest = 1;
        self.quiet = 0;
    }
}

#[inline(always)]
fn plus_bit(sample: Sample) -> u64
    ensures { result ≡ (if is_plus sample then 1 else 0) }
{
    u64::from(sample == Sample::Plus)
}

// Forty samples that are shown by bits.
fn samples_of(heard: u64, plus: u64) -> [Sample; 40]
    ensures { result ≡ samples_in heard plus 40 }
{
    let mut samples = [Sample::Quiet; 40];
    for place in 0..samples.len() {
        samples[place] = sample_at(heard, plus, place);
    }
    samples
}

// The sample that a bit of two numbers shows.
fn sample_at(heard: u64, plus: u64, place: usize) -> Sample
    requires { place < 40 }
    ensures { result ≡ sample_in heard plus place }
{
    if (heard >> place) % 2 == 0 {
        Sample::Quiet
    } else if (plus >> place) % 2 == 1 {
        Sample::Plus
    } else {
        Sample::Minus
    }
}

#[cfg(test)]
mod tests {
    use super::*;
    use bus_line::{Cutter, spell};
    use bus_words::{Sync, Word};

    const COMMAND: Word = Word {
        sync: Sync::Command,
        bits: 0x2822,
    };

    // A command word, so many quiet ticks, another, and quiet ticks.
    fn two_words(quiet: usize) -> [Sample; 88]
        requires { quiet ≤ 8 }
    {
        let mut samples = [Sample::Quiet; 88];
        samples[..40].copy_from_slice(&spell(COMMAND));
        samples[40 + quiet..80 + quiet].copy_from_slice(&spell(COMMAND));
        samples
    }

    // Whether both cutters tell the same at each tick.
    fn alike(samples: &[Sample]) -> bool
        requires { length samples.now < 2 ^ 60 }
    {
        let mut plain = Cutter::new();
        let mut bits = BitCutter::new();
        let mut same = true;
        for sample in samples {
            same = same & (plain.hear(*sample) == bits.hear(*sample));
        }
        same
    }

    // The plain cutter is the reference: words beside each other, with ticks that are bridged, and with an end between them.
    #[test]
    fn tells_what_the_plain_cutter_tells(rt: HostRuntime) {
        for quiet in 0..9usize {
            assert!(rt; alike(&two_words(quiet)), "{quiet} quiet ticks");
        }
    }
}
