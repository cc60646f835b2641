//! What one channel shows, cut into bursts and slots as the ticks come. Judged by `specs/Past.antt`: a cutter keeps no past, and stands for
//! every past after which it may be as it is.
ghost use Rattle.std.specs.Prelude.{◌≡◌, ℕ, ◌<◌, ◌≤◌, ◌^◌, ◌↔◌, IsTrue, false, List, ◌∷◌, length};
ghost use Rattle.bus_base.specs.declared.samples.Sample.{Sample};
ghost use Rattle.bus_base.specs.Samples.{is_quiet};
ghost use Rattle.bus_line.specs.Past.{quiet_ticks};
ghost use Rattle.bus_line.specs.Cutting.{Follows, CutterStands, begun, cut_now};

use crate::spelling::read_slot;
use bus_base::Sample;
use bus_words::Word;

/// The ticks from a burst's end to the tick in which the end is known: a burst bridges up to three quiet ticks, the fourth in a row ends it.
pub const LAG: u8 = 3;

/// What became known of a channel with one sample. A slot is forty ticks of a burst from its first tick on, the length of one word.
#[derive(Clone, Copy, Debug, PartialEq, Eq)]
pub enum Cut {
    /// No slot of a burst and no burst ended.
    Nothing,
    /// The slot with this index in its burst, counted from 0, ended: in its last tick or, where that was quiet, in the first later tick
    /// of its burst that wasn't. The word is the one that its samples spell, if any.
    Slot { index: u64, word: Option<Word> },
    /// The end of the burst that ran became known: its last tick is `LAG` + 1 ticks before this one. It had so many whole slots, and
    /// after them so many ticks, 0 to 39.
    Ended { slots: u64, rest: u8 },
}

/// Cuts what one channel shows, sample by sample, into bursts and slots.
#[derive(Clone, Copy, Debug)]
pub struct Cutter {
    // the samples of the slot that isn't whole yet, in front
    samples: [Sample; 40],
    // the whole slots of the burst that runs, and the ticks after them to its last tick that wasn't quiet
    slots: u64,
    rest: u8,
    // the quiet ticks after that tick; `LAG` + 1 where no burst runs
    quiet: u8,
}

impl Cutter {
    /// A cutter that heard nothing, or any number of quiet ticks.
    pub fn new() -> Cutter
        ensures stands { (n : ℕ) → CutterStands LAG result (quiet_ticks n) }
    {
        Cutter {
            samples: [Sample::Quiet; 40],
            slots: 0,
            rest: 0,
            quiet: LAG + 1,
        }
    }

    /// Hears the channel's sample of one tick, and tells what became known with it: for every past for which the cutter stands, what is
    /// found in that past with the sample. It stands for that past then.
    #[tactic(auto, unfolding(crate::specs::Cutting::CutterStands))]
    #[inline(always)]
    pub fn hear(&mut self, sample: Sample) -> Cut
        requires { (past : List Sample) × CutterStands LAG self.old past × (length past < 2 ^ 60) }
        ensures cut { (past : List Sample) → CutterStands LAG self.old past → result ≡ cut_now LAG (sample ∷ past) }
        ensures stands { (past : List Sample) → CutterStands LAG self.old past → CutterStands LAG self.new (sample ∷ past) }
    {
        match sample {
            Sample::Quiet => self.hear_quiet(),
            Sample::Plus | Sample::Minus => self.hear_pulse(sample),
        }
    }

    // Whether a burst runs.
    #[inline(always)]
    fn runs(&self) -> bool
        ensures { IsTrue result ↔ (self.now.quiet ≤ LAG) }
    {
        self.quiet <= LAG
    }

    #[inline(always)]
    fn hear_quiet(&mut self) -> Cut
        requires { (past : List Sample) × Follows LAG self.old past × (length past < 2 ^ 60) }
        ensures cut { (past : List Sample) → Follows LAG self.old past → result ≡ cut_now LAG (Sample.Quiet ∷ past) }
        ensures stands { (past : List Sample) → Follows LAG self.old past → Follows LAG self.new (Sample.Quiet ∷ past) }
    {
        if !self.runs() {
            return Cut::Nothing;
        }
        let place = self.rest + self.quiet;
        self.samples[usize::from(place % 40)] = Sample::Quiet;
        self.quiet += 1;
        if self.runs() {
            return Cut::Nothing;
        }
        Cut::Ended {
            slots: self.slots,
            rest: self.rest,
        }
    }

    // A sample that isn't quiet.
    #[inline(always)]
    fn hear_pulse(&mut self, sample: Sample) -> Cut
        requires past { (past : List Sample) × Follows LAG self.old past × (length past < 2 ^ 60) }
        requires pulse { is_quiet sample ≡ false }
        ensures cut { (past : List Sample) → Follows LAG self.old past → result ≡ cut_now LAG (sample ∷ past) }
        ensures stands { (past : List Sample) → Follows LAG self.old past → Follows LAG self.new (sample ∷ past) }
    {
        if !self.runs() {
            self.begin(sample);
            return Cut::Nothing;
        }
        let index = self.slots;
        let place = self.rest + self.quiet;
        self.quiet = 0;
        self.samples[usize::from(place % 40)] = sample;
        if place < 39 {
            self.rest = place + 1;
            return Cut::Nothing;
        }
        self.slots += 1;
        self.rest = place - 39;
        let word = if place == 39 {
            read_slot(&self.samples)
        } else {
            None
        };
        Cut::Slot { index, word }
    }

    // The first sample of a burst.
    #[inline(always)]
    fn begin(&mut self, sample: Sample)
        requires { length self.old.samples ≡ 40 }
        ensures { self.new ≡ begun self.old.samples sample }
    {
        self.samples[0] = sample;
        self.slots = 0;
        self.rest = 1;
        self.quiet = 0;
    }
}

#[cfg(test)]
mod tests {
    use super::*;
    use crate::spelling::spell;
    use bus_words::Sync;

    const COMMAND: Word = Word {
        sync: Sync::Command,
        bits: 0x2822,
    };

    const DATUM: Word = Word {
        sync: Sync::Datum,
        bits: 0,
    };

    // A command word, so many quiet ticks, a data word, and quiet ticks.
    fn two_words(quiet: usize) -> [Sample; 88]
        requires { quiet ≤ 8 }
    {
        let mut samples = [Sample::Quiet; 88];
        samples[..40].copy_from_slice(&spell(COMMAND));
        samples[40 + quiet..80 + quiet].copy_from_slice(&spell(DATUM));
        samples
    }

    // What becomes known, with its ticks, up to four times.
    fn cuts(samples: &[Sample]) -> [(usize, Cut); 4]
        requires { length samples.now < 2 ^ 60 }
    {
        let mut cuts = [(0, Cut::Nothing); 4];
        let mut count = 0;
        let mut cutter = Cutter::new();
        for (tick, sample) in samples.iter().enumerate() {
            let cut = cutter.hear(*sample);
            if cut != Cut::Nothing && count < cuts.len() {
                cuts[count] = (tick, cut);
                count += 1;
            }
        }
        cuts
    }

    // One burst of 83 ticks, the second slot of which is no word; the end is known in tick 86.
    #[test]
    fn three_quiet_ticks_are_bridged(rt: HostRuntime) {
        let word = Some(COMMAND);
        let want = [
            (39, Cut::Slot { index: 0, word }),
            (
                79,
                Cut::Slot {
                    index: 1,
                    word: None,
                },
            ),
            (86, Cut::Ended { slots: 2, rest: 3 }),
            (0, Cut::Nothing),
        ];
        assert_eq!(rt; cuts(&two_words(3)), want);
    }

    // Two bursts of a word each; the ends are known in ticks 43 and 87.
    #[test]
    fn four_quiet_ticks_end_a_burst(rt: HostRuntime) {
        let (first, second) = (Some(COMMAND), Some(DATUM));
        let ended = Cut::Ended { slots: 1, rest: 0 };
        let want = [
            (
                39,
                Cut::Slot {
                    index: 0,
                    word: first,
                },
            ),
            (43, ended),
            (
                83,
                Cut::Slot {
                    index: 0,
                    word: second,
                },
            ),
            (87, ended),
        ];
        assert_eq!(rt; cuts(&two_words(4)), want);
    }
}
