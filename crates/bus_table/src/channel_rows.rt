//! The messages of one channel where they close, with what is told of their bursts.
ghost use Rattle.std.specs.Prelude.{◌≡◌, ◌+◌, ◌-◌, ◌*◌, ◌<◌, ◌^◌, not, ◌&&◌, is_some, false, if◌then◌else◌, ℕ, List, [], ◌∷◌, length, take, option_to_list, Option, Some, None, IfSome};
ghost use Rattle.std.specs.Option.{option_or};
ghost use Rattle.bus_base.specs.Samples.{sample_on};
ghost use Rattle.bus_base.specs.declared.samples.Channel.{Channel as SpecChannel};
ghost use Rattle.bus_base.specs.declared.samples.Pair.{Pair as SpecPair};
ghost use Rattle.bus_base.specs.declared.samples.Sample.{Sample as SpecSample};
ghost use Rattle.bus_line.specs.Past.{stopped, heard_or_now};
ghost use Rattle.bus_line.specs.Channels.{on_channel};
ghost use Rattle.bus_line.specs.Cutting.{cut_now};
ghost use Rattle.bus_line.specs.declared.cutter.Cut.{Cut as SpecCut};
ghost use Rattle.bus_line.specs.declared.cutter.TheConstants.{LAG};
ghost use Rattle.bus_planes.specs.Cutting.{BitCutterStands};
ghost use Rattle.bus_planes.specs.declared.cutter.BitCutter.{BitCutter as SpecCutter};
ghost use Rattle.bus_words.specs.declared.word.Word.{Word as SpecWord};
ghost use Rattle.bus_monitor.specs.Awaited.{kept_in_time};
ghost use Rattle.bus_monitor.specs.Channels.{ChannelListerStands};
ghost use Rattle.bus_monitor.specs.Progress.{closed_now, closed_in_time};
ghost use Rattle.bus_monitor.specs.Steps.{kept_with};
ghost use Rattle.bus_table.specs.Exchanges.{gap_now, words_behind as spec_words_behind};
ghost use Rattle.bus_table.specs.Flaws.{bad_slot, bad_rest as spec_bad_rest};
ghost use Rattle.bus_table.specs.Notes.{begun, noted, part_of, slot_noted, end_noted, cut_noted};
ghost use Rattle.bus_table.specs.Stands.{ChannelRowsStand, CutOf};

use crate::notes::{Notes, or_bad, words_behind};
use crate::{BadWord, Flaw, slot_flaw};
use bus_base::{Part, Sample};
use bus_formats::Block;
use bus_line::{Cut, LAG};
use bus_monitor::{ChannelLister, Closed};
use bus_planes::BitCutter;
use bus_words::Word;

/// Tells the messages of one channel where they close, and notes what is told of their bursts. It takes no memory.
#[derive(Drop)]
pub struct ChannelRows {
    pub(crate) lister: ChannelLister,
    // the gap before the burst that runs, and its first bad word
    pub(crate) gap: Option<u64>,
    pub(crate) bad: Option<BadWord>,
    // the tick after the newest burst that ended, 0 where none did
    pub(crate) ended: u64,
    // of the bursts of the newest message
    pub(crate) notes: Notes,
}

impl ChannelRows {
    /// Of a channel that showed nothing.
    pub(crate) fn new() -> ChannelRows
        ensures { (c : SpecChannel) → ChannelRowsStand result c [] }
    {
        ChannelRows {
            lister: ChannelLister::new(),
            gap: None,
            bad: None,
            ended: 0,
            notes: Notes::new(),
        }
    }

    /// Hears what the channel shows in tick `now`, before which this gap lies. The message that closes in this tick, if one does.
    pub(crate) fn hear(&mut self, now: u64, sample: Sample, gap: Option<u64>) -> Option<Closed>
        requires { (c : SpecChannel) × (past : List SpecPair) × ChannelRowsStand self.old c past × (length past ≡ now) × (now < 2 ^ 60) }
        ensures closed { (c : SpecChannel) (past : List SpecPair) (shown : SpecPair) → ChannelRowsStand self.old c past → length past ≡ now →
            sample ≡ sample_on shown c → option_to_list result ≡ closed_now LAG (on_channel c (shown ∷ past)) }
        ensures stands { (c : SpecChannel) (past : List SpecPair) (shown : SpecPair) → ChannelRowsStand self.old c past → length past ≡ now →
            sample ≡ sample_on shown c → gap ≡ gap_now past → ChannelRowsStand self.new c (shown ∷ past) }
    {
        let mut cutter = self.lister.cutter;
        let cut = cutter.hear(sample);
        self.note(cut, now, sample, gap);
        self.lister.cutter = cutter;
        take(&mut self.lister, cut, now, sample)
    }

    /// The tick after the last one up to now that wasn't quiet, 0 where there is none.
    #[inline(always)]
    pub(crate) fn stopped(&self, now: u64) -> u64
        ensures { (c : SpecChannel) (past : List SpecPair) → ChannelRowsStand self.now c past → length past ≡ now →
            result ≡ stopped (on_channel c past) }
    {
        match self.lister.running {
            Some(_) => now.saturating_sub(u64::from(self.lister.cutter.quiet_ticks())),
            None => self.ended,
        }
    }

    /// The gap before the message that is open: the one that waits for an answer, else the one whose burst runs.
    pub(crate) fn open_gap(&self) -> Option<u64>
        ensures { result ≡ (if is_some self.now.lister.waiting then self.now.notes.gap else self.now.gap) }
    {
        if self.lister.waiting.is_some() {
            return self.notes.gap;
        }
        self.gap
    }

    // Notes what became known with a sample, before the lister takes it.
    fn note(&mut self, cut: Cut, now: u64, sample: Sample, gap: Option<u64>)
        requires { (past : List SpecSample) × CutOf self.old past cut sample × (length past ≡ now) × (now < 2 ^ 60) }
        ensures keeps { self.new.lister ≡ self.old.lister }
        ensures noted { (past : List SpecSample) → CutOf self.old past cut sample → length past ≡ now →
            self.new ≡ cut_noted self.old past cut sample gap }
    {
        match cut {
            Cut::Nothing => self.begin(sample, gap),
            Cut::Slot { index, word } => self.note_slot(index, word, sample),
            Cut::Ended { slots, rest } => self.note_end(now, slots, rest, sample),
        }
    }

    // Where no burst runs one begins with a sample that isn't quiet.
    fn begin(&mut self, sample: Sample, gap: Option<u64>)
        ensures keeps { self.new.lister ≡ self.old.lister }
        ensures begun { self.new ≡ begun self.old sample gap }
    {
        if self.lister.running.is_none() && sample != Sample::Quiet {
            self.gap = gap;
            self.bad = None;
        }
    }

    // A slot ended with this sample.
    fn note_slot(&mut self, index: u64, word: Option<Word>, sample: Sample)
        requires { (past : List SpecSample) × CutOf self.old past (Cut.Slot index word) sample × (length past < 2 ^ 60) }
        ensures keeps { self.new.lister ≡ self.old.lister }
        ensures noted { (past : List SpecSample) → CutOf self.old past (Cut.Slot index word) sample →
            self.new ≡ slot_noted self.old past index word sample }
    {
        match word {
            Some(_) => {}
            None => self.note_bad(index, sample),
        }
    }

    // A slot that ended with this sample has no word.
    fn note_bad(&mut self, index: u64, sample: Sample)
        requires { (past : List SpecSample) × CutOf self.old past (Cut.Slot index None) sample × (length past < 2 ^ 60) }
        ensures keeps { self.new.lister ≡ self.old.lister }
        ensures noted { (past : List SpecSample) → CutOf self.old past (Cut.Slot index None) sample →
            self.new ≡ slot_noted self.old past index None sample }
    {
        let first = self.first();
        let at = slot_at(first, index);
        let samples = self.lister.cutter.slot_with(sample);
        let flaw = slot_flaw(&samples);
        self.bad = or_bad(self.bad, Some(BadWord { at, flaw }));
    }

    // The first tick of the burst that runs.
    fn first(&self) -> u64
        ensures { (first : ℕ) → self.now.lister.running ≡ Some first → result ≡ first }
    {
        self.lister.running.unwrap_or(0)
    }

    // The burst that ran has ended with this sample, with so many ticks after its last whole slot.
    fn note_end(&mut self, now: u64, slots: u64, rest: u8, sample: Sample)
        requires { (past : List SpecSample) × CutOf self.old past (Cut.Ended slots rest) sample × (length past ≡ now) × (now < 2 ^ 60) }
        ensures keeps { self.new.lister ≡ self.old.lister }
        ensures noted { (past : List SpecSample) → CutOf self.old past (Cut.Ended slots rest) sample → length past ≡ now →
            self.new ≡ end_noted self.old past slots rest }
    {
        let first = self.first();
        let at = slot_at(first, slots);
        let behind = bad_rest(at, rest);
        let bad = or_bad(self.bad, behind);
        let end = now.saturating_sub(u64::from(LAG));
        self.note_burst(first, end, bad);
        self.ended = end;
    }

    // Notes a burst that ended.
    fn note_burst(&mut self, first: u64, end: u64, bad: Option<BadWord>)
        requires { first < 2 ^ 60 }
        ensures keeps { self.new.lister ≡ self.old.lister }
        ensures noted { (whole : List (Option SpecWord)) → self.old.lister.slots.items ≡ take 34 whole →
            self.new ≡ record self.old {
              notes = noted (part_of self.old.lister.waiting) self.old.notes self.old.gap first end (spec_words_behind whole) bad;
            } }
    {
        let part = awaited_part(&self.lister);
        let words = words_of(&self.lister);
        self.note_part(part, first, end, words, bad);
    }

    // Notes a burst that opened a message, or was this answer.
    fn note_part(
        &mut self,
        part: Option<Part>,
        first: u64,
        end: u64,
        words: Block,
        bad: Option<BadWord>,
    )
        requires { first < 2 ^ 60 }
        ensures keeps { self.new.lister ≡ self.old.lister }
        ensures noted { self.new ≡ record self.old { notes = noted part self.old.notes self.old.gap first end words bad } }
    {
        match part {
            None => self.notes.open(self.gap, end, bad),
            Some(Part::Second) => self.notes.answer_second(first, end, bad),
            Some(Part::Command) => self.notes.answer_first(first, end, words, bad),
            Some(Part::First) => self.notes.answer_first(first, end, words, bad),
        }
    }
}

// The data words behind the first slot of the burst that runs.
fn words_of(lister: &ChannelLister) -> Block
    ensures { (whole : List (Option SpecWord)) → lister.now.slots.items ≡ take 34 whole → result ≡ spec_words_behind whole }
{
    words_behind(lister.slots.as_slice())
}

// The answer for which a message waits.
fn awaited_part(lister: &ChannelLister) -> Option<Part>
    ensures { result ≡ part_of lister.now.waiting }
{
    match &lister.waiting {
        Some(waiting) => Some(waiting.part()),
        None => None,
    }
}

// The first tick of a slot of a burst.
fn slot_at(first: u64, index: u64) -> u64
    requires { first + 40 * index < 2 ^ 62 }
    ensures { result ≡ first + 40 * index }
{
    first + 40 * index
}

// Ticks behind the last whole slot are no word.
fn bad_rest(at: u64, rest: u8) -> Option<BadWord>
    ensures { result ≡ spec_bad_rest at rest }
{
    if rest == 0 {
        return None;
    }
    Some(BadWord {
        at,
        flaw: Flaw::Rest(rest),
    })
}

// The lister takes what its cutter told of a sample. The message that closes, if one does.
fn take(lister: &mut ChannelLister, cut: Cut, now: u64, sample: Sample) -> Option<Closed>
    ensures closed { (past : List SpecSample) (before : SpecCutter) → ChannelListerStands (record lister.old { cutter = before }) past → length past ≡ now →
        cut ≡ cut_now LAG (sample ∷ past) → option_to_list result ≡ closed_now LAG (sample ∷ past) }
    ensures stands { (past : List SpecSample) (before : SpecCutter) → ChannelListerStands (record lister.old { cutter = before }) past → length past ≡ now →
        cut ≡ cut_now LAG (sample ∷ past) → BitCutterStands LAG lister.old.cutter (sample ∷ past) → ChannelListerStands lister.new (sample ∷ past) }
{
    match cut {
        Cut::Nothing => wait(lister, now, sample),
        Cut::Slot { word, .. } => keep(lister, word),
        Cut::Ended { rest, .. } => lister.end_burst(now, rest),
    }
}

// Nothing became known of a burst: one runs, or begins in this tick, or the time for an answer runs, which may close a message.
fn wait(lister: &mut ChannelLister, now: u64, sample: Sample) -> Option<Closed>
    ensures closed { option_to_list result ≡ closed_in_time now (is_some (heard_or_now sample now lister.old.running)) lister.old.waiting }
    ensures keeps { lister.new ≡ record lister.old {
      running = heard_or_now sample now lister.old.running;
      waiting = kept_in_time now (is_some (heard_or_now sample now lister.old.running)) lister.old.waiting;
    } }
{
    if lister.running.is_some() {
        return None;
    }
    match sample {
        Sample::Quiet => wait_in_quiet(lister, now),
        Sample::Plus | Sample::Minus => {
            lister.running = Some(now);
            None
        }
    }
}

// No burst runs. A message that waited for its time closes.
fn wait_in_quiet(lister: &mut ChannelLister, now: u64) -> Option<Closed>
    ensures closed { option_to_list result ≡ closed_in_time now false lister.old.waiting }
    ensures keeps { lister.new ≡ record lister.old { waiting = kept_in_time now false lister.old.waiting } }
{
    if lister.is_over(now) {
        lister.unanswered(now)
    } else {
        None
    }
}

// A slot ended, which closes nothing.
fn keep(lister: &mut ChannelLister, word: Option<Word>) -> Option<Closed>
    ensures none { result ≡ None }
    ensures keeps { lister.new ≡ record lister.old { slots = record { items = kept_with lister.old.slots.items word } } }
{
    lister.keep(word);
    None
}
