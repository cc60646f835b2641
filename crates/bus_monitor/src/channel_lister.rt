//! The messages of one channel, tick by tick.
ghost use Rattle.std.specs.Prelude.{◌≡◌, ◌+◌, ◌-◌, ◌≤◌, ◌<◌, ◌^◌, ◌++◌, true, ℕ, List, [], ◌∷◌, length, take, reverse, false, is_some, if◌then◌else◌, option_to_list, Option, Some, None};
ghost use Rattle.bus_base.specs.declared.samples.Sample.{Sample};
ghost use Rattle.bus_line.specs.Past.{heard_or_now};
ghost use Rattle.bus_line.specs.declared.cutter.TheConstants.{LAG};
ghost use Rattle.bus_words.specs.declared.word.Word.{Word};
ghost use Rattle.bus_monitor.specs.Awaited.{kept_in_time, open_of};
ghost use Rattle.bus_monitor.specs.Progress.{closed_now, closed_in_time};
ghost use Rattle.bus_monitor.specs.Steps.{is_over, kept_with, closed_in, waits_in, burst_next, closed_lines};
ghost use Rattle.bus_monitor.specs.Channels.{ChannelListerStands, is_idle_on};
ghost use Rattle.bus_monitor.specs.Parts.{InTime, CloseNone};
ghost use Rattle.bus_monitor.specs.Models.{came_of};
ghost use Rattle.bus_monitor.specs.Told.{TellsSo, told_in_pause, from_of, taken_of, taken_as as taken_as_spec, is_bad};
ghost use Rattle.bus_monitor.specs.declared.told.Taken.TheVariants as takens;
ghost use Rattle.bus_planes.specs.Still.{IsStill, TellNothing, samples_in};

use crate::closed::{Closed, Ended};
use crate::message_text::add_closed;
use crate::page::Page;
use crate::told::{BurstEnd, Taken, Told};
use crate::waiting::{Next, Waiting, take_burst};
use arrayvec::ArrayVec;
use bus_base::{Channel, Sample};
use bus_formats::Outcome;
use bus_line::{Cut, LAG};
use bus_planes::BitCutter;
use bus_words::Word;

/// Tells the messages of one channel where they close, and its bursts where they begin and end. It takes no memory.
#[derive(Drop)]
pub struct ChannelLister {
    /// The burst that runs, tick by tick.
    pub cutter: BitCutter,
    /// The first tick of the burst that runs.
    pub running: Option<u64>,
    /// Its first whole slots.
    pub slots: ArrayVec<Option<Word>, 34>,
    /// The message that waits for an answer.
    pub waiting: Option<Waiting>,
}

impl ChannelLister {
    /// A lister that heard nothing.
    pub fn new() -> ChannelLister
        ensures { ChannelListerStands result [] }
    {
        ChannelLister {
            cutter: BitCutter::new(),
            running: None,
            slots: ArrayVec::new(),
            waiting: None,
        }
    }

    /// Hears what the channel shows in tick `now`, and adds the line of the message that closes in this tick, if one does.
    #[inline(always)]
    pub fn list(&mut self, channel: Channel, now: u64, sample: Sample, text: &mut Page)
        requires past { (past : List Sample) × ChannelListerStands self.old past × (length past ≡ now) × (now < 2 ^ 60) }
        requires room { length text.old ≤ 3900 }
        ensures text { (past : List Sample) → ChannelListerStands self.old past → length past ≡ now →
            text.new ≡ text.old ++ closed_lines channel (closed_now LAG (sample ∷ past)) }
        ensures grows { length text.new ≤ length text.old + 100 }
        ensures stands { (past : List Sample) → ChannelListerStands self.old past → length past ≡ now →
            ChannelListerStands self.new (sample ∷ past) }
    {
        match self.cutter.hear(sample) {
            Cut::Nothing => self.wait(channel, now, sample, text),
            Cut::Slot { word, .. } => self.keep(word),
            Cut::Ended { rest, .. } => self.close_burst(channel, now, rest, text),
        }
    }

    /// How many of the ticks from `now` on tell nothing and close no message, as far as is looked. Bit i of `heard` is the i-th of them:
    /// whether the channel wasn't quiet.
    #[inline(always)]
    pub fn still(&self, heard: u64, now: u64) -> u32
        ensures still { (n : ℕ) → n ≤ result → IsStill LAG self.now.cutter heard n }
        ensures time { (n : ℕ) → 0 < n → n ≤ result → InTime self.now now n }
    {
        let ticks = self.cutter.still(heard);
        if self.running.is_some() {
            return ticks;
        }
        match &self.waiting {
            Some(waiting) => ticks.min(waiting.left(now)),
            None => ticks,
        }
    }

    /// Hears so many ticks at once, which tell nothing and close no message.
    #[inline(always)]
    pub fn pass(&mut self, heard: u64, plus: u64, ticks: u32)
        requires some { 0 < ticks }
        requires still { IsStill LAG self.old.cutter heard ticks }
        requires past { (past : List Sample) × ChannelListerStands self.old past }
        ensures stands { (past : List Sample) → ChannelListerStands self.old past → InTime self.old (length past) ticks →
            ChannelListerStands self.new (reverse (samples_in heard plus ticks) ++ past) }
        ensures closes { (past : List Sample) → ChannelListerStands self.old past → InTime self.old (length past) ticks →
            CloseNone (reverse (samples_in heard plus ticks)) past }
        ensures tells { (past : List Sample) → ChannelListerStands self.old past → TellNothing LAG (reverse (samples_in heard plus ticks)) past }
    {
        self.cutter.pass(heard, plus, ticks);
    }

    /// Whether no burst runs and no message waits: then a quiet tick changes nothing, and closes none.
    pub fn is_idle(&self) -> bool
        ensures { result ≡ is_idle_on self.now }
    {
        self.running.is_none() && self.waiting.is_none()
    }

    /// The first tick of the message that is open, if one is.
    pub fn open(&self) -> Option<u64>
        ensures { result ≡ open_of self.now.running self.now.waiting }
    {
        match &self.waiting {
            Some(waiting) => Some(waiting.first()),
            None => self.running,
        }
    }

    /// The first tick of the burst that runs, if one does.
    pub fn running(&self) -> Option<u64>
        ensures { result ≡ self.now.running }
    {
        self.running
    }

    /// Hears what the channel shows in tick `now`, and tells what became known with it.
    #[inline(always)]
    pub fn hear(&mut self, now: u64, sample: Sample) -> Told
        requires { (past : List Sample) × ChannelListerStands self.old past × (length past ≡ now) × (now < 2 ^ 60) }
        ensures told { (past : List Sample) → ChannelListerStands self.old past → length past ≡ now → TellsSo LAG sample past result }
        ensures stands { (past : List Sample) → ChannelListerStands self.old past → length past ≡ now →
            ChannelListerStands self.new (sample ∷ past) }
    {
        match self.cutter.hear(sample) {
            Cut::Nothing => self.pause(now, sample),
            Cut::Slot { word, .. } => {
                self.keep(word);
                Told::Slot(word.is_some())
            }
            Cut::Ended { rest, .. } => Told::Ended(self.tell_end(now, rest)),
        }
    }

    // Nothing became known of a burst. One runs, or begins in this tick, or the time for an answer runs.
    #[inline(always)]
    fn pause(&mut self, now: u64, sample: Sample) -> Told
        ensures told { result ≡ told_in_pause sample self.old.running self.old.waiting }
        ensures keeps { self.new ≡ record self.old {
          running = heard_or_now sample now self.old.running;
          waiting = kept_in_time now (is_some (heard_or_now sample now self.old.running)) self.old.waiting;
        } }
    {
        if self.running.is_some() {
            return Told::Nothing;
        }
        match sample {
            Sample::Quiet => {
                self.let_go(now);
                Told::Nothing
            }
            Sample::Plus | Sample::Minus => {
                self.running = Some(now);
                Told::Begun(self.waits_from())
            }
        }
    }

    // No burst runs. A message whose time for an answer is over waits no longer.
    fn let_go(&mut self, now: u64)
        ensures { self.new ≡ record self.old { waiting = kept_in_time now false self.old.waiting } }
    {
        if self.is_over(now) {
            self.waiting = None;
        }
    }

    // The tick from which a message waits, if one does.
    fn waits_from(&self) -> Option<u64>
        ensures { result ≡ from_of self.now.waiting }
    {
        match &self.waiting {
            Some(waiting) => Some(waiting.from()),
            None => None,
        }
    }

    // The burst that ran has ended. A call of its own, since few ticks end a burst.
    #[inline(never)]
    fn tell_end(&mut self, now: u64, rest: u8) -> BurstEnd
        ensures told { (first : ℕ) (whole : List (Option Word)) → self.old.running ≡ Some first → self.old.slots.items ≡ take 34 whole →
            result ≡ record {
              first = first;
              rest = rest;
              taken = taken_of (closed_in (burst_next self.old.waiting first (now - LAG) now whole rest));
            } }
        ensures keeps { (first : ℕ) (whole : List (Option Word)) → self.old.running ≡ Some first → self.old.slots.items ≡ take 34 whole →
            self.new ≡ record self.old {
              running = None;
              slots = record { items = [] };
              waiting = waits_in (burst_next self.old.waiting first (now - LAG) now whole rest);
            } }
    {
        let first = self.running.unwrap_or(0);
        let closed = self.end_burst(now, rest);
        BurstEnd {
            first,
            rest,
            taken: taken_in(&closed),
        }
    }

    /// A slot with this word ended. More than 34 mean nothing but too many.
    pub fn keep(&mut self, word: Option<Word>)
        ensures { self.new ≡ record self.old { slots = record { items = kept_with self.old.slots.items word } } }
    {
        let _ = self.slots.try_push(word);
    }

    // Nothing became known of a burst. One runs, or begins in this tick, or the time for an answer runs.
    #[inline(always)]
    fn wait(&mut self, channel: Channel, now: u64, sample: Sample, text: &mut Page)
        requires { length text.old ≤ 3900 }
        ensures text { text.new ≡ text.old ++ closed_lines channel (closed_in_time now (is_some (heard_or_now sample now self.old.running)) self.old.waiting) }
        ensures grows { length text.new ≤ length text.old + 100 }
        ensures keeps { self.new ≡ record self.old {
          running = heard_or_now sample now self.old.running;
          waiting = kept_in_time now (is_some (heard_or_now sample now self.old.running)) self.old.waiting;
        } }
    {
        if self.running.is_some() {
            return;
        }
        match sample {
            Sample::Quiet => self.wait_in_quiet(channel, now, text),
            Sample::Plus | Sample::Minus => self.running = Some(now),
        }
    }

    // No burst runs. A message that waited for its time closes.
    fn wait_in_quiet(&mut self, channel: Channel, now: u64, text: &mut Page)
        requires { length text.old ≤ 3900 }
        ensures text { text.new ≡ text.old ++ closed_lines channel (closed_in_time now false self.old.waiting) }
        ensures grows { length text.new ≤ length text.old + 100 }
        ensures keeps { self.new ≡ record self.old { waiting = kept_in_time now false self.old.waiting } }
    {
        if self.is_over(now) {
            add_closed(channel, self.unanswered(now), text);
        }
    }

    /// The message that waited for its time.
    pub fn unanswered(&mut self, now: u64) -> Option<Closed>
        requires { is_over now self.old.waiting ≡ true }
        ensures closed { option_to_list result ≡ closed_in_time now false self.old.waiting }
        ensures keeps { self.new ≡ record self.old { waiting = kept_in_time now false self.old.waiting } }
    {
        let waiting = self.waiting.take()?;
        Some(waiting.unanswered(now))
    }

    /// Whether a message waits whose time for an answer is over with this tick, if no burst runs.
    pub fn is_over(&self, now: u64) -> bool
        ensures { result ≡ is_over now self.now.waiting }
    {
        match &self.waiting {
            Some(waiting) => waiting.is_over(now),
            None => false,
        }
    }

    // The burst that ran has ended: adds the line of the message that closes with it. A call of its own, since few ticks end a burst.
    #[inline(never)]
    fn close_burst(&mut self, channel: Channel, now: u64, rest: u8, text: &mut Page)
        requires { length text.old ≤ 3900 }
        ensures text { (first : ℕ) (whole : List (Option Word)) → self.old.running ≡ Some first → self.old.slots.items ≡ take 34 whole →
            text.new ≡ text.old ++ closed_lines channel (closed_in (burst_next self.old.waiting first (now - LAG) now whole rest)) }
        ensures grows { length text.new ≤ length text.old + 100 }
        ensures keeps { (first : ℕ) (whole : List (Option Word)) → self.old.running ≡ Some first → self.old.slots.items ≡ take 34 whole →
            self.new ≡ record self.old {
              running = None;
              slots = record { items = [] };
              waiting = waits_in (burst_next self.old.waiting first (now - LAG) now whole rest);
            } }
    {
        let closed = self.end_burst(now, rest);
        add_closed(channel, closed, text);
    }

    /// The burst that ran has ended, with so many ticks after its last whole slot: the message that closes with it, if one does.
    pub fn end_burst(&mut self, now: u64, rest: u8) -> Option<Closed>
        ensures closed { (first : ℕ) (whole : List (Option Word)) → self.old.running ≡ Some first → self.old.slots.items ≡ take 34 whole →
            option_to_list result ≡ closed_in (burst_next self.old.waiting first (now - LAG) now whole rest) }
        ensures keeps { (first : ℕ) (whole : List (Option Word)) → self.old.running ≡ Some first → self.old.slots.items ≡ take 34 whole →
            self.new ≡ record self.old {
              running = None;
              slots = record { items = [] };
              waiting = waits_in (burst_next self.old.waiting first (now - LAG) now whole rest);
            } }
    {
        let first = self.running.take()?;
        let end = now.saturating_sub(u64::from(LAG));
        let next = take_burst(
            self.waiting.take(),
            first,
            end,
            self.slots.as_slice(),
            rest,
            now,
        );
        self.slots.clear();
        match next {
            Next::Closed(closed) => Some(closed),
            Next::Waits(waiting) => {
                self.waiting = Some(waiting);
                None
            }
        }
    }
}

// What the burst was with which this message closed, if one did.
fn taken_in(closed: &Option<Closed>) -> Taken
    ensures { result ≡ taken_of (option_to_list closed.now) }
{
    match closed {
        Some(closed) => taken_as(&closed.came),
        None => Taken::Known,
    }
}

fn taken_as(came: &Option<Ended>) -> Taken
    ensures { result ≡ taken_as_spec (came_of came.now) }
{
    match came {
        None => Taken::Unknown,
        Some(ended) => taken_by(ended.outcome),
    }
}

fn taken_by(outcome: Outcome) -> Taken
    ensures { result ≡ (if is_bad outcome then takens.BadReply else takens.Known) }
{
    match outcome {
        Outcome::BadReply(_) => Taken::BadReply,
        _ => Taken::Known,
    }
}
