//! What each tick of a channel tells of its wave.
ghost use Rattle.std.specs.Prelude.{
  ◌≡◌,
  ◌==◌,
  ◌&&◌,
  is_none,
  ◌+◌,
  ◌-◌,
  ◌*◌,
  ◌<◌,
  ◌^◌,
  ◌∷◌,
  [],
  ℕ,
  List,
  length,
  take,
  true,
  false,
  is_some,
  Option,
  None,
  Some,
  flat_map,
};
ghost use Rattle.bus_base.specs.declared.samples.Sample.{Sample};
ghost use Rattle.bus_words.specs.declared.word.Word.{Word};
ghost use Rattle.bus_line.specs.Past.{heard_or_now, runs, stopped};
ghost use Rattle.bus_line.specs.declared.cutter.TheConstants.{LAG};
ghost use Rattle.bus_monitor.specs.Awaited.{kept_in_time, open_of};
ghost use Rattle.bus_monitor.specs.Channels.{ChannelListerStands};
ghost use Rattle.bus_monitor.specs.Messages.{message_of as message_in};
ghost use Rattle.bus_monitor.specs.Progress.{closed_in_time};
ghost use Rattle.bus_monitor.specs.Steps.{kept_with, burst_next, waits_in, is_over as is_over_with};
ghost use Rattle.bus_wave.specs.Told.{told_closed, told_opening, told_now, told_last, told_open, told_running_to, open_to};
ghost use Rattle.bus_wave.specs.Steps.{told_nothing, told_index, told_next, told_sender_of};
ghost use Rattle.bus_wave.specs.Delays.{Marked};

use crate::delay_line::DelayLine;
use crate::line_marks::{
    mark_begin, mark_if_closed, mark_name, mark_opening, mark_slot, mark_stop, mark_waiting,
};
use crate::message_marks::open_mark;
use bus_base::{Channel, Sample};
use bus_formats::answers;
use bus_line::{Cut, LAG};
use bus_monitor::{ChannelLister, message_of};
use bus_words::Word;

/// Marks what one channel shows.
#[derive(Drop)]
pub struct Marker {
    pub lister: ChannelLister,
}

impl Marker {
    /// A marker that heard nothing.
    pub fn new() -> Marker
        ensures { ChannelListerStands result.lister [] }
    {
        Marker {
            lister: ChannelLister::new(),
        }
    }

    /// Hears what the channel shows in tick `now`, and marks what that tells. Before it both channels were quiet for so many ticks, if any tick wasn't.
    #[inline(always)]
    pub fn hear(
        &mut self,
        channel: Channel,
        now: u64,
        sample: Sample,
        gap: Option<u64>,
        line: &mut DelayLine,
    )
        requires past { (past : List Sample) × ChannelListerStands self.old.lister past × (length past ≡ now) × (now < 2 ^ 60) }
        ensures stands { (past : List Sample) → ChannelListerStands self.old.lister past → length past ≡ now →
            ChannelListerStands self.new.lister (sample ∷ past) }
        ensures marked { (past : List Sample) → ChannelListerStands self.old.lister past → length past ≡ now →
            Marked line.old line.new (now + 1) channel (told_now LAG gap sample past) }
    {
        match self.lister.cutter.hear(sample) {
            Cut::Nothing => self.hear_nothing(channel, now, sample, gap, line),
            Cut::Slot { index, word } => self.hear_slot(channel, now, index, word, line),
            Cut::Ended { rest, .. } => self.hear_end(channel, now, rest, line),
        }
    }

    // Nothing became known of a burst. One runs, or begins in this tick, or the time for an answer runs.
    #[inline(always)]
    fn hear_nothing(
        &mut self,
        channel: Channel,
        now: u64,
        sample: Sample,
        gap: Option<u64>,
        line: &mut DelayLine,
    )
        requires { now < 2 ^ 60 }
        ensures marked { Marked line.old line.new (now + 1) channel
            (told_nothing LAG gap now sample self.old.lister.running self.old.lister.waiting) }
        ensures keeps { self.new.lister ≡ record self.old.lister {
          running = heard_or_now sample now self.old.lister.running;
          waiting = kept_in_time now (is_some (heard_or_now sample now self.old.lister.running)) self.old.lister.waiting;
        } }
    {
        if self.lister.running.is_some() {
            return;
        }
        match sample {
            Sample::Quiet => self.wait(channel, now, line),
            Sample::Plus | Sample::Minus => {
                self.lister.running = Some(now);
                mark_begin(channel, now, gap, &self.lister.waiting, line);
            }
        }
    }

    // No burst runs. A message that waited for its time closes.
    #[inline(always)]
    fn wait(&mut self, channel: Channel, now: u64, line: &mut DelayLine)
        requires { now < 2 ^ 60 }
        ensures marked { Marked line.old line.new (now + 1) channel
            (flat_map (told_closed LAG) (closed_in_time now false self.old.lister.waiting)) }
        ensures keeps { self.new.lister ≡ record self.old.lister { waiting = kept_in_time now false self.old.lister.waiting } }
    {
        if self.lister.is_over(now) {
            self.close(channel, now, line);
        }
    }

    // The time for an answer is over.
    #[inline(never)]
    fn close(&mut self, channel: Channel, now: u64, line: &mut DelayLine)
        requires over { is_over_with now self.old.lister.waiting ≡ true }
        requires time { now < 2 ^ 60 }
        ensures marked { Marked line.old line.new (now + 1) channel
            (flat_map (told_closed LAG) (closed_in_time now false self.old.lister.waiting)) }
        ensures keeps { self.new.lister ≡ record self.old.lister { waiting = kept_in_time now false self.old.lister.waiting } }
    {
        let closed = self.lister.unanswered(now);
        mark_if_closed(channel, now + 1, &closed, line);
    }

    // A slot ended.
    #[inline(never)]
    fn hear_slot(
        &mut self,
        channel: Channel,
        now: u64,
        index: u64,
        word: Option<Word>,
        line: &mut DelayLine,
    )
        requires { now < 2 ^ 60 }
        ensures marked { (first : ℕ) → self.old.lister.running ≡ Some first → first + 40 * index < 2 ^ 60 →
            Marked line.old line.new (now + 1) channel (told_index first index word self.old.lister.waiting) }
        ensures keeps { self.new.lister ≡ record self.old.lister { slots = record { items = kept_with self.old.lister.slots.items word } } }
    {
        let first = self.first();
        let opens = self.opens(index);
        mark_slot(channel, now + 1, first, index, opens, word, line);
        self.lister.keep(word);
    }

    // The first tick of the burst that runs.
    fn first(&self) -> u64
        ensures { (first : ℕ) → self.now.lister.running ≡ Some first → result ≡ first }
    {
        self.lister.running.unwrap_or(0)
    }

    // Whether the slot with this index begins a message.
    fn opens(&self, index: u64) -> bool
        ensures { result ≡ ((index == 0) && is_none self.now.lister.waiting) }
    {
        index == 0 && self.lister.waiting.is_none()
    }

    // The burst that ran has ended, with so many ticks after its last whole slot.
    #[inline(never)]
    fn hear_end(&mut self, channel: Channel, now: u64, rest: u8, line: &mut DelayLine)
        requires { now < 2 ^ 60 }
        ensures marked { (first : ℕ) (whole : List (Option Word)) → self.old.lister.running ≡ Some first → first < 2 ^ 60 →
            self.old.lister.slots.items ≡ take 34 whole →
            Marked line.old line.new (now + 1) channel
            (told_next LAG first (now - LAG) self.old.lister.waiting (message_in whole rest) rest
            (burst_next self.old.lister.waiting first (now - LAG) now whole rest)) }
        ensures keeps { (first : ℕ) (whole : List (Option Word)) → self.old.lister.running ≡ Some first → self.old.lister.slots.items ≡ take 34 whole →
            self.new.lister ≡ record self.old.lister {
              running = None;
              slots = record { items = [] };
              waiting = waits_in (burst_next self.old.lister.waiting first (now - LAG) now whole rest);
            } }
    {
        let end = now.saturating_sub(u64::from(LAG));
        mark_stop(channel, now + 1, end, rest, line);
        self.mark_sender(channel, now + 1, rest, line);
        let closed = self.lister.end_burst(now, rest);
        mark_if_closed(channel, now + 1, &closed, line);
        mark_waiting(channel, now + 1, &self.lister.waiting, line);
    }

    // The burst that ended opens a message, where it answers none.
    fn mark_sender(&self, channel: Channel, ticks: u64, rest: u8, line: &mut DelayLine)
        ensures { (first : ℕ) (whole : List (Option Word)) → self.now.lister.running ≡ Some first → first < 2 ^ 60 →
            self.now.lister.slots.items ≡ take 34 whole →
            Marked line.old line.new ticks channel (told_sender_of first self.now.lister.waiting (message_in whole rest)) }
    {
        match &self.lister.waiting {
            Some(_) => {}
            None => self.mark_controller(channel, ticks, rest, line),
        }
    }

    // The message that the burst opens is the controller's, where it is of a known form.
    fn mark_controller(&self, channel: Channel, ticks: u64, rest: u8, line: &mut DelayLine)
        ensures { (first : ℕ) (whole : List (Option Word)) → self.now.lister.running ≡ Some first → first < 2 ^ 60 →
            self.now.lister.slots.items ≡ take 34 whole →
            Marked line.old line.new ticks channel (told_opening first (message_in whole rest)) }
    {
        if let Some(first) = self.lister.running {
            let kind = message_of(self.lister.slots.as_slice(), rest);
            mark_opening(channel, ticks, first, &kind, line);
        }
    }

    /// Marks what the end of the capture tells, after so many ticks.
    pub fn finish(&self, channel: Channel, ticks: u64, line: &mut DelayLine)
        requires { ticks < 2 ^ 60 }
        ensures { (past : List Sample) → ChannelListerStands self.now.lister past → length past ≡ ticks →
            Marked line.old line.new (ticks + 1) channel (told_last LAG past) }
    {
        let stop = self.stop();
        self.mark_running(channel, ticks + 1, stop, line);
        self.mark_open(channel, ticks + 1, stop, line);
    }

    // The tick after the last one that wasn't quiet of the burst that runs.
    fn stop(&self) -> u64
        ensures { (past : List Sample) → ChannelListerStands self.now.lister past → length past < 2 ^ 60 → runs LAG past ≡ true →
            result ≡ stopped past }
    {
        let first = self.lister.running.unwrap_or(0);
        first.saturating_add(self.lister.cutter.burst_ticks())
    }

    // Marks the burst that runs, up to this tick.
    fn mark_running(&self, channel: Channel, ticks: u64, stop: u64, line: &mut DelayLine)
        ensures { Marked line.old line.new ticks channel (told_running_to self.now.lister.running stop) }
    {
        if let Some(first) = self.lister.running {
            mark_stop(
                channel,
                ticks,
                stop,
                (stop.saturating_sub(first) % 40) as u8,
                line,
            );
        }
    }

    // Marks the message that is open.
    fn mark_open(&self, channel: Channel, ticks: u64, stop: u64, line: &mut DelayLine)
        ensures { Marked line.old line.new ticks channel
            (told_open stop self.now.lister.running self.now.lister.waiting (open_of self.now.lister.running self.now.lister.waiting)) }
    {
        if let Some(first) = self.lister.open() {
            let mark = open_mark(&self.lister.waiting);
            let to = self.open_to(stop);
            mark_name(channel, ticks, first, to, mark, line);
        }
    }

    // Where the message that is open is drawn to.
    fn open_to(&self, stop: u64) -> u64
        ensures { result ≡ open_to stop self.now.lister.running self.now.lister.waiting }
    {
        if self.lister.running.is_some() {
            return stop;
        }
        match &self.lister.waiting {
            Some(waiting) => waiting.from(),
            None => stop,
        }
    }
}
