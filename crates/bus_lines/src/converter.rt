//! What turns the bytes of a recording into ticks.
ghost use Rattle.std.specs.Prelude.{◌≡◌, ◌<◌, ◌≤◌, ◌++◌, ℕ, List, Option, length, OnOk};
ghost use Rattle.bus_monitor.specs.Scribes.{Owed};
ghost use Rattle.bus_outside.specs.Causes.{HasCause};
ghost use Rattle.bus_phase.specs.Phases.{pair_now, after_tick};
ghost use Rattle.bus_lines.specs.Converting as spec;
ghost use Rattle.bus_lines.specs.Written.{OwedOr, Took, TookByte, TookEnd, StopCause, HaltsFor};
ghost use Rattle.bus_capture.specs.Captures.{sample_byte};

use crate::reader::{Closing, RecordingReader};
use crate::writing::write_long;
use bus_base::{Pair, Sample};
use bus_monitor::Page;
use bus_outside::{Failed, Sink};
use bus_phase::Phase;
use bus_recording::{Moment, RecordingRefusal};

/// Why the reading of a recording stops before its end.
#[derive(Clone, Copy, Debug)]
pub enum Halt {
    /// The recording is refused.
    Refused(RecordingRefusal),
    /// A write failed.
    WriteFault,
}

/// Turns the bytes of a recording into the ticks of a capture.
#[derive(Drop)]
pub struct Converter {
    /// Reads the text.
    pub reader: RecordingReader,
    /// Follows both channels.
    pub phase: Phase,
    /// The ticks that stand in the capture's last line already, fewer than 64.
    pub column: u8,
}

impl Converter {
    /// A converter that was given no byte.
    pub fn new(reader: RecordingReader) -> Converter
        ensures { result ≡ spec.started reader }
    {
        Converter {
            reader,
            phase: Phase::new(),
            column: 0,
        }
    }

    /// Takes the next byte, and adds the ticks that are due then.
    pub fn take<K: Sink>(&mut self, byte: u8, text: &mut Page, sink: &mut K) -> Result<(), Halt>
        requires room { length text.old ≤ 3000 }
        ensures took { (before : List ℕ) (first : Option (List ℕ)) → Owed before text.old first (K.held sink.old) →
            TookByte byte before self.old self.new text.new first (K.held sink.new) result }
        ensures room { length text.new ≤ 3000 }
        ensures cause { StopCause (K.faults sink.old) (K.faults sink.new) result }
    {
        let at = self.reader.offset();
        match self.reader.push(byte) {
            Err(refusal) => Err(Halt::Refused(refusal)),
            Ok(moment) => self.take_moment(moment, at, text, sink),
        }
    }

    // Takes a moment, if there is one, that the byte at an offset ends.
    fn take_moment<K: Sink>(
        &mut self,
        moment: Option<Moment>,
        at: u64,
        text: &mut Page,
        sink: &mut K,
    ) -> Result<(), Halt>
        requires room { length text.old ≤ 3000 }
        ensures took { (before : List ℕ) (first : Option (List ℕ)) → Owed before text.old first (K.held sink.old) →
            Took (spec.all_told (spec.with_moment moment self.old)) (before ++ spec.due_text (spec.with_moment moment self.old))
            (spec.going_on at (spec.all_told (spec.with_moment moment self.old))) self.new text.new first (K.held sink.new) result }
        ensures room { length text.new ≤ 3000 }
        ensures cause { StopCause (K.faults sink.old) (K.faults sink.new) result }
    {
        self.show(moment);
        match self.tell(text, sink) {
            Err(_) => Err(Halt::WriteFault),
            Ok(()) => halt_at(self.excess(at)),
        }
    }

    fn show(&mut self, moment: Option<Moment>)
        ensures { self.new ≡ spec.with_moment moment self.old }
    {
        if let Some(moment) = moment {
            self.phase.show(moment.at, moment.pair);
        }
    }

    // Where a capture would have too many ticks the recording is refused, with the byte at an offset.
    fn excess(&self, at: u64) -> Option<RecordingRefusal>
        ensures { result ≡ spec.going_on at self.now }
    {
        if self.phase.is_full() {
            Some(RecordingRefusal::Long(at))
        } else {
            None
        }
    }

    /// The recording ends: adds all ticks that are left.
    pub fn end<K: Sink>(&mut self, text: &mut Page, sink: &mut K) -> Result<(), Halt>
        requires room { length text.old ≤ 3000 }
        ensures took { (before : List ℕ) (first : Option (List ℕ)) → Owed before text.old first (K.held sink.old) →
            TookEnd before self.old self.new text.new first (K.held sink.new) result }
        ensures room { length text.new ≤ 3000 }
        ensures cause { StopCause (K.faults sink.old) (K.faults sink.new) result }
    {
        let at = self.reader.offset();
        match self.reader.end() {
            Err(refusal) => Err(Halt::Refused(refusal)),
            Ok(closing) => self.close(closing, at, text, sink),
        }
    }

    fn close<K: Sink>(
        &mut self,
        closing: Closing,
        at: u64,
        text: &mut Page,
        sink: &mut K,
    ) -> Result<(), Halt>
        requires room { length text.old ≤ 3000 }
        ensures took { (before : List ℕ) (first : Option (List ℕ)) → Owed before text.old first (K.held sink.old) →
            Took (spec.all_told (spec.with_closing closing self.old)) (before ++ spec.due_text (spec.with_closing closing self.old))
            (spec.going_on at (spec.all_told (spec.with_closing closing self.old))) self.new text.new first (K.held sink.new) result }
        ensures room { length text.new ≤ 3000 }
        ensures cause { StopCause (K.faults sink.old) (K.faults sink.new) result }
    {
        self.show_end(closing);
        match self.tell(text, sink) {
            Err(_) => Err(Halt::WriteFault),
            Ok(()) => halt_at(self.excess(at)),
        }
    }

    fn show_end(&mut self, closing: Closing)
        ensures { self.new ≡ spec.with_closing closing self.old }
    {
        self.show(closing.moment);
        self.phase.end(closing.end);
    }

    // Adds the ticks that are due, and writes the text where it gets long.
    fn tell<K: Sink>(&mut self, text: &mut Page, sink: &mut K) -> Result<(), Failed>
        requires room { length text.old ≤ 3000 }
        ensures told { (before : List ℕ) (first : Option (List ℕ)) → Owed before text.old first (K.held sink.old) →
            OwedOr (before ++ spec.due_text self.old) text.new first (K.held sink.new) result }
        ensures state { OnOk result (self.new ≡ spec.all_told self.old) }
        ensures room { length text.new ≤ 3000 }
        ensures cause { HasCause (K.faults sink.old) (K.faults sink.new) result }
    {
        'ticks: while self.phase.ticks_due() > 0 {
            match self.tell_one(text, sink) {
                Ok(()) => {}
                Err(failed) => return Err(failed),
            }
        }
        Ok(())
    }

    // Adds the next tick, and writes the text where it gets long.
    fn tell_one<K: Sink>(&mut self, text: &mut Page, sink: &mut K) -> Result<(), Failed>
        requires due { 0 < spec.ticks_due self.old }
        requires room { length text.old ≤ 3000 }
        ensures told { (before : List ℕ) (first : Option (List ℕ)) → Owed before text.old first (K.held sink.old) →
            OwedOr (before ++ spec.tick_text self.old.column (pair_now self.old.phase)) text.new first (K.held sink.new) result }
        ensures state { self.new ≡ spec.after_one self.old }
        ensures room { length text.new ≤ 3000 }
        ensures cause { HasCause (K.faults sink.old) (K.faults sink.new) result }
    {
        let shown = self.next_tick();
        self.write_tick(shown, text, sink)
    }

    fn next_tick(&mut self) -> Pair
        requires due { 0 < spec.ticks_due self.old }
        ensures shown { result ≡ pair_now self.old.phase }
        ensures state { self.new ≡ record self.old { phase = after_tick self.old.phase } }
    {
        match self.phase.tell() {
            Some(shown) => shown,
            None => Pair::QUIET,
        }
    }

    // Adds a tick, and writes the text where it gets long.
    fn write_tick<K: Sink>(
        &mut self,
        shown: Pair,
        text: &mut Page,
        sink: &mut K,
    ) -> Result<(), Failed>
        requires room { length text.old ≤ 3000 }
        ensures told { (before : List ℕ) (first : Option (List ℕ)) → Owed before text.old first (K.held sink.old) →
            OwedOr (before ++ spec.tick_text self.old.column shown) text.new first (K.held sink.new) result }
        ensures state { self.new ≡ record self.old { column = spec.column_after self.old.column } }
        ensures room { length text.new ≤ 3000 }
        ensures cause { HasCause (K.faults sink.old) (K.faults sink.new) result }
    {
        self.add_tick(shown, text);
        write_long(text, sink)
    }

    // Adds a tick, and the line feed of a line that it ends.
    fn add_tick(&mut self, shown: Pair, text: &mut Page)
        requires room { length text.old ≤ 3000 }
        ensures text { text.new ≡ text.old ++ spec.tick_text self.old.column shown }
        ensures state { self.new ≡ record self.old { column = spec.column_after self.old.column } }
    {
        text.add(&[byte_of(shown.a), byte_of(shown.b)]);
        if self.column >= 63 {
            text.add(b"\n");
            self.column = 0;
        } else {
            self.column += 1;
        }
    }

    /// Ends the line that isn't whole.
    pub fn end_line(&self, text: &mut Page)
        requires room { length text.old ≤ 4000 }
        ensures { text.new ≡ text.old ++ spec.line_left self.now }
    {
        if self.column > 0 {
            text.add(b"\n");
        }
    }
}

// Where a recording is refused its reading halts.
fn halt_at(refusal: Option<RecordingRefusal>) -> Result<(), Halt>
    ensures { HaltsFor refusal result }
{
    match refusal {
        Some(refusal) => Err(Halt::Refused(refusal)),
        None => Ok(()),
    }
}

fn byte_of(sample: Sample) -> u8
    ensures { result ≡ sample_byte sample }
{
    match sample {
        Sample::Plus => b'+',
        Sample::Minus => b'-',
        Sample::Quiet => b'.',
    }
}
