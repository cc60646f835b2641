//! A wave while its capture is read.
ghost use Rattle.std.specs.Prelude.{◌≡◌, ◌<◌, ◌≤◌, ◌+◌, ◌^◌, ◌++◌, [], ℕ, List, Option, length, reverse, true};
ghost use Rattle.bus_base.specs.declared.samples.Pair.{Pair};
ghost use Rattle.bus_line.specs.declared.cutter.TheConstants.{LAG};
ghost use Rattle.bus_outside.specs.Causes.{WriteAdds, HasCause};
ghost use Rattle.bus_capture.specs.Readings.{ticks_in};
ghost use Rattle.bus_monitor.specs.Scribes.{Owed, OwedSo, FaultHasCause};
ghost use Rattle.bus_wave.specs.Delays.{column_at};
ghost use Rattle.bus_wave.specs.Drawers.{ListerStands, Draws};
ghost use Rattle.bus_wave.specs.Waves.{shown_before, undrawn, wave_so_far};
ghost use Rattle.bus_wave.specs.Written.{DrewTo, DrewDueSo, WaveFollows, WaveTook};
ghost use Rattle.bus_wave.specs.declared.marks.Column.{Column};

use crate::delay_line::HORIZON;
use crate::drawer::Drawer;
use crate::dump_text::DumpText;
use crate::stamp::Stamp;
use crate::text::HEAD;
use crate::wave_lister::WaveLister;
use bus_monitor::{ListingWriter, Page, Stop};
use bus_outside::{Failed, Sink};

/// Hears a capture piece by piece, and draws its ticks, 1,536 behind. It holds back at most one piece of text.
#[derive(Drop)]
pub struct WaveWriter {
    /// It reads and hears; its own text stays empty.
    pub hearing: ListingWriter<WaveLister>,
    pub drawer: Drawer,
    /// The first digits of the time that was written last.
    pub stamp: Stamp,
    pub text: DumpText,
}

impl WaveWriter {
    /// A writer that has read nothing.
    pub fn new() -> WaveWriter
        ensures { (first : Option (List ℕ)) → WaveFollows result [] first first }
    {
        let mut text = DumpText::new();
        text.text(HEAD);
        WaveWriter {
            hearing: ListingWriter::new(WaveLister::new(), Page::new()),
            drawer: Drawer::new(),
            stamp: Stamp::of(0),
            text,
        }
    }

    /// Takes a piece, and writes what is due with it.
    pub fn take<K: Sink>(&mut self, piece: &[u8], sink: &mut K) -> Result<(), Stop>
        requires short { length piece.now ≤ 2048 }
        requires follows { (bytes : List ℕ) × (first : Option (List ℕ)) × WaveFollows self.old bytes first (K.held sink.old) }
        ensures took { (bytes : List ℕ) (first : Option (List ℕ)) → WaveFollows self.old bytes first (K.held sink.old) →
            WaveTook self.new (reverse piece.now ++ bytes) first (K.held sink.new) result }
        ensures cause { FaultHasCause (K.faults sink.old) (K.faults sink.new) result }
    {
        match self.hearing.take_piece(piece, sink) {
            Ok(()) => self.draw_due(sink),
            Err(stop) => Err(stop),
        }
    }

    /// Draws the ticks that are due.
    pub fn draw_due<K: Sink>(&mut self, sink: &mut K) -> Result<(), Stop>
        requires { (past : List Pair) × (first : Option (List ℕ)) × ListerStands self.old.hearing.lister past × (length past < 2 ^ 60)
            × Draws self.old.drawer self.old.text past first (K.held sink.old) }
        ensures drew { (past : List Pair) (first : Option (List ℕ)) → ListerStands self.old.hearing.lister past →
            Draws self.old.drawer self.old.text past first (K.held sink.old) → DrewDueSo past self.new first (K.held sink.new) result }
        ensures keeps { self.new.hearing ≡ self.old.hearing }
        ensures cause { FaultHasCause (K.faults sink.old) (K.faults sink.new) result }
    {
        let end = undrawn(self.hearing.lister.ticks());
        self.draw_to(end, sink)
    }

    /// Draws the ticks before this one.
    pub fn draw_to<K: Sink>(&mut self, end: u64, sink: &mut K) -> Result<(), Stop>
        requires order { self.old.drawer.tick ≤ end }
        requires time { end < 2 ^ 60 }
        requires room { length self.old.text ≤ 3000 }
        ensures drew { (known : ℕ → Column) (all : List ℕ) (first : Option (List ℕ)) →
            ((t : ℕ) → self.old.drawer.tick ≤ t → t < end → column_at self.old.hearing.lister.line t ≡ known t) →
            self.old.drawer.last ≡ shown_before known self.old.drawer.tick → Owed all self.old.text first (K.held sink.old) →
            DrewTo known all self.old.drawer.tick end self.new first (K.held sink.new) result }
        ensures keeps { self.new.hearing ≡ self.old.hearing }
        ensures cause { FaultHasCause (K.faults sink.old) (K.faults sink.new) result }
    {
        'ticks: while self.drawer.tick < end {
            self.drawer.draw_next(
                &self.hearing.lister.line,
                end,
                &mut self.stamp,
                &mut self.text,
            );
            match write_long(&mut self.text, sink) {
                Ok(()) => {}
                Err(stop) => return Err(stop),
            }
        }
        Ok(())
    }
}

/// The first tick that isn't due after so many.
pub fn undrawn(ticks: u64) -> u64
    ensures { result ≡ undrawn ticks }
{
    ticks.saturating_sub(HORIZON - 1)
}

// Writes a text that leaves no room for another tick's lines.
#[inline(always)]
fn write_long<K: Sink>(text: &mut DumpText, sink: &mut K) -> Result<(), Stop>
    ensures owed { (all : List ℕ) (first : Option (List ℕ)) → Owed all text.old first (K.held sink.old) →
        OwedSo all text.new first (K.held sink.new) result }
    ensures cause { FaultHasCause (K.faults sink.old) (K.faults sink.new) result }
{
    if text.len() <= 3000 {
        return Ok(());
    }
    write_out(text, sink)
}

#[inline(never)]
fn write_out<K: Sink>(text: &mut DumpText, sink: &mut K) -> Result<(), Stop>
    ensures owed { (all : List ℕ) (first : Option (List ℕ)) → Owed all text.old first (K.held sink.old) →
        OwedSo all text.new first (K.held sink.new) result }
    ensures cause { FaultHasCause (K.faults sink.old) (K.faults sink.new) result }
{
    match write(text, sink) {
        Ok(()) => Ok(()),
        Err(_) => Err(Stop::WriteFault),
    }
}

/// Writes the text that was held back.
pub fn write<K: Sink>(text: &mut DumpText, sink: &mut K) -> Result<(), Failed>
    ensures text { text.new ≡ [] }
    ensures held { WriteAdds (K.held sink.old) (K.held sink.new) result text.old }
    ensures cause { HasCause (K.faults sink.old) (K.faults sink.new) result }
{
    let written = sink.write(text.as_bytes());
    text.clear();
    written
}
