//! The writer of a capture, tick by tick.
ghost use Rattle.std.specs.Prelude.{◌≡◌, ◌≤◌, ◌<◌, ℕ, List, [], ◌∷◌};
ghost use Rattle.bus_base.specs.declared.samples.Pair.{Pair};
ghost use Rattle.bus_capture.specs.Captures.{ticks_text};
ghost use Rattle.bus_outside.specs.Causes.{WriteAdds, HasCause};
ghost use Rattle.bus_tool.specs.CaptureWriters.{begun_of, CaptureWriterStands, TookTick};

use arrayvec::ArrayVec;
use bus_base::Pair;
use bus_capture::capture_line;
use bus_outside::{Failed, Sink};

/// Writes the ticks of a capture, a line for each 64 of them. It keeps the ticks of the line that is begun, and takes no memory.
#[derive(Drop)]
pub struct CaptureWriter {
    // the ticks of the line that is begun, in front
    line: [Pair; 64],
    begun: usize,
    text: ArrayVec<u8, 129>,
}

impl CaptureWriter {
    /// A writer that was given no tick.
    pub fn new() -> CaptureWriter
        ensures { CaptureWriterStands result [] [] }
    {
        CaptureWriter {
            line: [Pair::QUIET; 64],
            begun: 0,
            text: ArrayVec::new(),
        }
    }

    /// Takes the next tick. The line that it fills is written, in one write.
    pub fn take<K: Sink>(&mut self, shown: Pair, sink: &mut K) -> Result<(), Failed>
        requires { (past : List Pair) × (text : List ℕ) × CaptureWriterStands self.old past text }
        ensures took { (past : List Pair) (text : List ℕ) → CaptureWriterStands self.old past text →
            TookTick (K.held sink.old) (K.held sink.new) result self.new (shown ∷ past) text }
        ensures cause { HasCause (K.faults sink.old) (K.faults sink.new) result }
    {
        self.line[self.begun] = shown;
        self.begun += 1;
        if self.begun < 64 {
            return Ok(());
        }
        self.write_line(sink)
    }

    /// Writes the line that is begun, if one is.
    pub fn end<K: Sink>(&mut self, sink: &mut K) -> Result<(), Failed>
        requires { (past : List Pair) × (text : List ℕ) × CaptureWriterStands self.old past text }
        ensures wrote { WriteAdds (K.held sink.old) (K.held sink.new) result (ticks_text 0 (begun_of self.old)) }
        ensures cause { HasCause (K.faults sink.old) (K.faults sink.new) result }
    {
        if self.begun == 0 {
            return Ok(());
        }
        self.write_line(sink)
    }

    // Writes the line, in one write, and begins the next one.
    fn write_line<K: Sink>(&mut self, sink: &mut K) -> Result<(), Failed>
        requires some { 0 < self.old.begun }
        requires few { self.old.begun ≤ 64 }
        ensures wrote { WriteAdds (K.held sink.old) (K.held sink.new) result (ticks_text 0 (begun_of self.old)) }
        ensures empty { self.new.begun ≡ 0 }
        ensures same { self.new.line ≡ self.old.line }
        ensures cause { HasCause (K.faults sink.old) (K.faults sink.new) result }
    {
        capture_line(&self.line[..self.begun], &mut self.text);
        self.begun = 0;
        sink.write(self.text.as_slice())
    }
}
