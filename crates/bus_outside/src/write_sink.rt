// The edge towards the standard library's writers. It tells nothing, since a writer does not promise
// to go on telling what it holds; what a writer does tell of a call is passed on.
ghost use Rattle.std.specs.Prelude.{◌≡◌, None};
ghost use Rattle.bus_outside.specs.Causes.{HasCause, SameTelling, WriteAdds, faults_after};

use crate::{Failed, Sink};
use std::io::{ErrorKind, Write};

/// A sink over any writer. Nothing is flushed: a line that is written in one piece goes out in one write.
#[derive(Drop)]
pub struct WriteSink<W> {
    writer: W,
    faults: u64,
}

impl<W: Write> WriteSink<W> {
    /// A sink to the writer.
    pub fn new(writer: W) -> WriteSink<W>
        ensures writer { result.writer ≡ writer }
        ensures faults { result.faults ≡ 0 }
    {
        WriteSink { writer, faults: 0 }
    }
}

impl<W: Write> Sink for WriteSink<W> {
    ghost held = { λ _. None };

    ghost faults = { λ s. s.faults };

    fn write(&mut self, piece: &[u8]) -> Result<(), Failed>
        ensures bytes { WriteAdds None None result piece.now }
        ensures told { SameTelling None None }
        ensures cause { HasCause self.old.faults self.new.faults result }
        ensures counted { self.new.faults ≡ faults_after result self.old.faults }
        ensures writer { WriteAdds (W.contents self.old.writer) (W.contents self.new.writer) result piece.now }
    {
        match write_whole(&mut self.writer, piece) {
            Ok(()) => Ok(()),
            Err(failed) => {
                self.faults = self.faults.saturating_add(1);
                Err(failed)
            }
        }
    }
}

// Writes the piece whole, in as many writes as the writer wants. A write that a signal interrupts is
// tried again; one that takes nothing of what is left fails.
fn write_whole<W: Write>(writer: &mut W, piece: &[u8]) -> Result<(), Failed>
    ensures { WriteAdds (W.contents writer.old) (W.contents writer.new) result piece.now }
{
    let mut at = 0;
    'tries: for _ in 0..u64::MAX {
        if at >= piece.len() {
            return Ok(());
        }
        match writer.write(&piece[at..]) {
            Ok(0) => return Err(Failed),
            Ok(count) => at += count,
            Err(error) if error.kind() == ErrorKind::Interrupted => {}
            Err(_) => return Err(Failed),
        }
    }
    Err(Failed)
}
