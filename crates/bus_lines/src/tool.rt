//! The top call of the program `mastrolu-lines`.
ghost use Rattle.std.specs.Prelude.{◌≡◌, map, string_bytes};
ghost use Rattle.bus_lines.specs.Ends as spec;
ghost use Rattle.bus_lines.specs.Words.{meaning};

use crate::reader::RecordingReader;
use crate::words::reader_of;
use crate::writing::{Ending, write_capture};
use bus_outside::{Sink, Source};
use bus_refusals::refuse_words;

/// Writes the capture of a recording, and answers the program's status. The words are the command line without the program's name: `vcd` and the names of two or
/// four one-bit variables; `logic`, a clock, and two or four columns; `volts`, a clock, a threshold in millivolts, and one or two columns.
///
/// - 0: the recording was read to its end, and its whole capture was written.
/// - 2: the words have no meaning, and nothing was read.
/// - 3: the recording is refused; the ticks that were due before were written, and the refusal's line.
/// - 4: the source failed; the ticks that were due before were written.
/// - 5: the sink failed, and a front of the text that was due was written.
pub fn lines_tool<S: Source, K: Sink>(words: &[String], source: &mut S, sink: &mut K) -> u8
    ensures { spec.Ends (S.left source.old) (S.left source.new) (K.held sink.old) (K.held sink.new)
        (S.faults source.old) (S.faults source.new) (K.faults sink.old) (K.faults sink.new) result (meaning (map string_bytes words.now)) }
{
    match reader_of(words) {
        None => refuse_words(sink),
        Some(reader) => convert(reader, source, sink),
    }
}

// Writes the capture of the recording.
fn convert<S: Source, K: Sink>(reader: RecordingReader, source: &mut S, sink: &mut K) -> u8
    ensures { spec.EndsRecording (S.left source.old) (S.left source.new) (K.held sink.old) (K.held sink.new)
        (S.faults source.old) (S.faults source.new) (K.faults sink.old) (K.faults sink.new) result reader }
{
    status_of(write_capture(reader, source, sink))
}

fn status_of(ending: Ending) -> u8
    ensures { result ≡ spec.status_of ending }
{
    match ending {
        Ending::Done => 0,
        Ending::Refused(_) => 3,
        Ending::ReadFault => 4,
        Ending::WriteFault => 5,
    }
}
