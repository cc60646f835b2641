//! The top call of the program `mastrolu-wave`.
ghost use Rattle.std.specs.Prelude.{◌≡◌, map, string_bytes};
ghost use Rattle.bus_wave.specs.Tool.{Ends, status_of as status_after};

use crate::write_wave;
use bus_monitor::Listing;
use bus_outside::{Sink, Source};
use bus_refusals::refuse_words;

/// Writes the wave of a capture, and answers the program's status. The words are the command line without the program's name, of which no word has a
/// meaning.
///
/// - 0: the capture was read to its end, and its whole wave was written.
/// - 2: there are words, and nothing was read.
/// - 3: the capture is refused; the wave of the ticks before was written, and the refusal as a comment.
/// - 4: the source failed; the wave of the ticks before was written.
/// - 5: the sink failed, and a front of the text that was due was written.
pub fn wave_tool<S: Source, K: Sink>(words: &[String], source: &mut S, sink: &mut K) -> u8
    ensures { Ends (S.left source.old) (S.left source.new) (K.held sink.old) (K.held sink.new)
        (S.faults source.old) (S.faults source.new) (K.faults sink.old) (K.faults sink.new) result (map string_bytes words.now) }
{
    match words {
        [] => status_of(write_wave(source, sink)),
        _ => refuse_words(sink),
    }
}

fn status_of(ending: Listing) -> u8
    ensures { result ≡ status_after ending }
{
    match ending {
        Listing::Done(_) => 0,
        Listing::Refused(_) => 3,
        Listing::ReadFault => 4,
        Listing::WriteFault => 5,
    }
}
