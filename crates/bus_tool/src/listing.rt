//! The commands that list a capture.
ghost use Rattle.std.specs.Prelude.{◌≡◌, ◌≤◌};
ghost use Rattle.bus_line.specs.declared.cutter.TheConstants.{LAG};
ghost use Rattle.bus_monitor.specs.Listings.{word_listing, message_listing};
ghost use Rattle.bus_monitor.specs.Progress.{word_lines, message_lines};
ghost use Rattle.bus_tool.specs.Ends.{ListsCapture, StatusAfter};

use bus_monitor::{Listing, list_messages, list_words};
use bus_outside::{Sink, Source};
use bus_refusals::capture_refusal_line;

/// The command `decode`: the valid words of a capture.
pub fn decode<S: Source, K: Sink>(source: &mut S, sink: &mut K) -> u8
    ensures { ListsCapture (S.left source.old) (S.left source.new) (K.held sink.old) (K.held sink.new)
        (S.faults source.old) (S.faults source.new) (K.faults sink.old) (K.faults sink.new) result (word_lines LAG) (word_listing LAG) }
{
    let listing = list_words(source, sink);
    status_after(listing, sink)
}

/// The command `messages`: the messages of a capture, with how they ended.
pub fn messages<S: Source, K: Sink>(source: &mut S, sink: &mut K) -> u8
    ensures { ListsCapture (S.left source.old) (S.left source.new) (K.held sink.old) (K.held sink.new)
        (S.faults source.old) (S.faults source.new) (K.faults sink.old) (K.faults sink.new) result (message_lines LAG) (message_listing LAG) }
{
    let listing = list_messages(source, sink);
    status_after(listing, sink)
}

// The status after a listing that ended so; at a refusal its line is written.
fn status_after<K: Sink>(listing: Listing, sink: &mut K) -> u8
    ensures answer { StatusAfter (K.held sink.old) (K.held sink.new) (K.faults sink.old) (K.faults sink.new) result listing }
    ensures later { K.faults sink.old ≤ K.faults sink.new }
{
    match listing {
        Listing::Done(_) => 0,
        Listing::ReadFault => 4,
        Listing::WriteFault => 5,
        Listing::Refused(refusal) => match sink.write(capture_refusal_line(refusal).as_bytes()) {
            Ok(()) => 3,
            Err(_) => 5,
        },
    }
}
