//! The top call.
ghost use Rattle.std.specs.Prelude.{◌≡◌, ◌≤◌, length, map, string_bytes};
ghost use Rattle.bus_table.specs.Ends as spec;
ghost use Rattle.bus_table.specs.Meaning.{meaning, format_named as named};

use crate::{Format, write_table};
use bus_capture::CaptureRefusal;
use bus_monitor::Listing;
use bus_outside::{Sink, Source};
use bus_refusals::{capture_refusal_line, refuse_words};
use bus_text::Line;

/// Does what the words ask for, and answers the program's status. The words are the command line without the program's name: `csv` or `json`.
///
/// - 0: the capture was read to its end, and its whole table was written.
/// - 2: the words have no meaning, and nothing was read.
/// - 3: the capture is refused; the rows of the ticks before its first wrong byte were written, and the refusal's line.
/// - 4: the source failed; the rows so far were written.
/// - 5: the sink failed, and a front of the text that was due was written.
pub fn table_tool<S: Source, K: Sink>(words: &[String], source: &mut S, sink: &mut K) -> u8
    ensures { spec.Ends (S.left source.old) (S.left source.new) (K.held sink.old) (K.held sink.new)
        (S.faults source.old) (S.faults source.new) (K.faults sink.old) (K.faults sink.new) result (meaning (map string_bytes words.now)) }
{
    match format_of(words) {
        None => refuse_words(sink),
        Some(format) => table(format, source, sink),
    }
}

// Writes the table of the capture.
fn table<S: Source, K: Sink>(format: Format, source: &mut S, sink: &mut K) -> u8
    ensures { spec.EndsTable (S.left source.old) (S.left source.new) (K.held sink.old) (K.held sink.new)
        (S.faults source.old) (S.faults source.new) (K.faults sink.old) (K.faults sink.new) result format }
{
    let listing = write_table(format, source, sink);
    status_after(format, listing, sink)
}

/// The format that the words mean, the program's name left out; none where they have no meaning.
pub fn format_of(words: &[String]) -> Option<Format>
    ensures { result ≡ meaning (map string_bytes words.now) }
{
    match words {
        [word] => format_named(word.as_str()),
        _ => None,
    }
}

fn format_named(word: &str) -> Option<Format>
    ensures { result ≡ named word.now }
{
    if word == "csv" {
        return Some(Format::Csv);
    }
    if word == "json" {
        return Some(Format::Json);
    }
    None
}

// The status after a table that ended so; at a refusal its line is written.
fn status_after<K: Sink>(format: Format, listing: Listing, sink: &mut K) -> u8
    ensures answer { spec.StatusAfter (K.held sink.old) (K.held sink.new) (K.faults sink.old) (K.faults sink.new) result format listing }
    ensures later { K.faults sink.old ≤ K.faults sink.new }
{
    match listing {
        Listing::Done(_) => 0,
        Listing::ReadFault => 4,
        Listing::WriteFault => 5,
        Listing::Refused(refusal) => match sink.write(refusal_line(format, refusal).as_bytes()) {
            Ok(()) => 3,
            Err(_) => 5,
        },
    }
}

// The line of a refused capture.
fn refusal_line(format: Format, refusal: CaptureRefusal) -> Line
    ensures { result ≡ spec.refusal_line format refusal }
{
    match format {
        Format::Csv => capture_refusal_line(refusal),
        Format::Json => refusal_object(refusal),
    }
}

fn refusal_object(refusal: CaptureRefusal) -> Line
    ensures { result ≡ spec.object_of refusal }
{
    match refusal {
        CaptureRefusal::Header(offset) => refused_object("header", offset),
        CaptureRefusal::Byte(offset) => refused_object("byte", offset),
        CaptureRefusal::HalfTick(offset) => refused_object("half-tick", offset),
        CaptureRefusal::Long(offset) => refused_object("long", offset),
    }
}

fn refused_object(name: &str, offset: u64) -> Line
    requires { length name.now ≤ 20 }
    ensures { result ≡ spec.refused_object name.now offset }
{
    let mut line = Line::new();
    line.text("{\"refused\":\"");
    line.text(name);
    line.text("\",\"offset\":");
    line.decimal(offset);
    line.text("}");
    line.end();
    line
}
