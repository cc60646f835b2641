//! The line of a refused recording.
ghost use Rattle.std.specs.Prelude.{◌≡◌, ◌≤◌, ◌++◌, ◌+◌, length};
ghost use Rattle.bus_text.specs.Texts.{number};
ghost use Rattle.bus_lines.specs.Written as spec;

use crate::reader::RecordingReader;
use bus_monitor::Page;
use bus_recording::RecordingRefusal;

/// Adds the line of a refused recording.
pub fn add_refusal(refusal: RecordingRefusal, reader: &RecordingReader, text: &mut Page)
    requires room { length text.old ≤ 4001 }
    ensures { text.new ≡ text.old ++ spec.refusal_line refusal reader.now }
{
    text.text("recording refused ");
    add_words(refusal, reader, text);
    text.end();
}

fn add_words(refusal: RecordingRefusal, reader: &RecordingReader, text: &mut Page)
    requires room { length text.old ≤ 4100 }
    ensures text { text.new ≡ text.old ++ spec.refusal_words refusal reader.now }
    ensures grows { length text.new ≤ length text.old + 200 }
{
    match refusal {
        RecordingRefusal::NoTimescale => text.text("no-timescale 0"),
        RecordingRefusal::NoLine(line) => {
            text.text("no-line ");
            text.add(reader.line_name(line));
        }
        RecordingRefusal::Token(offset) => add_offset("token", offset, text),
        RecordingRefusal::Time(offset) => add_offset("time", offset, text),
        RecordingRefusal::Long(offset) => add_offset("long", offset, text),
    }
}

fn add_offset(name: &str, offset: u64, text: &mut Page)
    requires name { length name.now ≤ 5 }
    requires room { length text.old ≤ 4100 }
    ensures text { text.new ≡ text.old ++ (name.now ++ number offset) }
    ensures grows { length text.new ≤ length text.old + 100 }
{
    text.text(name);
    text.number(offset);
}
