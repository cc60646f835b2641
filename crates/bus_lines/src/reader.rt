//! The text of a recording, in either form.
ghost use Rattle.std.specs.Prelude.{◌≡◌, ◌≤◌, length};
ghost use Rattle.bus_lines.specs.Readers as spec;

use bus_recording::{Moment, RecordingRefusal, RowReader, VcdReader};

/// Reads a recording byte by byte.
#[derive(Drop)]
pub enum RecordingReader {
    /// A value change dump.
    Vcd(VcdReader),
    /// Rows of numbers.
    Rows(RowReader),
}

/// How a recording ends.
#[derive(Clone, Copy, Debug)]
pub struct Closing {
    /// Its last moment, if its end tells one.
    pub moment: Option<Moment>,
    /// When it ends, in picoseconds.
    pub end: u64,
}

impl RecordingReader {
    /// Takes the next byte. The moment that it ends, if it ends one; or the first refusal.
    pub fn push(&mut self, byte: u8) -> Result<Option<Moment>, RecordingRefusal>
        ensures state { self.new ≡ spec.after byte self.old }
        ensures answer { result ≡ spec.answer byte self.old }
    {
        match self {
            RecordingReader::Vcd(reader) => reader.push(byte),
            RecordingReader::Rows(reader) => reader.push(byte),
        }
    }

    /// What it comes to where it ends here.
    pub fn end(&mut self) -> Result<Closing, RecordingRefusal>
        ensures state { self.new ≡ spec.after_end self.old }
        ensures answer { result ≡ spec.closing self.old }
    {
        match self {
            RecordingReader::Vcd(reader) => end_dump(reader),
            RecordingReader::Rows(reader) => end_rows(reader),
        }
    }

    /// The bytes that it took.
    pub fn offset(&self) -> u64
        ensures { result ≡ spec.offset self.now }
    {
        match self {
            RecordingReader::Vcd(reader) => reader.at,
            RecordingReader::Rows(reader) => reader.at,
        }
    }

    /// The name of a line, counted from 0; rows have none.
    pub fn line_name(&self, line: u8) -> &[u8]
        ensures name { result.now ≡ spec.line_name line self.now }
        ensures few { length result.now ≤ 64 }
    {
        match self {
            RecordingReader::Vcd(reader) => match line {
                0 => reader.wires.a_plus.name.as_slice(),
                1 => reader.wires.a_minus.name.as_slice(),
                2 => reader.wires.b_plus.name.as_slice(),
                _ => reader.wires.b_minus.name.as_slice(),
            },
            RecordingReader::Rows(_) => &[],
        }
    }
}

fn end_dump(reader: &mut VcdReader) -> Result<Closing, RecordingRefusal>
    ensures state { reader.new ≡ spec.after_dump reader.old }
    ensures answer { result ≡ spec.closing_of_dump reader.old }
{
    match reader.end() {
        Err(refusal) => Err(refusal),
        Ok(moment) => Ok(Closing {
            moment: Some(moment),
            end: reader.time,
        }),
    }
}

fn end_rows(reader: &mut RowReader) -> Result<Closing, RecordingRefusal>
    ensures state { reader.new ≡ spec.after_rows reader.old }
    ensures answer { result ≡ spec.closing_of_rows reader.old }
{
    match reader.end() {
        Err(refusal) => Err(refusal),
        Ok(moment) => Ok(Closing {
            moment,
            end: reader.end_time(),
        }),
    }
}
