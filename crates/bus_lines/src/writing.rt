//! A capture from the first piece of its recording to the last.
ghost use Rattle.std.specs.Prelude.{◌≡◌, ◌≤◌, ◌<◌, ◌++◌, ℕ, suc, List, Option, true, false, length, IfOk};
ghost use Rattle.bus_monitor.specs.Scribes.{Owed};
ghost use Rattle.bus_outside.specs.Causes.{HasCause};
ghost use Rattle.bus_recording.specs.Vcd.{text_limit};
ghost use Rattle.bus_lines.specs.Ends.{IsConverted, EndingHasCause};
ghost use Rattle.bus_lines.specs.Written.{
  OwedOr,
  TookBytes,
  ReadLast,
  PieceRead,
  ReadCause,
  Closes,
  StopCause,
  ending_of,
  is_fault,
  closing_text,
  comment_of,
};

use crate::converter::{Converter, Halt};
use crate::reader::RecordingReader;
use crate::refusals::add_refusal;
use bus_monitor::Page;
use bus_outside::{Failed, Sink, Source};
use bus_recording::RecordingRefusal;

// The most bytes that are read: one more than a recording has.
const MOST_BYTES: u64 = 8_589_934_593;

// The bytes of a piece.
const PIECE: u64 = 4096;

/// How a recording ended.
#[derive(Clone, Copy, Debug)]
pub enum Ending {
    /// At its end.
    Done,
    /// Refused.
    Refused(RecordingRefusal),
    /// A read failed.
    ReadFault,
    /// A write failed.
    WriteFault,
}

/// Reads a recording to its end, in pieces of at most 4,096 bytes, and writes its capture while it reads. Where the recording is refused, or a read fails, the
/// ticks that were due before are written, and of a refusal its line. It takes no memory.
pub fn write_capture<S: Source, K: Sink>(
    reader: RecordingReader,
    source: &mut S,
    sink: &mut K,
) -> Ending
    ensures converted { IsConverted reader (S.left source.old) (S.left source.new) (K.held sink.old) (K.held sink.new) result }
    ensures cause { EndingHasCause (S.faults source.old) (S.faults source.new) (K.faults sink.old) (K.faults sink.new) result }
{
    let mut converter = Converter::new(reader);
    let mut text = Page::new();
    text.text("1553 capture 1\n");
    let mut piece = [0u8; 4096];
    let ending = read_all(&mut converter, &mut text, &mut piece, source, sink);
    finish(&converter, ending, &mut text, sink)
}

// Reads to the end, piece by piece.
fn read_all<S: Source, K: Sink>(
    converter: &mut Converter,
    text: &mut Page,
    piece: &mut [u8],
    source: &mut S,
    sink: &mut K,
) -> Ending
    requires room { length text.old ≤ 3000 }
    requires piece { length piece.old ≡ 4096 }
    ensures read { ReadLast (suc text_limit) (S.left source.old) (S.left source.new) converter.old converter.new text.old text.new
        (K.held sink.old) (K.held sink.new) result }
    ensures room { length text.new ≤ 3000 }
    ensures cause { EndingHasCause (S.faults source.old) (S.faults source.new) (K.faults sink.old) (K.faults sink.new) result }
{
    let mut left = MOST_BYTES;
    'pieces: loop {
        let room = left.min(PIECE) as usize;
        match read_piece(converter, text, &mut piece[..room], source, sink) {
            Ok(count) => left -= count as u64,
            Err(ending) => return ending,
        }
    }
}

// Reads a piece and takes it. The number of its bytes; or how the reading ends.
fn read_piece<S: Source, K: Sink>(
    converter: &mut Converter,
    text: &mut Page,
    piece: &mut [u8],
    source: &mut S,
    sink: &mut K,
) -> Result<usize, Ending>
    requires place { 0 < length piece.old }
    requires room { length text.old ≤ 3000 }
    ensures read { PieceRead (length piece.old) (S.left source.old) (S.left source.new) converter.old converter.new text.old text.new
        (K.held sink.old) (K.held sink.new) result }
    ensures some { IfOk result (λ n. (0 < n) × (n ≤ length piece.old)) }
    ensures room { length text.new ≤ 3000 }
    ensures reads { S.faults source.old ≤ S.faults source.new }
    ensures writes { K.faults sink.old ≤ K.faults sink.new }
    ensures cause { ReadCause (S.faults source.old) (S.faults source.new) (K.faults sink.old) (K.faults sink.new) result }
{
    match source.read(piece) {
        Ok(0) => Err(ended(converter.end(text, sink))),
        Ok(count) => match take_piece(converter, &piece[..count], text, sink) {
            Ok(()) => Ok(count),
            Err(Halt::Refused(refusal)) => Err(Ending::Refused(refusal)),
            Err(Halt::WriteFault) => Err(Ending::WriteFault),
        },
        Err(_) => Err(Ending::ReadFault),
    }
}

fn ended(end: Result<(), Halt>) -> Ending
    ensures { result ≡ ending_of end }
{
    match end {
        Ok(()) => Ending::Done,
        Err(Halt::Refused(refusal)) => Ending::Refused(refusal),
        Err(Halt::WriteFault) => Ending::WriteFault,
    }
}

// Takes the bytes of a piece.
fn take_piece<K: Sink>(
    converter: &mut Converter,
    piece: &[u8],
    text: &mut Page,
    sink: &mut K,
) -> Result<(), Halt>
    requires room { length text.old ≤ 3000 }
    ensures took { (before : List ℕ) (first : Option (List ℕ)) → Owed before text.old first (K.held sink.old) →
        TookBytes piece.now before converter.old converter.new text.new first (K.held sink.new) result }
    ensures room { length text.new ≤ 3000 }
    ensures cause { StopCause (K.faults sink.old) (K.faults sink.new) result }
{
    for byte in piece {
        match converter.take(*byte, text, sink) {
            Ok(()) => {}
            Err(halt) => return Err(halt),
        }
    }
    Ok(())
}

// Writes what is left, and the line of a refusal.
fn finish<K: Sink>(converter: &Converter, ending: Ending, text: &mut Page, sink: &mut K) -> Ending
    requires room { length text.old ≤ 3000 }
    ensures fault { is_fault ending ≡ true → (result ≡ ending) × (K.held sink.new ≡ K.held sink.old) × (K.faults sink.new ≡ K.faults sink.old) }
    ensures closes { is_fault ending ≡ false →
        Closes (closing_text ending converter.now) ending text.old (K.held sink.old) (K.held sink.new) (K.faults sink.old) (K.faults sink.new) result }
    ensures later { K.faults sink.old ≤ K.faults sink.new }
{
    if is_write_fault(ending) {
        return ending;
    }
    add_closing(converter, ending, text);
    match sink.write(text.as_bytes()) {
        Ok(()) => ending,
        Err(_) => Ending::WriteFault,
    }
}

fn is_write_fault(ending: Ending) -> bool
    ensures { result ≡ is_fault ending }
{
    match ending {
        Ending::WriteFault => true,
        _ => false,
    }
}

// Ends the line that isn't whole, and adds the line of a refusal.
fn add_closing(converter: &Converter, ending: Ending, text: &mut Page)
    requires room { length text.old ≤ 3000 }
    ensures { text.new ≡ text.old ++ closing_text ending converter.now }
{
    converter.end_line(text);
    add_comment(ending, &converter.reader, text);
}

fn add_comment(ending: Ending, reader: &RecordingReader, text: &mut Page)
    requires room { length text.old ≤ 4001 }
    ensures { text.new ≡ text.old ++ comment_of ending reader.now }
{
    if let Ending::Refused(refusal) = ending {
        add_refusal(refusal, reader, text);
    }
}

/// Writes a text that leaves little room.
pub(crate) fn write_long<K: Sink>(text: &mut Page, sink: &mut K) -> Result<(), Failed>
    ensures owed { (all : List ℕ) (first : Option (List ℕ)) → Owed all text.old first (K.held sink.old) → OwedOr all text.new first (K.held sink.new) result }
    ensures room { length text.new ≤ 3000 }
    ensures cause { HasCause (K.faults sink.old) (K.faults sink.new) result }
{
    if text.as_bytes().len() <= 3000 {
        return Ok(());
    }
    let written = sink.write(text.as_bytes());
    text.clear();
    written
}
