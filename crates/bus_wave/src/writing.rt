//! A wave from the first piece of its capture to the last.
ghost use Rattle.std.specs.Prelude.{◌≡◌, ◌<◌, ◌≤◌, ◌^◌, ◌++◌, [], ℕ, List, Option, true, false, length};
ghost use Rattle.std.specs.Io.KnownBytes.{IsAtEnd};
ghost use Rattle.bus_base.specs.declared.samples.Pair.{Pair};
ghost use Rattle.bus_line.specs.declared.cutter.TheConstants.{LAG};
ghost use Rattle.bus_monitor.specs.Scribes.{Owed, ListingHasCause, ReadCause, CauseOf, Closes};
ghost use Rattle.bus_wave.specs.Drawers.{Draws, ListerStands, LineEnds};
ghost use Rattle.bus_wave.specs.Written.{
  IsDrawn,
  IsRead,
  PieceRead,
  ReadEnds,
  WaveFollows,
  DrewDue,
  Hears,
  comment_of,
  whole_wave,
  text_before_end,
  is_fault,
};

use crate::drawer::draw_end;
use crate::dump_text::DumpText;
use crate::text::add_refusal;
use crate::wave_lister::WaveLister;
use crate::wave_writer::{WaveWriter, write};
use bus_monitor::{Listing, ListingWriter, Stop};
use bus_outside::{Sink, Source};

// The most bytes that are read: one more than a capture text has.
const MOST_BYTES: u64 = 8_589_934_593;

// The bytes of a piece.
const PIECE: u64 = 2048;

/// Reads a capture to its end, in pieces of at most 2,048 bytes, and writes its wave while it reads, 1,536 ticks behind. Where the capture is refused, or a read
/// fails, the wave of the ticks before is written, and of a refusal its comment. It takes no memory.
pub fn write_wave<S: Source, K: Sink>(source: &mut S, sink: &mut K) -> Listing
    ensures drawn { IsDrawn (S.left source.old) (S.left source.new) (K.held sink.old) (K.held sink.new) result }
    ensures cause { ListingHasCause (S.faults source.old) (S.faults source.new) (K.faults sink.old) (K.faults sink.new) result }
{
    let mut writer = WaveWriter::new();
    let mut piece = [0u8; 2048];
    let ending = read_all(&mut writer, &mut piece, source, sink);
    finish(&mut writer, ending, sink)
}

// Reads to the end, piece by piece.
fn read_all<S: Source, K: Sink>(
    writer: &mut WaveWriter,
    piece: &mut [u8],
    source: &mut S,
    sink: &mut K,
) -> Listing
    requires piece { length piece.old ≡ 2048 }
    requires nothing { WaveFollows writer.old [] (K.held sink.old) (K.held sink.old) }
    ensures read { IsRead (S.left source.old) (S.left source.new) (K.held sink.old) (K.held sink.new) writer.new result }
    ensures cause { ListingHasCause (S.faults source.old) (S.faults source.new) (K.faults sink.old) (K.faults sink.new) result }
{
    let mut left = MOST_BYTES;
    'pieces: loop {
        let room = left.min(PIECE) as usize;
        match read_piece(writer, &mut piece[..room], source, sink) {
            Ok(count) => left -= count as u64,
            Err(ending) => return ending,
        }
    }
}

// Reads a piece and takes it. The number of its bytes; or how the reading ends.
fn read_piece<S: Source, K: Sink>(
    writer: &mut WaveWriter,
    piece: &mut [u8],
    source: &mut S,
    sink: &mut K,
) -> Result<usize, Listing>
    requires some { 0 < length piece.old }
    requires short { length piece.old ≤ 2048 }
    requires follows { (bytes : List ℕ) × (first : Option (List ℕ)) × WaveFollows writer.old bytes first (K.held sink.old) }
    ensures read { (bytes : List ℕ) (first : Option (List ℕ)) → WaveFollows writer.old bytes first (K.held sink.old) →
        PieceRead (length piece.old) (S.left source.old) (S.left source.new) bytes first (K.held sink.new) writer.new result }
    ensures reads { S.faults source.old ≤ S.faults source.new }
    ensures writes { K.faults sink.old ≤ K.faults sink.new }
    ensures cause { ReadCause (S.faults source.old) (S.faults source.new) (K.faults sink.old) (K.faults sink.new) result }
{
    match source.read(piece) {
        Ok(0) => Err(ended(&writer.hearing)),
        Ok(count) => match writer.take(&piece[..count], sink) {
            Ok(()) => Ok(count),
            Err(Stop::Refused(refusal)) => Err(Listing::Refused(refusal)),
            Err(Stop::WriteFault) => Err(Listing::WriteFault),
        },
        Err(_) => Err(Listing::ReadFault),
    }
}

// What a capture comes to that ends here.
fn ended(hearing: &ListingWriter<WaveLister>) -> Listing
    ensures read { (bytes : List ℕ) (left : Option (List ℕ)) → IsAtEnd left → Hears hearing.now bytes → ReadEnds left bytes result }
    ensures cause { (source sink : ℕ) → CauseOf source source sink sink result }
{
    match hearing.reader.end() {
        Ok(ticks) => Listing::Done(ticks),
        Err(refusal) => Listing::Refused(refusal),
    }
}

// Writes what is left.
fn finish<K: Sink>(writer: &mut WaveWriter, ending: Listing, sink: &mut K) -> Listing
    requires { is_fault ending ≡ false → (past : List Pair) × (first : Option (List ℕ)) × ListerStands writer.old.hearing.lister past × (length past < 2 ^ 60)
        × Draws writer.old.drawer writer.old.text past first (K.held sink.old) }
    ensures fault { is_fault ending ≡ true → (result ≡ ending) × (K.held sink.new ≡ K.held sink.old) × (K.faults sink.new ≡ K.faults sink.old) }
    ensures closes { is_fault ending ≡ false → (past : List Pair) (first : Option (List ℕ)) → ListerStands writer.old.hearing.lister past → length past < 2 ^ 60 →
        Draws writer.old.drawer writer.old.text past first (K.held sink.old) →
        Closes (whole_wave ending past) ending first (K.held sink.new) (K.faults sink.old) (K.faults sink.new) result }
    ensures later { K.faults sink.old ≤ K.faults sink.new }
{
    if is_write_fault(ending) {
        return ending;
    }
    match writer.draw_due(sink) {
        Ok(()) => draw_left(writer, ending, sink),
        Err(_) => Listing::WriteFault,
    }
}

fn is_write_fault(ending: Listing) -> bool
    ensures { result ≡ is_fault ending }
{
    match ending {
        Listing::WriteFault => true,
        _ => false,
    }
}

// Writes the ticks that aren't due, and the end.
fn draw_left<K: Sink>(writer: &mut WaveWriter, ending: Listing, sink: &mut K) -> Listing
    requires { (past : List Pair) × (first : Option (List ℕ)) × ListerStands writer.old.hearing.lister past × (length past < 2 ^ 60)
        × DrewDue writer.old past first (K.held sink.old) }
    ensures closes { (past : List Pair) (first : Option (List ℕ)) → ListerStands writer.old.hearing.lister past → length past < 2 ^ 60 →
        DrewDue writer.old past first (K.held sink.old) →
        Closes (whole_wave ending past) ending first (K.held sink.new) (K.faults sink.old) (K.faults sink.new) result }
    ensures later { K.faults sink.old ≤ K.faults sink.new }
{
    writer.hearing.lister.end();
    let ticks = writer.hearing.lister.ticks();
    match writer.draw_to(ticks, sink) {
        Ok(()) => close(writer, ending, sink),
        Err(_) => Listing::WriteFault,
    }
}

// Writes the end, and of a refused capture its comment.
fn close<K: Sink>(writer: &mut WaveWriter, ending: Listing, sink: &mut K) -> Listing
    requires ends { (past : List Pair) × LineEnds writer.old.hearing.lister past × (length past < 2 ^ 60) }
    requires room { length writer.old.text ≤ 3000 }
    ensures closes { (past : List Pair) (first : Option (List ℕ)) → LineEnds writer.old.hearing.lister past →
        Owed (text_before_end past) writer.old.text first (K.held sink.old) →
        Closes (whole_wave ending past) ending first (K.held sink.new) (K.faults sink.old) (K.faults sink.new) result }
    ensures later { K.faults sink.old ≤ K.faults sink.new }
{
    let ticks = writer.hearing.lister.ticks();
    draw_end(&writer.hearing.lister.line, ticks, &mut writer.text);
    add_comment(ending, &mut writer.text);
    match write(&mut writer.text, sink) {
        Ok(()) => ending,
        Err(_) => Listing::WriteFault,
    }
}

fn add_comment(ending: Listing, text: &mut DumpText)
    requires { length text.old ≤ 4000 }
    ensures { text.new ≡ text.old ++ comment_of ending }
{
    if let Listing::Refused(refusal) = ending {
        add_refusal(refusal, text);
    }
}
