//! The reading half of both listings: bytes become ticks, ticks become lines, lines go to the sink.
ghost use Rattle.std.specs.Prelude.{◌≡◌, ◌<◌, ◌≤◌, ◌+◌, ◌^◌, ◌⊎◌, ℕ, Bool, true, List, [], ◌∷◌, ◌++◌, length, reverse, Option};
ghost use Rattle.bus_base.specs.Samples.{quiet_pairs};
ghost use Rattle.bus_monitor.specs.Parts.{part};
ghost use Rattle.bus_base.specs.declared.samples.Pair.{Pair};
ghost use Rattle.std.specs.Io.KnownBytes.{IsAtEnd};
ghost use Rattle.bus_outside.specs.Causes.{WriteAdds, HasCause, Rose};
ghost use Rattle.bus_monitor.specs.Scribes.{
  Holds,
  Follows,
  Took,
  FaultHasCause,
  Owed,
  OwedSo,
  Closes,
  EndsSo,
  ListingHasCause,
  ReadSo,
  ReadCause,
};

use crate::Listing;
use crate::page::Page;
use bus_base::Pair;
use bus_capture::{Block, CaptureReader, CaptureRefusal};
use bus_outside::{Failed, Sink, Source};

/// What makes lines of ticks.
pub trait Lister {
    /// For which ticks it stands, the newest first.
    ghost stands: { Self → List Pair → Type 0 };

    /// The lines that ticks complete.
    ghost lines: { List Pair → List ℕ };

    /// The whole listing: those lines, and what the end of the ticks adds.
    ghost whole: { List Pair → List ℕ };

    /// Whether a quiet tick completes no line, and changes nothing but the number of ticks.
    ghost idle: { Self → Bool };

    /// Whether it is idle.
    fn is_idle(&self) -> bool
        ensures { result ≡ idle self.now };

    /// Hears so many ticks in which both channels are quiet, at once.
    fn skip(&mut self, ticks: u64)
        requires idle { idle self.old ≡ true }
        requires past { (past : List Pair) × stands self.old past × (length past + ticks < 2 ^ 60) }
        ensures stands { (past : List Pair) → stands self.old past → stands self.new (quiet_pairs ticks ++ past) }
        ensures lines { (past : List Pair) → stands self.old past → lines (quiet_pairs ticks ++ past) ≡ lines past };

    /// Hears the ticks of a block from one on that complete no line, as far as is looked. How many.
    fn pass(&mut self, block: &Block, at: u32) -> u32
        requires at { at < block.now.ticks }
        requires few { block.now.ticks ≤ 64 }
        requires past { (past : List Pair) × stands self.old past × (length past + 64 < 2 ^ 60) }
        ensures within { result + at ≤ block.now.ticks }
        ensures stands { (past : List Pair) → stands self.old past → stands self.new (part block.now at result ++ past) }
        ensures lines { (past : List Pair) → stands self.old past → lines (part block.now at result ++ past) ≡ lines past };

    /// Hears a tick, and adds the lines that it completes to the text.
    fn list(&mut self, shown: Pair, text: &mut Page)
        requires past { (past : List Pair) × stands self.old past × (length past < 2 ^ 60) }
        requires room { length text.old ≤ 3000 }
        ensures stands { (past : List Pair) → stands self.old past → stands self.new (shown ∷ past) }
        ensures lines { (past : List Pair) → stands self.old past →
            (added : List ℕ) × (lines (shown ∷ past) ≡ lines past ++ added) × (text.new ≡ text.old ++ added) }
        ensures grows { length text.new ≤ length text.old + 3000 };

    /// Adds the lines that the end of the ticks adds to the text.
    fn finish(&self, text: &mut Page)
        requires past { (past : List Pair) × stands self.now past × (length past < 2 ^ 60) }
        requires room { length text.old ≤ 3000 }
        ensures { (past : List Pair) → stands self.now past →
            (added : List ℕ) × (whole past ≡ lines past ++ added) × (text.new ≡ text.old ++ added) };
}

/// Why a listing stops within its input.
#[derive(Clone, Copy, Debug, PartialEq, Eq)]
pub enum Stop {
    Refused(CaptureRefusal),
    WriteFault,
}

/// Reads a capture byte by byte, and writes the lines of its ticks. It holds back at most one piece of text.
#[derive(Drop)]
pub struct ListingWriter<L> {
    pub reader: CaptureReader,
    pub lister: L,
    pub text: Page,
}

impl<L: Lister> ListingWriter<L> {
    /// A writer that has read nothing, and begins with this text.
    pub fn new(lister: L, text: Page) -> ListingWriter<L>
        requires stands { L.stands lister [] }
        requires lines { L.lines [] ≡ text }
        requires room { length text ≤ 3000 }
        ensures { (first : Option (List ℕ)) → Follows L.stands L.lines result [] first first }
    {
        ListingWriter {
            reader: CaptureReader::new(),
            lister,
            text,
        }
    }

    /// Takes the next byte.
    pub fn take<K: Sink>(&mut self, byte: u8, sink: &mut K) -> Result<(), Stop>
        requires { (bytes : List ℕ) × (first : Option (List ℕ)) × Follows L.stands L.lines self.old bytes first (K.held sink.old) }
        ensures took { (bytes : List ℕ) (first : Option (List ℕ)) → Follows L.stands L.lines self.old bytes first (K.held sink.old) →
            Took L.stands L.lines self.new (byte ∷ bytes) first (K.held sink.new) result }
        ensures cause { FaultHasCause (K.faults sink.old) (K.faults sink.new) result }
    {
        match self.reader.push(byte) {
            Ok(None) => Ok(()),
            Ok(Some(shown)) => self.list_tick(shown, sink),
            Err(refusal) => Err(Stop::Refused(refusal)),
        }
    }

    /// Takes a piece, and writes what it completes.
    pub fn take_piece<K: Sink>(&mut self, piece: &[u8], sink: &mut K) -> Result<(), Stop>
        requires { (bytes : List ℕ) × (first : Option (List ℕ)) × Follows L.stands L.lines self.old bytes first (K.held sink.old) }
        ensures took { (bytes : List ℕ) (first : Option (List ℕ)) → Follows L.stands L.lines self.old bytes first (K.held sink.old) →
            Took L.stands L.lines self.new (reverse piece.now ++ bytes) first (K.held sink.new) result }
        ensures cause { FaultHasCause (K.faults sink.old) (K.faults sink.new) result }
    {
        let mut at = 0;
        'bytes: while at < piece.len() {
            match self.take_some(&piece[at..], sink) {
                Ok(count) => at += count,
                Err(stop) => return Err(stop),
            }
        }
        self.write_out(sink)
    }

    /// The lister.
    pub fn into_lister(self) -> L
        ensures { result ≡ self.lister }
    {
        self.lister
    }

    /// Writes a text that leaves no room for another tick's lines.
    #[inline(always)]
    pub fn write_long<K: Sink>(&mut self, sink: &mut K) -> Result<(), Stop>
        ensures keeps { (self.new.reader ≡ self.old.reader) × (self.new.lister ≡ self.old.lister) }
        ensures owed { (all : List ℕ) (first : Option (List ℕ)) → Owed all self.old.text first (K.held sink.old) →
            OwedSo all self.new.text first (K.held sink.new) result }
        ensures cause { FaultHasCause (K.faults sink.old) (K.faults sink.new) result }
    {
        if self.text.as_bytes().len() <= 3000 {
            return Ok(());
        }
        match self.write(sink) {
            Ok(()) => Ok(()),
            Err(_) => Err(Stop::WriteFault),
        }
    }

    fn write_out<K: Sink>(&mut self, sink: &mut K) -> Result<(), Stop>
        ensures took { (bytes : List ℕ) (first : Option (List ℕ)) → Holds L.stands L.lines self.old bytes first (K.held sink.old) →
            Took L.stands L.lines self.new bytes first (K.held sink.new) result }
        ensures cause { FaultHasCause (K.faults sink.old) (K.faults sink.new) result }
    {
        match self.write(sink) {
            Ok(()) => Ok(()),
            Err(_) => Err(Stop::WriteFault),
        }
    }

    /// Writes the text that was held back.
    pub fn write<K: Sink>(&mut self, sink: &mut K) -> Result<(), Failed>
        ensures text { self.new ≡ record self.old { text = [] } }
        ensures held { WriteAdds (K.held sink.old) (K.held sink.new) result self.old.text }
        ensures cause { HasCause (K.faults sink.old) (K.faults sink.new) result }
    {
        let written = sink.write(self.text.as_bytes());
        self.text.clear();
        written
    }

    // Writes the text that was held back, and answers with the listing where that doesn't fail.
    fn close<K: Sink>(&mut self, listing: Listing, sink: &mut K) -> Listing
        ensures keeps { self.new.lister ≡ self.old.lister }
        ensures closes { (all : List ℕ) (first : Option (List ℕ)) → Owed all self.old.text first (K.held sink.old) →
            Closes all listing first (K.held sink.new) (K.faults sink.old) (K.faults sink.new) result }
        ensures later { K.faults sink.old ≤ K.faults sink.new }
        ensures cause { (result ≡ listing) ⊎ ((result ≡ Listing.WriteFault) × Rose (K.faults sink.old) (K.faults sink.new)) }
    {
        match self.write(sink) {
            Ok(()) => listing,
            Err(_) => Listing::WriteFault,
        }
    }

    // Ends the listing at the end of the input.
    fn finish<K: Sink>(&mut self, sink: &mut K) -> Listing
        requires { (bytes : List ℕ) × (first : Option (List ℕ)) × Follows L.stands L.lines self.old bytes first (K.held sink.old) }
        ensures ends { (bytes : List ℕ) (first left : Option (List ℕ)) → IsAtEnd left →
            Follows L.stands L.lines self.old bytes first (K.held sink.old) →
            EndsSo L.lines L.whole left bytes first (K.held sink.new) result }
        ensures keeps { self.new.lister ≡ self.old.lister }
        ensures cause { (source : ℕ) → ListingHasCause source source (K.faults sink.old) (K.faults sink.new) result }
    {
        match self.reader.end() {
            Err(refusal) => self.close(Listing::Refused(refusal), sink),
            Ok(ticks) => {
                self.lister.finish(&mut self.text);
                self.close(Listing::Done(ticks), sink)
            }
        }
    }

    // Reads a piece and takes it. The number of its bytes; or the listing's end.
    pub fn read_piece<S: Source, K: Sink>(
        &mut self,
        piece: &mut [u8],
        source: &mut S,
        sink: &mut K,
    ) -> Result<usize, Listing>
        requires some { 0 < length piece.old }
        requires follows { (bytes : List ℕ) × (first : Option (List ℕ)) × Follows L.stands L.lines self.old bytes first (K.held sink.old) }
        ensures read { (bytes : List ℕ) (first : Option (List ℕ)) → Follows L.stands L.lines self.old bytes first (K.held sink.old) →
            ReadSo L.stands L.lines L.whole (length piece.old) (S.left source.old) (S.left source.new) self.new bytes first (K.held sink.new) result }
        ensures reads { S.faults source.old ≤ S.faults source.new }
        ensures writes { K.faults sink.old ≤ K.faults sink.new }
        ensures cause { ReadCause (S.faults source.old) (S.faults source.new) (K.faults sink.old) (K.faults sink.new) result }
    {
        match source.read(piece) {
            Ok(0) => Err(self.finish(sink)),
            Ok(count) => match self.take_piece(&piece[..count], sink) {
                Ok(()) => Ok(count),
                Err(Stop::Refused(refusal)) => Err(self.close(Listing::Refused(refusal), sink)),
                Err(Stop::WriteFault) => Err(Listing::WriteFault),
            },
            Err(_) => Err(self.close(Listing::ReadFault, sink)),
        }
    }
}
