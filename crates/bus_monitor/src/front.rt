//! What a listing takes at the front of a piece: the quiet ticks at once where nothing runs, then a line's ticks as bits, or single ticks, or a byte.
ghost use Rattle.std.specs.Prelude.{◌≡◌, ◌<◌, ◌≤◌, ◌+◌, ◌^◌, ℕ, List, ◌∷◌, ◌++◌, length, reverse, take, Option};
ghost use Rattle.bus_capture.specs.Blocks.{ticks_of};
ghost use Rattle.bus_base.specs.declared.samples.Pair.{Pair};
ghost use Rattle.bus_monitor.specs.Scribes.{Follows, Lists, Listed, TookSome, TookFront, FaultHasCause};

use crate::listing_writer::{Lister, ListingWriter, Stop};
use bus_base::Pair;
use bus_capture::Block;
use bus_outside::Sink;

impl<L: Lister> ListingWriter<L> {
    // Takes the front of a piece: the quiet ticks that are there, where nothing runs, and what follows them. How many bytes it took.
    pub(crate) fn take_some<K: Sink>(&mut self, piece: &[u8], sink: &mut K) -> Result<usize, Stop>
        requires some { 0 < length piece.now }
        requires follows { (bytes : List ℕ) × (first : Option (List ℕ)) × Follows L.stands L.lines self.old bytes first (K.held sink.old) }
        ensures took { (bytes : List ℕ) (first : Option (List ℕ)) → Follows L.stands L.lines self.old bytes first (K.held sink.old) →
            TookSome L.stands L.lines self.new piece.now bytes first (K.held sink.new) result }
        ensures cause { FaultHasCause (K.faults sink.old) (K.faults sink.new) result }
    {
        let quiet = self.skip_quiet(piece);
        if quiet == piece.len() {
            return Ok(quiet);
        }
        match self.take_next(&piece[quiet..], sink) {
            Ok(count) => Ok(quiet + count),
            Err(stop) => Err(stop),
        }
    }

    // Takes a block of ticks at the front of a piece, or what else stands there. How many bytes it took.
    fn take_next<K: Sink>(&mut self, piece: &[u8], sink: &mut K) -> Result<usize, Stop>
        requires some { 0 < length piece.now }
        requires follows { (bytes : List ℕ) × (first : Option (List ℕ)) × Follows L.stands L.lines self.old bytes first (K.held sink.old) }
        ensures took { (bytes : List ℕ) (first : Option (List ℕ)) → Follows L.stands L.lines self.old bytes first (K.held sink.old) →
            TookSome L.stands L.lines self.new piece.now bytes first (K.held sink.new) result }
        ensures cause { FaultHasCause (K.faults sink.old) (K.faults sink.new) result }
    {
        match self.take_block(piece, sink) {
            Ok(0) => self.take_slowly(piece, sink),
            Ok(count) => Ok(count),
            Err(stop) => Err(stop),
        }
    }

    // Takes the ticks at the front of a piece as bits, where at least a line is left of it. How many bytes it took.
    #[inline(always)]
    fn take_block<K: Sink>(&mut self, piece: &[u8], sink: &mut K) -> Result<usize, Stop>
        requires { (bytes : List ℕ) × (first : Option (List ℕ)) × Follows L.stands L.lines self.old bytes first (K.held sink.old) }
        ensures took { (bytes : List ℕ) (first : Option (List ℕ)) → Follows L.stands L.lines self.old bytes first (K.held sink.old) →
            TookFront L.stands L.lines self.new piece.now bytes first (K.held sink.new) result }
        ensures cause { FaultHasCause (K.faults sink.old) (K.faults sink.new) result }
    {
        let run = self.reader.read_block(piece);
        match self.list_block(&run.block, sink) {
            Ok(()) => Ok(run.bytes),
            Err(stop) => Err(stop),
        }
    }

    // Lists the ticks of a block, and writes what they complete where the text gets long.
    #[inline(always)]
    fn list_block<K: Sink>(&mut self, block: &Block, sink: &mut K) -> Result<(), Stop>
        requires few { block.now.ticks ≤ 64 }
        requires past { (past : List Pair) × (first : Option (List ℕ)) × Lists L.stands L.lines self.old past first (K.held sink.old)
            × (length past + 128 < 2 ^ 60) }
        ensures reader { self.new.reader ≡ self.old.reader }
        ensures listed { (past : List Pair) (first : Option (List ℕ)) → Lists L.stands L.lines self.old past first (K.held sink.old) →
            Listed L.stands L.lines self.new (reverse (ticks_of block.now) ++ past) first (K.held sink.new) result }
        ensures cause { FaultHasCause (K.faults sink.old) (K.faults sink.new) result }
    {
        let mut at = 0u32;
        'ticks: while at < block.ticks {
            at += self.lister.pass(block, at);
            if at < block.ticks {
                match self.list_tick(block.tick(at), sink) {
                    Ok(()) => at += 1,
                    Err(stop) => return Err(stop),
                }
            }
        }
        Ok(())
    }

    // Takes the ticks at the front of a piece, or the byte, where no whole tick stands there. How many bytes it took.
    fn take_slowly<K: Sink>(&mut self, piece: &[u8], sink: &mut K) -> Result<usize, Stop>
        requires some { 0 < length piece.now }
        requires follows { (bytes : List ℕ) × (first : Option (List ℕ)) × Follows L.stands L.lines self.old bytes first (K.held sink.old) }
        ensures took { (bytes : List ℕ) (first : Option (List ℕ)) → Follows L.stands L.lines self.old bytes first (K.held sink.old) →
            TookSome L.stands L.lines self.new piece.now bytes first (K.held sink.new) result }
        ensures cause { FaultHasCause (K.faults sink.old) (K.faults sink.new) result }
    {
        match self.take_ticks(piece, &mut [Pair::QUIET; 64], sink) {
            Ok(0) => match self.take(piece[0], sink) {
                Ok(()) => Ok(1),
                Err(stop) => Err(stop),
            },
            Ok(count) => Ok(count),
            Err(stop) => Err(stop),
        }
    }

    // Takes the ticks at the front of a piece, as many as there is room for. How many bytes it took.
    fn take_ticks<K: Sink>(
        &mut self,
        piece: &[u8],
        ticks: &mut [Pair],
        sink: &mut K,
    ) -> Result<usize, Stop>
        requires { (bytes : List ℕ) × (first : Option (List ℕ)) × Follows L.stands L.lines self.old bytes first (K.held sink.old) }
        ensures took { (bytes : List ℕ) (first : Option (List ℕ)) → Follows L.stands L.lines self.old bytes first (K.held sink.old) →
            TookFront L.stands L.lines self.new piece.now bytes first (K.held sink.new) result }
        ensures cause { FaultHasCause (K.faults sink.old) (K.faults sink.new) result }
    {
        let run = self.reader.read_ticks(piece, ticks);
        match self.list_ticks(&ticks[..run.ticks], sink) {
            Ok(()) => Ok(run.bytes),
            Err(stop) => Err(stop),
        }
    }

    // Lists ticks, and writes what they complete where the text gets long.
    fn list_ticks<K: Sink>(&mut self, ticks: &[Pair], sink: &mut K) -> Result<(), Stop>
        requires { (past : List Pair) × (first : Option (List ℕ)) × Lists L.stands L.lines self.old past first (K.held sink.old)
            × (length past + length ticks.now < 2 ^ 60) }
        ensures reader { self.new.reader ≡ self.old.reader }
        ensures listed { (past : List Pair) (first : Option (List ℕ)) → Lists L.stands L.lines self.old past first (K.held sink.old) →
            Listed L.stands L.lines self.new (reverse ticks.now ++ past) first (K.held sink.new) result }
        ensures cause { FaultHasCause (K.faults sink.old) (K.faults sink.new) result }
    {
        for shown in ticks {
            match self.list_tick(*shown, sink) {
                Ok(()) => {}
                Err(stop) => return Err(stop),
            }
        }
        Ok(())
    }

    // Lists a tick, and writes what it completes where the text gets long.
    #[inline(always)]
    pub(crate) fn list_tick<K: Sink>(&mut self, shown: Pair, sink: &mut K) -> Result<(), Stop>
        requires { (past : List Pair) × (first : Option (List ℕ)) × Lists L.stands L.lines self.old past first (K.held sink.old)
            × (length past < 2 ^ 60) }
        ensures reader { self.new.reader ≡ self.old.reader }
        ensures listed { (past : List Pair) (first : Option (List ℕ)) → Lists L.stands L.lines self.old past first (K.held sink.old) →
            Listed L.stands L.lines self.new (shown ∷ past) first (K.held sink.new) result }
        ensures cause { FaultHasCause (K.faults sink.old) (K.faults sink.new) result }
    {
        self.lister.list(shown, &mut self.text);
        self.write_long(sink)
    }

    // Takes the quiet ticks at the front of a piece at once, where nothing runs. How many bytes it took.
    fn skip_quiet(&mut self, piece: &[u8]) -> usize
        requires { (bytes : List ℕ) × (first held : Option (List ℕ)) × Follows L.stands L.lines self.old bytes first held }
        ensures within { result ≤ length piece.now }
        ensures follows { (bytes : List ℕ) (first held : Option (List ℕ)) → Follows L.stands L.lines self.old bytes first held →
            Follows L.stands L.lines self.new (reverse (take result piece.now) ++ bytes) first held }
    {
        if !self.lister.is_idle() {
            return 0;
        }
        let quiet = self.reader.skip_quiet(piece);
        self.lister.skip(quiet.ticks);
        quiet.bytes
    }
}
