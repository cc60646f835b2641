//! Laws of captures, each a function with nothing to do.
ghost use Rattle.std.specs.Prelude.{◌≡◌, ◌↔◌, ◌+◌, ◌*◌, ◌<◌, ◌≤◌, ℕ, List, ◌∷◌, ◌++◌, length, reverse, Some, Ok, Err};
ghost use Rattle.bus_base.specs.declared.samples.Pair.{Pair};
ghost use Rattle.bus_capture.specs.declared.refusal.CaptureRefusal.{CaptureRefusal};
ghost use Rattle.bus_capture.specs.declared.reader.Place.TheVariants.{Refused};
ghost use Rattle.bus_capture.specs.Captures.{ticks_text, capture_text};
ghost use Rattle.bus_capture.specs.Offsets.{IsGoodTo, refusal_at, capture_to};
ghost use Rattle.bus_capture.specs.Readings.{
  text_limit,
  capture_ticks,
  place_after,
  answer_now,
  end_after,
};

/// What is written is read back as the same ticks, where it isn't too long; and a text is made line by line.
pub fn what_is_written_is_read_back()
    ensures same { (past : List Pair) → length (capture_text past) ≤ text_limit →
        capture_ticks (capture_text past) ≡ record { ticks = past; ended = Ok (length past) } }
    ensures lines { (line later : List Pair) → length line ≡ 64 →
        ticks_text 0 (line ++ later) ≡ ticks_text 0 line ++ ticks_text 0 later }
{}

/// A refusal stays, whatever comes after it.
pub fn refusals_stay()
    ensures answer { (bytes : List ℕ) (refusal : CaptureRefusal) (byte : ℕ) → answer_now bytes ≡ Err refusal →
        answer_now (byte ∷ bytes) ≡ Err refusal }
    ensures end { (bytes : List ℕ) (refusal : CaptureRefusal) → answer_now bytes ≡ Err refusal → end_after bytes ≡ Err refusal }
{}

/// A text is refused at the least offset at which a byte stands that may not stand there, and for what that offset says. Each text is good
/// as far as one offset, and its capture is what stands before it.
pub fn the_first_byte_that_may_not_stand_is_refused()
    ensures place { (text : List ℕ) (refusal : CaptureRefusal) → (answer_now (reverse text) ≡ Err refusal)
        ↔ ((n : ℕ) × (n < length text) × IsGoodTo text n × (refusal_at text n ≡ Some refusal)) }
    ensures one { (text : List ℕ) → (n : ℕ) × IsGoodTo text n }
    ensures whole { (text : List ℕ) (n : ℕ) → IsGoodTo text n → capture_ticks text ≡ capture_to text n }
{}
