//! What faults may leave of the words of a burst.

ghost use Rattle.std.specs.Prelude.{ℕ, List, take, Option};
ghost use Rattle.bus_words.specs.declared.word.Word.{Word};
ghost use Rattle.bus_formats.specs.declared.fault.Hit.{Hit};
ghost use Rattle.bus_model.specs.Strikes.{struck};
ghost use Rattle.bus_law_duties.specs.Words.{AreLeftOf};

/// Whatever hits strike the words of a burst: each of its slots is the word that was sent there, or none, or a word that an extra adds; and so is each of
/// the first ones, where the burst is cut short.
pub fn a_slot_is_its_word_or_none_or_an_added_one()
    ensures all { (hits : List Hit) (words : List Word) → AreLeftOf words (struck hits words) }
    ensures first { (n : ℕ) (words : List Word) (slots : List (Option Word)) → AreLeftOf words slots → AreLeftOf words (take n slots) }
{}
