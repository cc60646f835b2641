//! What a reader of the channel makes of a part. Laws alone, each the contract of an empty function.

ghost use Rattle.std.specs.Prelude.{◌≡◌, ℕ, ◌+◌, ◌*◌, ◌/◌, ◌<◌, ◌≤◌, List, [], map, take, length, slice_get, Option, Some};
ghost use Rattle.bus_base.specs.declared.samples.Part.{Part};
ghost use Rattle.bus_base.specs.declared.samples.Part.TheVariants.{Command};
ghost use Rattle.bus_words.specs.declared.word.Word.{Word};
ghost use Rattle.bus_line.specs.Past.{slot_word, burst_from};
ghost use Rattle.bus_formats.specs.declared.fault.Hit.{Hit};
ghost use Rattle.bus_model.specs.Strikes.{struck};
ghost use Rattle.bus_law_line.specs.Shown.{first_samples};
ghost use Rattle.bus_law_parts.specs.Parts.{HitsFit, IsStruckSlot, part_ticks, part_sample};

/// Slot i of a part as the channel shows it is entry i of the words as the message table has them struck: a word that a flip or a fade strikes is
/// read as none (word validation, MIL-STD-1553B 4.4.1.1), a word that an extra adds is read, and every other word is read as itself. So the slots
/// of its first m ticks are the first entries, as many as are whole.
pub fn a_part_is_read_as_it_is_struck()
    ensures slot { (part : Part) (hits : List Hit) (words : List Word) (m i : ℕ) → HitsFit part hits words → i < length (struck hits words) →
        40 * i + 40 ≤ m → slice_get (struck hits words) i ≡ Some (slot_word (first_samples (part_sample hits words) m) 0 i) }
    ensures slots { (part : Part) (hits : List Hit) (words : List Word) (m : ℕ) → HitsFit part hits words → m ≤ part_ticks hits words →
        (burst_from (first_samples (part_sample hits words) m) 0 m).slots ≡ take (m / 40) (struck hits words) }
{}

/// Whatever strikes a part, each of its slots is the word that was sent there, or none, or, past the words, a data word of value 0 that an extra
/// added; there are at most forty, and of a command at least one. A part that nothing strikes has its words.
pub fn a_slot_is_its_word_or_none_or_zero()
    ensures slot { (part : Part) (hits : List Hit) (words : List Word) (i : ℕ) (slot : Option Word) → HitsFit part hits words →
        slice_get (struck hits words) i ≡ Some slot → IsStruckSlot words i slot }
    ensures few { (part : Part) (hits : List Hit) (words : List Word) → HitsFit part hits words → length (struck hits words) ≤ 40 }
    ensures some { (hits : List Hit) (words : List Word) → HitsFit Command hits words → 0 < part_ticks hits words }
    ensures unstruck { (words : List Word) → struck [] words ≡ map (λ word. Some word) words }
{}
