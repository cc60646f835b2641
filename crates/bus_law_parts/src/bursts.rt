//! A part is one burst. Laws alone, each the contract of an empty function.

ghost use Rattle.std.specs.Prelude.{◌≡◌, ℕ, suc, ◌+◌, ◌*◌, ◌<◌, ◌≤◌, false, List, ◌++◌, length, Some, None};
ghost use Rattle.bus_base.specs.declared.samples.Part.{Part};
ghost use Rattle.bus_base.specs.declared.samples.Sample.{Sample};
ghost use Rattle.bus_words.specs.declared.word.Word.{Word};
ghost use Rattle.bus_line.specs.Past.{InLeg, quiet_ticks, runs, ended_now, end_since};
ghost use Rattle.bus_formats.specs.declared.fault.Hit.{Hit};
ghost use Rattle.bus_model.specs.Strikes.{struck};
ghost use Rattle.bus_law_line.specs.Shown.{first_samples};
ghost use Rattle.bus_law_parts.specs.Parts.{HitsFit, part_ticks, part_sample};

/// A part of which something is shown is one burst, whatever strikes it: fades leave at most three quiet ticks in a row, and at lag 3 a burst
/// bridges these. While it is shown, and k quiet ticks longer, its ticks are a leg and what began with it has no end. With one quiet tick more it
/// is the burst that ends, with the slots that the message table has, and where it ended stays known. After so many ticks no burst runs, also
/// where nothing was shown of the part.
pub fn a_part_is_a_burst()
    ensures leg { (k : ℕ) (part : Part) (hits : List Hit) (words : List Word) → k ≡ 3 → HitsFit part hits words → 0 < part_ticks hits words →
        (n : ℕ) → n ≤ part_ticks hits words + k → InLeg k (first_samples (part_sample hits words) n) }
    ensures endless { (k : ℕ) (part : Part) (hits : List Hit) (words : List Word) → k ≡ 3 → HitsFit part hits words → 0 < part_ticks hits words →
        (n : ℕ) (past : List Sample) → n ≤ part_ticks hits words + k → runs k past ≡ false →
        end_since k (first_samples (part_sample hits words) n ++ past) (length past) ≡ None }
    ensures ended { (k : ℕ) (part : Part) (hits : List Hit) (words : List Word) → k ≡ 3 → HitsFit part hits words →
        (past : List Sample) → 0 < part_ticks hits words → runs k past ≡ false →
        ended_now k (first_samples (part_sample hits words) (part_ticks hits words + suc k) ++ past)
        ≡ Some record { first = length past; ticks = part_ticks hits words; slots = struck hits words } }
    ensures end { (k : ℕ) (part : Part) (hits : List Hit) (words : List Word) → k ≡ 3 → HitsFit part hits words →
        (m : ℕ) (past : List Sample) → 0 < part_ticks hits words → runs k past ≡ false → suc k ≤ m →
        end_since k (first_samples (part_sample hits words) (part_ticks hits words + m) ++ past) (length past)
        ≡ Some (length past + part_ticks hits words) }
    ensures rests { (k : ℕ) (part : Part) (hits : List Hit) (words : List Word) → k ≡ 3 → HitsFit part hits words →
        (m : ℕ) (past : List Sample) → suc k ≤ m → runs k (first_samples (part_sample hits words) (part_ticks hits words + m) ++ past) ≡ false }
    ensures quiet { (k : ℕ) (part : Part) (hits : List Hit) (words : List Word) → k ≡ 3 → HitsFit part hits words →
        (m : ℕ) → first_samples (part_sample hits words) (part_ticks hits words + m)
        ≡ quiet_ticks m ++ first_samples (part_sample hits words) (part_ticks hits words) }
{}
