//! The hits that strike one part. Laws alone, each the contract of an empty function.

ghost use Rattle.std.specs.Prelude.{◌≡◌, ℕ, ◌<◌, ◌≤◌, List, length};
ghost use Rattle.std.specs.List.{All};
ghost use Rattle.bus_base.specs.declared.samples.Part.{Part};
ghost use Rattle.bus_words.specs.declared.word.Word.{Word};
ghost use Rattle.bus_formats.specs.Accepted.{IsAccepted};
ghost use Rattle.bus_formats.specs.Plans.{PlanData};
ghost use Rattle.bus_model.specs.Strikes.{hits_on};
ghost use Rattle.bus_law_parts.specs.Parts.{HitsFit};

/// The hits that an accepted plan has on one part of an attempt fit whatever words are sent as this part: each is in its ranges, no two of them
/// strike the same word, and at most one cuts or extends the part.
pub fn the_hits_of_a_plan_fit()
    ensures { (plan : PlanData) (attempt : ℕ) (part : Part) (words : List Word) → IsAccepted plan →
        0 < length words → length words ≤ 40 → All (λ (word : Word). word.bits < 65536) words →
        HitsFit part (hits_on plan.faults attempt part) words }
{}
