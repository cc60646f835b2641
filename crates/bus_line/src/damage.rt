//! Which damage to a word's samples is noticed by whoever reads them: laws alone, each the contract of an empty function.

ghost use Rattle.std.specs.Prelude.{◌≡◌, ℕ, ◌<◌, Bool, true, List};
ghost use Rattle.bus_base.specs.declared.samples.Sample.{Sample};
ghost use Rattle.bus_base.specs.Flips.{IsUndetectable, takes};
ghost use Rattle.bus_line.specs.Damage.{IsFlipped, IsFaded, AreFlipsNoticed, AreFlipsUnnoticed, AreFadesNoticed};

/// Exchanging plus and minus at a set of positions is noticed at every detectable set. At an undetectable set that takes some position it
/// never is: what is left of a word is another word.
pub fn flips_are_noticed_or_not()
    ensures noticed { (set : List Bool) → (IsUndetectable set → ⊥) → AreFlipsNoticed set }
    ensures unnoticed { (set : List Bool) → IsUndetectable set → (p : ℕ) → p < 40 → takes set p ≡ true → AreFlipsUnnoticed set }
{}

/// A word some of whose samples are made quiet is no word.
pub fn fades_are_noticed()
    ensures { (set : List Bool) (p : ℕ) → p < 40 → takes set p ≡ true → AreFadesNoticed set }
{}

/// Damage at any set of positions leaves samples, so that the other laws speak of something.
pub fn damage_leaves_samples()
    ensures flips { (set : List Bool) (old : List Sample) → (new : List Sample) × IsFlipped set old new }
    ensures fades { (set : List Bool) (old : List Sample) → (new : List Sample) × IsFaded set old new }
{}
