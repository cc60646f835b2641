//! What faults leave of the words of a burst: that the message table says what a reader of the wire finds. Laws alone, each the contract of
//! an empty function.

ghost use Rattle.std.specs.Prelude.{◌≡◌, ◌≢◌, ℕ, ◌+◌, ◌<◌, ◌≤◌, min, Bool, true, List, [], ◌∷◌, ◌++◌, map, take, length, replicate, Option, Some, None};
ghost use Rattle.bus_base.specs.Flips.{IsUndetectable, takes};
ghost use Rattle.bus_words.specs.declared.word.Word.{Word};
ghost use Rattle.bus_line.specs.Spelling.{word_in};
ghost use Rattle.bus_formats.specs.Forms.{data_word};
ghost use Rattle.bus_formats.specs.Readings.{data_in};
ghost use Rattle.bus_formats.specs.declared.fault.Hit.{Hit};
ghost use Rattle.bus_formats.specs.declared.fault.Hit.TheVariants.{Flip, Cut, Extra, Fade};
ghost use Rattle.bus_model.specs.Strikes.{spoiled, struck};
ghost use Rattle.bus_model.specs.Noticed.{shown_word};

/// A word that a detectable flip or a fade strikes spells no word as it is shown: the message table rightly takes it for none (word
/// validation, MIL-STD-1553B 4.4.1.1).
pub fn a_struck_word_is_noticed()
    ensures flipped { (n : ℕ) (set : List Bool) (word : Word) → word.bits < 65536 → (IsUndetectable set → ⊥) →
        word_in (shown_word n (Flip n set ∷ []) word) ≡ None }
    ensures faded { (n : ℕ) (set : List Bool) (p : ℕ) (word : Word) → word.bits < 65536 → p < 40 → takes set p ≡ true →
        word_in (shown_word n (Fade n set ∷ []) word) ≡ None }
    ensures table { (n : ℕ) (set : List Bool) (word : Word) (words : List Word) →
        (spoiled (Flip n set ∷ []) n (word ∷ words) ≡ None ∷ map (λ w. Some w) words)
        × (spoiled (Fade n set ∷ []) n (word ∷ words) ≡ None ∷ map (λ w. Some w) words) }
{}

/// A word of whose burst another word is struck is shown as it is spelled.
pub fn an_unstruck_word_stays()
    ensures flipped { (n m : ℕ) (set : List Bool) (word : Word) → word.bits < 65536 → m ≢ n → word_in (shown_word n (Flip m set ∷ []) word) ≡ Some word }
    ensures faded { (n m : ℕ) (set : List Bool) (word : Word) → word.bits < 65536 → m ≢ n → word_in (shown_word n (Fade m set ∷ []) word) ≡ Some word }
    ensures cut { (n after : ℕ) (word : Word) → word.bits < 65536 → n < after → word_in (shown_word n (Cut after ∷ []) word) ≡ Some word }
    ensures extra { (n more : ℕ) (word : Word) → word.bits < 65536 → word_in (shown_word n (Extra more ∷ []) word) ≡ Some word }
{}

/// A cut and an extra change the number of words that are shown, and a list of slots is read as data words by their exact number and only
/// where each is valid: so a lost or an added word is noticed by the count.
pub fn words_are_counted()
    ensures cut { (after : ℕ) (words : List Word) → length words ≤ 40 → length (struck (Cut after ∷ []) words) ≡ min after (length words) }
    ensures extra { (more : ℕ) (words : List Word) → length words ≤ 40 → length (struck (Extra more ∷ []) words) ≡ min 40 (length words + more) }
    ensures read { (count : ℕ) (slots : List (Option Word)) (words : List ℕ) → data_in count slots ≡ Some words →
        (length words ≡ count) × (slots ≡ map (λ w. Some (data_word w)) words) }
{}
