//! Words that are sent are the burst that ends. Laws alone, each the contract of an empty function.

ghost use Rattle.std.specs.Prelude.{◌≡◌, ℕ, suc, ◌+◌, ◌*◌, ◌<◌, ◌≤◌, false, List, [], ◌++◌, map, length, Some, None};
ghost use Rattle.std.specs.List.{All};
ghost use Rattle.bus_base.specs.declared.samples.Drive.{Drive};
ghost use Rattle.bus_words.specs.declared.word.Word.{Word};
ghost use Rattle.bus_line.specs.Past.{InLeg, quiet_ticks, runs, ended_now, end_since};
ghost use Rattle.bus_formats.specs.declared.fault.Fault.{Fault};
ghost use Rattle.bus_formats.specs.declared.fault.Hit.{Hit};
ghost use Rattle.bus_law_line.specs.Shown.{struck_spelling, shown_on, slots_shown};
ghost use Rattle.bus_law_line.specs.Senders.{Sender, SentAlone, LeftAlone, AreHeard};

/// While words are sent of which the faults leave no sample quiet, what began with them has no end, however long they are; and what is shown of
/// them, with up to k quiet ticks after it, is a leg: ticks of one burst. At every lag.
pub fn words_are_sent_without_an_end()
    ensures leg { (k : ℕ) (hits : List Hit) (words : List Word) (n j : ℕ) → AreHeard hits words → 0 < n → n ≤ 40 * length words → j ≤ k →
        InLeg k (quiet_ticks j ++ struck_spelling hits words n) }
    ensures endless { (k : ℕ) (faults : List Fault) (s : Sender) (hits : List Hit) (before sent : List (List Drive)) →
        runs k (shown_on faults s.channel before) ≡ false → SentAlone faults s hits before sent → AreHeard hits s.words →
        end_since k (shown_on faults s.channel (sent ++ before)) (length before) ≡ None }
{}

/// Words that were sent whole on a channel on which no burst ran, and of which the faults leave no sample quiet, are the burst that ends with
/// k + 1 quiet ticks after them: it begins and ends with them, and its slots are what is shown of each word, which is the word itself where no
/// fault strikes it. Where they end stays known. At every lag.
pub fn what_was_sent_is_the_burst_that_ends()
    ensures ended { (k : ℕ) (faults : List Fault) (s : Sender) (hits : List Hit) (before sent silent : List (List Drive)) →
        runs k (shown_on faults s.channel before) ≡ false → SentAlone faults s hits before sent → AreHeard hits s.words →
        0 < length s.words → length sent ≡ 40 * length s.words →
        LeftAlone faults s.channel (sent ++ before) silent → length silent ≡ suc k →
        ended_now k (shown_on faults s.channel (silent ++ (sent ++ before)))
        ≡ Some record { first = length before; ticks = 40 * length s.words; slots = slots_shown hits 0 s.words } }
    ensures end { (k : ℕ) (faults : List Fault) (s : Sender) (hits : List Hit) (before sent silent : List (List Drive)) →
        runs k (shown_on faults s.channel before) ≡ false → SentAlone faults s hits before sent → AreHeard hits s.words →
        0 < length s.words → length sent ≡ 40 * length s.words →
        LeftAlone faults s.channel (sent ++ before) silent → suc k ≤ length silent →
        end_since k (shown_on faults s.channel (silent ++ (sent ++ before))) (length before) ≡ Some (length before + 40 * length s.words) }
    ensures unstruck { (words : List Word) → All (λ (word : Word). word.bits < 65536) words →
        AreHeard [] words × (slots_shown [] 0 words ≡ map (λ word. Some word) words) }
{}
