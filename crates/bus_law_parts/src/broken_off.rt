//! A part that is broken off. Laws alone, each the contract of an empty function.

ghost use Rattle.std.specs.Prelude.{◌≡◌, ◌≢◌, ℕ, suc, ◌+◌, ◌*◌, ◌<◌, ◌≤◌, false, List, ◌∷◌, ◌++◌, length, Some, None};
ghost use Rattle.bus_base.specs.Samples.{is_quiet, other_of};
ghost use Rattle.bus_base.specs.declared.samples.Drive.{Drive};
ghost use Rattle.bus_base.specs.declared.samples.Part.TheVariants.{Command};
ghost use Rattle.bus_base.specs.declared.samples.Sample.TheVariants.{Quiet};
ghost use Rattle.bus_formats.specs.declared.fault.Fault.{Fault};
ghost use Rattle.bus_formats.specs.declared.fault.Hit.{Hit};
ghost use Rattle.bus_model.specs.Wire.{drivers};
ghost use Rattle.bus_law_line.specs.Senders.{IsSpent, IsUndriven, Sender};
ghost use Rattle.bus_base.specs.declared.samples.Part.{Part};
ghost use Rattle.bus_base.specs.declared.samples.Sample.{Sample};
ghost use Rattle.bus_line.specs.Past.{InLeg, quiet_ticks, runs, ended_now, end_since};
ghost use Rattle.bus_model.specs.Strikes.{ShownAnswer, ShownBurst, burst_ticks, faded_before, first_ticks, is_faded};
ghost use Rattle.bus_law_line.specs.Shown.{first_samples, shown_on};
ghost use Rattle.bus_law_parts.specs.Parts.{HitsFit, IsDriven, IsStopped, SentPart, StopsAfter, WasDriven, part_ticks, part_sample};

/// The first m ticks of an answer, with quiet ticks after them, are the burst that the message table has for them: its slots are the words that
/// are whole, and it ends with its last tick that no fade takes, so that the faded ones just before the break count as quiet ticks after it. It is
/// known with the k + 1st of these at lag 3, and until then the ticks are a leg.
pub fn a_part_cut_short_is_a_burst()
    ensures few { (part : Part) (shown : ShownAnswer) (m : ℕ) → StopsAfter part shown m → (faded_before shown m ≤ 3) × (faded_before shown m < m) }
    ensures ticks { (part : Part) (shown : ShownAnswer) (m : ℕ) → StopsAfter part shown m →
        burst_ticks (first_ticks shown m) + faded_before shown m ≡ m }
    ensures leg { (part : Part) (shown : ShownAnswer) (m : ℕ) → StopsAfter part shown m → (k j : ℕ) → k ≡ 3 → faded_before shown m + j ≤ k →
        InLeg k (quiet_ticks j ++ first_samples (part_sample shown.hits shown.sent.words) m) }
    ensures endless { (part : Part) (shown : ShownAnswer) (m : ℕ) → StopsAfter part shown m → (k j : ℕ) (past : List Sample) → k ≡ 3 →
        faded_before shown m + j ≤ k → runs k past ≡ false →
        end_since k (quiet_ticks j ++ (first_samples (part_sample shown.hits shown.sent.words) m ++ past)) (length past) ≡ None }
    ensures ended { (part : Part) (shown : ShownAnswer) (m : ℕ) → StopsAfter part shown m → (k j : ℕ) (past : List Sample) → k ≡ 3 →
        faded_before shown m + j ≡ suc k → runs k past ≡ false →
        ended_now k (quiet_ticks j ++ (first_samples (part_sample shown.hits shown.sent.words) m ++ past))
        ≡ Some record { first = length past; ticks = burst_ticks (first_ticks shown m); slots = (first_ticks shown m).slots } }
    ensures end { (part : Part) (shown : ShownAnswer) (m : ℕ) → StopsAfter part shown m → (k j : ℕ) (past : List Sample) → k ≡ 3 →
        suc k ≤ faded_before shown m + j → runs k past ≡ false →
        end_since k (quiet_ticks j ++ (first_samples (part_sample shown.hits shown.sent.words) m ++ past)) (length past)
        ≡ Some (length past + burst_ticks (first_ticks shown m)) }
    ensures rests { (part : Part) (shown : ShownAnswer) (m : ℕ) → StopsAfter part shown m → (k j : ℕ) (past : List Sample) →
        suc k ≤ faded_before shown m + j →
        runs k (quiet_ticks j ++ (first_samples (part_sample shown.hits shown.sent.words) m ++ past)) ≡ false }
{}

/// A sample that is shown of an answer is quiet just where the message table has it faded.
pub fn a_shown_sample_is_quiet_where_it_is_faded()
    ensures { (part : Part) (shown : ShownAnswer) (i : ℕ) → HitsFit part shown.hits shown.sent.words → i < part_ticks shown.hits shown.sent.words →
        is_quiet (part_sample shown.hits shown.sent.words i) ≡ is_faded shown i }
{}

/// An answer that its station stops sending after m ticks, on a channel that is quiet from then on and on which no burst ran before, is the burst that
/// the message table has for its first m ticks, at lag 3.
pub fn a_sent_part_that_stops_is_the_burst_that_ends()
    ensures endless { (k : ℕ) (faults : List Fault) (s : Sender) (shown : ShownAnswer) (before sent silent : List (List Drive)) →
        IsStopped k faults s shown before sent silent → faded_before shown (length sent) + length silent ≤ k →
        end_since k (shown_on faults s.channel (silent ++ (sent ++ before))) (length before) ≡ None }
    ensures ended { (k : ℕ) (faults : List Fault) (s : Sender) (shown : ShownAnswer) (before sent silent : List (List Drive)) →
        IsStopped k faults s shown before sent silent → faded_before shown (length sent) + length silent ≡ suc k →
        let burst : ShownBurst = first_ticks shown (length sent) in
        ended_now k (shown_on faults s.channel (silent ++ (sent ++ before)))
        ≡ Some record { first = length before; ticks = burst_ticks burst; slots = burst.slots } }
    ensures end { (k : ℕ) (faults : List Fault) (s : Sender) (shown : ShownAnswer) (before sent silent : List (List Drive)) →
        IsStopped k faults s shown before sent silent → suc k ≤ faded_before shown (length sent) + length silent →
        end_since k (shown_on faults s.channel (silent ++ (sent ++ before))) (length before)
        ≡ Some (length before + burst_ticks (first_ticks shown (length sent))) }
    ensures rests { (k : ℕ) (faults : List Fault) (s : Sender) (shown : ShownAnswer) (before sent silent : List (List Drive)) →
        IsStopped k faults s shown before sent silent → suc k ≤ faded_before shown (length sent) + length silent →
        runs k (shown_on faults s.channel (silent ++ (sent ++ before))) ≡ false }
{}

/// No extra follows words of which a station stops before the last sample, nor an answer beside which some station drove the other channel. One
/// that is being shown ends with the tick in which a station drives that: nothing is shown in it, and nothing later.
pub fn a_part_that_stops_leaves_nothing()
    ensures words { (faults : List Fault) (s : Sender) (hits : List Hit) (before sent : List (List Drive)) (now : List Drive) →
        SentPart faults s hits before (now ∷ sent) → suc (length sent) < 40 * length s.words →
        (station : ℕ) → IsSpent faults s.channel ((now ∷ sent) ++ before) station }
    ensures beside { (faults : List Fault) (s : Sender) (hits : List Hit) (before sent : List (List Drive)) (now : List Drive) →
        SentPart faults s hits before (now ∷ sent) → s.part ≢ Command → WasDriven (other_of s.channel) (now ∷ sent) →
        (station : ℕ) → IsSpent faults s.channel ((now ∷ sent) ++ before) station }
    ensures shown { (faults : List Fault) (s : Sender) (hits : List Hit) (before sent : List (List Drive)) (last now : List Drive) →
        SentPart faults s hits before (last ∷ sent) → s.part ≢ Command → IsUndriven s.channel now → IsDriven (other_of s.channel) now →
        shown_on faults s.channel (now ∷ ((last ∷ sent) ++ before)) ≡ Quiet ∷ shown_on faults s.channel ((last ∷ sent) ++ before) }
    ensures alone { (faults : List Fault) (s : Sender) (hits : List Hit) (before sent : List (List Drive)) (last now : List Drive) →
        SentPart faults s hits before (last ∷ sent) → s.part ≢ Command → IsUndriven s.channel now → IsDriven (other_of s.channel) now →
        drivers faults s.channel (now ∷ ((last ∷ sent) ++ before)) ≡ 0 }
    ensures spent { (faults : List Fault) (s : Sender) (hits : List Hit) (before sent : List (List Drive)) (last now : List Drive) →
        SentPart faults s hits before (last ∷ sent) → s.part ≢ Command → IsUndriven s.channel now → IsDriven (other_of s.channel) now →
        (station : ℕ) → IsSpent faults s.channel (now ∷ ((last ∷ sent) ++ before)) station }
{}
