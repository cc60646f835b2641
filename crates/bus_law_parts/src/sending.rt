//! What a channel shows while a station sends a part. Laws alone, each the contract of an empty function.

ghost use Rattle.std.specs.Prelude.{◌≡◌, ℕ, suc, ◌+◌, ◌<◌, ◌≤◌, false, List, ◌∷◌, ◌++◌, length, Some, None};
ghost use Rattle.bus_base.specs.declared.samples.Drive.{Drive};
ghost use Rattle.bus_line.specs.Past.{runs, ended_now, end_since};
ghost use Rattle.bus_formats.specs.declared.fault.Fault.{Fault};
ghost use Rattle.bus_formats.specs.declared.fault.Hit.{Hit};
ghost use Rattle.bus_model.specs.Strikes.{struck};
ghost use Rattle.bus_model.specs.Wire.{samples_on, drivers};
ghost use Rattle.bus_law_line.specs.Shown.{first_samples, shown_of, shown_on};
ghost use Rattle.bus_law_line.specs.Senders.{Sender};
ghost use Rattle.bus_law_parts.specs.Parts.{SentPart, part_ticks, part_sample};

/// While a station sends a part alone on its channel, the channel shows in each tick the sample of the part that is due, as the faults of the plan
/// strike it and with what an extra adds to it, and nothing after it (transmission continuity, MIL-STD-1553B 4.4.1.2). At most one station drives
/// the channel in each of these ticks.
pub fn a_sender_shows_its_part()
    ensures now { (faults : List Fault) (s : Sender) (hits : List Hit) (before sent : List (List Drive)) (now : List Drive) →
        SentPart faults s hits before (now ∷ sent) →
        shown_of (samples_on faults s.channel ((now ∷ sent) ++ before)) ≡ part_sample hits s.words (length sent) }
    ensures alone { (faults : List Fault) (s : Sender) (hits : List Hit) (before sent : List (List Drive)) (now : List Drive) →
        SentPart faults s hits before (now ∷ sent) → drivers faults s.channel ((now ∷ sent) ++ before) ≤ 1 }
    ensures shown { (faults : List Fault) (s : Sender) (hits : List Hit) (before sent : List (List Drive)) →
        SentPart faults s hits before sent →
        shown_on faults s.channel (sent ++ before)
        ≡ first_samples (part_sample hits s.words) (length sent) ++ shown_on faults s.channel before }
{}

/// A part that is sent on a channel on which no burst ran is the burst that ends k ticks after it, at lag 3: it begins and ends with what is shown of
/// the part, and its slots are those of the message table. Until then it has no end; then no burst runs, also where nothing was shown of the part.
pub fn a_sent_part_is_the_burst_that_ends()
    ensures endless { (k : ℕ) (faults : List Fault) (s : Sender) (hits : List Hit) (before sent : List (List Drive)) → k ≡ 3 →
        runs k (shown_on faults s.channel before) ≡ false → SentPart faults s hits before sent →
        0 < part_ticks hits s.words → length sent ≤ part_ticks hits s.words + k →
        end_since k (shown_on faults s.channel (sent ++ before)) (length before) ≡ None }
    ensures ended { (k : ℕ) (faults : List Fault) (s : Sender) (hits : List Hit) (before sent : List (List Drive)) → k ≡ 3 →
        runs k (shown_on faults s.channel before) ≡ false → SentPart faults s hits before sent →
        0 < part_ticks hits s.words → length sent ≡ part_ticks hits s.words + suc k →
        ended_now k (shown_on faults s.channel (sent ++ before))
        ≡ Some record { first = length before; ticks = part_ticks hits s.words; slots = struck hits s.words } }
    ensures end { (k : ℕ) (faults : List Fault) (s : Sender) (hits : List Hit) (before sent : List (List Drive)) → k ≡ 3 →
        runs k (shown_on faults s.channel before) ≡ false → SentPart faults s hits before sent →
        0 < part_ticks hits s.words → length sent ≡ part_ticks hits s.words + suc k →
        end_since k (shown_on faults s.channel (sent ++ before)) (length before) ≡ Some (length before + part_ticks hits s.words) }
    ensures rests { (k : ℕ) (faults : List Fault) (s : Sender) (hits : List Hit) (before sent : List (List Drive)) → k ≡ 3 →
        runs k (shown_on faults s.channel before) ≡ false → SentPart faults s hits before sent →
        length sent ≡ part_ticks hits s.words + suc k → runs k (shown_on faults s.channel (sent ++ before)) ≡ false }
{}
