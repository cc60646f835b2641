//! Which answer counts for a controller. Laws alone, each the contract of an empty function. In each of them `past` is what the message's channel
//! showed, and the burst that is to be answered, a command or a relay's first answer, ended in tick e.

ghost use Rattle.std.specs.Prelude.{◌≡◌, ◌↔◌, ℕ, suc, ◌+◌, ◌<◌, ◌≤◌, true, List, length, Some, None};
ghost use Rattle.bus_base.specs.declared.samples.Pair.{Pair};
ghost use Rattle.bus_base.specs.declared.samples.Part.TheVariants.{First, Second};
ghost use Rattle.bus_base.specs.declared.samples.Sample.{Sample};
ghost use Rattle.bus_line.specs.Bursts.{IsBurst, IsFirstHeard, IsEndSince};
ghost use Rattle.bus_line.specs.Channels.{on_channel};
ghost use Rattle.bus_line.specs.Past.{Burst, end_of, rest_of};
ghost use Rattle.bus_formats.specs.Forms.{answers_of};
ghost use Rattle.bus_formats.specs.Readings.{read_answer};
ghost use Rattle.bus_formats.specs.declared.form.Outcome.TheVariants.{NoResponse};
ghost use Rattle.bus_formats.specs.declared.form.Reading.TheVariants.{Good};
ghost use Rattle.bus_formats.specs.declared.form.Shape.{Shape};
ghost use Rattle.bus_model.specs.Attempts.{Begun, without_words};
ghost use Rattle.bus_model.specs.Controller.{reply, silence, awaited, running, whole, ending_now};
ghost use Rattle.bus_law_ticks.specs.Replies.{counts, AreQuiet, IsNextBurst};

/// An answer counts exactly where its first tick is one of e to e + 24; where all of these were quiet there is none, and while they were quiet so far it is
/// awaited (no-response time-out, MIL-STD-1553B 4.3.3.9). At every lag.
pub fn an_answer_counts_within_24_dead_ticks()
    ensures counts { (k : ℕ) (past : List Sample) (e : ℕ) →
        (counts (reply k past e) ≡ true) ↔ ((first : ℕ) × IsFirstHeard past e first × (first ≤ e + 24)) }
    ensures silence { (k : ℕ) (past : List Sample) (e : ℕ) →
        (reply k past e ≡ silence) ↔ ((e + 24 < length past) × AreQuiet past e (suc (e + 24))) }
    ensures awaited { (k : ℕ) (past : List Sample) (e : ℕ) →
        (reply k past e ≡ awaited) ↔ ((length past ≤ e + 24) × AreQuiet past e (length past)) }
    ensures running { (k : ℕ) (past : List Sample) (e : ℕ) →
        (reply k past e ≡ running)
        ↔ ((first : ℕ) × IsFirstHeard past e first × (first ≤ e + 24) × ((end : ℕ) → IsEndSince k past first end → ⊥)) }
{}

/// After a burst that ended in tick e the whole answer is the next burst on the channel, where that begins in one of the ticks e to e + 24 and its end
/// is known; and no other is. At every lag.
pub fn the_answer_is_the_next_burst()
    ensures { (k : ℕ) (past : List Sample) (first ticks : ℕ) (answer : Burst) → IsBurst k past first ticks → first + ticks + suc k ≤ length past →
        (reply k past (first + ticks) ≡ whole answer) ↔ (IsNextBurst k past (first + ticks) answer × (answer.first ≤ first + ticks + 24)) }
{}

/// A message that expects an answer ends without a response exactly where all ticks from the end of its command, e, to e + 24 were heard and quiet; and a
/// relay without its second response exactly where those from the end of its good first answer on were (no-response time-out, 4.3.3.9; relay,
/// 4.3.3.6.3). `shown` is what both channels showed. At every lag.
pub fn a_message_without_a_response_ends_after_25_quiet_ticks()
    ensures first { (k : ℕ) (begun : Begun) (shown : List Pair) (e : ℕ) (shape : Shape) → let past : List Sample = on_channel begun.state.channel shown in
        (answers_of begun.entry.item.kind).first ≡ Some shape → IsEndSince k past begun.start e →
        (ending_now k begun shown ≡ Some (without_words (NoResponse First) None None)) ↔ ((e + 24 < length past) × AreQuiet past e (suc (e + 24))) }
    ensures second { (k : ℕ) (begun : Begun) (shown : List Pair) (e : ℕ) (shape other : Shape) (burst : Burst) (status : ℕ) →
        let past : List Sample = on_channel begun.state.channel shown in let x : ℕ = end_of burst in
        (answers_of begun.entry.item.kind).first ≡ Some shape → IsEndSince k past begun.start e → reply k past e ≡ whole burst →
        read_answer begun.entry.item.kind First burst.slots (rest_of burst) ≡ Good status → (answers_of begun.entry.item.kind).second ≡ Some other →
        (ending_now k begun shown ≡ Some (without_words (NoResponse Second) (Some status) None)) ↔ ((x + 24 < length past) × AreQuiet past x (suc (x + 24))) }
{}
