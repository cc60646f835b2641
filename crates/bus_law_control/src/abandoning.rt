//! How a controller reads an answer, or abandons it: laws over its own channel, whatever is shown on the other one. Laws alone, each the contract
//! of an empty function.

ghost use Rattle.std.specs.Prelude.{◌≡◌, ℕ, ◌+◌, ◌<◌, Bool, false, List, ◌∷◌, ◌++◌, length, Option, Some, None};
ghost use Rattle.bus_base.specs.declared.samples.Drive.TheVariants.{Silent};
ghost use Rattle.bus_base.specs.declared.samples.Pair.{Pair};
ghost use Rattle.bus_base.specs.declared.samples.Part.{Part};
ghost use Rattle.bus_base.specs.declared.samples.Part.TheVariants.{First, Second};
ghost use Rattle.bus_base.specs.declared.samples.Sample.{Sample};
ghost use Rattle.bus_line.specs.Channels.{on_channel};
ghost use Rattle.bus_line.specs.Past.{Burst, quiet, ended_now, end_of, rest_of};
ghost use Rattle.bus_formats.specs.Forms.{answers_of};
ghost use Rattle.bus_formats.specs.Plans.{ItemData, StationData};
ghost use Rattle.bus_formats.specs.Readings.{read_answer};
ghost use Rattle.bus_formats.specs.declared.form.Outcome.{Outcome};
ghost use Rattle.bus_formats.specs.declared.form.Outcome.TheVariants.{Abandoned, BadReply};
ghost use Rattle.bus_formats.specs.declared.form.Reading.TheVariants.{Good, Ends};
ghost use Rattle.bus_formats.specs.declared.form.Shape.{Shape};
ghost use Rattle.bus_model.specs.Attempts.{Begun, without_words, is_offer};
ghost use Rattle.bus_model.specs.Controller.{first_read, second_read};
ghost use Rattle.bus_model.specs.Course.{Take, Course, course, close, close_or_run, drive_course};
ghost use Rattle.bus_law_stations.specs.Silence.{AreTaken, AwaitsFirst, AwaitsSecond};
ghost use Rattle.bus_law_stations.specs.Messages.{ShowsBurst};
ghost use Rattle.bus_law_control.specs.Abandoning.{IsAnsweredSoon, AreKept};

/// A controller abandons its message in the tick that its item names, if the answer runs there and its channel isn't quiet; until then it waits.
/// At every lag.
pub fn a_controller_abandons_in_its_tick()
    ensures runs { (k : ℕ) (station : StationData) (starts : Bool) (takes : List Take) (past ticks : List Pair) (begun : Begun) (e : ℕ) →
        let c : Course = course k station starts takes past in AreTaken (length past) takes → IsAnsweredSoon begun c past e →
        AwaitsFirst k begun (on_channel begun.state.channel past) e → ShowsBurst k begun.state.channel past ticks → AreKept begun e past ticks →
        (course k station starts takes (ticks ++ past) ≡ c) × (drive_course k (ticks ++ past) (course k station starts takes (ticks ++ past)) ≡ Silent) }
    ensures abandons { (k : ℕ) (station : StationData) (starts : Bool) (takes : List Take) (past ticks : List Pair) (x : Pair) (begun : Begun) (e n : ℕ) →
        let c : Course = course k station starts takes past in let shown : List Pair = (x ∷ ticks) ++ past in
        AreTaken (length past) takes → IsAnsweredSoon begun c past e → AwaitsFirst k begun (on_channel begun.state.channel past) e →
        ShowsBurst k begun.state.channel past (x ∷ ticks) → AreKept begun e past ticks → begun.entry.item.abandon ≡ Some n →
        length shown ≡ e + n → quiet (on_channel begun.state.channel shown) ≡ 0 →
        course k station starts takes shown ≡ close c begun (without_words Abandoned None None) (length (ticks ++ past)) }
{}

/// A message that may not be abandoned isn't, nor one before its tick.
pub fn a_message_is_not_abandoned_before_its_tick()
    ensures never { (begun : Begun) (past ticks : List Pair) (e : ℕ) → begun.entry.item.abandon ≡ None → AreKept begun e past ticks }
    ensures early { (begun : Begun) (past ticks : List Pair) (e n : ℕ) → begun.entry.item.abandon ≡ Some n → length (ticks ++ past) < e + n →
        AreKept begun e past ticks }
{}

/// An answer that isn't abandoned is read with its end. A relay's second answer isn't abandoned at all. At every lag below the wait for an answer.
pub fn an_answer_that_is_not_abandoned_is_read()
    ensures first { (k : ℕ) (station : StationData) (starts : Bool) (takes : List Take) (past ticks : List Pair) (now : Pair) (begun : Begun) (e : ℕ)
        (burst : Burst) → let c : Course = course k station starts takes past in let shown : List Pair = now ∷ (ticks ++ past) in
        AreTaken (length past) takes → IsAnsweredSoon begun c past e → AwaitsFirst k begun (on_channel begun.state.channel past) e →
        ShowsBurst k begun.state.channel past ticks → AreKept begun e past ticks → ended_now k (on_channel begun.state.channel shown) ≡ Some burst →
        course k station starts takes shown ≡ close_or_run c begun (length (ticks ++ past))
        (first_read k begun.entry.item shown (on_channel begun.state.channel shown) burst
        (read_answer begun.entry.item.kind First burst.slots (rest_of burst))) }
    ensures relayed { (k : ℕ) (station : StationData) (starts : Bool) (takes : List Take) (past ticks : List Pair) (now : Pair) (begun : Begun) (e : ℕ)
        (burst : Burst) (shape : Shape) (status : ℕ) → k < 24 → let c : Course = course k station starts takes past in
        let shown : List Pair = now ∷ (ticks ++ past) in
        AreTaken (length past) takes → IsAnsweredSoon begun c past e → AwaitsFirst k begun (on_channel begun.state.channel past) e →
        ShowsBurst k begun.state.channel past ticks → AreKept begun e past ticks → ended_now k (on_channel begun.state.channel shown) ≡ Some burst →
        read_answer begun.entry.item.kind First burst.slots (rest_of burst) ≡ Good status → (answers_of begun.entry.item.kind).second ≡ Some shape →
        (course k station starts takes shown ≡ c) × AwaitsSecond k begun (on_channel begun.state.channel shown) (end_of burst) }
    ensures runs { (k : ℕ) (station : StationData) (starts : Bool) (takes : List Take) (past ticks : List Pair) (begun : Begun) (e : ℕ) →
        let c : Course = course k station starts takes past in AreTaken (length past) takes → IsAnsweredSoon begun c past e →
        AwaitsSecond k begun (on_channel begun.state.channel past) e → ShowsBurst k begun.state.channel past ticks →
        (course k station starts takes (ticks ++ past) ≡ c) × (drive_course k (ticks ++ past) (course k station starts takes (ticks ++ past)) ≡ Silent) }
    ensures second { (k : ℕ) (station : StationData) (starts : Bool) (takes : List Take) (past ticks : List Pair) (now : Pair) (begun : Begun) (e : ℕ)
        (burst : Burst) → let c : Course = course k station starts takes past in let shown : List Pair = now ∷ (ticks ++ past) in
        AreTaken (length past) takes → IsAnsweredSoon begun c past e → (waits : AwaitsSecond k begun (on_channel begun.state.channel past) e) →
        ShowsBurst k begun.state.channel past ticks → ended_now k (on_channel begun.state.channel shown) ≡ Some burst →
        course k station starts takes shown ≡ close_or_run c begun (length (ticks ++ past))
        (second_read k begun.entry.item shown (on_channel begun.state.channel shown) waits.status
        (read_answer begun.entry.item.kind Second burst.slots (rest_of burst))) }
{}

/// An answer that is read as the end of its message ends it so; but a bad reply to an offer leaves the offerer in doubt. At every lag.
pub fn a_message_ends_as_its_answer_is_read()
    ensures well { (k : ℕ) (item : ItemData) (shown : List Pair) (past : List Sample) (burst : Burst) (outcome : Outcome) (status : Option ℕ) →
        ((part : Part) → outcome ≡ BadReply part → ⊥) →
        first_read k item shown past burst (Ends outcome status) ≡ Some (without_words outcome status None) }
    ensures plain { (k : ℕ) (item : ItemData) (shown : List Pair) (past : List Sample) (burst : Burst) (outcome : Outcome) (status : Option ℕ) →
        is_offer item.kind ≡ false → first_read k item shown past burst (Ends outcome status) ≡ Some (without_words outcome status None) }
{}
