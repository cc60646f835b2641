//! How a controller sends the command of a message, and reads the answers. Laws alone, each the contract of an empty function.

ghost use Rattle.std.specs.Prelude.{◌≡◌, ◌⊎◌, ℕ, ◌<◌, Bool, List, [], ◌∷◌, ◌++◌, length, Some, None};
ghost use Rattle.bus_base.specs.declared.samples.Drive.TheVariants.{Silent};
ghost use Rattle.bus_base.specs.declared.samples.Pair.{Pair};
ghost use Rattle.bus_base.specs.declared.samples.Part.TheVariants.{Command, First, Second};
ghost use Rattle.bus_line.specs.Channels.{on_channel};
ghost use Rattle.bus_line.specs.Past.{Burst, ended_now, end_of, rest_of};
ghost use Rattle.bus_formats.specs.Forms.{answers_of, command_words};
ghost use Rattle.bus_formats.specs.Plans.{StationData};
ghost use Rattle.bus_formats.specs.Readings.{read_answer};
ghost use Rattle.bus_formats.specs.declared.form.Outcome.TheVariants.{Sent};
ghost use Rattle.bus_formats.specs.declared.form.Reading.TheVariants.{Good};
ghost use Rattle.bus_formats.specs.declared.form.Shape.{Shape};
ghost use Rattle.bus_model.specs.Attempts.{Begun, without_words};
ghost use Rattle.bus_model.specs.Controller.{first_read, second_read};
ghost use Rattle.bus_model.specs.Course.{Take, Course, course, close, close_or_run, drive_course};
ghost use Rattle.bus_model.specs.Sending.{drive_sample};
ghost use Rattle.bus_model.specs.Starts.{Entry};
ghost use Rattle.bus_law_stations.specs.Silence.{AreTaken, AwaitsFirst, AwaitsSecond};
ghost use Rattle.bus_law_stations.specs.Messages.{BeginsMessage, message_begun, with_running, ShowsBurst, IsAnswered};

/// From the tick in which a message starts its controller sends the command, sample by sample, while its channel isn't quiet for k + 1 ticks in a
/// row, whatever is shown of it and on the other channel; the message runs, and nothing else changes. With the end of the command the message
/// ends Sent if no answer is expected, and else waits for one. At every lag below the wait for an answer.
pub fn a_controller_sends_its_command()
    ensures sends { (k : ℕ) (station : StationData) (starts : Bool) (takes : List Take) (past ticks : List Pair) (entry : Entry) →
        let c : Course = course k station starts takes past in let begun : Begun = message_begun c entry (length past) in
        AreTaken (length past) takes → BeginsMessage c past entry → ShowsBurst k begun.state.channel past ticks →
        drive_course k (ticks ++ past) (course k station starts takes (ticks ++ past))
        ≡ drive_sample begun.state.channel Command (command_words entry.item.kind) (length ticks) }
    ensures runs { (k : ℕ) (station : StationData) (starts : Bool) (takes : List Take) (past ticks : List Pair) (first : Pair) (entry : Entry) →
        let c : Course = course k station starts takes past in let begun : Begun = message_begun c entry (length past) in
        AreTaken (length past) takes → BeginsMessage c past entry → ShowsBurst k begun.state.channel past (first ∷ ticks) →
        course k station starts takes ((first ∷ ticks) ++ past) ≡ with_running c begun }
    ensures sent { (k : ℕ) (station : StationData) (starts : Bool) (takes : List Take) (past ticks : List Pair) (now : Pair) (entry : Entry) (burst : Burst) →
        let c : Course = course k station starts takes past in let begun : Begun = message_begun c entry (length past) in
        AreTaken (length past) takes → BeginsMessage c past entry → ShowsBurst k begun.state.channel past ticks →
        ended_now k (on_channel begun.state.channel (now ∷ (ticks ++ past))) ≡ Some burst → (answers_of entry.item.kind).first ≡ None →
        course k station starts takes (now ∷ (ticks ++ past)) ≡ close c begun (without_words Sent None None) (length (ticks ++ past)) }
    ensures waits { (k : ℕ) (station : StationData) (starts : Bool) (takes : List Take) (past ticks : List Pair) (now : Pair) (entry : Entry) (burst : Burst)
        (shape : Shape) → k < 24 → let c : Course = course k station starts takes past in let begun : Begun = message_begun c entry (length past) in
        AreTaken (length past) takes → BeginsMessage c past entry → ShowsBurst k begun.state.channel past ticks →
        ended_now k (on_channel begun.state.channel (now ∷ (ticks ++ past))) ≡ Some burst → (answers_of entry.item.kind).first ≡ Some shape →
        (course k station starts takes (now ∷ (ticks ++ past)) ≡ with_running c begun)
        × AwaitsFirst k begun (on_channel begun.state.channel (now ∷ (ticks ++ past))) (end_of burst) }
{}

/// While an answer runs that began in time nothing changes of the controller that waits for it. With its end it is read: its slots and rest decide
/// how the message ends, or that a relay's second answer is awaited, whatever struck them and on the other channel. At every lag below the wait
/// for an answer.
pub fn an_answer_is_read()
    ensures runs { (k : ℕ) (station : StationData) (starts : Bool) (takes : List Take) (past ticks : List Pair) (begun : Begun) (e : ℕ) →
        let c : Course = course k station starts takes past in AreTaken (length past) takes → IsAnswered begun c past e →
        AwaitsFirst k begun (on_channel begun.state.channel past) e ⊎ AwaitsSecond k begun (on_channel begun.state.channel past) e →
        ShowsBurst k begun.state.channel past ticks →
        (course k station starts takes (ticks ++ past) ≡ c) × (drive_course k (ticks ++ past) (course k station starts takes (ticks ++ past)) ≡ Silent) }
    ensures first { (k : ℕ) (station : StationData) (starts : Bool) (takes : List Take) (past ticks : List Pair) (now : Pair) (begun : Begun) (e : ℕ)
        (burst : Burst) →
        let c : Course = course k station starts takes past in let shown : List Pair = now ∷ (ticks ++ past) in
        AreTaken (length past) takes → IsAnswered begun c past e → AwaitsFirst k begun (on_channel begun.state.channel past) e →
        ShowsBurst k begun.state.channel past ticks → ended_now k (on_channel begun.state.channel shown) ≡ Some burst →
        course k station starts takes shown ≡ close_or_run c begun (length (ticks ++ past))
        (first_read k begun.entry.item shown (on_channel begun.state.channel shown) burst
        (read_answer begun.entry.item.kind First burst.slots (rest_of burst))) }
    ensures relayed { (k : ℕ) (station : StationData) (starts : Bool) (takes : List Take) (past ticks : List Pair) (now : Pair) (begun : Begun) (e : ℕ)
        (burst : Burst) (shape : Shape) (status : ℕ) → k < 24 → let c : Course = course k station starts takes past in
        let shown : List Pair = now ∷ (ticks ++ past) in
        AreTaken (length past) takes → IsAnswered begun c past e → AwaitsFirst k begun (on_channel begun.state.channel past) e →
        ShowsBurst k begun.state.channel past ticks → ended_now k (on_channel begun.state.channel shown) ≡ Some burst →
        read_answer begun.entry.item.kind First burst.slots (rest_of burst) ≡ Good status → (answers_of begun.entry.item.kind).second ≡ Some shape →
        (course k station starts takes shown ≡ c) × AwaitsSecond k begun (on_channel begun.state.channel shown) (end_of burst) }
    ensures second { (k : ℕ) (station : StationData) (starts : Bool) (takes : List Take) (past ticks : List Pair) (now : Pair) (begun : Begun) (e : ℕ)
        (burst : Burst) →
        let c : Course = course k station starts takes past in let shown : List Pair = now ∷ (ticks ++ past) in
        AreTaken (length past) takes → IsAnswered begun c past e → (waits : AwaitsSecond k begun (on_channel begun.state.channel past) e) →
        ShowsBurst k begun.state.channel past ticks → ended_now k (on_channel begun.state.channel shown) ≡ Some burst →
        course k station starts takes shown ≡ close_or_run c begun (length (ticks ++ past))
        (second_read k begun.entry.item shown (on_channel begun.state.channel shown) waits.status
        (read_answer begun.entry.item.kind Second burst.slots (rest_of burst))) }
{}
