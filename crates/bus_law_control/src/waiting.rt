//! When a controller starts nothing, and how one waits for an answer. Laws alone, each the contract of an empty function.

ghost use Rattle.std.specs.Prelude.{◌≡◌, ◌⊎◌, ℕ, suc, ◌+◌, ◌<◌, ◌≤◌, Bool, List, ◌∷◌, ◌++◌, length, Some, None};
ghost use Rattle.bus_base.specs.Samples.{other_of};
ghost use Rattle.bus_base.specs.declared.samples.Channel.{Channel};
ghost use Rattle.bus_base.specs.declared.samples.Drive.TheVariants.{Silent};
ghost use Rattle.bus_base.specs.declared.samples.Pair.{Pair};
ghost use Rattle.bus_base.specs.declared.samples.Part.TheVariants.{First, Second};
ghost use Rattle.bus_line.specs.Past.{InLeg, quiet, quiet_ticks};
ghost use Rattle.bus_line.specs.Channels.{on_channel, quiet_both};
ghost use Rattle.bus_formats.specs.Plans.{StationData};
ghost use Rattle.bus_formats.specs.Times.{no_response};
ghost use Rattle.bus_formats.specs.declared.form.Outcome.TheVariants.{Abandoned, NoResponse};
ghost use Rattle.bus_model.specs.Attempts.{Begun, without_words};
ghost use Rattle.bus_model.specs.Starts.{Entry, usual};
ghost use Rattle.bus_model.specs.Course.{Take, Course, course, take_control, close, drive_course};
ghost use Rattle.bus_law_stations.specs.Silence.{AreTaken, AwaitsFirst, AwaitsSecond};
ghost use Rattle.bus_law_stations.specs.Messages.{BeginsMessage, message_begun};
ghost use Rattle.bus_law_control.specs.Waiting.{StartsLater, StartedNone};

/// Whatever is shown, nothing changes of a controller of which no message runs before its next one starts, and it sends nothing. At every lag.
pub fn a_controller_without_a_message_waits_for_its_start()
    ensures stands { (k : ℕ) (station : StationData) (starts : Bool) (takes : List Take) (past ticks : List Pair) → AreTaken (length past) takes →
        (course k station starts takes past).runs ≡ None → StartedNone (course k station starts takes past) past ticks →
        course k station starts takes (ticks ++ past) ≡ course k station starts takes past }
    ensures silent { (k : ℕ) (station : StationData) (starts : Bool) (takes : List Take) (past ticks : List Pair) → AreTaken (length past) takes →
        (course k station starts takes past).runs ≡ None → StartedNone (course k station starts takes past) past ticks →
        StartsLater (course k station starts takes past) (ticks ++ past) →
        drive_course k (ticks ++ past) (course k station starts takes (ticks ++ past)) ≡ Silent }
{}

/// The next message doesn't start before both channels were quiet as long as it needs: so none starts while a burst runs on either of them, if
/// it needs more quiet ticks than the lag has.
pub fn a_message_waits_for_quiet()
    ensures needs { (c : Course) (past : List Pair) (need tick : ℕ) → c.opening ≡ usual need tick → quiet_both past < need → StartsLater c past }
    ensures beside { (k : ℕ) (c : Course) (channel : Channel) (past ticks : List Pair) (need tick : ℕ) → c.opening ≡ usual need tick → k < need →
        InLeg k (on_channel channel ticks) → StartsLater c past → StartedNone c past ticks × StartsLater c (ticks ++ past) }
    ensures breaks { (k : ℕ) (channel : Channel) (past ticks : List Pair) (x : Pair) → InLeg k (on_channel channel (x ∷ ticks)) →
        quiet_both ((x ∷ ticks) ++ past) ≤ k }
    ensures below { (channel : Channel) (past : List Pair) → quiet_both past ≤ quiet (on_channel channel past) }
{}

/// While its own channel stays quiet nothing changes of a controller that waits for an answer, whatever is shown on the other one, and it sends
/// nothing: until its wait of 24 dead ticks is over (no-response time-out, MIL-STD-1553B 4.3.3.9), with which the message ends. At every lag.
pub fn a_waiting_controller_hears_its_own_channel_alone()
    ensures waits { (k : ℕ) (station : StationData) (starts : Bool) (takes : List Take) (past ticks : List Pair) (begun : Begun) (e : ℕ) →
        let c : Course = course k station starts takes past in AreTaken (length past) takes → c.runs ≡ Some begun →
        AwaitsFirst k begun (on_channel begun.state.channel past) e ⊎ AwaitsSecond k begun (on_channel begun.state.channel past) e →
        on_channel begun.state.channel ticks ≡ quiet_ticks (length ticks) → length past + length ticks ≤ e + no_response →
        (course k station starts takes (ticks ++ past) ≡ c) × (drive_course k (ticks ++ past) (course k station starts takes (ticks ++ past)) ≡ Silent) }
    ensures first { (k : ℕ) (begun : Begun) (past ticks : List Pair) (e : ℕ) → on_channel begun.state.channel ticks ≡ quiet_ticks (length ticks) →
        AwaitsFirst k begun (on_channel begun.state.channel past) e → AwaitsFirst k begun (on_channel begun.state.channel (ticks ++ past)) e }
    ensures second { (k : ℕ) (begun : Begun) (past ticks : List Pair) (e : ℕ) → on_channel begun.state.channel ticks ≡ quiet_ticks (length ticks) →
        (w : AwaitsSecond k begun (on_channel begun.state.channel past) e) →
        (later : AwaitsSecond k begun (on_channel begun.state.channel (ticks ++ past)) e) × (later.status ≡ w.status) }
    ensures first_over { (k : ℕ) (station : StationData) (starts : Bool) (takes : List Take) (past ticks : List Pair) (x : Pair) (begun : Begun) (e : ℕ) →
        let c : Course = course k station starts takes past in AreTaken (length past) takes → c.runs ≡ Some begun →
        AwaitsFirst k begun (on_channel begun.state.channel past) e → on_channel begun.state.channel (x ∷ ticks) ≡ quiet_ticks (length (x ∷ ticks)) →
        length past + length ticks ≡ e + no_response → course k station starts takes ((x ∷ ticks) ++ past)
        ≡ close c begun (without_words (NoResponse First) None None) (length (ticks ++ past)) }
    ensures second_over { (k : ℕ) (station : StationData) (starts : Bool) (takes : List Take) (past ticks : List Pair) (x : Pair) (begun : Begun) (e : ℕ) →
        let c : Course = course k station starts takes past in AreTaken (length past) takes → c.runs ≡ Some begun →
        (w : AwaitsSecond k begun (on_channel begun.state.channel past) e) → on_channel begun.state.channel (x ∷ ticks) ≡ quiet_ticks (length (x ∷ ticks)) →
        length past + length ticks ≡ e + no_response → course k station starts takes ((x ∷ ticks) ++ past)
        ≡ close c begun (without_words (NoResponse Second) (Some w.status) None) (length (ticks ++ past)) }
{}

/// A station that took control starts its first message in the tick that it was given, and none before. At every lag.
pub fn a_station_that_took_control_starts_in_its_tick()
    ensures later { (first : ℕ) (c : Course) (past : List Pair) → length past < first → StartsLater (take_control first c) past }
    ensures begins { (first : ℕ) (c : Course) (past : List Pair) (entry : Entry) (later : List Entry) → c.runs ≡ None → c.left ≡ entry ∷ later →
        length past ≡ first → BeginsMessage (take_control first c) past entry }
{}

/// After a message that was abandoned the next one starts at once, on the other channel, as a first attempt. At every lag.
pub fn an_abandoned_message_is_superseded_at_once()
    ensures { (c : Course) (begun : Begun) (tick : ℕ) (past : List Pair) (entry : Entry) (later : List Entry) →
        let after : Course = close c begun (without_words Abandoned None None) tick in after.left ≡ entry ∷ later → length past ≡ suc tick →
        BeginsMessage after past entry
        × ((message_begun after entry (length past)).state ≡ record { channel = other_of begun.state.channel; turn = 1 }) }
{}
