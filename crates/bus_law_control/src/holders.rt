//! When nothing changes of a station in control, and it sends nothing: laws of the whole station, by those of its controller. Laws alone, each the
//! contract of an empty function.

ghost use Rattle.std.specs.Prelude.{◌≡◌, ◌⊎◌, ℕ, ◌+◌, ◌<◌, ◌≤◌, Bool, true, false, List, ◌∷◌, ◌++◌, length, Some, None};
ghost use Rattle.bus_base.specs.Samples.{quiet_pairs};
ghost use Rattle.bus_base.specs.declared.samples.Pair.{Pair};
ghost use Rattle.bus_line.specs.Channels.{on_channel, quiet_both};
ghost use Rattle.bus_line.specs.Past.{quiet_ticks};
ghost use Rattle.bus_formats.specs.Plans.{StationData};
ghost use Rattle.bus_formats.specs.Times.{no_response, doubting};
ghost use Rattle.bus_model.specs.Memory.{TimedLoad};
ghost use Rattle.bus_model.specs.Attempts.{Begun};
ghost use Rattle.bus_model.specs.Course.{Course, course};
ghost use Rattle.bus_model.specs.Control.{OutsideTake, yielded_in, unheard_ticks, so_far, course_after};
ghost use Rattle.bus_law_stations.specs.Silence.{AwaitsFirst, AwaitsSecond};
ghost use Rattle.bus_law_stations.specs.Messages.{ShowsBurst};
ghost use Rattle.bus_law_stations.specs.Turns.{with_moments, KeepsControl};
ghost use Rattle.bus_law_control.specs.Abandoning.{AreKept};
ghost use Rattle.bus_law_control.specs.Offers.{IsDoubting};
ghost use Rattle.bus_law_control.specs.Silent.{StaysSilent};
ghost use Rattle.bus_law_control.specs.Waiting.{StartsLater, StartedNone};

/// A station in control whose message has ended stays as it is before its next one starts, whatever is shown. At every lag.
pub fn a_holder_rests_before_its_next_message()
    ensures { (k : ℕ) (station : StationData) (starts : Bool) (loads : List TimedLoad) (outside : List OutsideTake) (past ticks : List Pair) →
        let c : Course = course_after k station starts loads outside past in c.holds ≡ true → c.runs ≡ None →
        StartedNone c past ticks → StartsLater c (ticks ++ past) → StaysSilent k station starts loads outside past ticks }
{}

/// A station in control whose message waits for an answer stays as it is while its own channel is quiet, for 24 dead ticks, and while the answer
/// runs there and isn't abandoned, whatever is shown on the other channel. At every lag.
pub fn a_holder_waits_for_its_answer()
    ensures silent { (k : ℕ) (station : StationData) (starts : Bool) (loads : List TimedLoad) (outside : List OutsideTake) (past ticks : List Pair)
        (begun : Begun) (e : ℕ) → let c : Course = course_after k station starts loads outside past in c.holds ≡ true → c.runs ≡ Some begun →
        AwaitsFirst k begun (on_channel begun.state.channel past) e ⊎ AwaitsSecond k begun (on_channel begun.state.channel past) e →
        on_channel begun.state.channel ticks ≡ quiet_ticks (length ticks) → length past + length ticks ≤ e + no_response →
        StaysSilent k station starts loads outside past ticks }
    ensures first { (k : ℕ) (station : StationData) (starts : Bool) (loads : List TimedLoad) (outside : List OutsideTake) (past ticks : List Pair)
        (begun : Begun) (e : ℕ) → let c : Course = course_after k station starts loads outside past in c.holds ≡ true → c.runs ≡ Some begun →
        length past ≤ e + no_response → AwaitsFirst k begun (on_channel begun.state.channel past) e →
        ShowsBurst k begun.state.channel past ticks → AreKept begun e past ticks → StaysSilent k station starts loads outside past ticks }
    ensures second { (k : ℕ) (station : StationData) (starts : Bool) (loads : List TimedLoad) (outside : List OutsideTake) (past ticks : List Pair)
        (begun : Begun) (e : ℕ) → let c : Course = course_after k station starts loads outside past in c.holds ≡ true → c.runs ≡ Some begun →
        length past ≤ e + no_response → AwaitsSecond k begun (on_channel begun.state.channel past) e →
        ShowsBurst k begun.state.channel past ticks → StaysSilent k station starts loads outside past ticks }
{}

/// A station in control that doubts whether its offer was accepted stays as it is while both channels are quiet, for eighty ticks since the end of
/// the answer. At every lag.
pub fn a_holder_doubts_in_silence()
    ensures { (k : ℕ) (station : StationData) (starts : Bool) (loads : List TimedLoad) (outside : List OutsideTake) (past : List Pair) (begun : Begun)
        (x n : ℕ) → let c : Course = course_after k station starts loads outside past in c.holds ≡ true → c.runs ≡ Some begun →
        IsDoubting k begun (on_channel begun.state.channel past) x → length past ≤ x + quiet_both past → length past + n < x + doubting →
        StaysSilent k station starts loads outside past (quiet_pairs n) }
{}

/// In the tick after such ticks its controller decides what becomes of it, and its terminal hears nothing of that tick either, unless its message ends
/// yielded in it. At every lag.
pub fn a_holder_closes_its_message_unheard()
    ensures { (k : ℕ) (station : StationData) (starts : Bool) (loads : List TimedLoad) (outside : List OutsideTake) (past ticks : List Pair) (x : Pair)
        (d : Course) → let before = so_far k station starts loads outside past in (course_after k station starts loads outside past).holds ≡ true →
        StaysSilent k station starts loads outside past ticks → course k station starts before.takes (x ∷ (ticks ++ past)) ≡ d →
        yielded_in (length (ticks ++ past)) d.ended ≡ false →
        KeepsControl k station starts loads outside past (x ∷ ticks)
        × (so_far k station starts loads outside ((x ∷ ticks) ++ past) ≡ with_moments before (unheard_ticks (x ∷ ticks)))
        × (course_after k station starts loads outside ((x ∷ ticks) ++ past) ≡ d) }
{}
