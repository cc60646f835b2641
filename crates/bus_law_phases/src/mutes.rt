//! Answers of which nothing is shown. Laws alone, each the contract of an empty function.

ghost use Rattle.std.specs.Prelude.{◌≡◌, ℕ, false, suc, ◌+◌, ◌≤◌, List, ◌++◌, map, slice_get, Some};
ghost use Rattle.std.specs.List.{All};
ghost use Rattle.bus_base.specs.Samples.{quiet_pairs};
ghost use Rattle.bus_base.specs.declared.samples.Part.{Part};
ghost use Rattle.bus_formats.specs.Accepted.{IsAccepted};
ghost use Rattle.bus_formats.specs.Plans.{StationData, PlanData};
ghost use Rattle.bus_formats.specs.Times.{no_response};
ghost use Rattle.bus_model.specs.Course.{quiet_from};
ghost use Rattle.bus_model.specs.Memory.{TimedLoad};
ghost use Rattle.bus_model.specs.Message.{After, after_silence};
ghost use Rattle.bus_model.specs.Orders.{due_after};
ghost use Rattle.bus_model.specs.Standing.{is_owed};
ghost use Rattle.bus_model.specs.Strikes.{ShownBurst, burst_end, Answer};
ghost use Rattle.bus_law_stations.specs.Silence.{NothingStarts};
ghost use Rattle.bus_law_phases.specs.Scenarios.{Scenario, trace_at, shown_at, course_of, StaysFrom};
ghost use Rattle.bus_law_phases.specs.Passages.{Passage, nothing_happens};
ghost use Rattle.bus_law_phases.specs.Silences.{GoesOnTo};
ghost use Rattle.bus_law_phases.specs.Moments.{Underway};
ghost use Rattle.bus_law_phases.specs.Mutes.{IsMute, answered};

/// While an answer is sent of which nothing is shown both channels are quiet, and nothing comes to pass; after four ticks its terminal has learnt
/// that it is over, and nobody owes an answer. The station in control starts and ends nothing meanwhile. At lag 3, for any loads, with any stations
/// absent.
pub fn a_mute_answer_passes()
    ensures { (w : Scenario) (t place : ℕ) (holder : StationData) (part : Part) (burst : ShownBurst) (afters : List After) (answer : Answer) →
        w.lag ≡ 3 → IsAccepted w.plan → StaysFrom w t → IsMute w t place holder part burst afters answer →
        NothingStarts w.lag (course_of w holder (shown_at w t)) (shown_at w t) (suc w.lag) → GoesOnTo w (shown_at w t) (t + suc w.lag) →
        (shown_at w (t + suc w.lag) ≡ quiet_pairs (suc w.lag) ++ shown_at w t)
        × Underway w (trace_at w (t + suc w.lag)) place holder burst.channel (burst_end burst) part (map answered afters)
        × All (λ after. is_owed after.duty ≡ false) (map answered afters)
        × (course_of w holder (shown_at w (t + suc w.lag)) ≡ course_of w holder (shown_at w t))
        × (quiet_from (shown_at w (t + suc w.lag)) ≡ quiet_from (shown_at w t)) × Passage w t (t + suc w.lag) nothing_happens }
{}

/// An answer is due so early that such a one is over before the station in control knows that none came; and promises run out after it as they do
/// where nobody owed an answer.
pub fn a_mute_answer_is_like_none()
    ensures early { (plan : PlanData) (place : ℕ) (station : StationData) (e : ℕ) → IsAccepted plan → slice_get plan.stations place ≡ Some station →
        due_after station.terminal e + 4 ≤ e + no_response }
    ensures settled { (k : ℕ) (loads : List TimedLoad) (burst : ShownBurst) (afters : List After) →
        map (after_silence k loads burst) (map answered afters) ≡ map (after_silence k loads burst) afters }
{}
