//! Moments between two messages. Laws alone, each the contract of an empty function.

ghost use Rattle.std.specs.Prelude.{◌≡◌, ℕ, ◌+◌, true, List, ◌++◌, map};
ghost use Rattle.bus_base.specs.Samples.{quiet_pairs};
ghost use Rattle.bus_formats.specs.Accepted.{IsAccepted};
ghost use Rattle.bus_formats.specs.Plans.{StationData};
ghost use Rattle.bus_model.specs.Course.{quiet_from};
ghost use Rattle.bus_model.specs.Message.{Present};
ghost use Rattle.bus_model.specs.Run.{first_present};
ghost use Rattle.bus_model.specs.Starts.{starts};
ghost use Rattle.bus_model.specs.WorldLog.{present_stations};
ghost use Rattle.bus_law_messages.specs.Settled.{NoneStarts};
ghost use Rattle.bus_law_phases.specs.Scenarios.{Scenario, no_ticks, trace_at, shown_at, course_of, IsPresentAt, StaysFrom};
ghost use Rattle.bus_law_phases.specs.Passages.{Passage, nothing_happens};
ghost use Rattle.bus_law_phases.specs.Silences.{GoesOnTo};
ghost use Rattle.bus_law_phases.specs.Rests.{Rested};

/// A moment between two messages lasts until the next message starts: both channels are quiet, from the same tick on, the station in control and
/// all others are what they were, and nothing comes to pass. At every lag, for any loads, with any stations absent.
pub fn a_moment_between_messages_lasts()
    ensures { (w : Scenario) (t n place : ℕ) (holder : StationData) (stations : List Present) → Rested w (trace_at w t) place holder stations →
        NoneStarts (course_of w holder (shown_at w t)) (shown_at w t) n → StaysFrom w t → GoesOnTo w (shown_at w t) (t + n) →
        (shown_at w (t + n) ≡ quiet_pairs n ++ shown_at w t) × Rested w (trace_at w (t + n)) place holder stations
        × (course_of w holder (shown_at w (t + n)) ≡ course_of w holder (shown_at w t)) × (quiet_from (shown_at w (t + n)) ≡ quiet_from (shown_at w t))
        × Passage w t (t + n) nothing_happens }
{}

/// The world of an accepted plan begins with such a moment, where nothing was shown before and the station is present that starts with control.
pub fn the_world_begins_between_messages()
    ensures { (w : Scenario) (place : ℕ) (holder : StationData) → IsAccepted w.plan → IsPresentAt w place holder → starts w.plan holder ≡ true →
        trace_at w 0 ≡ no_ticks → Rested w (trace_at w 0) place holder (map (first_present w.plan) (present_stations w.lag w.plan w.loads w.outside w.absent)) }
{}
