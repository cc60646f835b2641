//! A station doubts whether its offer of control was accepted (dynamic bus control, MIL-STD-1553B 4.3.3.5.1.7.1; the doubt is the project's own). Laws
//! alone, each the contract of an empty function.

ghost use Rattle.std.specs.List.{AllByRecursion as Each};
ghost use Rattle.std.specs.Prelude.{◌≡◌, ℕ, ◌+◌, ◌≤◌, List, [], ◌∷◌, ◌++◌};
ghost use Rattle.bus_base.specs.Samples.{quiet_pairs};
ghost use Rattle.bus_formats.specs.Accepted.{IsAccepted};
ghost use Rattle.bus_formats.specs.Plans.{StationData};
ghost use Rattle.bus_formats.specs.Times.{taking_over};
ghost use Rattle.bus_model.specs.Attempts.{Begun};
ghost use Rattle.bus_model.specs.Course.{quiet_from};
ghost use Rattle.bus_model.specs.Message.{Present};
ghost use Rattle.bus_model.specs.Starts.{Entry};
ghost use Rattle.bus_law_duties.specs.Duties.{AreApart};
ghost use Rattle.bus_law_moments.specs.Begun.{IsRanged, MessageBegan};
ghost use Rattle.bus_law_moments.specs.Doubts.{attempt_yielded, RestedInDoubt};
ghost use Rattle.bus_law_plans.specs.Entries.{IsEntryOf};
ghost use Rattle.bus_law_plans.specs.Memories.{AreBlocks};
ghost use Rattle.bus_law_stations.specs.Messages.{BeginsMessage};
ghost use Rattle.bus_law_phases.specs.Commands.{command_at};
ghost use Rattle.bus_law_phases.specs.Passages.{Passage, nothing_happens};
ghost use Rattle.bus_law_phases.specs.Scenarios.{Scenario, trace_at, shown_at, course_of, StaysFrom};

/// A moment in which a station doubts lasts until the station that took control starts: both channels are quiet, from the same tick on, every station
/// is what it was, and nothing comes to pass. At every lag, for any loads, with any stations absent.
pub fn a_doubt_lasts_in_silence()
    ensures { (w : Scenario) (t n place : ℕ) (holder : StationData) (stations : List Present) (offer : Begun) (x : ℕ) →
        (rested : RestedInDoubt w (trace_at w t) place holder stations offer x) → t + n ≤ x + taking_over → StaysFrom w t →
        (shown_at w (t + n) ≡ quiet_pairs n ++ shown_at w t)
        × ((later : RestedInDoubt w (trace_at w (t + n)) place holder stations offer x) × (later.offerer ≡ rested.offerer))
        × (course_of w holder (shown_at w (t + n)) ≡ course_of w holder (shown_at w t)) × (quiet_from (shown_at w (t + n)) ≡ quiet_from (shown_at w t))
        × Passage w t (t + n) nothing_happens }
{}

/// A message that begins in such a moment, the first one of the station that took control: with its first sample the station that doubted yields, and
/// its attempt ends so in that tick; its terminal hears the command from that sample on, and obeys it or passes over it like every other one. At lag
/// 3, for any loads that are blocks, with any stations absent.
pub fn a_message_begins_in_doubt()
    ensures { (w : Scenario) (t place : ℕ) (holder : StationData) (stations : List Present) (offer : Begun) (x : ℕ) (entry : Entry) → w.lag ≡ 3 →
        IsAccepted w.plan → AreBlocks w.loads → IsEntryOf w.plan holder.terminal.address entry →
        (rested : RestedInDoubt w (trace_at w t) place holder stations offer x) →
        BeginsMessage (course_of w holder (shown_at w t)) (shown_at w t) entry → StaysFrom w t → AreApart stations → Each IsRanged stations →
        MessageBegan w t holder entry place stations (attempt_yielded rested.offerer offer x ∷ []) (command_at w t t holder entry ∷ []) }
{}
