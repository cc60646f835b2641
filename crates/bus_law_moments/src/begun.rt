//! Messages that began. Laws alone, each the contract of an empty function.

ghost use Rattle.std.specs.List.{AllByRecursion as Each};
ghost use Rattle.std.specs.Prelude.{◌≡◌, ℕ, List, [], ◌∷◌};
ghost use Rattle.bus_formats.specs.Accepted.{IsAccepted};
ghost use Rattle.bus_formats.specs.Plans.{StationData};
ghost use Rattle.bus_model.specs.Message.{Present};
ghost use Rattle.bus_model.specs.Starts.{Entry};
ghost use Rattle.bus_law_duties.specs.Duties.{AreApart};
ghost use Rattle.bus_law_plans.specs.Entries.{IsEntryOf};
ghost use Rattle.bus_law_plans.specs.Memories.{AreBlocks};
ghost use Rattle.bus_law_stations.specs.Messages.{BeginsMessage};
ghost use Rattle.bus_law_phases.specs.Commands.{command_at};
ghost use Rattle.bus_law_phases.specs.Rests.{Rested};
ghost use Rattle.bus_law_phases.specs.Scenarios.{Scenario, trace_at, shown_at, course_of, StaysFrom};
ghost use Rattle.bus_law_moments.specs.Begun.{IsRanged, MessageBegan};

/// A message that begins between two others: the end of its command becomes known, with nothing found before it but its own. At lag 3, for any
/// loads that are blocks, with any stations absent.
pub fn a_message_begins_between_two_others()
    ensures { (w : Scenario) (t place : ℕ) (holder : StationData) (stations : List Present) (entry : Entry) → w.lag ≡ 3 → IsAccepted w.plan →
        AreBlocks w.loads → IsEntryOf w.plan holder.terminal.address entry → Rested w (trace_at w t) place holder stations →
        BeginsMessage (course_of w holder (shown_at w t)) (shown_at w t) entry → StaysFrom w t → AreApart stations → Each IsRanged stations →
        MessageBegan w t holder entry place stations [] (command_at w t t holder entry ∷ []) }
{}
