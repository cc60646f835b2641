//! The command of a message. Laws alone, each the contract of an empty function.

ghost use Rattle.std.specs.Prelude.{◌≡◌, ℕ, List};
ghost use Rattle.bus_formats.specs.Accepted.{HasItemRanges, IsAccepted};
ghost use Rattle.bus_formats.specs.Plans.{StationData};
ghost use Rattle.bus_model.specs.Message.{Present};
ghost use Rattle.bus_model.specs.Starts.{Entry};
ghost use Rattle.bus_law_duties.specs.Duties.{AreApart};
ghost use Rattle.bus_law_phases.specs.Commands.{CommandPasses};
ghost use Rattle.bus_law_phases.specs.Rests.{Rested};
ghost use Rattle.bus_law_phases.specs.Scenarios.{Scenario, trace_at, shown_at, course_of, StaysFrom};
ghost use Rattle.bus_law_stations.specs.Messages.{BeginsMessage};

/// From a moment between two messages at which one begins, to that at which the end of its command is known: the command is sent alone, whatever
/// faults of the plan strike it; every serving terminal obeys it as it was struck, or passes over it, and is what the message table says; the blocks
/// that are taken, the burst, and the attempt that ends if no answer is expected, are the table's; and each tick is in order. At lag 3, for any
/// loads, with any stations absent.
pub fn a_command_passes()
    ensures { (w : Scenario) (t place : ℕ) (holder : StationData) (stations : List Present) (entry : Entry) → w.lag ≡ 3 → IsAccepted w.plan →
        HasItemRanges entry.item → Rested w (trace_at w t) place holder stations →
        BeginsMessage (course_of w holder (shown_at w t)) (shown_at w t) entry → StaysFrom w t → AreApart stations →
        CommandPasses w t t holder entry place stations }
{}
