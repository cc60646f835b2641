//! A message that begins beside an abandoned answer. Laws alone, each the contract of an empty function.

ghost use Rattle.std.specs.Prelude.{◌≡◌, ◌<◌, ◌≤◌, ℕ, true, false, List, []};
ghost use Rattle.bus_formats.specs.Plans.{StationData};
ghost use Rattle.bus_model.specs.Message.{Present};
ghost use Rattle.bus_model.specs.Starts.{Entry};
ghost use Rattle.bus_model.specs.Strikes.{ShownAnswer, burst_end, beside_command};
ghost use Rattle.bus_law_phases.specs.Commands.{command_at};
ghost use Rattle.bus_law_phases.specs.Scenarios.{Scenario};
ghost use Rattle.bus_law_moments.specs.Begun.{MessageBegan};
ghost use Rattle.bus_law_moments.specs.Told.{MessageTold};
ghost use Rattle.bus_law_beside.specs.Beside.{BeginsBeside, BeganBeside, is_valid, found_beside};

/// A message that begins beside an answer that was abandoned: where the answer, as the message table has it, ends no later than the command, the end of
/// the command becomes known with every station as the table says, and with both bursts found in the order of their ends. So it is where the first word
/// of the command is valid: the answer stops with the last tick of that (superseding valid commands, MIL-STD-1553B 4.4.3.2), or ended before. Where a
/// fault struck that word, and the answer ends after the command, nobody obeys the command, the answer runs on, the message ends without a response, and
/// once both are over the moment is one between two messages, as the table says: the message is told. So one or the other holds of each such message.
/// At lag 3, for any loads that are blocks, with any stations absent.
pub fn a_message_begins_beside_an_abandoned_answer()
    ensures over { (w : Scenario) (t place : ℕ) (holder : StationData) (stations : List Present) (entry : Entry) (old : ShownAnswer) →
        BeginsBeside w t place holder stations entry old →
        burst_end (beside_command (command_at w t t holder entry) old) ≤ burst_end (command_at w t t holder entry) →
        MessageBegan w t holder entry place stations [] (found_beside w t holder entry old) }
    ensures valid { (w : Scenario) (t place : ℕ) (holder : StationData) (stations : List Present) (entry : Entry) (old : ShownAnswer) →
        BeginsBeside w t place holder stations entry old → is_valid (command_at w t t holder entry).slots ≡ true →
        MessageBegan w t holder entry place stations [] (found_beside w t holder entry old) }
    ensures struck { (w : Scenario) (t place : ℕ) (holder : StationData) (stations : List Present) (entry : Entry) (old : ShownAnswer) →
        BeginsBeside w t place holder stations entry old → is_valid (command_at w t t holder entry).slots ≡ false →
        burst_end (command_at w t t holder entry) < burst_end (beside_command (command_at w t t holder entry) old) →
        MessageTold w t holder stations entry place [] (found_beside w t holder entry old) }
    ensures either { (w : Scenario) (t place : ℕ) (holder : StationData) (stations : List Present) (entry : Entry) (old : ShownAnswer) →
        BeginsBeside w t place holder stations entry old → BeganBeside w t holder entry old place stations }
{}
