//! Messages whose answer is abandoned. Laws alone, each the contract of an empty function.

ghost use Rattle.std.specs.Prelude.{◌⊎◌, ℕ, List, ◌∷◌};
ghost use Rattle.bus_formats.specs.Accepted.{HasSuperseding};
ghost use Rattle.bus_formats.specs.Plans.{ItemData, StationData};
ghost use Rattle.bus_formats.specs.declared.log.Attempt.{Attempt};
ghost use Rattle.bus_model.specs.Message.{Present};
ghost use Rattle.bus_model.specs.Starts.{Entry};
ghost use Rattle.bus_model.specs.Strikes.{ShownBurst, ShownAnswer};
ghost use Rattle.bus_law_phases.specs.Scenarios.{Scenario};
ghost use Rattle.bus_law_moments.specs.Begun.{MessageBegan};
ghost use Rattle.bus_law_moments.specs.Told.{AnswerAbandoned};
ghost use Rattle.bus_law_told.specs.Told.{IsNotAbandoned};
ghost use Rattle.bus_law_abandoned.specs.Abandoned.{IsAbandoned};

/// A message that began and whose first answer is abandoned by the message table: the station in control closes it in the table's tick, Abandoned, and
/// starts its next message in the tick after, on the other channel, while the answer runs on; the blocks that were taken, the command's burst, the attempt
/// and the stations that it leaves are the table's; and in each of its ticks at most one station drives each channel. Whatever faults strike its command and
/// its answer; `later` are the items after it that are left of its station: as in each plan, one that may be abandoned is followed by one that supersedes it.
/// At lag 3, for any loads that are blocks, with any stations absent.
pub fn an_answer_is_abandoned()
    ensures { (w : Scenario) (t place : ℕ) (holder : StationData) (stations : List Present) (entry : Entry) (ended : List Attempt) (found : List ShownBurst)
        (later : List ItemData) (first : ShownAnswer) (tick : ℕ) → MessageBegan w t holder entry place stations ended found →
        HasSuperseding (entry.item ∷ later) → IsAbandoned w t holder stations entry first tick →
        AnswerAbandoned w t holder stations entry place ended found }
{}

/// A first answer of the message table is abandoned, or it isn't: then a message that gives no control away is told as any other.
pub fn an_answer_is_abandoned_or_not()
    ensures { (w : Scenario) (t : ℕ) (holder : StationData) (stations : List Present) (entry : Entry) → IsNotAbandoned w t holder stations entry
        ⊎ ((first : ShownAnswer) × (tick : ℕ) × IsAbandoned w t holder stations entry first tick) }
{}
