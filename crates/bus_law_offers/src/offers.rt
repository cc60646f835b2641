//! Offers of control, told whole (dynamic bus control, MIL-STD-1553B 4.3.3.5.1.7.1). Laws alone, each the contract of an empty function.

ghost use Rattle.std.specs.Prelude.{◌≡◌, ◌⊎◌, ℕ, true, List, Some};
ghost use Rattle.bus_formats.specs.Plans.{StationData};
ghost use Rattle.bus_formats.specs.declared.log.Attempt.{Attempt};
ghost use Rattle.bus_model.specs.Attempts.{is_offer};
ghost use Rattle.bus_model.specs.Message.{Present};
ghost use Rattle.bus_model.specs.Starts.{Entry};
ghost use Rattle.bus_model.specs.Strikes.{ShownBurst, ShownAnswer};
ghost use Rattle.bus_law_moments.specs.Begun.{MessageBegan};
ghost use Rattle.bus_law_moments.specs.Told.{MessageTold, ControlPassed, ControlYielded};
ghost use Rattle.bus_law_phases.specs.Scenarios.{Scenario};
ghost use Rattle.bus_law_told.specs.Told.{answer_shown, IsNotAbandoned};

/// An offer of control that is accepted, and isn't abandoned, gives control away: the terminal that accepted holds control from the end of its status on,
/// and starts once the quiet is over; the station that offered it has read the status as one that accepts, its message is passed, and it serves; or the
/// status is struck so that it is read badly, and then it doubts. The blocks, bursts and attempts that came to pass are the table's, the stations are those
/// of the table, and each tick is in order. At lag 3, for any loads that are blocks, with any stations absent.
pub fn an_offer_that_is_accepted_is_told()
    ensures { (w : Scenario) (t place : ℕ) (holder : StationData) (stations : List Present) (entry : Entry) (ended : List Attempt) (found : List ShownBurst)
        (first : ShownAnswer) → MessageBegan w t holder entry place stations ended found → is_offer entry.item.kind ≡ true →
        answer_shown w t holder stations entry ≡ Some first → first.sent.acceptance ≡ true → IsNotAbandoned w t holder stations entry →
        ControlPassed w t holder stations entry place ended found ⊎ ControlYielded w t holder stations entry place ended found }
{}

/// Every message that began and isn't abandoned is told, whatever it is and whatever faults strike it: it is what the message table says, and control stays;
/// or it offered control, which was accepted, and control passes, or is yielded. An offer of which the answer is read badly, and which nobody accepted, ends
/// after a doubt of eighty quiet ticks. At lag 3, for any loads that are blocks, with any stations absent.
pub fn a_message_that_is_not_abandoned_is_told()
    ensures { (w : Scenario) (t place : ℕ) (holder : StationData) (stations : List Present) (entry : Entry) (ended : List Attempt) (found : List ShownBurst) →
        MessageBegan w t holder entry place stations ended found → IsNotAbandoned w t holder stations entry →
        MessageTold w t holder stations entry place ended found
        ⊎ (ControlPassed w t holder stations entry place ended found ⊎ ControlYielded w t holder stations entry place ended found) }
{}
