//! Stations that control the bus, take control and doubt. Laws alone, each the contract of an empty function.

ghost use Rattle.std.specs.Prelude.{◌≡◌, ℕ, suc, ◌+◌, ◌<◌, ◌≤◌, true, List, ◌∷◌, Some, None, slice_get};
ghost use Rattle.bus_formats.specs.Accepted.{IsAccepted};
ghost use Rattle.bus_formats.specs.Plans.{TerminalData, StationData, PlanData};
ghost use Rattle.bus_model.specs.Hearing.{Moment};
ghost use Rattle.bus_model.specs.Memory.{Memory, TimedLoad};
ghost use Rattle.bus_model.specs.Orders.{due_after};
ghost use Rattle.bus_model.specs.Starts.{starts};
ghost use Rattle.bus_model.specs.Terminal.{took_now, accepted_now};
ghost use Rattle.bus_law_phases.specs.Scenarios.{shown_at};
ghost use Rattle.bus_law_run.specs.WorldIsRun.{plan_scenario, plan_end};
ghost use Rattle.bus_law_told.specs.Plain.{IsPlain};
ghost use Rattle.bus_law_whole.specs.Hands.{IsOneHand, HoldsAt};

use crate::whole::each_world_does_what_its_run_says;

/// In the tick in which a terminal accepts control it takes no block, whatever it heard: the end of its own answer is known in that tick, and no order
/// is handled in it. So nothing is lost where its station takes control and what it heard counts no more. At every lag below a slot's forty ticks,
/// after which no answer is due within the lag.
pub fn no_block_is_taken_as_control_is_accepted()
    ensures { (k : ℕ) (terminal : TerminalData) (loads : List TimedLoad) (memory : Memory) (now : Moment) (past : List Moment) (end : ℕ) → k ≤ 39 →
        ((e : ℕ) → e + k < due_after terminal e) → accepted_now k terminal loads record { memory = memory; ticks = now ∷ past } ≡ Some end →
        took_now k terminal loads record { memory = memory; ticks = now ∷ past } ≡ None }
{}

/// After each tick of the run of an accepted plan exactly one of four cases holds (dynamic bus control, MIL-STD-1553B 4.3.3.5.1.7.1): one station controls
/// the bus, and no other one does; one is taking control, and no other one holds it; one is taking control, and one that offered it doubts whether it was
/// accepted; or one doubts so, and no other one holds control. Where no message of the plan offers control, nor may be abandoned, it is the first all along:
/// the station that starts holds control after each tick, and no other one ever does.
pub fn control_stays_in_one_hand()
    ensures cases { (plan : PlanData) (t : ℕ) → IsAccepted plan → t < plan_end plan → IsOneHand (plan_scenario plan) (shown_at (plan_scenario plan) (suc t)) }
    ensures kept { (plan : PlanData) (t place : ℕ) (holder : StationData) → IsAccepted plan → IsPlain plan → slice_get plan.stations place ≡ Some holder →
        starts plan holder ≡ true → t < plan_end plan → HoldsAt (plan_scenario plan) (shown_at (plan_scenario plan) (suc t)) place holder }
{
    each_world_does_what_its_run_says();
}
