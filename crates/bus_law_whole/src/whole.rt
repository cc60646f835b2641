//! The whole run of a plan. Laws alone, each the contract of a function that does nothing.

ghost use Rattle.bus_formats.specs.Accepted.{IsAccepted};
ghost use Rattle.bus_formats.specs.Plans.{PlanData};
ghost use Rattle.bus_law_run.specs.WorldIsRun.{WorldIsRun};

use bus_model::a_run_comes_to_an_end;

/// The world of every accepted plan does what its run by the message table says, with offers of control and abandoned messages, and whatever faults the
/// plan names: every attempt, word, burst and block, the deliveries to each terminal, and what is left of it; it is over in the tick that the table says,
/// and not before; in each tick control is in one hand, or the station that offered it doubts, and no two stations drive one channel; each receive block
/// stays in each tick, or becomes one that was sent, whole, where no fault deceives the count of an answer's words; and all is within its bounds.
pub fn each_world_does_what_its_run_says()
    ensures { (plan : PlanData) → IsAccepted plan → WorldIsRun plan }
{
    a_run_comes_to_an_end();
}
