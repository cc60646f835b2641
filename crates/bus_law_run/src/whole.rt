//! What makes the world of a plan do what its run by the message table says. Laws alone, each the contract of an empty function.

ghost use Rattle.std.specs.Prelude.{◌≡◌, true, []};
ghost use Rattle.bus_formats.specs.Accepted.{IsAccepted};
ghost use Rattle.bus_formats.specs.Plans.{PlanData};
ghost use Rattle.bus_line.specs.declared.cutter.TheConstants.{LAG};
ghost use Rattle.bus_model.specs.World.{run_is_over};
ghost use Rattle.bus_law_run.specs.Blocks.{IsHeardUntil};
ghost use Rattle.bus_law_run.specs.RunShows.{RunRests};
ghost use Rattle.bus_law_run.specs.WorldIsRun.{WorldIsRun, plan_scenario, plan_run, plan_end};

/// The world of an accepted plan does what its run by the message table says, if it rests as that run does in the tick in which that ends, is over then,
/// and in each tick before it each terminal hears what is shown, or takes no block. That all three are so is the theorem of bus_law_whole.
pub fn a_world_at_rest_does_what_its_run_says()
    ensures { (plan : PlanData) → IsAccepted plan → RunRests (plan_scenario plan) (plan_end plan) (plan_run plan) →
        run_is_over LAG plan [] [] [] (plan_end plan) ≡ true → IsHeardUntil (plan_scenario plan) (plan_end plan) → WorldIsRun plan }
{}
