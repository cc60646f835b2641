//! What a bus does without the subsystems of its plan. Laws alone, each the contract of an empty function.

ghost use Rattle.std.specs.Prelude.{◌≡◌, ℕ, List};
ghost use Rattle.bus_formats.specs.Accepted.{IsAccepted};
ghost use Rattle.bus_formats.specs.Plans.{PlanData, without_subsystems};
ghost use Rattle.bus_model.specs.Control.{OutsideTake};
ghost use Rattle.bus_model.specs.Memory.{TimedLoad};
ghost use Rattle.bus_model.specs.World.{trace, run_is_over};
ghost use Rattle.bus_law_run.specs.WorldIsRun.{plan_end};

/// What the stations of a plan drive and what the channels show is the same without the subsystems that the plan names, in each tick and with whatever is
/// put up for sending, taken from outside, or absent; and so is whether the run is over. So the run of an accepted plan ends in the same tick with and
/// without them.
pub fn a_bus_runs_alike_without_its_subsystems()
    ensures shown { (k : ℕ) (plan : PlanData) (loads : List TimedLoad) (outside : List OutsideTake) (absent : List ℕ) (t : ℕ) →
        trace k (without_subsystems plan) loads outside absent t ≡ trace k plan loads outside absent t }
    ensures over { (k : ℕ) (plan : PlanData) (loads : List TimedLoad) (outside : List OutsideTake) (absent : List ℕ) (t : ℕ) →
        run_is_over k (without_subsystems plan) loads outside absent t ≡ run_is_over k plan loads outside absent t }
    ensures ends { (plan : PlanData) → IsAccepted plan → plan_end (without_subsystems plan) ≡ plan_end plan }
{}
