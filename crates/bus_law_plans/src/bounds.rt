//! The bounds that each run of an accepted plan keeps. Laws alone, each the contract of an empty function.

ghost use Rattle.std.specs.Prelude.{ℕ, ◌<◌, List};
ghost use Rattle.bus_formats.specs.Accepted.{IsAccepted};
ghost use Rattle.bus_formats.specs.Plans.{PlanData};
ghost use Rattle.bus_model.specs.Memory.{TimedLoad};
ghost use Rattle.bus_model.specs.Run.{Run, first_run, attempt, attempts_after, most_attempts, run_of};
ghost use Rattle.bus_law_plans.specs.Bounds.{KeepsBounds, IsWithinBounds};
ghost use Rattle.bus_law_plans.specs.Entries.{IsRunOf};

/// Each run of an accepted plan keeps its bounds: it shows at most three bursts for each attempt, each of at most forty words; and no channel is
/// driven later than the ticks of the frames before the next item of each station, of all stations together, and 10,000 ticks for each attempt. An
/// attempt keeps it so; and so a run of at most so many attempts ends within the ticks of all frames, 10,000 ticks for each attempt, and 88 more. At
/// every lag below the wait for an answer, for any loads.
pub fn a_run_keeps_its_bounds()
    ensures first { (plan : PlanData) → KeepsBounds (first_run plan) }
    ensures next { (k : ℕ) (plan : PlanData) (loads : List TimedLoad) (run : Run) → k < 24 → IsAccepted plan → IsRunOf plan run → KeepsBounds run →
        KeepsBounds (attempt k loads plan.faults run) }
    ensures kept { (k : ℕ) (plan : PlanData) (loads : List TimedLoad) (n : ℕ) → k < 24 → IsAccepted plan →
        KeepsBounds (attempts_after k loads plan.faults n (first_run plan)) }
    ensures each { (k : ℕ) (plan : PlanData) (loads : List TimedLoad) (n : ℕ) → k < 24 → IsAccepted plan →
        IsWithinBounds plan n (attempts_after k loads plan.faults n (first_run plan)) }
    ensures all { (k : ℕ) (plan : PlanData) (loads : List TimedLoad) → k < 24 → IsAccepted plan → IsWithinBounds plan (most_attempts plan) (run_of k loads plan) }
{}
