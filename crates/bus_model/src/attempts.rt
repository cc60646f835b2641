//! How the run of a plan goes on: one attempt after the other. Laws alone, each the contract of an empty function.

ghost use Rattle.std.specs.Prelude.{◌≡◌, ℕ, ◌+◌, ◌≤◌, List, ◌∷◌, length, sum_by, Some, None};
ghost use Rattle.bus_formats.specs.Plans.{PlanData};
ghost use Rattle.bus_formats.specs.declared.fault.Fault.{Fault};
ghost use Rattle.bus_formats.specs.declared.log.Attempt.{Attempt};
ghost use Rattle.bus_model.specs.Memory.{TimedLoad};
ghost use Rattle.bus_model.specs.Run.{Run, Next, next_item, attempt, attempts_after, most_attempts, run_of};

/// While the station that holds control has an item left, an attempt adds one record before those of the attempts so far, which stay: so the
/// number of an attempt, by which faults name it, is its place in the log.
pub fn an_attempt_adds_its_record()
    ensures { (k : ℕ) (loads : List TimedLoad) (faults : List Fault) (run : Run) (next : Next) → next_item run ≡ Some next →
        (added : Attempt) × ((attempt k loads faults run).attempts ≡ added ∷ run.attempts) }
{}

/// A run whose holder of control has no item left stays as it is, however many attempts more are asked for.
pub fn a_finished_run_stays()
    ensures { (k : ℕ) (loads : List TimedLoad) (faults : List Fault) (run : Run) (n : ℕ) → next_item run ≡ None →
        attempts_after k loads faults n run ≡ run }
{}

/// The run of a plan comes to an end: at last the station that holds control has no item left, after no more attempts than one for each item
/// and one for each entry of its retry list. So it is of any run from a moment on in which no retry is due, of the items that are left then.
pub fn a_run_comes_to_an_end()
    ensures ends { (k : ℕ) (loads : List TimedLoad) (plan : PlanData) → next_item (run_of k loads plan) ≡ None }
    ensures few { (k : ℕ) (loads : List TimedLoad) (plan : PlanData) → length (run_of k loads plan).attempts ≤ most_attempts plan }
    ensures from { (k : ℕ) (loads : List TimedLoad) (faults : List Fault) (most : ℕ) (run : Run) → run.retry ≡ None →
        sum_by (λ station. sum_by (λ entry. 1 + length entry.item.retry) station.left) run.stations ≤ most → next_item (attempts_after k loads faults most run) ≡ None }
{}
