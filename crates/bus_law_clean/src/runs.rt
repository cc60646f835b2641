//! How the messages of a run follow one another. Laws alone, each the contract of an empty function.

ghost use Rattle.std.specs.Prelude.{◌≤◌, ℕ, List, map};
ghost use Rattle.bus_formats.specs.Accepted.{IsAccepted};
ghost use Rattle.bus_formats.specs.Plans.{PlanData};
ghost use Rattle.bus_law_clean.specs.Undisturbed.{IsUndisturbed};
ghost use Rattle.bus_law_judge.specs.Rows.{AreInOrder};
ghost use Rattle.bus_law_listing.specs.Listing.{burst_found};
ghost use Rattle.bus_model.specs.Memory.{TimedLoad};
ghost use Rattle.bus_model.specs.Run.{first_run, attempts_after, run_of};

/// The bursts of the run of an accepted plan that names no fault, and of which no message may be abandoned, follow one another in order: after each of its
/// attempts, and so in the whole run; with retries, with offers of control that are accepted, declined or in doubt, and where answers never come. At every
/// lag up to 3, for any loads.
pub fn an_undisturbed_run_keeps_its_bursts_in_order()
    ensures each { (k : ℕ) (plan : PlanData) (loads : List TimedLoad) (n : ℕ) → k ≤ 3 → IsAccepted plan → IsUndisturbed plan →
        AreInOrder k (map burst_found (attempts_after k loads plan.faults n (first_run plan)).bursts) }
    ensures whole { (k : ℕ) (plan : PlanData) (loads : List TimedLoad) → k ≤ 3 → IsAccepted plan → IsUndisturbed plan →
        AreInOrder k (map burst_found (run_of k loads plan).bursts) }
{}
