//! From one attempt of a run to the next. Laws alone, each the contract of a function that does nothing.

ghost use Rattle.std.specs.Prelude.{◌≡◌, ℕ, ◌<◌, ◌≤◌, true, [], Some, None};
ghost use Rattle.bus_model.specs.Log.{log_of};
ghost use Rattle.bus_model.specs.Run.{Run, Next, first_run, next_item, attempt, attempts_after, run_end};
ghost use Rattle.bus_model.specs.WorldLog.{log_found};
ghost use Rattle.bus_law_plans.specs.Entries.{IsRunOf, KeepsSuperseding};
ghost use Rattle.bus_law_plans.specs.Memories.{KeepsWordRanges};
ghost use Rattle.bus_law_phases.specs.Scenarios.{Scenario, trace_at, StaysFrom, is_over_at};
ghost use Rattle.bus_law_run.specs.RunShows.{RunRests};
ghost use Rattle.bus_law_run.specs.WholeRun.{IsAcceptedBus, IsAcceptedScenario, run_in};
ghost use Rattle.bus_law_whole.specs.RunStands.{RunStands, MayGoOn, IsRunByPresent};

use bus_model::a_run_comes_to_an_end;

/// Where the world has come as far as a run of an accepted plan, and the station in control has an item left, it comes as far as the run with one
/// attempt more: from each sort of moment, and whatever the message leaves, with any stations absent, be it only since that moment. The run is one by the
/// stations that are present. A run of the whole plan may go on so, and so may one by the stations that are present, which an attempt keeps.
pub fn a_run_goes_on_from_each_moment()
    ensures on { (w : Scenario) (t : ℕ) (run : Run) (next : Next) → IsAcceptedBus w → StaysFrom w t → MayGoOn w run → RunStands w t run →
        next_item run ≡ Some next → (u : ℕ) × (t < u) × RunStands w u (attempt w.lag w.loads w.plan.faults run) }
    ensures whole { (w : Scenario) (run : Run) → IsAcceptedBus w → IsRunOf w.plan run → KeepsWordRanges run → KeepsSuperseding run → MayGoOn w run }
    ensures present { (w : Scenario) (run : Run) → IsAcceptedBus w → IsRunByPresent w run →
        MayGoOn w run × IsRunByPresent w (attempt w.lag w.loads w.plan.faults run) }
{}

/// So a run by the stations that are present goes on from a moment, attempt by attempt, and where none of its items is left it is over in the tick in which
/// it ends by the message table.
pub fn a_run_by_the_stations_present_goes_on()
    ensures stands { (w : Scenario) (t : ℕ) (run : Run) (n : ℕ) → IsAcceptedBus w → StaysFrom w t → IsRunByPresent w run → RunStands w t run →
        (u : ℕ) × (t ≤ u) × RunStands w u (attempts_after w.lag w.loads w.plan.faults n run) }
    ensures over { (w : Scenario) (t : ℕ) (run : Run) → IsAcceptedBus w → StaysFrom w t → IsRunByPresent w run → RunStands w t run →
        next_item run ≡ None → RunRests w (run_end run) run × (is_over_at w (run_end run) ≡ true) }
{}

/// So the world comes as far as the run after each of its attempts, from the first tick on, where every station is present.
pub fn each_run_stands_after_each_attempt()
    ensures { (w : Scenario) (n : ℕ) → IsAcceptedScenario w → w.absent ≡ [] →
        (t : ℕ) × RunStands w t (attempts_after w.lag w.loads w.plan.faults n (first_run w.plan)) }
{}

/// And it comes as far as the whole run of the plan in the tick in which that run ends by the message table: no station is in doubt then, no answer
/// runs on, the bus has been quiet for so long, and the run is over, with the log of the table's run. So it is for any loads that are blocks.
pub fn each_run_is_over_at_its_end()
    ensures rests { (w : Scenario) → IsAcceptedScenario w → w.absent ≡ [] → RunRests w (run_end (run_in w)) (run_in w) }
    ensures over { (w : Scenario) → IsAcceptedScenario w → w.absent ≡ [] → is_over_at w (run_end (run_in w)) ≡ true }
    ensures log { (w : Scenario) → IsAcceptedScenario w → w.absent ≡ [] →
        log_found w.lag w.plan w.loads w.outside w.absent (trace_at w (run_end (run_in w))) ≡ log_of (run_in w) }
{
    a_run_comes_to_an_end();
}
