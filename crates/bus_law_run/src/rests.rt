//! Moments at which the world rests as a run of the message table does. Laws alone, each the contract of an empty function.

ghost use Rattle.std.specs.Prelude.{◌≡◌, ℕ, ◌≤◌, true, List, [], None};
ghost use Rattle.bus_formats.specs.Accepted.{IsAccepted};
ghost use Rattle.bus_formats.specs.Plans.{StationData, PlanData};
ghost use Rattle.bus_model.specs.Log.{log_of};
ghost use Rattle.bus_model.specs.Run.{Run, first_run, next_item, run_end};
ghost use Rattle.bus_model.specs.WorldLog.{log_found};
ghost use Rattle.bus_law_plans.specs.Entries.{IsRunAmong};
ghost use Rattle.bus_law_phases.specs.Scenarios.{Scenario, trace_at, StaysFrom, IsWhole, is_over_at};
ghost use Rattle.bus_law_run.specs.RunShows.{RunRests};

/// Before the first tick the world of an accepted plan rests as the beginning of its run does, where every station is there from the first tick on. At every
/// lag, for any loads.
pub fn a_run_begins_at_rest()
    ensures { (w : Scenario) → IsWhole w → IsAccepted w.plan → w.absent ≡ [] → RunRests w 0 (first_run w.plan) }
{}

/// Where the world of an accepted plan rests as a run does of which no item is left, it rests so up to the tick in which that run ends by the message
/// table, and is over then, if nobody takes control by itself. At every lag, for any loads, with any stations absent, be it only since the bus came to rest so.
pub fn a_run_at_rest_is_over_at_its_end()
    ensures rests { (w : Scenario) (t : ℕ) (run : Run) → IsAccepted w.plan → StaysFrom w t → next_item run ≡ None → RunRests w t run →
        RunRests w (run_end run) run }
    ensures over { (w : Scenario) (t : ℕ) (run : Run) (plan : PlanData) (own : List StationData) → IsAccepted w.plan → StaysFrom w t → IsRunAmong plan own run →
        next_item run ≡ None → RunRests w t run → is_over_at w (run_end run) ≡ true }
{}

/// The log that is found in the world where it rests as a run does in the tick in which that ends is the run's: the attempts with their outcomes, the words
/// and bursts that a monitor hears, what the terminals are left with, the tick, and that no two stations ever drove one channel. At every lag up to 39,
/// for any loads, with any stations absent from the first tick on.
pub fn the_log_of_a_run_at_rest_is_found()
    ensures { (w : Scenario) (run : Run) → IsWhole w → w.lag ≤ 39 → RunRests w (run_end run) run →
        log_found w.lag w.plan w.loads w.outside w.absent (trace_at w (run_end run)) ≡ log_of run }
{}
