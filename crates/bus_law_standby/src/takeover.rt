//! From the tick in which a primary leaves the bus to the one in which a standby takes control. Laws alone, each the contract of an empty function.

ghost use Rattle.std.specs.Prelude.{◌≡◌, ℕ, suc, ◌+◌, ◌≤◌, List, [], length, Some, None};
ghost use Rattle.bus_formats.specs.Accepted.{IsAccepted};
ghost use Rattle.bus_formats.specs.Plans.{StationData};
ghost use Rattle.bus_model.specs.Control.{OutsideTake};
ghost use Rattle.bus_model.specs.Course.{quiet_from};
ghost use Rattle.bus_model.specs.Run.{Run, Next, next_item, take_control};
ghost use Rattle.bus_law_phases.specs.Scenarios.{Scenario, trace_at, shown_at, NoneTakesFrom, StaysFrom};
ghost use Rattle.bus_law_run.specs.RunShows.{RunShows};
ghost use Rattle.bus_law_whole.specs.Changes.{changed};
ghost use Rattle.bus_law_whole.specs.Leaving.{RestsUncontrolled, without_station};
ghost use Rattle.bus_law_whole.specs.RunStands.{RunStands, IsBetween};
ghost use Rattle.bus_law_standby.specs.Taking.{TakesAlone, TakenAlike, run_without};

/// Where the world has come as far as a run in tick t, between two messages, and the station in control leaves it with that tick, nothing comes to pass for n
/// ticks; and where another station takes control by itself in the tick after them, the world stands with the run without the first station of which that one
/// took control, its first command still to start. The same of any bus on which nobody holds control and the channels rest. At every lag.
pub fn a_standby_takes_over_between_two_messages()
    ensures leaves { (w : Scenario) (t n place : ℕ) (holder : StationData) (run : Run) (outside : List OutsideTake) (taker : ℕ) (station : StationData)
        (first : ℕ) (item : Next) → let left = without_station w t holder in let later = changed left (suc (t + n)) left.absent outside in
        IsAccepted w.plan → length (shown_at w t) ≡ t → IsBetween w t place holder run [] → RunShows w t run [] →
        NoneTakesFrom left t → TakenAlike left outside (t + n) → TakesAlone later (t + n) taker station first → suc (t + n) ≤ first →
        next_item (take_control station.terminal.address first (run_without holder.terminal.address run)) ≡ Some item →
        RunStands later (suc (t + n)) (take_control station.terminal.address first (run_without holder.terminal.address run)) }
    ensures silent { (w : Scenario) (t n : ℕ) (outside : List OutsideTake) (run : Run) → let later = changed w (suc (t + n)) w.absent outside in
        StaysFrom w t → RestsUncontrolled w (trace_at w t) run.stations → RunShows w t run [] → run.runs_on ≡ None →
        quiet_from (shown_at w t) ≡ run.quiet_from → TakenAlike w outside (t + n) →
        (place : ℕ) (station : StationData) (first : ℕ) (item : Next) → IsAccepted w.plan → TakesAlone later (t + n) place station first → suc (t + n) ≤ first →
        next_item (take_control station.terminal.address first run) ≡ Some item →
        RunStands later (suc (t + n)) (take_control station.terminal.address first run) }
{}
