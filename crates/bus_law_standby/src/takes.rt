//! The tick in which a standby takes control. Laws alone, each the contract of an empty function.

ghost use Rattle.std.specs.Prelude.{◌≡◌, ℕ, suc, ◌<◌, ◌≤◌, Bool, ◌∷◌, List, length, Some};
ghost use Rattle.bus_base.specs.Samples.{quiet_pair};
ghost use Rattle.bus_base.specs.declared.samples.Pair.{Pair};
ghost use Rattle.bus_formats.specs.Accepted.{IsAccepted};
ghost use Rattle.bus_formats.specs.Plans.{StationData};
ghost use Rattle.bus_model.specs.Control.{OutsideTake, outside_takes, so_far};
ghost use Rattle.bus_model.specs.Course.{take_control};
ghost use Rattle.bus_model.specs.Memory.{TimedLoad};
ghost use Rattle.bus_model.specs.Message.{Present};
ghost use Rattle.bus_model.specs.Run.{Run, Next, next_item, take_control as run_taken};
ghost use Rattle.bus_model.specs.World.{Trace, next_tick};
ghost use Rattle.bus_law_phases.specs.Rests.{Rested};
ghost use Rattle.bus_law_phases.specs.Scenarios.{Scenario, trace_at, shown_at, course_of};
ghost use Rattle.bus_law_whole.specs.Leaving.{RestsUncontrolled};
ghost use Rattle.bus_law_whole.specs.RunStands.{RunStands};
ghost use Rattle.bus_law_standby.specs.Taking.{TakesAlone, TakenAlike, StandsUncontrolled, taken_so, controlled_by};

/// Where nobody holds control and the channels rest, a station that takes control by itself, and is the only one that does, holds it from the next tick on:
/// that tick is quiet, the station's first command is to start when it said, every other station that is present serves on, and the stations are those of
/// the message table of which that one took control. At every lag.
pub fn a_station_takes_control_in_a_silence()
    ensures quiet { (w : Scenario) (t place : ℕ) (station : StationData) (first : ℕ) (stations : List Present) → length (shown_at w t) ≡ t →
        trace_at w (suc t) ≡ next_tick w.lag w.plan w.loads w.outside w.absent (trace_at w t) → RestsUncontrolled w (trace_at w t) stations →
        TakesAlone w t place station first → shown_at w (suc t) ≡ quiet_pair ∷ shown_at w t }
    ensures takes { (w : Scenario) (t place : ℕ) (station : StationData) (first : ℕ) (stations : List Present) → length (shown_at w t) ≡ t →
        trace_at w (suc t) ≡ next_tick w.lag w.plan w.loads w.outside w.absent (trace_at w t) → RestsUncontrolled w (trace_at w t) stations →
        TakesAlone w t place station first → course_of w station (shown_at w (suc t)) ≡ take_control first (course_of w station (shown_at w t)) }
    ensures rests { (w : Scenario) (t place : ℕ) (station : StationData) (first : ℕ) (stations : List Present) → IsAccepted w.plan →
        length (shown_at w t) ≡ t → trace_at w (suc t) ≡ next_tick w.lag w.plan w.loads w.outside w.absent (trace_at w t) →
        RestsUncontrolled w (trace_at w t) stations → TakesAlone w t place station first →
        Rested w (trace_at w (suc t)) place station (controlled_by station.terminal.address stations) }
{}

/// A station is the same on two buses on which it took control alike from outside so far: a take of a later tick changes nothing before. So where nobody holds
/// control and the channels rest, they do on both.
pub fn a_later_take_changes_nothing_before()
    ensures station { (k : ℕ) (station : StationData) (starts : Bool) (loads : List TimedLoad) (outside other : List OutsideTake) (past : List Pair) →
        ((tick : ℕ) → tick < length past → outside_takes k station starts loads outside tick outside ≡ outside_takes k station starts loads other tick other) →
        so_far k station starts loads outside past ≡ so_far k station starts loads other past }
    ensures rests { (w : Scenario) (outside : List OutsideTake) (now : Trace) (stations : List Present) → TakenAlike w outside (length now.shown) →
        RestsUncontrolled w now stations → RestsUncontrolled (taken_so w outside) now stations }
{}

/// And where the world has come as far as a run, but nobody holds control, it stands with the run of which that station took control, its first command still to
/// start: from there `a_run_by_the_stations_present_goes_on` of bus_law_whole. The station has an item left.
pub fn the_world_stands_with_the_run_where_control_was_taken()
    ensures { (w : Scenario) (t place : ℕ) (station : StationData) (first : ℕ) (run : Run) (item : Next) → IsAccepted w.plan →
        length (shown_at w t) ≡ t → trace_at w (suc t) ≡ next_tick w.lag w.plan w.loads w.outside w.absent (trace_at w t) →
        StandsUncontrolled w t run → TakesAlone w t place station first → suc t ≤ first →
        next_item (run_taken station.terminal.address first run) ≡ Some item →
        RunStands w (suc t) (run_taken station.terminal.address first run) }
{}
