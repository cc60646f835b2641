//! Buses that change in the course of their run. Laws alone, each the contract of an empty function.

ghost use Rattle.std.specs.Prelude.{◌≡◌, ℕ, ◌≤◌, List, [], length};
ghost use Rattle.bus_formats.specs.Plans.{StationData};
ghost use Rattle.bus_model.specs.Control.{OutsideTake};
ghost use Rattle.bus_model.specs.Message.{Present};
ghost use Rattle.bus_model.specs.Run.{Run};
ghost use Rattle.bus_law_phases.specs.Rests.{Rested};
ghost use Rattle.bus_law_phases.specs.Scenarios.{Scenario, trace_at, shown_at, NoneTakesFrom, StaysFrom};
ghost use Rattle.bus_law_run.specs.RunShows.{RunShows};
ghost use Rattle.bus_law_whole.specs.Changes.{changed};
ghost use Rattle.bus_law_whole.specs.Leaving.{left_by, without_station, RestsUncontrolled, LastsUncontrolled};

/// A bus that stations leave with some tick, or on which control is taken from outside later, shows the same before it, and from then on it is the bus on
/// which these stations are absent. All that was found of a run by then stays found.
pub fn a_bus_goes_on_without_those_that_left()
    ensures before { (w : Scenario) (a : ℕ) (absent : List ℕ) (outside : List OutsideTake) (t : ℕ) → t ≤ a →
        trace_at (changed w a absent outside) t ≡ trace_at w t }
    ensures stays { (w : Scenario) (a : ℕ) (absent : List ℕ) (outside : List OutsideTake) → length (shown_at w a) ≡ a →
        NoneTakesFrom (changed w a absent outside) a → StaysFrom (changed w a absent outside) a }
    ensures shows { (w : Scenario) (a : ℕ) (absent : List ℕ) (outside : List OutsideTake) (run : Run) → RunShows w a run [] →
        RunShows (changed w a absent outside) a run [] }
{}

/// Where the station in control leaves between two messages, each other one that is present serves, and these are the stations of the message table without
/// it; and so it is for as long as none of them takes control: both channels stay quiet, nothing comes to pass, and no two stations drive one channel.
pub fn the_others_rest_where_the_station_in_control_leaves()
    ensures left { (w : Scenario) (a place : ℕ) (holder : StationData) (stations : List Present) → Rested w (trace_at w a) place holder stations →
        RestsUncontrolled (without_station w a holder) (trace_at (without_station w a holder) a) (left_by holder.terminal.address stations) }
    ensures lasts { (w : Scenario) (t n : ℕ) (stations : List Present) → StaysFrom w t → RestsUncontrolled w (trace_at w t) stations →
        LastsUncontrolled w t n stations }
{}
