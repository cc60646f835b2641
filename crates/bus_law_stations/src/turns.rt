//! What a station is while it serves, and while it holds control. Laws alone, each the contract of an empty function.

ghost use Rattle.std.specs.Prelude.{◌≡◌, ℕ, Bool, true, List, [], ◌++◌};
ghost use Rattle.bus_base.specs.declared.samples.Pair.{Pair};
ghost use Rattle.bus_formats.specs.Plans.{StationData};
ghost use Rattle.bus_model.specs.Memory.{TimedLoad};
ghost use Rattle.bus_model.specs.Terminal.{drives};
ghost use Rattle.bus_model.specs.Course.{course, drive_course};
ghost use Rattle.bus_model.specs.Control.{OutsideTake, so_far, course_after, hearing_after, drives_next, unheard_ticks};
ghost use Rattle.bus_law_stations.specs.Turns.{moments_of, with_moments, TakesNothing, KeepsControl, Serves};

/// A station that serves, and takes no control, hears the bus by its terminal: nothing changes of its controller, and what it sends is what its
/// terminal sends. At every lag.
pub fn a_serving_station_hears_by_its_terminal()
    ensures hears { (k : ℕ) (station : StationData) (starts : Bool) (loads : List TimedLoad) (outside : List OutsideTake) (past ticks : List Pair) →
        Serves (course_after k station starts loads outside past) → TakesNothing k station starts loads outside past ticks →
        so_far k station starts loads outside (ticks ++ past)
        ≡ with_moments (so_far k station starts loads outside past) (moments_of (course_after k station starts loads outside past) ticks) }
    ensures course { (k : ℕ) (station : StationData) (starts : Bool) (loads : List TimedLoad) (outside : List OutsideTake) (past ticks : List Pair) →
        Serves (course_after k station starts loads outside past) → TakesNothing k station starts loads outside past ticks →
        course_after k station starts loads outside (ticks ++ past) ≡ course_after k station starts loads outside past }
    ensures sends { (k : ℕ) (station : StationData) (starts : Bool) (loads : List TimedLoad) (outside : List OutsideTake) (past ticks : List Pair) →
        Serves (course_after k station starts loads outside past) → TakesNothing k station starts loads outside past ticks →
        drives_next k station starts loads outside (ticks ++ past) ≡ drives k station.terminal loads record {
          memory = (hearing_after k station starts loads outside past).memory;
          ticks = moments_of (course_after k station starts loads outside past) ticks ++ (hearing_after k station starts loads outside past).ticks;
        } }
{}

/// A station that keeps control hears the bus by its controller: its terminal hears quiet ticks, and what it sends is what its controller sends.
/// At every lag.
pub fn a_station_in_control_hears_by_its_controller()
    ensures hears { (k : ℕ) (station : StationData) (starts : Bool) (loads : List TimedLoad) (outside : List OutsideTake) (past ticks : List Pair) →
        KeepsControl k station starts loads outside past ticks →
        so_far k station starts loads outside (ticks ++ past) ≡ with_moments (so_far k station starts loads outside past) (unheard_ticks ticks) }
    ensures course { (k : ℕ) (station : StationData) (starts : Bool) (loads : List TimedLoad) (outside : List OutsideTake) (past ticks : List Pair) →
        KeepsControl k station starts loads outside past ticks →
        course_after k station starts loads outside (ticks ++ past)
        ≡ course k station starts (so_far k station starts loads outside past).takes (ticks ++ past) }
    ensures sends { (k : ℕ) (station : StationData) (starts : Bool) (loads : List TimedLoad) (outside : List OutsideTake) (past ticks : List Pair) →
        KeepsControl k station starts loads outside past ticks → (course_after k station starts loads outside (ticks ++ past)).holds ≡ true →
        drives_next k station starts loads outside (ticks ++ past)
        ≡ drive_course k (ticks ++ past) (course k station starts (so_far k station starts loads outside past).takes (ticks ++ past)) }
{}
