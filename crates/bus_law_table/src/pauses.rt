//! The stations of the message table before the first message, and from one message to the next. Laws alone, each the contract of an empty function.

ghost use Rattle.std.specs.Prelude.{◌≡◌, ℕ, ◌+◌, List, map};
ghost use Rattle.bus_line.specs.Channels.{bursts};
ghost use Rattle.bus_formats.specs.Plans.{StationData, PlanData};
ghost use Rattle.bus_model.specs.Memory.{TimedLoad};
ghost use Rattle.bus_model.specs.Message.{Present};
ghost use Rattle.bus_model.specs.Run.{first_present};
ghost use Rattle.bus_model.specs.Starts.{starts};
ghost use Rattle.bus_model.specs.Course.{Course};
ghost use Rattle.bus_model.specs.Control.{OutsideTake, course_after};
ghost use Rattle.bus_model.specs.World.{Trace, trace};
ghost use Rattle.bus_model.specs.WorldLog.{present_stations};
ghost use Rattle.bus_law_messages.specs.Settled.{Settled, NoneTakes, NoneStarts};
ghost use Rattle.bus_law_table.specs.Stations.{ArePresent, HeardNothing};
ghost use Rattle.bus_law_table.specs.Happened.{blocks_found};

/// Before the first tick the stations of a run's beginning are those that are present, and the terminal of the station in control has heard nothing.
/// At every lag.
pub fn the_first_stations_are_present()
    ensures stations { (k : ℕ) (plan : PlanData) (loads : List TimedLoad) (outside : List OutsideTake) (absent : List ℕ) →
        ArePresent k plan loads outside absent (trace k plan loads outside absent 0).shown
        (map (first_present plan) (present_stations k plan loads outside absent)) }
    ensures unheard { (k : ℕ) (plan : PlanData) (loads : List TimedLoad) (outside : List OutsideTake) (absent : List ℕ) (holder : StationData) →
        HeardNothing k holder (starts plan holder) loads outside (trace k plan loads outside absent 0).shown }
{}

/// From a settled moment until the next message starts the stations of the table stay those that are present, no block is taken, no burst ends, and
/// the terminal of the station in control hears nothing. At every lag, for any loads, with any stations absent.
pub fn a_pause_changes_no_station()
    ensures { (k : ℕ) (plan : PlanData) (loads : List TimedLoad) (outside : List OutsideTake) (absent : List ℕ) (t place : ℕ) (holder : StationData)
        (stations : List Present) (n : ℕ) → let before : Trace = trace k plan loads outside absent t in
        let after : Trace = trace k plan loads outside absent (t + n) in
        let c : Course = course_after k holder (starts plan holder) loads outside before.shown in
        Settled k plan loads outside absent before place holder → HeardNothing k holder (starts plan holder) loads outside before.shown →
        NoneStarts c before.shown n → NoneTakes k plan loads outside place t (t + n) → ArePresent k plan loads outside absent before.shown stations →
        ArePresent k plan loads outside absent after.shown stations
        × HeardNothing k holder (starts plan holder) loads outside after.shown
        × (blocks_found k plan loads outside absent after.shown ≡ blocks_found k plan loads outside absent before.shown)
        × (bursts k after.shown ≡ bursts k before.shown) }
{}
