//! What the stations of a plan have, by which a station may be made of each, and what is done to others.
ghost use Rattle.std.specs.Prelude.{◌≡◌, ◌≢◌, ◌++◌, ◌∷◌, [], Bool, List, All};
ghost use Rattle.bus_base.specs.declared.samples.Pair.{Pair};
ghost use Rattle.bus_line.specs.declared.cutter.TheConstants.{LAG};
ghost use Rattle.bus_receiver.specs.declared.cutters.Cutters.{Cutters};
ghost use Rattle.bus_formats.specs.Plans.{StationData, PlanData};
ghost use Rattle.bus_formats.specs.Accepted.{IsAccepted};
ghost use Rattle.bus_model.specs.Memory.{TimedLoad};
ghost use Rattle.bus_model.specs.Control.{OutsideTake};
ghost use Rattle.bus_station.specs.Fits.{StationFits};
ghost use Rattle.bus_station.specs.Listening.{InStep};
ghost use Rattle.bus_station.specs.StationStands.{StationKeeps};
ghost use Rattle.bus_station.specs.declared.station.Station.{Station};

/// Each station of an accepted plan has the ranges and limits that a station rests on.
pub fn the_stations_of_an_accepted_plan_fit()
    ensures { (plan : PlanData) → IsAccepted plan → All StationFits plan.stations }
{}

/// A block that is put up for sending under another address changes nothing of a station.
pub fn a_load_elsewhere_changes_nothing()
    ensures keeps { (plan : StationData) (starts : Bool) (loads : List TimedLoad) (outside : List OutsideTake) (load : TimedLoad) (value : Station)
        (past : List Pair) → load.address ≢ plan.terminal.address → StationKeeps LAG plan starts loads outside value past →
        StationKeeps LAG plan starts (loads ++ load ∷ []) outside value past }
    ensures in_step { (plan : StationData) (starts : Bool) (loads : List TimedLoad) (outside : List OutsideTake) (load : TimedLoad) (value : Station)
        (bus : Cutters) (past : List Pair) → load.address ≢ plan.terminal.address → InStep LAG plan starts loads outside value bus past →
        InStep LAG plan starts (loads ++ load ∷ []) outside value bus past }
{}
