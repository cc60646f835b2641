//! What a station that doesn't need each tick is between the ticks with which something becomes known. Laws alone, each the contract of an
//! empty function.
ghost use Rattle.std.specs.Prelude.{◌≡◌, ◌∷◌, Bool, true, false, List};
ghost use Rattle.bus_base.specs.declared.samples.Drive.TheVariants.{Silent};
ghost use Rattle.bus_base.specs.declared.samples.Pair.{Pair};
ghost use Rattle.bus_line.specs.declared.cutter.TheConstants.{LAG};
ghost use Rattle.bus_receiver.specs.Nothing.{are_nothing};
ghost use Rattle.bus_receiver.specs.declared.cutters.Cutters.{Cutters};
ghost use Rattle.bus_receiver.specs.declared.receiver.Moment.{Moment};
ghost use Rattle.bus_formats.specs.Plans.{StationData};
ghost use Rattle.bus_model.specs.Memory.{TimedLoad};
ghost use Rattle.bus_model.specs.Control.{OutsideTake, drives_next};
ghost use Rattle.bus_station.specs.Listening.{InStep, IsNext};
ghost use Rattle.bus_station.specs.Needs.{needs_each_tick};
ghost use Rattle.bus_station.specs.StationStands.{StationKeeps, AfterTick};
ghost use Rattle.bus_station.specs.declared.event.StationEvent.TheVariants.{Nothing};
ghost use Rattle.bus_station.specs.declared.station.Station.{Station};

/// A tick with which nothing becomes known leaves a station that doesn't need each tick as it is, and right for the longer past: no attempt ends in the
/// tick, its terminal takes no block, and it is in step with what a receiver hears of it.
pub fn a_tick_without_an_end_leaves_a_station()
    ensures tick { (plan : StationData) (starts : Bool) (loads : List TimedLoad) (outside : List OutsideTake) (value : Station) (moment : Moment)
        (past : List Pair) (before after : Cutters) → needs_each_tick value ≡ false → are_nothing moment.cuts ≡ true →
        StationKeeps LAG plan starts loads outside value past → InStep LAG plan starts loads outside value before past → IsNext LAG moment before after past →
        AfterTick LAG plan starts loads outside value Nothing moment.shown past }
    ensures in_step { (plan : StationData) (starts : Bool) (loads : List TimedLoad) (outside : List OutsideTake) (value : Station) (moment : Moment)
        (past : List Pair) (before after : Cutters) → needs_each_tick value ≡ false → are_nothing moment.cuts ≡ true →
        StationKeeps LAG plan starts loads outside value past → InStep LAG plan starts loads outside value before past → IsNext LAG moment before after past →
        InStep LAG plan starts loads outside value after (moment.shown ∷ past) }
{}

/// A station that doesn't need each tick sends nothing in the tick to come.
pub fn a_station_that_waits_is_silent()
    ensures { (plan : StationData) (starts : Bool) (loads : List TimedLoad) (outside : List OutsideTake) (value : Station) (past : List Pair) →
        needs_each_tick value ≡ false → StationKeeps LAG plan starts loads outside value past →
        drives_next LAG plan starts loads outside past ≡ Silent }
{}
