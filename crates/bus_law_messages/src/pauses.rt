//! The world between two messages. Laws alone, each the contract of an empty function.

ghost use Rattle.std.specs.Prelude.{◌≡◌, ◌≢◌, ℕ, ◌+◌, true, false, List, ◌++◌, slice_get, Some};
ghost use Rattle.bus_formats.specs.Plans.{StationData, PlanData};
ghost use Rattle.bus_model.specs.Memory.{TimedLoad};
ghost use Rattle.bus_model.specs.Starts.{starts};
ghost use Rattle.bus_model.specs.Course.{Course, quiet_from};
ghost use Rattle.bus_model.specs.Control.{OutsideTake, course_after};
ghost use Rattle.bus_model.specs.World.{Trace, is_present, trace};
ghost use Rattle.bus_base.specs.Samples.{quiet_pairs};
ghost use Rattle.bus_law_messages.specs.Settled.{Settled, NoneTakes, NoneStarts};

/// From a settled moment both channels are quiet until the next message starts, and each moment until then is settled: the station in control waits
/// as before. At every lag, for any loads, with any stations absent.
pub fn the_world_pauses_until_a_message_starts()
    ensures { (k : ℕ) (plan : PlanData) (loads : List TimedLoad) (outside : List OutsideTake) (absent : List ℕ) (t place : ℕ) (holder : StationData)
        (n : ℕ) → let before : Trace = trace k plan loads outside absent t in let after : Trace = trace k plan loads outside absent (t + n) in
        let c : Course = course_after k holder (starts plan holder) loads outside before.shown in
        Settled k plan loads outside absent before place holder → NoneStarts c before.shown n → NoneTakes k plan loads outside place t (t + n) →
        (after.shown ≡ quiet_pairs n ++ before.shown) × Settled k plan loads outside absent after place holder
        × (course_after k holder (starts plan holder) loads outside after.shown ≡ c) × (quiet_from after.shown ≡ quiet_from before.shown) }
{}

/// Before the first tick the world is settled, where one station, which is present, starts with control. At every lag.
pub fn the_world_begins_settled()
    ensures { (k : ℕ) (plan : PlanData) (loads : List TimedLoad) (outside : List OutsideTake) (absent : List ℕ) (place : ℕ) (holder : StationData) →
        slice_get plan.stations place ≡ Some holder → is_present absent holder ≡ true → starts plan holder ≡ true →
        ((other : ℕ) (station : StationData) → slice_get plan.stations other ≡ Some station → other ≢ place → starts plan station ≡ false) →
        Settled k plan loads outside absent (trace k plan loads outside absent 0) place holder }
{}
