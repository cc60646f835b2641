//! When a standby begins. Laws alone, each the contract of an empty function.
ghost use Rattle.std.specs.List.{AllByRecursion as Each};
ghost use Rattle.std.specs.Prelude.{◌≡◌, ◌≤◌, ◌+◌, ℕ, List, Option, Some, IfSome, length};
ghost use Rattle.bus_base.specs.declared.samples.Channel.{Channel};
ghost use Rattle.bus_formats.specs.Plans.{ItemData, PlanData};
ghost use Rattle.bus_formats.specs.declared.fault.Fault.{Fault};
ghost use Rattle.bus_model.specs.Memory.{TimedLoad};
ghost use Rattle.bus_model.specs.Message.{Present, message};
ghost use Rattle.bus_model.specs.Outside.{primary_run, stop_tick};
ghost use Rattle.bus_model.specs.Strikes.{ShownAnswer};
ghost use Rattle.bus_standby.specs.Inputs.{MayStandBy};
ghost use Rattle.bus_standby.specs.Takeover.{table_log};
ghost use Rattle.bus_standby.specs.Without.{DoesNotServe, message_without, without};

/// By the message table a standby begins when the primary is surely stopped: 40 ticks at least after the tick in which the primary would have begun the attempt that it
/// left out. At every lag up to 3, whatever the plan's faults.
pub fn a_standby_begins_after_the_primary_stopped()
    ensures { (k : ℕ) (plan : PlanData) (address attempt : ℕ) → k ≤ 3 → MayStandBy plan address attempt →
        IfSome (table_log k plan address attempt).stop (λ stop. stop.0 + 40 ≤ (table_log k plan address attempt).taken.0) }
{}

/// Where the primary stops it has ended all the attempts before the one that it left out, so that the standby's first attempt has that number.
pub fn the_primary_ended_the_attempts_before()
    ensures { (k : ℕ) (plan : PlanData) (attempt tick : ℕ) → 1 ≤ attempt → stop_tick k plan attempt ≡ Some tick →
        length (primary_run k plan attempt).attempts + 1 ≡ attempt }
{}

/// A station that doesn't serve, as a primary after the takeover, changes nothing in a message: the message without it has the same ending, blocks and bursts, and leaves
/// the same other stations.
pub fn a_station_that_does_not_serve_changes_no_message()
    ensures { (k : ℕ) (loads : List TimedLoad) (faults : List Fault) (n : ℕ) (item : ItemData) (on : Option ShownAnswer) (channel : Channel) (start : ℕ)
        (stations : List Present) (address : ℕ) → Each (DoesNotServe address) stations →
        message k loads faults n item on channel start (without address stations)
        ≡ message_without address (message k loads faults n item on channel start stations) }
{}
