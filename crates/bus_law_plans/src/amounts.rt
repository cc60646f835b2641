//! How many attempts and ticks the agenda of a station has. Laws alone, each the contract of an empty function.

ghost use Rattle.std.specs.Prelude.{◌≡◌, ◌≤◌, sum_by};
ghost use Rattle.bus_formats.specs.Accepted.{IsAccepted};
ghost use Rattle.bus_formats.specs.Plans.{StationData, PlanData};
ghost use Rattle.bus_model.specs.Run.{most_attempts};
ghost use Rattle.bus_law_plans.specs.Amounts.{station_attempts, station_ticks, HasAmounts};

/// The items of an agenda can have as many attempts as those of its frames, times how often these are repeated. Entry by entry the ticks of the
/// frames before don't fall, and they are never more than those of all frames, repeated as often. An accepted
/// plan has at most 65,536 attempts and 2,048,000,000 ticks of frames.
pub fn an_agenda_has_so_many_attempts()
    ensures agenda { (station : StationData) → HasAmounts station }
    ensures plan { (plan : PlanData) → most_attempts plan ≡ sum_by station_attempts plan.stations }
    ensures few { (plan : PlanData) → IsAccepted plan → (sum_by station_attempts plan.stations ≤ 65536) × (sum_by station_ticks plan.stations ≤ 2048000000) }
{}
