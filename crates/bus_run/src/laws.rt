//! Laws of what terminals take, of the places of the objects, and of the room for what a run brings.
ghost use Rattle.std.specs.Prelude.{◌≡◌, ◌<◌, ◌≤◌, ℕ, Bool, List, [], length, slice_get, Some, All};
ghost use Rattle.bus_base.specs.declared.samples.Pair.{Pair};
ghost use Rattle.bus_line.specs.Channels.{bursts};
ghost use Rattle.bus_line.specs.declared.cutter.TheConstants.{LAG};
ghost use Rattle.bus_formats.specs.Accepted.{IsAccepted};
ghost use Rattle.bus_formats.specs.Plans.{StationData, PlanData, without_subsystems};
ghost use Rattle.bus_model.specs.Log.{delivered_to};
ghost use Rattle.bus_model.specs.Run as table;
ghost use Rattle.bus_model.specs.World.{world};
ghost use Rattle.bus_station.specs.Told.{delivered_newest};
ghost use Rattle.bus_law_run.specs.WorldIsRun.{plan_run, plan_end};
ghost use Rattle.bus_run.specs.Amounts.{most_attempts};
ghost use Rattle.bus_run.specs.Data.{IsForData};
ghost use Rattle.bus_run.specs.Deliveries.{deliveries, delivering, served};
ghost use Rattle.bus_run.specs.Tables.{HasRoomFor};
ghost use Rattle.bus_run.specs.Kept.{places};
ghost use Rattle.bus_run.specs.Places.{IsPlaceOf};

/// A terminal takes blocks of subaddresses of data alone.
pub fn a_delivery_is_for_data()
    ensures { (station : StationData) (starts : Bool) (past : List Pair) → IsForData (delivered_newest LAG station starts [] [] past) }
{}

/// Of 62 objects, the recorders of the addresses 0 to 30 and then the tallies, every plan names only such as are there.
pub fn sixty_two_objects_are_enough()
    ensures { (plan : PlanData) (n : ℕ) → 62 ≤ n → All (λ place. place < n) (places plan) }
{}

/// The object at each place is the one of the kind and address of the station that is served there.
pub fn each_object_is_of_its_station()
    ensures count { (plan : PlanData) → length (places plan) ≡ length (served plan) }
    ensures place { (plan : PlanData) (p : ℕ) (s : StationData) → slice_get (served plan) p ≡ Some s → IsPlaceOf s (slice_get (places plan) p) }
{}

/// A plan in which no station names a subsystem has no objects.
pub fn no_objects_without_subsystems()
    ensures places { (plan : PlanData) → places (without_subsystems plan) ≡ [] }
    ensures served { (plan : PlanData) → served (without_subsystems plan) ≡ [] }
{}

/// For each accepted plan room is made for as many attempts as its agendas have by the message table, and no run of it has more, nor more words, bursts
/// and ticks with a delivery than the room that is made for them. And in whatever world of whatever plan, terminals take blocks in no more ticks than
/// bursts are found.
pub fn all_that_a_run_brings_has_room()
    ensures attempts { (plan : PlanData) → IsAccepted plan → most_attempts plan ≡ table.most_attempts plan }
    ensures room { (plan : PlanData) (t : ℕ) → IsAccepted plan → t ≤ plan_end plan → HasRoomFor plan t }
    ensures deliveries { (plan : PlanData) (past : List Pair) → delivering plan past ≤ length (bursts LAG past) }
{}

/// In the whole run of an accepted plan each terminal takes, in order, the blocks that the message table delivers to it, and no others.
pub fn terminals_take_what_the_table_delivers()
    ensures { (plan : PlanData) (place : ℕ) (s : StationData) → IsAccepted plan → slice_get plan.stations place ≡ Some s →
        deliveries plan s (world LAG plan [] [] [] (plan_end plan)) ≡ delivered_to s.terminal.address (plan_run plan) }
{}
