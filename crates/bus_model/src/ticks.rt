//! How the world goes on: one tick after the other, and by nothing that is still to come. Laws alone, each the contract of an empty function.

ghost use Rattle.std.specs.Prelude.{◌≡◌, ℕ, suc, ◌<◌, Bool, List, [], ◌∷◌, ◌++◌, length};
ghost use Rattle.bus_base.specs.declared.samples.Pair.{Pair};
ghost use Rattle.bus_formats.specs.Plans.{StationData, PlanData};
ghost use Rattle.bus_model.specs.Memory.{TimedLoad};
ghost use Rattle.bus_model.specs.Course.{Take, course};
ghost use Rattle.bus_model.specs.Control.{OutsideTake};
ghost use Rattle.bus_model.specs.Wire.{shown};
ghost use Rattle.bus_model.specs.World.{world, trace, drives_after};

/// A tick more of the world is one tick more on the wire: what it shows of all that was driven, and of what the stations drive after what
/// was shown. What was shown before stays.
pub fn the_world_grows_by_one_tick()
    ensures shows { (k : ℕ) (plan : PlanData) (loads : List TimedLoad) (outside : List OutsideTake) (absent : List ℕ) (t : ℕ) →
        world k plan loads outside absent (suc t)
        ≡ shown plan.faults (drives_after k plan loads outside absent (world k plan loads outside absent t)
        ∷ (trace k plan loads outside absent t).driven)
        ∷ world k plan loads outside absent t }
    ensures shown_so_long { (k : ℕ) (plan : PlanData) (loads : List TimedLoad) (outside : List OutsideTake) (absent : List ℕ) (t : ℕ) →
        length (world k plan loads outside absent t) ≡ t }
    ensures driven_so_long { (k : ℕ) (plan : PlanData) (loads : List TimedLoad) (outside : List OutsideTake) (absent : List ℕ) (t : ℕ) →
        length (trace k plan loads outside absent t).driven ≡ t }
{}

/// Control that a station takes later than in the ticks that its controller heard changes nothing in what the controller did.
pub fn later_takes_change_nothing()
    ensures { (k : ℕ) (station : StationData) (starts : Bool) (takes : List Take) (take : Take) (past : List Pair) →
        length past < take.heard → course k station starts (takes ++ take ∷ []) past ≡ course k station starts takes past }
{}
