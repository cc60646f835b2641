//! What a verdict promises. A law alone, the contract of an empty function.

ghost use Rattle.std.specs.List.{AllByRecursion as Each};
ghost use Rattle.std.specs.Prelude.{◌≡◌, ◌≤◌, ℕ, List, None};
ghost use Rattle.bus_formats.specs.Accepted.{IsAccepted};
ghost use Rattle.bus_formats.specs.Plans.{PlanData};
ghost use Rattle.bus_load.specs.InTime.{AddsNone, FramesStartAsPlanned};
ghost use Rattle.bus_load.specs.Living.{IsAlwaysContinued};
ghost use Rattle.bus_load.specs.Load.{first_offer, starting, verdict};
ghost use Rattle.bus_load.specs.declared.reckoned.Verdict.TheVariants.{Long, Short};
ghost use Rattle.bus_model.specs.Memory.{TimedLoad};
ghost use Rattle.bus_model.specs.Outside.{longest_quiet, entries_of};

/// Where the frames of the station that starts fit in the long reckoning, and it offers no control, each frame starts as planned in the run of the plan by the
/// message table, whatever its faults; where they fit in the short one, whatever its faults, unless one adds words. At every lag up to 3, for any loads.
pub fn each_frame_starts_as_planned()
    ensures long { (k : ℕ) (plan : PlanData) (loads : List TimedLoad) → k ≤ 3 → IsAccepted plan → first_offer plan ≡ None → verdict plan ≡ Long →
        FramesStartAsPlanned k loads plan }
    ensures short { (k : ℕ) (plan : PlanData) (loads : List TimedLoad) → k ≤ 3 → IsAccepted plan → first_offer plan ≡ None → verdict plan ≡ Short →
        Each AddsNone plan.faults → FramesStartAsPlanned k loads plan }
{}

/// While the station that starts, which offers no control, has items left, both channels are quiet at most so long between its messages as its agenda says: each
/// attempt begins at most so many ticks after the end of all that was shown before, whatever the plan's faults. At every lag up to 3, for any loads.
pub fn a_living_controller_is_soon_heard()
    ensures { (k : ℕ) (plan : PlanData) (loads : List TimedLoad) → k ≤ 3 → IsAccepted plan → first_offer plan ≡ None →
        IsAlwaysContinued k loads plan (longest_quiet (entries_of (starting plan))) }
{}
