//! Which stations and items each run of an accepted plan has. Laws alone, each the contract of an empty function.

ghost use Rattle.std.specs.Prelude.{◌≡◌, ℕ, ◌==◌, not, List, slice_get, Some, None};
ghost use Rattle.bus_formats.specs.Accepted.{IsAccepted};
ghost use Rattle.bus_formats.specs.Plans.{StationData, PlanData};
ghost use Rattle.bus_model.specs.Memory.{TimedLoad};
ghost use Rattle.bus_model.specs.Message.{Present};
ghost use Rattle.bus_model.specs.Run.{Run, Next, next_item, first_run, attempt, attempts_after};
ghost use Rattle.bus_law_plans.specs.Entries.{AreNamedApart, IsStationOf, IsRunOf, IsRunAmong, IsNext, KeepsSuperseding, IsFinished};

/// The run of an accepted plan is one of the plan: its stations are those of the plan in their order; what is left of each is a rest of its agenda,
/// of which each entry is within its ranges and may be sent by it, and one that may be abandoned is followed by one that supersedes it; exactly the
/// station that holds control doesn't serve; and one that takes control has an item left. So it is at the beginning, an attempt keeps it so, and
/// so it is after any number of attempts, at every lag, for any loads. An attempt keeps it so of a run by some stations of the plan, too.
pub fn entries_are_of_the_plan()
    ensures first { (plan : PlanData) → IsAccepted plan → IsRunOf plan (first_run plan) }
    ensures next { (k : ℕ) (plan : PlanData) (loads : List TimedLoad) (run : Run) → IsAccepted plan → IsRunOf plan run →
        IsRunOf plan (attempt k loads plan.faults run) }
    ensures each { (k : ℕ) (plan : PlanData) (loads : List TimedLoad) (n : ℕ) → IsAccepted plan →
        IsRunOf plan (attempts_after k loads plan.faults n (first_run plan)) }
    ensures among { (k : ℕ) (plan : PlanData) (loads : List TimedLoad) (own : List StationData) (run : Run) → AreNamedApart own →
        IsRunAmong plan own run → IsRunAmong plan own (attempt k loads plan.faults run) }
{}

/// The next item of a run is the first that is left of the station that holds control, and that station may send it.
pub fn the_next_item_may_be_sent()
    ensures { (plan : PlanData) (own : List StationData) (run : Run) (next : Next) → IsRunAmong plan own run → next_item run ≡ Some next →
        IsNext plan run next }
{}

/// While an abandoned answer runs on, and only then, the next message supersedes it: it starts in the tick after, on the other channel, it is no retry,
/// and it is a message to or from the terminal that answers, alone. So it is at the beginning, an attempt keeps it so, and so it is after any number of
/// attempts.
pub fn an_abandoned_answer_is_superseded_next()
    ensures first { (plan : PlanData) → KeepsSuperseding (first_run plan) }
    ensures next { (k : ℕ) (plan : PlanData) (loads : List TimedLoad) (own : List StationData) (run : Run) → IsAccepted plan → IsRunAmong plan own run →
        KeepsSuperseding run → KeepsSuperseding (attempt k loads plan.faults run) }
    ensures each { (k : ℕ) (plan : PlanData) (loads : List TimedLoad) (n : ℕ) → IsAccepted plan →
        KeepsSuperseding (attempts_after k loads plan.faults n (first_run plan)) }
{}

/// Each station of the plan stands at its place in the run.
pub fn a_station_keeps_its_place()
    ensures { (plan : PlanData) (run : Run) (i : ℕ) (own : StationData) → IsRunOf plan run → slice_get plan.stations i ≡ Some own →
        (s : Present) × (slice_get run.stations i ≡ Some s) × IsStationOf plan (not (own.terminal.address == run.holder)) own s }
{}

/// A run without a next item is finished: the station that holds control has nothing left, no abandoned answer runs on, and nobody takes control.
pub fn a_run_without_a_next_item_is_finished()
    ensures { (plan : PlanData) (own : List StationData) (run : Run) → IsRunAmong plan own run → KeepsSuperseding run → next_item run ≡ None →
        IsFinished run }
{}
