//! Which blocks the messages of a run deliver. Laws alone, each the contract of an empty function.

ghost use Rattle.std.specs.Prelude.{◌≡◌, ℕ, true, List, Some};
ghost use Rattle.std.specs.List.{AllByRecursion};
ghost use Rattle.bus_formats.specs.Accepted.{IsAccepted};
ghost use Rattle.bus_formats.specs.Plans.{PlanData};
ghost use Rattle.bus_model.specs.Memory.{TimedLoad};
ghost use Rattle.bus_model.specs.Run.{Run, Next, next_item, first_run, attempts_after};
ghost use Rattle.bus_law_plans.specs.Entries.{IsRunOf};
ghost use Rattle.bus_law_plans.specs.Sent.{begun_of, DeliversWhole, IsDeliveredIn};

/// Where no fault deceives the count of an answer's words, each block that the next message of a run delivers is the one that was sent, whole: the
/// item's own words, or those that a relay's transmitter sends. It comes to a terminal and a subaddress that the message names, in the tick in
/// which the end of the burst that carried it is known, on its channel. So each block of a run was delivered, by one of its attempts. At every lag,
/// for any loads.
pub fn deliveries_are_sent_blocks()
    ensures next { (k : ℕ) (plan : PlanData) (loads : List TimedLoad) (run : Run) (next : Next) → IsAccepted plan → IsRunOf plan run →
        next_item run ≡ Some next → DeliversWhole k loads plan.faults run (begun_of run next) }
    ensures each { (k : ℕ) (plan : PlanData) (loads : List TimedLoad) (n : ℕ) → IsAccepted plan →
        (attempts_after k loads plan.faults n (first_run plan)).counted ≡ true →
        AllByRecursion (IsDeliveredIn k loads plan n) (attempts_after k loads plan.faults n (first_run plan)).deliveries }
{}
