//! From a tick to a later one. Laws alone, each the contract of an empty function.

ghost use Rattle.std.specs.Prelude.{◌≡◌, ℕ, ◌+◌, List, ◌++◌};
ghost use Rattle.bus_base.specs.Samples.{quiet_pairs};
ghost use Rattle.bus_formats.specs.Plans.{PlanData};
ghost use Rattle.bus_model.specs.Control.{OutsideTake};
ghost use Rattle.bus_model.specs.Memory.{TimedLoad};
ghost use Rattle.bus_law_phases.specs.Scenarios.{Scenario, whole_scenario, trace_at, shown_at, NoneTakesFrom, StaysFrom, IsWhole};
ghost use Rattle.bus_law_phases.specs.Passages.{HoldsAlone, Happening, Passage, followed_by, nothing_happens};
ghost use Rattle.bus_law_phases.specs.Silences.{AllRest, IsQuiet, GoesOnTo};

/// What came to pass up to a tick and from it on came to pass one after the other; in no ticks nothing did.
pub fn passages_follow_one_another()
    ensures joined { (w : Scenario) (t u v : ℕ) (first later : Happening) → Passage w t u first → Passage w u v later →
        Passage w t v (followed_by first later) }
    ensures none { (w : Scenario) (t : ℕ) → Passage w t t nothing_happens }
{}

/// A bus on which the same stations are absent from the first tick on stays so from each tick on from which no other one takes control by itself.
pub fn a_bus_stays_as_it_begins()
    ensures whole { (k : ℕ) (plan : PlanData) (loads : List TimedLoad) (outside : List OutsideTake) (absent : List ℕ) →
        NoneTakesFrom (whole_scenario k plan loads outside absent) 0 → IsWhole (whole_scenario k plan loads outside absent) }
    ensures stays { (k : ℕ) (plan : PlanData) (loads : List TimedLoad) (outside : List OutsideTake) (absent : List ℕ) (a : ℕ) →
        NoneTakesFrom (whole_scenario k plan loads outside absent) a → StaysFrom (whole_scenario k plan loads outside absent) a }
{}

/// Where no burst runs, no extra is left to show, one station holds control, and nothing is due of any station in the next n ticks, both channels
/// are quiet for so long, and nothing comes to pass: no block is taken, no burst ends, no attempt ends and none begins; each tick is in order.
/// At every lag, for any loads, with any stations absent.
pub fn nothing_happens_in_silence()
    ensures { (w : Scenario) (t n : ℕ) → StaysFrom w t → IsQuiet w (trace_at w t) → AllRest w (shown_at w t) n → HoldsAlone w (shown_at w t) →
        GoesOnTo w (shown_at w t) (t + n) →
        (shown_at w (t + n) ≡ quiet_pairs n ++ shown_at w t) × IsQuiet w (trace_at w (t + n)) × HoldsAlone w (shown_at w (t + n))
        × Passage w t (t + n) nothing_happens }
{}
