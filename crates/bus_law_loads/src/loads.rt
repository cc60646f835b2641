//! Timed loads that are still to come. Laws alone, each the contract of an empty function.

ghost use Rattle.std.specs.Prelude.{◌≡◌, ◌≤◌, ℕ, suc, List, ◌++◌, length, Some};
ghost use Rattle.bus_base.specs.declared.samples.Pair.{Pair};
ghost use Rattle.bus_formats.specs.Plans.{PlanData, TerminalData};
ghost use Rattle.bus_model.specs.Control.{OutsideTake};
ghost use Rattle.bus_model.specs.Hearing.{Hearing};
ghost use Rattle.bus_model.specs.Memory.{TimedLoad};
ghost use Rattle.bus_model.specs.Orders.{Taken};
ghost use Rattle.bus_model.specs.Terminal.{took_now};
ghost use Rattle.bus_model.specs.World.{trace, run_is_over};
ghost use Rattle.bus_model.specs.WorldLog.{attempts};
ghost use Rattle.bus_law_loads.specs.Later.{AreFrom};

/// Blocks that are put up for sending in tick t or later change nothing up to the end of tick t: what the stations drive and the channels show, which
/// attempts end, and whether the run is over.
pub fn later_loads_change_nothing()
    ensures trace { (k : ℕ) (plan : PlanData) (loads later : List TimedLoad) (outside : List OutsideTake) (absent : List ℕ) (t n : ℕ) →
        AreFrom t later → n ≤ suc t → trace k plan (loads ++ later) outside absent n ≡ trace k plan loads outside absent n }
    ensures attempts { (k : ℕ) (plan : PlanData) (loads later : List TimedLoad) (outside : List OutsideTake) (absent : List ℕ) (t : ℕ) (past : List Pair) →
        AreFrom t later → length past ≤ suc t → attempts k plan (loads ++ later) outside absent past ≡ attempts k plan loads outside absent past }
    ensures over { (k : ℕ) (plan : PlanData) (loads later : List TimedLoad) (outside : List OutsideTake) (absent : List ℕ) (t n : ℕ) →
        AreFrom t later → n ≤ suc t → run_is_over k plan (loads ++ later) outside absent n ≡ run_is_over k plan loads outside absent n }
{}

/// A block that a terminal takes has words: a command that a block follows asks for 1 to 32 of them (MIL-STD-1553B 4.3.3.5.1.5).
pub fn a_block_that_is_taken_has_words()
    ensures { (k : ℕ) (terminal : TerminalData) (loads : List TimedLoad) (hearing : Hearing) (taken : Taken) →
        took_now k terminal loads hearing ≡ Some taken → 1 ≤ length taken.words }
{}
