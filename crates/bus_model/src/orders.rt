//! The orders that a terminal handles. Laws alone, each the contract of an empty function.

ghost use Rattle.std.specs.Prelude.{◌≡◌, ◌⊎◌, ℕ, ◌<◌, List, ◌∷◌, Some, None};
ghost use Rattle.bus_base.specs.declared.samples.Channel.TheVariants.{A, B};
ghost use Rattle.bus_formats.specs.Plans.{TerminalData};
ghost use Rattle.bus_model.specs.Memory.{Memory, TimedLoad};
ghost use Rattle.bus_model.specs.Hearing.{Moment};
ghost use Rattle.bus_model.specs.Standing.{Handled};
ghost use Rattle.bus_model.specs.Terminal.{standing, order_on, running_out};

/// In a tick at most one of the two channels brings a command that is obeyed or a burst that is taken for a promise, whatever was heard before
/// (superseding commands, MIL-STD-1553B 4.4.3.2): which channel is looked at first makes no difference. And where a promise runs out neither
/// channel brings one. The lag is shorter than a word, and than the wait for a promise.
pub fn at_most_one_order_a_tick()
    ensures channels { (k : ℕ) (terminal : TerminalData) (loads : List TimedLoad) (memory : Memory) (now : Moment) (past : List Moment) → k < 40 →
        (order_on k terminal (now ∷ past) (standing k terminal loads memory past) A ≡ None)
        ⊎ (order_on k terminal (now ∷ past) (standing k terminal loads memory past) B ≡ None) }
    ensures alone { (k : ℕ) (terminal : TerminalData) (loads : List TimedLoad) (memory : Memory) (now : Moment) (past : List Moment)
        (handled : Handled) → k < 30 → running_out k terminal (now ∷ past) (standing k terminal loads memory past) ≡ Some handled →
        (order_on k terminal (now ∷ past) (standing k terminal loads memory past) A ≡ None)
        × (order_on k terminal (now ∷ past) (standing k terminal loads memory past) B ≡ None) }
{}
