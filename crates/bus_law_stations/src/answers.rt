//! When a terminal answers. Laws alone, each the contract of an empty function.

ghost use Rattle.std.specs.Prelude.{◌≡◌, ℕ, suc, ◌+◌, ◌<◌, Bool, true, false, List, [], ◌∷◌, ◌++◌, length, Some, None};
ghost use Rattle.bus_base.specs.Samples.{other_of};
ghost use Rattle.bus_base.specs.declared.samples.Channel.{Channel};
ghost use Rattle.bus_base.specs.declared.samples.Part.TheVariants.{First, Second};
ghost use Rattle.bus_line.specs.Past.{Burst, end_of, rest_of, runs, ended_now};
ghost use Rattle.bus_formats.specs.Plans.{TerminalData};
ghost use Rattle.bus_model.specs.Memory.{Memory, TimedLoad};
ghost use Rattle.bus_model.specs.Orders.{Obeyed, Order, last_order, due_after, promises};
ghost use Rattle.bus_model.specs.Hearing.{Moment, heard_on};
ghost use Rattle.bus_model.specs.Standing.{is_owed, superseded};
ghost use Rattle.bus_model.specs.Terminal.{standing};
ghost use Rattle.bus_law_stations.specs.Silence.{quiet_moments};
ghost use Rattle.bus_law_stations.specs.Legs.{IsUnheeded, HearsBurst, IsReady, BeginsAnswer, obeyed_in, settled_in};

/// A command whose order leaves an answer is answered: where both channels stay quiet after it, the answer begins in the tick in which it is due,
/// as many dead ticks after the end of the command's burst as the terminal's delay has (response time, MIL-STD-1553B 4.3.3.8). At every lag below
/// a slot's forty ticks.
pub fn an_obeyed_command_is_answered_when_due()
    ensures { (k : ℕ) (terminal : TerminalData) (loads : List TimedLoad) (memory : Memory) (c : Channel) (heard ticks : List Moment) (now : Moment)
        (burst : Burst) (order : Order) (mays : List Bool) → k < 40 → let s = standing k terminal loads memory heard in
        let o : Obeyed = obeyed_in terminal loads (length (ticks ++ heard)) s c order (rest_of burst) now.has_items in
        let later : List Moment = quiet_moments mays ++ (now ∷ (ticks ++ heard)) in
        IsReady k terminal s c heard → HearsBurst k terminal s c heard ticks → IsUnheeded k terminal s (other_of c) (now ∷ (ticks ++ heard)) →
        ended_now k (heard_on c (now ∷ (ticks ++ heard))) ≡ Some burst → last_order terminal.address burst.slots ≡ Some order → is_owed o.duty ≡ true →
        runs k (heard_on (other_of c) (now ∷ (ticks ++ heard))) ≡ false → length later ≡ due_after terminal (end_of burst) →
        BeginsAnswer k terminal (standing k terminal loads memory later) c later
        × ((standing k terminal loads memory later).duty ≡ o.duty) × ((standing k terminal loads memory later).part ≡ First) }
{}

/// Likewise a burst that settles a promise and leaves an answer. At every lag below a slot's forty ticks.
pub fn a_settled_promise_is_answered_when_due()
    ensures { (k : ℕ) (terminal : TerminalData) (loads : List TimedLoad) (memory : Memory) (c : Channel) (heard ticks : List Moment) (now : Moment)
        (burst : Burst) (command transmitter : ℕ) (mays : List Bool) → k < 40 → let s = standing k terminal loads memory heard in
        let o : Obeyed = settled_in terminal loads (length (ticks ++ heard)) s c command transmitter burst in
        let later : List Moment = quiet_moments mays ++ (now ∷ (ticks ++ heard)) in
        IsReady k terminal s c heard → HearsBurst k terminal s c heard ticks → IsUnheeded k terminal s (other_of c) (now ∷ (ticks ++ heard)) →
        ended_now k (heard_on c (now ∷ (ticks ++ heard))) ≡ Some burst → last_order terminal.address burst.slots ≡ None →
        s.duty ≡ promises command transmitter → superseded k s ≡ false → is_owed o.duty ≡ true →
        runs k (heard_on (other_of c) (now ∷ (ticks ++ heard))) ≡ false → length later ≡ due_after terminal (end_of burst) →
        BeginsAnswer k terminal (standing k terminal loads memory later) c later
        × ((standing k terminal loads memory later).duty ≡ o.duty) × ((standing k terminal loads memory later).part ≡ Second) }
{}
