//! What a terminal does of a burst. Laws alone, each the contract of an empty function.

ghost use Rattle.std.specs.Prelude.{◌≡◌, ℕ, suc, ◌<◌, ◌≤◌, Bool, false, List, [], ◌∷◌, ◌++◌, length, Option, Some, None};
ghost use Rattle.bus_base.specs.Samples.{other_of};
ghost use Rattle.bus_base.specs.declared.samples.Channel.{Channel};
ghost use Rattle.bus_base.specs.declared.samples.Drive.TheVariants.{Silent};
ghost use Rattle.bus_words.specs.declared.word.Word.{Word};
ghost use Rattle.bus_line.specs.Past.{Burst, end_of, rest_of, quiet_ticks, runs, ended_now};
ghost use Rattle.bus_formats.specs.Plans.{TerminalData};
ghost use Rattle.bus_model.specs.Memory.{Memory, TimedLoad};
ghost use Rattle.bus_model.specs.Orders.{Obeyed, Order, last_order, owes, promises};
ghost use Rattle.bus_model.specs.Hearing.{Moment, heard_on};
ghost use Rattle.bus_model.specs.Sending.{drive_sample};
ghost use Rattle.bus_model.specs.Standing.{Standing, is_owed, is_promise, superseded};
ghost use Rattle.bus_model.specs.Terminal.{standing, drives, took_now};
ghost use Rattle.bus_law_stations.specs.Legs.{IsUnheeded, AreUnheeded, HearsBurst, IsReady, BeginsAnswer, with_addressed, with_sent, obeyed_in, settled_in, after_command, after_promise};

/// On a channel that is quiet, and on which no burst runs, nothing counts for a terminal. At every lag.
pub fn a_quiet_channel_is_not_heeded()
    ensures { (k : ℕ) (terminal : TerminalData) (s : Standing) (c : Channel) (heard ticks : List Moment) → runs k (heard_on c heard) ≡ false →
        heard_on c ticks ≡ quiet_ticks (length ticks) → AreUnheeded k terminal s c heard ticks }
{}

/// While a burst runs nothing changes of a terminal but that addressed slots are marked, and if it owes no answer it sends nothing. At every lag
/// below a slot's forty ticks.
pub fn a_running_burst_changes_only_marks()
    ensures stands { (k : ℕ) (terminal : TerminalData) (loads : List TimedLoad) (memory : Memory) (c : Channel) (heard ticks : List Moment) → k < 40 →
        IsReady k terminal (standing k terminal loads memory heard) c heard →
        HearsBurst k terminal (standing k terminal loads memory heard) c heard ticks →
        (mark : Option ℕ) × (standing k terminal loads memory (ticks ++ heard) ≡ with_addressed (standing k terminal loads memory heard) c mark) }
    ensures silent { (k : ℕ) (terminal : TerminalData) (loads : List TimedLoad) (memory : Memory) (c : Channel) (heard ticks : List Moment) → k < 40 →
        IsReady k terminal (standing k terminal loads memory heard) c heard →
        HearsBurst k terminal (standing k terminal loads memory heard) c heard ticks → is_owed (standing k terminal loads memory heard).duty ≡ false →
        drives k terminal loads record { memory = memory; ticks = ticks ++ heard } ≡ Silent }
{}

/// When the end of a burst becomes known to a terminal that is ready for it: the last command in it that is for the terminal is obeyed with the
/// slots after it, whatever struck them; a burst without one settles the promise that stands; and else nothing changes. At every lag
/// below a slot's forty ticks.
pub fn a_burst_is_obeyed_or_taken()
    ensures obeyed { (k : ℕ) (terminal : TerminalData) (loads : List TimedLoad) (memory : Memory) (c : Channel) (heard ticks : List Moment) (now : Moment)
        (burst : Burst) (order : Order) → k < 40 → let s = standing k terminal loads memory heard in
        let o : Obeyed = obeyed_in terminal loads (length (ticks ++ heard)) s c order (rest_of burst) now.has_items in
        IsReady k terminal s c heard → HearsBurst k terminal s c heard ticks → IsUnheeded k terminal s (other_of c) (now ∷ (ticks ++ heard)) →
        ended_now k (heard_on c (now ∷ (ticks ++ heard))) ≡ Some burst → last_order terminal.address burst.slots ≡ Some order →
        ((slot_end : ℕ) × (length heard ≤ slot_end) × (slot_end < length (ticks ++ heard))
        × (standing k terminal loads memory (now ∷ (ticks ++ heard)) ≡ after_command s c (end_of burst) slot_end o)
        × (took_now k terminal loads record { memory = memory; ticks = now ∷ (ticks ++ heard) } ≡ o.taken)) }
    ensures settled { (k : ℕ) (terminal : TerminalData) (loads : List TimedLoad) (memory : Memory) (c : Channel) (heard ticks : List Moment) (now : Moment)
        (burst : Burst) (command transmitter : ℕ) → k < 40 → let s = standing k terminal loads memory heard in
        let o : Obeyed = settled_in terminal loads (length (ticks ++ heard)) s c command transmitter burst in
        IsReady k terminal s c heard → HearsBurst k terminal s c heard ticks → IsUnheeded k terminal s (other_of c) (now ∷ (ticks ++ heard)) →
        ended_now k (heard_on c (now ∷ (ticks ++ heard))) ≡ Some burst → last_order terminal.address burst.slots ≡ None →
        s.duty ≡ promises command transmitter → superseded k s ≡ false →
        (standing k terminal loads memory (now ∷ (ticks ++ heard)) ≡ after_promise s (end_of burst) o)
        × (took_now k terminal loads record { memory = memory; ticks = now ∷ (ticks ++ heard) } ≡ o.taken) }
    ensures passed { (k : ℕ) (terminal : TerminalData) (loads : List TimedLoad) (memory : Memory) (c : Channel) (heard ticks : List Moment) (now : Moment)
        (burst : Burst) → k < 40 → let s = standing k terminal loads memory heard in
        IsReady k terminal s c heard → HearsBurst k terminal s c heard ticks → IsUnheeded k terminal s (other_of c) (now ∷ (ticks ++ heard)) →
        ended_now k (heard_on c (now ∷ (ticks ++ heard))) ≡ Some burst → last_order terminal.address burst.slots ≡ None → is_promise s.duty ≡ false →
        (standing k terminal loads memory (now ∷ (ticks ++ heard)) ≡ s)
        × (took_now k terminal loads record { memory = memory; ticks = now ∷ (ticks ++ heard) } ≡ None) }
{}

/// A terminal that answers sends its words, sample by sample, while its channel isn't quiet for k + 1 ticks in a row, whatever is shown of them;
/// and it ignores them, to the tick in which their end becomes known: nothing changes of it but that its transmission is marked. At every lag.
pub fn a_sender_ignores_what_it_sends()
    ensures sends { (k : ℕ) (terminal : TerminalData) (loads : List TimedLoad) (memory : Memory) (c : Channel) (heard ticks : List Moment)
        (words : List Word) (acceptance : Bool) → let s = standing k terminal loads memory heard in
        BeginsAnswer k terminal s c heard → HearsBurst k terminal s c heard ticks → s.duty ≡ owes words acceptance →
        drives k terminal loads record { memory = memory; ticks = ticks ++ heard } ≡ drive_sample c s.part words (length ticks) }
    ensures stands { (k : ℕ) (terminal : TerminalData) (loads : List TimedLoad) (memory : Memory) (c : Channel) (heard ticks : List Moment) (first : Moment) →
        let s = standing k terminal loads memory heard in BeginsAnswer k terminal s c heard → HearsBurst k terminal s c heard (first ∷ ticks) →
        standing k terminal loads memory ((first ∷ ticks) ++ heard) ≡ with_sent s c (Some (length heard)) }
    ensures ends { (k : ℕ) (terminal : TerminalData) (loads : List TimedLoad) (memory : Memory) (c : Channel) (heard ticks : List Moment) (now first : Moment) →
        let s = standing k terminal loads memory heard in BeginsAnswer k terminal s c heard → HearsBurst k terminal s c heard (first ∷ ticks) →
        IsUnheeded k terminal s (other_of c) (now ∷ ((first ∷ ticks) ++ heard)) →
        standing k terminal loads memory (now ∷ ((first ∷ ticks) ++ heard)) ≡ with_sent s c (Some (length heard)) }
{}
