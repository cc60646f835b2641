//! An answer and a burst beside it on the other channel (superseding valid commands, MIL-STD-1553B 4.4.3.2). Laws alone, each the contract of an
//! empty function.

ghost use Rattle.std.specs.Prelude.{◌≡◌, ◌⊎◌, ℕ, ◌+◌, ◌-◌, ◌<◌, ◌≤◌, Bool, true, false, if◌then◌else◌, List, [], ◌∷◌, ◌++◌, length, Some, None, is_some};
ghost use Rattle.bus_base.specs.Samples.{other_of};
ghost use Rattle.bus_base.specs.declared.samples.Channel.{Channel};
ghost use Rattle.bus_base.specs.declared.samples.Sample.{Sample};
ghost use Rattle.bus_base.specs.declared.samples.Drive.TheVariants.{Silent};
ghost use Rattle.bus_words.specs.declared.word.Word.{Word};
ghost use Rattle.bus_line.specs.Past.{Burst, InLeg, runs, ended_now, end_since};
ghost use Rattle.bus_line.specs.Cutting.{running_slots};
ghost use Rattle.bus_formats.specs.Plans.{TerminalData};
ghost use Rattle.bus_model.specs.Memory.{Memory, TimedLoad};
ghost use Rattle.bus_model.specs.Orders.{owes, last_order, due_after};
ghost use Rattle.bus_model.specs.Hearing.{Moment, heard_on};
ghost use Rattle.bus_model.specs.Sending.{drive_sample};
ghost use Rattle.bus_model.specs.Standing.{Standing, mark_on, superseded, is_owed};
ghost use Rattle.bus_model.specs.Terminal.{given_up, is_over, drive_of, standing, drives, took_now};
ghost use Rattle.bus_law_stations.specs.Legs.{AreUnheeded, HearsBurst, IsReady};
ghost use Rattle.bus_law_control.specs.Answers.{HeedsNothing};

/// An answer is sent on beside a burst on the other channel until a slot ends there that is a command for its terminal, and no longer. At every lag
/// below a slot's forty ticks.
pub fn an_answer_is_sent_on_beside_a_burst()
    ensures beside { (k : ℕ) (terminal : TerminalData) (loads : List TimedLoad) (memory : Memory) (c : Channel) (heard ticks : List Moment)
        (words : List Word) (acceptance : Bool) → let s = standing k terminal loads memory heard in k < 40 →
        IsReady k terminal s c heard → HearsBurst k terminal s c heard ticks → s.duty ≡ owes words acceptance → s.channel ≡ other_of c →
        s.end + k ≤ length heard → given_up k terminal (heard_on (other_of c) heard) s ≡ false →
        end_since k (heard_on (other_of c) (ticks ++ heard)) (due_after terminal s.end) ≡ None →
        drives k terminal loads record { memory = memory; ticks = ticks ++ heard }
        ≡ (if is_some (last_order terminal.address (running_slots k (heard_on c (ticks ++ heard)))) then Silent
        else drive_sample (other_of c) s.part words (length (ticks ++ heard) - due_after terminal s.end)) }
    ensures sends { (k : ℕ) (terminal : TerminalData) (s : Standing) (past : List Moment) (words : List Word) (acceptance : Bool) →
        s.duty ≡ owes words acceptance → due_after terminal s.end ≤ length past → given_up k terminal (heard_on s.channel past) s ≡ false →
        end_since k (heard_on s.channel past) (due_after terminal s.end) ≡ None →
        drive_of k terminal past s ≡ drive_sample s.channel s.part words (length past - due_after terminal s.end) }
    ensures kept { (k : ℕ) (terminal : TerminalData) (s : Standing) (c : Channel) (heard ticks : List Moment) → due_after terminal s.end ≤ length heard →
        given_up k terminal (heard_on c heard) s ≡ false → given_up k terminal (heard_on c (ticks ++ heard)) s ≡ false }
    ensures superseded { (k : ℕ) (terminal : TerminalData) (s : Standing) (past : List Moment) → superseded k s ≡ true → drive_of k terminal past s ≡ Silent }
{}

/// A terminal passes over a burst without a command for it: over its whole ticks, over those so far, and over fewer than forty of any burst; and a
/// command among its slots stays one. At every lag below a slot's forty ticks.
pub fn a_burst_without_a_command_is_not_heeded()
    ensures whole { (k : ℕ) (terminal : TerminalData) (s : Standing) (c : Channel) (heard ticks : List Moment) (now : Moment) (burst : Burst) → k < 40 →
        InLeg k (heard_on c ticks) → ended_now k (heard_on c (now ∷ (ticks ++ heard))) ≡ Some burst → last_order terminal.address burst.slots ≡ None →
        AreUnheeded k terminal s c heard (now ∷ ticks) }
    ensures so_far { (k : ℕ) (terminal : TerminalData) (s : Standing) (c : Channel) (heard ticks : List Moment) → k < 40 → InLeg k (heard_on c ticks) →
        last_order terminal.address (running_slots k (heard_on c (ticks ++ heard))) ≡ None → AreUnheeded k terminal s c heard ticks }
    ensures few { (k : ℕ) (leg past : List Sample) → runs k past ≡ false → InLeg k leg → length leg < 40 → running_slots k (leg ++ past) ≡ [] }
    ensures stays { (k : ℕ) (terminal : TerminalData) (c : Channel) (heard ticks : List Moment) (now : Moment) → k < 40 →
        InLeg k (heard_on c (now ∷ ticks)) → is_some (last_order terminal.address (running_slots k (heard_on c (ticks ++ heard)))) ≡ true →
        is_some (last_order terminal.address (running_slots k (heard_on c (now ∷ (ticks ++ heard))))) ≡ true }
{}

/// While a terminal ignores a channel on which it sent, to the tick in which the end of that is known, nothing counts there. Ticks in which
/// nothing counts are so in parts and one after the other, and that depends on what the terminal sent there alone. At every lag.
pub fn an_ignored_channel_is_not_heeded()
    ensures ignored { (k : ℕ) (terminal : TerminalData) (s : Standing) (c : Channel) (heard ticks : List Moment) (now : Moment) (first : ℕ) →
        mark_on s.sent c ≡ Some first → end_since k (heard_on c (ticks ++ heard)) first ≡ None → AreUnheeded k terminal s c heard (now ∷ ticks) }
    ensures joined { (k : ℕ) (terminal : TerminalData) (s : Standing) (c : Channel) (heard firsts lasts : List Moment) →
        AreUnheeded k terminal s c heard firsts → AreUnheeded k terminal s c (firsts ++ heard) lasts → AreUnheeded k terminal s c heard (lasts ++ firsts) }
    ensures lasts { (k : ℕ) (terminal : TerminalData) (s : Standing) (c : Channel) (heard firsts lasts : List Moment) →
        AreUnheeded k terminal s c heard (lasts ++ firsts) → AreUnheeded k terminal s c (firsts ++ heard) lasts }
    ensures firsts { (k : ℕ) (terminal : TerminalData) (s : Standing) (c : Channel) (heard firsts lasts : List Moment) →
        AreUnheeded k terminal s c heard (lasts ++ firsts) → AreUnheeded k terminal s c heard firsts }
    ensures same { (k : ℕ) (terminal : TerminalData) (s u : Standing) (c : Channel) (heard ticks : List Moment) → mark_on u.sent c ≡ mark_on s.sent c →
        AreUnheeded k terminal s c heard ticks → AreUnheeded k terminal u c heard ticks }
{}

/// Where nothing counts on either channel nothing changes of a terminal without a promise, whose answer, if it owes one, was due before: it takes no
/// block, and sends nothing if it owes none or that is over. So a bystander stays as it is while bursts that aren't for it run on both channels.
/// At every lag.
pub fn a_terminal_that_heeds_nothing_stays_as_it_is()
    ensures stands { (k : ℕ) (terminal : TerminalData) (loads : List TimedLoad) (memory : Memory) (heard ticks : List Moment) →
        let s = standing k terminal loads memory heard in HeedsNothing k terminal s heard ticks → standing k terminal loads memory (ticks ++ heard) ≡ s }
    ensures takes { (k : ℕ) (terminal : TerminalData) (loads : List TimedLoad) (memory : Memory) (heard ticks : List Moment) (now : Moment) →
        let s = standing k terminal loads memory heard in HeedsNothing k terminal s heard (now ∷ ticks) →
        took_now k terminal loads record { memory = memory; ticks = (now ∷ ticks) ++ heard } ≡ None }
    ensures silent { (k : ℕ) (terminal : TerminalData) (loads : List TimedLoad) (memory : Memory) (heard ticks : List Moment) →
        let s = standing k terminal loads memory heard in HeedsNothing k terminal s heard ticks →
        (is_owed s.duty ≡ false) ⊎ (is_over k terminal (heard_on s.channel heard) s ≡ true) →
        drives k terminal loads record { memory = memory; ticks = ticks ++ heard } ≡ Silent }
{}
