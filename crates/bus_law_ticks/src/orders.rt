//! What a terminal's last order left, and what takes it back. Laws alone, each the contract of an empty function.

ghost use Rattle.std.specs.Prelude.{◌≡◌, ◌⊎◌, ◌↔◌, ℕ, ◌+◌, ◌<◌, ◌≤◌, Bool, true, List, ◌∷◌, length, Option, Some, None};
ghost use Rattle.bus_base.specs.Samples.{other_of};
ghost use Rattle.bus_base.specs.declared.samples.Channel.{Channel};
ghost use Rattle.bus_words.specs.declared.word.Word.{Word};
ghost use Rattle.bus_line.specs.Bursts.{IsHeardAt, IsQuietAt};
ghost use Rattle.bus_formats.specs.Plans.{TerminalData};
ghost use Rattle.bus_formats.specs.Times.{dead_ticks};
ghost use Rattle.bus_model.specs.Memory.{Memory, TimedLoad};
ghost use Rattle.bus_model.specs.Orders.{Order, free};
ghost use Rattle.bus_model.specs.Hearing.{Moment, Hearing, heard_on};
ghost use Rattle.bus_model.specs.Standing.{Standing, Handled, obeys, settles, runs_out, is_promise};
ghost use Rattle.bus_model.specs.Terminal.{standing, order_now, given_up, took_now};
ghost use Rattle.bus_law_ticks.specs.Handling.{IsObeyed, IsTaken};
ghost use Rattle.bus_law_ticks.specs.Heeding.{IsAddressedAt};

use bus_model::at_most_one_order_a_tick;

/// A command is obeyed, and a burst is taken for a promise, in the tick in which the end of its burst is known: k ticks after that end. At every lag.
pub fn an_order_is_handled_with_the_end_of_its_burst()
    ensures obeyed { (k : ℕ) (terminal : TerminalData) (s : Standing) (now : Moment) (past : List Moment) (c : Channel) (end rest : ℕ) (order : Order) →
        order_now k terminal (now ∷ past) s ≡ Some (obeys c end order rest) → end + k ≡ length past }
    ensures settled { (k : ℕ) (terminal : TerminalData) (s : Standing) (now : Moment) (past : List Moment) (end rest : ℕ) (slots : List (Option Word)) →
        order_now k terminal (now ∷ past) s ≡ Some (settles end slots rest) → end + k ≡ length past }
{}

/// A command is obeyed in a tick exactly where the end of its burst became known in it, its channel was heeded, it is the last command for the
/// terminal in that burst, and no slot with a command for the terminal on the other channel is newer (superseding commands, MIL-STD-1553B 4.4.3.2).
/// At every lag below a slot's forty ticks.
pub fn a_command_is_obeyed_unless_a_newer_one_came()
    ensures { (k : ℕ) (terminal : TerminalData) (loads : List TimedLoad) (memory : Memory) (now : Moment) (past : List Moment) (c : Channel) (end rest : ℕ)
        (order : Order) → k ≤ 39 →
        (order_now k terminal (now ∷ past) (standing k terminal loads memory past) ≡ Some (obeys c end order rest))
        ↔ IsObeyed k terminal loads record { memory = memory; ticks = past } now c end order rest }
{
    at_most_one_order_a_tick();
}

/// A relay's receiver takes a burst for its promise in a tick exactly where the end of that burst became known in it, on the channel of the promise,
/// which was heeded; the burst began after at most 30 dead ticks, it has no command for the terminal, and no newer command came on the other
/// channel (4.4.3.2; how long it waits is the project's own). At every lag below a slot's forty ticks.
pub fn a_promised_burst_is_taken_within_30_dead_ticks()
    ensures { (k : ℕ) (terminal : TerminalData) (loads : List TimedLoad) (memory : Memory) (now : Moment) (past : List Moment) (end rest : ℕ)
        (slots : List (Option Word)) → k ≤ 39 → let s : Standing = standing k terminal loads memory past in
        (order_now k terminal (now ∷ past) s ≡ Some (settles end slots rest))
        ↔ IsTaken k terminal loads record { memory = memory; ticks = past } now s end slots rest }
{
    at_most_one_order_a_tick();
}

/// What an order left is given up exactly where a slot with a command for the terminal ended on the other channel from the tick of the order on
/// (superseding commands, MIL-STD-1553B 4.4.3.2), or a tick on its own channel wasn't quiet from the end of its burst to the tick in which its
/// answer is due. At every lag below a slot's forty ticks.
pub fn an_answer_is_given_up_by_a_newer_command_or_a_sample()
    ensures { (k : ℕ) (terminal : TerminalData) (loads : List TimedLoad) (memory : Memory) (ticks : List Moment) → k ≤ 39 →
        let s : Standing = standing k terminal loads memory ticks in
        (given_up k terminal (heard_on s.channel ticks) s ≡ true)
        ↔ (((t : ℕ) × (s.end + k ≤ t) × IsAddressedAt k terminal loads record { memory = memory; ticks = ticks } (other_of s.channel) t)
        ⊎ ((t : ℕ) × (s.end ≤ t) × (t < s.end + dead_ticks terminal.delay) × IsHeardAt (heard_on s.channel ticks) t)) }
{}

/// A relay's receiver stops waiting exactly with the 31st quiet tick after the end of its command's burst, where no newer command came on the other
/// channel (4.4.3.2): then its promise is unkept, it owes nothing, message error is set, and no block is taken (4.4.3.6; how long it waits is
/// the project's own). At every lag below 30.
pub fn a_promise_ends_with_the_31st_quiet_tick()
    ensures exactly { (k : ℕ) (terminal : TerminalData) (loads : List TimedLoad) (memory : Memory) (now : Moment) (past : List Moment) → k < 30 →
        let s : Standing = standing k terminal loads memory past in
        (order_now k terminal (now ∷ past) s ≡ Some runs_out)
        ↔ ((is_promise s.duty ≡ true)
        × ((t : ℕ) → s.end + k ≤ t → IsAddressedAt k terminal loads record { memory = memory; ticks = past } (other_of s.channel) t → ⊥)
        × (length past ≡ s.end + 30)
        × ((t : ℕ) → s.end ≤ t → t ≤ s.end + 30 → IsQuietAt (heard_on s.channel (now ∷ past)) t)) }
    ensures ends { (k : ℕ) (terminal : TerminalData) (loads : List TimedLoad) (memory : Memory) (now : Moment) (past : List Moment) →
        order_now k terminal (now ∷ past) (standing k terminal loads memory past) ≡ Some runs_out →
        let s : Standing = standing k terminal loads memory (now ∷ past) in
        (s.duty ≡ free) × (s.memory.registers.message_error ≡ true)
        × (took_now k terminal loads record { memory = memory; ticks = now ∷ past } ≡ None) }
{
    at_most_one_order_a_tick();
}
