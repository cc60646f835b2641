//! What stands of a terminal is what its last order left. Laws alone, each the contract of an empty function.

ghost use Rattle.std.specs.Prelude.{◌≡◌, ◌⊎◌, ℕ, ◌+◌, ◌-◌, ◌≤◌, Bool, true, List, length};
ghost use Rattle.bus_base.specs.Samples.{other_of};
ghost use Rattle.bus_base.specs.declared.samples.Drive.TheVariants.{Silent};
ghost use Rattle.bus_words.specs.declared.word.Word.{Word};
ghost use Rattle.bus_line.specs.Bursts.{IsEndSince};
ghost use Rattle.bus_formats.specs.Plans.{TerminalData};
ghost use Rattle.bus_formats.specs.Times.{dead_ticks};
ghost use Rattle.bus_model.specs.Memory.{TimedLoad};
ghost use Rattle.bus_model.specs.Orders.{owes};
ghost use Rattle.bus_model.specs.Hearing.{Moment, Hearing, heard_on};
ghost use Rattle.bus_model.specs.Sending.{drive_sample};
ghost use Rattle.bus_model.specs.Standing.{Standing, Handled, at_rest, is_owed};
ghost use Rattle.bus_model.specs.Terminal.{standing_after, after_order, done_in, drives};
ghost use Rattle.bus_law_ticks.specs.Ticks.{stood};
ghost use Rattle.bus_law_ticks.specs.Heeding.{IsAddressedAt};
ghost use Rattle.bus_law_ticks.specs.LastOrders.{HandledAt, HandledLastAt, SameButMarks};
ghost use Rattle.bus_law_ticks.specs.Replies.{AreQuiet};

/// After any ticks a terminal keeps what its last order left, of the burst of that order: an answer, a promise or nothing; ticks without an order
/// change nothing of it. Where it handled none it keeps what it began with, and owes nothing. At every lag.
pub fn what_the_last_order_left_stands()
    ensures last { (k : ℕ) (terminal : TerminalData) (loads : List TimedLoad) (hearing : Hearing) (t : ℕ) (now : Moment) (order : Handled) →
        HandledLastAt k terminal loads hearing t now order → let s : Standing = stood k terminal loads hearing t in
        SameButMarks (standing_after k terminal loads hearing) (after_order s order (done_in k terminal loads t now.has_items s order)) }
    ensures none { (k : ℕ) (terminal : TerminalData) (loads : List TimedLoad) (hearing : Hearing) →
        ((t : ℕ) (now : Moment) (order : Handled) → HandledAt k terminal loads hearing t now order → ⊥) →
        SameButMarks (standing_after k terminal loads hearing) (at_rest hearing.memory) }
{}

/// An answer that is owed is sent from the tick on in which it is due, as many dead ticks after the end of the burst that it answers as the
/// terminal's delay has (response time, MIL-STD-1553B 4.3.3.8), sample by sample without a gap (transmission continuity, 4.4.1.2): where its channel was
/// quiet until then, no newer command came on the other channel (4.4.3.2), and since then its channel wasn't quiet for k + 1 ticks in a row. Else
/// nothing is sent. At every lag below a slot's forty ticks.
pub fn an_answer_is_sent_from_its_due_tick_on()
    ensures sends { (k : ℕ) (terminal : TerminalData) (loads : List TimedLoad) (hearing : Hearing) (words : List Word) (acceptance : Bool) → k ≤ 39 →
        let s : Standing = standing_after k terminal loads hearing in let due : ℕ = s.end + dead_ticks terminal.delay in
        s.duty ≡ owes words acceptance → due ≤ length hearing.ticks → AreQuiet (heard_on s.channel hearing.ticks) s.end due →
        ((t : ℕ) → s.end + k ≤ t → IsAddressedAt k terminal loads hearing (other_of s.channel) t → ⊥) →
        ((e : ℕ) → IsEndSince k (heard_on s.channel hearing.ticks) due e → ⊥) →
        drives k terminal loads hearing ≡ drive_sample s.channel s.part words (length hearing.ticks - due) }
    ensures silent { (k : ℕ) (terminal : TerminalData) (loads : List TimedLoad) (hearing : Hearing) → k ≤ 39 →
        let s : Standing = standing_after k terminal loads hearing in let due : ℕ = s.end + dead_ticks terminal.delay in
        (drives k terminal loads hearing ≡ Silent)
        ⊎ ((is_owed s.duty ≡ true) × (due ≤ length hearing.ticks) × AreQuiet (heard_on s.channel hearing.ticks) s.end due
        × ((t : ℕ) → s.end + k ≤ t → IsAddressedAt k terminal loads hearing (other_of s.channel) t → ⊥)
        × ((e : ℕ) → IsEndSince k (heard_on s.channel hearing.ticks) due e → ⊥)) }
{}
