//! When a terminal heeds a channel, and which slots there are addressed to it. Laws alone, each the contract of an empty function.

ghost use Rattle.std.specs.Prelude.{◌≡◌, ◌↔◌, ℕ, ◌≤◌, false, true, List, length};
ghost use Rattle.bus_base.specs.declared.samples.Channel.{Channel};
ghost use Rattle.bus_formats.specs.Plans.{TerminalData};
ghost use Rattle.bus_model.specs.Memory.{TimedLoad};
ghost use Rattle.bus_model.specs.Hearing.{Hearing, heard_on};
ghost use Rattle.bus_model.specs.Standing.{mark_on, ignored_from, is_from};
ghost use Rattle.bus_model.specs.Terminal.{standing_after};
ghost use Rattle.bus_law_ticks.specs.Heeding.{IsHeeded, IsAddressedAt};

/// A terminal heeds a channel exactly where each answer that it began there has ended: the channel was quiet for k + 1 ticks in a row from its first
/// tick on. At every lag.
pub fn a_channel_is_heeded_where_no_answer_runs()
    ensures { (k : ℕ) (terminal : TerminalData) (loads : List TimedLoad) (hearing : Hearing) (c : Channel) →
        (ignored_from k (heard_on c hearing.ticks) (mark_on (standing_after k terminal loads hearing).sent c) ≡ false)
        ↔ IsHeeded k terminal loads hearing c }
{}

/// The mark of a channel is from a tick on exactly where a slot with a command for the terminal ended there in that tick or later, while it was
/// heeded. At every lag below a slot's forty ticks.
pub fn addressed_slots_are_marked()
    ensures { (k : ℕ) (terminal : TerminalData) (loads : List TimedLoad) (hearing : Hearing) (c : Channel) (a : ℕ) → k ≤ 39 →
        (is_from a (mark_on (standing_after k terminal loads hearing).addressed c) ≡ true)
        ↔ ((t : ℕ) × (a ≤ t) × IsAddressedAt k terminal loads hearing c t) }
{}
