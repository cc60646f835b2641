//! The receive blocks of terminals. Laws alone, each the contract of an empty function.

ghost use Rattle.std.specs.Prelude.{◌≡◌, ℕ, ◌<◌, Bool, List, ◌∷◌, length, Some};
ghost use Rattle.bus_base.specs.declared.samples.Pair.{Pair};
ghost use Rattle.bus_line.specs.Channels.{bursts};
ghost use Rattle.bus_formats.specs.Plans.{TerminalData, StationData};
ghost use Rattle.bus_model.specs.Control.{OutsideTake, hear_more, keeps};
ghost use Rattle.bus_model.specs.Hearing.{Moment, Hearing};
ghost use Rattle.bus_model.specs.Memory.{TimedLoad, received_on};
ghost use Rattle.bus_model.specs.Orders.{Taken};
ghost use Rattle.bus_model.specs.Terminal.{memory_after, took_now};
ghost use Rattle.bus_law_run.specs.Blocks.{StaysOrTaken, taken_newest};

/// In a tick each receive block of a terminal stays as it is, or becomes the block that the terminal takes in that tick on its subaddress, whole: of
/// no block a part is ever seen. So it is of every terminal whatever it hears, and of every station, whether it serves, holds control, takes it or
/// yields. At every lag, for any loads.
pub fn a_block_changes_whole()
    ensures terminal { (k : ℕ) (terminal : TerminalData) (loads : List TimedLoad) (hearing : Hearing) (now : Moment) (sub : ℕ) →
        StaysOrTaken (took_now k terminal loads (hear_more hearing now)) sub (received_on (memory_after k terminal loads hearing) sub)
        (received_on (memory_after k terminal loads (hear_more hearing now)) sub) }
    ensures station { (k : ℕ) (station : StationData) (starts : Bool) (loads : List TimedLoad) (outside : List OutsideTake) (shown : Pair)
        (past : List Pair) (sub : ℕ) →
        StaysOrTaken (taken_newest k station starts loads outside shown past) sub (received_on (keeps k station starts loads outside past) sub)
        (received_on (keeps k station starts loads outside (shown ∷ past)) sub) }
{}

/// And a terminal takes a block only in a tick in which the end of a burst becomes known on a channel. So a block is taken in no more ticks than bursts
/// are found.
pub fn a_block_is_taken_where_a_burst_ends()
    ensures { (k : ℕ) (station : StationData) (starts : Bool) (loads : List TimedLoad) (outside : List OutsideTake) (shown : Pair)
        (past : List Pair) (block : Taken) → taken_newest k station starts loads outside shown past ≡ Some block →
        length (bursts k past) < length (bursts k (shown ∷ past)) }
{}
