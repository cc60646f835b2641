//! What a terminal that doesn't need each tick is between the ticks with which something becomes known. Laws alone, each the contract of an empty
//! function.
ghost use Rattle.std.specs.Prelude.{◌≡◌, ◌∷◌, false, List, None};
ghost use Rattle.bus_base.specs.declared.samples.Drive.TheVariants.{Silent};
ghost use Rattle.bus_line.specs.declared.cutter.TheConstants.{LAG};
ghost use Rattle.bus_formats.specs.Plans.{TerminalData};
ghost use Rattle.bus_model.specs.Memory.{TimedLoad};
ghost use Rattle.bus_model.specs.Hearing.{Hearing, Moment};
ghost use Rattle.bus_model.specs.Terminal.{took_now, accepted_now, drives};
ghost use Rattle.bus_terminal.specs.Needs.{needs_each_tick, BringsNothing};
ghost use Rattle.bus_terminal.specs.TerminalStands.{TerminalKeeps};
ghost use Rattle.bus_terminal.specs.declared.terminal.Terminal.{Terminal};

/// A tick with which nothing becomes known leaves a terminal that doesn't need each tick as it is, and right for the longer hearing: it takes no block in
/// the tick, and accepts no control.
pub fn a_tick_without_an_end_leaves_a_terminal()
    ensures stands { (plan : TerminalData) (loads : List TimedLoad) (terminal : Terminal) (hearing : Hearing) (now : Moment) →
        needs_each_tick terminal ≡ false → TerminalKeeps LAG plan loads terminal hearing → BringsNothing LAG now hearing.ticks →
        TerminalKeeps LAG plan loads terminal (record hearing { ticks = now ∷ hearing.ticks }) }
    ensures took { (plan : TerminalData) (loads : List TimedLoad) (terminal : Terminal) (hearing : Hearing) (now : Moment) →
        needs_each_tick terminal ≡ false → TerminalKeeps LAG plan loads terminal hearing → BringsNothing LAG now hearing.ticks →
        took_now LAG plan loads (record hearing { ticks = now ∷ hearing.ticks }) ≡ None }
    ensures accepted { (plan : TerminalData) (loads : List TimedLoad) (terminal : Terminal) (hearing : Hearing) (now : Moment) →
        needs_each_tick terminal ≡ false → TerminalKeeps LAG plan loads terminal hearing → BringsNothing LAG now hearing.ticks →
        accepted_now LAG plan loads (record hearing { ticks = now ∷ hearing.ticks }) ≡ None }
{}

/// A terminal that doesn't need each tick sends nothing in the tick to come.
pub fn a_terminal_that_waits_is_silent()
    ensures { (plan : TerminalData) (loads : List TimedLoad) (terminal : Terminal) (hearing : Hearing) →
        needs_each_tick terminal ≡ false → TerminalKeeps LAG plan loads terminal hearing → drives LAG plan loads hearing ≡ Silent }
{}
