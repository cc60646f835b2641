//! The wave tick by tick, 1,536 ticks behind.
ghost use Rattle.std.specs.Prelude.{◌≡◌, ◌+◌, ◌-◌, ◌<◌, ◌≤◌, ◌^◌, ◌++◌, ℕ, length};
ghost use Rattle.bus_base.specs.Samples.{quiet_pair};
ghost use Rattle.bus_wave.specs.Delays.{cell_at, column_at};
ghost use Rattle.bus_wave.specs.Drawers.{drawer_at};
ghost use Rattle.bus_wave.specs.Levels.{code_of as code_in};
ghost use Rattle.bus_wave.specs.Marks.{tick_changes, time_change, mark_changes};
ghost use Rattle.bus_wave.specs.Texts.{changes_text};
ghost use Rattle.bus_wave.specs.Waves.{changes_from, end_changes, shown_before};
ghost use Rattle.bus_wave.specs.declared.marks.Column.{Column};
ghost use Rattle.bus_base.specs.declared.samples.Channel.TheVariants as channels;

use crate::delay_line::{DelayLine, MARKED};
use crate::dump_text::DumpText;
use crate::levels::{code_of, shown_in};
use crate::stamp::Stamp;
use crate::text::{add_marks, add_tick, add_time};
use crate::unmarked::add_shown;
use bus_base::{Channel, Pair};

/// Draws the ticks of a delay line, one after the other.
#[derive(Clone, Copy)]
pub struct Drawer {
    /// The tick that is drawn next.
    pub tick: u64,
    /// What the last tick that was drawn showed.
    pub last: Pair,
}

impl Drawer {
    /// A drawer that drew nothing.
    pub fn new() -> Drawer
        ensures { result ≡ record { tick = 0; last = quiet_pair } }
    {
        Drawer {
            tick: 0,
            last: Pair::QUIET,
        }
    }

    /// Goes on to the next tick before `end` that shows something else or has marks, and adds its lines; where there is none, to the end.
    #[inline(always)]
    pub fn draw_next(&mut self, line: &DelayLine, end: u64, stamp: &mut Stamp, text: &mut DumpText)
        requires order { self.old.tick < end }
        requires time { end < 2 ^ 60 }
        requires room { length text.old ≤ 3000 }
        ensures further { self.old.tick < self.new.tick }
        ensures within { self.new.tick ≤ end }
        ensures drew { (known : ℕ → Column) → ((t : ℕ) → self.old.tick ≤ t → t < end → column_at line.now t ≡ known t) →
            self.old.last ≡ shown_before known self.old.tick →
            (self.new ≡ drawer_at known self.new.tick)
            × (text.new ≡ text.old ++ changes_text (changes_from known self.old.tick (self.new.tick - self.old.tick))) }
        ensures grows { length text.new ≤ length text.old + 1000 }
    {
        self.pass(line, end);
        if self.tick < end {
            self.draw(line, stamp, text);
        }
    }

    // Passes the ticks that show what was shown before them, and have no marks.
    #[inline(always)]
    fn pass(&mut self, line: &DelayLine, end: u64)
        requires order { self.old.tick < end }
        requires time { end < 2 ^ 60 }
        ensures later { self.old.tick ≤ self.new.tick }
        ensures within { self.new.tick ≤ end }
        ensures last { self.new.last ≡ self.old.last }
        ensures still { (t : ℕ) → self.old.tick ≤ t → t < self.new.tick → cell_at line.now t ≡ code_in self.old.last }
    {
        let before = code_of(self.last);
        'ticks: while self.tick < end {
            if line.cell(self.tick) != before {
                return;
            }
            self.tick += 1;
        }
    }

    // Adds the lines of the next tick.
    #[inline(always)]
    fn draw(&mut self, line: &DelayLine, stamp: &mut Stamp, text: &mut DumpText)
        requires time { self.old.tick < 2 ^ 60 }
        requires room { length text.old ≤ 3000 }
        ensures text { text.new ≡ text.old ++ changes_text (tick_changes self.old.tick self.old.last (column_at line.now self.old.tick)) }
        ensures drawn { self.new ≡ record { tick = self.old.tick + 1; last = (column_at line.now self.old.tick).shown } }
        ensures grows { length text.new ≤ length text.old + 1000 }
    {
        let cell = line.cell(self.tick);
        let shown = shown_in(cell);
        if cell < MARKED {
            add_shown(self.tick, self.last, shown, stamp, text);
        } else {
            add_marked(self.tick, self.last, line, text);
        }
        self.last = shown;
        self.tick += 1;
    }
}

// Adds the lines of a tick that has marks.
#[inline(never)]
fn add_marked(tick: u64, before: Pair, line: &DelayLine, text: &mut DumpText)
    requires time { tick < 2 ^ 60 }
    requires room { length text.old ≤ 3000 }
    ensures text { text.new ≡ text.old ++ changes_text (tick_changes tick before (column_at line.now tick)) }
    ensures grows { length text.new ≤ length text.old + 1000 }
{
    add_tick(tick, before, &line.column(tick), text);
}

/// Adds the lines of the end, after so many ticks.
pub fn draw_end(line: &DelayLine, ticks: u64, text: &mut DumpText)
    requires time { ticks < 2 ^ 60 }
    requires room { length text.old ≤ 3000 }
    ensures text { text.new ≡ text.old ++ changes_text ((time_change ticks ++ mark_changes channels.A (column_at line.now ticks).a)
        ++ mark_changes channels.B (column_at line.now ticks).b) }
    ensures grows { length text.new ≤ length text.old + 1000 }
{
    add_time(ticks, text);
    let column = line.column(ticks);
    add_marks(Channel::A, &column.a, text);
    add_marks(Channel::B, &column.b, text);
}
