//! The columns of the last ticks, until they are drawn.
ghost use Rattle.std.specs.Prelude.{◌≡◌, ◌+◌, ◌<◌, ◌≤◌, ◌%◌, ℕ, [], ◌∷◌, ◌⊎◌, true};
ghost use Rattle.bus_wave.specs.Marks.{column_with};
ghost use Rattle.bus_wave.specs.Waves.{begun};
ghost use Rattle.bus_wave.specs.Told.{told_at};
ghost use Rattle.bus_wave.specs.Delays.{LineStands, Marked, cell_at, column_at};
ghost use Rattle.bus_wave.specs.declared.marks.Column.{Column};

use crate::levels::{code_of, shown_in};
use crate::marks::{Column, Mark, TickMarks};
use bus_base::{Channel, Pair};

/// A tick is drawn when so many ticks from it on were heard: more than the longest message has (MIL-STD-1553B 4.3.3.6.3, 4.3.3.9).
pub const HORIZON: u64 = 1536;

/// Added to the number of what both channels show where a tick has marks.
pub(crate) const MARKED: u8 = 16;

/// The columns of the last 4,096 ticks: those that aren't due, and those that became due with the last piece of the text.
#[derive(Drop)]
pub struct DelayLine {
    /// What both channels show in tick t, as a number, stands at the place t modulo 4,096; `MARKED` is added where the tick has marks.
    pub cells: [u8; 4096],
    /// Its marks, where it has some.
    pub marks: [TickMarks; 4096],
}

impl DelayLine {
    /// A line of no ticks.
    pub fn new() -> DelayLine
        ensures { (known : ℕ → Column) → LineStands result 0 known }
    {
        DelayLine {
            cells: [0; 4096],
            marks: [TickMarks::NONE; 4096],
        }
    }

    /// Adds a tick, after so many.
    #[inline(always)]
    pub fn begin(&mut self, ticks: u64, shown: Pair)
        ensures { (known : ℕ → Column) → LineStands self.old ticks known → LineStands self.new (ticks + 1) (begun ticks shown known) }
    {
        self.cells[(ticks % 4096) as usize] = code_of(shown);
    }

    /// Adds a mark of a channel at a tick, where that isn't due before the next one, after so many.
    pub fn mark(&mut self, channel: Channel, ticks: u64, tick: u64, mark: Mark)
        ensures { Marked self.old self.new ticks channel (told_at tick mark ∷ []) }
    {
        if tick < ticks && ticks - tick <= HORIZON {
            self.add((tick % 4096) as usize, channel, mark);
        }
    }

    // Adds a mark of a channel at a place.
    #[inline(always)]
    fn add(&mut self, place: usize, channel: Channel, mark: Mark)
        requires { place < 4096 }
        ensures put { (t : ℕ) → t % 4096 ≡ place → column_at self.new t ≡ column_with channel mark (column_at self.old t) }
        ensures others { (t : ℕ) → (t % 4096 < place) ⊎ (place < t % 4096) → column_at self.new t ≡ column_at self.old t }
    {
        if self.cells[place] < MARKED {
            self.cells[place] += MARKED;
            self.marks[place] = TickMarks::NONE;
        }
        self.marks[place].add(channel, mark);
    }

    /// The column at the place of a tick.
    pub fn column(&self, tick: u64) -> Column
        ensures { result ≡ column_at self.now tick }
    {
        let place = (tick % 4096) as usize;
        let cell = self.cells[place];
        if cell < MARKED {
            Column::of(shown_in(cell))
        } else {
            marked_column(shown_in(cell), &self.marks[place])
        }
    }

    /// What both channels show in a tick, as a number, with `MARKED` added where the tick has marks.
    #[inline(always)]
    pub(crate) fn cell(&self, tick: u64) -> u8
        ensures { result ≡ cell_at self.now tick }
    {
        self.cells[(tick % 4096) as usize]
    }
}

fn marked_column(shown: Pair, marks: &TickMarks) -> Column
    ensures { result ≡ record { shown = shown; a = marks.now.a; b = marks.now.b } }
{
    Column {
        shown,
        a: marks.a,
        b: marks.b,
    }
}
