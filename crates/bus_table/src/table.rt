//! The rows of both channels, tick by tick.
ghost use Rattle.std.specs.Prelude.{◌≡◌, ◌+◌, ◌≤◌, ◌<◌, ◌^◌, ◌++◌, ◌&&◌, ◌⊎◌, [], map, flat_map, length, option_to_list};
ghost use Rattle.bus_line.specs.declared.cutter.TheConstants.{LAG};
ghost use Rattle.bus_monitor.specs.Channels.{is_idle_on};
ghost use Rattle.bus_table.specs.Notes.{gap_at};
ghost use Rattle.bus_table.specs.Rows.{closed_row};
ghost use Rattle.bus_table.specs.Stands.{TableStands};
ghost use Rattle.bus_table.specs.Tables.{table_lines, table_text, row_of_open};
ghost use Rattle.bus_table.specs.Texts.{row_text, end_text};

use crate::Format;
use crate::channel_rows::ChannelRows;
use crate::groups::{add_closed, add_open};
use crate::notes::Notes;
use bus_base::{Channel, Pair};
use bus_capture::Block;
use bus_monitor::{Closed, Lister, Page};
use bus_text::Line;

/// A format as a type, so that a lister's lines are those of one format.
pub trait TableFormat {
    ghost use Rattle.bus_table.specs.declared.format.Format.{Format};

    /// The format.
    ghost kind: { Format };

    /// The format.
    fn kind(&self) -> Format
        ensures { result ≡ kind };
}

/// CSV.
#[derive(Clone, Copy)]
pub struct CsvTable;

impl TableFormat for CsvTable {
    ghost use Rattle.bus_table.specs.declared.format.Format.TheVariants as formats;

    ghost kind = { formats.Csv };

    fn kind(&self) -> Format {
        Format::Csv
    }
}

/// JSON.
#[derive(Clone, Copy)]
pub struct JsonTable;

impl TableFormat for JsonTable {
    ghost use Rattle.bus_table.specs.declared.format.Format.TheVariants as formats;

    ghost kind = { formats.Json };

    fn kind(&self) -> Format {
        Format::Json
    }
}

/// Lists the messages of both channels as rows. It takes no memory.
#[derive(Drop)]
pub struct TableLister<F> {
    format: F,
    a: ChannelRows,
    b: ChannelRows,
    ticks: u64,
    rows: u64,
}

impl<F: TableFormat> TableLister<F> {
    /// A lister that heard nothing.
    pub fn new(format: F) -> TableLister<F>
        ensures { TableStands result [] }
    {
        TableLister {
            format,
            a: ChannelRows::new(),
            b: ChannelRows::new(),
            ticks: 0,
            rows: 0,
        }
    }
}

impl<F: TableFormat> Lister for TableLister<F> {
    ghost stands = { TableStands };

    ghost lines = { table_lines LAG F.kind };

    ghost whole = { table_text LAG F.kind };

    ghost idle = { λ lister. is_idle_on lister.a.lister && is_idle_on lister.b.lister };

    fn is_idle(&self) -> bool {
        self.a.lister.is_idle() && self.b.lister.is_idle()
    }

    fn skip(&mut self, ticks: u64) {
        self.ticks += ticks;
    }

    #[inline(always)]
    fn list(&mut self, shown: Pair, text: &mut Page) {
        let stopped_a = self.a.stopped(self.ticks);
        let stopped_b = self.b.stopped(self.ticks);
        let gap = gap_up_to(self.ticks, later(stopped_a, stopped_b));
        let a = self.a.hear(self.ticks, shown.a, gap);
        let b = self.b.hear(self.ticks, shown.b, gap);
        self.ticks += 1;
        let format = self.format.kind();
        let rows_a = add_row(format, Channel::A, a, &self.a.notes, text);
        let rows_b = add_row(format, Channel::B, b, &self.b.notes, text);
        self.rows += rows_a + rows_b;
    }

    #[inline(always)]
    fn pass(&mut self, block: &Block, at: u32) -> u32 {
        let heard_a = block.heard_a >> at;
        let heard_b = block.heard_b >> at;
        let ticks = self
            .a
            .lister
            .still(heard_a, self.ticks)
            .min(self.b.lister.still(heard_b, self.ticks))
            .min(block.ticks - at);
        if ticks == 0 {
            return 0;
        }
        self.a.lister.pass(heard_a, block.plus_a >> at, ticks);
        self.b.lister.pass(heard_b, block.plus_b >> at, ticks);
        self.ticks += u64::from(ticks);
        ticks
    }

    fn finish(&self, text: &mut Page) {
        let format = self.format.kind();
        let open_a = self.a.lister.open();
        let open_b = self.b.lister.open();
        let rows_a = add_open_row(format, Channel::A, open_a, self.a.open_gap(), text);
        let rows_b = add_open_row(format, Channel::B, open_b, self.b.open_gap(), text);
        add_end(format, self.ticks, self.rows + (rows_a + rows_b), text);
    }
}

// The later of two ticks.
#[inline(always)]
fn later(a: u64, b: u64) -> u64
    ensures { ((result ≡ a) × (b ≤ result)) ⊎ ((result ≡ b) × (a ≤ result)) }
{
    if a < b { b } else { a }
}

// The gap before a tick; none where no tick before it wasn't quiet.
#[inline(always)]
fn gap_up_to(ticks: u64, stopped: u64) -> Option<u64>
    requires { ticks < 2 ^ 60 }
    ensures { result ≡ gap_at ticks stopped }
{
    if stopped == 0 {
        return None;
    }
    Some(ticks.saturating_sub(stopped) + 4)
}

// Adds the row of a message that closed, if one did. How many it added.
fn add_row(
    format: Format,
    channel: Channel,
    closed: Option<Closed>,
    notes: &Notes,
    text: &mut Page,
) -> u64
    requires { length text.old ≤ 6500 }
    ensures text { text.new ≡ text.old ++ flat_map (row_text format) (map (closed_row channel notes.now) (option_to_list closed)) }
    ensures rows { result ≡ length (option_to_list closed) }
    ensures few { result ≤ 1 }
    ensures grows { length text.new ≤ length text.old + 1300 }
{
    match closed {
        Some(closed) => {
            add_closed(format, channel, &closed, notes, text);
            1
        }
        None => 0,
    }
}

// Adds the row of a message that is open, if one is. How many it added.
fn add_open_row(
    format: Format,
    channel: Channel,
    first: Option<u64>,
    gap: Option<u64>,
    text: &mut Page,
) -> u64
    requires { length text.old ≤ 6500 }
    ensures text { text.new ≡ text.old ++ flat_map (row_text format) (row_of_open LAG channel first gap) }
    ensures rows { result ≡ length (row_of_open LAG channel first gap) }
    ensures few { result ≤ 1 }
    ensures grows { length text.new ≤ length text.old + 1300 }
{
    match first {
        Some(first) => {
            add_open(format, channel, first, gap, text);
            1
        }
        None => 0,
    }
}

// Adds what ends the table.
fn add_end(format: Format, ticks: u64, rows: u64, text: &mut Page)
    requires { length text.old ≤ 6500 }
    ensures { text.new ≡ text.old ++ end_text format ticks rows }
{
    match format {
        Format::Csv => {}
        Format::Json => text.line(&end_line(ticks, rows)),
    }
}

fn end_line(ticks: u64, rows: u64) -> Line
    ensures text { result ≡ end_text Format.Json ticks rows }
    ensures grows { length result ≤ 100 }
{
    let mut line = Line::new();
    line.text("{\"end\":");
    line.decimal(ticks);
    line.text(",\"messages\":");
    line.decimal(rows);
    line.text("}\n");
    line
}
