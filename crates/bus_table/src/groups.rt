//! The row of a message, group by group: when and where it was, and then what it was, how it ended, how long it took, and its words.
ghost use Rattle.std.specs.Prelude.{◌≡◌, ◌+◌, ◌≤◌, ◌++◌, length};
ghost use Rattle.bus_table.specs.Rows.{closed_row, open_row};
ghost use Rattle.bus_table.specs.Texts as spec;

use crate::Format;
use crate::contents::{data, data_fields, last_fields};
use crate::course::{ending, kind_fields, state_fields, time_fields, times, unknown_fields};
use crate::fields::{half_field, name_field};
use crate::notes::Notes;
use bus_base::Channel;
use bus_monitor::{Closed, Page};
use bus_text::Line;

/// Adds the row of a message that closed.
pub(crate) fn add_closed(
    format: Format,
    channel: Channel,
    closed: &Closed,
    notes: &Notes,
    text: &mut Page,
)
    requires { length text.old ≤ 6500 }
    ensures text { text.new ≡ text.old ++ spec.row_text format (closed_row channel notes.now closed.now) }
    ensures grows { length text.new ≤ length text.old + 1300 }
{
    add_three(
        &moment(format, closed.first, channel),
        &kind_fields(format, &closed.came),
        &state_fields(format, &closed.came),
        text,
    );
    add_three(
        &times(format, closed, notes),
        &data_fields(format, &closed.came, notes),
        &last_fields(format, notes.first_bad()),
        text,
    );
}

/// Adds the row of a message that is open.
pub(crate) fn add_open(
    format: Format,
    channel: Channel,
    first: u64,
    gap: Option<u64>,
    text: &mut Page,
)
    requires { length text.old ≤ 6500 }
    ensures text { text.new ≡ text.old ++ spec.row_text format (open_row channel first gap) }
    ensures grows { length text.new ≤ length text.old + 1300 }
{
    add_three(
        &moment(format, first, channel),
        &unknown_fields(format),
        &ending(format, &[], "open", None, &[]),
        text,
    );
    add_three(
        &time_fields(format, None, None, gap, None),
        &data(format, &[]),
        &last_fields(format, None),
        text,
    );
}

fn add_three(a: &Line, b: &Line, c: &Line, text: &mut Page)
    requires { length text.old + length a.now + length b.now + length c.now ≤ 8192 }
    ensures text { text.new ≡ text.old ++ ((a.now ++ b.now) ++ c.now) }
    ensures grows { length text.new ≡ length text.old + length a.now + length b.now + length c.now }
{
    add(a, text);
    add(b, text);
    add(c, text);
}

fn add(line: &Line, text: &mut Page)
    requires { length text.old + length line.now ≤ 8192 }
    ensures text { text.new ≡ text.old ++ line.now }
    ensures grows { length text.new ≡ length text.old + length line.now }
{
    text.line(line);
}

// When and where.
fn moment(format: Format, at: u64, channel: Channel) -> Line
    ensures text { result ≡ spec.moment_text format at channel }
    ensures grows { length result ≤ 120 }
{
    let mut line = begin(format, at);
    half_field(&mut line, format, "us", at);
    name_field(&mut line, format, "channel", channel_name(channel));
    line
}

fn begin(format: Format, at: u64) -> Line
    ensures text { result ≡ spec.at_text format at }
    ensures grows { length result ≤ 26 }
{
    let mut line = Line::new();
    match format {
        Format::Csv => {}
        Format::Json => line.text("{\"at\":"),
    }
    line.decimal(at);
    line
}

fn channel_name(channel: Channel) -> &'static str
    ensures name { result.now ≡ spec.channel_name channel }
    ensures short { length result.now ≤ 20 }
{
    match channel {
        Channel::A => "A",
        Channel::B => "B",
    }
}
