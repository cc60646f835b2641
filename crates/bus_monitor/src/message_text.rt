//! The lines of messages.
ghost use Rattle.std.specs.Prelude.{◌≡◌, ◌≤◌, ◌+◌, ◌++◌, length, option_to_list, codes};
ghost use Rattle.bus_monitor.specs.Listings.{came_text, message_line, open_line};
ghost use Rattle.bus_text.specs.Texts.{number, channel_text};
ghost use Rattle.bus_monitor.specs.Models.{came_of};
ghost use Rattle.bus_monitor.specs.Steps.{closed_lines};

use crate::closed::{Closed, Ended};
use crate::page::Page;
use bus_base::Channel;
use bus_text::Line;

/// Adds the line of a message that closed, if one did.
pub(crate) fn add_closed(channel: Channel, closed: Option<Closed>, text: &mut Page)
    requires { length text.old ≤ 3900 }
    ensures text { text.new ≡ text.old ++ closed_lines channel (option_to_list closed) }
    ensures grows { length text.new ≤ length text.old + 100 }
{
    if let Some(closed) = closed {
        add_line(channel, &closed, text);
    }
}

fn add_line(channel: Channel, closed: &Closed, text: &mut Page)
    requires { length text.old ≤ 3900 }
    ensures text { text.new ≡ text.old ++ message_line channel closed.now.first (came_text closed.now.came) }
    ensures grows { length text.new ≤ length text.old + 100 }
{
    begin_line(channel, closed.first, text);
    add_came(&closed.came, text);
    text.end();
}

/// Adds the line of a message that is open, if one is.
pub(crate) fn add_open(channel: Channel, first: Option<u64>, text: &mut Page)
    requires { length text.old ≤ 3900 }
    ensures text { text.new ≡ text.old ++ open_line channel first }
    ensures grows { length text.new ≤ length text.old + 100 }
{
    if let Some(first) = first {
        begin_line(channel, first, text);
        text.text(" open");
        text.end();
    }
}

// The channel and the first tick of a message.
fn begin_line(channel: Channel, first: u64, text: &mut Page)
    requires { length text.old ≤ 3900 }
    ensures text { text.new ≡ ((text.old ++ codes "message") ++ number first) ++ channel_text channel }
    ensures grows { length text.new ≤ length text.old + 30 }
{
    text.text("message");
    text.number(first);
    text.channel(channel);
}

fn add_came(came: &Option<Ended>, text: &mut Page)
    requires { length text.old ≤ 3930 }
    ensures text { text.new ≡ text.old ++ came_text (came_of came.now) }
    ensures grows { length text.new ≤ length text.old + 69 }
{
    match came {
        Some(ended) => text.line(&ended_text(ended)),
        None => text.text(" unknown"),
    }
}

// The command words of a message, its outcome, and the statuses that are kept.
fn ended_text(ended: &Ended) -> Line
    ensures text { result ≡ came_text ended.now }
    ensures grows { length result ≤ 69 }
{
    let mut text = Line::new();
    text.commands(&ended.kind);
    text.outcome(ended.outcome);
    text.status(ended.earlier);
    text.status(ended.last);
    text
}
