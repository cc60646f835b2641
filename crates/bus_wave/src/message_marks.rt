//! How a message is named and how far its name is drawn.
ghost use Rattle.std.specs.Prelude.{◌≡◌, ◌-◌, ◌<◌, true, false, Option, None, Some};
ghost use Rattle.bus_formats.specs.Accepted.{HasKindRanges};
ghost use Rattle.bus_line.specs.declared.cutter.TheConstants.{LAG};
ghost use Rattle.bus_wave.specs.Told as spec;

use crate::marks::{Commands, MessageMark};
use bus_formats::{Kind, Outcome, first_command, second_command};
use bus_line::LAG;
use bus_monitor::{Closed, Waiting};

fn commands_in(kind: &Kind) -> Commands
    requires { HasKindRanges kind.now }
    ensures { result ≡ spec.commands_in kind.now }
{
    let second = match second_command(kind) {
        Some(second) => Some(second.bits()),
        None => None,
    };
    Commands {
        first: first_command(kind).bits(),
        second,
    }
}

pub(crate) fn closed_mark(closed: &Closed) -> MessageMark
    ensures { result ≡ spec.closed_mark closed.now.came }
{
    match &closed.came {
        Some(ended) => MessageMark::Ended(commands_in(&ended.kind), ended.outcome),
        None => MessageMark::Unknown,
    }
}

pub(crate) fn waiting_mark(waiting: &Waiting) -> MessageMark
    ensures { result ≡ spec.waiting_mark waiting.now }
{
    MessageMark::Ended(
        commands_in(waiting.kind()),
        Outcome::BadReply(waiting.part()),
    )
}

pub(crate) fn open_mark(waiting: &Option<Waiting>) -> MessageMark
    ensures { result ≡ spec.open_mark waiting.now }
{
    match waiting {
        Some(waiting) => MessageMark::Open(Some(commands_in(waiting.kind()))),
        None => MessageMark::Open(None),
    }
}

pub(crate) fn drawn_to(closed: &Closed) -> u64
    ensures { result ≡ spec.drawn_to LAG closed.now }
{
    if is_unanswered(closed) {
        closed.tick
    } else {
        closed.tick.saturating_sub(u64::from(LAG))
    }
}

fn is_unanswered(closed: &Closed) -> bool
    ensures { result ≡ spec.is_unanswered closed.now.came }
{
    match &closed.came {
        Some(ended) => is_no_response(ended.outcome),
        None => false,
    }
}

fn is_no_response(outcome: Outcome) -> bool
    ensures { result ≡ spec.is_no_response outcome }
{
    match outcome {
        Outcome::NoResponse(_) => true,
        _ => false,
    }
}
