//! A message that closed, as it is listed.
use bus_formats::{Kind, Outcome};
use bus_words::Status;
use std::marker::Model;

/// How a message of a known form ended.
#[derive(Drop)]
pub struct Ended {
    pub kind: Kind,
    pub outcome: Outcome,
    // the statuses that are kept: of a relay's first answer, and of the last one
    pub earlier: Option<Status>,
    pub last: Option<Status>,
}

impl Model for Ended {
    ghost use Rattle.std.specs.Prelude.{◌++◌, option_to_list};
    ghost use Rattle.bus_formats.specs.Accepted.{HasKindRanges};
    ghost use Rattle.bus_monitor.specs.Messages as messages;

    ghost Value = { messages.Came };

    ghost view = { λ e. messages.ended e.kind e.outcome (option_to_list e.earlier ++ option_to_list e.last) };

    ghost invariant = { λ e. HasKindRanges e.kind };
}

/// A message that closed.
#[derive(Drop)]
pub struct Closed {
    // its first tick, and the tick in which it closed
    pub first: u64,
    pub tick: u64,
    // what it came to, where it is of a known form
    pub came: Option<Ended>,
}

impl Model for Closed {
    ghost use Rattle.bus_monitor.specs.Messages as messages;
    ghost use Rattle.bus_monitor.specs.Models.{came_of};

    ghost Value = { messages.Closed };

    ghost view = { λ c. record { first = c.first; tick = c.tick; came = came_of c.came } };
}
