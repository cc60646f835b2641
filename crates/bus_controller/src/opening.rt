//! What a controller waits for before its next attempt.
ghost use Rattle.std.specs.Prelude.{◌≡◌};
ghost use Rattle.bus_controller.specs.Agendas.{opens_after};
ghost use Rattle.bus_controller.specs.Agendas as spec;

use bus_base::{Channel, Tick};
use bus_formats::{LEAST_QUIET, Outcome, SETTLING_QUIET};

/// What the next attempt waits for.
#[derive(Clone, Copy)]
pub enum Opening {
    /// So many ticks in which both channels are quiet.
    Usual { need: u16 },
    /// Nothing: it supersedes an abandoned message, on this channel (MIL-STD-1553B 4.4.3.2).
    Superseding(Channel),
    /// This tick: control was taken.
    Taking(Tick),
}

impl Opening {
    /// What is waited for after a message on this channel that ended so.
    pub(crate) fn after(outcome: Outcome, channel: Channel) -> Opening
        ensures { result ≡ opens_after outcome channel }
    {
        match outcome {
            Outcome::Abandoned => Opening::Superseding(channel.other()),
            Outcome::Clear | Outcome::Sent | Outcome::Declined => Opening::Usual {
                need: LEAST_QUIET,
            },
            _ => Opening::Usual {
                need: SETTLING_QUIET,
            },
        }
    }

    /// Whether the channels must settle first, after so many quiet ticks.
    pub(crate) fn is_unsettled(self, quiet: u64) -> bool
        ensures { result ≡ spec.is_unsettled self quiet }
    {
        match self {
            Opening::Usual { need } => need == SETTLING_QUIET && quiet < u64::from(SETTLING_QUIET),
            Opening::Superseding(_) | Opening::Taking(_) => false,
        }
    }
}
