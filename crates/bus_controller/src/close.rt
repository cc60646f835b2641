//! The end of a message.
ghost use Rattle.std.specs.Prelude.{◌≡◌};
ghost use Rattle.bus_model.specs.Course.{gives};
ghost use Rattle.bus_controller.specs.Steps.{closes, goes_on};

use crate::agenda::Agenda;
use crate::attempt::{Begun, Ended, recorded};
use crate::holding::wait;
use crate::opening::Opening;
use crate::states::{ControllerEvent, ControllerNext, ControllerState};
use crate::yielded::Yielded;
use bus_formats::Outcome;
use bus_receiver::Moment;

/// The message of an attempt ended so in this tick. It takes no memory.
pub(crate) fn close(agenda: Agenda, begun: Begun, ended: Ended, moment: Moment) -> ControllerNext
    ensures { result ≡ closes agenda begun ended moment }
{
    let mut agenda = agenda;
    let outcome = ended.outcome;
    let finishes = agenda.close(&begun, outcome);
    let opening = Opening::after(outcome, begun.state.channel);
    let attempt = recorded(&begun, ended, moment.tick(), finishes);
    ControllerNext {
        state: go_on(gives_control(outcome), agenda, opening, moment),
        event: ControllerEvent::Ended(attempt),
    }
}

fn go_on(gives_control: bool, agenda: Agenda, opening: Opening, moment: Moment) -> ControllerState
    ensures { result ≡ goes_on gives_control agenda opening moment }
{
    if gives_control {
        ControllerState::Yielded(Yielded { agenda })
    } else {
        wait(agenda, opening, moment.next(), moment.quiet())
    }
}

// Control is given away by an offer that was accepted.
fn gives_control(outcome: Outcome) -> bool
    ensures { result ≡ gives outcome }
{
    matches!(outcome, Outcome::Passed | Outcome::Yielded)
}
