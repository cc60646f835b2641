//! Control is held, and no message is open.
ghost use Rattle.std.specs.Prelude.{◌≡◌, true, false, List};
ghost use Rattle.bus_base.specs.declared.samples.Pair.{Pair};
ghost use Rattle.bus_line.specs.declared.cutter.TheConstants.{LAG};
ghost use Rattle.bus_model.specs.Course.{Course};
ghost use Rattle.bus_receiver.specs.Moments.{moment_of};
ghost use Rattle.bus_controller.specs.Stands.{HoldingStands, NextStands};
ghost use Rattle.bus_controller.specs.Steps.{may_start, starts_with, begins_with, waits, begins, from_holding, going};
ghost use Rattle.bus_controller.specs.declared.states.ControllerState.TheVariants as states;

use crate::agenda::Agenda;
use crate::opening::Opening;
use crate::sending::Sending;
use crate::settling::Settling;
use crate::states::{ControllerNext, ControllerState};
use bus_base::Tick;
use bus_receiver::Moment;

/// No message is open, and the next starts as soon as it may.
#[derive(Drop)]
pub struct Holding {
    pub(crate) agenda: Agenda,
    pub(crate) opening: Opening,
    // the ticks in a row up to now in which both channels were quiet
    pub(crate) quiet: u64,
}

impl Holding {
    /// Whether the next message may start in this tick, the one to come.
    pub fn may_start(&self, now: Tick) -> bool
        ensures { result ≡ may_start self.now now.0 }
    {
        self.agenda.may_start(self.opening, self.quiet, now)
    }

    /// Starts the next message in this tick. No other state has a call that starts one.
    pub fn start(self, now: Tick) -> Sending
        requires { may_start self now.0 ≡ true }
        ensures { begins_with self (starts_with self now.0) ≡ states.Sending result }
    {
        match self.agenda.begin(self.opening, now) {
            Some(begun) => Sending::new(self.agenda, begun),
            None => unreachable!(),
        }
    }

    /// Hears a tick in place, where the wait goes on. False where it doesn't: then the tick isn't heard.
    #[inline(always)]
    pub(crate) fn stay(&mut self, moment: &Moment) -> bool
        ensures stays { result ≡ true → from_holding self.old moment.now ≡ going (states.Holding self.new) }
        ensures same { result ≡ false → self.new ≡ self.old }
    {
        if self.opening.is_unsettled(moment.quiet()) {
            return false;
        }
        if self
            .agenda
            .may_start(self.opening, moment.quiet(), moment.next())
        {
            return false;
        }
        self.quiet = moment.quiet();
        true
    }

    /// Hears a tick. Whatever course and past it stands for, the next state stands for them one tick later, and it tells of the attempt that ended
    /// in the tick.
    pub fn hear(self, moment: Moment) -> ControllerNext
        ensures step { result ≡ from_holding self moment }
        ensures stands { (c : Course) (shown : Pair) (past : List Pair) → HoldingStands c past self → moment ≡ moment_of LAG shown past →
            NextStands LAG c shown past result }
    {
        ControllerNext::going(wait(self.agenda, self.opening, moment.next(), moment.quiet()))
    }
}

/// The state of a controller that holds control, before this tick and after so many quiet ones.
pub(crate) fn wait(agenda: Agenda, opening: Opening, next: Tick, quiet: u64) -> ControllerState
    ensures { result ≡ waits agenda opening next.0 quiet }
{
    if opening.is_unsettled(quiet) {
        return ControllerState::Settling(Settling { agenda });
    }
    begin(
        Holding {
            agenda,
            opening,
            quiet,
        },
        next,
    )
}

fn begin(holding: Holding, next: Tick) -> ControllerState
    ensures { result ≡ begins holding next.0 }
{
    if holding.may_start(next) {
        ControllerState::Sending(holding.start(next))
    } else {
        ControllerState::Holding(holding)
    }
}
