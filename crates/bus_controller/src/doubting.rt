//! An offer of control was answered badly.
ghost use Rattle.std.specs.Prelude.{◌≡◌, true, List};
ghost use Rattle.bus_base.specs.declared.samples.Pair.{Pair};
ghost use Rattle.bus_line.specs.declared.cutter.TheConstants.{LAG};
ghost use Rattle.bus_model.specs.Course.{Course};
ghost use Rattle.bus_receiver.specs.Moments.{moment_of};
ghost use Rattle.bus_controller.specs.Stands.{DoubtingStands, NextStands};
ghost use Rattle.bus_controller.specs.Steps.{from_doubting, doubts, going};
ghost use Rattle.bus_controller.specs.declared.states.ControllerState.TheVariants as states;

use crate::agenda::Agenda;
use crate::attempt::{Begun, Ended};
use crate::close::close;
use crate::states::{ControllerNext, ControllerState};
use bus_base::{Part, Tick};
use bus_formats::{DOUBTING, Outcome};
use bus_receiver::Moment;

/// A bad answer to an offer ended, and both channels were quiet since.
#[derive(Drop)]
pub struct Doubting {
    pub(crate) agenda: Agenda,
    pub(crate) begun: Begun,
    // where the answer ended
    pub(crate) end: Tick,
}

impl Doubting {
    /// Whether it is in doubt after this tick too, so that nothing changes.
    #[inline(always)]
    pub(crate) fn stays(&self, moment: &Moment) -> bool
        ensures { result ≡ true → from_doubting self.now moment.now ≡ going (states.Doubting self.now) }
    {
        let since = moment.next().0.saturating_sub(self.end.0);
        moment.quiet() >= since && since != DOUBTING
    }

    /// Hears a tick. Whatever course and past it stands for, the next state stands for them one tick later, and it tells of the attempt that ended
    /// in the tick.
    pub fn hear(self, moment: Moment) -> ControllerNext
        ensures step { result ≡ from_doubting self moment }
        ensures stands { (c : Course) (shown : Pair) (past : List Pair) → DoubtingStands LAG c past self → moment ≡ moment_of LAG shown past →
            NextStands LAG c shown past result }
    {
        doubt(self.agenda, self.begun, self.end, moment)
    }
}

/// Control is kept where both channels are quiet for 80 ticks from the end of the answer on, and yielded at the first sample in these.
pub(crate) fn doubt(agenda: Agenda, begun: Begun, end: Tick, moment: Moment) -> ControllerNext
    ensures { result ≡ doubts agenda begun end moment }
{
    let since = moment.next().0.saturating_sub(end.0);
    if moment.quiet() < since {
        let ended = Ended::without_words(Outcome::Yielded, None, None);
        return close(agenda, begun, ended, moment);
    }
    if since == DOUBTING {
        let ended = Ended::without_words(Outcome::BadReply(Part::First), None, None);
        return close(agenda, begun, ended, moment);
    }
    ControllerNext::going(ControllerState::Doubting(Doubting { agenda, begun, end }))
}
