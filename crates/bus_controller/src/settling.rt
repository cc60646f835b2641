//! Control is held, and the channels settle after a message that didn't go well.
ghost use Rattle.std.specs.Prelude.{◌≡◌, true, List};
ghost use Rattle.bus_base.specs.declared.samples.Pair.{Pair};
ghost use Rattle.bus_line.specs.declared.cutter.TheConstants.{LAG};
ghost use Rattle.bus_model.specs.Course.{Course};
ghost use Rattle.bus_receiver.specs.Moments.{moment_of};
ghost use Rattle.bus_controller.specs.Stands.{SettlingStands, NextStands};
ghost use Rattle.bus_controller.specs.Steps.{from_settling, going};
ghost use Rattle.bus_controller.specs.declared.states.ControllerState.TheVariants as states;

use crate::agenda::Agenda;
use crate::holding::wait;
use crate::opening::Opening;
use crate::states::ControllerNext;
use bus_formats::SETTLING_QUIET;
use bus_receiver::Moment;

/// No message is open, and both channels were quiet for fewer than 40 ticks.
#[derive(Drop)]
pub struct Settling {
    pub(crate) agenda: Agenda,
}

impl Settling {
    /// Whether the channels settle on in this tick, so that nothing changes.
    #[inline(always)]
    pub(crate) fn stays(&self, moment: &Moment) -> bool
        ensures { result ≡ true → from_settling self.now moment.now ≡ going (states.Settling self.now) }
    {
        moment.quiet() < u64::from(SETTLING_QUIET)
    }

    /// Hears a tick. Whatever course and past it stands for, the next state stands for them one tick later, and it tells of the attempt that ended
    /// in the tick.
    pub fn hear(self, moment: Moment) -> ControllerNext
        ensures step { result ≡ from_settling self moment }
        ensures stands { (c : Course) (shown : Pair) (past : List Pair) → SettlingStands c past self → moment ≡ moment_of LAG shown past →
            NextStands LAG c shown past result }
    {
        let opening = Opening::Usual {
            need: SETTLING_QUIET,
        };
        ControllerNext::going(wait(self.agenda, opening, moment.next(), moment.quiet()))
    }
}
