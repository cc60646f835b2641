//! Another station holds control.
ghost use Rattle.std.specs.Prelude.{◌≡◌, ◌≤◌, List, length};
ghost use Rattle.bus_base.specs.declared.samples.Pair.{Pair};
ghost use Rattle.bus_line.specs.declared.cutter.TheConstants.{LAG};
ghost use Rattle.bus_model.specs.Course.{Course, take_control};
ghost use Rattle.bus_receiver.specs.Moments.{moment_of};
ghost use Rattle.bus_controller.specs.Stands.{YieldedStands, WaitStands, NextStands};
ghost use Rattle.bus_controller.specs.Steps.{from_yielded, taken};

use crate::agenda::Agenda;
use crate::holding::Holding;
use crate::opening::Opening;
use crate::states::{ControllerNext, ControllerState};
use bus_base::Tick;
use bus_receiver::Moment;

/// It sends nothing.
#[derive(Drop)]
pub struct Yielded {
    pub(crate) agenda: Agenda,
}

impl Yielded {
    /// Hears a tick. Whatever course and past it stands for, the next state stands for them one tick later, and it tells of the attempt that ended
    /// in the tick.
    pub fn hear(self, _moment: Moment) -> ControllerNext
        ensures step { result ≡ from_yielded self }
        ensures stands { (c : Course) (shown : Pair) (past : List Pair) → YieldedStands c self →
            NextStands LAG c shown past result }
    {
        ControllerNext::going(ControllerState::Yielded(self))
    }

    /// Takes control. The first command starts in this tick, which is after the last that was heard.
    pub fn take(self, first: Tick) -> Holding
        ensures step { result ≡ taken self first }
        ensures stands { (c : Course) (past : List Pair) → YieldedStands c self → length past ≤ first.0 →
            WaitStands (take_control first.0 c) past result.agenda result.opening }
    {
        let mut agenda = self.agenda;
        agenda.take(first);
        Holding {
            agenda,
            opening: Opening::Taking(first),
            quiet: 0,
        }
    }
}
