//! The states of a controller. Hearing a tick consumes a state and gives the next one.
ghost use Rattle.std.specs.Prelude.{◌≡◌, true, false, not, List, length};
ghost use Rattle.bus_base.specs.declared.samples.Pair.{Pair};
ghost use Rattle.bus_line.specs.declared.cutter.TheConstants.{LAG};
ghost use Rattle.bus_model.specs.Course.{Course, drive_course};
ghost use Rattle.bus_receiver.specs.Moments.{moment_of};
ghost use Rattle.bus_controller.specs.Stands.{StateStands, NextStands};
ghost use Rattle.bus_controller.specs.Steps.{going, next_of_state, driven_by, serves, left_of, taken_by};

use crate::doubting::Doubting;
use crate::expecting::Expecting;
use crate::holding::{Holding, wait};
use crate::sending::Sending;
use crate::settling::Settling;
use crate::yielded::Yielded;
use bus_base::{Drive, Tick};
use bus_formats::Attempt;
use bus_receiver::Moment;

/// A controller in one of its states.
#[derive(Drop)]
pub enum ControllerState {
    /// No message is open, and the next may start.
    Holding(Holding),
    /// Its command is sent.
    Sending(Sending),
    /// An answer is awaited or heard.
    Expecting(Expecting),
    /// No message is open, and the channels settle.
    Settling(Settling),
    /// An offer of control was answered badly.
    Doubting(Doubting),
    /// Another station holds control.
    Yielded(Yielded),
}

/// What a controller tells of a tick.
#[derive(Drop)]
pub enum ControllerEvent {
    /// No message ended.
    Nothing,
    /// A message ended. The number of the station is 0 in its record.
    Ended(Attempt),
}

/// The state after a tick, and what is told of it.
#[derive(Drop)]
pub struct ControllerNext {
    pub state: ControllerState,
    pub event: ControllerEvent,
}

impl ControllerNext {
    /// No message ended.
    pub(crate) fn going(state: ControllerState) -> ControllerNext
        ensures { result ≡ going state }
    {
        ControllerNext {
            state,
            event: ControllerEvent::Nothing,
        }
    }
}

impl ControllerState {
    /// Hears a tick. Whatever course and past it stands for, the next state stands for them one tick later, and it tells of the attempt that ended
    /// in the tick.
    pub fn hear(self, moment: Moment) -> ControllerNext
        ensures step { result ≡ next_of_state LAG self moment }
        ensures stands { (c : Course) (shown : Pair) (past : List Pair) → StateStands LAG c past self → moment ≡ moment_of LAG shown past →
            NextStands LAG c shown past result }
    {
        self.step(moment)
    }

    fn step(self, moment: Moment) -> ControllerNext
        ensures { result ≡ next_of_state LAG self moment }
    {
        match self {
            ControllerState::Holding(state) => state.hear(moment),
            ControllerState::Sending(state) => state.hear(moment),
            ControllerState::Expecting(state) => state.hear(moment),
            ControllerState::Settling(state) => state.hear(moment),
            ControllerState::Doubting(state) => state.hear(moment),
            ControllerState::Yielded(state) => state.hear(moment),
        }
    }

    /// Hears a tick in place, where nothing begins or ends in it. False where something does: then the tick isn't heard.
    #[inline(always)]
    pub(crate) fn stay(&mut self, moment: &Moment) -> bool
        ensures stays { result ≡ true → next_of_state LAG self.old moment.now ≡ going self.new }
        ensures same { result ≡ false → self.new ≡ self.old }
    {
        match self {
            ControllerState::Holding(state) => state.stay(moment),
            ControllerState::Sending(state) => state.stay(moment),
            ControllerState::Expecting(state) => state.stay(moment),
            ControllerState::Settling(state) => state.stays(moment),
            ControllerState::Doubting(state) => state.stays(moment),
            ControllerState::Yielded(_) => true,
        }
    }

    /// What is sent in the tick to come.
    pub fn drive(&self) -> Drive
        ensures state { result ≡ driven_by self.now }
        ensures drives { (c : Course) (past : List Pair) → StateStands LAG c past self.now → result ≡ drive_course LAG past c }
    {
        match self {
            ControllerState::Sending(state) => state.drive(),
            _ => Drive::Silent,
        }
    }

    /// Whether another station holds control.
    pub fn serves(&self) -> bool
        ensures state { result ≡ serves self.now }
        ensures holds { (c : Course) (past : List Pair) → StateStands LAG c past self.now → result ≡ not c.holds }
    {
        matches!(self, ControllerState::Yielded(_))
    }

    /// How many items are left.
    pub fn items_left(&self) -> u32
        ensures state { result ≡ length (left_of self.now) }
        ensures left { (c : Course) (past : List Pair) → StateStands LAG c past self.now → result ≡ length c.left }
    {
        match self {
            ControllerState::Holding(state) => state.agenda.items_left(),
            ControllerState::Sending(state) => state.agenda.items_left(),
            ControllerState::Expecting(state) => state.agenda.items_left(),
            ControllerState::Settling(state) => state.agenda.items_left(),
            ControllerState::Doubting(state) => state.agenda.items_left(),
            ControllerState::Yielded(state) => state.agenda.items_left(),
        }
    }

    /// Takes control, where another station holds it. The first command starts in this tick. `next` is the tick to come, before which both
    /// channels were quiet for so many ticks.
    pub(crate) fn take(self, first: Tick, next: Tick, quiet: u64) -> ControllerState
        ensures { result ≡ taken_by self first next.0 quiet }
    {
        match self {
            ControllerState::Yielded(state) => {
                let holding = state.take(first);
                wait(holding.agenda, holding.opening, next, quiet)
            }
            other => other,
        }
    }
}
