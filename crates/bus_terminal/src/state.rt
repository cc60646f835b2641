//! The states of a terminal, and what a tick leaves.
ghost use Rattle.std.specs.Prelude.{◌≡◌, ◌≤◌, ◌<◌, ◌+◌, ◌^◌, ◌∷◌, ℕ, Bool, List, Option, Some, None, length};
ghost use Rattle.bus_line.specs.declared.cutter.TheConstants.{LAG};
ghost use Rattle.bus_formats.specs.Plans.{TerminalData};
ghost use Rattle.bus_model.specs.Memory.{TimedLoad};
ghost use Rattle.bus_model.specs.Orders.{due_after};
ghost use Rattle.bus_model.specs.Hearing.{Moment};
ghost use Rattle.bus_model.specs.Standing.{Standing, Handled as Order};
ghost use Rattle.bus_model.specs.Terminal.{order_now, marked_by, accepted_on};
ghost use Rattle.bus_terminal.specs.Handling as handling;
ghost use Rattle.bus_terminal.specs.Holding.{EarsStand, AreCuts};
ghost use Rattle.bus_terminal.specs.Stands as stands;
ghost use Rattle.bus_terminal.specs.Shown as shown;
ghost use Rattle.bus_terminal.specs.declared.common.Common.{Common as CommonData};
ghost use Rattle.bus_terminal.specs.Hearing.{StateHeard, AfterStep};
ghost use Rattle.bus_terminal.specs.Steps as spec;
ghost use Rattle.bus_terminal.specs.Needs.{state_needs};

use crate::common::{BothHeard, Common, either};
use crate::handling::{Handled, Performed, Waiting, perform};
use crate::{Answering, Listening, Owing, Promised};
use bus_base::{Channel, Drive, Pair, Part, Tick};
use bus_formats::{Delivery, TerminalPlan, dead_ticks};
use bus_orders::{Answer, Duty, Taken};
use bus_receiver::Cuts;

/// What a terminal tells of a tick: a block that it took whole, or that it accepted control of the bus.
#[derive(Drop)]
pub enum TerminalEvent {
    Nothing,
    Took(Delivery),
    Accepted,
}

/// A terminal in one of its states.
#[derive(Drop)]
pub enum TerminalState {
    Listening(Listening),
    Promised(Promised),
    Owing(Owing),
    Answering(Answering),
}

/// The state after a tick, and what is told of the tick.
#[derive(Drop)]
pub struct TerminalNext {
    pub state: TerminalState,
    pub event: TerminalEvent,
}

/// Whether a state stays after a tick that its ears heard, or may change by what they told of it.
pub enum Step {
    Stays,
    Changes(BothHeard),
}

impl Step {
    /// A state that changes does so by what its ears told.
    #[inline(always)]
    pub(crate) fn of(changes: bool, both: BothHeard) -> Step
        ensures { result ≡ spec.step_told changes both }
    {
        if changes {
            Step::Changes(both)
        } else {
            Step::Stays
        }
    }
}

/// An answer on a channel, to a burst that ended at `end`.
#[derive(Drop)]
pub struct Sends {
    pub(crate) channel: Channel,
    pub(crate) end: u64,
    pub(crate) part: Part,
    pub(crate) answer: Answer,
}

/// The tick in which an answer begins to a burst that ended at `end`.
pub(crate) fn due(plan: &TerminalPlan, end: u64) -> u64
    requires { end < 2 ^ 60 }
    ensures { result ≡ due_after plan.now end }
{
    end + u64::from(dead_ticks(u16::from(plan.delay)))
}

/// The state that an order leaves, where `next` is the tick to come.
pub(crate) fn stand(
    common: Common,
    superseded: bool,
    next: u64,
    performed: Performed,
) -> TerminalState
    requires { performed.end < 2 ^ 60 }
    ensures { result ≡ spec.stands_told common superseded next performed.channel performed.end performed.part performed.done.duty }
{
    let Performed {
        channel,
        end,
        part,
        done,
    } = performed;
    if superseded {
        return TerminalState::Listening(Listening { common });
    }
    match done.duty {
        Duty::Free => TerminalState::Listening(Listening { common }),
        Duty::Promises(promise) => {
            let waiting = Waiting {
                channel,
                end,
                promise,
            };
            TerminalState::Promised(Promised {
                common,
                waiting,
                heard: false,
            })
        }
        Duty::Owes(answer) => {
            let sends = Sends {
                channel,
                end,
                part,
                answer,
            };
            owe(common, next, sends)
        }
    }
}

/// The state of a terminal that owes an answer, where `next` is the tick to come.
pub(crate) fn owe(common: Common, next: u64, sends: Sends) -> TerminalState
    requires { sends.end < 2 ^ 60 }
    ensures { result ≡ spec.owes_told common next sends }
{
    if next < due(&common.plan, sends.end) {
        TerminalState::Owing(Owing { common, sends })
    } else {
        TerminalState::Answering(Answering {
            common,
            sends,
            sent: 0,
        })
    }
}

/// What is told of an order in the tick `now`.
pub(crate) fn told(now: u64, channel: Channel, taken: Option<Taken>) -> TerminalEvent
    ensures { result ≡ spec.event_told now channel taken }
{
    match taken {
        None => TerminalEvent::Nothing,
        Some(block) => TerminalEvent::Took(Delivery {
            tick: Tick(now),
            channel,
            sub: block.sub,
            broadcast: block.broadcast,
            words: block.words,
        }),
    }
}

/// Does what is handled in the tick `now`, which the ears have heard.
pub(crate) fn act(common: Common, now: u64, handled: Handled, may_accept: bool) -> TerminalNext
    requires address { common.plan.address ≤ 31 }
    requires now { now < 2 ^ 60 }
    requires end { handling.EndFits handled }
    ensures { (terminal : TerminalData) (loads : List TimedLoad) (before : CommonData) (past : List Moment) (moment : Moment) (s : Standing) (order : Order) →
        stands.CommonStands LAG terminal loads before past s → order_now LAG terminal (moment ∷ past) s ≡ Some order →
        handling.HandledIs handled order s → common.plan ≡ before.plan → common.memory ≡ before.memory →
        ((after : Standing) → EarsStand LAG terminal.address common.ears (moment ∷ past) (marked_by LAG terminal moment past s after)) →
        now ≡ length past → moment.has_items ≡ may_accept → stands.NextStands LAG terminal loads result past moment s None }
{
    let mut common = common;
    let mut performed = perform(&common.plan, &mut common.memory, handled, may_accept);
    let event = told(now, performed.channel, performed.done.taken.take());
    let superseded = common.ears.supersede(performed.channel, performed.end);
    TerminalNext {
        state: stand(common, superseded, now + 1, performed),
        event,
    }
}

impl TerminalState {
    /// Hears what both channels show in the tick `now`, the number of the ticks heard before, and what became known with it, and stays unless something is handled or it is left.
    #[inline(always)]
    pub(crate) fn listen(&mut self, now: Tick, heard: Pair, cuts: &Cuts) -> Step
        requires { (terminal : TerminalData) × (loads : List TimedLoad) × (past : List Moment) × (s : Standing)
            × stands.StateStands LAG terminal loads self.old past s × AreCuts LAG cuts.now heard past × (length past ≡ now.0) × (now.0 < 2 ^ 60) }
        ensures { (terminal : TerminalData) (loads : List TimedLoad) (past : List Moment) (s : Standing) (may : Bool) →
            stands.StateStands LAG terminal loads self.old past s → AreCuts LAG cuts.now heard past → length past ≡ now.0 →
            AfterStep LAG terminal loads self.new result past (record { shown = heard; has_items = may }) s
            (accepted_on LAG terminal loads (record { shown = heard; has_items = may }) past s) }
    {
        match self {
            TerminalState::Listening(state) => state.listen(now, heard, cuts),
            TerminalState::Promised(state) => state.listen(now, heard, cuts),
            TerminalState::Owing(state) => state.listen(now, heard, cuts),
            TerminalState::Answering(state) => state.listen(now, heard, cuts),
        }
    }

    /// The state after the tick `now`, which its ears have heard. `may_accept` says that the terminal's station has items left.
    pub(crate) fn next(
        self,
        now: Tick,
        heard: Pair,
        both: BothHeard,
        may_accept: bool,
    ) -> TerminalNext
        requires { (terminal : TerminalData) × (loads : List TimedLoad) × (past : List Moment) × (moment : Moment) × (s : Standing)
            × StateHeard LAG terminal loads self both past moment s × (length past ≡ now.0) × (now.0 < 2 ^ 60) }
        ensures { (terminal : TerminalData) (loads : List TimedLoad) (past : List Moment) (moment : Moment) (s : Standing) →
            StateHeard LAG terminal loads self both past moment s → length past ≡ now.0 → moment.shown ≡ heard → moment.has_items ≡ may_accept →
            stands.NextStands LAG terminal loads result past moment s (accepted_on LAG terminal loads moment past s) }
    {
        match self {
            TerminalState::Listening(state) => state.next(now, both, may_accept),
            TerminalState::Promised(state) => state.next(now, both, may_accept),
            TerminalState::Owing(state) => state.next(now, heard, both, may_accept),
            TerminalState::Answering(state) => state.next(now, both, may_accept),
        }
    }
}

impl TerminalState {
    pub(crate) fn common(&self) -> &Common
        ensures { result.now ≡ shown.common_of self.now }
    {
        match self {
            TerminalState::Listening(state) => &state.common,
            TerminalState::Promised(state) => &state.common,
            TerminalState::Owing(state) => &state.common,
            TerminalState::Answering(state) => &state.common,
        }
    }

    /// Makes the transmit block of a subaddress, 1 to 29, exactly the words, 1 to 32.
    pub(crate) fn load(&mut self, sub: u8, words: &[u16])
        requires first { 1 ≤ sub }
        requires last { sub ≤ 29 }
        requires some { 1 ≤ length words.now }
        requires fits { length words.now ≤ 32 }
        ensures { self.new ≡ shown.loaded_state self.old sub words.now }
    {
        match self {
            TerminalState::Listening(state) => state.common.memory.load(sub, words),
            TerminalState::Promised(state) => state.common.memory.load(sub, words),
            TerminalState::Owing(state) => state.common.memory.load(sub, words),
            TerminalState::Answering(state) => state.common.memory.load(sub, words),
        }
    }

    pub(crate) fn drive(&self) -> Drive
        ensures { result ≡ shown.drive_told self.now }
    {
        match self {
            TerminalState::Answering(state) => state.drive(),
            TerminalState::Listening(_) | TerminalState::Promised(_) | TerminalState::Owing(_) =>
                Drive::Silent,
        }
    }
    /// Whether it has to hear each tick.
    #[inline(always)]
    pub(crate) fn needs_each_tick(&self) -> bool
        ensures { result ≡ state_needs self.now }
    {
        match self {
            TerminalState::Listening(state) => state.common.ears.count(),
            TerminalState::Promised(state) => either(!state.heard, state.common.ears.count()),
            TerminalState::Owing(_) | TerminalState::Answering(_) => true,
        }
    }
}
