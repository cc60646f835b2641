//! The controller that a station has.
ghost use Rattle.std.specs.Prelude.{◌≡◌, ◌≢◌, ℕ, ◌<◌, ◌≤◌, ◌^◌, Bool, true, false, not, ◌&&◌, is_none, List, [], ◌∷◌, ◌++◌, length, Some};
ghost use Rattle.bus_base.specs.declared.samples.Pair.{Pair};
ghost use Rattle.bus_line.specs.Channels.{quiet_both};
ghost use Rattle.bus_line.specs.declared.cutter.TheConstants.{LAG};
ghost use Rattle.bus_formats.specs.Plans.{StationData};
ghost use Rattle.bus_model.specs.Starts.{has_items};
ghost use Rattle.bus_model.specs.Course.{Take, course, drive_course};
ghost use Rattle.bus_controller.specs.Stands.{told};
ghost use Rattle.bus_controller.specs.Steps.{next_of_state, going, serves, taken_by};
ghost use Rattle.bus_controller.specs.AgendaOf.{IsAgendaOf};
ghost use Rattle.bus_controller.specs.ControllerStands.{ControllerStands, ControllerKeeps};
ghost use Rattle.bus_receiver.specs.Cuts.{CuttersHear};
ghost use Rattle.bus_receiver.specs.Moments.{moment_of, ReceiverStands};

use crate::agenda::Agenda;
use crate::holding::wait;
use crate::opening::Opening;
use crate::states::{ControllerEvent, ControllerState};
use crate::yielded::Yielded;
use bus_base::{Drive, Pair, Tick};
use bus_formats::LEAST_QUIET;
use bus_receiver::{Moment, Receiver};

/// A bus controller. It stands for every history of both channels that it heard and every list of takes. It hears both channels by its own receiver,
/// or is told what another receiver heard.
#[derive(Drop)]
pub struct Controller {
    receiver: Receiver,
    state: ControllerState,
}

impl Controller {
    /// A controller that holds control from the start.
    pub fn starting(agenda: Agenda) -> Controller
        ensures { (station : StationData) → IsAgendaOf station agenda → ControllerStands LAG station true [] result [] }
    {
        Controller {
            receiver: Receiver::new(),
            state: wait(agenda, Opening::Usual { need: LEAST_QUIET }, Tick(0), 0),
        }
    }

    /// A controller without control.
    pub fn yielded(agenda: Agenda) -> Controller
        ensures { (station : StationData) → IsAgendaOf station agenda → ControllerStands LAG station false [] result [] }
    {
        Controller {
            receiver: Receiver::new(),
            state: ControllerState::Yielded(Yielded { agenda }),
        }
    }

    /// Hears what both channels showed in a tick, which follows those heard before, and tells of the attempt that ended in it: its frame,
    /// item, turn, channel, start and message, how it ended, what was kept, and whether its item is finished. It takes no memory.
    #[inline(always)]
    pub fn hear(&mut self, now: Tick, heard: Pair) -> ControllerEvent
        requires { (station : StationData) × (starts : Bool) × (takes : List Take) × (past : List Pair) ×
            ControllerStands LAG station starts takes self.old past × (now.0 ≡ length past) × (length past < 2 ^ 60) }
        ensures event { (station : StationData) (starts : Bool) (takes : List Take) (past : List Pair) → ControllerStands LAG station starts takes self.old past →
            (course LAG station starts takes (heard ∷ past)).ended ≡ told result ++ (course LAG station starts takes past).ended }
        ensures stands { (station : StationData) (starts : Bool) (takes : List Take) (past : List Pair) → ControllerStands LAG station starts takes self.old past →
            ControllerStands LAG station starts takes self.new (heard ∷ past) }
    {
        let moment = self.receive(now, heard);
        self.learn(&moment)
    }

    /// What its own receiver tells of the tick. Of all else it hears that tick by `learn`.
    #[inline(always)]
    pub fn receive(&mut self, now: Tick, heard: Pair) -> Moment
        requires { (past : List Pair) × ReceiverStands LAG self.old.receiver past × (now.0 ≡ length past) × (length past < 2 ^ 60) }
        ensures state { self.new.state ≡ self.old.state }
        ensures moment { (past : List Pair) → ReceiverStands LAG self.old.receiver past → result ≡ moment_of LAG heard past }
        ensures stands { (past : List Pair) → ReceiverStands LAG self.old.receiver past → ReceiverStands LAG self.new.receiver (heard ∷ past) }
        ensures hears { CuttersHear LAG self.old.receiver.cutters self.new.receiver.cutters heard result.cuts }
    {
        self.receiver.hear(now, heard)
    }

    /// Hears the newest tick as `hear` does, where a receiver told this of it. Its own receiver doesn't hear it. Where it has no control it needs to hear
    /// nothing.
    #[inline(always)]
    pub fn learn(&mut self, moment: &Moment) -> ControllerEvent
        ensures event { (station : StationData) (starts : Bool) (takes : List Take) (past : List Pair) → ControllerKeeps LAG station starts takes self.old past →
            moment.now ≡ moment_of LAG moment.now.shown past →
            (course LAG station starts takes (moment.now.shown ∷ past)).ended ≡ told result ++ (course LAG station starts takes past).ended }
        ensures stands { (station : StationData) (starts : Bool) (takes : List Take) (past : List Pair) → ControllerKeeps LAG station starts takes self.old past →
            moment.now ≡ moment_of LAG moment.now.shown past → ControllerKeeps LAG station starts takes self.new (moment.now.shown ∷ past) }
        ensures receiver { self.new.receiver ≡ self.old.receiver }
    {
        self.step(moment)
    }

    /// Hears the newest tick as `learn` does, where a receiver told this of it and nothing begins or ends in it. False where something does: then the tick
    /// isn't heard.
    #[inline(always)]
    pub fn stay(&mut self, moment: &Moment) -> bool
        ensures event { (station : StationData) (starts : Bool) (takes : List Take) (past : List Pair) → ControllerKeeps LAG station starts takes self.old past →
            moment.now ≡ moment_of LAG moment.now.shown past → result ≡ true →
            (course LAG station starts takes (moment.now.shown ∷ past)).ended ≡ (course LAG station starts takes past).ended }
        ensures stands { (station : StationData) (starts : Bool) (takes : List Take) (past : List Pair) → ControllerKeeps LAG station starts takes self.old past →
            moment.now ≡ moment_of LAG moment.now.shown past → result ≡ true → ControllerKeeps LAG station starts takes self.new (moment.now.shown ∷ past) }
        ensures receiver { self.new.receiver ≡ self.old.receiver }
        ensures same { result ≡ false → self.new ≡ self.old }
    {
        self.stays(moment)
    }

    #[inline(always)]
    fn stays(&mut self, moment: &Moment) -> bool
        ensures stays { result ≡ true → next_of_state LAG self.old.state moment.now ≡ going self.new.state }
        ensures receiver { self.new.receiver ≡ self.old.receiver }
        ensures same { result ≡ false → self.new ≡ self.old }
    {
        self.state.stay(moment)
    }

    // Mostly nothing begins or ends in a tick: then the state isn't moved.
    #[inline(always)]
    fn step(&mut self, moment: &Moment) -> ControllerEvent
        ensures receiver { self.new.receiver ≡ self.old.receiver }
        ensures state { self.new.state ≡ (next_of_state LAG self.old.state moment.now).state }
        ensures event { result ≡ (next_of_state LAG self.old.state moment.now).event }
    {
        if self.state.stay(moment) {
            return ControllerEvent::Nothing;
        }
        self.change(*moment)
    }

    #[inline(never)]
    fn change(&mut self, moment: Moment) -> ControllerEvent
        ensures receiver { self.new.receiver ≡ self.old.receiver }
        ensures state { self.new.state ≡ (next_of_state LAG self.old.state moment).state }
        ensures event { result ≡ (next_of_state LAG self.old.state moment).event }
    {
        core::mem::replace_with(
            &mut self.state,
            moment,
            |state: ControllerState, moment: Moment| {
                let next = state.hear(moment);
                (next.state, next.event)
            },
        )
    }

    /// What it sends in the tick to come.
    pub fn drive(&self) -> Drive
        ensures { (station : StationData) (starts : Bool) (takes : List Take) (past : List Pair) → ControllerKeeps LAG station starts takes self.now past →
            result ≡ drive_course LAG past (course LAG station starts takes past) }
    {
        self.state.drive()
    }

    /// Takes control, where it has none and has items left. The first command starts in this tick, which is after the last that was heard.
    pub fn take(&mut self, first: Tick)
        requires { (station : StationData) × (starts : Bool) × (takes : List Take) × (past : List Pair) ×
            ControllerStands LAG station starts takes self.old past × ((course LAG station starts takes past).holds ≡ false)
            × ((course LAG station starts takes past).left ≢ []) × (length past ≤ first.0) }
        ensures { (station : StationData) (starts : Bool) (takes : List Take) (past : List Pair) → ControllerStands LAG station starts takes self.old past →
            (course LAG station starts takes past).holds ≡ false → length past ≤ first.0 →
            ControllerStands LAG station starts (takes ++ record { heard = length past; first = first.0 } ∷ []) self.new past }
    {
        let next = self.receiver.next();
        let quiet = self.receiver.quiet();
        self.take_with(first, next, quiet);
    }

    /// Takes control as `take` does, where `next` is the tick to come, before which both channels were quiet for that many ticks in a row.
    pub fn take_with(&mut self, first: Tick, next: Tick, quiet: u64)
        ensures stands { (station : StationData) (starts : Bool) (takes : List Take) (past : List Pair) → ControllerKeeps LAG station starts takes self.old past →
            (course LAG station starts takes past).holds ≡ false → length past ≤ first.0 → next.0 ≡ length past → quiet ≡ quiet_both past →
            ControllerKeeps LAG station starts (takes ++ record { heard = length past; first = first.0 } ∷ []) self.new past }
        ensures receiver { self.new.receiver ≡ self.old.receiver }
    {
        self.take_at(first, next, quiet);
    }

    fn take_at(&mut self, first: Tick, next: Tick, quiet: u64)
        ensures receiver { self.new.receiver ≡ self.old.receiver }
        ensures state { self.new.state ≡ taken_by self.old.state first next.0 quiet }
    {
        core::mem::replace_with(
            &mut self.state,
            first,
            |state: ControllerState, first: Tick| { (state.take(first, next, quiet), ()) },
        )
    }

    /// Whether it has no control.
    pub fn is_yielded(&self) -> bool
        ensures state { result ≡ serves self.now.state }
        ensures holds { (station : StationData) (starts : Bool) (takes : List Take) (past : List Pair) → ControllerKeeps LAG station starts takes self.now past →
            result ≡ not (course LAG station starts takes past).holds }
    {
        self.state.serves()
    }

    /// Whether no message is open and no item is left.
    pub fn is_idle(&self) -> bool
        ensures { (station : StationData) (starts : Bool) (takes : List Take) (past : List Pair) → ControllerKeeps LAG station starts takes self.now past →
            result ≡ (is_none (course LAG station starts takes past).runs && not (has_items (course LAG station starts takes past).left)) }
    {
        self.items_left() == 0
    }

    /// How many items are left: those of which no attempt was the last.
    pub fn items_left(&self) -> u32
        ensures { (station : StationData) (starts : Bool) (takes : List Take) (past : List Pair) → ControllerKeeps LAG station starts takes self.now past →
            result ≡ length (course LAG station starts takes past).left }
    {
        self.state.items_left()
    }
}
