//! A tick of a station: its terminal hears it where it serves, and its controller where it holds control.
ghost use Rattle.std.specs.Prelude.{◌≡◌, ◌≢◌, ℕ, ◌<◌, ◌≤◌, ◌^◌, ◌+◌, ◌||◌, nat_le, Bool, true, false, if◌then◌else◌, List, [], ◌∷◌, ◌++◌, length, Some};
ghost use Rattle.bus_base.specs.declared.samples.Pair.{Pair};
ghost use Rattle.bus_line.specs.declared.cutter.TheConstants.{LAG};
ghost use Rattle.bus_formats.specs.Plans.{StationData, TerminalData};
ghost use Rattle.bus_model.specs.Memory.{TimedLoad};
ghost use Rattle.bus_model.specs.Hearing.{Hearing, Moment as TerminalMoment};
ghost use Rattle.bus_line.specs.Channels.{quiet_both};
ghost use Rattle.bus_model.specs.Terminal.{memory_after};
ghost use Rattle.bus_model.specs.Course.{Take, course};
ghost use Rattle.bus_model.specs.Control.{OutsideTake, course_after, hearing_after, holds_control};
ghost use Rattle.bus_model.specs.Control as control;
ghost use Rattle.bus_model.specs.Starts as entries;
ghost use Rattle.bus_terminal.specs.Quiet.{quiet_moments};
ghost use Rattle.bus_terminal.specs.Stands.{AreMade};
ghost use Rattle.bus_terminal.specs.TerminalStands.{TerminalStands, TerminalKeeps, TerminalHears};
ghost use Rattle.bus_controller.specs.ControllerStands.{ControllerKeeps};
ghost use Rattle.bus_station.specs.Amid.{HeardUpTo, IsAmid};
ghost use Rattle.bus_station.specs.Hears.{HeardBy};
ghost use Rattle.bus_station.specs.declared.station.Station.{Station as StationValue};
ghost use Rattle.bus_station.specs.Roles as roles;
ghost use Rattle.bus_station.specs.StationStands.{StationKeeps, AfterTick};
ghost use Rattle.bus_station.specs.Listening.{cutters_by, HearsBy, InStep, IsNext};
ghost use Rattle.bus_receiver.specs.Cuts.{CuttersHear};
ghost use Rattle.bus_receiver.specs.declared.cutters.Cutters.{Cutters};
ghost use Rattle.bus_station.specs.Noticed.{noticed, is_event};

use crate::Station;
use crate::event::StationEvent;
use bus_base::Tick;
use bus_controller::{Controller, ControllerEvent};
use bus_formats::{Attempt, Outcome, TAKING_OVER};
use bus_line::LAG;
use bus_receiver::{Cuts, Moment};
use bus_terminal::{BothHeard, Step, TerminalEvent};

impl Station {
    // Its terminal hears by its own cutters, or by what the moment has of those of the bus.
    #[inline(always)]
    pub(crate) fn step(&mut self, moment: &Moment, own: bool) -> bool
        requires { (plan : StationData) × (starts : Bool) × (loads : List TimedLoad) × (outside : List OutsideTake) × (past : List Pair)
            × (before : Cutters) × (after : Cutters) × StationKeeps LAG plan starts loads outside self.old past
            × HearsBy LAG (holds_control LAG plan starts loads outside past || own) self.old before (hearing_after LAG plan starts loads outside past).ticks
            × IsNext LAG moment.now before after past × (length past < 2 ^ 60) }
        ensures tick { (plan : StationData) (starts : Bool) (loads : List TimedLoad) (outside : List OutsideTake) (past : List Pair) (before after : Cutters) →
            StationKeeps LAG plan starts loads outside self.old past →
            HearsBy LAG (holds_control LAG plan starts loads outside past || own) self.old before (hearing_after LAG plan starts loads outside past).ticks →
            IsNext LAG moment.now before after past →
            AfterTick LAG plan starts loads outside self.new (noticed result self.new.event) moment.now.shown past }
        ensures hears { (plan : StationData) (starts : Bool) (loads : List TimedLoad) (outside : List OutsideTake) (past : List Pair) (before after : Cutters) →
            StationKeeps LAG plan starts loads outside self.old past →
            HearsBy LAG (holds_control LAG plan starts loads outside past || own) self.old before (hearing_after LAG plan starts loads outside past).ticks →
            IsNext LAG moment.now before after past →
            own ≡ true → TerminalHears LAG self.new.terminal (hearing_after LAG plan starts loads outside (moment.now.shown ∷ past)).ticks }
        ensures in_step { (plan : StationData) (starts : Bool) (loads : List TimedLoad) (outside : List OutsideTake) (past : List Pair) (before after : Cutters) →
            StationKeeps LAG plan starts loads outside self.old past →
            HearsBy LAG (holds_control LAG plan starts loads outside past || own) self.old before (hearing_after LAG plan starts loads outside past).ticks →
            IsNext LAG moment.now before after past →
            own ≡ self.old.alone → InStep LAG plan starts loads outside self.new after (moment.now.shown ∷ past) }
        ensures receiver { self.new.controller.receiver ≡ self.old.controller.receiver }
        ensures some { result ≡ true → is_event self.new.event ≡ true }
        ensures none { result ≡ false → self.new.event ≡ self.old.event }
    {
        if self.controller.is_yielded() {
            self.serve(moment, own)
        } else {
            self.hold(moment)
        }
    }

    // A tick of a station that serves. Mostly nothing is handled in it.
    #[inline(always)]
    fn serve(&mut self, moment: &Moment, own: bool) -> bool
        requires { (plan : StationData) × (starts : Bool) × (loads : List TimedLoad) × (outside : List OutsideTake) × (past : List Pair)
            × (before : Cutters) × (after : Cutters) × StationKeeps LAG plan starts loads outside self.old past
            × (holds_control LAG plan starts loads outside past ≡ false)
            × HearsBy LAG own self.old before (hearing_after LAG plan starts loads outside past).ticks × IsNext LAG moment.now before after past
            × (length past < 2 ^ 60) }
        ensures tick { (plan : StationData) (starts : Bool) (loads : List TimedLoad) (outside : List OutsideTake) (past : List Pair) (before after : Cutters) →
            StationKeeps LAG plan starts loads outside self.old past → holds_control LAG plan starts loads outside past ≡ false →
            HearsBy LAG own self.old before (hearing_after LAG plan starts loads outside past).ticks → IsNext LAG moment.now before after past →
            AfterTick LAG plan starts loads outside self.new (noticed result self.new.event) moment.now.shown past }
        ensures hears { (plan : StationData) (starts : Bool) (loads : List TimedLoad) (outside : List OutsideTake) (past : List Pair) (before after : Cutters) →
            StationKeeps LAG plan starts loads outside self.old past → holds_control LAG plan starts loads outside past ≡ false →
            HearsBy LAG own self.old before (hearing_after LAG plan starts loads outside past).ticks → IsNext LAG moment.now before after past →
            HearsBy LAG (holds_control LAG plan starts loads outside (moment.now.shown ∷ past) || own) self.new after
            (hearing_after LAG plan starts loads outside (moment.now.shown ∷ past)).ticks }
        ensures receiver { self.new.controller.receiver ≡ self.old.controller.receiver }
        ensures alone { self.new.alone ≡ self.old.alone }
        ensures some { result ≡ true → is_event self.new.event ≡ true }
        ensures none { result ≡ false → self.new.event ≡ self.old.event }
    {
        match self.listen(moment, own) {
            Step::Stays => false,
            Step::Changes(both) => self.settle(moment, both),
        }
    }

    // Ends a tick that the terminal's ears heard, and in which something may be handled. The terminal may accept control where items are left. It is a
    // call of its own, since an event is large.
    #[inline(never)]
    fn settle(&mut self, moment: &Moment, both: BothHeard) -> bool
        requires { (plan : StationData) × (starts : Bool) × (loads : List TimedLoad) × (outside : List OutsideTake) × (past : List Pair) × (own : Bool)
            × (was : StationValue) × (before : Cutters) × (after : Cutters)
            × IsAmid LAG plan starts loads outside own was self.old both after moment.now.shown past × IsNext LAG moment.now before after past
            × (length past < 2 ^ 60) }
        ensures tick { (plan : StationData) (starts : Bool) (loads : List TimedLoad) (outside : List OutsideTake) (past : List Pair) (own : Bool)
            (was : StationValue) (before after : Cutters) → IsAmid LAG plan starts loads outside own was self.old both after moment.now.shown past →
            IsNext LAG moment.now before after past →
            AfterTick LAG plan starts loads outside self.new (noticed result self.new.event) moment.now.shown past }
        ensures hears { (plan : StationData) (starts : Bool) (loads : List TimedLoad) (outside : List OutsideTake) (past : List Pair) (own : Bool)
            (was : StationValue) (before after : Cutters) → IsAmid LAG plan starts loads outside own was self.old both after moment.now.shown past →
            IsNext LAG moment.now before after past →
            HearsBy LAG (holds_control LAG plan starts loads outside (moment.now.shown ∷ past) || own) self.new after
            (hearing_after LAG plan starts loads outside (moment.now.shown ∷ past)).ticks }
        ensures receiver { self.new.controller.receiver ≡ self.old.controller.receiver }
        ensures alone { self.new.alone ≡ self.old.alone }
        ensures some { result ≡ true → is_event self.new.event ≡ true }
        ensures none { result ≡ false → self.new.event ≡ self.old.event }
    {
        match self.heed(moment, both) {
            TerminalEvent::Nothing => false,
            TerminalEvent::Took(delivery) => {
                self.event = StationEvent::Took(delivery);
                true
            }
            TerminalEvent::Accepted => {
                let now = moment.tick();
                let next = moment.next();
                let quiet = moment.quiet();
                self.take_over(first_command(now), next, quiet);
                false
            }
        }
    }

    // The terminal does what is handled in the tick.
    #[inline(always)]
    fn heed(&mut self, moment: &Moment, both: BothHeard) -> TerminalEvent
        requires { (plan : StationData) × (starts : Bool) × (loads : List TimedLoad) × (outside : List OutsideTake) × (past : List Pair) × (own : Bool)
            × (was : StationValue) × (before : Cutters) × (after : Cutters)
            × IsAmid LAG plan starts loads outside own was self.old both after moment.now.shown past × IsNext LAG moment.now before after past
            × (length past < 2 ^ 60) }
        ensures event { self.new.event ≡ self.old.event }
        ensures address { self.new.address ≡ self.old.address }
        ensures taking { self.new.taking ≡ self.old.taking }
        ensures alone { self.new.alone ≡ self.old.alone }
        ensures controller { self.new.controller ≡ self.old.controller }
        ensures cutters { self.new.terminal.cutters ≡ self.old.terminal.cutters }
        ensures terminal { (plan : StationData) (starts : Bool) (loads : List TimedLoad) (outside : List OutsideTake) (past : List Pair) (own : Bool)
            (was : StationValue) (before after : Cutters) → IsAmid LAG plan starts loads outside own was self.old both after moment.now.shown past →
            IsNext LAG moment.now before after past →
            HeardBy LAG plan.terminal loads self.new.terminal result (length past) (hearing_after LAG plan starts loads outside past)
            (control.moment_of moment.now.shown (course_after LAG plan starts loads outside past)) }
    {
        let may_accept = has_items(&self.controller);
        let now = moment.tick();
        let shown = moment.shown();
        self.terminal.settle(now, shown, both, may_accept)
    }

    // The ears of a station that serves hear a tick, and where nothing is handled in it, that is all of it. Its controller needs to hear nothing.
    #[inline(always)]
    fn listen(&mut self, moment: &Moment, own: bool) -> Step
        requires { (plan : StationData) × (starts : Bool) × (loads : List TimedLoad) × (outside : List OutsideTake) × (past : List Pair)
            × (before : Cutters) × (after : Cutters) × StationKeeps LAG plan starts loads outside self.old past
            × (holds_control LAG plan starts loads outside past ≡ false)
            × HearsBy LAG own self.old before (hearing_after LAG plan starts loads outside past).ticks × IsNext LAG moment.now before after past
            × (length past < 2 ^ 60) }
        ensures event { self.new.event ≡ self.old.event }
        ensures address { self.new.address ≡ self.old.address }
        ensures taking { self.new.taking ≡ self.old.taking }
        ensures alone { self.new.alone ≡ self.old.alone }
        ensures controller { self.new.controller ≡ self.old.controller }
        ensures terminal { (plan : StationData) (starts : Bool) (loads : List TimedLoad) (outside : List OutsideTake) (past : List Pair) (before after : Cutters) →
            StationKeeps LAG plan starts loads outside self.old past → holds_control LAG plan starts loads outside past ≡ false →
            HearsBy LAG own self.old before (hearing_after LAG plan starts loads outside past).ticks → IsNext LAG moment.now before after past →
            HeardUpTo LAG plan.terminal loads self.new.terminal result (hearing_after LAG plan starts loads outside past)
            (control.moment_of moment.now.shown (course_after LAG plan starts loads outside past)) }
        ensures hears { (plan : StationData) (starts : Bool) (loads : List TimedLoad) (outside : List OutsideTake) (past : List Pair) (before after : Cutters) →
            StationKeeps LAG plan starts loads outside self.old past → holds_control LAG plan starts loads outside past ≡ false →
            HearsBy LAG own self.old before (hearing_after LAG plan starts loads outside past).ticks → IsNext LAG moment.now before after past →
            HearsBy LAG own self.new after (control.moment_of moment.now.shown (course_after LAG plan starts loads outside past) ∷
            (hearing_after LAG plan starts loads outside past).ticks) }
    {
        let cuts = self.cuts(moment, own);
        let now = moment.tick();
        let shown = moment.shown();
        self.terminal.listen(now, shown, &cuts)
    }

    // What became known for the terminal.
    #[inline(always)]
    fn cuts(&mut self, moment: &Moment, own: bool) -> Cuts
        requires { (ticks : List TerminalMoment) × (before : Cutters) × HearsBy LAG own self.old before ticks × (length ticks < 2 ^ 60) }
        ensures event { self.new.event ≡ self.old.event }
        ensures address { self.new.address ≡ self.old.address }
        ensures taking { self.new.taking ≡ self.old.taking }
        ensures alone { self.new.alone ≡ self.old.alone }
        ensures controller { self.new.controller ≡ self.old.controller }
        ensures state { self.new.terminal.state ≡ self.old.terminal.state }
        ensures hears { (before after : Cutters) → CuttersHear LAG before after moment.now.shown moment.now.cuts →
            CuttersHear LAG (cutters_by own self.old before) (cutters_by own self.new after) moment.now.shown result }
    {
        if own {
            self.terminal.cut(moment.shown())
        } else {
            moment.cuts()
        }
    }

    // Control is taken, with the first command in this tick, where `next` is the tick to come, before which both channels were quiet for that many.
    #[inline(never)]
    fn take_over(&mut self, first: Tick, next: Tick, quiet: u64)
        requires { (station : StationData) × (starts : Bool) × (takes : List Take) × (past : List Pair)
            × ControllerKeeps LAG station starts takes self.old.controller past × ((course LAG station starts takes past).holds ≡ false)
            × ((course LAG station starts takes past).left ≢ []) × (length past ≤ first.0) }
        ensures event { self.new.event ≡ self.old.event }
        ensures address { self.new.address ≡ self.old.address }
        ensures taking { self.new.taking ≡ Some first }
        ensures alone { self.new.alone ≡ self.old.alone }
        ensures receiver { self.new.controller.receiver ≡ self.old.controller.receiver }
        ensures controller { (station : StationData) (starts : Bool) (takes : List Take) (past : List Pair) →
            ControllerKeeps LAG station starts takes self.old.controller past → (course LAG station starts takes past).holds ≡ false → length past ≤ first.0 →
            next.0 ≡ length past → quiet ≡ quiet_both past →
            ControllerKeeps LAG station starts (takes ++ record { heard = length past; first = first.0 } ∷ []) self.new.controller past }
        ensures terminal { (plan : TerminalData) (loads : List TimedLoad) (hearing : Hearing) (n : ℕ) →
            TerminalKeeps LAG plan loads self.old.terminal hearing → AreMade plan.address n loads →
            TerminalStands LAG plan loads self.new.terminal (record { memory = memory_after LAG plan loads hearing; ticks = quiet_moments n }) }
    {
        self.controller.take_with(first, next, quiet);
        self.terminal.wake();
        self.taking = Some(first);
    }

    // A tick of a station that holds control. To its terminal the bus is quiet, which changes nothing. Mostly its controller begins and ends nothing.
    #[inline(always)]
    fn hold(&mut self, moment: &Moment) -> bool
        requires { (plan : StationData) × (starts : Bool) × (loads : List TimedLoad) × (outside : List OutsideTake) × (past : List Pair)
            × (before : Cutters) × (after : Cutters) × StationKeeps LAG plan starts loads outside self.old past
            × (holds_control LAG plan starts loads outside past ≡ true)
            × TerminalHears LAG self.old.terminal (hearing_after LAG plan starts loads outside past).ticks × IsNext LAG moment.now before after past
            × (length past < 2 ^ 60) }
        ensures tick { (plan : StationData) (starts : Bool) (loads : List TimedLoad) (outside : List OutsideTake) (past : List Pair) (before after : Cutters) →
            StationKeeps LAG plan starts loads outside self.old past → holds_control LAG plan starts loads outside past ≡ true →
            TerminalHears LAG self.old.terminal (hearing_after LAG plan starts loads outside past).ticks → IsNext LAG moment.now before after past →
            AfterTick LAG plan starts loads outside self.new (noticed result self.new.event) moment.now.shown past }
        ensures hears { (plan : StationData) (starts : Bool) (loads : List TimedLoad) (outside : List OutsideTake) (past : List Pair) (before after : Cutters) →
            StationKeeps LAG plan starts loads outside self.old past → holds_control LAG plan starts loads outside past ≡ true →
            TerminalHears LAG self.old.terminal (hearing_after LAG plan starts loads outside past).ticks → IsNext LAG moment.now before after past →
            TerminalHears LAG self.new.terminal (hearing_after LAG plan starts loads outside (moment.now.shown ∷ past)).ticks }
        ensures in_step { (plan : StationData) (starts : Bool) (loads : List TimedLoad) (outside : List OutsideTake) (past : List Pair) (before after : Cutters) →
            StationKeeps LAG plan starts loads outside self.old past → holds_control LAG plan starts loads outside past ≡ true →
            TerminalHears LAG self.old.terminal (hearing_after LAG plan starts loads outside past).ticks → IsNext LAG moment.now before after past →
            InStep LAG plan starts loads outside self.new after (moment.now.shown ∷ past) }
        ensures receiver { self.new.controller.receiver ≡ self.old.controller.receiver }
        ensures some { result ≡ true → is_event self.new.event ≡ true }
        ensures none { result ≡ false → self.new.event ≡ self.old.event }
    {
        if self.controller.stay(moment) {
            let now = moment.tick();
            self.taking = still_taking(self.taking, now);
            return false;
        }
        self.change(moment)
    }

    // A tick in which its controller begins or ends something. It is a call of its own, since an event is large.
    #[inline(never)]
    fn change(&mut self, moment: &Moment) -> bool
        requires { (plan : StationData) × (starts : Bool) × (loads : List TimedLoad) × (outside : List OutsideTake) × (past : List Pair)
            × (before : Cutters) × (after : Cutters) × StationKeeps LAG plan starts loads outside self.old past
            × (holds_control LAG plan starts loads outside past ≡ true)
            × TerminalHears LAG self.old.terminal (hearing_after LAG plan starts loads outside past).ticks × IsNext LAG moment.now before after past
            × (length past < 2 ^ 60) }
        ensures tick { (plan : StationData) (starts : Bool) (loads : List TimedLoad) (outside : List OutsideTake) (past : List Pair) (before after : Cutters) →
            StationKeeps LAG plan starts loads outside self.old past → holds_control LAG plan starts loads outside past ≡ true →
            TerminalHears LAG self.old.terminal (hearing_after LAG plan starts loads outside past).ticks → IsNext LAG moment.now before after past →
            AfterTick LAG plan starts loads outside self.new (noticed result self.new.event) moment.now.shown past }
        ensures hears { (plan : StationData) (starts : Bool) (loads : List TimedLoad) (outside : List OutsideTake) (past : List Pair) (before after : Cutters) →
            StationKeeps LAG plan starts loads outside self.old past → holds_control LAG plan starts loads outside past ≡ true →
            TerminalHears LAG self.old.terminal (hearing_after LAG plan starts loads outside past).ticks → IsNext LAG moment.now before after past →
            TerminalHears LAG self.new.terminal (hearing_after LAG plan starts loads outside (moment.now.shown ∷ past)).ticks }
        ensures in_step { (plan : StationData) (starts : Bool) (loads : List TimedLoad) (outside : List OutsideTake) (past : List Pair) (before after : Cutters) →
            StationKeeps LAG plan starts loads outside self.old past → holds_control LAG plan starts loads outside past ≡ true →
            TerminalHears LAG self.old.terminal (hearing_after LAG plan starts loads outside past).ticks → IsNext LAG moment.now before after past →
            InStep LAG plan starts loads outside self.new after (moment.now.shown ∷ past) }
        ensures receiver { self.new.controller.receiver ≡ self.old.controller.receiver }
        ensures some { result ≡ true → is_event self.new.event ≡ true }
        ensures none { result ≡ false → self.new.event ≡ self.old.event }
    {
        match self.controller.learn(moment) {
            ControllerEvent::Nothing => {
                let now = moment.tick();
                self.taking = still_taking(self.taking, now);
                false
            }
            ControllerEvent::Ended(attempt) => {
                self.close(moment, attempt.outcome);
                self.taking = None;
                self.event = StationEvent::Ended(Attempt {
                    station: self.address,
                    ..attempt
                });
                true
            }
        }
    }

    // An attempt ended so in this tick. Where control was yielded in it, the terminal hears it. From then on it hears by what others hear for it, where
    // no burst runs that it hears from its middle only.
    #[inline(never)]
    fn close(&mut self, moment: &Moment, outcome: Outcome)
        requires { (plan : TerminalData) × (loads : List TimedLoad) × (hearing : Hearing) × TerminalStands LAG plan loads self.old.terminal hearing
            × (length hearing.ticks ≡ moment.now.tick.0) × (moment.now.tick.0 < 2 ^ 60) }
        ensures address { self.new.address ≡ self.old.address }
        ensures controller { self.new.controller ≡ self.old.controller }
        ensures yields { (plan : TerminalData) (loads : List TimedLoad) (hearing : Hearing) (station : StationData) (starts : Bool) (takes : List Take)
            (past : List Pair) → control.is_yielded outcome ≡ true →
            TerminalStands LAG plan loads self.old.terminal hearing → length hearing.ticks ≡ moment.now.tick.0 →
            ControllerKeeps LAG station starts takes self.old.controller past →
            TerminalStands LAG plan loads self.new.terminal
            (control.hear_more hearing (control.moment_of moment.now.shown (course LAG station starts takes past))) }
        ensures rests { control.is_yielded outcome ≡ false → self.new.terminal ≡ self.old.terminal }
        ensures alone { self.new.alone ≡ nat_le (if control.is_yielded outcome then moment.now.before else moment.now.quiet) LAG }
    {
        if is_yielded(outcome) {
            let may_accept = has_items(&self.controller);
            let now = moment.tick();
            let shown = moment.shown();
            let _ = self.terminal.hear(now, shown, may_accept);
            let quiet = moment.before();
            self.alone = quiet <= u64::from(LAG);
        } else {
            let quiet = moment.quiet();
            self.alone = quiet <= u64::from(LAG);
        }
    }
}

// Whether a controller has items left.
#[inline(always)]
fn has_items(controller: &Controller) -> bool
    ensures { (station : StationData) (starts : Bool) (takes : List Take) (past : List Pair) → ControllerKeeps LAG station starts takes controller.now past →
        result ≡ entries.has_items (course LAG station starts takes past).left }
{
    controller.items_left() > 0
}

// The first command after an answer whose end is known in this tick and accepts control.
fn first_command(now: Tick) -> Tick
    requires { (now.0 < 2 ^ 60) }
    ensures { result.0 + 3 ≡ now.0 + 40 }
{
    Tick(now.0 + TAKING_OVER - u64::from(LAG))
}

// Whether the message's end gives control to a station whose answer wasn't understood.
fn is_yielded(outcome: Outcome) -> bool
    ensures { result ≡ control.is_yielded outcome }
{
    matches!(outcome, Outcome::Yielded)
}

// The tick of the first command, where this tick isn't yet that one.
fn still_taking(taking: Option<Tick>, now: Tick) -> Option<Tick>
    ensures { result ≡ roles.still_taking taking now.0 }
{
    match taking {
        Some(first) => { if now.0 < first.0 { Some(first) } else { None } }
        None => None,
    }
}
