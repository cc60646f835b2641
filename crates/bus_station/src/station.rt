//! The station that a bus has.
ghost use Rattle.std.specs.Prelude.{◌≡◌, ◌≢◌, ◌<◌, ◌≤◌, ◌^◌, Bool, true, false, List, [], ◌∷◌, ◌++◌, length, Some};
ghost use Rattle.bus_base.specs.declared.samples.Pair.{Pair};
ghost use Rattle.bus_line.specs.declared.cutter.TheConstants.{LAG};
ghost use Rattle.bus_formats.specs.Plans.{StationData};
ghost use Rattle.bus_model.specs.Memory.{TimedLoad};
ghost use Rattle.bus_model.specs.Control.{OutsideTake, course_after, hearing_after, holds_control};
ghost use Rattle.bus_model.specs.Control as control;
ghost use Rattle.bus_terminal.specs.TerminalStands.{TerminalStands, TerminalKeeps};
ghost use Rattle.bus_controller.specs.AgendaOf.{IsAgendaOf};
ghost use Rattle.bus_controller.specs.ControllerStands.{ControllerStands};
ghost use Rattle.bus_station.specs.Fits.{StationFits};
ghost use Rattle.bus_station.specs.Roles.{role_after};
ghost use Rattle.bus_station.specs.Told.{attempts_told, delivery_told, ended_newest, delivered_newest};
ghost use Rattle.bus_station.specs.StationStands.{StationStands, StationKeeps, AfterNotice};
ghost use Rattle.bus_station.specs.Listening.{InStep, IsNext};
ghost use Rattle.bus_receiver.specs.declared.cutters.Cutters.{Cutters};
ghost use Rattle.bus_station.specs.Noticed.{noticed, TellsNewest, KeepsNewest, HasTold};
ghost use Rattle.bus_station.specs.Needs as needs;
ghost use Rattle.bus_station.specs.declared.event.StationEvent.TheVariants.{Nothing};

use crate::event::StationEvent;
use crate::role::Role;
use bus_base::{Drive, Pair, Tick};
use bus_controller::{Agenda, Controller};
use bus_formats::StationPlan;
use bus_receiver::Moment;
use bus_terminal::Terminal;

/// A terminal and a controller under one address.
///
/// It keeps no history: it stands for every list of what the channels showed, of timed loads and of takes after which it may be as it is.
#[derive(Drop)]
pub struct Station {
    pub(crate) address: u8,
    pub(crate) terminal: Terminal,
    pub(crate) controller: Controller,
    // the tick of its first command, until it was heard
    pub(crate) taking: Option<Tick>,
    // what it noticed last, until it was told
    pub(crate) event: StationEvent,
    // whether its terminal began to hear amid a burst, so that it hears by its own cutters while it serves
    pub(crate) alone: bool,
}

impl Station {
    /// A station as its plan describes it. It holds control from the start, or it serves.
    pub fn new(plan: StationPlan, starts: bool) -> Station
        requires { StationFits plan }
        ensures stands { StationStands LAG plan starts [] [] result [] }
        ensures told { HasTold result }
    {
        let StationPlan {
            terminal,
            channel,
            frames,
            repeat,
        } = plan;
        let address = terminal.address;
        let agenda = Agenda::new(frames, repeat, channel);
        Station {
            address,
            terminal: Terminal::new(terminal),
            controller: controller_with(agenda, starts),
            taking: None,
            event: StationEvent::Nothing,
            alone: false,
        }
    }

    /// Hears what both channels showed in the tick `now`, which follows the last tick heard. A station that holds control hears it as a
    /// controller, and one that serves as a terminal; one that yields control in this tick does both. It tells of the attempt that ended in
    /// this tick, or of the block that its terminal took whole in it. Nothing is left to tell. It takes no memory.
    #[inline(always)]
    pub fn hear(&mut self, now: Tick, heard: Pair) -> StationEvent
        requires { (plan : StationData) × (starts : Bool) × (loads : List TimedLoad) × (outside : List OutsideTake) × (past : List Pair)
            × StationStands LAG plan starts loads outside self.old past × (length past ≡ now.0) × (now.0 < 2 ^ 60) }
        ensures stands { (plan : StationData) (starts : Bool) (loads : List TimedLoad) (outside : List OutsideTake) (past : List Pair) →
            StationStands LAG plan starts loads outside self.old past → StationStands LAG plan starts loads outside self.new (heard ∷ past) }
        ensures ended { (plan : StationData) (starts : Bool) (loads : List TimedLoad) (outside : List OutsideTake) (past : List Pair) →
            StationStands LAG plan starts loads outside self.old past → attempts_told result ≡ ended_newest LAG plan starts loads outside (heard ∷ past) }
        ensures took { (plan : StationData) (starts : Bool) (loads : List TimedLoad) (outside : List OutsideTake) (past : List Pair) →
            StationStands LAG plan starts loads outside self.old past → delivery_told result ≡ delivered_newest LAG plan starts loads outside (heard ∷ past) }
        ensures told { HasTold self.new }
    {
        self.forget();
        let moment = self.controller.receive(now, heard);
        if self.step(&moment, true) {
            self.tell()
        } else {
            StationEvent::Nothing
        }
    }

    /// Hears the newest tick by what a receiver tells of it that hears the bus for all its stations. It answers whether there is something to tell
    /// of the tick: then `tell` tells it. What wasn't told of an earlier tick is told no more. In most ticks there is nothing, and no event is
    /// written. Neither its own receiver nor, while it serves, its terminal's own cutters hear the tick, unless it is alone.
    #[inline(always)]
    pub fn learn(&mut self, moment: &Moment) -> bool
        requires { (plan : StationData) × (starts : Bool) × (loads : List TimedLoad) × (outside : List OutsideTake) × (past : List Pair)
            × (before : Cutters) × (after : Cutters) × StationKeeps LAG plan starts loads outside self.old past
            × InStep LAG plan starts loads outside self.old before past × IsNext LAG moment.now before after past × (length past < 2 ^ 60) }
        ensures notices { (plan : StationData) (starts : Bool) (loads : List TimedLoad) (outside : List OutsideTake) (past : List Pair) (before after : Cutters) →
            StationKeeps LAG plan starts loads outside self.old past → InStep LAG plan starts loads outside self.old before past →
            IsNext LAG moment.now before after past → AfterNotice LAG plan starts loads outside self.new result moment.now.shown past }
        ensures hears { (plan : StationData) (starts : Bool) (loads : List TimedLoad) (outside : List OutsideTake) (past : List Pair) (before after : Cutters) →
            StationKeeps LAG plan starts loads outside self.old past → InStep LAG plan starts loads outside self.old before past →
            IsNext LAG moment.now before after past → InStep LAG plan starts loads outside self.new after (moment.now.shown ∷ past) }
    {
        self.forget();
        let own = self.alone;
        self.step(moment, own)
    }

    // What was noticed of an earlier tick is told no more.
    #[inline(always)]
    fn forget(&mut self)
        ensures { self.new ≡ record self.old { event = Nothing } }
    {
        if !matches!(self.event, StationEvent::Nothing) {
            self.clear();
        }
    }

    // It is a call of its own, since an event is large.
    #[inline(never)]
    fn clear(&mut self)
        ensures { self.new ≡ record self.old { event = Nothing } }
    {
        self.event = StationEvent::Nothing;
    }

    /// What it noticed in its newest tick, as `hear` tells it. It is told once: from then on it is nothing, until something else is noticed.
    pub fn tell(&mut self) -> StationEvent
        ensures event { result ≡ self.old.event }
        ensures newest { (plan : StationData) (starts : Bool) (loads : List TimedLoad) (outside : List OutsideTake) (past : List Pair) →
            KeepsNewest LAG plan starts loads outside self.old past → TellsNewest LAG plan starts loads outside result past }
        ensures once { HasTold self.old → result ≡ Nothing }
        ensures told { HasTold self.new }
        ensures stands { (plan : StationData) (starts : Bool) (loads : List TimedLoad) (outside : List OutsideTake) (past : List Pair) →
            StationStands LAG plan starts loads outside self.old past → StationStands LAG plan starts loads outside self.new past }
        ensures keeps { (plan : StationData) (starts : Bool) (loads : List TimedLoad) (outside : List OutsideTake) (past : List Pair) →
            StationKeeps LAG plan starts loads outside self.old past → StationKeeps LAG plan starts loads outside self.new past }
        ensures in_step { (plan : StationData) (starts : Bool) (loads : List TimedLoad) (outside : List OutsideTake) (bus : Cutters) (past : List Pair) →
            InStep LAG plan starts loads outside self.old bus past → InStep LAG plan starts loads outside self.new bus past }
    {
        core::mem::replace(&mut self.event, StationEvent::Nothing)
    }

    /// What it sends in the tick to come: its controller's command where it holds control, else its terminal's answer.
    pub fn drive(&self) -> Drive
        ensures { (plan : StationData) (starts : Bool) (loads : List TimedLoad) (outside : List OutsideTake) (past : List Pair) →
            StationKeeps LAG plan starts loads outside self.now past → result ≡ control.drives_next LAG plan starts loads outside past }
    {
        if self.controller.is_yielded() {
            self.terminal.drive()
        } else {
            self.controller.drive()
        }
    }

    /// Whether it has to hear each tick: it holds control or is taking it, its terminal owes an answer or sends it, waits for a relay's answer that
    /// hasn't begun, doesn't know yet the end of its own transmission, or hears by its own cutters. Any other station is left as it is by a tick with
    /// which nothing becomes known, and sends nothing (`waiting`).
    #[inline(always)]
    pub fn needs_each_tick(&self) -> bool
        ensures { result ≡ needs.needs_each_tick self.now }
    {
        !self.controller.is_yielded() || self.alone || self.terminal.needs_each_tick()
    }

    /// What it is to the others.
    pub fn role(&self) -> Role
        ensures { (plan : StationData) (starts : Bool) (loads : List TimedLoad) (outside : List OutsideTake) (past : List Pair) →
            StationKeeps LAG plan starts loads outside self.now past → result ≡ role_after LAG plan starts loads outside past }
    {
        if self.controller.is_yielded() {
            return Role::Serving;
        }
        match self.taking {
            Some(first) => Role::Taking(first),
            None => Role::Controlling,
        }
    }

    /// Whether it serves, or has no message open and no item left.
    pub fn is_idle(&self) -> bool
        ensures { (plan : StationData) (starts : Bool) (loads : List TimedLoad) (outside : List OutsideTake) (past : List Pair) →
            StationKeeps LAG plan starts loads outside self.now past → result ≡ control.is_idle LAG plan starts loads outside past }
    {
        self.controller.is_yielded() || self.controller.is_idle()
    }

    /// How many items are left: those of which no attempt was the last.
    pub fn items_left(&self) -> u32
        ensures { (plan : StationData) (starts : Bool) (loads : List TimedLoad) (outside : List OutsideTake) (past : List Pair) →
            StationKeeps LAG plan starts loads outside self.now past → result ≡ length (course_after LAG plan starts loads outside past).left }
    {
        self.controller.items_left()
    }

    /// Its address, 0 to 31.
    pub fn address(&self) -> u8
        ensures is { result ≡ self.now.address }
        ensures own { (plan : StationData) (starts : Bool) (loads : List TimedLoad) (outside : List OutsideTake) (past : List Pair) →
            StationKeeps LAG plan starts loads outside self.now past → result ≡ plan.terminal.address }
    {
        self.address
    }

    /// Its terminal.
    pub fn terminal(&self) -> &Terminal
        ensures stands { (plan : StationData) (starts : Bool) (loads : List TimedLoad) (outside : List OutsideTake) (past : List Pair) →
            StationStands LAG plan starts loads outside self.now past →
            TerminalStands LAG plan.terminal loads result.now (hearing_after LAG plan starts loads outside past) }
        ensures keeps { (plan : StationData) (starts : Bool) (loads : List TimedLoad) (outside : List OutsideTake) (past : List Pair) →
            StationKeeps LAG plan starts loads outside self.now past →
            TerminalKeeps LAG plan.terminal loads result.now (hearing_after LAG plan starts loads outside past) }
    {
        &self.terminal
    }

    /// Makes the transmit block of a subaddress, 1 to 29, exactly the words, 1 to 32: a timed load at the last tick heard.
    pub fn load(&mut self, sub: u8, words: &[u16])
        requires first { 1 ≤ sub }
        requires last { sub ≤ 29 }
        requires some { 1 ≤ length words.now }
        requires fits { length words.now ≤ 32 }
        ensures stands { (plan : StationData) (starts : Bool) (loads : List TimedLoad) (outside : List OutsideTake) (shown : Pair) (past : List Pair) →
            StationStands LAG plan starts loads outside self.old (shown ∷ past) →
            StationStands LAG plan starts (loads ++ record { tick = length past; address = plan.terminal.address; sub = sub; words = words.now } ∷ []) outside
            self.new (shown ∷ past) }
        ensures keeps { (plan : StationData) (starts : Bool) (loads : List TimedLoad) (outside : List OutsideTake) (shown : Pair) (past : List Pair) →
            StationKeeps LAG plan starts loads outside self.old (shown ∷ past) →
            StationKeeps LAG plan starts (loads ++ record { tick = length past; address = plan.terminal.address; sub = sub; words = words.now } ∷ []) outside
            self.new (shown ∷ past) }
        ensures in_step { (plan : StationData) (starts : Bool) (loads : List TimedLoad) (outside : List OutsideTake) (bus : Cutters) (shown : Pair)
            (past : List Pair) → InStep LAG plan starts loads outside self.old bus (shown ∷ past) →
            InStep LAG plan starts (loads ++ record { tick = length past; address = plan.terminal.address; sub = sub; words = words.now } ∷ []) outside
            self.new bus (shown ∷ past) }
        ensures untold { self.new.event ≡ self.old.event }
    {
        self.terminal.load(sub, words);
    }

    /// Takes control by itself: an outside take at the last tick heard. The station served before that tick and after it, and has items
    /// left. Its first command starts in the tick `first`, which is after that tick.
    pub fn take(&mut self, first: Tick)
        requires { (plan : StationData) × (starts : Bool) × (loads : List TimedLoad) × (outside : List OutsideTake) × (shown : Pair) × (past : List Pair)
            × StationStands LAG plan starts loads outside self.old (shown ∷ past)
            × (holds_control LAG plan starts loads outside past ≡ false) × (holds_control LAG plan starts loads outside (shown ∷ past) ≡ false)
            × ((course_after LAG plan starts loads outside (shown ∷ past)).left ≢ []) × (length past < first.0) }
        ensures stands { (plan : StationData) (starts : Bool) (loads : List TimedLoad) (outside : List OutsideTake) (shown : Pair) (past : List Pair) →
            StationStands LAG plan starts loads outside self.old (shown ∷ past) →
            holds_control LAG plan starts loads outside past ≡ false → holds_control LAG plan starts loads outside (shown ∷ past) ≡ false →
            length past < first.0 →
            StationStands LAG plan starts loads (outside ++ record { tick = length past; address = plan.terminal.address; first = first.0 } ∷ []) self.new
            (shown ∷ past) }
        ensures untold { self.new.event ≡ self.old.event }
    {
        self.controller.take(first);
        self.terminal.wake();
        self.taking = Some(first);
    }
}

// The controller of a station that starts with control or without.
fn controller_with(agenda: Agenda, starts: bool) -> Controller
    ensures { (station : StationData) → IsAgendaOf station agenda → ControllerStands LAG station starts [] result [] }
{
    if starts {
        Controller::starting(agenda)
    } else {
        Controller::yielded(agenda)
    }
}
