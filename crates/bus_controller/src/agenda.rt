//! What a controller is to send, and what it keeps from attempt to attempt.
ghost use Rattle.std.specs.Prelude.{◌≡◌, ◌+◌, ◌-◌, nat_le, length, slice_get, option_map, None, IfSome};
ghost use Rattle.bus_formats.specs.Accepted.{HasItemRanges};
ghost use Rattle.bus_retry.specs.Retries.{next_of};
ghost use Rattle.bus_model.specs.Starts.{entries_from, repeated, first_origin, finishes, planned_at};
ghost use Rattle.bus_controller.specs.Queue.{MayRun};
ghost use Rattle.bus_controller.specs.Agendas.{agenda_after, begun_by, earliest, is_due, is_due_by};
ghost use Rattle.bus_controller.specs.Agendas as spec;

use crate::attempt::Begun;
use crate::opening::Opening;
use crate::queue::{Due, Entry, Queue};
use bus_base::{Channel, Tick};
use bus_formats::{FramePlan, Outcome, dead_ticks};
use bus_retry::{ChannelState, Choice, RetryState, after, first_attempt, next_attempt};
use std::marker::Model;

/// The planned start of the frame that so many ticks of frames come before.
#[derive(Clone, Copy)]
pub struct Origin {
    pub tick: u64,
    pub offset: u64,
}

impl Model for Origin {
    ghost use Rattle.bus_model.specs.Starts as starts;

    ghost Value = { starts.Origin };

    ghost view = { λ o. record { tick = o.tick; offset = o.offset } };

    ghost inverse = { λ o. record { tick = o.tick; offset = o.offset } };
}

/// The items that a controller has left, and what decides how the next of them is tried: the retry that is due, the live channel and the
/// planned start of a frame.
#[derive(Drop)]
pub struct Agenda {
    queue: Queue,
    live: ChannelState,
    retry: Option<RetryState>,
    origin: Origin,
}

impl Model for Agenda {
    ghost use Rattle.std.specs.Prelude.{◌≤◌};
    ghost use Rattle.bus_controller.specs.Agendas.{AgendaData, turn_due};

    ghost Value = { AgendaData };

    ghost view = { λ a. record { left = a.queue; live = a.live.live; retry = a.retry; origin = a.origin } };

    ghost invariant = { λ a. 1 ≤ turn_due a.retry };
}

impl Agenda {
    ghost use Rattle.bus_formats.specs.Plans.{StationData};
    ghost use Rattle.bus_controller.specs.AgendaOf.{IsAgendaOf};

    /// All items of the frames, which are run `repeat` times (1 to 64). `channel` is the live channel, on which items run that name none.
    pub fn new(frames: Vec<FramePlan>, repeat: u32, channel: Channel) -> Agenda
        requires { MayRun frames.items repeat }
        ensures value { result ≡ record { left = entries_from 1 0 (repeated repeat frames.items); live = channel; retry = None; origin = first_origin } }
        ensures whole { (station : StationData) → station.frames ≡ frames.items → station.repeat ≡ repeat → station.channel ≡ channel → IsAgendaOf station result }
    {
        Agenda {
            queue: Queue::new(frames, repeat),
            live: ChannelState { live: channel },
            retry: None,
            origin: Origin { tick: 8, offset: 0 },
        }
    }

    /// How many items are left: those of which no attempt was the last.
    pub fn items_left(&self) -> u32
        ensures { result ≡ length self.now.left }
    {
        self.queue.len()
    }

    /// Whether the next attempt may start in this tick, after so many ticks in which both channels were quiet.
    pub(crate) fn may_start(&self, opening: Opening, quiet: u64, now: Tick) -> bool
        ensures { result ≡ is_due opening self.now quiet now.0 }
    {
        match self.queue.due() {
            Some(due) => self.opens(opening, quiet, now, due),
            None => false,
        }
    }

    fn opens(&self, opening: Opening, quiet: u64, now: Tick, due: Due) -> bool
        ensures { result ≡ is_due_by opening self.now quiet now.0 due }
    {
        match opening {
            Opening::Usual { need } => {
                let needed = quiet_needed(self.retry, due, need);
                u64::from(needed) <= quiet && self.is_planned(now, due)
            }
            Opening::Superseding(_) => true,
            Opening::Taking(first) => first.0 <= now.0,
        }
    }

    // Whether the frame of an item's first attempt may begin. It is planned some ticks after an earlier one.
    fn is_planned(&self, now: Tick, due: Due) -> bool
        ensures { result ≡ nat_le (earliest self.now.retry self.now.origin due) now.0 }
    {
        if self.retry.is_some() || !due.opens {
            return true;
        }
        is_reached(self.origin, due.offset, now)
    }

    /// The next attempt, where an item is left. It takes no memory.
    pub(crate) fn begin(&self, opening: Opening, now: Tick) -> Option<Begun>
        ensures value { result ≡ option_map (begun_by opening self.now now.0) (slice_get self.now.left 0) }
        ensures ranges { IfSome result (λ begun. HasItemRanges begun.entry.item) }
    {
        match self.queue.entry() {
            Some(entry) => Some(self.begin_item(opening, now, entry)),
            None => None,
        }
    }

    fn begin_item(&self, opening: Opening, now: Tick, entry: Entry) -> Begun
        ensures { result ≡ begun_by opening self.now now.0 entry }
    {
        let state = match (opening, self.retry) {
            (Opening::Superseding(channel), _) => RetryState { channel, turn: 1 },
            (_, Some(state)) => state,
            (_, None) => first_attempt(&entry.item, self.live),
        };
        Begun {
            entry,
            state,
            start: now,
        }
    }

    /// An attempt ended so. Whether its item is finished, and isn't left any longer.
    pub(crate) fn close(&mut self, begun: &Begun, outcome: Outcome) -> bool
        ensures agenda { self.new ≡ agenda_after self.old begun.now outcome }
        ensures finishes { result ≡ finishes (next_of begun.now.entry.item begun.now.state outcome) }
    {
        let item = &begun.entry.item;
        self.live = after(item, begun.state, outcome, self.live);
        match next_attempt(item, begun.state, outcome) {
            Choice::Again(state) => {
                self.retry = Some(state);
                false
            }
            Choice::Done => {
                self.retry = None;
                self.queue.finish();
                true
            }
        }
    }

    /// Control is taken: the first command's tick is the planned start of the next item's frame.
    pub(crate) fn take(&mut self, first: Tick)
        ensures { self.new ≡ record self.old { retry = None; origin = planned_at first.0 self.old.left } }
    {
        let offset = match self.queue.due() {
            Some(due) => due.offset,
            None => 0,
        };
        self.retry = None;
        self.origin = Origin {
            tick: first.0,
            offset,
        };
    }
}

// The dead ticks that an attempt waits for: an item's own gap holds at its first.
fn quiet_needed(retry: Option<RetryState>, due: Due, need: u16) -> u16
    ensures { result ≡ spec.quiet_needed retry due need }
{
    match retry {
        Some(_) => need,
        None => need.max(dead_ticks(due.gap)),
    }
}

fn is_reached(origin: Origin, offset: u64, now: Tick) -> bool
    ensures { result ≡ nat_le (origin.tick + (offset - origin.offset)) now.0 }
{
    origin.tick <= now.0 && offset.saturating_sub(origin.offset) <= now.0 - origin.tick
}
