//! Both channels of a recording.
ghost use Rattle.std.specs.Prelude.{◌≡◌, ◌≤◌, ◌<◌, ◌-◌, ◌==◌, min, max};
ghost use Rattle.bus_phase.specs.Phases as spec;

use crate::anchor::{latest, tick_at_end, tick_in_silence};
use crate::cleaner::Change;
use crate::track::Track;
use bus_base::Pair;
use std::marker::Model;

/// The most ticks of a recording: a capture has no more.
pub const MOST_TICKS: u32 = 4_261_672_000;

// The ticks that are held back, since later moments may tell more of them.
const HELD_BACK: u64 = 32;

// How long a change waits, in picoseconds: it is found less than this after it, and so the changes of both channels are followed in their order.
const HOLD_TIME: u64 = 750_000;

// The most changes of both channels that wait.
const MOST_WAITING: u8 = 16;

/// The phase of a recording: it takes the levels of both channels from moment to moment, and tells the samples of their ticks.
#[derive(Drop)]
pub struct Phase {
    a: Track,
    b: Track,
    settled: u32,
    due: u32,
}

impl Model for Phase {
    ghost use Rattle.std.specs.Prelude.{◌≤◌};
    ghost use Rattle.bus_phase.specs.Phases.{PhaseData};

    ghost Value = { PhaseData };

    ghost view = { λ p. record { a = p.a; b = p.b; settled = p.settled; due = p.due } };

    ghost invariant = { λ p. (p.settled ≤ p.due) × (p.due ≤ 4261672000) };
}

impl Phase {
    /// A recording of which nothing is read: both channels are quiet from the first moment on.
    pub fn new() -> Phase
        ensures { result ≡ spec.phase_at_start }
    {
        Phase {
            a: Track::new(),
            b: Track::new(),
            settled: 0,
            due: 0,
        }
    }

    /// At this moment, in picoseconds from the first, and from it on, the channels show this pair.
    pub fn show(&mut self, now: u64, pair: Pair)
        ensures { self.new ≡ spec.shown now pair self.old }
    {
        self.notice(now, pair);
        self.advance(now.saturating_sub(HOLD_TIME));
        self.make_due(now);
    }

    fn notice(&mut self, now: u64, pair: Pair)
        ensures { self.new ≡ spec.both_noticed now pair self.old }
    {
        self.a.notice(now, pair.a);
        self.b.notice(now, pair.b);
    }

    // The ticks that are due at a moment.
    fn make_due(&mut self, now: u64)
        ensures { self.new ≡ spec.with_due_at now self.old }
    {
        let silence = latest(self.a.follower.anchor, self.b.follower.anchor);
        let due = tick_in_silence(silence, now).saturating_sub(HELD_BACK);
        self.due = more_due(self.due, due);
    }

    // Follows the changes up to a moment, and places first runs that are long.
    fn advance(&mut self, moment: u64)
        ensures { self.new ≡ spec.advanced moment self.old }
    {
        self.follow(MOST_WAITING, moment);
        self.a.place(self.b.follower.anchor, self.settled, moment);
        self.b.place(self.a.follower.anchor, self.settled, moment);
    }

    fn is_first_on_a(&self) -> bool
        ensures { result ≡ spec.is_first_on_a self.now }
    {
        match (self.a.changes.as_slice(), self.b.changes.as_slice()) {
            ([], _) => false,
            ([_, ..], []) => true,
            ([own, ..], [other, ..]) => own.at <= other.at,
        }
    }

    fn is_first_by(&self, moment: u64) -> bool
        ensures { result ≡ spec.is_first_by moment self.now }
    {
        if self.is_first_on_a() {
            begins_by(self.a.changes.as_slice(), moment)
        } else {
            begins_by(self.b.changes.as_slice(), moment)
        }
    }

    // Follows the first change of both channels.
    fn follow_first(&mut self)
        ensures { self.new ≡ spec.first_followed self.old }
    {
        if self.is_first_on_a() {
            self.a.follow_first(self.b.follower.anchor, self.settled);
        } else {
            self.b.follow_first(self.a.follower.anchor, self.settled);
        }
    }

    // Follows the changes up to a moment, so many at most.
    fn follow(&mut self, most: u8, moment: u64)
        ensures { self.new ≡ spec.followed_by most moment self.old }
    {
        if most == 0 {
            return;
        }
        if !self.is_first_by(moment) {
            return;
        }
        self.follow_first();
        self.follow(most - 1, moment);
    }

    /// The recording ends at this moment, in picoseconds: all its ticks are due.
    pub fn end(&mut self, now: u64)
        ensures { self.new ≡ spec.ended now self.old }
    {
        self.hear(now);
        self.follow(MOST_WAITING, u64::MAX);
        self.end_leads();
        self.make_last_due(now);
    }

    fn hear(&mut self, now: u64)
        ensures { self.new ≡ spec.both_heard now self.old }
    {
        self.a.hear(now);
        self.b.hear(now);
    }

    fn end_leads(&mut self)
        ensures { self.new ≡ spec.on_both spec.lead_over self.old }
    {
        self.a.end(self.b.follower.anchor, self.settled);
        self.b.end(self.a.follower.anchor, self.settled);
    }

    // All ticks are due where the recording ends.
    fn make_last_due(&mut self, now: u64)
        ensures { self.new ≡ spec.with_due_to_last now self.old }
    {
        let silence = latest(self.a.follower.anchor, self.b.follower.anchor);
        let last_a = self.a.follower.end_tick(self.settled);
        let last_b = self.b.follower.end_tick(self.settled);
        let last = tick_at_end(silence, now).max(last_a.max(last_b));
        self.due = more_due(self.due, last);
    }

    /// How many ticks are due that aren't told.
    pub fn ticks_due(&self) -> u32
        ensures { result ≡ self.now.due - self.now.settled }
    {
        self.due - self.settled
    }

    /// What the channels show in the next tick, if one is due.
    pub fn tell(&mut self) -> Option<Pair>
        ensures tick { self.old.settled < self.old.due → result ≡ Some (spec.pair_now self.old) }
        ensures after { self.old.settled < self.old.due → self.new ≡ spec.after_tick self.old }
        ensures none { self.old.due ≤ self.old.settled → result ≡ None }
        ensures same { self.old.due ≤ self.old.settled → self.new ≡ self.old }
    {
        if self.settled >= self.due {
            return None;
        }
        let a = self.a.tell();
        let b = self.b.tell();
        self.settled += 1;
        Some(Pair { a, b })
    }

    /// Whether it has as many ticks as a capture has at most.
    pub fn is_full(&self) -> bool
        ensures { result ≡ (self.now.due == 4261672000) }
    {
        self.due == MOST_TICKS
    }
}

// Whether the first change is at a moment or before it.
fn begins_by(changes: &[Change], moment: u64) -> bool
    ensures { result ≡ spec.begins_by moment changes.now }
{
    match changes {
        [] => false,
        [change, ..] => change.at <= moment,
    }
}

// So many ticks are due, never fewer than before.
fn more_due(due: u32, ticks: u64) -> u32
    requires { due ≤ 4261672000 }
    ensures more { result ≡ max due (min ticks 4261672000) }
{
    due.max(ticks.min(u64::from(MOST_TICKS)) as u32)
}
