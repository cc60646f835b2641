//! The samples of a channel, from the changes of its cleaned level.
ghost use Rattle.std.specs.Prelude.{◌≡◌, ◌+◌, ◌-◌, ◌<◌, ◌≤◌, ◌^◌, length};
ghost use Rattle.bus_phase.specs.Following as spec;
ghost use Rattle.bus_base.specs.Samples.{is_quiet};
ghost use Rattle.bus_phase.specs.Rows.{place_of};

use crate::anchor::{Anchor, reference, tick_within};
use crate::cleaner::Change;
use crate::row::Row;
use crate::times::{is_good, nearest};
use bus_base::Sample;

/// Quiet for so long ends a burst, in picoseconds.
const BURST_END: u64 = 1_750_000;

/// Follows the cleaned level of a channel, and keeps its samples that are not yet told.
#[derive(Drop)]
pub struct Follower {
    /// The cleaned level.
    pub cleaned: Sample,
    /// Since when, in picoseconds.
    pub since: u64,
    /// Where a burst began of which no crossing was seen, in picoseconds.
    pub lead: Option<u64>,
    /// The last good crossing.
    pub anchor: Option<Anchor>,
    /// The samples.
    pub row: Row,
}

impl Follower {
    /// A channel of which nothing is recorded.
    pub(crate) fn new() -> Follower
        ensures { result ≡ spec.unmoved }
    {
        Follower {
            cleaned: Sample::Quiet,
            since: 0,
            lead: None,
            anchor: None,
            row: Row::new(),
        }
    }

    /// The tick from which the level holds, where so many ticks are told.
    pub(crate) fn end_tick(&self, settled: u32) -> u64
        ensures tick { result ≡ spec.end_tick settled self.now }
        ensures few { result < 2 ^ 33 }
    {
        u64::from(settled) + self.row.len() as u64
    }

    // A change to a level in a tick; the tick that it comes to.
    fn put_level(&mut self, settled: u32, tick: u64, level: Sample) -> u32
        requires { settled ≤ 4261672000 }
        ensures put { self.new ≡ spec.put_level settled tick level self.old }
        ensures tick { result ≡ spec.tick_put settled tick }
    {
        let place = place_of(settled, tick);
        self.row.put_at(place as usize, level);
        settled + place
    }

    // Out of quiet: the burst goes on, or one begins.
    fn leave_quiet(&mut self, other: Option<Anchor>, settled: u32, at: u64, level: Sample)
        requires { settled ≤ 4261672000 }
        ensures { self.new ≡ spec.out_of_quiet other settled at level self.old }
    {
        if goes_on(self.anchor, self.lead, self.since, at) {
            let tick = tick_within(self.anchor, other, at);
            self.put_level(settled, tick, level);
        } else {
            self.lead = Some(at);
        }
    }

    // The first crossing of a burst that began at `from`.
    fn cross_first(
        &mut self,
        other: Option<Anchor>,
        settled: u32,
        at: u64,
        level: Sample,
        from: u64,
    )
        requires { settled ≤ 4261672000 }
        ensures { self.new ≡ spec.first_crossing other settled at level from self.old }
    {
        let length = nearest(at.saturating_sub(from));
        let earliest = self.end_tick(settled) + length;
        let tick = settled + place_of(settled, reference(self.anchor, other, at).max(earliest));
        let begins = u64::from(tick).saturating_sub(length);
        self.put_level(settled, begins, self.cleaned);
        self.put_level(settled, u64::from(tick), level);
        self.lead = None;
        self.anchor = Some(Anchor { tick, at });
    }

    // A later crossing.
    fn cross_later(&mut self, other: Option<Anchor>, settled: u32, at: u64, level: Sample)
        requires { settled ≤ 4261672000 }
        ensures { self.new ≡ spec.later_crossing other settled at level self.old }
    {
        let tick = self.put_level(settled, tick_within(self.anchor, other, at), level);
        self.anchor = moved(self.anchor, tick, at);
    }

    // The end of a burst that began at `from` and had no crossing.
    fn end_whole(&mut self, other: Option<Anchor>, settled: u32, at: u64, from: u64)
        requires { settled ≤ 4261672000 }
        ensures { self.new ≡ spec.whole_burst other settled at from self.old }
    {
        let tick = reference(self.anchor, other, from);
        self.put_level(settled, tick, self.cleaned);
        self.put_level(
            settled,
            tick + nearest(at.saturating_sub(from)),
            Sample::Quiet,
        );
        self.lead = None;
    }

    // Into quiet.
    fn enter_quiet(&mut self, other: Option<Anchor>, settled: u32, at: u64)
        requires { settled ≤ 4261672000 }
        ensures { self.new ≡ spec.into_quiet other settled at self.old.lead self.old }
    {
        match self.lead {
            Some(from) => self.end_whole(other, settled, at, from),
            None => {
                let tick = tick_within(self.anchor, other, at);
                self.put_level(settled, tick, Sample::Quiet);
            }
        }
    }

    // From a sign to the other.
    fn cross(&mut self, other: Option<Anchor>, settled: u32, at: u64, level: Sample)
        requires { settled ≤ 4261672000 }
        ensures { self.new ≡ spec.crossed other settled at level self.old.lead self.old }
    {
        match self.lead {
            Some(from) => self.cross_first(other, settled, at, level, from),
            None => self.cross_later(other, settled, at, level),
        }
    }

    fn change(&mut self, other: Option<Anchor>, settled: u32, at: u64, level: Sample)
        requires { settled ≤ 4261672000 }
        ensures { self.new ≡ spec.changed other settled at level (is_quiet self.old.cleaned) (is_quiet level) self.old }
    {
        match (is_quiet(self.cleaned), is_quiet(level)) {
            (true, true) => {}
            (true, false) => self.leave_quiet(other, settled, at, level),
            (false, true) => self.enter_quiet(other, settled, at),
            (false, false) => self.cross(other, settled, at, level),
        }
    }

    /// Follows a change of the cleaned level, if there is one.
    pub(crate) fn follow(&mut self, other: Option<Anchor>, settled: u32, change: Option<Change>)
        requires { settled ≤ 4261672000 }
        ensures { self.new ≡ spec.followed_if other settled change self.old }
    {
        if let Some(change) = change {
            self.change(other, settled, change.at, change.level);
            self.cleaned = change.level;
            self.since = change.at;
        }
    }

    // Places a burst that began at `from`, of which no crossing was seen.
    fn place_lead(&mut self, other: Option<Anchor>, settled: u32, from: u64)
        requires { settled ≤ 4261672000 }
        ensures { self.new ≡ spec.placed_lead other settled from self.old }
    {
        let tick = reference(self.anchor, other, from).max(self.end_tick(settled));
        let tick = settled + place_of(settled, tick);
        self.put_level(settled, u64::from(tick), self.cleaned);
        self.lead = None;
        self.anchor = Some(Anchor { tick, at: from });
    }

    /// Places a burst of which no crossing was seen, where the recording ends.
    pub(crate) fn end_lead(&mut self, other: Option<Anchor>, settled: u32)
        requires { settled ≤ 4261672000 }
        ensures { self.new ≡ spec.lead_ended other settled self.old.lead self.old }
    {
        if let Some(from) = self.lead {
            let tick = reference(self.anchor, other, from).max(self.end_tick(settled));
            let tick = settled + place_of(settled, tick);
            self.put_level(settled, u64::from(tick), self.cleaned);
            self.lead = None;
        }
    }

    /// Places a first run of at least this length.
    pub(crate) fn place(&mut self, other: Option<Anchor>, settled: u32, least: u64, now: u64)
        requires { settled ≤ 4261672000 }
        ensures { self.new ≡ spec.lead_placed other settled least now self.old.lead self.old }
    {
        if let Some(from) = self.lead {
            if now.saturating_sub(from) >= least {
                self.place_lead(other, settled, from);
            }
        }
    }
}

fn is_quiet(level: Sample) -> bool
    ensures { result ≡ is_quiet level }
{
    matches!(level, Sample::Quiet)
}

// Where a change is put among the ticks that wait.
fn place_of(settled: u32, tick: u64) -> u32
    ensures place { result ≡ place_of settled tick }
    ensures few { result ≤ 64 }
{
    tick.saturating_sub(u64::from(settled)).min(64) as u32
}

// Whether the burst before goes on where a channel leaves quiet.
fn goes_on(anchor: Option<Anchor>, lead: Option<u64>, since: u64, at: u64) -> bool
    ensures { result ≡ spec.goes_on at anchor lead since }
{
    match (anchor, lead) {
        (Some(_), None) => at.saturating_sub(since) < BURST_END,
        _ => false,
    }
}

// The anchor after a later crossing in a tick.
fn moved(anchor: Option<Anchor>, tick: u32, at: u64) -> Option<Anchor>
    ensures { result ≡ spec.moved at tick anchor }
{
    match anchor {
        Some(before) if is_good(at.saturating_sub(before.at)) => Some(Anchor { tick, at }),
        _ => anchor,
    }
}
