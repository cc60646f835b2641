//! One channel of a recording.
ghost use Rattle.std.specs.Prelude.{◌≡◌, ◌≤◌, drop};
ghost use Rattle.bus_phase.specs.Rows.{first_sample};
ghost use Rattle.bus_phase.specs.Following.{longest_lead};
ghost use Rattle.bus_phase.specs.Phases as spec;

use crate::anchor::Anchor;
use crate::cleaner::{Change, Cleaner};
use crate::follower::Follower;
use arrayvec::ArrayVec;
use bus_base::Sample;

/// A first run of this length, in picoseconds, is placed without waiting for its end.
const LONGEST_LEAD: u64 = 8_000_000;

// The most changes that wait.
const MOST_CHANGES: usize = 8;

/// A channel: its runs, and its samples.
#[derive(Drop)]
pub struct Track {
    /// Finds its sure runs.
    pub cleaner: Cleaner,
    /// The changes between them that wait to be followed.
    pub changes: ArrayVec<Change, 8>,
    /// Follows them.
    pub follower: Follower,
}

impl Track {
    /// A channel of which nothing is recorded.
    pub(crate) fn new() -> Track
        ensures { result ≡ spec.track_at_start }
    {
        Track {
            cleaner: Cleaner::new(),
            changes: ArrayVec::new(),
            follower: Follower::new(),
        }
    }

    // A change waits.
    fn queue(&mut self, change: Option<Change>)
        ensures { self.new ≡ record self.old { changes = record { items = spec.queued change self.old.changes.items } } }
    {
        if let Some(change) = change {
            if self.changes.len() < MOST_CHANGES {
                self.changes.push(change);
            }
        }
    }

    fn lose(&mut self)
        ensures { self.new ≡ spec.lost self.old }
    {
        let change = self.cleaner.take_lost();
        self.queue(change);
    }

    fn find(&mut self, now: u64)
        ensures { self.new ≡ spec.found now self.old }
    {
        let change = self.cleaner.take_found(now);
        self.queue(change);
    }

    /// A moment has come: what it shows of the runs before it waits.
    pub(crate) fn hear(&mut self, now: u64)
        ensures { self.new ≡ spec.heard now self.old }
    {
        self.lose();
        self.find(now);
    }

    /// At this moment, and from it on, the channel shows this level.
    pub(crate) fn notice(&mut self, now: u64, level: Sample)
        ensures { self.new ≡ spec.noticed now level self.old }
    {
        self.hear(now);
        self.cleaner.set_level(now, level);
    }

    // The first change that waits, which waits no longer.
    fn take_change(&mut self) -> Option<Change>
        ensures change { result ≡ spec.front self.old.changes.items }
        ensures rest { self.new ≡ record self.old { changes = record { items = drop 1 self.old.changes.items } } }
    {
        self.changes.pop_at(0)
    }

    /// Follows the first change that waits, if one does.
    pub(crate) fn follow_first(&mut self, other: Option<Anchor>, settled: u32)
        requires { settled ≤ 4261672000 }
        ensures { self.new ≡ spec.change_followed other settled self.old }
    {
        let change = self.take_change();
        self.follower.follow(other, settled, change);
    }

    /// Places a first run of 16 ticks.
    pub(crate) fn place(&mut self, other: Option<Anchor>, settled: u32, now: u64)
        requires { settled ≤ 4261672000 }
        ensures { self.new ≡ spec.placed now longest_lead other settled self.old }
    {
        self.follower.place(other, settled, LONGEST_LEAD, now);
    }

    /// Places a burst of which no crossing was seen, where the recording ends.
    pub(crate) fn end(&mut self, other: Option<Anchor>, settled: u32)
        requires { settled ≤ 4261672000 }
        ensures { self.new ≡ spec.lead_over other settled self.old }
    {
        self.follower.end_lead(other, settled);
    }

    /// The sample of the first tick that isn't told, which is told with it.
    pub(crate) fn tell(&mut self) -> Sample
        ensures sample { result ≡ first_sample self.old.follower.row }
        ensures rest { self.new ≡ spec.track_told self.old }
    {
        self.follower.row.tell()
    }
}
