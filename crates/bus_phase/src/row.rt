//! The samples of a channel that are not yet told.
ghost use Rattle.std.specs.Prelude.{◌≡◌, ◌<◌, ◌≤◌, ◌+◌, [], length, take};
ghost use Rattle.bus_phase.specs.Rows as spec;

use bus_base::Sample;
use std::marker::Model;

/// The most ticks that wait.
pub const MOST_WAITING: usize = 64;

/// The samples of the ticks that wait to be told, and the level of all later ones.
#[derive(Drop)]
pub struct Row {
    samples: [Sample; 64],
    count: usize,
    level: Sample,
}

impl Model for Row {
    ghost use Rattle.std.specs.Prelude.{◌≡◌, ◌≤◌, length, take};
    ghost use Rattle.bus_phase.specs.Rows.{RowData};

    ghost Value = { RowData };

    ghost view = { λ r. record { waiting = take r.count r.samples; level = r.level } };

    ghost invariant = { λ r. (r.count ≤ 64) × (length r.samples ≡ 64) };
}

impl Row {
    /// A channel that is quiet in all ticks.
    pub(crate) fn new() -> Row
        ensures { result ≡ record { waiting = []; level = Sample.Quiet } }
    {
        Row {
            samples: [Sample::Quiet; 64],
            count: 0,
            level: Sample::Quiet,
        }
    }

    /// The number of ticks that wait.
    pub(crate) fn len(&self) -> usize
        ensures count { result ≡ length self.now.waiting }
        ensures few { result ≤ 64 }
    {
        self.count
    }

    /// A change to another level, so many ticks after the first that waits.
    pub(crate) fn put_at(&mut self, place: usize, level: Sample)
        requires { place ≤ 64 }
        ensures { self.new ≡ spec.put_at place level self.old }
    {
        fit(&mut self.samples, self.count, place, self.level);
        self.count = place;
        self.level = level;
    }

    /// The sample of the first tick that waits, which is told with it.
    pub(crate) fn tell(&mut self) -> Sample
        ensures sample { result ≡ spec.first_sample self.old }
        ensures rest { self.new ≡ spec.after_first self.old }
    {
        if self.count == 0 {
            return self.level;
        }
        let first = self.samples[0];
        self.samples.rotate_left(1);
        self.count -= 1;
        first
    }
}

// Fits the samples before a place to another number of them.
fn fit(samples: &mut [Sample], from: usize, to: usize, level: Sample)
    requires before { from ≤ length samples.old }
    requires within { to ≤ length samples.old }
    ensures { take to samples.new ≡ spec.fit to level (take from samples.old) }
{
    if to <= from {
        return;
    }
    fill(samples, from, to, level);
}

// Writes a level over the samples from a place to another.
fn fill(samples: &mut [Sample], from: usize, to: usize, level: Sample)
    requires order { from ≤ to }
    requires within { to ≤ length samples.old }
    ensures { take to samples.new ≡ spec.fit to level (take from samples.old) }
{
    for place in from..to {
        samples[place] = level;
    }
}
