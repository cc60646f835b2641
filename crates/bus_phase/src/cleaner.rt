//! The level of a channel without spikes, and without the time in which a signal that crosses zero is below a threshold.
ghost use Rattle.std.specs.Prelude.{◌≡◌};
ghost use Rattle.bus_phase.specs.Cleaning as spec;

use crate::times::TICK;
use bus_base::Sample;

/// A change of a channel's cleaned level.
#[derive(Clone, Copy, Debug, PartialEq, Eq)]
pub struct Change {
    /// When it is, in picoseconds.
    pub at: u64,
    /// The level from then on.
    pub level: Sample,
}

impl Default for Change {
    fn default() -> Change {
        Change {
            at: 0,
            level: Sample::Quiet,
        }
    }
}

/// Finds the sure runs of a channel's level. It keeps the last of them and the run that goes on.
#[derive(Clone, Copy, Debug)]
pub struct Cleaner {
    /// The level of the last sure run, or quiet where that is lost.
    pub sure: Sample,
    /// Where the last sure run ended, in picoseconds.
    pub until: u64,
    /// The level of the run that goes on.
    pub level: Sample,
    /// Where it began, in picoseconds.
    pub since: u64,
    /// Whether it is sure.
    pub is_sure: bool,
}

impl Cleaner {
    /// Quiet, from the first moment on.
    pub(crate) fn new() -> Cleaner
        ensures { result ≡ spec.unheard }
    {
        Cleaner {
            sure: Sample::Quiet,
            until: 0,
            level: Sample::Quiet,
            since: 0,
            is_sure: false,
        }
    }

    fn is_near(&self) -> bool
        ensures { result ≡ spec.is_near self.now }
    {
        self.since.saturating_sub(self.until) < TICK
    }

    fn is_lost(&self) -> bool
        ensures { result ≡ spec.is_lost self.now }
    {
        !self.is_sure && self.sure != Sample::Quiet && !self.is_near()
    }

    /// The change to quiet that is known where a tick or more has gone by since the last sure run.
    pub(crate) fn take_lost(&mut self) -> Option<Change>
        ensures change { result ≡ spec.lost_change self.old }
        ensures after { self.new ≡ spec.after_lost self.old }
    {
        if !self.is_lost() {
            return None;
        }
        self.sure = Sample::Quiet;
        Some(Change {
            at: self.until,
            level: Sample::Quiet,
        })
    }

    fn is_found(&self, now: u64) -> bool
        ensures { result ≡ spec.is_found now self.now }
    {
        !self.is_sure && now.saturating_sub(self.since) >= least_time(self.level)
    }

    fn change_time(&self) -> u64
        ensures { result ≡ spec.change_time self.now }
    {
        if self.is_near() {
            self.until + self.since.saturating_sub(self.until) / 2
        } else {
            self.since
        }
    }

    /// The change to the run that goes on, where that is found to be sure at this time and has another level.
    pub(crate) fn take_found(&mut self, now: u64) -> Option<Change>
        ensures change { result ≡ spec.found_change now self.old }
        ensures after { self.new ≡ spec.after_found now self.old }
    {
        if !self.is_found(now) {
            return None;
        }
        let before = self.sure;
        self.sure = self.level;
        self.is_sure = true;
        if same_sample(self.level, before) {
            return None;
        }
        Some(Change {
            at: self.change_time(),
            level: self.level,
        })
    }

    /// The level from a moment on, as it is recorded.
    pub(crate) fn set_level(&mut self, now: u64, level: Sample)
        ensures { self.new ≡ spec.after_level now level self.old }
    {
        if same_sample(level, self.level) {
            return;
        }
        if self.is_sure {
            self.until = now;
        }
        self.level = level;
        self.since = now;
        self.is_sure = false;
    }
}

// The least length of a sure run.
fn least_time(level: Sample) -> u64
    ensures { result ≡ spec.least_time level }
{
    match level {
        Sample::Quiet => 250_000,
        Sample::Plus | Sample::Minus => 150_000,
    }
}

fn same_sample(a: Sample, b: Sample) -> bool
    ensures { result ≡ spec.same_sample a b }
{
    match a {
        Sample::Plus => matches!(b, Sample::Plus),
        Sample::Minus => matches!(b, Sample::Minus),
        Sample::Quiet => matches!(b, Sample::Quiet),
    }
}
