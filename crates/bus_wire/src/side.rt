//! One channel with the transmitters of all stations.
ghost use Rattle.std.specs.Prelude.{◌≡◌, ◌<◌, ◌≤◌, ◌^◌, not, ◌&&◌, false, List, ◌∷◌, length};
ghost use Rattle.bus_base.specs.Samples.{other_of};
ghost use Rattle.bus_base.specs.declared.samples.Drive.{Drive};
ghost use Rattle.bus_model.specs.Wire.{samples_on};
ghost use Rattle.bus_wire.specs.Newest.{newest, by_any, since};
ghost use Rattle.bus_wire.specs.Places.{AreRising, AreSilentBeside};
ghost use Rattle.bus_wire.specs.Steps.{may_add};
ghost use Rattle.bus_wire.specs.Sides.{SideFits, SideFollows, SidePasses, SideStands, IsUnsent, Shows, with_shown};

use crate::transmitter::{Driven, LONGEST, Transmitter, is_since, sample_on};
use bus_base::{Channel, Drive, Sample};
use bus_formats::Fault;

/// One channel.
#[derive(Drop)]
pub struct Side {
    // the transmitters of the stations, at most 32, in the order of the plan
    transmitters: [Transmitter; 32],
    // the newest tick in which any station drove the channel
    driven: Option<u64>,
    // the first tick of the newest transmission on the channel to which an extra adds
    extra: Option<u64>,
}

/// What a channel shows in a tick, and how many stations count as driving it.
#[derive(Clone, Copy)]
pub struct OnChannel {
    pub sample: Sample,
    pub drivers: u8,
}

impl OnChannel {
    // One station more, which is later in their order.
    #[inline(always)]
    fn with(self, shown: Option<Sample>) -> OnChannel
        requires { self.drivers < 255 }
        ensures { result ≡ with_shown self shown }
    {
        match shown {
            None => self,
            Some(sample) => OnChannel {
                sample: if self.drivers == 0 {
                    sample
                } else {
                    self.sample
                },
                drivers: self.drivers + 1,
            },
        }
    }
}

impl Side {
    /// A channel that nobody drove yet.
    pub fn new() -> Side
        ensures { IsUnsent result }
    {
        Side {
            transmitters: [Transmitter::new(); 32],
            driven: None,
            extra: None,
        }
    }

    /// The newest tick in which any station drove the channel.
    pub fn driven(&self) -> Option<u64>
        ensures { result ≡ self.now.driven }
    {
        self.driven
    }

    /// A station drives the channel. So many transmissions of commands have begun before; it answers how many have then.
    pub fn follow(
        &mut self,
        station: usize,
        faults: &[Fault],
        commands: u128,
        driven: Driven,
    ) -> u128
        requires station { station < 32 }
        requires few { commands < 2 ^ 100 }
        requires fits { SideFits faults.now self.old }
        ensures { SideFollows faults.now station commands driven self.old self.new result }
    {
        self.driven = Some(driven.tick);
        let transmitter = &mut self.transmitters[station];
        let after = transmitter.follow(faults, commands, driven);
        self.extra = transmitter.extra_since(self.extra);
        after
    }

    /// A station drives the channel, and goes on with a transmission that no fault strikes, while no extra may add to the channel. False where that isn't
    /// so: then the channel is as it was.
    #[inline(always)]
    pub fn pass(&mut self, station: usize, tick: u64, last: bool) -> bool
        requires { station < 32 }
        ensures { SidePasses station tick last self.old self.new result }
    {
        if self.may_add(tick) || !self.transmitters[station].passes(tick) {
            return false;
        }
        self.driven = Some(tick);
        self.transmitters[station].drive(tick, last);
        true
    }

    /// What this channel shows in this tick, the newest, of what the stations drive: the first station in their order that counts as driving
    /// it. `other` is the newest tick in which any station drove the other channel.
    #[inline(never)]
    pub fn shown(
        &self,
        channel: Channel,
        faults: &[Fault],
        tick: u64,
        other: Option<u64>,
        drives: &[Drive],
    ) -> OnChannel
        requires few { length drives.now ≤ 32 }
        requires stands { (before : List (List Drive)) × SideStands faults.now channel self.now (drives.now ∷ before)
            × (tick ≡ length before) × (other ≡ newest (by_any (other_of channel)) (drives.now ∷ before)) }
        ensures { (before : List (List Drive)) → SideStands faults.now channel self.now (drives.now ∷ before) → tick ≡ length before →
            other ≡ newest (by_any (other_of channel)) (drives.now ∷ before) → Shows (samples_on faults.now channel (drives.now ∷ before)) result }
    {
        if self.is_idle(tick) {
            return OnChannel {
                sample: Sample::Quiet,
                drivers: 0,
            };
        }
        let adds = self.may_add(tick);
        let mut on = OnChannel {
            sample: Sample::Quiet,
            drivers: 0,
        };
        for (station, drive) in drives.iter().enumerate() {
            let sample = sample_on(channel, *drive);
            on = on.with(self.transmitters[station].shown(faults, tick, other, adds, sample));
        }
        on
    }

    /// What `shown` answers, where only the stations at these places may drive.
    #[inline(always)]
    pub fn shown_among(
        &self,
        channel: Channel,
        faults: &[Fault],
        tick: u64,
        other: Option<u64>,
        drives: &[Drive],
        places: &[u8],
    ) -> OnChannel
        requires few { length drives.now ≤ 32 }
        requires rising { AreRising 0 (length drives.now) places.now }
        requires silent { AreSilentBeside 0 places.now drives.now }
        requires stands { (before : List (List Drive)) × SideStands faults.now channel self.now (drives.now ∷ before)
            × (tick ≡ length before) × (other ≡ newest (by_any (other_of channel)) (drives.now ∷ before)) }
        ensures { (before : List (List Drive)) → SideStands faults.now channel self.now (drives.now ∷ before) → tick ≡ length before →
            other ≡ newest (by_any (other_of channel)) (drives.now ∷ before) → Shows (samples_on faults.now channel (drives.now ∷ before)) result }
    {
        if self.is_idle(tick) {
            return OnChannel {
                sample: Sample::Quiet,
                drivers: 0,
            };
        }
        if self.may_add(tick) {
            return self.shown(channel, faults, tick, other, drives);
        }
        self.driven_among(channel, faults, tick, other, drives, places)
    }

    // What the stations at these places drive, where they alone may drive and no extra may add to the channel.
    #[inline(always)]
    fn driven_among(
        &self,
        channel: Channel,
        faults: &[Fault],
        tick: u64,
        other: Option<u64>,
        drives: &[Drive],
        places: &[u8],
    ) -> OnChannel
        requires few { length drives.now ≤ 32 }
        requires rising { AreRising 0 (length drives.now) places.now }
        requires silent { AreSilentBeside 0 places.now drives.now }
        requires ended { may_add tick self.now.extra ≡ false }
        requires stands { (before : List (List Drive)) × SideStands faults.now channel self.now (drives.now ∷ before)
            × (tick ≡ length before) × (other ≡ newest (by_any (other_of channel)) (drives.now ∷ before)) }
        ensures { (before : List (List Drive)) → SideStands faults.now channel self.now (drives.now ∷ before) → tick ≡ length before →
            other ≡ newest (by_any (other_of channel)) (drives.now ∷ before) → Shows (samples_on faults.now channel (drives.now ∷ before)) result }
    {
        let mut on = OnChannel {
            sample: Sample::Quiet,
            drivers: 0,
        };
        for place in places {
            let station = usize::from(*place);
            let sample = sample_on(channel, drives[station]);
            on = on.with(self.transmitters[station].shown(faults, tick, other, false, sample));
        }
        on
    }

    // Whether nobody drives the channel in this tick, the newest, and no extra may add to it.
    #[inline(always)]
    fn is_idle(&self, tick: u64) -> bool
        ensures { result ≡ (not (since self.now.driven tick) && not (may_add tick self.now.extra)) }
    {
        !is_since(self.driven, tick) && !self.may_add(tick)
    }

    /// Whether an extra may add to a transmission of the channel in this tick: the fail-safe hasn't stopped all of them.
    #[inline(always)]
    pub fn may_add(&self, tick: u64) -> bool
        ensures { result ≡ may_add tick self.now.extra }
    {
        match self.extra {
            Some(first) => tick.saturating_sub(first) < LONGEST,
            None => false,
        }
    }
}
