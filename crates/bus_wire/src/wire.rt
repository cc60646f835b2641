//! The wire. It keeps no list of what was driven: for each station and channel it keeps the newest transmission.
ghost use Rattle.std.specs.Prelude.{◌≡◌, ◌<◌, ◌≤◌, ◌^◌, ◌+◌, List, [], ◌∷◌, length, slice_get, Some, None};
ghost use Rattle.bus_base.specs.declared.samples.Channel.TheVariants.{A, B};
ghost use Rattle.bus_base.specs.declared.samples.Drive.{Drive};
ghost use Rattle.bus_formats.specs.declared.fault.Fault.{Fault};
ghost use Rattle.bus_model.specs.Wire as spec;
ghost use Rattle.bus_wire.specs.Places.{AreRising, AreSilentBeside};
ghost use Rattle.bus_wire.specs.Sides.{Shows};
ghost use Rattle.bus_wire.specs.WireStands.{WireStands, FollowsTo};
ghost use Rattle.bus_wire.specs.Passing.{WirePasses, ShowsAll};
ghost use Rattle.bus_wire.specs.Passing as passing;
ghost use Rattle.bus_wire.specs.declared.wire.Shown.{Shown as ShownData};

use crate::side::{OnChannel, Side};
use crate::transmitter::Driven;
use bus_base::{Channel, Drive, Pair, Sample};
use bus_formats::Fault;

/// What the channels show in a tick, and how many stations count as driving A and B: those that drive it, and those whose words of an
/// extra are shown there. With two or more the tick is a clash.
#[derive(Clone, Copy, Debug, PartialEq, Eq)]
pub struct Shown {
    pub pair: Pair,
    pub drivers: [u8; 2],
}

/// The wire between the stations of a bus. It stands for the faults of a plan and for what was driven since tick 0: a list of drives for each
/// tick, the newest first, with a drive for each station.
#[derive(Drop)]
pub struct Wire {
    faults: Vec<Fault>,
    // the number of the tick to come
    next: u64,
    // the transmissions of commands that have begun: each station may begin one in each of 2^60 ticks, too many for 64 bits
    commands: u128,
    a: Side,
    b: Side,
}

impl Wire {
    /// A wire on which nothing was driven yet, with these faults.
    pub fn new(faults: Vec<Fault>) -> Wire
        ensures { WireStands faults.items result [] }
    {
        Wire {
            faults,
            next: 0,
            commands: 0,
            a: Side::new(),
            b: Side::new(),
        }
    }

    /// Shows what the stations, at most 32, drive in the tick to come. The drives stand in the order of the plan. Where several stations drive a
    /// channel, the first of them is shown; a channel that nobody drives is quiet. It takes no memory.
    pub fn show(&mut self, drives: &[Drive]) -> Shown
        requires few { length drives.now ≤ 32 }
        requires stands { (faults : List Fault) × (driven : List (List Drive)) × WireStands faults self.old driven × (length driven < 2 ^ 60) }
        ensures stands { (faults : List Fault) (driven : List (List Drive)) → WireStands faults self.old driven →
            WireStands faults self.new (drives.now ∷ driven) }
        ensures pair { (faults : List Fault) (driven : List (List Drive)) → WireStands faults self.old driven →
            result.pair ≡ spec.shown faults (drives.now ∷ driven) }
        ensures drivers { (faults : List Fault) (driven : List (List Drive)) → WireStands faults self.old driven →
            result.drivers ≡ spec.drivers faults A (drives.now ∷ driven) ∷ spec.drivers faults B (drives.now ∷ driven) ∷ [] }
    {
        self.follow(drives);
        let a = self.on(Channel::A, drives);
        let b = self.on(Channel::B, drives);
        Shown {
            pair: Pair {
                a: a.sample,
                b: b.sample,
            },
            drivers: [a.drivers, b.drivers],
        }
    }

    /// Shows what `show` shows, where only the stations at these places may drive: every other drive is silent. The places rise. What it costs depends on
    /// them alone, but where an extra may add to a channel.
    pub fn show_among(&mut self, drives: &[Drive], places: &[u8]) -> Shown
        requires few { length drives.now ≤ 32 }
        requires rising { AreRising 0 (length drives.now) places.now }
        requires silent { AreSilentBeside 0 places.now drives.now }
        requires stands { (faults : List Fault) × (driven : List (List Drive)) × WireStands faults self.old driven × (length driven < 2 ^ 60) }
        ensures stands { (faults : List Fault) (driven : List (List Drive)) → WireStands faults self.old driven →
            WireStands faults self.new (drives.now ∷ driven) }
        ensures pair { (faults : List Fault) (driven : List (List Drive)) → WireStands faults self.old driven →
            result.pair ≡ spec.shown faults (drives.now ∷ driven) }
        ensures drivers { (faults : List Fault) (driven : List (List Drive)) → WireStands faults self.old driven →
            result.drivers ≡ spec.drivers faults A (drives.now ∷ driven) ∷ spec.drivers faults B (drives.now ∷ driven) ∷ [] }
    {
        match self.show_only(drives, places) {
            Some(shown) => shown,
            None => self.show_several(drives, places),
        }
    }

    // What is shown where one station alone may drive, and goes on with a transmission that no fault strikes, while no extra may add to a channel. None
    // where that isn't so: then nothing is kept.
    #[inline(always)]
    fn show_only(&mut self, drives: &[Drive], places: &[u8]) -> Option<Shown>
        requires few { length drives.now ≤ 32 }
        requires rising { AreRising 0 (length drives.now) places.now }
        requires silent { AreSilentBeside 0 places.now drives.now }
        requires stands { (faults : List Fault) × (driven : List (List Drive)) × WireStands faults self.old driven × (length driven < 2 ^ 60) }
        ensures same { result ≡ None → self.new ≡ self.old }
        ensures shows { (faults : List Fault) (driven : List (List Drive)) (shown : ShownData) → result ≡ Some shown → WireStands faults self.old driven →
            ShowsAll faults (drives.now ∷ driven) self.new shown }
    {
        if places.len() != 1 {
            return None;
        }
        let station = usize::from(places[0]);
        match drives[station] {
            Drive::Silent => None,
            Drive::On {
                channel,
                sample,
                last,
                ..
            } => {
                if self.pass(station, channel, last) {
                    Some(alone(channel, sample))
                } else {
                    None
                }
            }
        }
    }

    // The station that alone drives in the tick to come goes on with a transmission that no fault strikes, while no extra may add to a channel. False where
    // that isn't so: then nothing is kept.
    #[inline(always)]
    fn pass(&mut self, station: usize, channel: Channel, last: bool) -> bool
        requires station { station < 32 }
        requires small { self.old.next < 2 ^ 60 }
        ensures { WirePasses station channel last self.old self.new result }
    {
        let tick = self.next;
        match channel {
            Channel::A => {
                if self.b.may_add(tick) || !self.a.pass(station, tick, last) {
                    return false;
                }
                self.next = tick + 1;
                true
            }
            Channel::B => {
                if self.a.may_add(tick) || !self.b.pass(station, tick, last) {
                    return false;
                }
                self.next = tick + 1;
                true
            }
        }
    }

    // What is shown of the stations at these places, of which several may drive, or faults may strike what they do.
    #[inline(never)]
    fn show_several(&mut self, drives: &[Drive], places: &[u8]) -> Shown
        requires few { length drives.now ≤ 32 }
        requires rising { AreRising 0 (length drives.now) places.now }
        requires silent { AreSilentBeside 0 places.now drives.now }
        requires stands { (faults : List Fault) × (driven : List (List Drive)) × WireStands faults self.old driven × (length driven < 2 ^ 60) }
        ensures stands { (faults : List Fault) (driven : List (List Drive)) → WireStands faults self.old driven →
            WireStands faults self.new (drives.now ∷ driven) }
        ensures pair { (faults : List Fault) (driven : List (List Drive)) → WireStands faults self.old driven →
            result.pair ≡ spec.shown faults (drives.now ∷ driven) }
        ensures drivers { (faults : List Fault) (driven : List (List Drive)) → WireStands faults self.old driven →
            result.drivers ≡ spec.drivers faults A (drives.now ∷ driven) ∷ spec.drivers faults B (drives.now ∷ driven) ∷ [] }
    {
        self.follow_among(drives, places);
        let a = self.on_among(Channel::A, drives, places);
        let b = self.on_among(Channel::B, drives, places);
        Shown {
            pair: Pair {
                a: a.sample,
                b: b.sample,
            },
            drivers: [a.drivers, b.drivers],
        }
    }

    // Keeps what the stations at these places drive in the tick to come.
    fn follow_among(&mut self, drives: &[Drive], places: &[u8])
        requires few { length drives.now ≤ 32 }
        requires rising { AreRising 0 (length drives.now) places.now }
        requires silent { AreSilentBeside 0 places.now drives.now }
        requires stands { (faults : List Fault) × (driven : List (List Drive)) × WireStands faults self.old driven × (length driven < 2 ^ 60) }
        ensures { (faults : List Fault) (driven : List (List Drive)) → WireStands faults self.old driven →
            WireStands faults self.new (drives.now ∷ driven) }
    {
        for place in places {
            let station = usize::from(*place);
            self.follow_station(station, drives[station]);
        }
        self.next += 1;
    }

    // What a channel shows in the newest tick, in which the stations at these places alone may drive.
    #[inline(always)]
    fn on_among(&self, channel: Channel, drives: &[Drive], places: &[u8]) -> OnChannel
        requires few { length drives.now ≤ 32 }
        requires rising { AreRising 0 (length drives.now) places.now }
        requires silent { AreSilentBeside 0 places.now drives.now }
        requires stands { (faults : List Fault) × (driven : List (List Drive)) × WireStands faults self.now (drives.now ∷ driven) }
        ensures { (faults : List Fault) (driven : List (List Drive)) → WireStands faults self.now (drives.now ∷ driven) →
            Shows (spec.samples_on faults channel (drives.now ∷ driven)) result }
    {
        let tick = self.next - 1;
        match channel {
            Channel::A => {
                self.a.shown_among(channel, &self.faults, tick, self.b.driven(), drives, places)
            }
            Channel::B => {
                self.b.shown_among(channel, &self.faults, tick, self.a.driven(), drives, places)
            }
        }
    }

    // Keeps what the stations drive in the tick to come.
    fn follow(&mut self, drives: &[Drive])
        requires few { length drives.now ≤ 32 }
        requires stands { (faults : List Fault) × (driven : List (List Drive)) × WireStands faults self.old driven × (length driven < 2 ^ 60) }
        ensures { (faults : List Fault) (driven : List (List Drive)) → WireStands faults self.old driven →
            WireStands faults self.new (drives.now ∷ driven) }
    {
        for (station, drive) in drives.iter().enumerate() {
            self.follow_station(station, *drive);
        }
        self.next += 1;
    }

    // Keeps what one station drives in the tick to come, after the stations before it in their order.
    fn follow_station(&mut self, station: usize, drive: Drive)
        requires station { station < 32 }
        requires tick { (faults : List Fault) × (driven : List (List Drive)) × (drives : List Drive) × FollowsTo faults driven drives station self.old
            × (slice_get drives station ≡ Some drive) × (length driven < 2 ^ 60) }
        ensures { (faults : List Fault) (driven : List (List Drive)) (drives : List Drive) → FollowsTo faults driven drives station self.old →
            slice_get drives station ≡ Some drive → FollowsTo faults driven drives (station + 1) self.new }
    {
        match drive {
            Drive::Silent => {}
            Drive::On {
                channel,
                part,
                last,
                ..
            } => {
                let driven = Driven {
                    tick: self.next,
                    part,
                    last,
                };
                match channel {
                    Channel::A => {
                        self.commands = self.a.follow(station, &self.faults, self.commands, driven);
                    }
                    Channel::B => {
                        self.commands = self.b.follow(station, &self.faults, self.commands, driven);
                    }
                }
            }
        }
    }

    // What a channel shows in the newest tick, in which the stations drive this.
    fn on(&self, channel: Channel, drives: &[Drive]) -> OnChannel
        requires few { length drives.now ≤ 32 }
        requires stands { (faults : List Fault) × (driven : List (List Drive)) × WireStands faults self.now (drives.now ∷ driven) }
        ensures { (faults : List Fault) (driven : List (List Drive)) → WireStands faults self.now (drives.now ∷ driven) →
            Shows (spec.samples_on faults channel (drives.now ∷ driven)) result }
    {
        let tick = self.next - 1;
        match channel {
            Channel::A => self
                .a
                .shown(channel, &self.faults, tick, self.b.driven(), drives),
            Channel::B => self
                .b
                .shown(channel, &self.faults, tick, self.a.driven(), drives),
        }
    }
}

// One station drives a channel, and the other is quiet.
#[inline(always)]
fn alone(channel: Channel, sample: Sample) -> Shown
    ensures { result ≡ passing.alone channel sample }
{
    match channel {
        Channel::A => Shown {
            pair: Pair {
                a: sample,
                b: Sample::Quiet,
            },
            drivers: [1, 0],
        },
        Channel::B => Shown {
            pair: Pair {
                a: Sample::Quiet,
                b: sample,
            },
            drivers: [0, 1],
        },
    }
}
