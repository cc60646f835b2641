//! A station's transmitter on one channel: its newest transmission there.
ghost use Rattle.std.specs.Prelude.{◌≡◌, ◌-◌, ◌<◌, ◌^◌, false, None, IsSome};
ghost use Rattle.bus_model.specs.Wire as spec;
ghost use Rattle.bus_model.specs.Strikes.{hits_on};
ghost use Rattle.bus_wire.specs.Newest.{since};
ghost use Rattle.bus_wire.specs.Steps.{goes_on, driven_by, added_of, is_added, ends_by, sends_command, shown_or, driven_sample, extra_with};
ghost use Rattle.bus_wire.specs.Steps as steps;
ghost use Rattle.bus_wire.specs.Stands.{AreStrikes, Unsent, Begins, Follows};

use crate::strikes::Strikes;
use bus_base::{Channel, Drive, Part, Sample};
use bus_formats::Fault;
use bus_line::sample_of;
use bus_words::{Sync, Word};

/// The longest transmission in ticks: the fail-safe stops a transmitter after the time of 40 words (MIL-STD-1553B 4.4.1.3).
pub const LONGEST: u64 = 1600;

/// That a station drives a channel in a tick: the tick, the part of the message, and whether the sample is the last of its words.
#[derive(Clone, Copy)]
pub struct Driven {
    pub tick: u64,
    pub part: Part,
    pub last: bool,
}

/// A station's transmitter on one channel.
#[derive(Clone, Copy)]
pub struct Transmitter {
    // the newest tick in which the station drove the channel
    drove: Option<u64>,
    // the first tick of its newest transmission, and the first tick since then with the last sample of its words
    first: u64,
    last: Option<u64>,
    strikes: Strikes,
}

impl Transmitter {
    /// A transmitter that never sent.
    pub fn new() -> Transmitter
        ensures { Unsent result }
    {
        Transmitter {
            drove: None,
            first: 0,
            last: None,
            strikes: Strikes::none(),
        }
    }

    /// The station drives the channel. So many transmissions of commands have begun before; it answers how many have then.
    #[inline(always)]
    pub fn follow(&mut self, faults: &[Fault], commands: u128, driven: Driven) -> u128
        requires few { commands < 2 ^ 100 }
        requires strikes { IsSome self.old.drove → AreStrikes faults.now self.old.strikes }
        ensures { Follows faults.now commands driven (goes_on faults.now driven.tick self.old) self.old self.new result }
    {
        if self.goes_on(faults, driven.tick) {
            self.drive(driven.tick, driven.last);
            return commands;
        }
        self.begin(faults, commands, driven)
    }

    // A transmission begins. It is a call of its own, since in most ticks one goes on.
    #[inline(never)]
    fn begin(&mut self, faults: &[Fault], commands: u128, driven: Driven) -> u128
        requires few { commands < 2 ^ 100 }
        ensures { Begins faults.now commands driven self.new result }
    {
        let attempt = if is_command(driven.part) {
            commands + 1
        } else {
            commands
        };
        *self = Transmitter {
            drove: None,
            first: driven.tick,
            last: None,
            strikes: Strikes::of(faults, attempt, driven.part),
        };
        self.drive(driven.tick, driven.last);
        attempt
    }

    // Whether a sample in this tick goes on with the transmission: the station drove the channel in the tick before, and no cut has ended it.
    fn goes_on(&self, faults: &[Fault], tick: u64) -> bool
        requires { IsSome self.now.drove → AreStrikes faults.now self.now.strikes }
        ensures { result ≡ goes_on faults.now tick self.now }
    {
        match self.drove {
            Some(drove) => {
                tick.saturating_sub(drove) == 1
                    && !self
                        .strikes
                        .is_cut_over(faults, tick.saturating_sub(self.first))
            }
            None => false,
        }
    }

    /// Whether a sample in this tick goes on with the transmission, and no fault strikes that.
    #[inline(always)]
    pub fn passes(&self, tick: u64) -> bool
        ensures { result ≡ steps.passes tick self.now }
    {
        is_next(self.drove, tick) && self.strikes.is_empty()
    }

    /// The station drives the channel in this tick, and its transmission goes on.
    #[inline(always)]
    pub fn drive(&mut self, tick: u64, last: bool)
        ensures { self.new ≡ driven_by tick last self.old }
    {
        self.drove = Some(tick);
        if self.last.is_none() && last {
            self.last = Some(tick);
        }
    }

    /// A sample that the station drives in this tick, as the wire shows it.
    #[inline(always)]
    pub fn struck(&self, faults: &[Fault], tick: u64, sample: Sample) -> Sample
        requires { AreStrikes faults.now self.now.strikes }
        ensures { result ≡ spec.struck_sample (tick - self.now.first) (hits_on faults.now self.now.strikes.attempt self.now.strikes.part) sample }
    {
        self.strikes
            .shown(faults, tick.saturating_sub(self.first), sample)
    }

    /// What an extra adds in a tick in which the station doesn't drive the channel. `other` is the newest tick in which any station drove the
    /// other channel.
    #[inline(never)]
    pub fn added(&self, tick: u64, other: Option<u64>) -> Option<Sample>
        ensures { result ≡ added_of tick other self.now }
    {
        let words = self.strikes.extra?;
        let last = self.last?;
        if self.adds(tick, last, words) && !self.ends_beside(other) {
            Some(zero_sample(tick - last - 1))
        } else {
            None
        }
    }

    /// What is shown of the station in this tick, if it counts as driving the channel: the sample that it drives there, struck, else what an
    /// extra adds. `adds` says whether an extra may add to any transmission of the channel.
    #[inline(always)]
    pub fn shown(
        &self,
        faults: &[Fault],
        tick: u64,
        other: Option<u64>,
        adds: bool,
        sample: Option<Sample>,
    ) -> Option<Sample>
        requires strikes { IsSome sample → AreStrikes faults.now self.now.strikes }
        requires adds { adds ≡ false → added_of tick other self.now ≡ None }
        ensures { result ≡ shown_or faults.now tick other self.now sample }
    {
        match sample {
            Some(sample) => Some(self.struck(faults, tick, sample)),
            None if adds => self.added(tick, other),
            None => None,
        }
    }

    /// The first tick of the newest transmission with an extra, of this one and the one that began in tick `earlier`.
    pub fn extra_since(&self, earlier: Option<u64>) -> Option<u64>
        ensures { result ≡ extra_with earlier self.now }
    {
        if self.strikes.extra.is_none() {
            return earlier;
        }
        match earlier {
            Some(tick) => Some(tick.max(self.first)),
            None => Some(self.first),
        }
    }

    // Whether this tick is one of the words that follow the last sample, the fail-safe hasn't stopped them, and the station hasn't driven
    // the channel since.
    fn adds(&self, tick: u64, last: u64, words: u8) -> bool
        ensures { result ≡ is_added tick last words self.now }
    {
        last < tick
            && tick - last <= 40 * u64::from(words)
            && tick.saturating_sub(self.first) < LONGEST
            && !is_since(self.drove, last + 1)
    }

    // Whether the transmission is an answer, and a station drove the other channel since it began.
    fn ends_beside(&self, other: Option<u64>) -> bool
        ensures { result ≡ ends_by other self.now }
    {
        !is_command(self.strikes.part) && is_since(other, self.first)
    }
}

/// The sample that a station drives on a channel, if it does.
#[inline(always)]
pub fn sample_on(channel: Channel, drive: Drive) -> Option<Sample>
    ensures { result ≡ driven_sample channel drive }
{
    match (channel, drive) {
        (
            Channel::A,
            Drive::On {
                channel: Channel::A,
                sample,
                ..
            },
        ) => Some(sample),
        (
            Channel::B,
            Drive::On {
                channel: Channel::B,
                sample,
                ..
            },
        ) => Some(sample),
        _ => None,
    }
}

// Whether a tick that is known is this one or a later one.
pub(crate) fn is_since(tick: Option<u64>, from: u64) -> bool
    ensures { result ≡ since tick from }
{
    match tick {
        Some(tick) => from <= tick,
        None => false,
    }
}

// Whether a tick is the one after another, if that is known.
#[inline(always)]
fn is_next(drove: Option<u64>, tick: u64) -> bool
    ensures { result ≡ steps.is_next drove tick }
{
    match drove {
        Some(drove) => tick.saturating_sub(drove) == 1,
        None => false,
    }
}

fn is_command(part: Part) -> bool
    ensures { result ≡ sends_command part }
{
    matches!(part, Part::Command)
}

// The sample at a place of the data words of value 0 that an extra adds.
fn zero_sample(place: u64) -> Sample
    ensures { result ≡ spec.zero_sample place }
{
    let zero = Word {
        sync: Sync::Datum,
        bits: 0,
    };
    sample_of(zero, (place % 40) as usize)
}
