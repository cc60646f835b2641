//! The bursts of both channels, tick by tick.
ghost use Rattle.std.specs.Prelude.{◌≡◌, ◌<◌, ◌^◌, List, [], ◌∷◌, length};
ghost use Rattle.bus_base.specs.declared.samples.Channel.TheVariants as channels;
ghost use Rattle.bus_base.specs.declared.samples.Pair.{Pair};
ghost use Rattle.bus_base.specs.declared.samples.Sample.{Sample};
ghost use Rattle.bus_line.specs.Cutting.{cut_now};
ghost use Rattle.bus_line.specs.declared.cutter.TheConstants.{LAG};
ghost use Rattle.bus_receiver.specs.Moments.{moment_of};
ghost use Rattle.bus_run.specs.BurstListers.{EarStands, BurstListerStands, EndFits, after_cut, burst_told, burst_now_on, burst_on};

use bus_base::{Channel, Tick};
use bus_formats::HeardBurst;
use bus_line::{Cut, LAG};
use bus_receiver::Moment;

/// What is kept of the burst that runs on one channel.
#[derive(Clone, Copy)]
pub struct Ear {
    // how many of its whole slots have a valid word
    valid: u32,
}

impl Ear {
    fn new() -> Ear
        ensures { EarStands LAG result [] }
    {
        Ear { valid: 0 }
    }

    // Hears what became known of the channel in this tick, and tells the burst whose end that is.
    fn hear(&mut self, channel: Channel, tick: u64, cut: Cut) -> Option<HeardBurst>
        requires { (sample : Sample) × (past : List Sample) × EarStands LAG self.old past × (cut ≡ cut_now LAG (sample ∷ past)) × (length past ≡ tick)
            × (tick < 2 ^ 32) }
        ensures told { (sample : Sample) (past : List Sample) → EarStands LAG self.old past → cut ≡ cut_now LAG (sample ∷ past) → length past ≡ tick →
            result ≡ burst_now_on LAG channel (sample ∷ past) }
        ensures stands { (sample : Sample) (past : List Sample) → EarStands LAG self.old past → cut ≡ cut_now LAG (sample ∷ past) → length past ≡ tick →
            EarStands LAG self.new (sample ∷ past) }
    {
        self.follow(channel, tick, cut)
    }

    // Follows what became known in this tick.
    fn follow(&mut self, channel: Channel, tick: u64, cut: Cut) -> Option<HeardBurst>
        requires { EndFits LAG tick cut }
        ensures after { self.new ≡ after_cut cut self.old }
        ensures told { result ≡ burst_told LAG channel tick cut self.old.valid }
    {
        match cut {
            Cut::Nothing => None,
            Cut::Slot { word, .. } => {
                if word.is_some() {
                    self.valid = self.valid.saturating_add(1);
                }
                None
            }
            Cut::Ended { slots, rest } => {
                let valid = self.valid;
                self.valid = 0;
                let ticks = 40 * slots + u64::from(rest);
                Some(HeardBurst {
                    start: Tick(tick - u64::from(LAG) - ticks),
                    channel,
                    ticks: ticks as u32,
                    valid,
                })
            }
        }
    }
}

/// Lists the bursts of both channels. It takes no memory.
#[derive(Drop)]
pub struct BurstLister {
    a: Ear,
    b: Ear,
}

impl BurstLister {
    /// A lister that heard nothing.
    pub fn new() -> BurstLister
        ensures { BurstListerStands LAG result [] }
    {
        BurstLister {
            a: Ear::new(),
            b: Ear::new(),
        }
    }

    /// Hears the newest tick by what a receiver tells of it. The bursts whose end becomes known with it, the one on channel A first (MIL-STD-1553B
    /// 4.4.4).
    pub fn hear(&mut self, moment: &Moment) -> [Option<HeardBurst>; 2]
        requires { (past : List Pair) × BurstListerStands LAG self.old past × (moment.now ≡ moment_of LAG moment.now.shown past) × (length past < 2 ^ 32) }
        ensures bursts { (past : List Pair) → BurstListerStands LAG self.old past → moment.now ≡ moment_of LAG moment.now.shown past →
            result ≡ burst_on LAG channels.A (moment.now.shown ∷ past) ∷ burst_on LAG channels.B (moment.now.shown ∷ past) ∷ [] }
        ensures stands { (past : List Pair) → BurstListerStands LAG self.old past → moment.now ≡ moment_of LAG moment.now.shown past →
            BurstListerStands LAG self.new (moment.now.shown ∷ past) }
    {
        let tick = moment.tick();
        let a = self.a.hear(Channel::A, tick.0, moment.cut(Channel::A));
        let b = self.b.hear(Channel::B, tick.0, moment.cut(Channel::B));
        [a, b]
    }
}
