//! What a run with a second controller leaves.
use bus_base::Tick;
use bus_formats::Attempt;
use std::marker::Model;

/// The log of a run in which a second controller took over.
#[derive(Drop)]
pub struct StandbyLog {
    /// The attempts, in the order in which they ended.
    pub attempts: Vec<Attempt>,
    /// The tick from which on the primary neither drove nor heard; none where it had fewer attempts, and never stopped.
    pub stop: Option<Tick>,
    /// The tick in which the standby's first command started.
    pub taken: Tick,
    /// The number of ticks.
    pub end: Tick,
    /// The ticks in which several stations drove one channel.
    pub clashes: u64,
}

impl Model for StandbyLog {
    ghost use Rattle.bus_standby.specs.Logs.{StandbyLogData};

    ghost Value = { StandbyLogData };

    ghost view = { λ l. record {
      attempts = l.attempts.items;
      stop = l.stop;
      taken = l.taken;
      end = l.end;
      clashes = l.clashes;
    } };
}
