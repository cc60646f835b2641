//! What two buses leave that one device joins.
use bus_base::Tick;
use bus_formats::{Attempt, Delivery};
use std::marker::Model;

/// The log of two buses that one device joins.
#[derive(Drop)]
pub struct BridgeLog {
    /// The blocks that the first terminal took on the subaddresses of the pairings, in order.
    pub taken: Vec<Delivery>,
    /// The attempts of the second bus, in the order in which they ended.
    pub attempts: Vec<Attempt>,
    /// The number of ticks of the first bus.
    pub first_end: Tick,
    /// The number of ticks of the second bus.
    pub second_end: Tick,
    /// The ticks in which several stations drove one channel, of both buses.
    pub clashes: u64,
}

impl Model for BridgeLog {
    ghost use Rattle.bus_bridge.specs.Logs.{BridgeLogData};

    ghost Value = { BridgeLogData };

    ghost view = { λ l. record {
      taken = l.taken.items;
      attempts = l.attempts.items;
      first_end = l.first_end;
      second_end = l.second_end;
      clashes = l.clashes;
    } };
}
