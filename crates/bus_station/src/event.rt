//! What a station tells of a tick.
use bus_formats::{Attempt, Delivery};

/// What a station tells of a tick. While it holds control a message may end; while it serves a block may come.
#[derive(Drop)]
pub enum StationEvent {
    /// Neither.
    Nothing,
    /// A message ended that it sent as bus controller.
    Ended(Attempt),
    /// Its terminal took a block whole.
    Took(Delivery),
}
