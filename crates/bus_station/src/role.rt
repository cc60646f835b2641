//! What a station is to the others.
use bus_base::Tick;

/// What a station is to the others.
#[derive(Clone, Copy, Debug, PartialEq, Eq)]
pub enum Role {
    /// It holds control of the bus.
    Controlling,
    /// It holds control, and its first command starts in this tick, which it hasn't heard yet.
    Taking(Tick),
    /// Its terminal serves the station that holds control.
    Serving,
}
