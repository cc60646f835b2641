//! Moments of a recording.

use bus_base::Pair;

/// A moment of a recording.
#[derive(Clone, Copy, Debug, PartialEq, Eq)]
pub struct Moment {
    /// When it is, in picoseconds.
    pub at: u64,
    /// What the channels show from then on.
    pub pair: Pair,
}
