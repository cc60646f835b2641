//! The rules that a capture is judged by, and a breach of one.
use bus_base::{Channel, Tick};

/// A rule that a capture breaks. `specs/Breaches.antt` says of each what breaks it.
#[derive(Clone, Copy, Debug, PartialEq, Eq)]
pub enum Rule {
    /// Both channels carry a signal at once: one of the two data buses is active at a time (MIL-STD-1553B 4.6).
    Overlap,
    /// A burst isn't made of whole valid words (4.4.1.1).
    Word,
    /// A burst is longer than 800 microseconds, the fail-safe time of a terminal (4.4.1.3).
    Long,
    /// A message begins before the least gap is over (4.3.3.7).
    Gap,
    /// An answer begins after the longest response time (4.3.3.8).
    Response,
    /// A burst that opens a message is of none of the message formats (4.3.3.6).
    Unknown,
    /// An answer isn't the one that is due (4.3.3.6, 4.4.3.5).
    Reply,
    /// A burst isn't over where the capture ends.
    Open,
}

/// A breach of a rule.
#[derive(Clone, Copy, Debug, PartialEq, Eq)]
pub struct Breach {
    /// The tick that is named: of an overlap that in which it begins, else the first of the burst.
    pub tick: Tick,
    /// The channel of the burst; of an overlap A.
    pub channel: Channel,
    /// The rule that was broken.
    pub rule: Rule,
}
