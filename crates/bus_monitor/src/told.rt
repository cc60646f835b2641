//! What a tick tells of a channel.

/// What a burst was among the messages of its channel.
#[derive(Clone, Copy, Debug, PartialEq, Eq)]
pub enum Taken {
    /// It opened a message of one of the formats, or answered one, however that message goes on or ended.
    Known,
    /// It opened a message of no known form (MIL-STD-1553B 4.3.3.6).
    Unknown,
    /// It answered a message, and wasn't the answer that was due (4.4.3.5).
    BadReply,
}

/// The end of a burst.
#[derive(Clone, Copy, Debug, PartialEq, Eq)]
pub struct BurstEnd {
    /// Its first tick.
    pub first: u64,
    /// The ticks after its last whole slot, 0 to 39.
    pub rest: u8,
    /// What it was.
    pub taken: Taken,
}

/// What became known of a channel in a tick.
#[derive(Clone, Copy, Debug, PartialEq, Eq)]
pub enum Told {
    /// Nothing of a burst.
    Nothing,
    /// A burst begins. It answers the message that waits from this tick on; else it opens a message.
    Begun(Option<u64>),
    /// A slot of the burst that runs ended. Whether it is a valid word.
    Slot(bool),
    /// The burst that ran has ended.
    Ended(BurstEnd),
}
