//! The ranges of a plan's numbers: the grammar's rows and the reading of values both name them.

/// The numbers from `low` to `high`, both among them.
#[derive(Clone, Copy)]
pub struct Range {
    pub low: u32,
    pub high: u32,
}

/// The plan's version.
pub const VERSION: Range = Range { low: 1, high: 2 };

/// The second version, which alone knows repeats and fades.
pub const SECOND_VERSION: Range = Range { low: 2, high: 2 };

/// An address that a command may name, of which 31 means all terminals.
pub const ADDRESS: Range = Range { low: 0, high: 31 };

/// An address that a terminal may have.
pub const TERMINAL: Range = Range { low: 0, high: 30 };

/// The address of a station that is a controller alone.
pub const CONTROLLER: Range = Range { low: 31, high: 31 };

/// The gap before an answer, in ticks.
pub const DELAY: Range = Range { low: 8, high: 24 };

/// A data word.
pub const WORD: Range = Range {
    low: 0,
    high: 65535,
};

/// A subaddress that a load fills and that a terminal may refuse.
pub const OWN_SUB: Range = Range { low: 1, high: 29 };

/// A subaddress that a message may name, of which 30 is the wrap-around.
pub const SUB: Range = Range { low: 1, high: 30 };

/// A number of data words.
pub const COUNT: Range = Range { low: 1, high: 32 };

/// How often a station runs its frames.
pub const REPEAT: Range = Range { low: 1, high: 64 };

/// The ticks from a frame's planned start to the next frame's.
pub const FRAME: Range = Range {
    low: 0,
    high: 1000000,
};

/// The gap before an item's command, in ticks.
pub const GAP: Range = Range { low: 8, high: 2000 };

/// The ticks after which an item is abandoned.
pub const ABANDON: Range = Range {
    low: 25,
    high: 1600,
};

/// A mode code.
pub const CODE: Range = Range { low: 0, high: 31 };

/// The transmit bit of a mode command.
pub const TRANSMIT: Range = Range { low: 0, high: 1 };

/// The subaddress 31 of a mode command, where 0 serves as well.
pub const MODE_SUB: Range = Range { low: 31, high: 31 };

/// An attempt that a fault strikes.
pub const ATTEMPT: Range = Range {
    low: 1,
    high: 1000000,
};

/// A word of a burst that a fault strikes.
pub const STRUCK: Range = Range { low: 0, high: 39 };

/// How many words a cut leaves of an answer.
pub const AFTER: Range = Range { low: 0, high: 32 };

/// How many words a cut leaves of a controller's burst.
pub const COMMAND_AFTER: Range = Range { low: 1, high: 32 };

/// How many words an extra adds.
pub const EXTRA: Range = Range { low: 1, high: 39 };

/// The positions in a word's samples that flips may strike.
pub const FLIP: Range = Range { low: 0, high: 39 };

/// The positions in a word's samples that fades may strike.
pub const FADE: Range = Range { low: 3, high: 38 };
