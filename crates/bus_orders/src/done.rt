//! What an order leaves.
use arrayvec::ArrayVec;
use bus_formats::Block;
use bus_words::{Command, Word};

/// A block that the terminal took whole: the subaddress, 1 to 30, whether it was broadcast, and its words.
#[derive(Drop)]
pub struct Taken {
    pub sub: u8,
    pub broadcast: bool,
    pub words: Block,
}

/// An answer that is owed: its status word and its data words, and whether it accepts control of the bus.
#[derive(Drop)]
pub struct Answer {
    pub words: ArrayVec<Word, 33>,
    pub acceptance: bool,
}

/// A relay's receiver takes what this transmitter answers, for this command.
#[derive(Clone, Copy, Debug)]
pub struct Promise {
    pub command: Command,
    pub transmitter: u8,
}

/// What a terminal owes after an order: nothing, an answer, or to take the next burst on the channel.
#[derive(Drop)]
pub enum Duty {
    Free,
    Owes(Answer),
    Promises(Promise),
}

/// What an order leaves: the block that was taken with it, if any, and what the terminal owes.
#[derive(Drop)]
pub struct Done {
    pub taken: Option<Taken>,
    pub duty: Duty,
}
