//! What is drawn besides the levels, and the column of what stands at one tick.
ghost use Rattle.std.specs.Prelude.{◌≡◌, ◌&&◌};
ghost use Rattle.bus_wave.specs.Marks.{marked, column_of, no_marks, is_unmarked};
ghost use Rattle.bus_wave.specs.Delays.{tick_marks_with};

use bus_base::{Channel, Pair};
use bus_formats::Outcome;

/// The command words of a message: one, or a relay's two.
#[derive(Clone, Copy)]
pub struct Commands {
    pub first: u16,
    pub second: Option<u16>,
}

/// What is drawn of messages.
#[derive(Clone, Copy)]
pub enum MessageMark {
    /// No message.
    Nothing,
    /// A message of no known form.
    Unknown,
    /// A message that is open at the end of the capture, with its commands where they are known.
    Open(Option<Commands>),
    /// A message that ended so.
    Ended(Commands, Outcome),
}

/// Who sends a burst.
#[derive(Clone, Copy)]
pub enum SenderMark {
    /// Nobody: it has ended.
    Nobody,
    /// The bus controller.
    Controller,
    /// The terminal with this address, 0 to 30, whose answer is awaited.
    Terminal(u8),
    /// It isn't known.
    Unknown,
}

/// What a slot says.
#[derive(Clone, Copy)]
pub enum WordMark {
    /// No slot: the burst has ended.
    Nothing,
    /// No word.
    Bad,
    /// A command word.
    Command(u16),
    /// Another word with the sync of command and status words.
    Other(u16),
    /// A data word.
    Datum(u16),
}

/// One mark of a channel at a tick.
#[derive(Clone, Copy)]
pub enum Mark {
    Message(MessageMark),
    Sender(SenderMark),
    /// The gap before a burst, by its quiet ticks.
    Gap(u64),
    Word(WordMark),
}

/// The marks of a channel at a tick.
#[derive(Clone, Copy)]
pub struct Marks {
    pub message: Option<MessageMark>,
    pub sender: Option<SenderMark>,
    pub gap: Option<u64>,
    pub word: Option<WordMark>,
}

/// What stands at one tick: what both channels show, and the marks of each.
#[derive(Clone, Copy)]
pub struct Column {
    pub shown: Pair,
    pub a: Marks,
    pub b: Marks,
}

/// The marks of both channels at a tick.
#[derive(Clone, Copy)]
pub struct TickMarks {
    pub a: Marks,
    pub b: Marks,
}

impl Marks {
    /// No marks.
    pub const NONE: Marks = Marks {
        message: None,
        sender: None,
        gap: None,
        word: None,
    };

    /// Adds a mark, in the place of an earlier one of its line.
    #[inline(always)]
    pub fn add(&mut self, mark: Mark)
        ensures { self.new ≡ marked mark self.old }
    {
        match mark {
            Mark::Message(message) => self.message = Some(message),
            Mark::Sender(sender) => self.sender = Some(sender),
            Mark::Gap(quiet) => self.gap = Some(quiet),
            Mark::Word(word) => self.word = Some(word),
        }
    }

    /// Whether there is none.
    #[inline(always)]
    pub fn is_none(&self) -> bool
        ensures { result ≡ is_unmarked self.now }
    {
        self.message.is_none() && self.sender.is_none() && self.gap.is_none() && self.word.is_none()
    }
}

impl TickMarks {
    /// No marks.
    pub const NONE: TickMarks = TickMarks {
        a: Marks::NONE,
        b: Marks::NONE,
    };

    /// Adds a mark of a channel.
    #[inline(always)]
    pub fn add(&mut self, channel: Channel, mark: Mark)
        ensures { self.new ≡ tick_marks_with channel mark self.old }
    {
        match channel {
            Channel::A => self.a.add(mark),
            Channel::B => self.b.add(mark),
        }
    }
}

impl Column {
    /// The column of a tick that shows this, without marks.
    pub fn of(shown: Pair) -> Column
        ensures { result ≡ column_of shown }
    {
        Column {
            shown,
            a: Marks::NONE,
            b: Marks::NONE,
        }
    }
}
