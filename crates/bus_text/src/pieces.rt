//! The phrases of printed lines: channels, outcomes, statuses, the command words of a message, and the line of a word heard.

ghost use Rattle.std.specs.Prelude.{◌≡◌, ◌+◌, ◌*◌, ◌≤◌, ◌++◌, ℕ, List, length};
ghost use Rattle.bus_text.specs.Texts.{channel_text, outcome_text, sync_text, status_text, words_text, part_number, number as number_text, word_line, commands_text};
ghost use Rattle.bus_formats.specs.Accepted.{HasKindRanges};

use crate::Line;
use bus_base::{Channel, Part};
use bus_formats::{Heard, Kind, Outcome, first_command, second_command};
use bus_words::{Status, Sync};

impl Line {
    /// The line of a word heard: its first tick, its channel, its sync and its sixteen bits.
    pub fn of_word(heard: Heard) -> Line
        ensures text { result ≡ word_line heard }
        ensures length { length result ≤ 40 }
    {
        let mut line = Line::new();
        line.text("word");
        line.number(heard.tick.0);
        line.channel(heard.channel);
        line.sync(heard.word.sync);
        line.word(heard.word.bits);
        line.end();
        line
    }

    /// Adds a channel after a space.
    pub fn channel(&mut self, channel: Channel)
        requires { length self.old + 2 ≤ 600 }
        ensures text { self.new ≡ self.old ++ channel_text channel }
        ensures grows { length self.new ≡ length self.old + 2 }
    {
        match channel {
            Channel::A => self.text(" A"),
            Channel::B => self.text(" B"),
        }
    }

    /// Adds the letter of a word's sync after a space: c for that of a command or status word, d for that of a data word.
    pub fn sync(&mut self, sync: Sync)
        requires { length self.old + 2 ≤ 600 }
        ensures text { self.new ≡ self.old ++ sync_text sync }
        ensures grows { length self.new ≡ length self.old + 2 }
    {
        match sync {
            Sync::Command => self.text(" c"),
            Sync::Datum => self.text(" d"),
        }
    }

    /// Adds how a message ended, after a space: the outcome's name and, where it has one, the part of the message.
    pub fn outcome(&mut self, outcome: Outcome)
        requires { length self.old + 35 ≤ 600 }
        ensures text { self.new ≡ self.old ++ outcome_text outcome }
        ensures grows { length self.new ≤ length self.old + 35 }
    {
        match outcome {
            Outcome::Clear => self.text(" clear"),
            Outcome::Sent => self.text(" sent"),
            Outcome::Declined => self.text(" declined"),
            Outcome::Passed => self.text(" passed"),
            Outcome::Illegal(part) => self.in_part(" illegal", part),
            Outcome::Busy(part) => self.in_part(" busy", part),
            Outcome::NoResponse(part) => self.in_part(" no-response", part),
            Outcome::BadReply(part) => self.in_part(" bad-reply", part),
            Outcome::Abandoned => self.text(" abandoned"),
            Outcome::Yielded => self.text(" yielded"),
        }
    }

    // A name, and the number of a part of a message.
    fn in_part(&mut self, name: &str, part: Part)
        requires name { length name.now ≤ 14 }
        requires room { length self.old + 35 ≤ 600 }
        ensures text { self.new ≡ self.old ++ (name.now ++ number_text (part_number part)) }
        ensures grows { length self.new ≤ length self.old + 35 }
    {
        self.text(name);
        self.number(number_of(part));
    }

    /// Adds the command words of a message after a space, a relay's two joined by a plus sign.
    pub fn commands(&mut self, kind: &Kind)
        requires ranges { HasKindRanges kind.now }
        requires room { length self.old + 10 ≤ 600 }
        ensures text { self.new ≡ self.old ++ commands_text kind.now }
        ensures grows { length self.new ≤ length self.old + 10 }
    {
        self.word(first_command(kind).bits());
        if let Some(second) = second_command(kind) {
            self.text("+");
            self.hex(second.bits());
        }
    }

    /// Adds a status word that is kept, if there is one.
    pub fn status(&mut self, status: Option<Status>)
        requires { length self.old + 12 ≤ 600 }
        ensures text { self.new ≡ self.old ++ status_text status }
        ensures grows { length self.new ≤ length self.old + 12 }
    {
        if let Some(status) = status {
            self.text(" status");
            self.word(status.bits());
        }
    }

    /// Adds data words that are kept, if there are any.
    pub fn kept_words(&mut self, words: &[u16])
        requires { length self.old + 6 + 5 * length words.now ≤ 600 }
        ensures text { self.new ≡ self.old ++ words_text words.now }
        ensures grows { length self.new ≤ length self.old + 6 + 5 * length words.now }
    {
        if words.is_empty() {
            return;
        }
        self.text(" words");
        self.words(words);
    }
}

// The number that is printed for a part of a message.
fn number_of(part: Part) -> u64
    ensures { result ≡ part_number part }
{
    match part {
        Part::Command => 0,
        Part::First => 1,
        Part::Second => 2,
    }
}
