//! What is told of the bursts of a message.
ghost use Rattle.std.specs.Prelude.{◌≡◌, ◌+◌, ◌<◌, ◌≤◌, ◌^◌, ◌++◌, flat_map, take, drop, length, option_to_list, None, ℕ, List, Option};
ghost use Rattle.std.specs.Option.{option_or};
ghost use Rattle.bus_formats.specs.Readings.{datum_in as spec_datum_in};
ghost use Rattle.bus_table.specs.Exchanges as exchanges;
ghost use Rattle.bus_table.specs.Notes.{opened_facts, first_facts, second_facts};
ghost use Rattle.bus_words.specs.declared.word.Word.{Word};

use crate::BadWord;
use bus_formats::{Block, datum_in};
use bus_words::Word;
use std::marker::Model;

/// An answer.
#[derive(Clone, Copy)]
pub struct Answer {
    /// Four ticks after its first: a response lasts from the middle of the last parity bit before it to the middle of its sync
    /// (MIL-STD-1553B 4.3.3.8), which is four ticks more than those between both bursts.
    pub begun: u64,
    /// The tick after it.
    pub end: u64,
    /// Its first bad word.
    pub bad: Option<BadWord>,
}

/// What is told of the bursts of a message: the gap before it, the tick after the burst that opened it and its first bad word, both answers, and
/// the data words of the first.
#[derive(Drop)]
pub struct Notes {
    pub(crate) gap: Option<u64>,
    pub(crate) end: u64,
    pub(crate) bad: Option<BadWord>,
    pub(crate) first: Option<Answer>,
    pub(crate) second: Option<Answer>,
    pub(crate) words: Block,
}

impl Model for Notes {
    ghost use Rattle.bus_table.specs.Exchanges as exchanges;

    ghost Value = { exchanges.Facts };

    ghost view = { λ n. record { gap = n.gap; end = n.end; bad = n.bad; first = n.first; second = n.second; words = n.words } };
}

impl Notes {
    /// Of no burst.
    pub(crate) fn new() -> Notes
        ensures { result ≡ opened_facts None 0 None }
    {
        Notes {
            gap: None,
            end: 0,
            bad: None,
            first: None,
            second: None,
            words: Block::new(),
        }
    }

    /// A burst that ended before tick `end` opened a message.
    pub(crate) fn open(&mut self, gap: Option<u64>, end: u64, bad: Option<BadWord>)
        ensures { self.new ≡ opened_facts gap end bad }
    {
        self.gap = gap;
        self.end = end;
        self.bad = bad;
        self.first = None;
        self.second = None;
        self.words = Block::new();
    }

    /// A burst from tick `first` to before tick `end` with these data words was the first answer.
    pub(crate) fn answer_first(&mut self, first: u64, end: u64, words: Block, bad: Option<BadWord>)
        requires { first < 2 ^ 60 }
        ensures { self.new ≡ first_facts self.old first end words bad }
    {
        self.first = Some(Answer {
            begun: first + 4,
            end,
            bad,
        });
        self.words = words;
    }

    /// A burst from tick `first` to before tick `end` was the second answer.
    pub(crate) fn answer_second(&mut self, first: u64, end: u64, bad: Option<BadWord>)
        requires { first < 2 ^ 60 }
        ensures { self.new ≡ second_facts self.old first end bad }
    {
        self.second = Some(Answer {
            begun: first + 4,
            end,
            bad,
        });
    }

    /// The time from the command to the first answer.
    pub(crate) fn first_response(&self) -> Option<u64>
        ensures { result ≡ exchanges.first_response self.now }
    {
        response(self.end, self.first)
    }

    /// The time from the first answer to the second.
    pub(crate) fn second_response(&self) -> Option<u64>
        ensures { result ≡ exchanges.second_response self.now }
    {
        response(later_end(self.end, self.first), self.second)
    }

    /// The tick after the last burst.
    pub(crate) fn last_end(&self) -> u64
        ensures { result ≡ exchanges.last_end self.now }
    {
        later_end(later_end(self.end, self.first), self.second)
    }

    /// The first bad word.
    pub(crate) fn first_bad(&self) -> Option<BadWord>
        ensures { result ≡ exchanges.first_bad self.now }
    {
        later_bad(later_bad(self.bad, self.first), self.second)
    }
}

fn response(end: u64, answer: Option<Answer>) -> Option<u64>
    ensures { result ≡ exchanges.response end answer }
{
    match answer {
        Some(answer) => Some(answer.begun.saturating_sub(end)),
        None => None,
    }
}

fn later_end(end: u64, answer: Option<Answer>) -> u64
    ensures { result ≡ exchanges.later_end end answer }
{
    match answer {
        Some(answer) => answer.end,
        None => end,
    }
}

fn later_bad(bad: Option<BadWord>, answer: Option<Answer>) -> Option<BadWord>
    ensures { result ≡ exchanges.later_bad bad answer }
{
    match answer {
        Some(answer) => or_bad(bad, answer.bad),
        None => bad,
    }
}

/// The first of two bad words, where there is one.
pub(crate) fn or_bad(earlier: Option<BadWord>, later: Option<BadWord>) -> Option<BadWord>
    ensures { result ≡ option_or earlier later }
{
    match earlier {
        Some(bad) => Some(bad),
        None => later,
    }
}

/// The data words in the slots behind the first, 32 at most.
pub(crate) fn words_behind(slots: &[Option<Word>]) -> Block
    ensures { (whole : List (Option Word)) → slots.now ≡ take 34 whole → result ≡ exchanges.words_behind whole }
{
    let many = slots.len().min(33);
    words_after(&slots[..many])
}

// The data words behind the first of these slots.
fn words_after(slots: &[Option<Word>]) -> Block
    requires { length slots.now ≤ 33 }
    ensures { result ≡ flat_map (λ slot. option_to_list (spec_datum_in slot)) (drop 1 slots.now) }
{
    match slots {
        [_, behind @ ..] => words_in(behind),
        [] => Block::new(),
    }
}

// The data words in these slots.
fn words_in(slots: &[Option<Word>]) -> Block
    requires { length slots.now ≤ 32 }
    ensures { result ≡ flat_map (λ slot. option_to_list (spec_datum_in slot)) slots.now }
{
    let mut words = Block::new();
    for slot in slots {
        add_datum(&mut words, *slot);
    }
    words
}

fn add_datum(words: &mut Block, slot: Option<Word>)
    requires { length words.old < 32 }
    ensures words { words.new ≡ words.old ++ option_to_list (spec_datum_in slot) }
    ensures grows { length words.new ≤ length words.old + 1 }
{
    if let Some(word) = datum_in(slot) {
        words.push(word);
    }
}
