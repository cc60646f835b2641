//! An attempt at a message: what began, how it ended, and how it is recorded.
ghost use Rattle.std.specs.Prelude.{◌≡◌, ◌≤◌, [], ◌∷◌, ◌++◌, take, filter_map, List, length};
ghost use Rattle.bus_formats.specs.Readings.{datum_in};
ghost use Rattle.bus_model.specs.Attempts as spec;

use crate::queue::Entry;
use bus_base::Tick;
use bus_formats::code::DYNAMIC_BUS_CONTROL;
use bus_formats::{Attempt, Block, Kind, Outcome, datum_in};
use bus_retry::RetryState;
use bus_words::{Status, Word};
use std::marker::Model;

/// An attempt that has begun: its item, its channel and turn, and the first tick of its command.
#[derive(Drop)]
pub struct Begun {
    pub entry: Entry,
    pub state: RetryState,
    pub start: Tick,
}

impl Model for Begun {
    ghost use Rattle.std.specs.Prelude.{◌≤◌};
    ghost use Rattle.bus_model.specs.Attempts as attempts;

    ghost Value = { attempts.Begun };

    ghost view = { λ b. record { entry = b.entry; state = b.state; start = b.start.0 } };

    ghost invariant = { λ b. 1 ≤ b.state.turn };
}

/// How a message ended: the outcome, and the statuses and data words that are kept.
#[derive(Drop)]
pub struct Ended {
    pub outcome: Outcome,
    pub first: Option<Status>,
    pub second: Option<Status>,
    pub words: Block,
}

impl Model for Ended {
    ghost use Rattle.bus_model.specs.Attempts as attempts;

    ghost Value = { attempts.Ended };

    ghost view = { λ e. record { outcome = e.outcome; first = e.first; second = e.second; words = e.words } };
}

impl Ended {
    /// An ending of which no data words are kept.
    pub(crate) fn without_words(
        outcome: Outcome,
        first: Option<Status>,
        second: Option<Status>,
    ) -> Ended
        ensures { result ≡ spec.without_words outcome first second }
    {
        Ended {
            outcome,
            first,
            second,
            words: Block::new(),
        }
    }
}

/// The record of an attempt that ended in this tick. The controller doesn't know its station's address, and writes 0. It takes no memory.
pub(crate) fn recorded(begun: &Begun, ended: Ended, now: Tick, finishes: bool) -> Attempt
    ensures { result ≡ spec.recorded 0 begun.now ended now.0 finishes }
{
    Attempt {
        station: 0,
        frame: begun.entry.frame,
        item: begun.entry.place,
        turn: begun.state.turn,
        channel: begun.state.channel,
        start: begun.start,
        kind: begun.entry.item.kind.copy(),
        outcome: ended.outcome,
        first: ended.first,
        second: ended.second,
        words: ended.words,
        ended: now,
        finishes,
    }
}

/// Whether a message offers control (MIL-STD-1553B 4.3.3.5.1.7.1).
pub(crate) fn is_offer(kind: &Kind) -> bool
    ensures { result ≡ spec.is_offer kind.now }
{
    match kind {
        Kind::Mode { code, .. } => *code == DYNAMIC_BUS_CONTROL,
        _ => false,
    }
}

/// The data words that are kept of a good answer's slots. A relay's are another terminal's.
pub(crate) fn kept_words(kind: &Kind, slots: &[Option<Word>]) -> Block
    ensures { result ≡ take 32 (spec.kept_words kind.now slots.now) }
{
    match kind {
        Kind::Relay { .. } => Block::new(),
        _ => data_words(slots),
    }
}

fn data_words(slots: &[Option<Word>]) -> Block
    ensures { result ≡ take 32 (filter_map datum_in slots.now) }
{
    let mut words = Block::new();
    for slot in slots {
        keep_word(&mut words, *slot);
    }
    words
}

fn keep_word(words: &mut Block, slot: Option<Word>)
    requires { length words.old ≤ 32 }
    ensures { words.new ≡ take 32 (words.old ++ filter_map datum_in (slot ∷ [])) }
{
    if let Some(word) = datum_in(slot) {
        let _ = words.push(word);
    }
}
