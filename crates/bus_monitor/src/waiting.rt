//! A message that waits for an answer, and what the next burst of its channel makes of it.
ghost use Rattle.std.specs.Prelude.{◌≡◌, ◌+◌, ◌<◌, ◌≤◌, ◌++◌, ◌==◌, take, option_to_list, ℕ, List, Option, IfSome};
ghost use Rattle.bus_formats.specs.Accepted.{HasKindRanges};
ghost use Rattle.bus_formats.specs.Readings as readings;
ghost use Rattle.bus_formats.specs.Times.{no_response};
ghost use Rattle.bus_formats.specs.declared.form.Outcome.TheVariants.{NoResponse};
ghost use Rattle.bus_words.specs.declared.word.Word.{Word};
ghost use Rattle.bus_monitor.specs.Messages.{ended, waits_on};
ghost use Rattle.bus_monitor.specs.Steps.{opens_next, answered_next, well_next, burst_next};

use crate::closed::{Closed, Ended};
use crate::opening::message_of;
use bus_base::Part;
use bus_formats::{Kind, NO_RESPONSE, Outcome, Reading, answers, read_answer};
use bus_words::{Status, Word};
use std::marker::Model;

/// A message that waits for an answer.
#[derive(Drop)]
pub struct Waiting {
    // its first tick
    first: u64,
    kind: Kind,
    // the tick after the burst from which it waits
    from: u64,
    // the status of the first answer, where the second is awaited
    earlier: Option<Status>,
}

impl Model for Waiting {
    ghost use Rattle.std.specs.Prelude.{option_to_list};
    ghost use Rattle.bus_formats.specs.Accepted.{HasKindRanges};
    ghost use Rattle.bus_monitor.specs.Messages as messages;
    ghost use Rattle.bus_monitor.specs.Models.{part_after};

    ghost Value = { messages.Waiting };

    ghost view = { λ w. record {
      first = w.first;
      kind = w.kind;
      part = part_after w.earlier;
      from = w.from;
      statuses = option_to_list w.earlier;
    } };

    ghost invariant = { λ w. HasKindRanges w.kind };
}

/// What a burst leaves: a message that closed with it, or one that waits for the next.
#[derive(Drop)]
pub enum Next {
    Closed(Closed),
    Waits(Waiting),
}

impl Waiting {
    /// The first tick of the message.
    pub fn first(&self) -> u64
        ensures { result ≡ self.now.first }
    {
        self.first
    }

    /// Whether the time for an answer is over with this tick, if no burst runs (MIL-STD-1553B 4.3.3.9).
    pub(crate) fn is_over(&self, now: u64) -> bool
        ensures { result ≡ (now == self.now.from + no_response) }
    {
        now.saturating_sub(self.from) == u64::from(NO_RESPONSE)
    }

    /// The ticks from this one on before the one with which the time for an answer is over.
    pub(crate) fn left(&self, now: u64) -> u32
        ensures { 0 < result → now + result ≤ self.now.from + no_response }
    {
        let past = now.saturating_sub(self.from);
        if past < u64::from(NO_RESPONSE) {
            return u32::from(NO_RESPONSE) - past as u32;
        }
        0
    }

    /// The message, closed in this tick without an answer.
    pub(crate) fn unanswered(self, now: u64) -> Closed
        ensures { result ≡ record { first = self.first; tick = now; came = ended self.kind (NoResponse self.part) self.statuses } }
    {
        let part = self.part();
        self.close(Outcome::NoResponse(part), None, now)
    }

    /// What the message is.
    pub fn kind(&self) -> &Kind
        ensures kind { result.now ≡ self.now.kind }
        ensures ranges { HasKindRanges result.now }
    {
        &self.kind
    }

    /// The tick after the burst from which it waits.
    pub fn from(&self) -> u64
        ensures { result ≡ self.now.from }
    {
        self.from
    }

    /// The answer that is awaited.
    pub fn part(&self) -> Part
        ensures { result ≡ self.now.part }
    {
        if self.earlier.is_none() {
            Part::First
        } else {
            Part::Second
        }
    }

    // The message, closed in this tick, with the status of its last answer.
    fn close(self, outcome: Outcome, last: Option<Status>, now: u64) -> Closed
        ensures { result ≡ record { first = self.first; tick = now; came = ended self.kind outcome (self.statuses ++ option_to_list last) } }
    {
        Closed {
            first: self.first,
            tick: now,
            came: Some(Ended {
                kind: self.kind,
                outcome,
                earlier: self.earlier,
                last,
            }),
        }
    }

    // The answer ended before tick `end`, which is known in tick `now`. It is read by its first 34 slots.
    fn answered(self, end: u64, slots: &[Option<Word>], rest: u8, now: u64) -> Next
        ensures { (whole : List (Option Word)) → slots.now ≡ take 34 whole →
            result ≡ answered_next self end now (readings.read_answer self.kind self.part whole rest) }
    {
        match read_answer(&self.kind, self.part(), slots, rest) {
            Reading::Good(status) => self.answered_well(end, status, now),
            Reading::Ends(outcome, status) => Next::Closed(self.close(outcome, status, now)),
        }
    }

    // A good first answer is followed by a second, where one is due.
    fn answered_well(self, end: u64, status: Status, now: u64) -> Next
        ensures { result ≡ well_next self end now status (waits_on self) }
    {
        if self.earlier.is_none() && answers(&self.kind).second.is_some() {
            Next::Waits(Waiting {
                first: self.first,
                kind: self.kind,
                from: end,
                earlier: Some(status),
            })
        } else {
            Next::Closed(self.close(Outcome::Clear, Some(status), now))
        }
    }
}

// A burst from tick `first` to before tick `end`, which is known in tick `now`, opens this message.
fn open(first: u64, end: u64, kind: Option<Kind>, now: u64) -> Next
    requires { IfSome kind HasKindRanges }
    ensures { result ≡ opens_next first end now kind }
{
    match kind {
        None => Next::Closed(Closed {
            first,
            tick: now,
            came: None,
        }),
        Some(kind) => open_known(first, end, kind, now),
    }
}

// A message to all terminals is sent with its burst, another waits.
fn open_known(first: u64, end: u64, kind: Kind, now: u64) -> Next
    requires { HasKindRanges kind }
    ensures { result ≡ opens_next first end now (Option.Some kind) }
{
    if answers(&kind).first.is_some() {
        return Next::Waits(Waiting {
            first,
            kind,
            from: end,
            earlier: None,
        });
    }
    Next::Closed(Closed {
        first,
        tick: now,
        came: Some(Ended {
            kind,
            outcome: Outcome::Sent,
            earlier: None,
            last: None,
        }),
    })
}

/// A burst from tick `first` to before tick `end` is known in tick `now` to have ended. It answers the message that waits, or opens one.
/// Its first 34 slots tell which.
pub(crate) fn take_burst(
    waiting: Option<Waiting>,
    first: u64,
    end: u64,
    slots: &[Option<Word>],
    rest: u8,
    now: u64,
) -> Next
    ensures { (whole : List (Option Word)) → slots.now ≡ take 34 whole → result ≡ burst_next waiting first end now whole rest }
{
    match waiting {
        Some(waiting) => waiting.answered(end, slots, rest, now),
        None => open(first, end, message_of(slots, rest), now),
    }
}
