//! An answer is awaited or heard.
ghost use Rattle.std.specs.Prelude.{◌≡◌, ◌-◌, ◌&&◌, true, false, List, ◌++◌, ◌∷◌, [], nat_le, Option, Some, None};
ghost use Rattle.bus_base.specs.Samples.{sample_on, is_quiet};
ghost use Rattle.bus_formats.specs.Times.{no_response};
ghost use Rattle.bus_controller.specs.declared.states.ControllerState.TheVariants as states;
ghost use Rattle.bus_line.specs.declared.cutter.TheConstants.{LAG};
ghost use Rattle.bus_controller.specs.Steps.{expects, from_expecting, silent, runs_on, is_abandoned, cut_heard};
ghost use Rattle.bus_controller.specs.Steps.{kept, read, first_read, good_first, second_read, ends_first, going};
ghost use Rattle.bus_controller.specs.Steps as spec;
ghost use Rattle.bus_base.specs.declared.samples.Pair.{Pair};
ghost use Rattle.bus_model.specs.Course.{Course};
ghost use Rattle.bus_receiver.specs.Moments.{moment_of};
ghost use Rattle.bus_controller.specs.Stands.{ExpectingStands, NextStands};
ghost use Rattle.bus_formats.specs.Forms.{answers_of};

use crate::agenda::Agenda;
use crate::attempt::{Begun, Ended, is_offer, kept_words};
use crate::close::close;
use crate::doubting::doubt;
use crate::states::{ControllerNext, ControllerState};
use arrayvec::ArrayVec;
use bus_base::{Channel, Part, Sample, Tick};
use bus_formats::{NO_RESPONSE, Outcome, Reading, answers, read_answer};
use bus_line::{Cut, LAG};
use bus_receiver::Moment;
use bus_words::{Status, Word};

/// The slots of an answer that are kept: one more than any answer that is due has.
pub const MOST_SLOTS: usize = 34;

/// The first slots of an answer.
pub type Slots = ArrayVec<Option<Word>, MOST_SLOTS>;

/// At most 24 dead ticks since the last burst of the message, or an answer runs.
#[derive(Drop)]
pub struct Expecting {
    pub(crate) agenda: Agenda,
    pub(crate) begun: Begun,
    // the status of the first answer, where the second is expected
    pub(crate) first: Option<Status>,
    // where the last burst of the message ended
    pub(crate) end: Tick,
    // the whole slots of the answer that runs
    pub(crate) answer: Option<Slots>,
}

impl Expecting {
    /// The wait for an answer to a burst whose end is known in this tick.
    pub(crate) fn new(
        agenda: Agenda,
        begun: Begun,
        first: Option<Status>,
        moment: Moment,
    ) -> Expecting
        ensures { result ≡ expects LAG agenda begun first moment }
    {
        Expecting {
            agenda,
            begun,
            first,
            end: end_known(moment),
            answer: None,
        }
    }

    /// Hears a tick in place, where the wait or the answer goes on. False where it doesn't: then the tick isn't heard.
    #[inline(always)]
    pub(crate) fn stay(&mut self, moment: &Moment) -> bool
        ensures stays { result ≡ true → from_expecting LAG self.old moment.now ≡ going (states.Expecting self.new) }
        ensures same { result ≡ false → self.new ≡ self.old }
    {
        let channel = self.begun.state.channel;
        let gives_up = self.is_abandoned(moment);
        match &mut self.answer {
            None => is_awaited(self.end, channel, moment),
            Some(slots) => match moment.cut(channel) {
                Cut::Ended { .. } => false,
                Cut::Slot { word, .. } => {
                    if !gives_up {
                        keep_slot(slots, word);
                    }
                    !gives_up
                }
                Cut::Nothing => !gives_up,
            },
        }
    }

    /// Hears a tick. Whatever course and past it stands for, the next state stands for them one tick later, and it tells of the attempt that ended
    /// in the tick.
    pub fn hear(self, moment: Moment) -> ControllerNext
        ensures step { result ≡ from_expecting LAG self moment }
        ensures stands { (c : Course) (shown : Pair) (past : List Pair) → ExpectingStands LAG c past self → moment ≡ moment_of LAG shown past →
            NextStands LAG c shown past result }
    {
        self.step(moment)
    }

    fn step(mut self, moment: Moment) -> ControllerNext
        ensures { result ≡ from_expecting LAG self moment }
    {
        let channel = self.begun.state.channel;
        match self.answer.take() {
            None => match moment.sample(channel) {
                Sample::Quiet => self.hear_silence(moment),
                Sample::Plus | Sample::Minus => self.run(Slots::new(), moment),
            },
            Some(slots) => match moment.cut(channel) {
                Cut::Ended { rest, .. } => self.read(slots, rest, moment),
                Cut::Slot { word, .. } => self.run(with_slot(slots, word), moment),
                Cut::Nothing => self.run(slots, moment),
            },
        }
    }

    // No answer has begun.
    fn hear_silence(self, moment: Moment) -> ControllerNext
        ensures { result ≡ silent self moment }
    {
        if moment.next().0.saturating_sub(self.end.0) <= u64::from(NO_RESPONSE) {
            return ControllerNext::going(ControllerState::Expecting(self));
        }
        let part = if self.first.is_none() {
            Part::First
        } else {
            Part::Second
        };
        let ended = Ended::without_words(Outcome::NoResponse(part), self.first, None);
        close(self.agenda, self.begun, ended, moment)
    }

    // The answer runs, with these slots.
    fn run(mut self, slots: Slots, moment: Moment) -> ControllerNext
        ensures { result ≡ runs_on self slots.items moment }
    {
        if self.is_abandoned(&moment) {
            let ended = Ended::without_words(Outcome::Abandoned, None, None);
            return close(self.agenda, self.begun, ended, moment);
        }
        self.answer = Some(slots);
        ControllerNext::going(ControllerState::Expecting(self))
    }

    // Whether the first answer is given up in this tick, in which it isn't quiet.
    fn is_abandoned(&self, moment: &Moment) -> bool
        ensures { result ≡ is_abandoned self.now moment.now }
    {
        match (
            self.first,
            self.begun.entry.item.abandon,
            moment.sample(self.begun.state.channel),
        ) {
            (None, Some(ticks), Sample::Plus | Sample::Minus) => {
                moment.next().0.saturating_sub(self.end.0) == u64::from(ticks)
            }
            _ => false,
        }
    }

    // The answer ended.
    fn read(self, slots: Slots, rest: u8, moment: Moment) -> ControllerNext
        ensures { result ≡ read LAG self slots.items rest moment }
    {
        match self.first {
            None => read_first(self.agenda, self.begun, slots, rest, moment),
            Some(first) => read_second(self.agenda, self.begun, first, slots, rest, moment),
        }
    }
}

// Where the burst ended whose end is known in this tick.
fn end_known(moment: Moment) -> Tick
    ensures { result ≡ record { 0 = moment.tick.0 - LAG } }
{
    Tick(moment.tick().0.saturating_sub(u64::from(LAG)))
}

// Whether an answer is awaited on, where none has begun before this tick.
#[inline(always)]
fn is_awaited(end: Tick, channel: Channel, moment: &Moment) -> bool
    ensures { result ≡ (is_quiet (sample_on moment.now.shown channel) && nat_le (moment.now.next.0 - end.0) no_response) }
{
    match moment.sample(channel) {
        Sample::Quiet => moment.next().0.saturating_sub(end.0) <= u64::from(NO_RESPONSE),
        Sample::Plus | Sample::Minus => false,
    }
}

// The first slots are kept.
fn keep_slot(slots: &mut Slots, word: Option<Word>)
    ensures { slots.new.items ≡ kept slots.old.items word }
{
    if slots.as_slice().len() >= MOST_SLOTS {
        return;
    }
    slots.push(word);
}

fn with_slot(mut slots: Slots, word: Option<Word>) -> Slots
    ensures { result.items ≡ kept slots.items word }
{
    keep_slot(&mut slots, word);
    slots
}

fn read_first(
    agenda: Agenda,
    begun: Begun,
    slots: Slots,
    rest: u8,
    moment: Moment,
) -> ControllerNext
    ensures { result ≡ first_read LAG agenda begun slots.items rest moment }
{
    match read_answer(&begun.entry.item.kind, Part::First, slots.as_slice(), rest) {
        Reading::Good(status) => take_first(agenda, begun, status, slots, moment),
        Reading::Ends(outcome, status) => end_first(agenda, begun, outcome, status, moment),
    }
}

// A good first answer ends the message, unless a second one is expected.
fn take_first(
    agenda: Agenda,
    begun: Begun,
    status: Status,
    slots: Slots,
    moment: Moment,
) -> ControllerNext
    ensures { result ≡ good_first LAG agenda begun status slots.items moment (answers_of begun.entry.item.kind).second }
{
    match answers(&begun.entry.item.kind).second {
        None => {
            let words = kept_words(&begun.entry.item.kind, slots.as_slice());
            let ended = Ended {
                outcome: Outcome::Clear,
                first: Some(status),
                second: None,
                words,
            };
            close(agenda, begun, ended, moment)
        }
        Some(_) => ControllerNext::going(ControllerState::Expecting(Expecting::new(
            agenda,
            begun,
            Some(status),
            moment,
        ))),
    }
}

// A first answer that wasn't good.
fn end_first(
    agenda: Agenda,
    begun: Begun,
    outcome: Outcome,
    status: Option<Status>,
    moment: Moment,
) -> ControllerNext
    ensures { result ≡ ends_first LAG agenda begun outcome status moment }
{
    if is_doubtful(is_offer(&begun.entry.item.kind), outcome) {
        return doubt(agenda, begun, end_known(moment), moment);
    }
    let ended = Ended::without_words(outcome, status, None);
    close(agenda, begun, ended, moment)
}

// A bad answer to an offer of control.
fn is_doubtful(offer: bool, outcome: Outcome) -> bool
    ensures { result ≡ spec.is_doubtful offer outcome }
{
    matches!((offer, outcome), (true, Outcome::BadReply(_)))
}

fn read_second(
    agenda: Agenda,
    begun: Begun,
    first: Status,
    slots: Slots,
    rest: u8,
    moment: Moment,
) -> ControllerNext
    ensures { result ≡ second_read agenda begun first slots.items rest moment }
{
    let ended = match read_answer(&begun.entry.item.kind, Part::Second, slots.as_slice(), rest) {
        Reading::Good(second) => Ended::without_words(Outcome::Clear, Some(first), Some(second)),
        Reading::Ends(outcome, second) => Ended::without_words(outcome, Some(first), second),
    };
    close(agenda, begun, ended, moment)
}
