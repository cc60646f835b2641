//! Marks put into the delay line: where a burst, a slot, an answer or a message begins and ends.
ghost use Rattle.std.specs.Prelude.{◌≡◌, ◌+◌, ◌-◌, ◌*◌, ◌<◌, ◌^◌, ◌∷◌, [], option_to_list, IfSome, Option, None, Some, flat_map};
ghost use Rattle.bus_words.specs.declared.word.Word.{Word};
ghost use Rattle.bus_formats.specs.Accepted.{HasKindRanges};
ghost use Rattle.bus_formats.specs.Forms.{answers_of, second_command as second_of};
ghost use Rattle.bus_line.specs.declared.cutter.TheConstants.{LAG};
ghost use Rattle.bus_wave.specs.Told as spec;
ghost use Rattle.bus_wave.specs.Told.{
  told_at,
  told_closed,
  told_begin,
  told_stop,
  told_opening,
  told_rest,
  told_second,
  told_waiting,
  gap_told,
  terminal_of,
  due,
};
ghost use Rattle.bus_wave.specs.Delays.{Marked};

use crate::delay_line::DelayLine;
use crate::marks::{Mark, MessageMark, SenderMark, WordMark};
use crate::message_marks::{closed_mark, drawn_to, waiting_mark};
use bus_base::{Channel, Part};
use bus_formats::{Kind, answers, second_command};
use bus_line::LAG;
use bus_monitor::{Closed, Waiting};
use bus_words::{Sync, Word};

// A burst begins in this tick.
#[inline(never)]
pub(crate) fn mark_begin(
    channel: Channel,
    now: u64,
    gap: Option<u64>,
    waiting: &Option<Waiting>,
    line: &mut DelayLine,
)
    requires { now < 2 ^ 60 }
    ensures { Marked line.old line.new (now + 1) channel (told_begin gap now waiting.now) }
{
    match waiting {
        None => {
            line.mark(channel, now + 1, now, Mark::Message(MessageMark::Unknown));
            line.mark(channel, now + 1, now, Mark::Sender(SenderMark::Unknown));
            mark_gap(channel, now, gap, line);
        }
        Some(waiting) => {
            line.mark(channel, now + 1, now, Mark::Sender(terminal(waiting)));
            line.mark(
                channel,
                now + 1,
                now,
                Mark::Gap(now.saturating_sub(waiting.from())),
            );
        }
    }
}

fn mark_gap(channel: Channel, now: u64, gap: Option<u64>, line: &mut DelayLine)
    requires { now < 2 ^ 60 }
    ensures { Marked line.old line.new (now + 1) channel (gap_told now gap) }
{
    if let Some(quiet) = gap {
        line.mark(channel, now + 1, now, Mark::Gap(quiet));
    }
}

// The terminal whose answer is awaited.
fn terminal(waiting: &Waiting) -> SenderMark
    ensures { result ≡ terminal_of (due waiting.now.part (answers_of waiting.now.kind)) }
{
    let answers = answers(waiting.kind());
    let shape = match waiting.part() {
        Part::Second => answers.second,
        Part::Command | Part::First => answers.first,
    };
    match shape {
        Some(shape) => SenderMark::Terminal(shape.address),
        None => SenderMark::Unknown,
    }
}

// The slot with this index ended, of the burst from a tick on.
pub(crate) fn mark_slot(
    channel: Channel,
    ticks: u64,
    first: u64,
    index: u64,
    opens: bool,
    word: Option<Word>,
    line: &mut DelayLine,
)
    ensures { first + 40 * index < 2 ^ 60 →
        Marked line.old line.new ticks channel (told_at (first + 40 * index) (Mark.Word (spec.slot_mark opens word)) ∷ []) }
{
    let tick = first.saturating_add(index.saturating_mul(40));
    line.mark(channel, ticks, tick, Mark::Word(slot_mark(opens, word)));
}

fn slot_mark(opens: bool, word: Option<Word>) -> WordMark
    ensures { result ≡ spec.slot_mark opens word }
{
    match word {
        Some(word) => word_mark(opens, word),
        None => WordMark::Bad,
    }
}

fn word_mark(opens: bool, word: Word) -> WordMark
    ensures { result ≡ spec.sync_mark opens word.sync word.bits }
{
    match word.sync {
        Sync::Datum => WordMark::Datum(word.bits),
        Sync::Command => {
            if opens {
                WordMark::Command(word.bits)
            } else {
                WordMark::Other(word.bits)
            }
        }
    }
}

// A burst ended before this tick, with so many ticks after its last whole slot.
pub(crate) fn mark_stop(channel: Channel, ticks: u64, end: u64, rest: u8, line: &mut DelayLine)
    ensures { Marked line.old line.new ticks channel (told_stop end rest) }
{
    mark_rest(channel, ticks, end, rest, line);
    line.mark(channel, ticks, end, Mark::Word(WordMark::Nothing));
    line.mark(channel, ticks, end, Mark::Sender(SenderMark::Nobody));
}

fn mark_rest(channel: Channel, ticks: u64, end: u64, rest: u8, line: &mut DelayLine)
    ensures { Marked line.old line.new ticks channel (told_rest end rest) }
{
    if rest != 0 {
        let tick = end.saturating_sub(u64::from(rest));
        line.mark(channel, ticks, tick, Mark::Word(WordMark::Bad));
    }
}

// A message that a burst opens, if it is of a known form.
pub(crate) fn mark_opening(
    channel: Channel,
    ticks: u64,
    first: u64,
    kind: &Option<Kind>,
    line: &mut DelayLine,
)
    requires { IfSome kind.now HasKindRanges }
    ensures { first < 2 ^ 60 → Marked line.old line.new ticks channel (told_opening first kind.now) }
{
    if let Some(kind) = kind {
        line.mark(channel, ticks, first, Mark::Sender(SenderMark::Controller));
        mark_second(channel, ticks, first, kind, line);
    }
}

fn mark_second(channel: Channel, ticks: u64, first: u64, kind: &Kind, line: &mut DelayLine)
    requires { HasKindRanges kind.now }
    ensures { first < 2 ^ 60 → Marked line.old line.new ticks channel (told_second first (second_of kind.now)) }
{
    if let Some(second) = second_command(kind) {
        let tick = first.saturating_add(40);
        line.mark(
            channel,
            ticks,
            tick,
            Mark::Word(WordMark::Command(second.bits())),
        );
    }
}

// A message that closed, if one did.
pub(crate) fn mark_if_closed(
    channel: Channel,
    ticks: u64,
    closed: &Option<Closed>,
    line: &mut DelayLine,
)
    ensures { Marked line.old line.new ticks channel (flat_map (told_closed LAG) (option_to_list closed.now)) }
{
    if let Some(closed) = closed {
        mark_closed(channel, ticks, closed, line);
    }
}

fn mark_closed(channel: Channel, ticks: u64, closed: &Closed, line: &mut DelayLine)
    ensures { Marked line.old line.new ticks channel (told_closed LAG closed.now) }
{
    let mark = closed_mark(closed);
    let to = drawn_to(closed);
    mark_name(channel, ticks, closed.first, to, mark, line);
}

// A message has this name from its first tick to before another.
pub(crate) fn mark_name(
    channel: Channel,
    ticks: u64,
    first: u64,
    to: u64,
    mark: MessageMark,
    line: &mut DelayLine,
)
    ensures { Marked line.old line.new ticks channel (told_at first (Mark.Message mark) ∷ told_at to (Mark.Message MessageMark.Nothing) ∷ []) }
{
    line.mark(channel, ticks, first, Mark::Message(mark));
    line.mark(channel, ticks, to, Mark::Message(MessageMark::Nothing));
}

// A message that waits, if one does.
pub(crate) fn mark_waiting(
    channel: Channel,
    ticks: u64,
    waiting: &Option<Waiting>,
    line: &mut DelayLine,
)
    ensures { Marked line.old line.new ticks channel (told_waiting waiting.now) }
{
    if let Some(waiting) = waiting {
        line.mark(
            channel,
            ticks,
            waiting.first(),
            Mark::Message(waiting_mark(waiting)),
        );
    }
}
