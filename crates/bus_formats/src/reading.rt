//! How the controller reads an answer (MIL-STD-1553B 4.3.3.5.3, 4.4.3.5).
//!
//! Judged by `specs/Readings.antt`. What ends a message at which status is the project's own.
ghost use Rattle.std.specs.Prelude.{◌≡◌, ◌≤◌, is_some};
ghost use Rattle.std.specs.List.{list_all};
ghost use Rattle.bus_formats.specs.Readings as spec;
ghost use Rattle.bus_formats.specs.Forms.{answers_of};

use crate::code::{DYNAMIC_BUS_CONTROL, TRANSMIT_LAST_COMMAND, TRANSMIT_STATUS_WORD};
use crate::message::answers;
use crate::{Block, Kind, Outcome, Reading, Shape};
use bus_base::Part;
use bus_words::{Status, Sync, Word};

/// How the controller reads what came as the answer in this part of the message: the slots of a burst, each with its
/// word where it is valid, and the ticks of the `rest` behind the last whole slot.
pub fn read_answer(kind: &Kind, part: Part, slots: &[Option<Word>], rest: u8) -> Reading
    ensures { result ≡ spec.read_answer kind.now part slots.now rest }
{
    match shape_in(kind, part) {
        Some(shape) => {
            let alone = status_alone(shape, slots, rest);
            let full = status_full(shape, slots, rest);
            read_by(part, kind, alone, full)
        }
        None => Reading::Ends(Outcome::BadReply(part), None),
    }
}

fn shape_in(kind: &Kind, part: Part) -> Option<Shape>
    ensures { result ≡ spec.shape_in part (answers_of kind.now) }
{
    let expected = answers(kind);
    match part {
        Part::Command => None,
        Part::First => expected.first,
        Part::Second => expected.second,
    }
}

fn read_by(part: Part, kind: &Kind, alone: Option<Status>, full: Option<Status>) -> Reading
    ensures { result ≡ spec.read_by part kind.now alone full }
{
    match kind {
        Kind::Mode { code, .. } if *code == DYNAMIC_BUS_CONTROL => read_offer(part, alone),
        Kind::Mode { transmit, code, .. } if *transmit && *code == TRANSMIT_STATUS_WORD => {
            read_status(part, alone)
        }
        Kind::Mode { transmit, code, .. } => {
            let reports = *transmit && *code == TRANSMIT_LAST_COMMAND;
            read_mode(part, reports, full, alone)
        }
        _ => read_data(part, alone, full),
    }
}

// The answer to an offer of control.
fn read_offer(part: Part, alone: Option<Status>) -> Reading
    ensures { result ≡ spec.read_offer part alone }
{
    match alone {
        Some(status) if status.flags().message_error => {
            Reading::Ends(Outcome::Illegal(part), Some(status))
        }
        Some(status) if status.flags().acceptance => Reading::Ends(Outcome::Passed, Some(status)),
        Some(status) => Reading::Ends(Outcome::Declined, Some(status)),
        None => Reading::Ends(Outcome::BadReply(part), None),
    }
}

// The status word that was asked for.
fn read_status(part: Part, alone: Option<Status>) -> Reading
    ensures { result ≡ spec.read_status part alone }
{
    match alone {
        Some(status) => Reading::Good(status),
        None => Reading::Ends(Outcome::BadReply(part), None),
    }
}

// The answer to another mode command.
fn read_mode(part: Part, reports: bool, full: Option<Status>, alone: Option<Status>) -> Reading
    ensures { result ≡ spec.read_mode part reports full alone }
{
    match full {
        Some(status) if !status.flags().message_error || reports => Reading::Good(status),
        _ => read_refusal(part, alone),
    }
}

fn read_refusal(part: Part, alone: Option<Status>) -> Reading
    ensures { result ≡ spec.read_refusal part alone }
{
    match alone {
        Some(status) if status.flags().message_error => {
            Reading::Ends(Outcome::Illegal(part), Some(status))
        }
        _ => Reading::Ends(Outcome::BadReply(part), None),
    }
}

// The answer to a message with data words.
fn read_data(part: Part, alone: Option<Status>, full: Option<Status>) -> Reading
    ensures { result ≡ spec.read_data part alone full }
{
    match alone {
        Some(status) if status.flags().message_error => {
            Reading::Ends(Outcome::Illegal(part), Some(status))
        }
        Some(status) if status.flags().busy => Reading::Ends(Outcome::Busy(part), Some(status)),
        _ => read_full(part, full),
    }
}

fn read_full(part: Part, full: Option<Status>) -> Reading
    ensures { result ≡ spec.read_full part full }
{
    match full {
        Some(status) if !status.flags().message_error && !status.flags().busy => {
            Reading::Good(status)
        }
        _ => Reading::Ends(Outcome::BadReply(part), None),
    }
}

// The status of an answer that is a status word alone.
fn status_alone(shape: Shape, slots: &[Option<Word>], rest: u8) -> Option<Status>
    ensures { result ≡ spec.status_alone shape slots.now rest }
{
    match slots {
        [slot] if rest == 0 => status_in(shape.address, *slot),
        _ => None,
    }
}

// The status of an answer that is a status word and all the data words that are due.
fn status_full(shape: Shape, slots: &[Option<Word>], rest: u8) -> Option<Status>
    ensures { result ≡ spec.status_full shape slots.now rest }
{
    match slots {
        [slot, data @ ..] if rest == 0 && are_data(shape.count, data) => {
            status_in(shape.address, *slot)
        }
        _ => None,
    }
}

// A valid status word of this terminal, with no reserved bit set.
fn status_in(address: u8, slot: Option<Word>) -> Option<Status>
    ensures { result ≡ spec.status_in address slot }
{
    let status = Status::of(command_in(slot)?);
    if status.address() == address && status.is_clean() {
        Some(status)
    } else {
        None
    }
}

/// The data words in the slots: exactly that many, at most 32, and each valid.
pub fn data_in(count: u8, slots: &[Option<Word>]) -> Option<Block>
    requires { count ≤ 32 }
    ensures { result ≡ spec.data_in count slots.now }
{
    if slots.len() != usize::from(count) {
        return None;
    }
    let mut block = Block::new();
    for slot in slots {
        block.push(datum_in(*slot)?);
    }
    Some(block)
}

// Whether the slots hold exactly so many data words, each valid.
#[tactic(auto, using(crate::proofs::Slots::data_some))]
fn are_data(count: u8, slots: &[Option<Word>]) -> bool
    ensures { result ≡ is_some (spec.data_in count slots.now) }
{
    slots.len() == usize::from(count) && all_data(slots)
}

fn all_data(slots: &[Option<Word>]) -> bool
    ensures { result ≡ list_all (λ slot. is_some (spec.datum_in slot)) slots.now }
{
    slots.iter().all(|slot| datum_in(*slot).is_some())
}

/// The bits of the command or status word in a slot, where it is valid.
pub fn command_in(slot: Option<Word>) -> Option<u16>
    ensures { result ≡ spec.command_in slot }
{
    match slot {
        Some(word) if matches!(word.sync, Sync::Command) => Some(word.bits),
        _ => None,
    }
}

/// The data word in a slot, where it is valid.
pub fn datum_in(slot: Option<Word>) -> Option<u16>
    ensures { result ≡ spec.datum_in slot }
{
    match slot {
        Some(word) if matches!(word.sync, Sync::Datum) => Some(word.bits),
        _ => None,
    }
}
