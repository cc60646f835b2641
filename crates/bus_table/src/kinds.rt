//! What a row tells of a message: its form, its addresses and how it ended.
ghost use Rattle.std.specs.Prelude.{◌≡◌, ◌≤◌, length};
ghost use Rattle.bus_table.specs.Rows as spec;
ghost use Rattle.bus_text.specs.Texts.{part_number};

use bus_base::Part;
use bus_formats::{Kind, Outcome};

pub(crate) fn form_name(kind: &Kind) -> &'static str
    ensures name { result.now ≡ spec.form_name kind.now }
    ensures short { length result.now ≤ 20 }
{
    match kind {
        Kind::Receive { .. } => "receive",
        Kind::Transmit { .. } => "transmit",
        Kind::Relay { .. } => "relay",
        Kind::Mode { .. } => "mode",
    }
}

/// The address of the first command word: of a relay the receiver's.
pub(crate) fn address(kind: &Kind) -> u8
    ensures { result ≡ spec.address kind.now }
{
    match kind {
        Kind::Receive { to, .. } => *to,
        Kind::Transmit { from, .. } => *from,
        Kind::Relay { to, .. } => *to,
        Kind::Mode { to, .. } => *to,
    }
}

/// Its subaddress.
pub(crate) fn subaddress(kind: &Kind) -> u8
    ensures { result ≡ spec.subaddress kind.now }
{
    match kind {
        Kind::Receive { sub, .. } => *sub,
        Kind::Transmit { sub, .. } => *sub,
        Kind::Relay { to_sub, .. } => *to_sub,
        Kind::Mode { mode_sub, .. } => *mode_sub,
    }
}

/// The data words that are to come; a mode command has a code in their place.
pub(crate) fn count_of(kind: &Kind) -> Option<u64>
    ensures { result ≡ spec.count_of kind.now }
{
    match kind {
        Kind::Receive { words, .. } => Some(words.words().len() as u64),
        Kind::Transmit { count, .. } => Some(u64::from(*count)),
        Kind::Relay { count, .. } => Some(u64::from(*count)),
        Kind::Mode { .. } => None,
    }
}

pub(crate) fn code_of(kind: &Kind) -> Option<u64>
    ensures { result ≡ spec.code_of kind.now }
{
    match kind {
        Kind::Mode { code, .. } => Some(u64::from(*code)),
        _ => None,
    }
}

/// The address of a relay's transmitter.
pub(crate) fn source(kind: &Kind) -> Option<u64>
    ensures { result ≡ spec.source kind.now }
{
    match kind {
        Kind::Relay { from, .. } => Some(u64::from(*from)),
        _ => None,
    }
}

/// Its subaddress.
pub(crate) fn source_sub(kind: &Kind) -> Option<u64>
    ensures { result ≡ spec.source_sub kind.now }
{
    match kind {
        Kind::Relay { from_sub, .. } => Some(u64::from(*from_sub)),
        _ => None,
    }
}

pub(crate) fn outcome_name(outcome: Outcome) -> &'static str
    ensures name { result.now ≡ spec.outcome_name outcome }
    ensures short { length result.now ≤ 20 }
{
    match outcome {
        Outcome::Clear => "clear",
        Outcome::Sent => "sent",
        Outcome::Declined => "declined",
        Outcome::Passed => "passed",
        Outcome::Illegal(_) => "illegal",
        Outcome::Busy(_) => "busy",
        Outcome::NoResponse(_) => "no-response",
        Outcome::BadReply(_) => "bad-reply",
        Outcome::Abandoned => "abandoned",
        Outcome::Yielded => "yielded",
    }
}

/// The answer that decided.
pub(crate) fn deciding(outcome: Outcome) -> Option<u64>
    ensures { result ≡ spec.deciding outcome }
{
    match outcome {
        Outcome::Illegal(part) => Some(number_of(part)),
        Outcome::Busy(part) => Some(number_of(part)),
        Outcome::NoResponse(part) => Some(number_of(part)),
        Outcome::BadReply(part) => Some(number_of(part)),
        _ => None,
    }
}

fn number_of(part: Part) -> u64
    ensures { result ≡ part_number part }
{
    match part {
        Part::Command => 0,
        Part::First => 1,
        Part::Second => 2,
    }
}

/// Whether the first answer was the one that was due.
pub(crate) fn first_was_good(outcome: Outcome) -> bool
    ensures { result ≡ spec.first_was_good outcome }
{
    match outcome {
        Outcome::Clear => true,
        Outcome::Illegal(part) => is_second(part),
        Outcome::Busy(part) => is_second(part),
        Outcome::NoResponse(part) => is_second(part),
        Outcome::BadReply(part) => is_second(part),
        _ => false,
    }
}

fn is_second(part: Part) -> bool
    ensures { result ≡ spec.is_second part }
{
    matches!(part, Part::Second)
}
