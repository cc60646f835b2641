//! Which message a burst opens: the one whose command words, with the controller's data words, its slots are.
ghost use Rattle.std.specs.Prelude.{◌≡◌, true, false, Some, IfSome};
ghost use Rattle.bus_formats.specs.Accepted.{HasKindRanges};
ghost use Rattle.bus_formats.specs.Readings.{data_in as data_in_slots};
ghost use Rattle.bus_words.specs.Fields.{is_mode, word_count};
ghost use Rattle.bus_monitor.specs.Messages as spec;

use bus_formats::{Kind, command_in, data_in, datum_in, form_of, is_second_command};
use bus_words::{Command, Word};

/// The message that a burst of these slots and this rest opens, if it is of a known form.
pub fn message_of(slots: &[Option<Word>], rest: u8) -> Option<Kind>
    ensures value { result ≡ spec.message_of slots.now rest }
    ensures ranges { IfSome result HasKindRanges }
{
    match slots {
        [slot, data @ ..] if rest == 0 => command_message(Command::of(command_in(*slot)?), data),
        _ => None,
    }
}

fn command_message(command: Command, slots: &[Option<Word>]) -> Option<Kind>
    ensures value { result ≡ spec.command_message (Some command) slots.now }
    ensures ranges { IfSome result HasKindRanges }
{
    if command.is_mode() {
        mode_message(command, slots)
    } else if command.transmit() {
        transmit_message(command, slots)
    } else {
        receive_message(command, slots)
    }
}

fn mode_message(command: Command, slots: &[Option<Word>]) -> Option<Kind>
    requires { is_mode command ≡ true }
    ensures value { result ≡ spec.mode_message command slots.now }
    ensures ranges { IfSome result HasKindRanges }
{
    match slots {
        [] => mode_kind(command, None),
        [slot] => mode_kind(command, Some(datum_in(*slot)?)),
        _ => None,
    }
}

fn mode_kind(command: Command, word: Option<u16>) -> Option<Kind>
    requires { is_mode command ≡ true }
    ensures value { result ≡ spec.mode_kind command word }
    ensures ranges { IfSome result HasKindRanges }
{
    let kind = Kind::Mode {
        to: command.address(),
        mode_sub: command.sub(),
        transmit: command.transmit(),
        code: command.field(),
        word,
    };
    if form_of(&kind).is_some() {
        Some(kind)
    } else {
        None
    }
}

fn transmit_message(command: Command, slots: &[Option<Word>]) -> Option<Kind>
    requires { is_mode command ≡ false }
    ensures value { result ≡ spec.transmit_message command slots.now }
    ensures ranges { IfSome result HasKindRanges }
{
    match slots {
        [] if !command.is_broadcast() => Some(Kind::Transmit {
            from: command.address(),
            sub: command.sub(),
            count: command.words(),
        }),
        _ => None,
    }
}

fn receive_message(command: Command, slots: &[Option<Word>]) -> Option<Kind>
    requires { is_mode command ≡ false }
    ensures value { result ≡ spec.receive_message command slots.now (data_in_slots (word_count command) slots.now) }
    ensures ranges { IfSome result HasKindRanges }
{
    match data_in(command.words(), slots) {
        Some(words) => Some(Kind::Receive {
            to: command.address(),
            sub: command.sub(),
            words,
        }),
        None => relay_message(command, slots),
    }
}

fn relay_message(command: Command, slots: &[Option<Word>]) -> Option<Kind>
    requires { is_mode command ≡ false }
    ensures value { result ≡ spec.relay_message command slots.now }
    ensures ranges { IfSome result HasKindRanges }
{
    match slots {
        [slot] => relay_with(command, Command::of(command_in(*slot)?)),
        _ => None,
    }
}

// A relay's two commands name the same count and different terminals (MIL-STD-1553B 4.3.3.6.3).
fn relay_with(command: Command, second: Command) -> Option<Kind>
    requires { is_mode command ≡ false }
    ensures value { result ≡ spec.relay_with command (Some second) }
    ensures ranges { IfSome result HasKindRanges }
{
    if is_second_command(command, second) && second.address() != command.address() {
        Some(Kind::Relay {
            from: second.address(),
            from_sub: second.sub(),
            to: command.address(),
            to_sub: command.sub(),
            count: command.words(),
        })
    } else {
        None
    }
}
