//! Which words a command wants after it in its burst, and which commands a terminal refuses (4.3.3.6, 4.4.3.3, 4.4.3.4).
ghost use Rattle.std.specs.Prelude.{◌≡◌, ◌≤◌, ◌<◌, ℕ, Some, None, Option, if◌then◌else◌, length};
ghost use Rattle.bus_model.specs.Commands as spec;
ghost use Rattle.bus_model.specs.Memory as kept;
ghost use Rattle.bus_orders.specs.Meant.{tail_meant};

use bus_formats::{
    Block, Carries, TerminalPlan, carried, command_in, data_in, is_second_command, mode_of,
};
use bus_words::{Command, Word};

/// The words after a command: not those that it wants, a relay's second command, or the data words that it wants.
#[derive(Drop)]
pub enum Tail {
    Unexpected,
    RelayFrom(u8),
    Carries(Block),
}

/// Whether a command is a mode command with this code.
pub fn has_code(command: Command, code: u8) -> bool
    ensures { result ≡ spec.has_code command code }
{
    command.is_mode() && command.field() == code
}

/// How many data words follow a command.
pub fn words_after(command: Command) -> u8
    ensures value { result ≡ spec.words_after command }
    ensures fits { result ≤ 32 }
{
    if command.is_mode() {
        match carried(command.transmit(), command.field()) {
            Carries::ToTerminal => 1,
            Carries::Nothing | Carries::FromTerminal => 0,
        }
    } else if command.transmit() {
        0
    } else {
        command.words()
    }
}

/// What the terminal with the address `own` reads in the slots and the rest after a command.
pub fn tail_of(own: u8, command: Command, slots: &[Option<Word>], rest: u8) -> Tail
    ensures { tail_meant result ≡ spec.tail_of own command slots.now rest }
{
    if rest != 0 {
        return Tail::Unexpected;
    }
    if let Some(transmitter) = relay_in(own, command, slots) {
        return Tail::RelayFrom(transmitter);
    }
    match data_in(words_after(command), slots) {
        Some(words) => Tail::Carries(words),
        None => Tail::Unexpected,
    }
}

fn relay_in(own: u8, command: Command, slots: &[Option<Word>]) -> Option<u8>
    ensures { result ≡ spec.relay_in own command slots.now }
{
    match slots {
        [slot] => transmitter_in(own, command, command_in(*slot)),
        _ => None,
    }
}

fn transmitter_in(own: u8, command: Command, second: Option<u16>) -> Option<u8>
    ensures { result ≡ spec.transmitter_in own command second }
{
    let second = Command::of(second?);
    if is_relay(own, command, second) {
        Some(second.address())
    } else {
        None
    }
}

fn is_relay(own: u8, command: Command, second: Command) -> bool
    ensures { result ≡ spec.is_relay own command second }
{
    !command.is_mode()
        && !command.transmit()
        && is_second_command(command, second)
        && second.address() != own
}

/// Whether the terminal refuses a command: one that it doesn't have, or that may not be broadcast.
pub fn is_illegal(terminal: &TerminalPlan, command: Command) -> bool
    ensures { result ≡ spec.is_illegal terminal.now command }
{
    if command.is_mode() {
        let entry = mode_of(command.transmit(), command.field());
        !entry.legal
            || is_listed(terminal.no_mode, command.field())
            || (command.is_broadcast() && !entry.broadcast)
    } else if command.transmit() {
        is_listed(terminal.no_transmit, command.sub()) || command.is_broadcast()
    } else {
        is_listed(terminal.no_receive, command.sub())
    }
}

// Whether the bit for a number is set.
fn is_listed(mask: u32, number: u8) -> bool
    requires { number ≤ 31 }
    ensures { result ≡ kept.is_listed mask number }
{
    (mask >> number) % 2 == 1
}
