//! What commands do to the registers (4.3.3.5.1.7, 4.3.3.5.3).
ghost use Rattle.std.specs.Prelude.{◌≡◌, ◌≤◌, ℕ, get_or};
ghost use Rattle.bus_model.specs.Memory as kept;
ghost use Rattle.bus_model.specs.Orders as spec;

use crate::commands::has_code;
use bus_base::Channel;
use bus_formats::code::{
    INHIBIT_TERMINAL_FLAG, OVERRIDE_INHIBIT_TERMINAL_FLAG, OVERRIDE_TRANSMITTER_SHUTDOWN,
    SYNCHRONIZE_WITH_DATA, TRANSMIT_LAST_COMMAND, TRANSMITTER_SHUTDOWN,
};
use bus_formats::{Registers, TerminalPlan};
use bus_words::{Command, Flags, Status};

/// The registers after a command is marked: it becomes the last command, unless it asks for that one.
pub fn marked(registers: Registers, command: Command, message_error: bool) -> Registers
    ensures { result ≡ spec.marked registers command message_error }
{
    let asks_last = has_code(command, TRANSMIT_LAST_COMMAND) && command.transmit();
    Registers {
        last: if asks_last {
            registers.last
        } else {
            command.bits()
        },
        broadcast: command.is_broadcast(),
        message_error,
        ..registers
    }
}

/// The registers after a mode command's effect; those of another command stay.
pub fn mode_effect(
    registers: Registers,
    channel: Channel,
    command: Command,
    words: &[u16],
) -> Registers
    ensures { result ≡ spec.mode_effect registers channel command words.now }
{
    if has_code(command, TRANSMITTER_SHUTDOWN) {
        with_off(registers, channel.other(), true)
    } else if has_code(command, OVERRIDE_TRANSMITTER_SHUTDOWN) {
        with_off(registers, channel.other(), false)
    } else if has_code(command, INHIBIT_TERMINAL_FLAG) {
        Registers {
            inhibited: true,
            ..registers
        }
    } else if has_code(command, OVERRIDE_INHIBIT_TERMINAL_FLAG) {
        Registers {
            inhibited: false,
            ..registers
        }
    } else if has_code(command, SYNCHRONIZE_WITH_DATA) {
        Registers {
            sync_word: first_or_zero(words),
            ..registers
        }
    } else {
        registers
    }
}

fn first_or_zero(words: &[u16]) -> u16
    ensures { result ≡ get_or words.now 0 0 }
{
    match words {
        [word, ..] => *word,
        [] => 0,
    }
}

/// The registers after a reset, which leaves the sync word alone.
pub fn reset(registers: Registers) -> Registers
    ensures { result ≡ spec.reset registers }
{
    Registers {
        last: 0,
        message_error: false,
        broadcast: false,
        inhibited: false,
        off_a: false,
        off_b: false,
        sync_word: registers.sync_word,
    }
}

/// Whether the transmitter of a channel is shut down.
pub fn is_off(registers: Registers, channel: Channel) -> bool
    ensures { result ≡ kept.is_off registers channel }
{
    match channel {
        Channel::A => registers.off_a,
        Channel::B => registers.off_b,
    }
}

fn with_off(registers: Registers, channel: Channel, off: bool) -> Registers
    ensures { result ≡ kept.with_off registers channel off }
{
    match channel {
        Channel::A => Registers {
            off_a: off,
            ..registers
        },
        Channel::B => Registers {
            off_b: off,
            ..registers
        },
    }
}

/// The status word of a terminal with these registers.
pub fn status_of(terminal: &TerminalPlan, registers: Registers, acceptance: bool) -> Status
    requires { terminal.now.address ≤ 31 }
    ensures { result ≡ kept.status_of terminal.now registers acceptance }
{
    let flags = Flags {
        message_error: registers.message_error,
        service: terminal.service,
        broadcast: registers.broadcast,
        busy: terminal.busy,
        subsystem: terminal.subsystem_flag,
        acceptance,
        terminal: terminal.terminal_flag && !registers.inhibited,
    };
    Status::make(terminal.address, flags)
}
