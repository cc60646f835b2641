//! A relay's receiver takes the burst that it promised to take (4.4.3.5).
ghost use Rattle.std.specs.Prelude.{◌≡◌, ◌≤◌, length};
ghost use Rattle.bus_words.specs.Fields.{word_count};
ghost use Rattle.bus_base.specs.declared.samples.Channel.{Channel};
ghost use Rattle.bus_formats.specs.Plans.{TerminalData};
ghost use Rattle.bus_model.specs.Memory.{Memory};
ghost use Rattle.bus_model.specs.Orders as spec;
ghost use Rattle.bus_orders.specs.Meant.{IsDone};

use crate::commands::is_illegal;
use crate::obeying::{answer, answered, block_taken, leaves};
use crate::{Done, Duty, Memory, Promise};
use bus_base::Channel;
use bus_formats::{Block, Registers, TerminalPlan, command_in, data_in};
use bus_words::{Command, Status, Word};

/// Keeps a promise by a burst on its channel with these slots and so many ticks of rest.
pub fn keep_promise(
    terminal: &TerminalPlan,
    memory: &mut Memory,
    channel: Channel,
    promise: Promise,
    slots: &[Option<Word>],
    rest: u8,
) -> Done
    requires { terminal.now.address ≤ 31 }
    ensures { IsDone result memory.new
        (spec.keep_promise terminal.now memory.old channel promise.command promise.transmitter slots.now rest) }
{
    match relayed(promise.command.words(), promise.transmitter, slots, rest) {
        Some(words) => kept(terminal, memory, channel, promise.command, words),
        None => unkept(memory),
    }
}

/// Gives a promise up that wasn't kept: message error, and no answer.
pub fn unkept(memory: &mut Memory) -> Done
    ensures { (told : TerminalData) (channel : Channel) →
        IsDone result memory.new (spec.unkept told memory.old channel) }
{
    let registers = with_error(*memory.registers(), true);
    leaves(memory, registers, None, Duty::Free)
}

fn kept(
    terminal: &TerminalPlan,
    memory: &mut Memory,
    channel: Channel,
    command: Command,
    words: Block,
) -> Done
    requires address { terminal.now.address ≤ 31 }
    ensures { IsDone result memory.new (spec.kept terminal.now memory.old channel command (Some words)) }
{
    let registers = *memory.registers();
    if is_illegal(terminal, command) {
        let registers = with_error(registers, true);
        return answered(terminal, memory, channel, command, registers, &[]);
    }
    let duty = answer(terminal, registers, channel, command, false, &[]);
    let taken = block_taken(terminal, command, words);
    leaves(memory, registers, taken, duty)
}

fn with_error(registers: Registers, message_error: bool) -> Registers
    ensures { result ≡ record registers { message_error = message_error } }
{
    Registers {
        message_error,
        ..registers
    }
}

// The data words of a transmitter's answer.
fn relayed(count: u8, transmitter: u8, slots: &[Option<Word>], rest: u8) -> Option<Block>
    requires { count ≤ 32 }
    ensures { result ≡ spec.relayed count transmitter slots.now rest }
{
    if rest != 0 {
        return None;
    }
    match slots {
        [slot, words @ ..] => data_from(count, transmitter, command_in(*slot), words),
        [] => None,
    }
}

fn data_from(
    count: u8,
    transmitter: u8,
    status: Option<u16>,
    slots: &[Option<Word>],
) -> Option<Block>
    requires { count ≤ 32 }
    ensures { result ≡ spec.data_from count transmitter status slots.now }
{
    if Status::of(status?).address() == transmitter {
        data_in(count, slots)
    } else {
        None
    }
}
