//! A command that a terminal obeys (4.4.3).
ghost use Rattle.std.specs.Prelude.{◌≡◌, ◌≤◌, ◌<◌, ◌++◌, ◌∷◌, [], ℕ, Option, IfSome, length, map, false};
ghost use Rattle.bus_formats.specs.Forms.{command_word, data_word};
ghost use Rattle.bus_model.specs.Memory.{receive_block};
ghost use Rattle.bus_model.specs.Orders as spec;
ghost use Rattle.bus_orders.specs.Meant.{taken_meant, duty_meant, IsDone};

use crate::commands::{Tail, has_code, is_illegal, tail_of};
use crate::registers::{is_off, marked, mode_effect, reset, status_of};
use crate::{Answer, Done, Duty, Memory, Promise, Taken};
use arrayvec::ArrayVec;
use bus_base::Channel;
use bus_formats::code::{
    DYNAMIC_BUS_CONTROL, RESET_REMOTE_TERMINAL, TRANSMIT_BIT_WORD, TRANSMIT_LAST_COMMAND,
    TRANSMIT_STATUS_WORD, TRANSMIT_VECTOR_WORD,
};
use bus_formats::{Block, Registers, TerminalPlan};
use bus_words::{Command, Status, Sync, Word};

/// Obeys a command that came on a channel with these slots and so many ticks of rest after it. `may_accept` says that the terminal's
/// station has items left.
pub fn obey(
    terminal: &TerminalPlan,
    memory: &mut Memory,
    channel: Channel,
    command: Command,
    slots: &[Option<Word>],
    rest: u8,
    may_accept: bool,
) -> Done
    requires { terminal.now.address ≤ 31 }
    ensures { IsDone result memory.new (spec.obey terminal.now memory.old channel command slots.now rest may_accept) }
{
    match tail_of(terminal.address, command, slots, rest) {
        Tail::Unexpected => {
            let registers = marked(*memory.registers(), command, true);
            leaves(memory, registers, None, Duty::Free)
        }
        Tail::RelayFrom(transmitter) => {
            let registers = marked(*memory.registers(), command, false);
            let promise = Promise {
                command,
                transmitter,
            };
            leaves(memory, registers, None, Duty::Promises(promise))
        }
        Tail::Carries(words) => obey_data(terminal, memory, channel, command, words, may_accept),
    }
}

// A command with the data words that it wants.
fn obey_data(
    terminal: &TerminalPlan,
    memory: &mut Memory,
    channel: Channel,
    command: Command,
    words: Block,
    may_accept: bool,
) -> Done
    requires address { terminal.now.address ≤ 31 }
    requires words { length words ≤ 32 }
    ensures { IsDone result memory.new (spec.obey_data terminal.now memory.old channel command words may_accept memory.old.registers) }
{
    let registers = *memory.registers();
    if is_illegal(terminal, command) {
        let registers = marked(registers, command, true);
        return answered(terminal, memory, channel, command, registers, &[]);
    }
    if has_code(command, TRANSMIT_STATUS_WORD) {
        let registers = Registers {
            last: command.bits(),
            ..registers
        };
        return answered(terminal, memory, channel, command, registers, &[]);
    }
    if has_code(command, TRANSMIT_LAST_COMMAND) {
        let last = registers.last;
        return answered(terminal, memory, channel, command, registers, &[last]);
    }
    if has_code(command, RESET_REMOTE_TERMINAL) {
        let registers = reset(registers);
        return answered(terminal, memory, channel, command, registers, &[]);
    }
    let registers = mode_effect(
        marked(registers, command, false),
        channel,
        command,
        words.words(),
    );
    carried_out(
        terminal, memory, channel, command, words, may_accept, registers,
    )
}

// A legal command with its effect on the registers is answered.
fn carried_out(
    terminal: &TerminalPlan,
    memory: &mut Memory,
    channel: Channel,
    command: Command,
    words: Block,
    may_accept: bool,
    registers: Registers,
) -> Done
    requires address { terminal.now.address ≤ 31 }
    requires words { length words ≤ 32 }
    ensures { IsDone result memory.new (spec.carried_out terminal.now memory.old channel command words may_accept registers) }
{
    let data = answer_data(terminal, memory, command);
    let acceptance = accepts(terminal, command, may_accept);
    let duty = answer(
        terminal,
        registers,
        channel,
        command,
        acceptance,
        data.words(),
    );
    let taken = block_taken(terminal, command, words);
    leaves(memory, registers, taken, duty)
}

/// The registers become these, and the status with these data words is the answer.
pub fn answered(
    terminal: &TerminalPlan,
    memory: &mut Memory,
    channel: Channel,
    command: Command,
    registers: Registers,
    data_words: &[u16],
) -> Done
    requires address { terminal.now.address ≤ 31 }
    requires fits { length data_words.now ≤ 32 }
    ensures { IsDone result memory.new (spec.answered terminal.now memory.old channel command registers data_words.now) }
{
    let duty = answer(terminal, registers, channel, command, false, data_words);
    leaves(memory, registers, None, duty)
}

/// The registers become these, and a block that is taken becomes the receive block of its subaddress.
pub fn leaves(memory: &mut Memory, registers: Registers, taken: Option<Taken>, duty: Duty) -> Done
    requires { IfSome taken (λ block. (1 ≤ block.sub) × (block.sub ≤ 30)) }
    ensures memory { memory.new ≡ spec.after_taking (record memory.old { registers = registers }) (taken_meant taken) }
    ensures done { result ≡ record { taken = taken; duty = duty } }
{
    memory.set_registers(registers);
    if let Some(block) = &taken {
        memory.receive(block.sub, block.words.words());
    }
    Done { taken, duty }
}

/// The block of a receive command with these words, unless the terminal is busy.
pub fn block_taken(terminal: &TerminalPlan, command: Command, words: Block) -> Option<Taken>
    ensures block { taken_meant result ≡ spec.block_taken terminal.now command words }
    ensures sub { IfSome result (λ block. (1 ≤ block.sub) × (block.sub ≤ 30)) }
{
    if command.is_mode() || command.transmit() || terminal.busy {
        return None;
    }
    Some(Taken {
        sub: command.sub(),
        broadcast: command.is_broadcast(),
        words,
    })
}

/// The answer to a command: none to a broadcast, and none where the transmitter of the channel is off.
pub fn answer(
    terminal: &TerminalPlan,
    registers: Registers,
    channel: Channel,
    command: Command,
    acceptance: bool,
    data_words: &[u16],
) -> Duty
    requires address { terminal.now.address ≤ 31 }
    requires fits { length data_words.now ≤ 32 }
    ensures { duty_meant result ≡ spec.answer terminal.now registers channel command acceptance data_words.now }
{
    if command.is_broadcast() || is_off(registers, channel) {
        return Duty::Free;
    }
    let words = answer_words(status_of(terminal, registers, acceptance), data_words);
    Duty::Owes(Answer { words, acceptance })
}

// A status word and data words.
fn answer_words(status: Status, data_words: &[u16]) -> ArrayVec<Word, 33>
    requires { length data_words.now ≤ 32 }
    ensures { result.items ≡ command_word status ∷ map data_word data_words.now }
{
    let mut words = ArrayVec::new();
    words.push(Word {
        sync: Sync::Command,
        bits: status.bits(),
    });
    for datum in data_words {
        words.push(Word {
            sync: Sync::Datum,
            bits: *datum,
        });
    }
    words
}

fn accepts(terminal: &TerminalPlan, command: Command, may_accept: bool) -> bool
    ensures { result ≡ spec.accepts terminal.now command may_accept }
{
    has_code(command, DYNAMIC_BUS_CONTROL) && terminal.accepts && may_accept
}

// The data words of the answer to a legal command.
fn answer_data(terminal: &TerminalPlan, memory: &Memory, command: Command) -> Block
    ensures { result ≡ spec.answer_data terminal.now memory.now command }
{
    if has_code(command, TRANSMIT_VECTOR_WORD) {
        return filled(1, &[terminal.vector]);
    }
    if has_code(command, TRANSMIT_BIT_WORD) {
        return filled(1, &[terminal.bit]);
    }
    if command.is_mode() || !command.transmit() || terminal.busy {
        return Block::new();
    }
    filled(command.words(), memory.sending(command.sub()))
}

// The first words of a block, filled up with 0.
fn filled(count: u8, words: &[u16]) -> Block
    requires { count ≤ 32 }
    ensures { result ≡ spec.filled count words.now }
{
    let mut block = Block::new();
    for place in 0..usize::from(count) {
        block.push(if place < words.len() { words[place] } else { 0 });
    }
    block
}
