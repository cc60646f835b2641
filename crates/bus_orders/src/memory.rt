//! What a terminal keeps between messages: its registers and its blocks.
ghost use Rattle.std.specs.Prelude.{◌≡◌, ◌≤◌, ℕ, List, length, take};
ghost use Rattle.std.specs.List.{All};
ghost use Rattle.bus_formats.specs.declared.plan.Load.{Load};
ghost use Rattle.bus_model.specs.Memory as spec;
ghost use Rattle.bus_buffers.specs.Blocks.{Blocks};

use bus_buffers::Buffers;
use bus_formats::{Load, Registers};
use std::marker::Model;

/// The registers and the blocks.
#[derive(Drop)]
pub struct Memory {
    registers: Registers,
    buffers: Buffers,
}

impl Model for Memory {
    ghost use Rattle.bus_model.specs.Memory.{Memory as Kept};

    ghost Value = { Kept };

    ghost view = { λ m. record { registers = m.registers; received = m.buffers.received; transmit = m.buffers.transmit } };
}

impl Memory {
    /// Clear registers, and empty blocks.
    pub fn new() -> Memory
        ensures { result ≡ record { registers = spec.clear_registers; received = spec.no_blocks; transmit = spec.no_blocks } }
    {
        Memory {
            registers: Registers {
                last: 0,
                message_error: false,
                broadcast: false,
                inhibited: false,
                off_a: false,
                off_b: false,
                sync_word: 0,
            },
            buffers: Buffers::new(),
        }
    }

    pub fn registers(&self) -> &Registers
        ensures { result.now ≡ self.now.registers }
    {
        &self.registers
    }

    pub fn buffers(&self) -> &Buffers
        ensures { result.now ≡ record { received = self.now.received; transmit = self.now.transmit } }
    {
        &self.buffers
    }

    pub fn set_registers(&mut self, registers: Registers)
        ensures { self.new ≡ record self.old { registers = registers } }
    {
        self.registers = registers;
    }

    /// Makes the receive block of a subaddress, 1 to 30, exactly the words, at most 32.
    pub fn receive(&mut self, sub: u8, words: &[u16])
        requires first { 1 ≤ sub }
        requires last { sub ≤ 30 }
        requires fits { length words.now ≤ 32 }
        ensures { self.new ≡ spec.receive_block self.old sub words.now }
    {
        self.buffers.set(sub, words);
    }

    /// Makes the transmit block of a subaddress, 1 to 29, exactly the words, 1 to 32.
    pub fn load(&mut self, sub: u8, words: &[u16])
        requires first { 1 ≤ sub }
        requires last { sub ≤ 29 }
        requires some { 1 ≤ length words.now }
        requires fits { length words.now ≤ 32 }
        ensures { self.new ≡ spec.load_block self.old sub words.now }
    {
        self.buffers.load(sub, words);
    }

    /// What a subaddress, 1 to 30, sends.
    pub fn sending(&self, sub: u8) -> &[u16]
        requires first { 1 ≤ sub }
        requires last { sub ≤ 30 }
        ensures block { result.now ≡ spec.sending_on self.now sub }
        ensures fits { length result.now ≤ 32 }
    {
        self.buffers.sending(sub)
    }
}
