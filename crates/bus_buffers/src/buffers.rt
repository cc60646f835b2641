//! The data blocks of a terminal, one for each subaddress and direction, each replaced whole. Judged by `specs/Blocks.antt`.
ghost use Rattle.std.specs.Prelude.{◌≡◌, ℕ, ◌<◌, ◌≤◌, List, [], ◌∷◌, ◌++◌, length, set, take};
ghost use Rattle.bus_buffers.specs.Blocks.{Blocks, all_empty, received_in, sent_from};

use bus_formats::Block;
use std::array;
use std::marker::Model;

/// A receive block for each subaddress 1 to 30 and a transmit block for each of 1 to 29. A block is empty or has 1 to 32 words.
#[derive(Drop)]
pub struct Buffers {
    received: [Block; 31],
    transmit: [Block; 31],
}

impl Model for Buffers {
    ghost use Rattle.bus_buffers.specs.Blocks.{Blocks};

    ghost Value = { Blocks };

    ghost view = { λ b. record { received = b.received; transmit = b.transmit } };
}

impl Buffers {
    /// All blocks are empty.
    pub fn new() -> Buffers
        ensures { result ≡ record { received = all_empty; transmit = all_empty } }
    {
        Buffers {
            received: empty_blocks(),
            transmit: empty_blocks(),
        }
    }

    /// The receive block of a subaddress, 1 to 30.
    pub fn front(&self, sub: u8) -> &[u16]
        requires first { 1 ≤ sub }
        requires last { sub ≤ 30 }
        ensures block { result.now ≡ received_in self.now sub }
        ensures fits { length result.now ≤ 32 }
    {
        self.received[usize::from(sub)].words()
    }

    /// What a subaddress, 1 to 30, sends: its transmit block, and for 30, the wrap-around subaddress, its receive block (Notice 2, 30.7).
    pub fn sending(&self, sub: u8) -> &[u16]
        requires first { 1 ≤ sub }
        requires last { sub ≤ 30 }
        ensures block { result.now ≡ sent_from self.now sub }
        ensures fits { length result.now ≤ 32 }
    {
        if sub == 30 {
            self.front(sub)
        } else {
            self.transmit[usize::from(sub)].words()
        }
    }

    /// Replaces the transmit block of a subaddress, 1 to 29, by 1 to 32 words.
    pub fn load(&mut self, sub: u8, words: &[u16])
        requires first { 1 ≤ sub }
        requires last { sub ≤ 29 }
        requires some { 1 ≤ length words.now }
        requires fits { length words.now ≤ 32 }
        ensures transmit { self.new.transmit ≡ set self.old.transmit sub words.now }
        ensures received { self.new.received ≡ self.old.received }
    {
        self.transmit[usize::from(sub)] = block_of(words);
    }

    /// Makes the receive block of a subaddress, 1 to 30, exactly the words, at most 32.
    pub fn set(&mut self, sub: u8, words: &[u16])
        requires first { 1 ≤ sub }
        requires last { sub ≤ 30 }
        requires fits { length words.now ≤ 32 }
        ensures received { self.new.received ≡ set self.old.received sub words.now }
        ensures transmit { self.new.transmit ≡ self.old.transmit }
    {
        self.received[usize::from(sub)] = block_of(words);
    }
}

fn empty_blocks() -> [Block; 31]
    ensures { result ≡ all_empty }
{
    array::from_fn(|_| Block::new())
}

fn block_of(words: &[u16]) -> Block
    requires { length words.now ≤ 32 }
    ensures { result ≡ words.now }
{
    let mut block = Block::new();
    for word in words {
        block.push(*word);
    }
    block
}

#[cfg(test)]
mod tests {
    use super::Buffers;

    #[test]
    fn blocks_are_replaced_whole(rt: HostRuntime) {
        let mut buffers = Buffers::new();
        buffers.load(1, &[0x1234, 0x5678]);
        buffers.load(1, &[0x0001]);
        buffers.set(1, &[0x0A0A]);
        assert_eq!(rt; buffers.sending(1), [0x0001].as_slice());
        assert_eq!(rt; buffers.front(1), [0x0A0A].as_slice());
        assert!(rt; buffers.front(2).is_empty());
        assert!(rt; buffers.sending(2).is_empty());
    }

    #[test]
    fn wrap_around_sends_what_it_received(rt: HostRuntime) {
        let mut buffers = Buffers::new();
        buffers.set(30, &[0x0102, 0x0304]);
        assert_eq!(rt; buffers.sending(30), [0x0102, 0x0304].as_slice());
    }
}
