//! Up to 64 ticks of both channels as bits.
ghost use Rattle.std.specs.Prelude.{◌≡◌, ℕ, ◌+◌, ◌*◌, ◌<◌, ◌≤◌, ◌==◌, true, ◌++◌, length, take, get_or};
ghost use Rattle.bus_capture.specs.Quiet.{are_samples, pairs_in};
ghost use Rattle.bus_capture.specs.Blocks.{has_bit, sample_in, tick_in, ticks_of, no_ticks, IsBlockFront};

use bus_base::{Pair, Sample};
use std::simd::prelude::*;

const EVEN: [usize; 64] = [
    0, 2, 4, 6, 8, 10, 12, 14, 16, 18, 20, 22, 24, 26, 28, 30, 32, 34, 36, 38, 40, 42, 44, 46, 48,
    50, 52, 54, 56, 58, 60, 62, 64, 66, 68, 70, 72, 74, 76, 78, 80, 82, 84, 86, 88, 90, 92, 94, 96,
    98, 100, 102, 104, 106, 108, 110, 112, 114, 116, 118, 120, 122, 124, 126,
];

const ODD: [usize; 64] = [
    1, 3, 5, 7, 9, 11, 13, 15, 17, 19, 21, 23, 25, 27, 29, 31, 33, 35, 37, 39, 41, 43, 45, 47, 49,
    51, 53, 55, 57, 59, 61, 63, 65, 67, 69, 71, 73, 75, 77, 79, 81, 83, 85, 87, 89, 91, 93, 95, 97,
    99, 101, 103, 105, 107, 109, 111, 113, 115, 117, 119, 121, 123, 125, 127,
];

/// Up to 64 ticks. Bit i of each number is tick i: whether the channel wasn't quiet, and whether it was plus.
#[derive(Clone, Copy)]
pub struct Block {
    pub heard_a: u64,
    pub plus_a: u64,
    pub heard_b: u64,
    pub plus_b: u64,
    pub ticks: u32,
}

/// Ticks at the front of a piece of text.
#[derive(Clone, Copy)]
pub struct BlockRun {
    pub block: Block,
    /// The bytes that they take, with the line feed after them.
    pub bytes: usize,
}

impl Block {
    /// No tick.
    pub(crate) fn none() -> Block
        ensures { result ≡ no_ticks }
    {
        Block {
            heard_a: 0,
            plus_a: 0,
            heard_b: 0,
            plus_b: 0,
            ticks: 0,
        }
    }

    /// What both channels showed in a tick.
    #[inline(always)]
    pub fn tick(&self, at: u32) -> Pair
        requires { at < 64 }
        ensures { result ≡ tick_in self.now at }
    {
        Pair {
            a: shown(self.heard_a, self.plus_a, at),
            b: shown(self.heard_b, self.plus_b, at),
        }
    }

    /// The whole ticks at the front of these bytes.
    #[inline(always)]
    pub(crate) fn of(bytes: &[u8]) -> Block
        requires { length bytes.now ≡ 128 }
        ensures few { result.ticks ≤ 64 }
        ensures samples { are_samples (take (2 * result.ticks) bytes.now) ≡ true }
        ensures ticks { ticks_of result ≡ pairs_in (take (2 * result.ticks) bytes.now) }
    {
        let (a, b) = apart(bytes);
        let plus_a = mask(a, b'+');
        let heard_a = plus_a | mask(a, b'-');
        let plus_b = mask(b, b'+');
        let heard_b = plus_b | mask(b, b'-');
        let whole = (heard_a | mask(a, b'.')) & (heard_b | mask(b, b'.'));
        Block {
            heard_a,
            plus_a,
            heard_b,
            plus_b,
            ticks: whole.trailing_ones(),
        }
    }
}

// The sample that a bit of two numbers tells.
#[inline(always)]
fn shown(heard: u64, plus: u64, at: u32) -> Sample
    requires { at < 64 }
    ensures { result ≡ sample_in heard plus at }
{
    if (heard >> at) % 2 == 0 {
        Sample::Quiet
    } else if (plus >> at) % 2 == 1 {
        Sample::Plus
    } else {
        Sample::Minus
    }
}

/// The ticks at the front of a piece that begins between two ticks, up to 64 and up to the end of a line, and its line feed. None where
/// that line is short.
#[inline(always)]
pub(crate) fn front_block(piece: &[u8]) -> BlockRun
    ensures { IsBlockFront piece.now result }
{
    if piece.len() < 128 {
        return last_block(piece);
    }
    if begins_short_line(piece) {
        return BlockRun {
            block: Block::none(),
            bytes: 0,
        };
    }
    with_feed(piece, Block::of(&piece[..128]))
}

// Whether a line ends within the first eight ticks: then it isn't worth while to look at 64.
#[inline(always)]
fn begins_short_line(piece: &[u8]) -> bool
    requires { 16 ≤ length piece.now }
{
    u8x16::from_slice(&piece[..16])
        .simd_eq(u8x16::splat(b'\n'))
        .any()
}

// The ticks at the front of a short piece.
#[inline(never)]
fn last_block(piece: &[u8]) -> BlockRun
    requires { length piece.now < 128 }
    ensures { IsBlockFront piece.now result }
{
    with_feed(piece, Block::of(&padded(piece)))
}

// A short piece, and zeros after it.
fn padded(piece: &[u8]) -> [u8; 128]
    requires { length piece.now < 128 }
    ensures long { length result ≡ 128 }
    ensures front { take (length piece.now) result ≡ piece.now }
    ensures end { get_or result (length piece.now) 0 ≡ 0 }
{
    let mut bytes = [0; 128];
    bytes[..piece.len()].copy_from_slice(piece);
    bytes
}

// The line feed after a block.
#[inline(always)]
fn with_feed(piece: &[u8], block: Block) -> BlockRun
    requires { IsBlockFront piece.now (record { block = block; bytes = 2 * block.ticks }) }
    ensures { IsBlockFront piece.now result }
{
    let bytes = 2 * block.ticks as usize;
    if bytes < piece.len() && piece[bytes] == b'\n' {
        return BlockRun {
            block,
            bytes: bytes + 1,
        };
    }
    BlockRun { block, bytes }
}

// The bytes of channel A, and those of channel B.
#[inline(always)]
fn apart(bytes: &[u8]) -> (u8x64, u8x64)
    requires { length bytes.now ≡ 128 }
    ensures a { (i : ℕ) → i < 64 → get_or result.0 i 0 ≡ get_or bytes.now (2 * i) 0 }
    ensures b { (i : ℕ) → i < 64 → get_or result.1 i 0 ≡ get_or bytes.now (2 * i + 1) 0 }
    ensures long { (length result.0 ≡ 64) × (length result.1 ≡ 64) }
{
    let front = u8x64::from_slice(&bytes[..64]);
    let back = u8x64::from_slice(&bytes[64..]);
    (even(front, back), odd(front, back))
}

#[inline(always)]
fn even(front: u8x64, back: u8x64) -> u8x64
    requires { (length front ≡ 64) × (length back ≡ 64) }
    ensures lanes { (i : ℕ) → i < 64 → get_or result i 0 ≡ get_or (front ++ back) (2 * i) 0 }
    ensures long { length result ≡ 64 }
{
    front.shuffle(back, EVEN)
}

#[inline(always)]
fn odd(front: u8x64, back: u8x64) -> u8x64
    requires { (length front ≡ 64) × (length back ≡ 64) }
    ensures lanes { (i : ℕ) → i < 64 → get_or result i 0 ≡ get_or (front ++ back) (2 * i + 1) 0 }
    ensures long { length result ≡ 64 }
{
    front.shuffle(back, ODD)
}

// Which lanes are this byte.
#[inline(always)]
fn mask(lanes: u8x64, byte: u8) -> u64
    requires { length lanes ≡ 64 }
    ensures { (i : ℕ) → i < 64 → has_bit result i ≡ (get_or lanes i 0 == byte) }
{
    lanes.simd_eq(u8x64::splat(byte)).to_bitmask()
}
