//! The messages that a generator of numbers draws.
ghost use Rattle.std.specs.Prelude.{◌≡◌, ◌≤◌, ◌<◌, ◌^◌, IfOk};
ghost use Rattle.bus_bench.specs.Generated as spec;

use arrayvec::ArrayVec;
use bus_formats::{Block, Item, Kind};
use std::alloc::{AllocError, Global};

/// So many messages, drawn from a number on.
///
/// # Errors
///
/// `AllocError` where there is no memory for them.
pub fn items_drawn(alloc: Global, number: u32, count: u32) -> Result<Vec<Item>, AllocError>
    requires number { number < 2 ^ 31 }
    requires count { count ≤ 4096 }
    ensures { IfOk result (λ items. items.items ≡ spec.items_from 1 number count) }
{
    let mut items = Vec::new(alloc);
    let mut drawn = number;
    for i in 0..count {
        drawn = drawn_after(drawn);
        items.push(item_with(kind_of(i + 1, (drawn / 65_536) as u16)))?;
    }
    Ok(items)
}

// The number that is drawn after another one.
fn drawn_after(drawn: u32) -> u32
    requires { drawn < 2 ^ 31 }
    ensures value { result ≡ spec.drawn_after drawn }
    ensures range { result < 2 ^ 31 }
{
    ((1_103_515_245 * u64::from(drawn) + 12_345) % 0x8000_0000) as u32
}

// The n-th message, of which these bits say what it is.
fn kind_of(n: u32, bits: u16) -> Kind
    requires { bits < 2 ^ 15 }
    ensures { result ≡ spec.kind_of n bits }
{
    match n % 4 {
        0 => Kind::Receive {
            to: address_in(bits),
            sub: sub_in(bits),
            words: words_from(bits, count_in(bits)),
        },
        1 => Kind::Transmit {
            from: address_in(bits),
            sub: sub_in(bits),
            count: count_in(bits),
        },
        2 => Kind::Relay {
            from: address_in(bits),
            from_sub: sub_in(bits),
            to: (address_in(bits) + 1) % 31,
            to_sub: sub_in(bits),
            count: count_in(bits),
        },
        _ => Kind::Mode {
            to: address_in(bits),
            mode_sub: 0,
            transmit: true,
            code: 2,
            word: None,
        },
    }
}

fn address_in(bits: u16) -> u8
    ensures value { result ≡ spec.address_in bits }
    ensures range { result < 31 }
{
    (bits % 31) as u8
}

fn sub_in(bits: u16) -> u8
    ensures { result ≡ spec.sub_in bits }
{
    1 + (bits % 29) as u8
}

fn count_in(bits: u16) -> u8
    ensures value { result ≡ spec.count_in bits }
    ensures range { result ≤ 32 }
{
    1 + (bits / 31 % 32) as u8
}

// So many words that count up from a number.
fn words_from(first: u16, count: u8) -> Block
    requires first { first < 2 ^ 15 }
    requires count { count ≤ 32 }
    ensures { result ≡ spec.words_from first count }
{
    let mut words = Block::new();
    for i in 0..count {
        let _ = words.push(first + u16::from(i));
    }
    words
}

// A message on the live channel after the least gap, tried once.
fn item_with(kind: Kind) -> Item
    ensures { result ≡ spec.item_with kind }
{
    Item {
        kind,
        channel: None,
        gap: 8,
        retry: ArrayVec::new(),
        abandon: None,
    }
}
