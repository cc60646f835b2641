//! The fast way beside the plain way: a capture that comes in whole pieces is listed as one that comes byte by byte, however it is damaged.
ghost use Rattle.std.specs.Prelude.{◌<◌};

use crate::tests::{What, listing_of, show, text_of};
use bus_base::{Channel, Pair, Sample};
use bus_outside::MemorySink;
use bus_words::Sync;
use std::alloc::{AllocError, Global};
use std::test::Fail;

// Whether a text that comes in pieces of so many bytes is listed as the one that comes byte by byte.
fn is_listed_alike(alloc: Global, what: What, text: &[u8], most: usize) -> Result<bool, AllocError>
    requires { 0 < most }
{
    let mut plain = MemorySink::new(alloc, 8000, Vec::new(alloc))?;
    let mut fast = MemorySink::new(alloc, 8000, Vec::new(alloc))?;
    let whole = Vec::from_slice(alloc, text)?;
    let ended = listing_of(what, whole, 1, Vec::new(alloc), &mut plain);
    let whole = Vec::from_slice(alloc, text)?;
    let other = listing_of(what, whole, most, Vec::new(alloc), &mut fast);
    Ok(ended == other && plain.bytes() == fast.bytes())
}

fn are_listed_alike(alloc: Global, text: &[u8], most: usize) -> Result<bool, AllocError>
    requires { 0 < most }
{
    let words = is_listed_alike(alloc, What::Words, text, most)?;
    let messages = is_listed_alike(alloc, What::Messages, text, most)?;
    Ok(words && messages)
}

// Words on both channels that begin and end in different places of a line.
fn busy_text(alloc: Global) -> Result<Vec<u8>, AllocError> {
    let mut pairs = [Pair::QUIET; 384];
    show(&mut pairs, Channel::A, 3, Sync::Command, 0x2822);
    show(&mut pairs, Channel::A, 43, Sync::Datum, 0x0102);
    show(&mut pairs, Channel::A, 83, Sync::Datum, 0xffff);
    show(&mut pairs, Channel::A, 130, Sync::Command, 0x2800);
    show(&mut pairs, Channel::B, 50, Sync::Command, 0x2c22);
    show(&mut pairs, Channel::B, 100, Sync::Command, 0x2800);
    show(&mut pairs, Channel::B, 140, Sync::Datum, 0xabcd);
    show(&mut pairs, Channel::B, 243, Sync::Datum, 0x1234);
    show(&mut pairs, Channel::B, 286, Sync::Command, 0x2c02);
    text_of(alloc, &pairs)
}

// Each byte in turn is another one: a sample, a line feed, or one that may not stand anywhere.
#[test]
fn damaged_captures_are_listed_alike(rt: HostRuntime) -> Result<(), Fail> {
    let alloc = rt.alloc();
    let text = busy_text(alloc)?;
    for at in 0..text.len() {
        for byte in [b'+', b'-', b'.', b'\n', b'x'] {
            let mut damaged = Vec::from_slice(alloc, &text)?;
            if let Some(place) = damaged.get_mut(at) {
                *place = byte;
            }
            assert!(rt;
                are_listed_alike(alloc, &damaged, 4096)?,
                "byte {at} is {byte}"
            );
        }
    }
    Ok(())
}

// A line feed may stand between any two ticks; the text may end anywhere.
#[test]
fn texts_of_other_lines_are_listed_alike(rt: HostRuntime) -> Result<(), Fail> {
    let alloc = rt.alloc();
    let text = busy_text(alloc)?;
    for at in 15..text.len() {
        let mut longer = Vec::new(alloc);
        let mut shorter = Vec::new(alloc);
        for (place, byte) in text.iter().enumerate() {
            if place == at {
                longer.push(b'\n')?;
            }
            longer.push(*byte)?;
            if place < at {
                shorter.push(*byte)?;
            }
        }
        assert!(rt;
            are_listed_alike(alloc, &longer, 4096)?,
            "a line feed at {at}"
        );
        assert!(rt; are_listed_alike(alloc, &shorter, 4096)?, "the end at {at}");
    }
    Ok(())
}

fn sample_of(number: u64) -> Sample {
    match number % 8 {
        0 | 1 => Sample::Plus,
        2 | 3 => Sample::Minus,
        _ => Sample::Quiet,
    }
}

// Samples by chance: bursts of a few ticks, and quiet ticks that they bridge.
fn chance(seed: u64) -> [Pair; 384] {
    let mut pairs = [Pair::QUIET; 384];
    let mut state = seed;
    for place in 0..pairs.len() {
        state = state
            .wrapping_mul(6_364_136_223_846_793_005)
            .wrapping_add(1_442_695_040_888_963_407);
        pairs[place] = Pair {
            a: sample_of(state >> 60),
            b: sample_of(state >> 56),
        };
    }
    pairs
}

#[test]
fn noise_is_listed_alike(rt: HostRuntime) -> Result<(), Fail> {
    let alloc = rt.alloc();
    for seed in 0..200u64 {
        let text = text_of(alloc, &chance(seed))?;
        for most in [2usize, 127, 129, 300, 4096] {
            assert!(rt;
                are_listed_alike(alloc, &text, most)?,
                "seed {seed}, pieces of {most}"
            );
        }
    }
    Ok(())
}
