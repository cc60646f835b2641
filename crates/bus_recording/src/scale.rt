//! The unit of time of a recording.
ghost use Rattle.std.specs.Prelude.{◌≡◌, ◌≤◌};
ghost use Rattle.bus_recording.specs.Scales as spec;

use crate::token::same_bytes;
use arrayvec::ArrayVec;

/// The picoseconds of a unit that is written without white space; 0 for any other text.
pub(crate) fn unit_of(text: &[u8]) -> u64
    ensures { result ≡ spec.unit_of text.now }
{
    let unit = short_unit(text);
    if unit == 0 { middle_unit(text) } else { unit }
}

// Up to 100 ns.
fn short_unit(text: &[u8]) -> u64
    ensures { result ≡ spec.short_unit text.now }
{
    if same_bytes(text, b"1ps") {
        return 1;
    }
    if same_bytes(text, b"10ps") {
        return 10;
    }
    if same_bytes(text, b"100ps") {
        return 100;
    }
    if same_bytes(text, b"1ns") {
        return 1_000;
    }
    if same_bytes(text, b"10ns") {
        return 10_000;
    }
    if same_bytes(text, b"100ns") {
        return 100_000;
    }
    0
}

// From a microsecond on.
fn middle_unit(text: &[u8]) -> u64
    ensures { result ≡ spec.middle_unit text.now }
{
    if same_bytes(text, b"1us") {
        return 1_000_000;
    }
    if same_bytes(text, b"10us") {
        return 10_000_000;
    }
    if same_bytes(text, b"100us") {
        return 100_000_000;
    }
    long_unit(text)
}

// From a millisecond on.
fn long_unit(text: &[u8]) -> u64
    ensures { result ≡ spec.long_unit text.now }
{
    if same_bytes(text, b"1ms") {
        return 1_000_000_000;
    }
    if same_bytes(text, b"10ms") {
        return 10_000_000_000;
    }
    if same_bytes(text, b"100ms") {
        return 100_000_000_000;
    }
    if same_bytes(text, b"1s") {
        return 1_000_000_000_000;
    }
    if same_bytes(text, b"10s") {
        return 10_000_000_000_000;
    }
    if same_bytes(text, b"100s") {
        return 100_000_000_000_000;
    }
    0
}

/// Joins one more token of a unit; more than eight bytes are no unit.
pub(crate) fn join(text: &mut ArrayVec<u8, 8>, more: &[u8])
    ensures { text.new.items ≡ spec.joined text.old.items more.now }
{
    if text.len() + more.len() > 8 {
        text.clear();
        text.push(b'?');
        return;
    }
    for byte in more {
        text.push(*byte);
    }
}
