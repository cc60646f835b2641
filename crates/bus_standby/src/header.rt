//! The line before the plan.
ghost use Rattle.std.specs.Prelude.{◌≡◌, ◌≤◌, ◌<◌, length, IfSome, Some, true};
ghost use Rattle.bus_decimal.specs.Decimal.{number_up_to};
ghost use Rattle.bus_standby.specs.Inputs as spec;

use bus_decimal::number_up_to;

// The highest address of a terminal (MIL-STD-1553B 4.3.3.5.1.2).
const HIGHEST_ADDRESS: u64 = 30;

const MOST_ATTEMPTS: u64 = 1_000_000;

/// What the line says.
#[derive(Clone, Copy, Debug, PartialEq, Eq)]
pub struct Header {
    /// The address of the station that takes over, 0 to 30.
    pub address: u8,
    /// The number of the attempt that the station that starts doesn't begin any more, 1 to 1,000,000; attempts are counted from 1.
    pub attempt: u32,
}

/// What a line says, given without its line feed: `1553 standby`, an address and an attempt, with single spaces between and numbers without leading zeros. None
/// for any other line.
pub fn read_header(line: &[u8]) -> Option<Header>
    ensures value { result ≡ spec.header_of line.now }
    ensures first { IfSome result (λ header. 1 ≤ header.attempt) }
    ensures last { IfSome result (λ header. header.attempt ≤ 1000000) }
{
    if begins_so(line) {
        numbers_in(&line[13..])
    } else {
        None
    }
}

fn begins_so(line: &[u8]) -> bool
    ensures value { result ≡ spec.begins_so line.now }
    ensures long { result ≡ true → 13 ≤ length line.now }
{
    line.starts_with(b"1553 standby ")
}

// Two numbers with a space between.
fn numbers_in(text: &[u8]) -> Option<Header>
    ensures value { result ≡ spec.numbers_in text.now }
    ensures first { IfSome result (λ header. 1 ≤ header.attempt) }
    ensures last { IfSome result (λ header. header.attempt ≤ 1000000) }
{
    match place_of(b' ', text) {
        None => None,
        Some(place) => numbers_at(text, place),
    }
}

fn numbers_at(text: &[u8], place: usize) -> Option<Header>
    requires { place < length text.now }
    ensures value { result ≡ spec.numbers_by text.now (Some place) }
    ensures first { IfSome result (λ header. 1 ≤ header.attempt) }
    ensures last { IfSome result (λ header. header.attempt ≤ 1000000) }
{
    header_with(
        number_within(HIGHEST_ADDRESS, &text[..place]),
        number_within(MOST_ATTEMPTS, &text[place + 1..]),
    )
}

fn header_with(address: Option<u64>, attempt: Option<u64>) -> Option<Header>
    requires address { IfSome address (λ n. n ≤ 30) }
    requires attempt { IfSome attempt (λ n. n ≤ 1000000) }
    ensures value { result ≡ spec.header_by address attempt }
    ensures first { IfSome result (λ header. 1 ≤ header.attempt) }
    ensures last { IfSome result (λ header. header.attempt ≤ 1000000) }
{
    match (address, attempt) {
        (Some(address), Some(attempt)) => {
            if attempt > 0 {
                Some(Header {
                    address: address as u8,
                    attempt: attempt as u32,
                })
            } else {
                None
            }
        }
        _ => None,
    }
}

fn number_within(most: u64, text: &[u8]) -> Option<u64>
    requires { most ≤ 1000000 }
    ensures value { result ≡ number_up_to most text.now }
    ensures within { IfSome result (λ n. n ≤ most) }
{
    number_up_to(most, text)
}

/// The place of the first such byte in a text. None exactly where it has none.
pub fn place_of(byte: u8, text: &[u8]) -> Option<usize>
    ensures value { result ≡ spec.place_of byte text.now }
    ensures within { IfSome result (λ place. place < length text.now) }
{
    text.iter().position(|other| *other == byte)
}
