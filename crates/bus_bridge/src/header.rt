//! The line before the plans.
ghost use Rattle.std.specs.Prelude.{◌≡◌, ◌≤◌, ◌<◌, length, IfSome, Some, None, true};
ghost use Rattle.bus_bridge.specs.Headers as spec;

use crate::pairings::{Pairings, are_apart, number_within, pairings_in, place_of};

// The highest address of a terminal (MIL-STD-1553B 4.3.3.5.1.2).
const HIGHEST_ADDRESS: u64 = 30;

/// The most bytes of a plan's text.
pub const PLAN_LIMIT: u64 = 4_194_304;

// The most pairings of a line.
const MOST_PAIRINGS: u8 = 29;

/// What the line says.
#[derive(Drop)]
pub struct Header {
    /// The address of the terminal of the first bus, 0 to 30.
    pub a: u8,
    /// The address of the terminal of the second bus, 0 to 30.
    pub b: u8,
    /// The bytes of the first plan, at most 4,194,304.
    pub first: u64,
    /// The pairings, 1 to 29; each sends from another subaddress.
    pub pairs: Pairings,
}

/// What a line says, given without its line feed: `1553 bridge`, two addresses, the bytes of the first plan and 1 to 29 pairings, as `1:2`, with single
/// spaces between and numbers without leading zeros. None for any other line.
pub fn read_header(line: &[u8]) -> Option<Header>
    ensures { result ≡ spec.header_of line.now }
{
    if begins_so(line) {
        header_in(&line[12..])
    } else {
        None
    }
}

fn begins_so(line: &[u8]) -> bool
    ensures value { result ≡ spec.begins_so line.now }
    ensures long { result ≡ true → 12 ≤ length line.now }
{
    line.starts_with(b"1553 bridge ")
}

fn header_in(text: &[u8]) -> Option<Header>
    ensures { result ≡ spec.header_in text.now }
{
    match place_of(b' ', text) {
        None => None,
        Some(place) => header_from(
            number_within(HIGHEST_ADDRESS, &text[..place]),
            &text[place + 1..],
        ),
    }
}

fn header_from(a: Option<u64>, text: &[u8]) -> Option<Header>
    requires { IfSome a (λ n. n ≤ 30) }
    ensures { result ≡ spec.header_from a text.now }
{
    match place_of(b' ', text) {
        None => None,
        Some(place) => header_between(
            a,
            number_within(HIGHEST_ADDRESS, &text[..place]),
            &text[place + 1..],
        ),
    }
}

fn header_between(a: Option<u64>, b: Option<u64>, text: &[u8]) -> Option<Header>
    requires a { IfSome a (λ n. n ≤ 30) }
    requires b { IfSome b (λ n. n ≤ 30) }
    ensures { result ≡ spec.header_between a b text.now }
{
    match place_of(b' ', text) {
        None => None,
        Some(place) => header_with(
            a,
            b,
            number_within(PLAN_LIMIT, &text[..place]),
            pairings_in(MOST_PAIRINGS, &text[place + 1..]),
        ),
    }
}

fn header_with(
    a: Option<u64>,
    b: Option<u64>,
    first: Option<u64>,
    pairs: Option<Pairings>,
) -> Option<Header>
    requires a { IfSome a (λ n. n ≤ 30) }
    requires b { IfSome b (λ n. n ≤ 30) }
    ensures { result ≡ spec.header_with a b first pairs }
{
    match (a, b) {
        (Some(a), Some(b)) => header_of(a as u8, b as u8, first, pairs),
        _ => None,
    }
}

fn header_of(a: u8, b: u8, first: Option<u64>, pairs: Option<Pairings>) -> Option<Header>
    ensures { result ≡ spec.header_numbers a b first pairs }
{
    match (first, pairs) {
        (Some(first), Some(pairs)) => header_apart(a, b, first, pairs),
        _ => None,
    }
}

fn header_apart(a: u8, b: u8, first: u64, pairs: Pairings) -> Option<Header>
    ensures { result ≡ spec.header_apart a b first pairs }
{
    if are_apart(pairs.as_slice()) {
        Some(Header { a, b, first, pairs })
    } else {
        None
    }
}
