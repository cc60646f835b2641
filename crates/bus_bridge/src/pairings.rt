//! Which subaddresses of two terminals belong together.
ghost use Rattle.std.specs.Prelude.{◌≡◌, ◌≤◌, ◌<◌, ◌+◌, ◌^◌, [], ◌∷◌, length, take, drop, IfSome, Some};
ghost use Rattle.bus_decimal.specs.Decimal as decimal;
ghost use Rattle.bus_bridge.specs.Headers as spec;
ghost use Rattle.bus_bridge.specs.Ranges.{Sends, AllSend};

use arrayvec::ArrayVec;
use bus_decimal::number_up_to;
use std::marker::Model;

// The highest subaddresses that receive and send what is handed on.
const HIGHEST_FROM: u64 = 30;

const HIGHEST_TO: u64 = 29;

/// What is received on one subaddress of the first terminal is sent from one of the second.
#[derive(Clone, Copy, Debug, Default, PartialEq, Eq)]
pub struct Pairing {
    /// The subaddress on which it is received, 1 to 30.
    pub from: u8,
    /// The subaddress from which it is sent, 1 to 29.
    pub to: u8,
}

/// At most 29 pairings, in the order of the line. They take no memory.
#[derive(Drop)]
pub struct Pairings {
    held: ArrayVec<Pairing, 29>,
}

impl Model for Pairings {
    ghost use Rattle.std.specs.Prelude.{List, ◌≤◌, length};
    ghost use Rattle.bus_bridge.specs.Ranges.{AllSend};
    ghost use Rattle.bus_bridge.specs.declared.pairings.Pairing.{Pairing};

    ghost Value = { List Pairing };

    ghost view = { λ p. p.held.items };

    ghost invariant = { λ p. (length p.held.items ≤ 29) × AllSend p.held.items };

    ghost inverse = { λ ps. record { held = record { items = ps } } };
}

impl Pairings {
    /// One alone.
    pub fn one(pairing: Pairing) -> Pairings
        requires { Sends pairing }
        ensures { result ≡ pairing ∷ [] }
    {
        let mut held = ArrayVec::new();
        held.push(pairing);
        Pairings { held }
    }

    /// The pairings, in the order of the line.
    pub fn as_slice(&self) -> &[Pairing]
        ensures value { result.now ≡ self.now }
        ensures fits { length result.now ≤ 29 }
        ensures send { AllSend result.now }
    {
        self.held.as_slice()
    }

    /// The same pairings once more. It takes no memory.
    pub fn copy(&self) -> Pairings
        ensures { result ≡ self.now }
    {
        let mut held = ArrayVec::new();
        for pairing in self.as_slice() {
            held.push(*pairing);
        }
        Pairings { held }
    }

    // With one more in front, for which there is room.
    fn after(mut self, first: Pairing) -> Pairings
        requires room { length self < 29 }
        requires sends { Sends first }
        ensures { result ≡ first ∷ self }
    {
        self.held.insert(0, first);
        self
    }
}

/// The pairings of a text, from 1 to so many, with a space between; none for any other text.
pub fn pairings_in(most: u8, text: &[u8]) -> Option<Pairings>
    requires { most ≤ 29 }
    ensures value { result ≡ spec.pairings_in most text.now }
    ensures few { IfSome result (λ pairs. length pairs ≤ most) }
{
    if most == 0 {
        return None;
    }
    match place_of(b' ', text) {
        None => alone(pairing_in(text)),
        Some(place) => led_by(
            pairing_in(&text[..place]),
            pairings_in(most - 1, &text[place + 1..]),
        ),
    }
}

fn alone(pairing: Option<Pairing>) -> Option<Pairings>
    requires { IfSome pairing Sends }
    ensures value { result ≡ spec.alone pairing }
    ensures few { IfSome result (λ pairs. length pairs ≤ 1) }
{
    match pairing {
        None => None,
        Some(pairing) => Some(Pairings::one(pairing)),
    }
}

fn led_by(first: Option<Pairing>, rest: Option<Pairings>) -> Option<Pairings>
    requires sends { IfSome first Sends }
    requires room { IfSome rest (λ pairs. length pairs < 29) }
    ensures { result ≡ spec.led_by first rest }
{
    match (first, rest) {
        (Some(first), Some(rest)) => Some(rest.after(first)),
        _ => None,
    }
}

/// `<from>:<to>`; none for any other text.
pub fn pairing_in(text: &[u8]) -> Option<Pairing>
    ensures value { result ≡ spec.pairing_in text.now }
    ensures sends { IfSome result Sends }
{
    match place_of(b':', text) {
        None => None,
        Some(place) => pairing_with(
            number_within(HIGHEST_FROM, &text[..place]),
            number_within(HIGHEST_TO, &text[place + 1..]),
        ),
    }
}

fn pairing_with(from: Option<u64>, to: Option<u64>) -> Option<Pairing>
    requires from { IfSome from (λ n. n ≤ 30) }
    requires to { IfSome to (λ n. n ≤ 29) }
    ensures value { result ≡ spec.pairing_with from to }
    ensures sends { IfSome result Sends }
{
    match (from, to) {
        (Some(from), Some(to)) => pairing_of(from as u8, to as u8),
        _ => None,
    }
}

fn pairing_of(from: u8, to: u8) -> Option<Pairing>
    requires { to ≤ 29 }
    ensures value { result ≡ spec.pairing_of from to }
    ensures sends { IfSome result Sends }
{
    if from > 0 && to > 0 {
        Some(Pairing { from, to })
    } else {
        None
    }
}

/// Whether each of the pairings sends from another subaddress.
pub fn are_apart(pairs: &[Pairing]) -> bool
    ensures { result ≡ spec.are_apart pairs.now }
{
    for place in 0..pairs.len() {
        if sends_from(&pairs[place + 1..], pairs[place].to) {
            return false;
        }
    }
    true
}

fn sends_from(pairs: &[Pairing], to: u8) -> bool
    ensures { result ≡ spec.sends_from to pairs.now }
{
    for pairing in pairs {
        if pairing.to == to {
            return true;
        }
    }
    false
}

/// The number that a text spells in decimal digits, without a leading zero but for 0 itself; none for any other text, and for a number above `most`.
pub fn number_within(most: u64, text: &[u8]) -> Option<u64>
    requires { most < 2 ^ 60 }
    ensures value { result ≡ decimal.number_up_to most text.now }
    ensures within { IfSome result (λ n. n ≤ most) }
{
    number_up_to(most, text)
}

/// The place of the first such byte in a text. None exactly where it has none.
pub fn place_of(byte: u8, text: &[u8]) -> Option<usize>
    ensures value { result ≡ spec.place_of byte text.now }
    ensures within { IfSome result (λ place. place < length text.now) }
{
    text.iter().position(|other| *other == byte)
}
