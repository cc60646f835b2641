//! The lines of a recording, two for each channel.
ghost use Rattle.std.specs.Prelude.{◌≡◌, ◌≤◌, [], length, true, false};
ghost use Rattle.bus_recording.specs.Wires as spec;

use crate::token::same_bytes;
use arrayvec::ArrayVec;
use bus_base::{Pair, Sample};

/// A line: a one-bit variable of a recording.
#[derive(Drop)]
pub struct Wire {
    /// The variable's name.
    pub name: ArrayVec<u8, 64>,
    /// Whether the line is wanted: without a second channel two are not.
    pub is_wanted: bool,
    /// The variable's identifier, once it is found.
    pub id: ArrayVec<u8, 64>,
    /// Whether a variable of this name was found.
    pub is_found: bool,
    /// Whether the line is on.
    pub is_on: bool,
}

/// The four lines of two channels.
#[derive(Drop)]
pub struct Wires {
    /// On while channel A is positive.
    pub a_plus: Wire,
    /// On while channel A is negative.
    pub a_minus: Wire,
    /// On while channel B is positive.
    pub b_plus: Wire,
    /// On while channel B is negative.
    pub b_minus: Wire,
}

impl Wire {
    /// The line that a variable of this name will be.
    pub fn named(name: &[u8]) -> Wire
        requires { length name.now ≤ 64 }
        ensures { result ≡ spec.wire_named name.now true }
    {
        let mut wire = Wire::unwanted();
        copy(name, &mut wire.name);
        wire.is_wanted = true;
        wire
    }

    /// A line that isn't wanted, and stays off.
    pub fn unwanted() -> Wire
        ensures { result ≡ spec.wire_named [] false }
    {
        Wire {
            name: ArrayVec::new(),
            is_wanted: false,
            id: ArrayVec::new(),
            is_found: false,
            is_on: false,
        }
    }

    fn declares(&self, name: &[u8]) -> bool
        ensures { result ≡ spec.declares name.now self.now }
    {
        self.is_wanted && !self.is_found && same_bytes(name, self.name.as_slice())
    }

    // A one-bit variable of this name has this identifier.
    fn declare(&mut self, id: &[u8], name: &[u8])
        requires { length id.now ≤ 64 }
        ensures { self.new ≡ spec.declared id.now name.now self.old }
    {
        if self.declares(name) {
            copy(id, &mut self.id);
            self.is_found = true;
        }
    }

    // The variable with this identifier changes.
    fn change(&mut self, id: &[u8], on: bool)
        ensures { self.new ≡ spec.changed id.now on self.old }
    {
        if self.is_found && same_bytes(id, self.id.as_slice()) {
            self.is_on = on;
        }
    }

    fn is_missing(&self) -> bool
        ensures { result ≡ spec.is_missing self.now }
    {
        self.is_wanted && !self.is_found
    }
}

impl Wires {
    /// A one-bit variable of this name has this identifier.
    pub(crate) fn declare(&mut self, id: &[u8], name: &[u8])
        requires { length id.now ≤ 64 }
        ensures { self.new ≡ spec.each (spec.declared id.now name.now) self.old }
    {
        self.a_plus.declare(id, name);
        self.a_minus.declare(id, name);
        self.b_plus.declare(id, name);
        self.b_minus.declare(id, name);
    }

    /// The variable with this identifier changes.
    pub(crate) fn change(&mut self, id: &[u8], on: bool)
        ensures { self.new ≡ spec.each (spec.changed id.now on) self.old }
    {
        self.a_plus.change(id, on);
        self.a_minus.change(id, on);
        self.b_plus.change(id, on);
        self.b_minus.change(id, on);
    }

    /// The first line that no variable has the name of, counted from 0.
    pub(crate) fn first_missing(&self) -> Option<u8>
        ensures missing { result ≡ spec.first_missing self.now }
    {
        if self.a_plus.is_missing() {
            return Some(0);
        }
        if self.a_minus.is_missing() {
            return Some(1);
        }
        if self.b_plus.is_missing() {
            return Some(2);
        }
        if self.b_minus.is_missing() {
            return Some(3);
        }
        None
    }

    /// What the channels show.
    pub(crate) fn pair(&self) -> Pair
        ensures { result ≡ spec.pair_of self.now }
    {
        Pair {
            a: level_of(self.a_plus.is_on, self.a_minus.is_on),
            b: level_of(self.b_plus.is_on, self.b_minus.is_on),
        }
    }
}

/// The level that two lines show.
pub(crate) fn level_of(plus: bool, minus: bool) -> Sample
    ensures { result ≡ spec.level_of plus minus }
{
    match (plus, minus) {
        (true, false) => Sample::Plus,
        (false, true) => Sample::Minus,
        _ => Sample::Quiet,
    }
}

/// Leaves a text in a buffer.
pub(crate) fn copy(text: &[u8], buffer: &mut ArrayVec<u8, 64>)
    requires { length text.now ≤ 64 }
    ensures { buffer.new.items ≡ text.now }
{
    buffer.clear();
    for byte in text {
        buffer.push(*byte);
    }
}
