//! Tokens: what stands between white space.
ghost use Rattle.std.specs.Prelude.{◌≡◌, ◌≤◌, bytes_eq, length};
ghost use Rattle.bus_recording.specs.Tokens as spec;

use arrayvec::ArrayVec;

/// A token that is read: its first 64 bytes.
#[derive(Drop)]
pub struct Token {
    /// Its bytes, as far as they are kept.
    pub bytes: ArrayVec<u8, 64>,
    /// Whether there are more.
    pub is_long: bool,
    /// The offset of its first byte.
    pub start: u64,
}

impl Token {
    /// A token that isn't begun.
    pub(crate) fn new() -> Token
        ensures { result ≡ spec.no_token }
    {
        Token {
            bytes: ArrayVec::new(),
            is_long: false,
            start: 0,
        }
    }

    pub(crate) fn is_begun(&self) -> bool
        ensures { result ≡ spec.is_begun self.now }
    {
        !self.bytes.is_empty()
    }

    /// Takes its next byte, at an offset.
    pub(crate) fn push(&mut self, at: u64, byte: u8)
        ensures { self.new ≡ spec.with_byte at byte self.old }
    {
        if self.bytes.len() >= 64 {
            self.is_long = true;
            return;
        }
        if !self.is_begun() {
            self.start = at;
        }
        self.bytes.push(byte);
    }

    /// Whether it is this word.
    pub(crate) fn is_word(&self, word: &[u8]) -> bool
        ensures { result ≡ spec.is_word word.now self.now }
    {
        !self.is_long && same_bytes(self.bytes.as_slice(), word)
    }

    /// Its first byte, 0 where it has none.
    pub(crate) fn front(&self) -> u8
        ensures { result ≡ spec.front (spec.bytes_of self.now) }
    {
        match self.bytes.as_slice() {
            [] => 0,
            [byte, ..] => *byte,
        }
    }

    /// What follows its first byte.
    pub(crate) fn rest(&self) -> &[u8]
        ensures rest { result.now ≡ spec.rest_of self.now }
        ensures few { length result.now ≤ 64 }
    {
        let bytes = self.bytes.as_slice();
        if bytes.is_empty() {
            return bytes;
        }
        &bytes[1..]
    }
}

/// Whether a byte parts tokens.
pub(crate) fn is_white(byte: u8) -> bool
    ensures { result ≡ spec.is_white byte }
{
    byte == b' ' || (b'\t'..=b'\r').contains(&byte)
}

/// Whether two texts are the same.
pub(crate) fn same_bytes(a: &[u8], b: &[u8]) -> bool
    ensures { result ≡ bytes_eq a.now b.now }
{
    a == b
}
