//! The text of a dump that is held back.
//!
//! Contracts see it as the list of its bytes, as they see a page of a listing.
ghost use Rattle.std.specs.Prelude.{◌≡◌, ◌+◌, ◌*◌, ◌/◌, ◌%◌, ◌≤◌, ◌<◌, [], ◌∷◌, ◌++◌, List, ℕ, length, take, decimal, codes};
ghost use Rattle.bus_text.specs.Texts.{hex_word, line, number as number_text};

use crate::stamp::Stamp;
use bus_text::Line;
use itoa::Buffer;
use std::marker::Model;

/// Lines of a dump that wait to be written, at most 8,192 bytes.
#[derive(Drop)]
pub struct DumpText {
    bytes: [u8; 8192],
    length: usize,
}

impl Model for DumpText {
    ghost use Rattle.std.specs.Prelude.{List, ℕ, ◌≤◌, take};

    ghost Value = { List ℕ };

    ghost view = { λ t. take t.length t.bytes };

    ghost invariant = { λ t. t.length ≤ 8192 };
}

impl DumpText {
    /// The empty text.
    pub fn new() -> DumpText
        ensures { result ≡ [] }
    {
        DumpText {
            bytes: [0; 8192],
            length: 0,
        }
    }

    /// The bytes so far.
    pub fn as_bytes(&self) -> &[u8]
        ensures { result.now ≡ self.now }
    {
        &self.bytes[..self.length]
    }

    /// The number of bytes so far.
    #[inline(always)]
    pub fn len(&self) -> usize
        ensures { result ≡ length self.now }
    {
        self.length
    }

    /// Forgets the bytes so far.
    pub fn clear(&mut self)
        ensures { self.new ≡ [] }
    {
        self.length = 0;
    }

    /// Adds bytes.
    #[inline(always)]
    pub fn add(&mut self, bytes: &[u8])
        requires { length self.old + length bytes.now ≤ 8192 }
        ensures text { self.new ≡ self.old ++ bytes.now }
        ensures grows { length self.new ≡ length self.old + length bytes.now }
    {
        let end = self.length + bytes.len();
        self.bytes[self.length..end].copy_from_slice(bytes);
        self.length = end;
    }

    /// Adds a text.
    pub fn text(&mut self, more: &str)
        requires { length self.old + length more.now ≤ 8192 }
        ensures text { self.new ≡ self.old ++ more.now }
        ensures grows { length self.new ≡ length self.old + length more.now }
    {
        self.add(more.as_bytes());
    }

    /// Adds a number in decimal digits.
    pub fn decimal(&mut self, n: u64)
        requires { length self.old + 20 ≤ 8192 }
        ensures text { self.new ≡ self.old ++ decimal n }
        ensures grows { length self.new ≤ length self.old + 20 }
    {
        self.add(Buffer::new().format(n).as_bytes());
    }

    /// Adds a number after a space.
    pub fn number(&mut self, n: u64)
        requires { length self.old + 21 ≤ 8192 }
        ensures text { self.new ≡ self.old ++ number_text n }
        ensures grows { length self.new ≤ length self.old + 21 }
    {
        self.add(b" ");
        self.decimal(n);
    }

    /// Adds a word as four upper-case hexadecimal digits.
    pub fn hex(&mut self, word: u16)
        requires { length self.old + 4 ≤ 8192 }
        ensures text { self.new ≡ self.old ++ hex_word word }
        ensures grows { length self.new ≡ length self.old + 4 }
    {
        let mut line = Line::new();
        line.hex(word);
        self.add(line.as_bytes());
    }

    /// Adds the line feed that ends a line.
    pub fn end(&mut self)
        requires { length self.old < 8192 }
        ensures { self.new ≡ line self.old }
    {
        self.add(b"\n");
    }

    /// Adds the first digits of a time after a number sign.
    #[inline(always)]
    pub fn add_stamp(&mut self, stamp: &Stamp)
        requires room { length self.old ≤ 4000 }
        ensures text { self.new ≡ self.old ++ 35 ∷ decimal stamp.now }
        ensures grows { length self.new ≤ length self.old + 16 }
    {
        self.add_front(&stamp.bytes, stamp.length);
    }

    /// Adds the first of sixteen bytes.
    #[inline(always)]
    pub(crate) fn add_front(&mut self, bytes: &[u8; 16], count: usize)
        requires few { count ≤ 16 }
        requires room { length self.old ≤ 4000 }
        ensures text { self.new ≡ self.old ++ take count bytes.now }
        ensures grows { length self.new ≡ length self.old + count }
    {
        let at = self.length;
        self.bytes[at..at + 16].copy_from_slice(bytes);
        self.length = at + count;
    }
}
