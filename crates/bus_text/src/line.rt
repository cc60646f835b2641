//! A line of text of a fixed capacity, with room for the longest line that is printed.
//!
//! Contracts see a line as the list of its bytes. Each call asks for room and says by how much the line grows at most, so that a caller
//! who adds the bounds up needs nothing else.

ghost use Rattle.std.specs.Prelude.{◌≡◌, ◌+◌, ◌*◌, ◌/◌, ◌%◌, ◌<◌, ◌≤◌, ◌^◌, [], ◌∷◌, ◌++◌, List, ℕ, length, decimal};
ghost use Rattle.std.specs.List.{list_all};
ghost use Rattle.bus_text.specs.Texts.{hex_digit, hex_word, line, number as number_text, word as word_text, words as words_text};

use arrayvec::ArrayString;
use std::marker::Model;

/// The most bytes of a line: a subsystem may say 512 characters, and its address stands before them.
pub const ROOM: usize = 600;

/// A line of at most 600 bytes of printed text.
#[derive(Drop)]
pub struct Line {
    text: ArrayString<600>,
}

impl Model for Line {
    ghost use Rattle.std.specs.Prelude.{List, ℕ};

    ghost Value = { List ℕ };

    ghost view = { λ l. l.text.bytes };
}

impl Line {
    /// The empty line.
    pub fn new() -> Line
        ensures { result ≡ [] }
    {
        Line {
            text: ArrayString::new(),
        }
    }

    /// The bytes so far.
    pub fn as_bytes(&self) -> &[u8]
        ensures { result.now ≡ self.now }
    {
        self.text.as_str().as_bytes()
    }

    /// Adds a text.
    pub fn text(&mut self, more: &str)
        requires { length self.old + length more.now ≤ 600 }
        ensures text { self.new ≡ self.old ++ more.now }
        ensures grows { length self.new ≡ length self.old + length more.now }
    {
        let _ = self.text.try_push_str(more);
    }

    // Adds a character of ASCII.
    fn ascii(&mut self, byte: u8)
        requires ascii { byte < 128 }
        requires room { length self.old < 600 }
        ensures text { self.new ≡ self.old ++ byte ∷ [] }
        ensures grows { length self.new ≡ length self.old + 1 }
    {
        let _ = self.text.try_push(byte as char);
    }

    /// Adds the line feed that ends a line.
    pub fn end(&mut self)
        requires { length self.old < 600 }
        ensures { self.new ≡ line self.old }
    {
        self.ascii(b'\n');
    }

    /// Adds a number in decimal digits.
    pub fn decimal(&mut self, n: u64)
        requires { length self.old + 20 ≤ 600 }
        ensures text { self.new ≡ self.old ++ decimal n }
        ensures grows { length self.new ≤ length self.old + 20 }
    {
        self.digits(n);
    }

    fn digits(&mut self, n: u64)
        requires { length self.old + length (decimal n) ≤ 600 }
        ensures text { self.new ≡ self.old ++ decimal n }
    {
        if n < 10 {
            return self.ascii(b'0' + n as u8);
        }
        self.digits(n / 10);
        self.ascii(b'0' + (n % 10) as u8);
    }

    /// Adds a number after a space.
    pub fn number(&mut self, n: u64)
        requires { length self.old + 21 ≤ 600 }
        ensures text { self.new ≡ self.old ++ number_text n }
        ensures grows { length self.new ≤ length self.old + 21 }
    {
        self.ascii(b' ');
        self.decimal(n);
    }

    /// Adds a word as four upper-case hexadecimal digits.
    pub fn hex(&mut self, word: u16)
        requires { length self.old + 4 ≤ 600 }
        ensures text { self.new ≡ self.old ++ hex_word word }
        ensures grows { length self.new ≡ length self.old + 4 }
    {
        self.ascii(digit_of(word / 4096 % 16));
        self.ascii(digit_of(word / 256 % 16));
        self.ascii(digit_of(word / 16 % 16));
        self.ascii(digit_of(word % 16));
    }

    /// Adds a word after a space.
    pub fn word(&mut self, word: u16)
        requires { length self.old + 5 ≤ 600 }
        ensures text { self.new ≡ self.old ++ word_text word }
        ensures grows { length self.new ≡ length self.old + 5 }
    {
        self.ascii(b' ');
        self.hex(word);
    }

    /// Adds words, each after a space.
    pub fn words(&mut self, words: &[u16])
        requires { length self.old + 5 * length words.now ≤ 600 }
        ensures text { self.new ≡ self.old ++ words_text words.now }
        ensures grows { length self.new ≡ length self.old + 5 * length words.now }
    {
        for word in words {
            self.word(*word);
        }
    }
}

impl Default for Line {
    fn default() -> Line {
        Line::new()
    }
}

// The upper-case hexadecimal digit of a number below 16.
fn digit_of(n: u16) -> u8
    requires { n < 16 }
    ensures digit { result ≡ hex_digit n }
    ensures ascii { result < 128 }
{
    if n < 10 {
        b'0' + n as u8
    } else {
        b'A' + (n as u8 - 10)
    }
}
