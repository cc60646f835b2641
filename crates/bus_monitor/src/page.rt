//! The lines of a listing that are held back: a page, which is written when it is nearly full and at the end of each piece of the input.
//!
//! Contracts see a page as the list of its bytes, as they see a line.
ghost use Rattle.std.specs.Prelude.{◌≡◌, ◌+◌, ◌/◌, ◌%◌, ◌≤◌, ◌<◌, [], ◌∷◌, ◌++◌, List, ℕ, length, decimal};
ghost use Rattle.bus_text.specs.Texts.{hex_word, line, number as number_text, word as word_text, channel_text, sync_text, word_line};

use crate::digits::{hex_digit, ones, tens};
use arrayvec::ArrayVec;
use bus_base::Channel;
use bus_formats::Heard;
use bus_text::Line;
use bus_words::Sync;
use itoa::Buffer;
use std::marker::Model;

/// Lines that wait to be written, at most 8,192 bytes.
#[derive(Drop)]
pub struct Page {
    bytes: ArrayVec<u8, 8192>,
}

impl Model for Page {
    ghost use Rattle.std.specs.Prelude.{List, ℕ};

    ghost Value = { List ℕ };

    ghost view = { λ p. p.bytes.items };
}

impl Page {
    /// The empty page.
    pub fn new() -> Page
        ensures { result ≡ [] }
    {
        Page {
            bytes: ArrayVec::new(),
        }
    }

    /// The bytes so far.
    pub fn as_bytes(&self) -> &[u8]
        ensures { result.now ≡ self.now }
    {
        self.bytes.as_slice()
    }

    /// Forgets the bytes so far.
    pub fn clear(&mut self)
        ensures { self.new ≡ [] }
    {
        self.bytes.clear();
    }

    /// Adds a line that was made apart.
    pub fn line(&mut self, line: &Line)
        requires { length self.old + length line.now ≤ 8192 }
        ensures { self.new ≡ self.old ++ line.now }
    {
        self.add(line.as_bytes());
    }

    /// Adds the line of a word heard.
    #[inline(always)]
    pub fn word(&mut self, heard: Heard)
        requires { length self.old + 40 ≤ 8192 }
        ensures text { self.new ≡ self.old ++ word_line heard }
        ensures grows { length self.new ≤ length self.old + 40 }
    {
        self.text("word ");
        self.decimal(heard.tick.0);
        self.rest_of_word(
            channel_letter(heard.channel),
            sync_letter(heard.word.sync),
            heard.word.bits,
        );
    }

    /// Adds a text.
    pub fn text(&mut self, more: &str)
        requires { length self.old + length more.now ≤ 8192 }
        ensures text { self.new ≡ self.old ++ more.now }
        ensures grows { length self.new ≡ length self.old + length more.now }
    {
        self.add(more.as_bytes());
    }

    /// Adds a number after a space.
    pub fn number(&mut self, n: u64)
        requires { length self.old + 21 ≤ 8192 }
        ensures text { self.new ≡ self.old ++ number_text n }
        ensures grows { length self.new ≤ length self.old + 21 }
    {
        self.add(b" ");
        self.decimal(n);
    }

    /// Adds a channel after a space.
    pub fn channel(&mut self, channel: Channel)
        requires { length self.old + 2 ≤ 8192 }
        ensures text { self.new ≡ self.old ++ channel_text channel }
        ensures grows { length self.new ≡ length self.old + 2 }
    {
        self.add(&[b' ', channel_letter(channel)]);
    }

    /// Adds the line feed that ends a line.
    pub fn end(&mut self)
        requires { length self.old < 8192 }
        ensures { self.new ≡ line self.old }
    {
        self.add(b"\n");
    }

    /// Adds bytes.
    #[inline(always)]
    pub fn add(&mut self, bytes: &[u8])
        requires { length self.old + length bytes.now ≤ 8192 }
        ensures text { self.new ≡ self.old ++ bytes.now }
        ensures grows { length self.new ≡ length self.old + length bytes.now }
    {
        let _ = self.bytes.try_extend_from_slice(bytes);
    }

    /// Adds a number in decimal digits.
    pub fn decimal(&mut self, n: u64)
        requires { length self.old + 20 ≤ 8192 }
        ensures text { self.new ≡ self.old ++ decimal n }
        ensures grows { length self.new ≤ length self.old + 20 }
    {
        if n < 10_000 {
            self.few_digits(n as u16);
        } else if n < 100_000_000 {
            self.few_digits((n / 10_000) as u16);
            self.four_digits((n % 10_000) as u16);
        } else {
            self.many_digits(n);
        }
    }

    // Adds a number below 10,000 in decimal digits.
    #[inline(always)]
    fn few_digits(&mut self, n: u16)
        requires few { n < 10000 }
        requires room { length self.old + 4 ≤ 8192 }
        ensures text { self.new ≡ self.old ++ decimal n }
        ensures grows { length self.new ≤ length self.old + 4 }
    {
        if n < 10 {
            self.add(&[ones(n)]);
        } else if n < 100 {
            self.add(&[tens(n), ones(n)]);
        } else if n < 1000 {
            self.add(&[ones(n / 100), tens(n % 100), ones(n % 100)]);
        } else {
            self.four_digits(n);
        }
    }

    // Adds a number below 10,000 in four decimal digits.
    #[inline(always)]
    fn four_digits(&mut self, n: u16)
        requires few { n < 10000 }
        requires room { length self.old + 4 ≤ 8192 }
        ensures text { self.new ≡ self.old ++ (48 + n / 1000) ∷ (48 + n / 100 % 10) ∷ (48 + n / 10 % 10) ∷ (48 + n % 10) ∷ [] }
        ensures grows { length self.new ≡ length self.old + 4 }
    {
        self.add(&[tens(n / 100), ones(n / 100), tens(n % 100), ones(n % 100)]);
    }

    // Adds a number in decimal digits, however many.
    #[inline(never)]
    fn many_digits(&mut self, n: u64)
        requires { length self.old + 20 ≤ 8192 }
        ensures text { self.new ≡ self.old ++ decimal n }
        ensures grows { length self.new ≤ length self.old + 20 }
    {
        self.add(Buffer::new().format(n).as_bytes());
    }

    /// Adds a word as four upper-case hexadecimal digits.
    pub fn hex(&mut self, word: u16)
        requires { length self.old + 4 ≤ 8192 }
        ensures text { self.new ≡ self.old ++ hex_word word }
        ensures grows { length self.new ≡ length self.old + 4 }
    {
        self.add(&[
            hex_digit(word / 4096 % 16),
            hex_digit(word / 256 % 16),
            hex_digit(word / 16 % 16),
            hex_digit(word % 16),
        ]);
    }

    // Adds two letters and a word, each after a space, and the line feed that ends a line.
    fn rest_of_word(&mut self, channel: u8, sync: u8, word: u16)
        requires { length self.old + 10 ≤ 8192 }
        ensures text { self.new ≡ self.old ++ 32 ∷ channel ∷ 32 ∷ sync ∷ (word_text word ++ 10 ∷ []) }
        ensures grows { length self.new ≡ length self.old + 10 }
    {
        self.add(&[
            b' ',
            channel,
            b' ',
            sync,
            b' ',
            hex_digit(word / 4096 % 16),
            hex_digit(word / 256 % 16),
            hex_digit(word / 16 % 16),
            hex_digit(word % 16),
            b'\n',
        ]);
    }
}

// The letter of a channel.
fn channel_letter(channel: Channel) -> u8
    ensures { 32 ∷ result ∷ [] ≡ channel_text channel }
{
    match channel {
        Channel::A => b'A',
        Channel::B => b'B',
    }
}

// The letter of a sync.
fn sync_letter(sync: Sync) -> u8
    ensures { 32 ∷ result ∷ [] ≡ sync_text sync }
{
    match sync {
        Sync::Command => b'c',
        Sync::Datum => b'd',
    }
}
