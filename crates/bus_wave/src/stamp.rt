//! The first digits of a time, kept as text from one line to the next.
ghost use Rattle.std.specs.Prelude.{◌≡◌, ◌+◌, ◌<◌, ◌≤◌, ◌^◌, ◌∷◌, ℕ, length, take, decimal};

use itoa::Buffer;
use std::marker::Model;

/// A time without its last four digits, and how that is written after a number sign.
#[derive(Drop)]
pub struct Stamp {
    pub(crate) number: u64,
    pub(crate) bytes: [u8; 16],
    pub(crate) length: usize,
}

impl Model for Stamp {
    ghost use Rattle.std.specs.Prelude.{◌≡◌, ◌≤◌, ◌∷◌, ℕ, take, decimal};

    ghost Value = { ℕ };

    ghost view = { λ s. s.number };

    ghost invariant = { λ s. (s.length ≤ 16) × (take s.length s.bytes ≡ 35 ∷ decimal s.number) };
}

impl Stamp {
    /// The stamp of this number.
    pub fn of(number: u64) -> Stamp
        requires { number < 10 ^ 15 }
        ensures { result ≡ number }
    {
        let mut buffer = Buffer::new();
        let digits = buffer.format(number).as_bytes();
        let length = digits.len() + 1;
        let mut bytes = [b'#'; 16];
        bytes[1..length].copy_from_slice(digits);
        Stamp {
            number,
            bytes,
            length,
        }
    }

    /// Makes it the stamp of this number, where it is that of another.
    #[inline(always)]
    pub fn renew(&mut self, number: u64)
        requires { number < 10 ^ 15 }
        ensures { self.new ≡ number }
    {
        if self.number != number {
            self.change(number);
        }
    }

    #[inline(never)]
    fn change(&mut self, number: u64)
        requires { number < 10 ^ 15 }
        ensures { self.new ≡ number }
    {
        *self = Stamp::of(number);
    }
}
