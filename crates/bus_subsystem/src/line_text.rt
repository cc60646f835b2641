//! The text of one line of the report, printable and short, so that no subsystem can break the report's form.

ghost use Rattle.std.specs.Prelude.{◌≡◌, ◌+◌, ◌≤◌, ◌<◌, ◌↔◌, [], ◌∷◌, ◌++◌, length, decimal, IsTrue, if◌then◌else◌};
ghost use Rattle.std.specs.List.{list_all};
ghost use Rattle.bus_subsystem.specs.Printable.{is_printable_byte, IsPrintable};
ghost use Rattle.bus_subsystem.specs.Deliveries.{Keeps};

use arrayvec::ArrayString;
use std::marker::Model;

/// At most 512 printable ASCII characters (space to tilde), seen by contracts as the list of their bytes. It takes no memory.
#[derive(Drop)]
pub struct LineText {
    text: ArrayString<512>,
}

impl Model for LineText {
    ghost use Rattle.std.specs.Prelude.{List, ℕ, ◌≤◌, length};
    ghost use Rattle.bus_subsystem.specs.Printable.{IsPrintable};

    ghost Value = { List ℕ };

    ghost view = { λ t. t.text.bytes };

    ghost invariant = { λ t. (length t.text.bytes ≤ 512) × IsPrintable t.text.bytes };
}

impl LineText {
    /// The empty text.
    pub fn new() -> LineText
        ensures { result ≡ [] }
    {
        LineText {
            text: ArrayString::new(),
        }
    }

    /// Adds the characters at the end. It answers false, and changes nothing, exactly where they don't fit in the 512 or one of
    /// them isn't printable ASCII.
    pub fn add(&mut self, more: &str) -> bool
        ensures taken { IsTrue result ↔ ((length self.old + length more.now ≤ 512) × IsPrintable more.now) }
        ensures text { self.new ≡ (if result then self.old ++ more.now else self.old) }
    {
        is_printable(more.as_bytes()) && self.text.try_push_str(more).is_ok()
    }

    /// The text, at most 512 characters, each from space (32) to tilde (126).
    pub fn as_str(&self) -> &str
        ensures value { result.now ≡ self.now }
        ensures fits { length result.now ≤ 512 }
        ensures printable { IsPrintable result.now }
    {
        self.text.as_str()
    }

    // Adds a whole line, or nothing where it doesn't fit.
    pub(crate) fn add_line(&mut self, line: &LineText)
        ensures said { self.old ≡ [] → self.new ≡ line.now }
        ensures fits { length self.old + length line.now ≤ 512 → self.new ≡ self.old ++ line.now }
        ensures keeps { Keeps self.old self.new }
    {
        let _ = self.add(line.as_str());
    }

    // Adds a text for which there is room.
    pub(crate) fn text(&mut self, more: &str)
        requires room { length self.old + length more.now ≤ 512 }
        requires printable { IsPrintable more.now }
        ensures text { self.new ≡ self.old ++ more.now }
        ensures grows { length self.new ≡ length self.old + length more.now }
    {
        let _ = self.add(more);
    }

    // Adds a number in decimal digits, for which there is room.
    pub(crate) fn decimal(&mut self, n: u128)
        requires { length self.old + length (decimal n) ≤ 512 }
        ensures text { self.new ≡ self.old ++ decimal n }
        ensures grows { length self.new ≡ length self.old + length (decimal n) }
    {
        if n < 10 {
            return self.digit(n as u8);
        }
        self.decimal(n / 10);
        self.digit((n % 10) as u8);
    }

    fn digit(&mut self, n: u8)
        requires digit { n < 10 }
        requires room { length self.old < 512 }
        ensures text { self.new ≡ self.old ++ (48 + n) ∷ [] }
        ensures grows { length self.new ≡ length self.old + 1 }
    {
        let _ = self.text.try_push((b'0' + n) as char);
    }
}

impl Default for LineText {
    ghost is_default = { λ t. t ≡ [] };

    fn default() -> LineText {
        LineText::new()
    }
}

// Whether each byte is a printable character of ASCII.
fn is_printable(bytes: &[u8]) -> bool
    ensures { result ≡ list_all is_printable_byte bytes.now }
{
    for byte in bytes {
        if *byte < 32 || *byte > 126 {
            return false;
        }
    }
    true
}
