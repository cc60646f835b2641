//! Why the samples of a slot are no word (word validation, MIL-STD-1553B 4.4.1.1).
ghost use Rattle.std.specs.Prelude.{◌≡◌, ◌+◌, ◌≤◌, if◌then◌else◌, length};
ghost use Rattle.bus_table.specs.Flaws as spec;

use bus_base::Sample::{self, Minus, Plus};

/// Why a word is bad.
#[derive(Clone, Copy, Debug, PartialEq, Eq)]
pub enum Flaw {
    /// It doesn't begin with a sync (MIL-STD-1553B 4.3.3.5.1.1, 4.3.3.5.2.1).
    Sync,
    /// The sign doesn't change in the middle of this bit time (4.3.3.2): 4 to 19 are the bits from the highest on, 20 the parity bit.
    Bit(u8),
    /// All is well but the number of ones, which is even (4.3.3.5.1.6).
    Parity,
    /// It ends after so many ticks, 1 to 39.
    Rest(u8),
}

/// A bad word: its first tick, and why it is bad.
#[derive(Clone, Copy, Debug, PartialEq, Eq)]
pub struct BadWord {
    /// The first tick.
    pub at: u64,
    /// Why it is bad.
    pub flaw: Flaw,
}

/// Why these samples of a slot are no word. Where they are one it says that the parity is wrong.
pub fn slot_flaw(samples: &[Sample; 40]) -> Flaw
    ensures { result ≡ spec.slot_flaw samples.now }
{
    flaw_in(samples)
}

fn flaw_in(samples: &[Sample]) -> Flaw
    requires { length samples.now ≤ 40 }
    ensures { result ≡ spec.slot_flaw samples.now }
{
    match samples {
        [Plus, Plus, Plus, Minus, Minus, Minus, bits @ ..] => bit_flaw(4, bits),
        [Minus, Minus, Minus, Plus, Plus, Plus, bits @ ..] => bit_flaw(4, bits),
        _ => Flaw::Sync,
    }
}

// The first of the bits that is none, from this bit time on.
fn bit_flaw(time: u8, bits: &[Sample]) -> Flaw
    requires { time + length bits.now ≤ 60 }
    ensures { result ≡ spec.bit_flaw time bits.now }
{
    match bits {
        [first, second, more @ ..] => {
            let bit = is_bit(*first, *second);
            let behind = bit_flaw(time + 1, more);
            flaw_if(bit, time, behind)
        }
        _ => Flaw::Parity,
    }
}

// What is behind a bit counts where it is one.
fn flaw_if(bit: bool, time: u8, behind: Flaw) -> Flaw
    ensures { result ≡ (if bit then behind else Flaw.Bit time) }
{
    if bit { behind } else { Flaw::Bit(time) }
}

fn is_bit(first: Sample, second: Sample) -> bool
    ensures { result ≡ spec.is_bit first second }
{
    matches!((first, second), (Plus, Minus) | (Minus, Plus))
}
