//! The word that a slot spells, read of its bits (MIL-STD-1553B 4.3.3.2, 4.3.3.5, 4.4.1.1). It is judged by `Spells` and `word_in` of `bus_line`, as
//! `bus_line::read_slot` is.
ghost use Rattle.std.specs.Prelude.{IsTrue, ◌≡◌, ◌↔◌, ℕ, ◌+◌, ◌*◌, ◌<◌, List, MatchOption, get_or};
ghost use Rattle.bus_base.specs.declared.samples.Sample.{Sample};
ghost use Rattle.bus_base.specs.declared.samples.Sample.TheVariants.{Quiet};
ghost use Rattle.bus_words.specs.declared.word.Word.{Word};
ghost use Rattle.bus_words.specs.declared.word.Sync.{Sync};
ghost use Rattle.bus_line.specs.Spelling.{Spells, sync_sample, word_in, is_one, number_of};
ghost use Rattle.bus_planes.specs.Bits.{AreBits, ArePairs, shown};

use bus_words::{Sync, Word, parity};

// The bits of forty samples of which none is quiet.
const ALL_HEARD: u64 = 0xFF_FFFF_FFFF;

// The first halves of the pairs after the sync.
const PAIRS: u64 = 0x55_5555_5540;

// For each eight bits, which are four pairs, the number whose four bits are the first halves, that of the first pair the highest.
const FIRSTS_OF_FOUR: [u8; 256] = [
    0, 8, 0, 8, 4, 12, 4, 12, 0, 8, 0, 8, 4, 12, 4, 12, 2, 10, 2, 10, 6, 14, 6, 14, 2, 10, 2, 10,
    6, 14, 6, 14, 0, 8, 0, 8, 4, 12, 4, 12, 0, 8, 0, 8, 4, 12, 4, 12, 2, 10, 2, 10, 6, 14, 6, 14,
    2, 10, 2, 10, 6, 14, 6, 14, 1, 9, 1, 9, 5, 13, 5, 13, 1, 9, 1, 9, 5, 13, 5, 13, 3, 11, 3, 11,
    7, 15, 7, 15, 3, 11, 3, 11, 7, 15, 7, 15, 1, 9, 1, 9, 5, 13, 5, 13, 1, 9, 1, 9, 5, 13, 5, 13,
    3, 11, 3, 11, 7, 15, 7, 15, 3, 11, 3, 11, 7, 15, 7, 15, 0, 8, 0, 8, 4, 12, 4, 12, 0, 8, 0, 8,
    4, 12, 4, 12, 2, 10, 2, 10, 6, 14, 6, 14, 2, 10, 2, 10, 6, 14, 6, 14, 0, 8, 0, 8, 4, 12, 4, 12,
    0, 8, 0, 8, 4, 12, 4, 12, 2, 10, 2, 10, 6, 14, 6, 14, 2, 10, 2, 10, 6, 14, 6, 14, 1, 9, 1, 9,
    5, 13, 5, 13, 1, 9, 1, 9, 5, 13, 5, 13, 3, 11, 3, 11, 7, 15, 7, 15, 3, 11, 3, 11, 7, 15, 7, 15,
    1, 9, 1, 9, 5, 13, 5, 13, 1, 9, 1, 9, 5, 13, 5, 13, 3, 11, 3, 11, 7, 15, 7, 15, 3, 11, 3, 11,
    7, 15, 7, 15,
];

/// The word that forty samples spell, given as bits from the first sample on: those that weren't quiet, and those that were plus. None where
/// no word does: a wrong sync, a bit without its middle change of sign, a quiet sample or an even number of ones makes them invalid
/// (MIL-STD-1553B 4.4.1.1).
pub fn read_slot(heard: u64, plus: u64) -> Option<Word>
    ensures reads { (samples : List Sample) → AreBits heard plus samples →
        MatchOption result ((word : Word) → Spells word samples → ⊥) (λ word. Spells word samples) }
    ensures value { (samples : List Sample) → AreBits heard plus samples → result ≡ word_in samples }
{
    if heard == ALL_HEARD {
        read_shown(plus)
    } else {
        None
    }
}

// The word that forty samples spell, of which none is quiet.
#[inline(always)]
fn read_shown(plus: u64) -> Option<Word>
    ensures { MatchOption result ((word : Word) → Spells word (shown plus) → ⊥) (λ word. Spells word (shown plus)) }
{
    let sync = read_sync(plus)?;
    if are_pairs(plus) {
        read_word(plus, sync)
    } else {
        None
    }
}

// The word of this sync that forty samples spell, of which all pairs after the sync are bits.
#[inline(always)]
fn read_word(plus: u64, sync: Sync) -> Option<Word>
    requires sync { (p : ℕ) → p < 6 → get_or (shown plus) p Quiet ≡ sync_sample sync p }
    requires pairs { ArePairs plus }
    ensures { MatchOption result ((word : Word) → Spells word (shown plus) → ⊥) (λ word. Spells word (shown plus)) }
{
    let bits = firsts(plus);
    let further = (plus >> 38) % 2 == 1;
    if further == parity(bits) {
        Some(Word { sync, bits })
    } else {
        None
    }
}

// The sync that the first six samples show, if any.
#[inline(always)]
fn read_sync(plus: u64) -> Option<Sync>
    ensures { MatchOption result
        ((sync : Sync) → ((p : ℕ) → p < 6 → get_or (shown plus) p Quiet ≡ sync_sample sync p) → ⊥)
        (λ sync. (p : ℕ) → p < 6 → get_or (shown plus) p Quiet ≡ sync_sample sync p) }
{
    let first = plus % 64;
    if first == 0b000111 {
        Some(Sync::Command)
    } else if first == 0b111000 {
        Some(Sync::Datum)
    } else {
        None
    }
}

// Whether all seventeen pairs after the sync are bits. All at once, since a branch on each would be guessed wrong as often as not.
#[inline(always)]
fn are_pairs(plus: u64) -> bool
    ensures { IsTrue result ↔ ArePairs plus }
{
    (plus ^ plus >> 1) & PAIRS == PAIRS
}

// The number whose sixteen bits are the first halves of the pairs.
#[inline(always)]
fn firsts(plus: u64) -> u16
    ensures { result ≡ number_of (λ i. is_one plus (6 + 2 * i)) 16 }
{
    four_firsts(plus, 6) * 4096
        + four_firsts(plus, 14) * 256
        + four_firsts(plus, 22) * 16
        + four_firsts(plus, 30)
}

// The number whose four bits are the first halves of the four pairs from a sample on. It is looked up: the pairs are eight bits.
#[inline(always)]
fn four_firsts(plus: u64, place: u32) -> u16
    requires { place < 64 }
    ensures few { result < 16 }
    ensures value { result ≡ number_of (λ i. is_one plus (place + 2 * i)) 4 }
{
    FIRSTS_OF_FOUR[((plus >> place) % 256) as usize] as u16
}
