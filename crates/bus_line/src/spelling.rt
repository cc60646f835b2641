//! Words and the forty samples that spell them (MIL-STD-1553B 4.3.3.2, 4.3.3.5, 4.4.1.1).
//!
//! A spelling is judged by `Spells`, a relation over positions: the sync, the sixteen bits from the highest down, and a parity bit
//! that makes the number of ones odd. `read_slot` goes over the samples once and doesn't spell the word that it finds.

ghost use Rattle.std.specs.Prelude.{◌≡◌, ◌≢◌, ◌↔◌, ℕ, ◌+◌, ◌-◌, ◌*◌, ◌<◌, Bool, List, Some, None, MatchOption, length, get_or};
ghost use Rattle.bus_base.specs.declared.samples.Sample.{Sample};
ghost use Rattle.bus_base.specs.declared.samples.Sample.TheVariants.{Quiet};
ghost use Rattle.bus_words.specs.declared.word.Word.{Word};
ghost use Rattle.bus_words.specs.declared.word.Sync.{Sync};
ghost use Rattle.bus_line.specs.Spelling.{Spells, SpellsBit, first_half, sync_sample, sent_bit, spelled, spelling, word_in, is_one};

use bus_base::Sample::{self, Minus, Plus, Quiet};
use bus_words::{Sync, Word, parity};

/// The spelling of a word: forty samples of half a bit time each, the sync first (MIL-STD-1553B 4.3.3.5).
pub fn spell(word: Word) -> [Sample; 40]
    ensures spells { Spells word result }
    ensures only { (samples : List Sample) → Spells word samples → samples ≡ result }
    ensures value { result ≡ spelling word }
{
    let mut samples = [Quiet; 40];
    for position in 0..samples.len() {
        samples[position] = sample_at(word, position);
    }
    samples
}

/// The word that forty samples spell, or none where no word does: a wrong sync, a bit without its middle change of sign, a quiet
/// sample or an even number of ones makes them invalid (MIL-STD-1553B 4.4.1.1).
pub fn read_slot(samples: &[Sample; 40]) -> Option<Word>
    ensures reads { MatchOption result ((word : Word) → Spells word samples.now → ⊥) (λ word. Spells word samples.now) }
    ensures value { result ≡ word_in samples.now }
{
    let sync = read_sync(samples)?;
    let bits = read_bits(samples)?;
    let further = read_bit(samples, 38)?;
    if further == parity(bits) {
        Some(Word { sync, bits })
    } else {
        None
    }
}

/// The sample at a position of a word's spelling, 0 to 39, without making the others (MIL-STD-1553B 4.3.3.5).
pub fn sample_of(word: Word, position: usize) -> Sample
    requires { position < 40 }
    ensures { result ≡ get_or (spelling word) position Quiet }
{
    sample_at(word, position)
}

#[tactic(auto, unfolding(crate::specs::Spelling::spelled))]
fn sample_at(word: Word, position: usize) -> Sample
    requires { position < 40 }
    ensures { result ≡ spelled word position }
{
    if position < 6 {
        let leads = matches!(word.sync, Sync::Command);
        return if position < 3 {
            half(leads)
        } else {
            half(!leads)
        };
    }
    let one = bit_sent(word, (position - 6) / 2);
    if position % 2 == 0 {
        half(one)
    } else {
        half(!one)
    }
}

fn half(plus: bool) -> Sample
    ensures { result ≡ first_half plus }
{
    if plus { Plus } else { Minus }
}

// The bit at a place of what is sent, from the highest bit to the parity bit.
#[tactic(auto, unfolding(crate::specs::Spelling::sent_bit))]
fn bit_sent(word: Word, place: usize) -> bool
    ensures { result ≡ sent_bit word place }
{
    if place < 16 {
        word.bits >> (15 - place) & 1 == 1
    } else {
        parity(word.bits)
    }
}

// The sync that the first six samples show, if any.
fn read_sync(samples: &[Sample; 40]) -> Option<Sync>
    ensures { MatchOption result
        ((sync : Sync) → ((p : ℕ) → p < 6 → get_or samples.now p Quiet ≡ sync_sample sync p) → ⊥)
        (λ sync. (p : ℕ) → p < 6 → get_or samples.now p Quiet ≡ sync_sample sync p) }
{
    match samples {
        [Plus, Plus, Plus, Minus, Minus, Minus, ..] => Some(Sync::Command),
        [Minus, Minus, Minus, Plus, Plus, Plus, ..] => Some(Sync::Datum),
        _ => None,
    }
}

// The number whose sixteen bits the samples after the sync spell, if all of them are bits.
fn read_bits(samples: &[Sample; 40]) -> Option<u16>
    ensures { MatchOption result
        ((bits : ℕ) → ((i : ℕ) → i < 16 → SpellsBit samples.now (6 + 2 * i) (is_one bits (15 - i))) → ⊥)
        (λ bits. (i : ℕ) → i < 16 → SpellsBit samples.now (6 + 2 * i) (is_one bits (15 - i))) }
{
    let mut bits = 0u16;
    for place in 0..16usize {
        let one = read_bit(samples, 6 + 2 * place)?;
        bits = bits * 2 + u16::from(one);
    }
    Some(bits)
}

// The bit that two samples spell, if any.
fn read_bit(samples: &[Sample; 40], position: usize) -> Option<bool>
    requires { position < 39 }
    ensures { MatchOption result
        ((one : Bool) → SpellsBit samples.now position one → ⊥)
        (λ one. SpellsBit samples.now position one) }
{
    match (samples[position], samples[position + 1]) {
        (Plus, Minus) => Some(true),
        (Minus, Plus) => Some(false),
        _ => None,
    }
}

/// What `word_in` finds is the word that the samples spell, and it finds nothing exactly where no word does.
pub fn word_in_is_the_word_spelled()
    ensures some { (samples : List Sample) (word : Word) → (word_in samples ≡ Some word) ↔ Spells word samples }
    ensures none { (samples : List Sample) → (word_in samples ≡ None) ↔ ((word : Word) → Spells word samples → ⊥) }
{}

/// A word's spelling has forty samples, none of them quiet, and gives the word back.
pub fn spelling_is_read_back()
    ensures forty { (word : Word) → length (spelling word) ≡ 40 }
    ensures heard { (word : Word) (p : ℕ) → p < 40 → get_or (spelling word) p Quiet ≢ Quiet }
    ensures back { (word : Word) → word.bits < 65536 → word_in (spelling word) ≡ Some word }
{}

#[cfg(test)]
mod tests {
    use super::*;

    fn sign_of(sample: Sample) -> u8 {
        match sample {
            Plus => b'+',
            Minus => b'-',
            Quiet => b'.',
        }
    }

    // A command word for terminal 5 with parity 1, one with parity 0, and a data word.
    #[test]
    fn worked_spellings_both_ways(rt: HostRuntime) {
        for (sync, bits, signs) in [
            (
                Sync::Command,
                0x2822,
                b"+++----+-++--++--+-+-+-+-++--+-+-++--++-",
            ),
            (
                Sync::Command,
                0x2C21,
                b"+++----+-++--++-+--+-+-+-++--+-+-+-++--+",
            ),
            (
                Sync::Datum,
                0x0000,
                b"---+++-+-+-+-+-+-+-+-+-+-+-+-+-+-+-+-++-",
            ),
        ] {
            let word = Word { sync, bits };
            let spelled = spell(word);
            for position in 0..40usize {
                assert_eq!(rt;
                    sign_of(spelled[position]),
                    signs[position],
                    "sample {position} of {bits}"
                );
            }
            assert_eq!(rt; read_slot(&spelled), Some(word));
        }
    }

    // An even number of ones; a wrong last sample of the sync; a bit without a change in its middle; a quiet sample.
    #[test]
    fn wrong_samples_are_no_word(rt: HostRuntime) {
        let whole = spell(Word {
            sync: Sync::Command,
            bits: 0x2822,
        });
        let mut even = whole;
        even[38] = Minus;
        even[39] = Plus;
        assert_eq!(rt; read_slot(&even), None);
        for (position, sample) in [(5usize, Plus), (6, Plus), (39, Quiet)] {
            let mut wrong = whole;
            wrong[position] = sample;
            assert_eq!(rt; read_slot(&wrong), None);
        }
    }
}
