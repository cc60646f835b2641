//! What both channels show as one number.
ghost use Rattle.std.specs.Prelude.{◌≡◌, ◌<◌};
ghost use Rattle.bus_wave.specs.Levels.{sample_code, sample_of, code_of, shown_in};

use bus_base::{Pair, Sample};

/// What both channels show as a number below 16.
#[inline(always)]
pub(crate) fn code_of(shown: Pair) -> u8
    ensures code { result ≡ code_of shown }
    ensures few { result < 16 }
{
    sample_code(shown.a) + 4 * sample_code(shown.b)
}

/// What both channels show by a number.
#[inline(always)]
pub(crate) fn shown_in(code: u8) -> Pair
    ensures { result ≡ shown_in code }
{
    Pair {
        a: sample_of(code % 4),
        b: sample_of(code / 4 % 4),
    }
}

#[inline(always)]
fn sample_code(sample: Sample) -> u8
    ensures code { result ≡ sample_code sample }
    ensures few { result < 3 }
{
    match sample {
        Sample::Plus => 0,
        Sample::Minus => 1,
        Sample::Quiet => 2,
    }
}

#[inline(always)]
fn sample_of(code: u8) -> Sample
    ensures { result ≡ sample_of code }
{
    match code {
        0 => Sample::Plus,
        1 => Sample::Minus,
        _ => Sample::Quiet,
    }
}
