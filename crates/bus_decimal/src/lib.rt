//! Decimal numbers, read from texts.
//!
//! A number is digits alone, without a leading zero but for 0 itself; it is proved to be read as `specs/Decimal.antt` says.
#![tactic(auto)]

ghost use Rattle.std.specs.Prelude.{◌≡◌, ◌^◌, ◌<◌, true};
ghost use Rattle.bus_decimal.specs.Decimal as spec;

/// The number that a text spells in decimal digits, without a leading zero but for 0 itself; none for any other text, and for a number above `most`.
pub fn number_up_to(most: u64, text: &[u8]) -> Option<u64>
    requires { most < 2 ^ 60 }
    ensures { result ≡ spec.number_up_to most text.now }
{
    if !is_decimal(text) {
        return None;
    }
    value_up_to(most, text)
}

// Whether a text is a number in decimal digits.
fn is_decimal(text: &[u8]) -> bool
    ensures { result ≡ spec.is_decimal text.now }
{
    match text {
        [] => false,
        [only] => is_digit(*only),
        [first, ..] => *first != b'0' && are_digits(text),
    }
}

fn are_digits(text: &[u8]) -> bool
    ensures { result ≡ spec.are_digits text.now }
{
    for byte in text {
        if !is_digit(*byte) {
            return false;
        }
    }
    true
}

fn is_digit(byte: u8) -> bool
    ensures { result ≡ spec.is_digit byte }
{
    (b'0'..=b'9').contains(&byte)
}

// The value of these digits, if it isn't above `most`.
fn value_up_to(most: u64, digits: &[u8]) -> Option<u64>
    requires most { most < 2 ^ 60 }
    requires digits { spec.are_digits digits.now ≡ true }
    ensures { result ≡ spec.at_most most (spec.value_of digits.now) }
{
    let mut value = 0;
    for digit in digits {
        value = 10 * value + u64::from(digit - b'0');
        if value > most {
            return None;
        }
    }
    Some(value)
}

#[cfg(test)]
mod tests;
