//! The fields of a row, and what they mean.
ghost use Rattle.std.specs.Prelude.{◌≡◌};
ghost use Rattle.bus_recording.specs.Rows as spec;

use crate::number::Number;
use crate::wires::level_of;
use bus_base::{Pair, Sample};

// One, in parts of 10^-12.
const ONE: u64 = 1_000_000_000_000;

// Times are counted from this one, 2^60, so that those before a trigger are numbers too.
const ORIGIN: u64 = 1_152_921_504_606_846_976;

// A row that isn't begun.
pub(crate) const NO_FIELDS: Fields = Fields {
    time: None,
    a_plus: None,
    a_minus: None,
    b_plus: None,
    b_minus: None,
};

/// What the columns of a recording mean, counted from 1; 0 is none.
#[derive(Clone, Copy, Debug)]
pub struct Columns {
    /// Whether columns are lines, 0 or 1, and not volts.
    pub is_logic: bool,
    /// The picoseconds from row to row; 0 where column 1 is the time in seconds.
    pub step: u64,
    /// The threshold in picovolts, where columns are volts.
    pub threshold: u64,
    /// Channel A's first line, or its volts.
    pub a_plus: u32,
    /// Channel A's second line.
    pub a_minus: u32,
    /// Channel B's first line, or its volts.
    pub b_plus: u32,
    /// Channel B's second line.
    pub b_minus: u32,
}

/// The fields of a row, as far as they are numbers that are wanted.
#[derive(Clone, Copy, Debug)]
pub struct Fields {
    /// The time in picoseconds, counted from 2^60.
    pub time: Option<u64>,
    /// Channel A's first line, or its level.
    pub a_plus: Option<Sample>,
    /// Channel A's second line.
    pub a_minus: Option<Sample>,
    /// Channel B's first line, or its level.
    pub b_plus: Option<Sample>,
    /// Channel B's second line.
    pub b_minus: Option<Sample>,
}

// The time that a number says in seconds.
pub(crate) fn time_of(number: &Number) -> Option<u64>
    ensures { result ≡ spec.time_of number.now }
{
    match number.size() {
        None => None,
        Some(size) if number.is_negative => Some(ORIGIN.saturating_sub(size)),
        Some(size) => Some(ORIGIN.saturating_add(size)),
    }
}

// The level that a voltage shows.
pub(crate) fn volts(threshold: u64, is_negative: bool, size: Option<u64>) -> Option<Sample>
    ensures { result ≡ spec.volts_by threshold is_negative size }
{
    match size {
        None => None,
        Some(size) if threshold < size => Some(sign_of(is_negative)),
        Some(_) => Some(Sample::Quiet),
    }
}

fn sign_of(is_negative: bool) -> Sample
    ensures { result ≡ spec.sign_of is_negative }
{
    if is_negative {
        Sample::Minus
    } else {
        Sample::Plus
    }
}

// A line that is on is shown as plus.
pub(crate) fn logic(size: Option<u64>) -> Option<Sample>
    ensures { result ≡ spec.logic_by size }
{
    match size {
        Some(0) => Some(Sample::Quiet),
        Some(ONE) => Some(Sample::Plus),
        _ => None,
    }
}

fn has_level(column: u32, level: Option<Sample>) -> bool
    ensures { result ≡ spec.has_level column level }
{
    column == 0 || level.is_some()
}

// Whether the fields of a row are the numbers that are wanted.
pub(crate) fn is_row(columns: &Columns, fields: &Fields) -> bool
    ensures { result ≡ spec.is_row columns.now fields.now }
{
    (columns.step != 0 || fields.time.is_some())
        && (has_level(columns.a_plus, fields.a_plus)
            && (has_level(columns.a_minus, fields.a_minus)
                && (has_level(columns.b_plus, fields.b_plus)
                    && has_level(columns.b_minus, fields.b_minus))))
}

fn is_plus(level: Option<Sample>) -> bool
    ensures { result ≡ spec.is_plus level }
{
    matches!(level, Some(Sample::Plus))
}

fn sample_or_quiet(level: Option<Sample>) -> Sample
    ensures { result ≡ spec.sample_by level }
{
    level.unwrap_or(Sample::Quiet)
}

// What the channels show in a row.
pub(crate) fn pair_in(columns: &Columns, fields: &Fields) -> Pair
    ensures { result ≡ spec.pair_in columns.now fields.now }
{
    if columns.is_logic {
        Pair {
            a: level_of(is_plus(fields.a_plus), is_plus(fields.a_minus)),
            b: level_of(is_plus(fields.b_plus), is_plus(fields.b_minus)),
        }
    } else {
        Pair {
            a: sample_or_quiet(fields.a_plus),
            b: sample_or_quiet(fields.b_plus),
        }
    }
}
