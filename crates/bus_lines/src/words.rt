//! What the words of the command line mean.
ghost use Rattle.std.specs.Prelude.{◌≡◌, ◌≤◌, ◌<◌, ◌^◌, map, string_bytes};
ghost use Rattle.bus_lines.specs.Words as spec;

use crate::reader::RecordingReader;
use bus_decimal::number_up_to;
use bus_recording::{Columns, RowReader, VcdReader, Wire, Wires};

// The most picoseconds from row to row: 2^59.
const MOST_STEP: u64 = 576_460_752_303_423_488;

// The highest column.
const MOST_COLUMN: u64 = 4_294_967_295;

// The most millivolts of a threshold, which are 2^59 picovolts.
const MOST_MILLIVOLTS: u64 = 576_460_752;

/// The reader that the words ask for, the program's name left out; none where they have no meaning.
pub fn reader_of(words: &[String]) -> Option<RecordingReader>
    ensures { result ≡ spec.meaning (map string_bytes words.now) }
{
    match words {
        [kind, first, second, rest @ ..] => with_rest(
            kind.as_str(),
            first.as_str(),
            second.as_str(),
            rest,
        ),
        _ => None,
    }
}

// The reader of three words and the rest of them.
fn with_rest(kind: &str, first: &str, second: &str, rest: &[String]) -> Option<RecordingReader>
    ensures { result ≡ spec.with_rest kind.now first.now second.now (map string_bytes rest.now) }
{
    match rest {
        [] => short(kind, first, second),
        [third] => middle(kind, first, second, third.as_str()),
        [third, fourth] => long(kind, first, second, third.as_str(), fourth.as_str()),
        [third, fourth, fifth] => longest(
            kind,
            first,
            second,
            third.as_str(),
            fourth.as_str(),
            fifth.as_str(),
        ),
        _ => None,
    }
}

fn short(kind: &str, first: &str, second: &str) -> Option<RecordingReader>
    ensures { result ≡ spec.short kind.now first.now second.now }
{
    if kind != "vcd" {
        return None;
    }
    dump(
        wire_named(first),
        wire_named(second),
        Some(Wire::unwanted()),
        Some(Wire::unwanted()),
    )
}

fn middle(kind: &str, first: &str, second: &str, third: &str) -> Option<RecordingReader>
    ensures { result ≡ spec.middle kind.now first.now second.now third.now }
{
    if kind == "logic" {
        return rows(
            true,
            clock(first),
            Some(0),
            column(second),
            column(third),
            Some(0),
            Some(0),
        );
    }
    if kind == "volts" {
        return rows(
            false,
            clock(first),
            threshold(second),
            column(third),
            Some(0),
            Some(0),
            Some(0),
        );
    }
    None
}

fn long(kind: &str, first: &str, second: &str, third: &str, fourth: &str) -> Option<RecordingReader>
    ensures { result ≡ spec.long kind.now first.now second.now third.now fourth.now }
{
    if kind == "vcd" {
        return dump(
            wire_named(first),
            wire_named(second),
            wire_named(third),
            wire_named(fourth),
        );
    }
    if kind == "volts" {
        return rows(
            false,
            clock(first),
            threshold(second),
            column(third),
            Some(0),
            column(fourth),
            Some(0),
        );
    }
    None
}

fn longest(
    kind: &str,
    first: &str,
    second: &str,
    third: &str,
    fourth: &str,
    fifth: &str,
) -> Option<RecordingReader>
    ensures { result ≡ spec.longest kind.now first.now second.now third.now fourth.now fifth.now }
{
    if kind != "logic" {
        return None;
    }
    rows(
        true,
        clock(first),
        Some(0),
        column(second),
        column(third),
        column(fourth),
        column(fifth),
    )
}

fn dump(
    a_plus: Option<Wire>,
    a_minus: Option<Wire>,
    b_plus: Option<Wire>,
    b_minus: Option<Wire>,
) -> Option<RecordingReader>
    ensures { result ≡ spec.dump a_plus a_minus b_plus b_minus }
{
    let wires = Wires {
        a_plus: a_plus?,
        a_minus: a_minus?,
        b_plus: b_plus?,
        b_minus: b_minus?,
    };
    Some(RecordingReader::Vcd(VcdReader::new(wires)))
}

fn rows(
    is_logic: bool,
    step: Option<u64>,
    threshold: Option<u64>,
    a_plus: Option<u32>,
    a_minus: Option<u32>,
    b_plus: Option<u32>,
    b_minus: Option<u32>,
) -> Option<RecordingReader>
    ensures { result ≡ spec.rows is_logic step threshold a_plus a_minus b_plus b_minus }
{
    let columns = Columns {
        is_logic,
        step: step?,
        threshold: threshold?,
        a_plus: a_plus?,
        a_minus: a_minus?,
        b_plus: b_plus?,
        b_minus: b_minus?,
    };
    Some(RecordingReader::Rows(RowReader::new(columns)))
}

// The line of a name of 1 to 64 bytes.
fn wire_named(name: &str) -> Option<Wire>
    ensures { result ≡ spec.wire_of name.now }
{
    let name = name.as_bytes();
    if name.is_empty() || name.len() > 64 {
        return None;
    }
    Some(Wire::named(name))
}

// A number from 1 on.
fn positive(most: u64, word: &str) -> Option<u64>
    requires { most < 2 ^ 60 }
    ensures { result ≡ spec.positive most word.now }
{
    match number_up_to(most, word.as_bytes()) {
        Some(0) | None => None,
        Some(number) => Some(number),
    }
}

// The picoseconds from row to row; 0 where each row says its time.
fn clock(word: &str) -> Option<u64>
    ensures { result ≡ spec.clock word.now }
{
    if word == "time" {
        return Some(0);
    }
    positive(MOST_STEP, word)
}

fn column(word: &str) -> Option<u32>
    ensures { result ≡ spec.column word.now }
{
    match positive(MOST_COLUMN, word) {
        None => None,
        Some(number) => Some(number.min(MOST_COLUMN) as u32),
    }
}

// A threshold in millivolts, as picovolts.
fn threshold(word: &str) -> Option<u64>
    ensures { result ≡ spec.threshold word.now }
{
    match number_up_to(MOST_MILLIVOLTS, word.as_bytes()) {
        None => None,
        Some(number) => Some(number.min(MOST_MILLIVOLTS) * 1_000_000_000),
    }
}
