//! The fields of a row in both formats, each added to a line.
ghost use Rattle.std.specs.Prelude.{◌≡◌, ◌+◌, ◌*◌, ◌≤◌, ◌++◌, length, decimal, option_to_list, Some, None};
ghost use Rattle.bus_table.specs.Fields as spec;
ghost use Rattle.bus_text.specs.Texts.{number};

use crate::Format;
use bus_text::Line;

// What stands before a value.
fn label(line: &mut Line, format: Format, name: &str)
    requires room { length line.old + 20 ≤ 600 }
    requires name { length name.now ≤ 12 }
    ensures text { line.new ≡ line.old ++ spec.label format name.now }
    ensures grows { length line.new ≤ length line.old + 16 }
{
    match format {
        Format::Csv => line.text(","),
        Format::Json => json_label(line, name),
    }
}

fn json_label(line: &mut Line, name: &str)
    requires room { length line.old + 20 ≤ 600 }
    requires name { length name.now ≤ 12 }
    ensures text { line.new ≡ line.old ++ spec.label Format.Json name.now }
    ensures grows { length line.new ≤ length line.old + 16 }
{
    line.text(",\"");
    line.text(name);
    line.text("\":");
}

fn absent(line: &mut Line, format: Format)
    requires { length line.old + 4 ≤ 600 }
    ensures text { line.new ≡ line.old ++ spec.absent format }
    ensures grows { length line.new ≤ length line.old + 4 }
{
    match format {
        Format::Csv => {}
        Format::Json => line.text("null"),
    }
}

fn quote(line: &mut Line, format: Format)
    requires { length line.old + 1 ≤ 600 }
    ensures text { line.new ≡ line.old ++ spec.quote format }
    ensures grows { length line.new ≤ length line.old + 1 }
{
    match format {
        Format::Csv => {}
        Format::Json => line.text("\""),
    }
}

fn open_list(line: &mut Line, format: Format)
    requires { length line.old + 1 ≤ 600 }
    ensures text { line.new ≡ line.old ++ spec.opening format }
    ensures grows { length line.new ≤ length line.old + 1 }
{
    match format {
        Format::Csv => {}
        Format::Json => line.text("["),
    }
}

fn close_list(line: &mut Line, format: Format)
    requires { length line.old + 1 ≤ 600 }
    ensures text { line.new ≡ line.old ++ spec.closing format }
    ensures grows { length line.new ≤ length line.old + 1 }
{
    match format {
        Format::Csv => {}
        Format::Json => line.text("]"),
    }
}

fn separate(line: &mut Line, format: Format)
    requires { length line.old + 1 ≤ 600 }
    ensures text { line.new ≡ line.old ++ spec.separator format }
    ensures grows { length line.new ≤ length line.old + 1 }
{
    match format {
        Format::Csv => line.text(" "),
        Format::Json => line.text(","),
    }
}

fn number_value(line: &mut Line, format: Format, n: Option<u64>)
    requires { length line.old + 20 ≤ 600 }
    ensures text { line.new ≡ line.old ++ spec.number_value format n }
    ensures grows { length line.new ≤ length line.old + 20 }
{
    match n {
        Some(n) => line.decimal(n),
        None => absent(line, format),
    }
}

/// Adds a number's field.
pub(crate) fn number_field(line: &mut Line, format: Format, name: &str, n: Option<u64>)
    requires room { length line.old + 40 ≤ 600 }
    requires name { length name.now ≤ 12 }
    ensures text { line.new ≡ line.old ++ spec.number_field format name.now n }
    ensures grows { length line.new ≤ length line.old + 40 }
{
    label(line, format, name);
    number_value(line, format, n);
}

fn name_value(line: &mut Line, format: Format, value: &str)
    requires room { length line.old + 24 ≤ 600 }
    requires value { length value.now ≤ 20 }
    ensures text { line.new ≡ line.old ++ spec.name_value format value.now }
    ensures grows { length line.new ≤ length line.old + 24 }
{
    quote(line, format);
    line.text(value);
    quote(line, format);
}

/// Adds a name's field.
pub(crate) fn name_field(line: &mut Line, format: Format, name: &str, value: &str)
    requires room { length line.old + 40 ≤ 600 }
    requires name { length name.now ≤ 12 }
    requires value { length value.now ≤ 20 }
    ensures text { line.new ≡ line.old ++ spec.name_field format name.now (Some value.now) }
    ensures grows { length line.new ≤ length line.old + 40 }
{
    label(line, format, name);
    name_value(line, format, value);
}

/// Adds the field of a name that isn't there.
pub(crate) fn no_name_field(line: &mut Line, format: Format, name: &str)
    requires room { length line.old + 40 ≤ 600 }
    requires name { length name.now ≤ 12 }
    ensures text { line.new ≡ line.old ++ spec.name_field format name.now None }
    ensures grows { length line.new ≤ length line.old + 40 }
{
    label(line, format, name);
    absent(line, format);
}

/// Adds the field of half a number, with one decimal.
pub(crate) fn half_field(line: &mut Line, format: Format, name: &str, n: u64)
    requires room { length line.old + 40 ≤ 600 }
    requires name { length name.now ≤ 12 }
    ensures text { line.new ≡ line.old ++ (spec.label format name.now ++ spec.half_value n) }
    ensures grows { length line.new ≤ length line.old + 40 }
{
    label(line, format, name);
    half_value(line, n);
}

fn half_value(line: &mut Line, n: u64)
    requires { length line.old + 22 ≤ 600 }
    ensures text { line.new ≡ line.old ++ spec.half_value n }
    ensures grows { length line.new ≤ length line.old + 22 }
{
    line.decimal(n / 2);
    if n % 2 == 0 {
        line.text(".0");
    } else {
        line.text(".5");
    }
}

fn word_value(line: &mut Line, format: Format, word: u16)
    requires { length line.old + 6 ≤ 600 }
    ensures text { line.new ≡ line.old ++ spec.word_value format word }
    ensures grows { length line.new ≤ length line.old + 6 }
{
    quote(line, format);
    line.hex(word);
    quote(line, format);
}

fn further_word(line: &mut Line, format: Format, word: u16)
    requires { length line.old + 7 ≤ 600 }
    ensures text { line.new ≡ line.old ++ (spec.separator format ++ spec.word_value format word) }
    ensures grows { length line.new ≤ length line.old + 7 }
{
    separate(line, format);
    word_value(line, format, word);
}

fn further_words(line: &mut Line, format: Format, words: &[u16])
    requires { length line.old + 7 * length words.now ≤ 600 }
    ensures text { line.new ≡ line.old ++ spec.further_words format words.now }
    ensures grows { length line.new ≤ length line.old + 7 * length words.now }
{
    for word in words {
        further_word(line, format, *word);
    }
}

fn words_in(line: &mut Line, format: Format, words: &[u16])
    requires { length line.old + 7 * length words.now ≤ 600 }
    ensures text { line.new ≡ line.old ++ spec.words_in format words.now }
    ensures grows { length line.new ≤ length line.old + 7 * length words.now }
{
    match words {
        [] => {}
        [word, further @ ..] => some_words(line, format, *word, further),
    }
}

fn some_words(line: &mut Line, format: Format, word: u16, further: &[u16])
    requires { length line.old + 7 + 7 * length further.now ≤ 600 }
    ensures text { line.new ≡ line.old ++ (spec.word_value format word ++ spec.further_words format further.now) }
    ensures grows { length line.new ≤ length line.old + 7 + 7 * length further.now }
{
    word_value(line, format, word);
    further_words(line, format, further);
}

fn words_value(line: &mut Line, format: Format, words: &[u16])
    requires { length line.old + 2 + 7 * length words.now ≤ 600 }
    ensures text { line.new ≡ line.old ++ spec.words_value format words.now }
    ensures grows { length line.new ≤ length line.old + 2 + 7 * length words.now }
{
    open_list(line, format);
    words_in(line, format, words);
    close_list(line, format);
}

/// Adds the field of a list of words.
pub(crate) fn words_field(line: &mut Line, format: Format, name: &str, words: &[u16])
    requires room { length line.old + 20 + 7 * length words.now ≤ 600 }
    requires name { length name.now ≤ 12 }
    ensures text { line.new ≡ line.old ++ spec.words_field format name.now words.now }
    ensures grows { length line.new ≤ length line.old + 20 + 7 * length words.now }
{
    label(line, format, name);
    words_value(line, format, words);
}

fn two_numbers(line: &mut Line, format: Format, first: u64, second: u64)
    requires { length line.old + 41 ≤ 600 }
    ensures text { line.new ≡ line.old ++ (decimal first ++ spec.separator format ++ decimal second) }
    ensures grows { length line.new ≤ length line.old + 41 }
{
    line.decimal(first);
    separate(line, format);
    line.decimal(second);
}

fn numbers_in(line: &mut Line, format: Format, first: Option<u64>, second: Option<u64>)
    requires { length line.old + 41 ≤ 600 }
    ensures text { line.new ≡ line.old ++ spec.numbers_in format (option_to_list first ++ option_to_list second) }
    ensures grows { length line.new ≤ length line.old + 41 }
{
    match first {
        Some(first) => match second {
            Some(second) => two_numbers(line, format, first, second),
            None => line.decimal(first),
        },
        None => match second {
            Some(second) => line.decimal(second),
            None => {}
        },
    }
}

fn numbers_value(line: &mut Line, format: Format, first: Option<u64>, second: Option<u64>)
    requires { length line.old + 43 ≤ 600 }
    ensures text { line.new ≡ line.old ++ spec.numbers_value format (option_to_list first ++ option_to_list second) }
    ensures grows { length line.new ≤ length line.old + 43 }
{
    open_list(line, format);
    numbers_in(line, format, first, second);
    close_list(line, format);
}

/// Adds the field of a list of at most two numbers.
pub(crate) fn numbers_field(
    line: &mut Line,
    format: Format,
    name: &str,
    first: Option<u64>,
    second: Option<u64>,
)
    requires room { length line.old + 60 ≤ 600 }
    requires name { length name.now ≤ 12 }
    ensures text { line.new ≡ line.old ++ spec.numbers_field format name.now (option_to_list first ++ option_to_list second) }
    ensures grows { length line.new ≤ length line.old + 60 }
{
    label(line, format, name);
    numbers_value(line, format, first, second);
}

fn numbered_name_value(line: &mut Line, format: Format, value: &str, n: u8)
    requires room { length line.old + 34 ≤ 600 }
    requires value { length value.now ≤ 10 }
    ensures text { line.new ≡ line.old ++ spec.name_value format (value.now ++ number n) }
    ensures grows { length line.new ≤ length line.old + 34 }
{
    quote(line, format);
    line.text(value);
    line.number(u64::from(n));
    quote(line, format);
}

/// Adds the field of a name with a number behind it.
pub(crate) fn numbered_name_field(line: &mut Line, format: Format, name: &str, value: &str, n: u8)
    requires room { length line.old + 52 ≤ 600 }
    requires name { length name.now ≤ 12 }
    requires value { length value.now ≤ 10 }
    ensures text { line.new ≡ line.old ++ spec.name_field format name.now (Some (value.now ++ number n)) }
    ensures grows { length line.new ≤ length line.old + 52 }
{
    label(line, format, name);
    numbered_name_value(line, format, value, n);
}
