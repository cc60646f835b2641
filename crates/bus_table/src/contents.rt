//! The fields of a message's data words, and of its first bad word.
ghost use Rattle.std.specs.Prelude.{◌≡◌, ◌≤◌, ◌++◌, length, Some, None, codes};
ghost use Rattle.bus_monitor.specs.Models.{came_of};
ghost use Rattle.bus_table.specs.Fields.{name_field as spec_name_field};
ghost use Rattle.bus_table.specs.Rows.{
  state_of,
  data_of,
  answered_data as data_answered,
  mode_data as data_of_mode,
};
ghost use Rattle.bus_table.specs.Texts as spec;
ghost use Rattle.bus_text.specs.Texts.{number};

use crate::fields::{name_field, no_name_field, number_field, numbered_name_field, words_field};
use crate::kinds::first_was_good;
use crate::notes::Notes;
use crate::{BadWord, Flaw, Format};
use bus_formats::{Kind, Outcome};
use bus_monitor::Ended;
use bus_text::Line;

// Its data words.
pub(crate) fn data_fields(format: Format, came: &Option<Ended>, notes: &Notes) -> Line
    ensures text { result ≡ spec.data_text format (spec.data_in (state_of (came_of came.now)) notes.now.words) }
    ensures grows { length result ≤ 260 }
{
    match came {
        Some(ended) => known_data(format, &ended.kind, ended.outcome, notes.words.words()),
        None => data(format, &[]),
    }
}

fn known_data(format: Format, kind: &Kind, outcome: Outcome, answer: &[u16]) -> Line
    requires { length answer.now ≤ 32 }
    ensures text { result ≡ spec.data_text format (data_of kind.now outcome answer.now) }
    ensures grows { length result ≤ 260 }
{
    match kind {
        Kind::Receive { words, .. } => data(format, words.words()),
        Kind::Transmit { .. } => answered_data(format, outcome, answer),
        Kind::Relay { .. } => answered_data(format, outcome, answer),
        Kind::Mode { word, .. } => mode_data(format, *word, outcome, answer),
    }
}

fn mode_data(format: Format, word: Option<u16>, outcome: Outcome, answer: &[u16]) -> Line
    requires { length answer.now ≤ 32 }
    ensures text { result ≡ spec.data_text format (data_of_mode word outcome answer.now) }
    ensures grows { length result ≤ 260 }
{
    match word {
        Some(word) => data(format, &[word]),
        None => answered_data(format, outcome, answer),
    }
}

fn answered_data(format: Format, outcome: Outcome, answer: &[u16]) -> Line
    requires { length answer.now ≤ 32 }
    ensures text { result ≡ spec.data_text format (data_answered outcome answer.now) }
    ensures grows { length result ≤ 260 }
{
    if first_was_good(outcome) {
        data(format, answer)
    } else {
        data(format, &[])
    }
}

pub(crate) fn data(format: Format, words: &[u16]) -> Line
    requires { length words.now ≤ 32 }
    ensures text { result ≡ spec.data_text format words.now }
    ensures grows { length result ≤ 260 }
{
    let mut line = Line::new();
    words_field(&mut line, format, "data", words);
    line
}

// Its first bad word, and the end of the row.
pub(crate) fn last_fields(format: Format, bad: Option<BadWord>) -> Line
    ensures text { result ≡ spec.bad_text format bad ++ spec.row_end format }
    ensures grows { length result ≤ 110 }
{
    let mut line = bad_fields(format, bad);
    match format {
        Format::Csv => line.text("\n"),
        Format::Json => line.text("}\n"),
    }
    line
}

fn bad_fields(format: Format, bad: Option<BadWord>) -> Line
    ensures text { result ≡ spec.bad_text format bad }
    ensures grows { length result ≤ 100 }
{
    match bad {
        Some(bad) => flaw_fields(format, bad),
        None => no_flaw_fields(format),
    }
}

fn no_flaw_fields(format: Format) -> Line
    ensures text { result ≡ spec.bad_text format None }
    ensures grows { length result ≤ 100 }
{
    let mut line = Line::new();
    no_name_field(&mut line, format, "bad");
    number_field(&mut line, format, "bad_at", None);
    line
}

fn flaw_fields(format: Format, bad: BadWord) -> Line
    ensures text { result ≡ spec.bad_text format (Some bad) }
    ensures grows { length result ≤ 100 }
{
    let mut line = flaw_field(format, bad.flaw);
    number_field(&mut line, format, "bad_at", Some(bad.at));
    line
}

fn flaw_field(format: Format, flaw: Flaw) -> Line
    ensures text { result ≡ spec_name_field format (codes "bad") (Some (spec.flaw_name flaw)) }
    ensures grows { length result ≤ 52 }
{
    match flaw {
        Flaw::Sync => bad_field(format, "sync"),
        Flaw::Bit(time) => numbered_field(format, "bit", time),
        Flaw::Parity => bad_field(format, "parity"),
        Flaw::Rest(ticks) => numbered_field(format, "rest", ticks),
    }
}

fn bad_field(format: Format, name: &str) -> Line
    requires { length name.now ≤ 20 }
    ensures text { result ≡ spec_name_field format (codes "bad") (Some name.now) }
    ensures grows { length result ≤ 40 }
{
    let mut line = Line::new();
    name_field(&mut line, format, "bad", name);
    line
}

fn numbered_field(format: Format, name: &str, n: u8) -> Line
    requires { length name.now ≤ 10 }
    ensures text { result ≡ spec_name_field format (codes "bad") (Some (name.now ++ number n)) }
    ensures grows { length result ≤ 52 }
{
    let mut line = Line::new();
    numbered_name_field(&mut line, format, "bad", name, n);
    line
}
