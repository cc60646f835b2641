//! The fields of what a message was, how it ended, and how long it took.
ghost use Rattle.std.specs.Prelude.{◌≡◌, ◌≤◌, ◌++◌, length, option_to_list, Some};
ghost use Rattle.bus_formats.specs.Accepted.{HasKindRanges};
ghost use Rattle.bus_monitor.specs.Models.{came_of};
ghost use Rattle.bus_table.specs.Exchanges.{last_end};
ghost use Rattle.bus_table.specs.Rows.{
  state_of,
  responses_of,
  outcome_name as spec_outcome_name,
  deciding as spec_deciding,
};
ghost use Rattle.bus_table.specs.Texts as spec;

use crate::Format;
use crate::fields::{name_field, no_name_field, number_field, numbers_field, words_field};
use crate::kinds::{
    address, code_of, count_of, deciding, form_name, outcome_name, source, source_sub, subaddress,
};
use crate::notes::Notes;
use bus_formats::{Kind, Outcome, first_command, second_command};
use bus_monitor::{Closed, Ended};
use bus_text::Line;
use bus_words::Status;

// What the message is.
pub(crate) fn kind_fields(format: Format, came: &Option<Ended>) -> Line
    ensures text { result ≡ spec.kind_text format (state_of (came_of came.now)) }
    ensures grows { length result ≤ 280 }
{
    match came {
        Some(ended) => known_fields(format, &ended.kind),
        None => unknown_fields(format),
    }
}

fn known_fields(format: Format, kind: &Kind) -> Line
    requires { HasKindRanges kind.now }
    ensures text { result ≡ spec.known_text format kind.now }
    ensures grows { length result ≤ 280 }
{
    let mut line = Line::new();
    name_field(&mut line, format, "form", form_name(kind));
    number_field(&mut line, format, "rt", Some(u64::from(address(kind))));
    number_field(&mut line, format, "sub", Some(u64::from(subaddress(kind))));
    number_field(&mut line, format, "count", count_of(kind));
    number_field(&mut line, format, "code", code_of(kind));
    number_field(&mut line, format, "from", source(kind));
    number_field(&mut line, format, "from_sub", source_sub(kind));
    line
}

pub(crate) fn unknown_fields(format: Format) -> Line
    ensures text { result ≡ spec.unknown_text format }
    ensures grows { length result ≤ 280 }
{
    let mut line = Line::new();
    no_name_field(&mut line, format, "form");
    number_field(&mut line, format, "rt", None);
    number_field(&mut line, format, "sub", None);
    number_field(&mut line, format, "count", None);
    number_field(&mut line, format, "code", None);
    number_field(&mut line, format, "from", None);
    number_field(&mut line, format, "from_sub", None);
    line
}

// How it ended.
pub(crate) fn state_fields(format: Format, came: &Option<Ended>) -> Line
    ensures text { result ≡ spec.state_text format (state_of (came_of came.now)) }
    ensures grows { length result ≤ 160 }
{
    match came {
        Some(ended) => ended_fields(format, ended),
        None => ending(format, &[], "unknown", None, &[]),
    }
}

fn ended_fields(format: Format, ended: &Ended) -> Line
    ensures text { result ≡ spec.state_text format (state_of ended.now) }
    ensures grows { length result ≤ 160 }
{
    let first = first_command(&ended.kind).bits();
    match second_command(&ended.kind) {
        Some(second) => with_statuses(
            format,
            &[first, second.bits()],
            ended.outcome,
            ended.earlier,
            ended.last,
        ),
        None => with_statuses(format, &[first], ended.outcome, ended.earlier, ended.last),
    }
}

fn with_statuses(
    format: Format,
    commands: &[u16],
    outcome: Outcome,
    earlier: Option<Status>,
    last: Option<Status>,
) -> Line
    requires { length commands.now ≤ 2 }
    ensures text { result ≡ spec.ending_text format commands.now (spec_outcome_name outcome) (spec_deciding outcome) (option_to_list earlier ++ option_to_list last) }
    ensures grows { length result ≤ 160 }
{
    let name = outcome_name(outcome);
    let answer = deciding(outcome);
    match earlier {
        Some(first) => match last {
            Some(second) => ending(
                format,
                commands,
                name,
                answer,
                &[first.bits(), second.bits()],
            ),
            None => ending(format, commands, name, answer, &[first.bits()]),
        },
        None => match last {
            Some(only) => ending(format, commands, name, answer, &[only.bits()]),
            None => ending(format, commands, name, answer, &[]),
        },
    }
}

pub(crate) fn ending(
    format: Format,
    commands: &[u16],
    name: &str,
    answer: Option<u64>,
    statuses: &[u16],
) -> Line
    requires commands { length commands.now ≤ 2 }
    requires name { length name.now ≤ 20 }
    requires statuses { length statuses.now ≤ 2 }
    ensures text { result ≡ spec.ending_text format commands.now name.now answer statuses.now }
    ensures grows { length result ≤ 160 }
{
    let mut line = Line::new();
    words_field(&mut line, format, "commands", commands);
    name_field(&mut line, format, "outcome", name);
    number_field(&mut line, format, "answer", answer);
    words_field(&mut line, format, "statuses", statuses);
    line
}

// How long it took. Only a message of a known form has responses.
pub(crate) fn times(format: Format, closed: &Closed, notes: &Notes) -> Line
    ensures text { result ≡ spec.times_text format (responses_of (state_of closed.now.came) notes.now) notes.now.gap (spec.ticks_of closed.now.first (Some (last_end notes.now))) }
    ensures grows { length result ≤ 140 }
{
    let ticks = notes.last_end().saturating_sub(closed.first);
    match &closed.came {
        Some(ended) => ended_times(format, ended, ticks, notes),
        None => time_fields(format, None, None, notes.gap, Some(ticks)),
    }
}

// Of a message of a known form, by its outcome.
fn ended_times(format: Format, ended: &Ended, ticks: u64, notes: &Notes) -> Line
    ensures text { result ≡ spec.times_text format (responses_of (state_of ended.now) notes.now) notes.now.gap (Some ticks) }
    ensures grows { length result ≤ 140 }
{
    let _outcome = ended.outcome;
    time_fields(
        format,
        notes.first_response(),
        notes.second_response(),
        notes.gap,
        Some(ticks),
    )
}

pub(crate) fn time_fields(
    format: Format,
    first: Option<u64>,
    second: Option<u64>,
    gap: Option<u64>,
    ticks: Option<u64>,
) -> Line
    ensures text { result ≡ spec.times_text format (option_to_list first ++ option_to_list second) gap ticks }
    ensures grows { length result ≤ 140 }
{
    let mut line = Line::new();
    numbers_field(&mut line, format, "responses", first, second);
    number_field(&mut line, format, "gap", gap);
    number_field(&mut line, format, "ticks", ticks);
    line
}
