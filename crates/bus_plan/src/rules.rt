//! Where one table of a document breaks the rules on keys, kinds and ranges.
ghost use Rattle.std.specs.Prelude.{◌≡◌, ◌<◌, ◌^◌, map, length, IfSome};
ghost use Rattle.toml.specs.View.{view, table_view, array_view, items_view};
ghost use Rattle.bus_plan.specs.Rows.{row_of, rows_data};
ghost use Rattle.bus_plan.specs.Rows as grammar;
ghost use Rattle.bus_plan.specs.Rules as spec;
ghost use Rattle.bus_plan.specs.declared.rules.Rule.TheVariants.{Missing};

use crate::document::{find, number_within};
use crate::place::{Place, shown};
use crate::positions::{may_stand, positions};
use crate::ranges::{CODE, OWN_SUB, Range, WORD};
use crate::rows::{Head, Presence, Refusable, Row, Rows, Shape, Versions, Words};
use toml::{Table, Value};

/// A rule on the tables of a document.
#[derive(Clone, Copy)]
pub enum Rule {
    UnknownKey,
    Missing,
    WrongKind,
    OutOfRange,
}

/// A key's value, or a member of the list there.
#[derive(Clone, Copy)]
pub enum Spot {
    AtKey,
    AtMember(u64),
}

// Whether a plan's version knows a row.
fn knows(head: Head, versions: Versions) -> bool
    ensures { result ≡ grammar.knows head versions }
{
    match versions {
        Versions::Every => true,
        Versions::First => !head.is_second,
        Versions::Second => head.is_second,
    }
}

// What stands at a key, where one of the rows has it.
fn find_row(head: Head, rows: &[Row], key: &str) -> Option<Shape>
    ensures { result ≡ grammar.find_row head (map row_of rows.now) key.now }
{
    for row in rows {
        if knows(head, row.versions) && row.key == key {
            return Some(row.shape);
        }
    }
    None
}

fn shape_at(head: Head, rows: Rows, key: &str) -> Option<Shape>
    ensures { result ≡ grammar.shape_at head (rows_data rows) key.now }
{
    match find_row(head, rows.common, key) {
        Some(shape) => Some(shape),
        None => find_row(head, rows.own, key),
    }
}

// Whether the text is one of the words.
fn has_word(words: Words, text: &str) -> bool
    ensures { result ≡ grammar.has_word words text.now }
{
    match words {
        Words::Nothing => false,
        Words::Channels => text == "A" || text == "B",
        Words::Subsystems => text == "recorder" || text == "tally",
        Words::Forms => text == "receive"
            || text == "transmit"
            || text == "relay"
            || text == "mode",
        Words::Turns => text == "same" || text == "other",
        Words::Parts => text == "command" || text == "first" || text == "second",
        Words::Kinds => text == "flip" || text == "cut" || text == "extra",
        Words::KindsWithFade => text == "flip"
            || text == "cut"
            || text == "extra"
            || text == "fade",
    }
}

fn is_within(range: Range, value: &Value) -> bool
    ensures { result ≡ spec.is_within range (view value.now) }
{
    number_within(range, Some(value)).is_some()
}

fn is_either(first: u32, second: u32, value: &Value) -> bool
    ensures { result ≡ spec.is_either first second (view value.now) }
{
    let first = Range {
        low: first,
        high: first,
    };
    let second = Range {
        low: second,
        high: second,
    };
    is_within(first, value) || is_within(second, value)
}

fn is_one_of(words: Words, value: &Value) -> bool
    ensures { result ≡ spec.is_one_of words (view value.now) }
{
    match value {
        Value::String(text) => has_word(words, text.as_str()),
        _ => true,
    }
}

// The mode codes that each terminal obeys: transmit status word, transmitter shutdown and its override, reset.
fn is_always_obeyed(code: u32) -> bool
    ensures { result ≡ spec.is_always_obeyed code }
{
    code == 2 || code == 4 || code == 5 || code == 8
}

/// The subaddress or mode code, where a terminal may refuse it.
pub fn refusable(which: Refusable, value: &Value) -> Option<u32>
    ensures value { result ≡ spec.refusable which (view value.now) }
    ensures below { IfSome result (λ n. n < 32) }
{
    match which {
        Refusable::Subaddresses => number_within(OWN_SUB, Some(value)),
        Refusable::ModeCodes => unless_obeyed(number_within(CODE, Some(value))),
    }
}

fn unless_obeyed(code: Option<u32>) -> Option<u32>
    requires { IfSome code (λ n. n < 32) }
    ensures value { result ≡ spec.unless_obeyed code }
    ensures below { IfSome result (λ n. n < 32) }
{
    match code {
        Some(code) if is_always_obeyed(code) => None,
        _ => code,
    }
}

// Whether a list stands there.
fn is_list(shape: Shape) -> bool
    ensures { result ≡ spec.is_list shape }
{
    match shape {
        Shape::DataWords
        | Shape::Refusals(_)
        | Shape::Turns
        | Shape::Positions(_, _)
        | Shape::Tables => true,
        _ => false,
    }
}

// Whether a value, or a member of a list, is of the kind.
fn has_kind(shape: Shape, value: &Value) -> bool
    ensures { result ≡ spec.has_kind shape (view value.now) }
{
    match shape {
        Shape::Any => true,
        Shape::Flag => matches!(value, Value::Boolean(_)),
        Shape::Word(_) | Shape::Turns => matches!(value, Value::String(_)),
        Shape::Tables => matches!(value, Value::Table(_)),
        _ => matches!(value, Value::Integer(_)),
    }
}

// Whether a value, or a member of a list, lies in the range.
fn has_range(shape: Shape, value: &Value) -> bool
    ensures { result ≡ spec.has_range shape (view value.now) }
{
    match shape {
        Shape::Number(range) => is_within(range, value),
        Shape::Either(first, second) => is_either(first, second, value),
        Shape::Word(words) => is_one_of(words, value),
        Shape::DataWords => is_within(WORD, value),
        Shape::Refusals(which) => refusable(which, value).is_some(),
        Shape::Turns => is_one_of(Words::Turns, value),
        _ => true,
    }
}

// Whether a list as a whole lies in the range: its length, and the order of positions.
#[tactic(auto, using(crate::proofs::Lists::items_length_view))]
fn has_range_whole(shape: Shape, items: &Vec<Value>) -> bool
    ensures { result ≡ spec.has_range_whole shape (array_view items.now) }
{
    match shape {
        Shape::DataWords => 1 <= items.len() && items.len() <= 32,
        Shape::Turns => items.len() <= 3,
        Shape::Positions(range, most) => may_stand(range, most, positions(items).as_slice()),
        _ => true,
    }
}

fn keeps(rule: Rule, shape: Shape, value: &Value) -> bool
    ensures { result ≡ spec.keeps rule shape (view value.now) }
{
    match rule {
        Rule::WrongKind => has_kind(shape, value),
        Rule::OutOfRange => has_range(shape, value),
        _ => true,
    }
}

fn keeps_whole(rule: Rule, shape: Shape, items: &Vec<Value>) -> bool
    ensures { result ≡ spec.keeps_whole rule shape (array_view items.now) }
{
    match rule {
        Rule::OutOfRange => has_range_whole(shape, items),
        _ => true,
    }
}

// The first member that breaks the rule.
fn first_bad(rule: Rule, shape: Shape, items: &[Value]) -> Option<Spot>
    requires { length items.now < 2 ^ 63 }
    ensures { result ≡ spec.first_bad rule shape 1 (items_view items.now) }
{
    let mut number = 1;
    for value in items {
        if !keeps(rule, shape, value) {
            return Some(Spot::AtMember(number));
        }
        number += 1;
    }
    None
}

fn at_key_unless(kept: bool) -> Option<Spot>
    ensures { result ≡ spec.at_key_unless kept }
{
    if kept { None } else { Some(Spot::AtKey) }
}

// Where a list breaks the rule: at a member, or else as a whole.
fn list_spot(rule: Rule, shape: Shape, items: &Vec<Value>) -> Option<Spot>
    ensures { result ≡ spec.list_spot (spec.keeps_whole rule shape (array_view items.now)) (spec.first_bad rule shape 1 (array_view items.now)) }
{
    match first_bad(rule, shape, items.as_slice()) {
        Some(spot) => Some(spot),
        None => at_key_unless(keeps_whole(rule, shape, items)),
    }
}

// Whether something other than a list keeps the rule where a list stands.
fn keeps_no_list(rule: Rule) -> bool
    ensures { result ≡ spec.keeps_no_list rule }
{
    !matches!(rule, Rule::WrongKind)
}

// Where a value breaks the rule.
fn value_spot(rule: Rule, shape: Shape, value: &Value) -> Option<Spot>
    ensures { result ≡ spec.value_spot rule shape (view value.now) }
{
    match value {
        Value::Array(items) if is_list(shape) => list_spot(rule, shape, items),
        _ if is_list(shape) => at_key_unless(keeps_no_list(rule)),
        _ => at_key_unless(keeps(rule, shape, value)),
    }
}

fn member_spot(rule: Rule, shape: Option<Shape>, value: &Value) -> Option<Spot>
    ensures { result ≡ spec.member_spot rule shape (view value.now) }
{
    match shape {
        Some(shape) => value_spot(rule, shape, value),
        None => at_key_unless(!matches!(rule, Rule::UnknownKey)),
    }
}

fn spot_place(path: &Place, key: &str, spot: Spot) -> Place
    ensures { result ≡ spec.spot_place path.now key.now spot }
{
    let at_key = path.with(shown(key));
    match spot {
        Spot::AtKey => at_key,
        Spot::AtMember(number) => at_key.with(".").with_number(number),
    }
}

// The first member of a table that breaks the rule, in the order of the keys' bytes.
fn first_member(head: Head, rule: Rule, rows: Rows, path: &Place, table: &Table) -> Option<Place>
    ensures { result ≡ spec.first_member head rule (rows_data rows) path.now (table_view table.now) }
{
    'members: for (key, value) in table.iter() {
        let shape = shape_at(head, rows, key.as_str());
        if let Some(spot) = member_spot(rule, shape, value) {
            return Some(spot_place(path, key.as_str(), spot));
        }
    }
    None
}

fn is_required(presence: Presence) -> bool
    ensures { result ≡ spec.is_required presence }
{
    matches!(presence, Presence::Required)
}

// The first required key that is absent, in the order of the rows.
fn first_missing(head: Head, rows: &[Row], path: &Place, table: &Table) -> Option<Place>
    ensures { result ≡ spec.first_missing head (map row_of rows.now) path.now (table_view table.now) }
{
    for row in rows {
        if is_required(row.presence)
            && knows(head, row.versions)
            && find(table, row.key).is_none()
        {
            return Some(path.with(row.key));
        }
    }
    None
}

/// The first place of a table that breaks the rule.
pub fn in_table(head: Head, rule: Rule, rows: Rows, path: &Place, table: &Table) -> Option<Place>
    ensures { result ≡ spec.in_table head rule (rows_data rows) path.now (table_view table.now) }
{
    match rule {
        Rule::Missing => missing_in(head, rows, path, table),
        _ => first_member(head, rule, rows, path, table),
    }
}

fn missing_in(head: Head, rows: Rows, path: &Place, table: &Table) -> Option<Place>
    ensures { result ≡ spec.in_table head Missing (rows_data rows) path.now (table_view table.now) }
{
    match first_missing(head, rows.common, path, table) {
        Some(place) => Some(place),
        None => first_missing(head, rows.own, path, table),
    }
}
