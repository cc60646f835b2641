//! The walk over the tables of a plan: root, then the stations, each with its loads and then its frames with their items, then
//! the faults. It is written once; the rule is a parameter.
ghost use Rattle.std.specs.Prelude.{◌≡◌};
ghost use Rattle.toml.specs.View.{view, table_view, array_view};
ghost use Rattle.bus_plan.specs.Walk as spec;

use crate::document::find_list;
use crate::grammar::rows_of;
use crate::place::Place;
use crate::rows::{Head, TableKind};
use crate::rules::{Rule, in_table};
use toml::{Table, Value};

// The first place of a table itself that breaks the rule.
fn own(rule: Rule, head: Head, kind: TableKind, path: &Place, table: &Table) -> Option<Place>
    ensures { result ≡ spec.own rule head kind path.now (table_view table.now) }
{
    in_table(head, rule, rows_of(kind, head, table), path, table)
}

/// The first place in a table and those below it that breaks the rule.
#[cycle(walk)]
pub fn in_kind(
    rule: Rule,
    head: Head,
    kind: TableKind,
    path: &Place,
    table: &Table,
) -> Option<Place>
    ensures { result ≡ spec.in_kind rule head kind path.now (table_view table.now) }
{
    if let Some(place) = own(rule, head, kind, path, table) {
        return Some(place);
    }
    match kind {
        TableKind::Root => match over(rule, head, TableKind::Station, "station", path, table) {
            Some(place) => Some(place),
            None => over(rule, head, TableKind::Fault, "fault", path, table),
        },
        TableKind::Station => match over(rule, head, TableKind::Load, "load", path, table) {
            Some(place) => Some(place),
            None => over(rule, head, TableKind::Frame, "frame", path, table),
        },
        TableKind::Frame => over(rule, head, TableKind::Item, "item", path, table),
        _ => None,
    }
}

#[cycle(walk)]
fn over(
    rule: Rule,
    head: Head,
    kind: TableKind,
    key: &str,
    path: &Place,
    table: &Table,
) -> Option<Place>
    ensures { result ≡ spec.over (spec.in_kind rule head kind) key.now path.now (table_view table.now) }
{
    match find_list(table, key) {
        Some(items) => over_items(rule, head, kind, &path.with(key).with("."), items),
        None => None,
    }
}

#[cycle(walk)]
fn over_items(
    rule: Rule,
    head: Head,
    kind: TableKind,
    path: &Place,
    items: &Vec<Value>,
) -> Option<Place>
    ensures { result ≡ spec.over_items (spec.in_kind rule head kind) path.now 1 (array_view items.now) }
{
    let mut number = 1;
    for value in items {
        if let Some(place) = over_item(rule, head, kind, path, number, value) {
            return Some(place);
        }
        number += 1;
    }
    None
}

#[cycle(walk)]
fn over_item(
    rule: Rule,
    head: Head,
    kind: TableKind,
    path: &Place,
    number: u64,
    value: &Value,
) -> Option<Place>
    ensures { result ≡ spec.over_item (spec.in_kind rule head kind) path.now number (view value.now) }
{
    match value {
        Value::Table(table) => in_kind(
            rule,
            head,
            kind,
            &path.with_number(number).with("."),
            table,
        ),
        _ => None,
    }
}
