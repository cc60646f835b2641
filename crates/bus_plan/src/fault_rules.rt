//! Where a plan breaks the rules on its faults.
ghost use Rattle.std.specs.Prelude.{◌≡◌, ◌≤◌, IfOk};
ghost use Rattle.toml.specs.View.{view, table_view, array_view};
ghost use Rattle.bus_plan.specs.FaultRules as spec;

use crate::decode_faults::positions_at;
use crate::document::{find_list, is_word};
use crate::place::Place;
use crate::positions::names_undetectable;
use bus_base::Part;
use bus_formats::{Fault, Hit};
use std::alloc::{AllocError, Global};
use std::collections::BTreeSet;
use toml::{Table, Value};

fn table_flips_undetectably(table: &Table) -> bool
    ensures { result ≡ spec.table_flips_undetectably (table_view table.now) }
{
    is_word(table, "kind", "flip") && names_undetectable(positions_at(table).as_slice())
}

fn flips_undetectably(value: &Value) -> bool
    ensures { result ≡ spec.flips_undetectably (view value.now) }
{
    match value {
        Value::Table(table) => table_flips_undetectably(table),
        _ => false,
    }
}

fn first_undetectable(items: &Vec<Value>) -> Option<Place>
    ensures { result ≡ spec.first_undetectable 1 (array_view items.now) }
{
    let mut number = 1;
    for value in items {
        if flips_undetectably(value) {
            return Some(Place::root().with("fault.").with_number(number));
        }
        number += 1;
    }
    None
}

/// The first fault of a document that flips undetectably.
pub fn undetectable(table: &Table) -> Option<Place>
    ensures { result ≡ spec.undetectable (table_view table.now) }
{
    match find_list(table, "fault") {
        Some(items) => first_undetectable(items),
        None => None,
    }
}

// The word that a flip or a fade strikes.
fn word_of(hit: &Hit) -> Option<u8>
    ensures { result ≡ spec.word_of hit.now }
{
    match hit {
        Hit::Flip { word, .. } => Some(*word),
        Hit::Fade { word, .. } => Some(*word),
        _ => None,
    }
}

// The number of a part, one for each.
fn part_code(part: Part) -> u64
    ensures { result ≡ spec.part_code part }
{
    match part {
        Part::Command => 0,
        Part::First => 1,
        Part::Second => 2,
    }
}

// The number of a word, or 0 where none is struck: at most 256, and one for each.
fn word_code(word: Option<u8>) -> u64
    ensures value { result ≡ spec.word_code word }
    ensures bound { result ≤ 256 }
{
    match word {
        Some(word) => word as u64 + 1,
        None => 0,
    }
}

// What a fault strikes as one number, the same exactly for faults that strike the same.
fn strike_code(fault: &Fault) -> u64
    ensures value { result ≡ spec.strike_code fault.now }
    ensures bound { spec.word_code (spec.word_of fault.now.hit) ≤ 256 }
{
    (fault.attempt as u64 * 4 + part_code(fault.part)) * 512 + word_code(word_of(&fault.hit))
}

/// The first fault that strikes the same as an earlier one. The time grows with the number of faults times its logarithm.
pub fn same_fault(alloc: Global, faults: &[Fault]) -> Result<Option<Place>, AllocError>
    ensures { IfOk result (λ place. place ≡ spec.same_fault faults.now 0 faults.now) }
{
    let mut struck = BTreeSet::new(alloc);
    for (i, fault) in faults.iter().enumerate() {
        if !struck.insert(strike_code(fault))? {
            return Ok(Some(Place::root().with("fault.").with_number(i as u64 + 1)));
        }
    }
    Ok(None)
}
