//! Reading values of a document.
ghost use Rattle.std.specs.Prelude.{◌≡◌, None, ◌≤◌, option_map, IfOk, IfErr, IfSome, Some};
ghost use Rattle.toml.specs.Data.{get_member};
ghost use Rattle.toml.specs.View.{view, table_view, array_view};
ghost use Rattle.bus_plan.specs.Document.{document_of, is_text, flag_of, list_of};
ghost use Rattle.bus_plan.specs.Document as spec;
ghost use Rattle.bus_plan.specs.declared.document.DocumentError.TheVariants.{NotToml};

use crate::ranges::Range;
use std::alloc::Global;
use toml::{Table, Value};

/// Why bytes are no document, or could not be read.
#[derive(Drop)]
pub enum DocumentError {
    NotToml,
    Memory,
}

/// The document of a plan's text.
#[tactic(auto, using(crate::proofs::Documents::document_of_text, crate::proofs::Documents::document_of_none))]
pub fn read_document(alloc: Global, text: &[u8]) -> Result<Table, DocumentError>
    ensures ok { IfOk result (λ t. document_of text.now ≡ Some (table_view t)) }
    ensures not_toml { IfErr result (λ e. e ≡ NotToml → document_of text.now ≡ None) }
{
    match toml::table_from_slice(alloc, text) {
        Ok(table) => Ok(table),
        Err(error) => {
            if error.is_memory() {
                Err(DocumentError::Memory)
            } else {
                Err(DocumentError::NotToml)
            }
        }
    }
}

/// The value at a key.
pub fn find<'a>(table: &'a Table, key: &str) -> Option<&'a Value>
    ensures { option_map (λ v. view v.now) result ≡ get_member key.now (table_view table.now) }
{
    table.get(key)
}

/// The number that a value is, where it lies in the range.
pub fn number_within(range: Range, value: Option<&Value>) -> Option<u32>
    ensures value { result ≡ spec.number_within range (option_map (λ v. view v.now) value.entry) }
    ensures low { IfSome result (λ n. range.low ≤ n) }
    ensures high { IfSome result (λ n. n ≤ range.high) }
{
    match value {
        Some(Value::Integer(z)) => {
            if i64::from(range.low) <= *z && *z <= i64::from(range.high) {
                Some(*z as u32)
            } else {
                None
            }
        }
        _ => None,
    }
}

/// The number that a value is, where it lies in the range, and else another.
pub fn number_in(range: Range, other: u32, value: Option<&Value>) -> u32
    requires { (range.low ≤ other) × (other ≤ range.high) }
    ensures value { result ≡ spec.number_in range other (option_map (λ v. view v.now) value.entry) }
    ensures low { range.low ≤ result }
    ensures high { result ≤ range.high }
{
    match number_within(range, value) {
        Some(n) => n,
        None => other,
    }
}

/// The number at a key, where there is one in the range.
pub fn number_at(table: &Table, key: &str, range: Range) -> Option<u32>
    ensures value { result ≡ spec.number_within range (get_member key.now (table_view table.now)) }
    ensures low { IfSome result (λ n. range.low ≤ n) }
    ensures high { IfSome result (λ n. n ≤ range.high) }
{
    number_within(range, find(table, key))
}

/// The number at a key, where there is one in the range, and else another.
pub fn number(table: &Table, key: &str, range: Range, other: u32) -> u32
    requires { (range.low ≤ other) × (other ≤ range.high) }
    ensures value { result ≡ spec.number_in range other (get_member key.now (table_view table.now)) }
    ensures low { range.low ≤ result }
    ensures high { result ≤ range.high }
{
    number_in(range, other, find(table, key))
}

/// Whether the value at a key is this text.
pub fn is_word(table: &Table, key: &str, text: &str) -> bool
    ensures { result ≡ is_text text.now (get_member key.now (table_view table.now)) }
{
    match find(table, key) {
        Some(Value::String(s)) => s.as_str() == text,
        _ => false,
    }
}

/// The boolean at a key, or false.
pub fn flag(table: &Table, key: &str) -> bool
    ensures { result ≡ flag_of (get_member key.now (table_view table.now)) }
{
    match find(table, key) {
        Some(Value::Boolean(b)) => *b,
        _ => false,
    }
}

/// The array at a key.
pub fn find_list<'a>(table: &'a Table, key: &str) -> Option<&'a Vec<Value>>
    ensures { option_map (λ v. array_view v.now) result ≡ list_of (get_member key.now (table_view table.now)) }
{
    match find(table, key) {
        Some(Value::Array(items)) => Some(items),
        _ => None,
    }
}
