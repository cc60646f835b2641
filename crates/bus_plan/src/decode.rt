//! Reading the values of a document as numbers, lists and tables of the plan.
//!
//! A value that a rule refuses is read as some value of its range, so that each number fits its field without a word of the rules.
ghost use Rattle.std.specs.Prelude.{◌++◌, OnOk, ◌≡◌, ◌<◌, IfOk, codes};
ghost use Rattle.toml.specs.Data.{Members};
ghost use Rattle.bus_plan.specs.declared.rows.Head.{Head};
ghost use Rattle.toml.specs.View.{view, table_view, array_view};
ghost use Rattle.bus_plan.specs.Decode as spec;

use crate::document::{find_list, is_word, number_in};
use crate::ranges::WORD;
use crate::rows::{Head, Refusable};
use crate::rules::refusable;
use bus_base::Channel;
use bus_formats::Block;
use std::alloc::{AllocError, Global};
use toml::{Table, Value};

fn fill(words: &mut Block, items: &Vec<Value>)
    ensures { words.new ≡ spec.words_from words.old (array_view items.now) }
{
    for value in items {
        let _ = words.push(number_in(WORD, 0, Some(value)) as u16);
    }
}

/// The data words at the key `words`; where there is none, one word of 0.
pub fn words(table: &Table) -> Block
    ensures { result ≡ spec.words_at (codes "words") (table_view table.now) }
{
    let mut words = Block::new();
    if let Some(items) = find_list(table, "words") {
        fill(&mut words, items);
    }
    filled(words)
}

fn filled(words: Block) -> Block
    ensures { result ≡ spec.filled words }
{
    let mut words = words;
    if words.words().is_empty() {
        let _ = words.push(0);
    }
    words
}

fn refusal(which: Refusable, value: &Value) -> u32
    ensures value { result ≡ spec.refusal_of which (view value.now) }
    ensures below { result < 32 }
{
    match refusable(which, value) {
        Some(n) => n,
        None => match which {
            Refusable::Subaddresses => 1,
            Refusable::ModeCodes => 0,
        },
    }
}

fn bits(which: Refusable, items: &Vec<Value>) -> u32
    ensures { result ≡ spec.bits_from which 0 (array_view items.now) }
{
    let mut bits = 0;
    for value in items {
        bits |= 1 << refusal(which, value);
    }
    bits
}

/// What a terminal refuses, as one bit for each number of the list at a key.
pub fn bits_at(which: Refusable, table: &Table, key: &str) -> u32
    ensures { result ≡ spec.bits_at which key.now (table_view table.now) }
{
    match find_list(table, key) {
        Some(items) => bits(which, items),
        None => 0,
    }
}

/// The channel that a table names.
pub fn channel(table: &Table) -> Option<Channel>
    ensures { result ≡ spec.channel_of (table_view table.now) }
{
    if is_word(table, "channel", "A") {
        Some(Channel::A)
    } else if is_word(table, "channel", "B") {
        Some(Channel::B)
    } else {
        None
    }
}

/// What a table describes, in a plan with this head.
pub trait FromTable {
    ghost meaning: { Head → Members → Self };

    /// Reads a table.
    fn from_table(alloc: Global, head: Head, table: &Table) -> Result<Self, AllocError>
        ensures { IfOk result (λ x. x ≡ meaning head (table_view table.now)) };
}

fn push_table<T: FromTable + Drop>(
    alloc: Global,
    head: Head,
    all: &mut Vec<T>,
    value: &Value,
) -> Result<(), AllocError>
    ensures { OnOk result (all.new.items ≡ all.old.items ++ spec.of_table (T.meaning head) (view value.now)) }
{
    match value {
        Value::Table(table) => {
            all.push(T::from_table(alloc, head, table)?)?;
            Ok(())
        }
        _ => Ok(()),
    }
}

fn all_tables<T: FromTable + Drop>(
    alloc: Global,
    head: Head,
    values: &Vec<Value>,
) -> Result<Vec<T>, AllocError>
    ensures { IfOk result (λ v. v.items ≡ spec.tables (T.meaning head) (array_view values.now)) }
{
    let mut all = Vec::new(alloc);
    for value in values {
        push_table(alloc, head, &mut all, value)?;
    }
    Ok(all)
}

/// What the tables of the array at a key describe.
pub fn tables_at<T: FromTable + Drop>(
    alloc: Global,
    head: Head,
    table: &Table,
    key: &str,
) -> Result<Vec<T>, AllocError>
    ensures { IfOk result (λ v. v.items ≡ spec.tables_at (T.meaning head) key.now (table_view table.now)) }
{
    match find_list(table, key) {
        Some(values) => all_tables(alloc, head, values),
        None => Ok(Vec::new(alloc)),
    }
}
