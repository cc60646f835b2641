//! The faults that tables describe, and the whole plan.
ghost use Rattle.std.specs.Prelude.{◌≡◌, IfOk};
ghost use Rattle.toml.specs.View.{table_view};
ghost use Rattle.bus_plan.specs.DecodeFaults as spec;

use crate::decode::{FromTable, tables_at};
use crate::document::{find_list, is_word, number};
use crate::positions::{fades_at, flips_at, positions};
use crate::ranges::{ADDRESS, AFTER, ATTEMPT, COMMAND_AFTER, EXTRA, STRUCK};
use crate::rows::Head;
use arrayvec::ArrayVec;
use bus_base::{FadeSet, FlipSet, Part};
use bus_formats::{Fault, Hit, Plan};
use std::alloc::{AllocError, Global};
use toml::Table;

fn part(table: &Table) -> Part
    ensures { result ≡ spec.part_of (table_view table.now) }
{
    if is_word(table, "part", "command") {
        Part::Command
    } else if is_word(table, "part", "first") {
        Part::First
    } else {
        Part::Second
    }
}

/// The positions of a fault.
pub fn positions_at(table: &Table) -> ArrayVec<u8, 41>
    ensures { result.items ≡ spec.positions_at (table_view table.now) }
{
    match find_list(table, "at") {
        Some(items) => positions(items),
        None => ArrayVec::new(),
    }
}

fn after(table: &Table) -> u8
    ensures { result ≡ spec.after_of (table_view table.now) }
{
    if is_word(table, "part", "command") {
        number(table, "after", COMMAND_AFTER, 1) as u8
    } else {
        number(table, "after", AFTER, 0) as u8
    }
}

fn struck(table: &Table) -> u8
    ensures { result ≡ spec.struck_of (table_view table.now) }
{
    number(table, "word", STRUCK, 0) as u8
}

fn flip(word: u8, set: Option<FlipSet>) -> Hit
    ensures { result ≡ spec.flip_of word set }
{
    match set {
        Some(set) => Hit::Flip { word, set },
        None => Hit::Extra { words: 1 },
    }
}

fn fade(word: u8, set: Option<FadeSet>) -> Hit
    ensures { result ≡ spec.fade_of word set }
{
    match set {
        Some(set) => Hit::Fade { word, set },
        None => Hit::Extra { words: 1 },
    }
}

fn hit(table: &Table) -> Hit
    ensures { result ≡ spec.hit_of (table_view table.now) }
{
    if is_word(table, "kind", "flip") {
        flip(struck(table), flips_at(positions_at(table).as_slice()))
    } else if is_word(table, "kind", "fade") {
        fade(struck(table), fades_at(positions_at(table).as_slice()))
    } else if is_word(table, "kind", "cut") {
        Hit::Cut {
            after: after(table),
        }
    } else {
        Hit::Extra {
            words: number(table, "words", EXTRA, 1) as u8,
        }
    }
}

impl FromTable for Fault {
    ghost meaning = { λ head. spec.fault_of };

    fn from_table(_alloc: Global, _head: Head, table: &Table) -> Result<Fault, AllocError> {
        Ok(Fault {
            attempt: number(table, "attempt", ATTEMPT, 1),
            part: part(table),
            hit: hit(table),
        })
    }
}

/// The plan that a document describes.
pub fn plan(alloc: Global, head: Head, table: &Table) -> Result<Plan, AllocError>
    ensures { IfOk result (λ p. p ≡ spec.plan_of head (table_view table.now)) }
{
    Ok(Plan {
        start: number(table, "start", ADDRESS, 0) as u8,
        stations: tables_at(alloc, head, table, "station")?,
        faults: tables_at(alloc, head, table, "fault")?,
    })
}
