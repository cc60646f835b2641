//! The items, frames and stations that tables describe.
ghost use Rattle.std.specs.Prelude.{◌≡◌, ◌≤◌, [], IfOk, codes};
ghost use Rattle.toml.specs.Data.{get_member};
ghost use Rattle.toml.specs.View.{view, table_view, array_view};
ghost use Rattle.bus_plan.specs.Document.{number_within, list_of};
ghost use Rattle.bus_plan.specs.Ranges.{word_range, abandon_range};
ghost use Rattle.bus_plan.specs.DecodeItems as spec;

use crate::decode::{FromTable, bits_at, channel, tables_at, words};
use crate::document::{find_list, flag, is_word, number, number_at};
use crate::ranges::{
    ABANDON, ADDRESS, CODE, COUNT, DELAY, FRAME, GAP, MODE_SUB, OWN_SUB, REPEAT, SUB, TERMINAL,
    TRANSMIT, WORD,
};
use crate::rows::{Head, Refusable};
use arrayvec::ArrayVec;
use bus_base::Channel;
use bus_formats::{FramePlan, Item, Kind, Load, StationPlan, SubsystemKind, TerminalPlan, Turn};
use std::alloc::{AllocError, Global};
use toml::{Table, Value};

fn receive(table: &Table) -> Kind
    ensures { result ≡ spec.receive_of (table_view table.now) }
{
    Kind::Receive {
        to: number(table, "to", ADDRESS, 0) as u8,
        sub: number(table, "sub", SUB, 1) as u8,
        words: words(table),
    }
}

fn transmit(table: &Table) -> Kind
    ensures { result ≡ spec.transmit_of (table_view table.now) }
{
    Kind::Transmit {
        from: number(table, "from", TERMINAL, 0) as u8,
        sub: number(table, "sub", SUB, 1) as u8,
        count: number(table, "count", COUNT, 1) as u8,
    }
}

fn relay(table: &Table) -> Kind
    ensures { result ≡ spec.relay_of (table_view table.now) }
{
    Kind::Relay {
        from: number(table, "from", TERMINAL, 0) as u8,
        from_sub: number(table, "from_sub", SUB, 1) as u8,
        to: number(table, "to", ADDRESS, 0) as u8,
        to_sub: number(table, "to_sub", SUB, 1) as u8,
        count: number(table, "count", COUNT, 1) as u8,
    }
}

// The transmit bit of a mode command that gives none: synchronize with a data word and the two selected shutdowns have 0.
fn usual_transmit(code: u32) -> u32
    ensures value { result ≡ spec.usual_transmit code }
    ensures high { result ≤ 1 }
{
    if code == 17 || code == 20 || code == 21 {
        0
    } else {
        1
    }
}

fn mode(table: &Table) -> Kind
    ensures { result ≡ spec.mode_of (table_view table.now) }
{
    let code = number(table, "code", CODE, 0);
    Kind::Mode {
        to: number(table, "to", ADDRESS, 0) as u8,
        mode_sub: mode_sub(table),
        transmit: number(table, "t", TRANSMIT, usual_transmit(code)) == 1,
        code: code as u8,
        word: word(table),
    }
}

fn mode_sub(table: &Table) -> u8
    ensures { result ≡ spec.mode_sub_of (table_view table.now) }
{
    if number_at(table, "mode_sub", MODE_SUB).is_some() {
        31
    } else {
        0
    }
}

fn word(table: &Table) -> Option<u16>
    ensures { result ≡ number_within word_range (get_member (codes "word") (table_view table.now)) }
{
    match number_at(table, "word", WORD) {
        Some(word) => Some(word as u16),
        None => None,
    }
}

fn kind(table: &Table) -> Kind
    ensures { result ≡ spec.kind_of (table_view table.now) }
{
    if is_word(table, "form", "receive") {
        receive(table)
    } else if is_word(table, "form", "transmit") {
        transmit(table)
    } else if is_word(table, "form", "relay") {
        relay(table)
    } else {
        mode(table)
    }
}

fn turn_of(value: &Value) -> Turn
    ensures { result ≡ spec.turn_of (view value.now) }
{
    match value {
        Value::String(text) if text.as_str() == "other" => Turn::Other,
        _ => Turn::Same,
    }
}

fn turns(items: &Vec<Value>) -> ArrayVec<Turn, 3>
    ensures { result.items ≡ spec.turns_from [] (array_view items.now) }
{
    let mut turns = ArrayVec::new();
    for value in items {
        if !turns.is_full() {
            turns.push(turn_of(value));
        }
    }
    turns
}

fn retry(table: &Table) -> ArrayVec<Turn, 3>
    ensures { result.items ≡ spec.turns_of (list_of (get_member (codes "retry") (table_view table.now))) }
{
    match find_list(table, "retry") {
        Some(items) => turns(items),
        None => ArrayVec::new(),
    }
}

fn abandon(table: &Table) -> Option<u16>
    ensures { result ≡ number_within abandon_range (get_member (codes "abandon") (table_view table.now)) }
{
    match number_at(table, "abandon", ABANDON) {
        Some(ticks) => Some(ticks as u16),
        None => None,
    }
}

impl FromTable for Item {
    ghost meaning = { λ head. spec.item_of };

    fn from_table(_alloc: Global, _head: Head, table: &Table) -> Result<Item, AllocError> {
        Ok(Item {
            kind: kind(table),
            channel: channel(table),
            gap: number(table, "gap", GAP, 8) as u16,
            retry: retry(table),
            abandon: abandon(table),
        })
    }
}

impl FromTable for FramePlan {
    ghost meaning = { λ head. spec.frame_of };

    fn from_table(alloc: Global, head: Head, table: &Table) -> Result<FramePlan, AllocError> {
        Ok(FramePlan {
            ticks: number(table, "ticks", FRAME, 0),
            items: tables_at(alloc, head, table, "item")?,
        })
    }
}

impl FromTable for Load {
    ghost meaning = { λ head. spec.load_of };

    fn from_table(_alloc: Global, _head: Head, table: &Table) -> Result<Load, AllocError> {
        Ok(Load {
            sub: number(table, "sub", OWN_SUB, 1) as u8,
            words: words(table),
        })
    }
}

// The subsystem of a terminal; a controller alone has none.
fn subsystem(address: u32, table: &Table) -> Option<SubsystemKind>
    ensures { result ≡ spec.subsystem_of address (table_view table.now) }
{
    if address == 31 {
        None
    } else if is_word(table, "subsystem", "recorder") {
        Some(SubsystemKind::Recorder)
    } else if is_word(table, "subsystem", "tally") {
        Some(SubsystemKind::Tally)
    } else {
        None
    }
}

// The address of a station: 31 only where it starts.
fn address(head: Head, table: &Table) -> u32
    ensures value { result ≡ spec.address_of head (table_view table.now) }
    ensures high { result ≤ 31 }
{
    if head.last_starts {
        number(table, "address", ADDRESS, 0)
    } else {
        number(table, "address", TERMINAL, 0)
    }
}

fn terminal(alloc: Global, head: Head, table: &Table) -> Result<TerminalPlan, AllocError>
    ensures { IfOk result (λ t. t ≡ spec.terminal_of head (table_view table.now)) }
{
    let address = address(head, table);
    Ok(TerminalPlan {
        address: address as u8,
        delay: number(table, "delay", DELAY, 8) as u8,
        busy: flag(table, "busy"),
        service: flag(table, "service"),
        subsystem_flag: flag(table, "subsystem_flag"),
        terminal_flag: flag(table, "terminal_flag"),
        accepts: flag(table, "accepts"),
        vector: number(table, "vector", WORD, 0) as u16,
        bit: number(table, "bit", WORD, 0) as u16,
        no_receive: bits_at(Refusable::Subaddresses, table, "no_receive"),
        no_transmit: bits_at(Refusable::Subaddresses, table, "no_transmit"),
        no_mode: bits_at(Refusable::ModeCodes, table, "no_mode"),
        subsystem: subsystem(address, table),
        loads: tables_at(alloc, head, table, "load")?,
    })
}

impl FromTable for StationPlan {
    ghost meaning = { spec.station_of };

    fn from_table(alloc: Global, head: Head, table: &Table) -> Result<StationPlan, AllocError> {
        Ok(StationPlan {
            terminal: terminal(alloc, head, table)?,
            channel: channel(table).unwrap_or(Channel::A),
            frames: tables_at(alloc, head, table, "frame")?,
            repeat: number(table, "repeat", REPEAT, 1),
        })
    }
}
