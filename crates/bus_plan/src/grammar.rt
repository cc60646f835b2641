//! The grammar of a plan as rows: the keys of each table, and what stands there.
//!
//! The rows are data, and so are those of the definition: the check compares the two tables by computing.
ghost use Rattle.std.specs.Prelude.{◌≡◌, map};
ghost use Rattle.bus_plan.specs.Rows as spec;
ghost use Rattle.bus_plan.specs.Rows.{row_of, rows_data};
ghost use Rattle.toml.specs.View.{table_view};

use crate::document::{is_word, number_at};
use crate::ranges::{
    ABANDON, ADDRESS, AFTER, ATTEMPT, CODE, COMMAND_AFTER, CONTROLLER, COUNT, DELAY, EXTRA, FADE,
    FLIP, FRAME, GAP, OWN_SUB, REPEAT, STRUCK, SUB, TERMINAL, TRANSMIT, VERSION, WORD,
};
use crate::rows::{Head, Presence, Refusable, Row, Rows, Shape, TableKind, Versions, Words};
use toml::Table;

macro_rules! needs {
    ($key:literal, $shape:expr) => {
        Row { key: $key, presence: Presence::Required, shape: $shape, versions: Versions::Every }
    };
    ($key:literal, $shape:expr, $versions:expr) => {
        Row { key: $key, presence: Presence::Required, shape: $shape, versions: $versions }
    };
}

macro_rules! takes {
    ($key:literal, $shape:expr) => {
        Row { key: $key, presence: Presence::Optional, shape: $shape, versions: Versions::Every }
    };
    ($key:literal, $shape:expr, $versions:expr) => {
        Row { key: $key, presence: Presence::Optional, shape: $shape, versions: $versions }
    };
}

static NONE: [Row; 0] = [];

static ROOT: [Row; 4] = [
    needs!("version", Shape::Number(VERSION)),
    needs!("start", Shape::Number(ADDRESS)),
    needs!("station", Shape::Tables),
    takes!("fault", Shape::Tables),
];

static STATION: [Row; 15] = [
    takes!("delay", Shape::Number(DELAY)),
    takes!("busy", Shape::Flag),
    takes!("service", Shape::Flag),
    takes!("subsystem_flag", Shape::Flag),
    takes!("terminal_flag", Shape::Flag),
    takes!("accepts", Shape::Flag),
    takes!("vector", Shape::Number(WORD)),
    takes!("bit", Shape::Number(WORD)),
    takes!("no_receive", Shape::Refusals(Refusable::Subaddresses)),
    takes!("no_transmit", Shape::Refusals(Refusable::Subaddresses)),
    takes!("no_mode", Shape::Refusals(Refusable::ModeCodes)),
    takes!("channel", Shape::Word(Words::Channels)),
    takes!("load", Shape::Tables),
    takes!("frame", Shape::Tables),
    takes!("repeat", Shape::Number(REPEAT), Versions::Second),
];

static TERMINAL_STATION: [Row; 2] = [
    needs!("address", Shape::Number(TERMINAL)),
    takes!("subsystem", Shape::Word(Words::Subsystems)),
];

static CONTROLLER_STATION: [Row; 2] = [
    needs!("address", Shape::Number(CONTROLLER)),
    takes!("subsystem", Shape::Word(Words::Nothing)),
];

static LOAD: [Row; 2] = [
    needs!("sub", Shape::Number(OWN_SUB)),
    needs!("words", Shape::DataWords),
];

static FRAME_ROWS: [Row; 2] = [
    takes!("ticks", Shape::Number(FRAME)),
    takes!("item", Shape::Tables),
];

static ITEM: [Row; 5] = [
    needs!("form", Shape::Word(Words::Forms)),
    takes!("channel", Shape::Word(Words::Channels)),
    takes!("gap", Shape::Number(GAP)),
    takes!("retry", Shape::Turns),
    takes!("abandon", Shape::Number(ABANDON)),
];

static RECEIVE: [Row; 3] = [
    needs!("to", Shape::Number(ADDRESS)),
    needs!("sub", Shape::Number(SUB)),
    needs!("words", Shape::DataWords),
];

static TRANSMIT_ROWS: [Row; 3] = [
    needs!("from", Shape::Number(TERMINAL)),
    needs!("sub", Shape::Number(SUB)),
    needs!("count", Shape::Number(COUNT)),
];

static RELAY: [Row; 5] = [
    needs!("from", Shape::Number(TERMINAL)),
    needs!("from_sub", Shape::Number(SUB)),
    needs!("to", Shape::Number(ADDRESS)),
    needs!("to_sub", Shape::Number(SUB)),
    needs!("count", Shape::Number(COUNT)),
];

static MODE: [Row; 5] = [
    needs!("to", Shape::Number(ADDRESS)),
    needs!("code", Shape::Number(CODE)),
    takes!("t", Shape::Number(TRANSMIT)),
    takes!("mode_sub", Shape::Either(0, 31)),
    takes!("word", Shape::Number(WORD)),
];

static ANY_FORM: [Row; 11] = [
    takes!("to", Shape::Any),
    takes!("sub", Shape::Any),
    takes!("words", Shape::Any),
    takes!("from", Shape::Any),
    takes!("count", Shape::Any),
    takes!("from_sub", Shape::Any),
    takes!("to_sub", Shape::Any),
    takes!("code", Shape::Any),
    takes!("t", Shape::Any),
    takes!("mode_sub", Shape::Any),
    takes!("word", Shape::Any),
];

static FAULT: [Row; 4] = [
    needs!("attempt", Shape::Number(ATTEMPT)),
    needs!("part", Shape::Word(Words::Parts)),
    needs!("kind", Shape::Word(Words::Kinds), Versions::First),
    needs!("kind", Shape::Word(Words::KindsWithFade), Versions::Second),
];

static FLIP_ROWS: [Row; 2] = [
    needs!("word", Shape::Number(STRUCK)),
    needs!("at", Shape::Positions(FLIP, 40)),
];

static FADE_ROWS: [Row; 2] = [
    needs!("word", Shape::Number(STRUCK)),
    needs!("at", Shape::Positions(FADE, 3)),
];

static CUT: [Row; 1] = [needs!("after", Shape::Number(AFTER))];

static COMMAND_CUT: [Row; 1] = [needs!("after", Shape::Number(COMMAND_AFTER))];

static EXTRA_ROWS: [Row; 1] = [needs!("words", Shape::Number(EXTRA))];

static ANY_KIND: [Row; 4] = [
    takes!("word", Shape::Any),
    takes!("at", Shape::Any),
    takes!("after", Shape::Any),
    takes!("words", Shape::Any),
];

/// The rows of a table, by its kind, the plan's head and the table itself.
pub fn rows_of(kind: TableKind, head: Head, table: &Table) -> Rows
    ensures { rows_data result ≡ spec.rows_of kind head (table_view table.now) }
{
    match kind {
        TableKind::Root => Rows {
            common: &ROOT,
            own: &NONE,
        },
        TableKind::Station => Rows {
            common: &STATION,
            own: own_station_rows(head, table),
        },
        TableKind::Load => Rows {
            common: &LOAD,
            own: &NONE,
        },
        TableKind::Frame => Rows {
            common: &FRAME_ROWS,
            own: &NONE,
        },
        TableKind::Item => Rows {
            common: &ITEM,
            own: own_item_rows(table),
        },
        TableKind::Fault => Rows {
            common: &FAULT,
            own: own_fault_rows(head, table),
        },
    }
}

fn own_station_rows(head: Head, table: &Table) -> &'static [Row]
    ensures { map row_of result.now ≡ spec.own_station_rows head (table_view table.now) }
{
    if head.last_starts && number_at(table, "address", CONTROLLER).is_some() {
        &CONTROLLER_STATION
    } else {
        &TERMINAL_STATION
    }
}

fn own_item_rows(table: &Table) -> &'static [Row]
    ensures { map row_of result.now ≡ spec.own_item_rows (table_view table.now) }
{
    if is_word(table, "form", "receive") {
        &RECEIVE
    } else if is_word(table, "form", "transmit") {
        &TRANSMIT_ROWS
    } else if is_word(table, "form", "relay") {
        &RELAY
    } else if is_word(table, "form", "mode") {
        &MODE
    } else {
        &ANY_FORM
    }
}

fn cut_rows(table: &Table) -> &'static [Row]
    ensures { map row_of result.now ≡ spec.cut_rows_of (table_view table.now) }
{
    if is_word(table, "part", "command") {
        &COMMAND_CUT
    } else {
        &CUT
    }
}

fn own_fault_rows(head: Head, table: &Table) -> &'static [Row]
    ensures { map row_of result.now ≡ spec.own_fault_rows head (table_view table.now) }
{
    if is_word(table, "kind", "flip") {
        &FLIP_ROWS
    } else if is_word(table, "kind", "cut") {
        cut_rows(table)
    } else if is_word(table, "kind", "extra") {
        &EXTRA_ROWS
    } else if head.is_second && is_word(table, "kind", "fade") {
        &FADE_ROWS
    } else {
        &ANY_KIND
    }
}
