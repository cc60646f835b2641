//! The form of the grammar's rows: a table's kind, its keys, and what stands there.
use crate::ranges::Range;

/// What the head of a plan says of all its tables: whether its version is 2, and whether the address 31 starts.
#[derive(Clone, Copy)]
pub struct Head {
    pub is_second: bool,
    pub last_starts: bool,
}

/// The tables of a plan.
#[derive(Clone, Copy)]
pub enum TableKind {
    Root,
    Station,
    Load,
    Frame,
    Item,
    Fault,
}

/// The words of a key that has a few.
#[derive(Clone, Copy)]
pub enum Words {
    Nothing,
    Channels,
    Subsystems,
    Forms,
    Turns,
    Parts,
    Kinds,
    KindsWithFade,
}

/// What a terminal may refuse by its number.
#[derive(Clone, Copy)]
pub enum Refusable {
    Subaddresses,
    ModeCodes,
}

/// What stands at a key.
#[derive(Clone, Copy)]
pub enum Shape {
    /// Anything: it isn't tested.
    Any,
    /// A boolean.
    Flag,
    /// A number of a range.
    Number(Range),
    /// One of two numbers.
    Either(u32, u32),
    /// One of a few words.
    Word(Words),
    /// 1 to 32 data words.
    DataWords,
    /// Any number of what a terminal may refuse.
    Refusals(Refusable),
    /// At most three turns of a retry.
    Turns,
    /// One to so many positions of a range, each greater than the one before.
    Positions(Range, usize),
    /// Tables.
    Tables,
}

/// Whether a key must be there.
#[derive(Clone, Copy)]
pub enum Presence {
    Required,
    Optional,
}

/// The versions of the plan that know a row.
#[derive(Clone, Copy)]
pub enum Versions {
    Every,
    First,
    Second,
}

/// A key of a table.
#[derive(Clone, Copy)]
pub struct Row {
    pub key: &'static str,
    pub presence: Presence,
    pub shape: Shape,
    pub versions: Versions,
}

/// The rows that all tables of a kind have, and those by what the table is.
#[derive(Clone, Copy)]
pub struct Rows {
    pub common: &'static [Row],
    pub own: &'static [Row],
}
