//! The formats of a table.

/// How a table is written.
#[derive(Clone, Copy, Debug, PartialEq, Eq)]
pub enum Format {
    /// A line of names, then a line of cells parted by commas for each row.
    Csv,
    /// An object a line for each row, then one with the number of ticks and of rows.
    Json,
}
