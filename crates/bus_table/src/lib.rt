//! The table of a capture: a row for each of its messages, with their data words, gaps and response times, and why the first bad word of a
//! message is bad; as CSV, or as a JSON object a line.
//!
//! A row is defined over the message of the listing of messages and over its bursts (`specs/Rows.antt`, `specs/Exchanges.antt`,
//! `specs/Flaws.antt`), and its text field by field (`specs/Texts.antt`). Proved: what `write_table` wrote of a capture is the table of its
//! ticks (`specs/Tables.antt`), whatever the pieces that it came in; it takes no memory. The lines of `messages` can be made of the rows (`laws`).
#![tactic(auto)]

pub mod channel_rows;
mod contents;
mod course;
mod fields;
pub mod flaw;
pub mod format;
mod groups;
mod kinds;
pub mod laws;
mod notes;
pub mod table;
#[cfg(test)]
mod tests;
pub mod tool;
pub mod write;

pub use flaw::{BadWord, Flaw, slot_flaw};
pub use format::Format;
pub use tool::table_tool;
pub use write::write_table;
