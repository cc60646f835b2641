//! The text of a recording, read byte by byte: when the channels change, in whole picoseconds, and what they show from then on.
//!
//! A value change dump is read by `VcdReader`, rows of numbers by `RowReader`. Each is proved to do what `specs/Vcd` and `specs/Rows` say of each byte,
//! whatever it is: it answers the moment that a byte ends, or the first refusal with its offset, and that again ever after. It takes no memory.
#![tactic(auto)]

pub mod fields;
pub mod laws;
pub mod moment;
pub mod number;
pub mod refusal;
pub mod rows;
pub mod scale;
#[cfg(test)]
mod tests;
pub mod token;
pub mod vcd;
pub mod wires;

pub use fields::Columns;
pub use moment::Moment;
pub use refusal::RecordingRefusal;
pub use rows::RowReader;
pub use vcd::VcdReader;
pub use wires::{Wire, Wires};
