//! The subsystems behind terminals: what takes the blocks that a terminal received, and says of them a line of the report.
//!
//! `Subsystem` is the trait through which all layers above speak with them, with its three meanings: what it tells, how much room it
//! has, and what it says. A `Recorder` keeps every delivery, a `Tally` counts them. `specs/Deliveries` defines what is told and the
//! two lines. Only `reserve` takes memory.
#![tactic(auto)]

pub mod line_text;
pub mod recorder;
pub mod subsystem;
pub mod tally;

pub use line_text::LineText;
pub use recorder::Recorder;
pub use subsystem::Subsystem;
pub use tally::Tally;

#[cfg(test)]
mod tests;
