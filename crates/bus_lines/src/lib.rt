//! From a recording of a logic analyser or an oscilloscope to a capture: the top call of the program `mastrolu-lines`.
//!
//! The recording's text is read byte by byte (`bus_recording`), each moment of it goes to the phase of both channels (`bus_phase`), and the ticks that are due then
//! are written. `specs/Converting` says what each byte adds to the text, and `specs/Ends` what each answer shows. It takes no memory.
#![tactic(auto)]

pub mod converter;
pub mod reader;
pub mod refusals;
#[cfg(test)]
mod tests;
pub mod tool;
pub mod words;
pub mod writing;

pub use tool::lines_tool;
