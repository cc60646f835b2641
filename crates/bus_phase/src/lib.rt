//! The phase of a recording: from the levels that two channels show at moments, in picoseconds, to their samples in ticks of half a bit time.
//!
//! A sender's clock may be off by a tenth of a percent, and its crossings by 150 ns. So ticks are counted from the crossings themselves, in whole numbers and
//! constant memory. Proved here: each call does what `specs/Phases` says, and a burst whose crossings lie within 125 ns of whole ticks from
//! one to the next has the samples of these numbers (`laws`).
#![tactic(auto)]

pub mod anchor;
pub mod cleaner;
pub mod follower;
pub mod laws;
pub mod phase;
pub mod row;
#[cfg(test)]
mod tests;
pub mod times;
pub mod track;

pub use phase::Phase;
