//! What the two channels of the bus show, tick by tick, and the sets of samples that damage strikes.
//!
//! A tick is half a bit time, 0.5 microseconds: at 1 Mbit/s each bit of Manchester code has two
//! (MIL-STD-1553B 4.3.3.2, 4.3.3.3). Proved here: which lists of positions are a flip set or a fade
//! set, which rule refuses each other list and at which place, and which positions a set has.
#![tactic(auto)]

pub mod fades;
pub mod flips;
mod positions;
pub mod samples;
#[cfg(test)]
mod tests;

pub use fades::{FadeRefusal, FadeSet};
pub use flips::{FlipRefusal, FlipSet};
pub use samples::{Channel, Drive, Pair, Part, Sample, Tick};
