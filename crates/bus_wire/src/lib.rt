//! The wire: what both channels show of what the stations drive, with the faults of a plan, and how many stations drive each of them
//! (MIL-STD-1553B 4.4.1.2, 4.4.1.3; the faults are the project's own). It is proved to show what `bus_model` defines, for every list of
//! faults and of what was driven.
#![tactic(auto)]

mod side;
mod strikes;
mod transmitter;
mod wire;

pub use wire::{Shown, Wire};

#[cfg(test)]
mod tests;
