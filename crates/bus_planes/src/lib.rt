//! The line in bits: what `bus_line` says of one channel sample by sample, of many ticks at once.
//!
//! `BitCutter` is judged by `cut_now` of `bus_line`, as `bus_line::Cutter` is: at each tick it tells what is found in the past. It keeps the slot that
//! isn't whole yet as two numbers, and says how many ticks to come tell nothing; these it passes in one step.
#![tactic(auto)]

pub mod cutter;
pub mod slot;

pub use cutter::BitCutter;
pub use slot::read_slot;
