//! Whether all that a capture shows was in order, and if not, what and where: the breaches of the rules of timing (MIL-STD-1553B 4.3.3.6 to 4.3.3.8, 4.4.1.1,
//! 4.4.1.3, 4.6), written while the capture is read, in no memory.
//!
//! Breaches are stated over the bursts and messages of a whole past (`specs/Breaches.antt`), as the monitor's listings have them; the judge works tick by tick
//! on the lister of `bus_monitor`. Proved: what it wrote is the judgement of the ticks that were read, whatever the pieces that they came in.
#![tactic(auto)]

pub mod breach;
mod breach_text;
mod capture_judge;
mod channel_judge;
pub mod judgement;
pub mod laws;
#[cfg(test)]
mod tests;

pub use breach::{Breach, Rule};
pub use judgement::{Judgement, judge};
