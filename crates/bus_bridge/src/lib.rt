//! One station on two buses: what a terminal of the first bus takes, a terminal of the second sends.
//!
//! `specs/Headers` and `specs/Inputs` say what an input means and for what it is refused, `specs/Worlds` what both buses do in their worlds and what their log
//! holds, and `specs/Lines` its text. `specs/Runs` says for which ticks of both worlds a bridge stands while it runs.
#![tactic(auto)]

pub mod bridge;
pub mod handing;
pub mod header;
pub mod inputs;
pub mod lines;
pub mod log;
pub mod pairings;

pub use bridge::Bridge;
pub use header::Header;
pub use inputs::{BridgeError, BridgePlan, BridgeRefusal, INPUT_LIMIT, read_bridge};
pub use lines::write_bridge;
pub use log::BridgeLog;
pub use pairings::{Pairing, Pairings};

#[cfg(test)]
mod tests;
