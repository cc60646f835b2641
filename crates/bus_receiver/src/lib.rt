//! What becomes known of both channels in each tick: two cutters, and one receiver for a whole bus.
//!
//! Proved for every past: what a receiver tells of a tick is what is found in that past, and whatever its cutters stood for, what they tell is
//! found in that. So one receiver serves all who hear the bus, also those that began to hear it later, while both channels were at rest.
#![tactic(auto)]

mod cutters;
pub mod laws;
mod receiver;

pub use cutters::{Cuts, Cutters};
pub use receiver::{Moment, Receiver};
