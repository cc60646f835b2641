//! How many ticks each frame of a schedule takes at most, and whether each next frame starts in time, whatever is struck.
//!
//! Judged by `specs/Load.antt`, and its text by `specs/Lines.antt`; `specs/InTime.antt` says what a verdict promises, and `specs/Living.antt` what a silence
//! does, of every list of faults with which the plan is accepted. None of these calls takes memory.
#![tactic(auto)]

pub mod costs;
pub mod fits;
pub mod laws;
pub mod lines;
pub mod offers;
pub mod reckoned;
pub mod silences;

pub use costs::frame_cost;
pub use fits::verdict;
pub use laws::{a_living_controller_is_soon_heard, each_frame_starts_as_planned};
pub use lines::write_load;
pub use offers::{any_offer, first_offer};
pub use reckoned::{OfferPlace, Verdict};
pub use silences::silence;
