//! A second controller that takes over: what its input says, and what is printed of its run.
//!
//! `specs/Inputs.antt` says what an input means and for what it is refused, `specs/Standing.antt` how such a bus goes on tick by tick, `specs/Takeover.antt` what its
//! log is, in the world and by the message table, and `specs/Lines.antt` its text.
#![tactic(auto)]

pub mod header;
pub mod inputs;
pub mod laws;
pub mod lines;
pub mod log;

pub use header::Header;
pub use inputs::{INPUT_LIMIT, StandbyError, StandbyPlan, StandbyRefusal, read_standby};
pub use laws::{
    a_standby_begins_after_the_primary_stopped, a_station_that_does_not_serve_changes_no_message,
    the_primary_ended_the_attempts_before,
};
pub use lines::write_standby;
pub use log::StandbyLog;

#[cfg(test)]
mod tests;
