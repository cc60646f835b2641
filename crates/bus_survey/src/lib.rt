//! The survey of a plan's faults: what each of them does alone.
//!
//! The plan is run once for each fault, with that fault alone, and the line of a run is written when it has ended. It is proved that the text is
//! the one that `specs/Lines` defines for the logs of these runs by the message table, or a front of it where the sink fails, or the lines of the faults
//! before the first one for whose run there is no memory. That these logs are those that are found in the worlds is the theorem of `bus_law_whole`.
#![tactic(auto)]

pub mod alone;
pub mod laws;
pub mod lines;
pub mod survey_writer;
pub mod surveyed;

pub use laws::{
    a_plan_with_one_fault_alone_is_accepted, items_are_counted_by_the_names_of_reports,
};
pub use survey_writer::survey;
pub use surveyed::Surveyed;
