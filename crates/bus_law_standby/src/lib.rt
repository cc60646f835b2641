//! A second controller takes over, in the world. Laws alone, each the contract of an empty function.
//! Proved: where nobody holds control and the channels rest, one station that takes it by itself holds it, and the others serve on; and where the station in
//! control leaves between two messages, and another one takes control after a silence, the world stands with the run of the message table.
#![tactic(auto)]

pub mod takeover;
pub mod takes;

pub use takeover::a_standby_takes_over_between_two_messages;
pub use takes::{
    a_later_take_changes_nothing_before, a_station_takes_control_in_a_silence,
    the_world_stands_with_the_run_where_control_was_taken,
};
