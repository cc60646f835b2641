//! The whole run of every accepted plan, in which messages may be abandoned and may offer control. Laws alone, each the contract of an empty function.
//! Proved at lag 3: from each of three sorts of moment, between two messages, beside a station in doubt and beside an abandoned answer, the next message
//! begins, is told, and leaves one of them; so the world comes as far as the run of the message table after each attempt, and does what that run says,
//! from the first tick to the last. What each message does is told by bus_law_told, bus_law_offers, bus_law_abandoned and bus_law_beside.
#![tactic(auto)]

pub mod changes;
pub mod control;
pub mod runs;
pub mod whole;

pub use changes::{
    a_bus_goes_on_without_those_that_left, the_others_rest_where_the_station_in_control_leaves,
};
pub use control::{control_stays_in_one_hand, no_block_is_taken_as_control_is_accepted};
pub use runs::{
    a_run_by_the_stations_present_goes_on, a_run_goes_on_from_each_moment,
    each_run_is_over_at_its_end, each_run_stands_after_each_attempt,
};
pub use whole::each_world_does_what_its_run_says;
