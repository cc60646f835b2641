//! What a whole run is told by: the record that says that the world of a plan does what its run by the message table says, and what holds of it
//! whichever messages the plan has. Laws alone, each the contract of an empty function. Proved: the world rests before the first tick as its run does; where
//! it rests so once no item is left, it is over in the tick that the table says, and its log is the run's; and it does what the run says where besides each
//! terminal hears what is shown or takes no block. At every lag each receive block of a terminal stays or becomes one that it takes, whole, and one is
//! taken only where the end of a burst becomes known; a station of which no message offers control, nor may be abandoned, keeps control; and a message
//! waits until the one before it is over. Not proved here: that the world comes to rest as its run does after all its attempts, which is in bus_law_whole.
#![tactic(auto)]

pub mod blocks;
pub mod control;
pub mod rests;
pub mod runs;
pub mod whole;

pub use blocks::{a_block_changes_whole, a_block_is_taken_where_a_burst_ends};
pub use control::control_is_kept_where_none_is_offered;
pub use rests::{
    a_run_at_rest_is_over_at_its_end, a_run_begins_at_rest, the_log_of_a_run_at_rest_is_found,
};
pub use runs::the_next_message_waits;
pub use whole::a_world_at_rest_does_what_its_run_says;
