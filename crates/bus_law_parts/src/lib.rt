//! Parts of messages as faults leave them on the wire: what a channel shows while one station sends a command or an answer that the faults of an
//! accepted plan strike, what a reader of the channel makes of it, and what is left when it is over. Laws alone, each the contract of an empty
//! function, at the lag of 3 where it matters. Above them nothing has to be known of single hits.
//! Proved: the hits that an accepted plan has on one part fit it; the slots of a part are the entries of the message table; a part is one burst; the
//! channel shows a part that is sent alone, one driver at most in each tick, and afterwards no extra is left and every station is fresh; commands are
//! counted by the parts that are commands; and a part that its station stops sending is the burst that the message table has for its first ticks.
#![tactic(auto)]

pub mod broken_off;
pub mod bursts;
pub mod fitting;
pub mod leaving;
pub mod reading;
pub mod sending;

pub use broken_off::{
    a_part_cut_short_is_a_burst, a_part_that_stops_leaves_nothing,
    a_sent_part_that_stops_is_the_burst_that_ends, a_shown_sample_is_quiet_where_it_is_faded,
};
pub use bursts::a_part_is_a_burst;
pub use fitting::the_hits_of_a_plan_fit;
pub use leaving::{a_sent_part_leaves_nothing, a_silent_station_is_fresh, commands_are_counted};
pub use reading::{a_part_is_read_as_it_is_struck, a_slot_is_its_word_or_none_or_zero};
pub use sending::{a_sender_shows_its_part, a_sent_part_is_the_burst_that_ends};
