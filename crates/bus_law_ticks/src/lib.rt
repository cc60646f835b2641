//! Terminals and controllers by tick numbers. The definitions go on tick by tick, and keep only what the next tick needs; here it is said once more of
//! a whole hearing or history, so that a reader can check the definitions. Laws alone, each the contract of an empty function. Proved: which block a
//! subaddress has received; which command is obeyed, and which burst is taken for a promise; what the last order left; when an answer that is owed is
//! sent or given up, and when a promise runs out; which channel a terminal heeds; and, for a controller, which answer counts and when a message ends
//! without one.
#![tactic(auto)]

pub mod blocks;
pub mod heeding;
pub mod orders;
pub mod replies;
pub mod standing;

pub use blocks::{
    a_block_taken_is_all_of_a_burst, a_receive_block_is_the_last_block_taken,
    a_receive_block_stays_or_is_the_block_taken,
};
pub use heeding::{a_channel_is_heeded_where_no_answer_runs, addressed_slots_are_marked};
pub use orders::{
    a_command_is_obeyed_unless_a_newer_one_came, a_promise_ends_with_the_31st_quiet_tick,
    a_promised_burst_is_taken_within_30_dead_ticks,
    an_answer_is_given_up_by_a_newer_command_or_a_sample,
    an_order_is_handled_with_the_end_of_its_burst,
};
pub use replies::{
    a_message_without_a_response_ends_after_25_quiet_ticks, an_answer_counts_within_24_dead_ticks,
    the_answer_is_the_next_burst,
};
pub use standing::{an_answer_is_sent_from_its_due_tick_on, what_the_last_order_left_stands};
