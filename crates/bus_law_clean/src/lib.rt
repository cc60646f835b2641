//! What is sent without a fault is what a monitor awaits. Laws alone, each the contract of an empty function; no world is in them. Proved: a command that is sent
//! whole opens its own message; whatever a terminal owes to it is, sent whole, an answer that is due; and commands and answers that are sent whole, apart from one
//! another and in time, follow one another in order, so that the judge finds no breach in them; so a message of the
//! table that no fault strikes, and that isn't abandoned, keeps the bursts before it in order; and so do all messages of a run of which no message is disturbed.
#![tactic(auto)]

pub mod reading;
pub mod rows;
pub mod runs;

pub use reading::{a_command_opens_its_message, the_answer_to_a_whole_command_is_due};
pub use rows::{
    a_command_follows_in_order, a_message_keeps_the_bursts_in_order, an_answer_follows_in_order,
};
pub use runs::an_undisturbed_run_keeps_its_bursts_in_order;
