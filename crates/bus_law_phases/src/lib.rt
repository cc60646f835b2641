//! Phases of a message: what the world does from one moment of a message to the next, in the words of the message table. Laws alone, each the
//! contract of an empty function, at lag 3 where a burst is sent. A moment lies between two messages or in the midst of one, and a passage lists all
//! that came to pass from one tick to another. Proved, whatever faults strike the words: a command, an answer of which something is shown, one of
//! which nothing is, silence, an answer that doesn't come, and promises that run out each lead from one moment to the next, with the stations,
//! blocks, bursts and attempts of the table, and with each tick in order; a closed message leaves a moment between two messages, which lasts until the
//! next one starts; and the world of an accepted plan begins with such a moment. Not proved here: an answer that accepts control, and one that is
//! abandoned.
#![tactic(auto)]

pub mod answers;
pub mod closings;
pub mod commands;
pub mod moments;
pub mod mutes;
pub mod passages;
pub mod rests;

pub use answers::{
    a_station_that_rests_starts_nothing_beside_an_answer, a_station_that_waits_reads_the_answer,
    an_answer_is_sent, an_answer_is_sent_to_a_station_that_might_abandon_it,
    an_answer_that_might_be_abandoned_is_read, an_attempt_ends_with_its_answer,
};
pub use closings::{
    a_closed_message_leaves_a_rest, a_message_ends_without_response,
    a_message_keeps_items_until_it_is_closed, a_message_without_response_is_over,
    a_rest_owes_nothing, promises_run_out,
};
pub use commands::a_command_passes;
pub use moments::a_moment_lasts_in_silence;
pub use mutes::{a_mute_answer_is_like_none, a_mute_answer_passes};
pub use passages::{
    a_bus_stays_as_it_begins, nothing_happens_in_silence, passages_follow_one_another,
};
pub use rests::{a_moment_between_messages_lasts, the_world_begins_between_messages};
