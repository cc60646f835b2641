//! What a channel shows while one station sends, and while nobody does: the first of the laws by which the world does what the message table
//! says. Laws alone, each the contract of an empty function, over what the stations of a plan drive, whatever makes them drive it.
//! Proved: the channel shows the words as the faults of the plan strike them, one driver in each tick; a channel that is left alone is quiet;
//! and words sent whole, between quiet ticks, are the burst that ends.
#![tactic(auto)]

pub mod bursts;
pub mod sending;

pub use bursts::{what_was_sent_is_the_burst_that_ends, words_are_sent_without_an_end};
pub use sending::{
    a_channel_left_alone_is_quiet, a_sender_shows_its_words, nothing_is_sent_after_the_words,
    the_world_shows_what_is_driven,
};
