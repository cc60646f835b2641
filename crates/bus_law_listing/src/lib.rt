//! The words and bursts that a monitor lists are those of the message table. Laws alone, each the contract of an empty function. Proved: bursts that
//! are found one after the other are put in the order of their ends, A before B, one after the other; and a world in which the bursts of a run of the
//! table are found, and no other, has the words and bursts of that run's log, once no burst runs. Not proved here: that they are found.
#![tactic(auto)]

pub mod listing;

pub use listing::{
    a_world_lists_its_run, bursts_are_listed_in_order, the_bursts_of_the_table_are_listed,
    the_words_of_the_table_are_listed,
};
