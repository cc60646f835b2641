//! Facts of the message table alone, with no world in it: what the stations owe and promise after a command, and after the answer to it, whatever faults
//! strike both. Laws alone, each the contract of an empty function. Proved: at most one terminal owes an answer to a command, which names it, and what it
//! owes is its status with data words; nobody promises anything but a relay's receiver, to the relay's transmitter; after the answer only the one
//! receiver of a relay owes something, its status alone, and after silence nobody does; an answer is a command for no other terminal, and a message to
//! one address whose command word is struck is one for nobody; and the answer to an offer of control is read as it was meant, or as a bad reply.
#![tactic(auto)]

pub mod answers;
pub mod commands;
pub mod offers;
pub mod slots;

pub use answers::{
    an_answer_is_no_command, nobody_owes_after_silence, only_the_memory_of_a_station_changes,
    the_answer_is_what_is_owed, who_owes_after_an_answer,
};
pub use commands::{
    a_struck_command_is_for_nobody, who_owes_after_a_command, who_promises_after_a_command,
};
pub use offers::an_offer_is_read_as_it_was_meant;
pub use slots::a_slot_is_its_word_or_none_or_an_added_one;
