//! What the world shows of a command, and of the pauses before it: the third of the laws by which the world does what the message table says. Laws
//! alone, each the contract of an empty function, over the world of any plan. Proved: the world begins settled, and pauses until a message starts; from
//! a settled moment the station in control sends its command alone, and every other station obeys it or passes over it. The command is one of which the
//! faults leave no sample quiet; any other is in the laws of the phases of a message, which use the lemmas of these.
#![tactic(auto)]

pub mod commands;
pub mod pauses;

pub use commands::{a_command_is_sent_alone, a_sent_command_is_heard};
pub use pauses::{the_world_begins_settled, the_world_pauses_until_a_message_starts};
