//! A message that begins beside an answer that was abandoned (superseding valid commands, MIL-STD-1553B 4.4.3.2; that a controller abandons answers is the
//! project's own). Laws alone, each the contract of an empty function, at lag 3. Two stations send at once, on two channels. Proved, whatever faults
//! strike both: what each channel shows tick by tick, that no two stations drive one, that every other station passes over both, that the station whose
//! answer was abandoned sends it on until the first word of the command is heard whole, and obeys the command, and that the command and the answer are
//! found in the order of their ends; so the message began, as between two others, where the answer is over by the end of its command, as it always is if
//! the first word is valid. Where that word is struck and the answer runs on after the command, the message is told once both are over: it ended without a
//! response, and nobody took a block of it.
#![tactic(auto)]

pub mod beginning;

pub use beginning::a_message_begins_beside_an_abandoned_answer;
