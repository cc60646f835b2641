//! Offers of control in the world (dynamic bus control, MIL-STD-1553B 4.3.3.5.1.7.1). Laws alone, each the contract of an empty function. Proved at lag 3:
//! a message that began and isn't abandoned is told, whatever faults strike it. Control stays, and the message is what the message table says; or the
//! message offered control, a terminal accepted it, and control passes where the status is read so, and is yielded where it is read badly. A station that
//! doubts whether its offer was accepted closes its message after eighty quiet ticks where nobody took control. Where a terminal did, the moment in which
//! it doubts lasts in silence until that one starts; with the first sample of its first command the station that doubted yields, its attempt ends so in
//! that tick, and its terminal hears that command like every other one. Each tick is in order. Not proved here: messages that are abandoned.
#![tactic(auto)]

pub mod doubts;
pub mod offers;

pub use doubts::{a_doubt_lasts_in_silence, a_message_begins_in_doubt};
pub use offers::{a_message_that_is_not_abandoned_is_told, an_offer_that_is_accepted_is_told};
