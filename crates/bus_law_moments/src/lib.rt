//! Moments between two messages of the world, and messages that are told. Records, and a law alone, the contract of an empty function. A message begins
//! between two others; beside a station that doubts whether its offer of control was accepted; or beside an answer that was abandoned. From then on its
//! command is known, and the message is told: control stays, passes or is yielded, or its answer is abandoned. Proved here: what begins between two others.
#![tactic(auto)]

pub mod begun;

pub use begun::a_message_begins_between_two_others;
