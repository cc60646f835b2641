//! The pieces of which printed lines are made: numbers, words, channels, outcomes, and a line of fixed capacity that they are added to.
//!
//! Each call adds exactly the text that `specs/Texts` defines. None takes memory.
#![tactic(auto)]

pub mod line;
pub mod pieces;

pub use line::Line;
