//! Blocks that are handed on from one bus to another. Laws alone, each the contract of an empty function, over the definitions alone.
//! Proved: a bus in its first ticks is the same whatever is put up later; and a block that is handed on has words.
#![tactic(auto)]

pub mod loads;

pub use loads::{a_block_that_is_taken_has_words, later_loads_change_nothing};
