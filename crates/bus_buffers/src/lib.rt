//! The data blocks of a remote terminal. A block is replaced whole or not at all: no part of one is ever seen.
#![tactic(auto)]

mod buffers;

pub use buffers::Buffers;
