//! Where bytes come from and where they go: two traits with a written meaning, and their
//! implementations over memory and over the standard library's streams.
//!
//! A source or a sink counts its faults. Proved here: what each call takes, gives, adds and counts,
//! so that whoever hands one in can tell afterwards whether a call that failed had a cause.
#![tactic(auto)]

mod copying;
mod memory_sink;
mod memory_source;
mod read_source;
mod steady;
mod streams;
#[cfg(test)]
mod tests;
mod write_sink;

pub use memory_sink::MemorySink;
pub use memory_source::MemorySource;
pub use read_source::ReadSource;
pub use steady::{NullSink, SteadySource};
pub use streams::{Failed, Sink, Source};
pub use write_sink::WriteSink;
