//! A benchmark: a plan that a generator of numbers draws, its run, and one line on it.
//!
//! `specs/Generated` says which plan it is, and `specs/Lines` what is written. It is proved that each such plan is accepted, that it is run to its
//! end, and that the line is that of the log of its run.
#![tactic(auto)]

pub mod generated;
pub mod laws;
pub mod lines;
pub mod messages;
pub mod runs;

pub use generated::bench_plan;
pub use laws::each_plan_that_is_drawn_is_accepted;
pub use lines::bench_line;
pub use runs::run_bench;
