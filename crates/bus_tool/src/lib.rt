//! The top call: all that the program does, with the cause of each of its answers.
#![tactic(auto)]

mod bench;
mod bridging;
mod capture;
mod capture_writer;
mod ended;
mod input;
mod judging;
mod listing;
mod load;
mod outcome;
mod refusals;
mod run;
mod survey;
#[cfg(test)]
mod tests;
mod text;
mod tool;
mod words;

pub use ended::Ended;
pub use text::Text;
pub use tool::bus_tool;
