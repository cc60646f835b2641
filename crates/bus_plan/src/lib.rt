//! Reading a plan's text: the whole grammar, and every refusal at its place.
//!
//! `read_plan` answers for every text what the function `plan_of_bytes` of `specs/PlanOf.antt` says: the plan, or the least
//! numbered rule that the text breaks, with the first place of the walk that breaks it. Want of memory is the one other answer.
//! The definition reads the document that the crate `toml` defines.
#![tactic(auto)]

mod decode;
mod decode_faults;
mod decode_items;
mod document;
mod fault_rules;
mod grammar;
mod item_rules;
pub mod laws;
mod limits;
mod place;
mod positions;
mod ranges;
mod read;
mod refusal;
mod rows;
mod rules;
mod walk;

pub use place::Place;
pub use read::read_plan;
pub use refusal::{PlanError, PlanRefusal};

#[cfg(test)]
mod tests;
