//! A remote terminal, apart from any controller (MIL-STD-1553B 4.4.3): what it sends, what it keeps and what it tells, for every history of
//! both channels. Its states are types. A tick in which nothing is handled, and no state is left, is heard in place; any other consumes the state
//! and gives the next. What each state is known to be in ticks is a law of its own.
#![tactic(auto)]

mod answering;
mod common;
mod handling;
mod invariants;
mod listening;
mod owing;
mod promised;
mod state;
mod terminal;
#[cfg(test)]
mod tests;
pub mod waiting;

pub use answering::Answering;
pub use common::BothHeard;
pub use invariants::{
    a_promise_waits_thirty_dead_ticks, an_answer_runs_from_its_due_tick, an_owed_answer_is_not_due,
    listening_owes_nothing,
};
pub use listening::Listening;
pub use owing::Owing;
pub use promised::Promised;
pub use state::{Step, TerminalEvent, TerminalNext, TerminalState};
pub use terminal::Terminal;
