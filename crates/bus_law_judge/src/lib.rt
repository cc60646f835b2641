//! What the judge finds clean. Laws alone, each the contract of an empty function. Proved: a past whose bursts follow one another in order, each of them apart from
//! the one before, in time where it is an answer, whole, and what is due, has no breach, once no burst runs on either channel.
#![tactic(auto)]

pub mod judging;

pub use judging::bursts_in_order_are_judged_clean;
