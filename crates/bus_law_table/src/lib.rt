//! The stations of the message table beside those of the world: the fourth of the laws by which the world does what the table says. Laws alone, each the
//! contract of an empty function, over the world of any plan. Proved: before the first message the table's stations are those of the world, and over a
//! pause they stay so, no block is taken and no burst ends. The table adds blocks that are put up for sending only where a terminal obeys, so its
//! stations are compared with the loads of all ticks before. What a message changes is in the laws of its phases, which use the lemmas of these.
#![tactic(auto)]

pub mod pauses;

pub use pauses::{a_pause_changes_no_station, the_first_stations_are_present};
