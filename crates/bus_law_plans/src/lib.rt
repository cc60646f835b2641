//! What holds in each run of an accepted plan by the message table alone. Laws alone, each the contract of an empty function; no world is in them. Proved: the
//! stations of a run are those of the plan, what is left of each is a rest of its agenda, and who serves; which message comes next, and that after an
//! abandoned answer it is the one that supersedes it; what its terminals keep and answer stays within the ranges of words; how many attempts and
//! ticks its agendas have; the bounds on its ticks, bursts and words; and, where no fault deceives the count of an answer's words, that each block
//! that it delivers is the one that was sent, whole. Not proved here: that the world does what the message table says.
#![tactic(auto)]

pub mod amounts;
pub mod bounds;
pub mod deliveries;
pub mod entries;
pub mod memories;

pub use amounts::an_agenda_has_so_many_attempts;
pub use bounds::a_run_keeps_its_bounds;
pub use deliveries::deliveries_are_sent_blocks;
pub use entries::{
    a_run_without_a_next_item_is_finished, a_station_keeps_its_place,
    an_abandoned_answer_is_superseded_next, entries_are_of_the_plan, the_next_item_may_be_sent,
};
pub use memories::{answers_keep_word_ranges, memories_keep_word_ranges};
