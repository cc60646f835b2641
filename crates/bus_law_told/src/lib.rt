//! What messages of the world are told by, whatever faults strike them. Laws alone, each the contract of an empty function. Proved at lag 3: what the
//! table's message is by what is shown of its answers, what the station in control does beside an answer, and what it waits for afterwards. With the phases
//! of bus_law_phases its lemmas (proofs/Telling) tell each message that began, in whatever moment, isn't abandoned and gives no control away: it offers none,
//! nothing is shown of an answer to its offer, or the offer is refused. The law on all messages that aren't abandoned stands in bus_law_offers.
#![tactic(auto)]

pub mod holders;
pub mod tables;

pub use holders::{
    a_message_that_went_badly_leaves_quiet, a_station_in_control_holds_beside_an_answer,
    an_answer_without_an_offer_gives_no_control,
};
pub use tables::{
    a_message_is_told_by_its_answers, bursts_end_with_the_last_one, stations_settle_once,
    the_answers_of_a_message_are_those_of_the_table, what_an_answer_of_the_table_is,
};
