//! What stations do as control passes between them, and of messages that were abandoned: laws over one station and any past. Laws alone, each
//! the contract of an empty function. Proved: a station that holds control has heard nothing, and stays silent while it rests, waits or doubts; a
//! status that accepts an offer passes control, and a bad one leaves the offerer in doubt; an answer of which nothing is shown is over; and an
//! answer is abandoned in its tick, and sent on beside the command that supersedes it until that is for its terminal.
#![tactic(auto)]

pub mod abandoning;
pub mod answers;
pub mod beside;
pub mod doubts;
pub mod holders;
pub mod offers;
pub mod turns;
pub mod waiting;

pub use abandoning::{
    a_controller_abandons_in_its_tick, a_message_ends_as_its_answer_is_read,
    a_message_is_not_abandoned_before_its_tick, an_answer_that_is_not_abandoned_is_read,
};
pub use answers::a_mute_answer_is_over;
pub use beside::{
    a_burst_without_a_command_is_not_heeded, a_terminal_that_heeds_nothing_stays_as_it_is,
    an_answer_is_sent_on_beside_a_burst, an_ignored_channel_is_not_heeded,
};
pub use doubts::{
    a_doubting_offerer_keeps_control_after_eighty_quiet_ticks,
    a_doubting_offerer_yields_to_the_first_sample, a_passed_offer_gives_control,
    a_yielding_station_hears_the_tick, an_offerer_doubts,
};
pub use holders::{
    a_holder_closes_its_message_unheard, a_holder_doubts_in_silence,
    a_holder_rests_before_its_next_message, a_holder_waits_for_its_answer,
};
pub use offers::{a_status_that_accepts_is_accepted, an_accepting_station_takes_control};
pub use turns::{
    a_holder_has_heard_nothing, a_holder_keeps_control, an_attempt_that_ended_did_so_before,
};
pub use waiting::{
    a_controller_without_a_message_waits_for_its_start, a_message_waits_for_quiet,
    a_station_that_took_control_starts_in_its_tick,
    a_waiting_controller_hears_its_own_channel_alone, an_abandoned_message_is_superseded_at_once,
};
