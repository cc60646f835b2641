//! What a station does of all that it hears: the second of the laws by which the world does what the message table says. Laws alone, each
//! the contract of an empty function, over one station and any past. Proved: quiet ticks change nothing of a station before something is due;
//! a terminal obeys the burst that ends, or ignores what it sent; a controller sends its command and reads the answers; and a station that serves
//! hears by its terminal alone, one in control by its controller.
#![tactic(auto)]

pub mod answers;
pub mod legs;
pub mod messages;
pub mod silence;
pub mod turns;

pub use answers::{a_settled_promise_is_answered_when_due, an_obeyed_command_is_answered_when_due};
pub use legs::{
    a_burst_is_obeyed_or_taken, a_quiet_channel_is_not_heeded, a_running_burst_changes_only_marks,
    a_sender_ignores_what_it_sends,
};
pub use messages::{a_controller_sends_its_command, an_answer_is_read};
pub use silence::{
    a_promise_runs_out_in_silence, quiet_ticks_change_no_controller, quiet_ticks_change_no_station,
    quiet_ticks_change_no_terminal,
};
pub use turns::{
    a_serving_station_hears_by_its_terminal, a_station_in_control_hears_by_its_controller,
};
