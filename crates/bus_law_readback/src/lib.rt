//! What `capture` wrote of a run is decoded to the words of that run, and judged. Laws alone, each the contract of an empty function; nothing stands on them. Proved, of
//! every accepted plan and whatever faults it names: the bus does the same in each tick with and without the subsystems that the plan names, so both runs end
//! in one tick; the text that `capture` writes of the run is never too long to be read, and is read as exactly the ticks of that run; and `decode` lists of
//! it, line by line, the words that the report of the run lists, and then the number of ticks. Of a plan that names no fault, and of which no message may be
//! abandoned: the run has no breach of the rules of timing, and `judge` finds the capture clean. Of the commands together this is said by the record of the
//! top call, for streams that tell what they hold.
#![tactic(auto)]

pub mod alike;
pub mod commands;
pub mod judging;
pub mod readback;

pub use alike::a_bus_runs_alike_without_its_subsystems;
pub use commands::decode_lists_the_words_of_the_report;
pub use judging::{
    an_undisturbed_run_has_no_breach, judge_finds_the_capture_of_an_undisturbed_run_clean,
};
pub use readback::{a_capture_of_a_run_is_decoded_to_its_words, the_capture_of_a_run_is_listed};
