//! The bus: the stations of a plan over its wire, tick by tick, what a monitor hears of it, and the log of its run (MIL-STD-1553B 4.4.4,
//! 4.6).
//!
//! `specs/Stands` says for which plan and number of ticks a bus stands. It is proved that after so many ticks what `tick` answered is what
//! the channels show in the world of the plan, each station stands for its plan and that world, and the attempts, words, bursts and clashes
//! are those that are found there; that the run ends exactly in the tick in which the plan's run by the message table does, no two stations drive one
//! channel before, and control is in one hand; and that the log of a finished run is the table's, which is the one that `bus_model` finds in the world. Each
//! object that tells what it took tells in addition, tick by tick, the blocks that the terminal of its station took, in their order and no others
//! (`specs/Deliveries`), and after the run those that the table delivers (`specs/Tables`). `prepare` takes all memory, and a tick none. It stands on the
//! theorem of `bus_law_whole`: so no bound on ticks or on what a run brings is tested while it runs.
#![tactic(auto)]

pub mod alone;
pub mod amounts;
pub mod burst_lister;
pub mod bus;
pub mod called;
pub mod copies;
pub mod driven_wire;
pub mod ends;
pub mod finished;
pub mod hearing;
pub mod joined;
pub mod kept;
pub mod laws;
pub mod loading;
pub mod monitor;
pub mod objects;
pub mod prepare;
pub mod room;
pub mod station_row;
pub mod taken;

pub use alone::run_without_subsystems;
pub use bus::Bus;
pub use finished::FinishedBus;
pub use joined::JoinedBus;
pub use laws::{
    a_delivery_is_for_data, all_that_a_run_brings_has_room, each_object_is_of_its_station,
    no_objects_without_subsystems, sixty_two_objects_are_enough,
    terminals_take_what_the_table_delivers,
};
pub use taken::TakenBlock;
