//! A station: a terminal and a controller, of which one listens to the bus and the other holds or awaits control (dynamic bus control,
//! MIL-STD-1553B 4.3.3.5.1.7.1). It is proved to do what `bus_model` says of a station, for every history of both channels.
#![tactic(auto)]

mod event;
mod hearing;
pub mod laws;
mod role;
mod station;
#[cfg(test)]
mod tests;
pub mod waiting;

pub use event::StationEvent;
pub use laws::{a_load_elsewhere_changes_nothing, the_stations_of_an_accepted_plan_fit};
pub use role::Role;
pub use station::Station;
