//! A bus controller for every history of both channels: which command it sends when, how each message ends, and what it does next
//! (MIL-STD-1553B 4.4.2). It is proved to do what `bus_model` says of a controller.
#![tactic(auto)]

pub mod agenda;
mod attempt;
mod close;
pub mod controller;
pub mod doubting;
pub mod expecting;
pub mod holding;
mod opening;
mod place;
mod queue;
pub mod sending;
pub mod settling;
pub mod states;
pub mod yielded;

pub use agenda::Agenda;
pub use controller::Controller;
pub use doubting::Doubting;
pub use expecting::Expecting;
pub use holding::Holding;
pub use sending::Sending;
pub use settling::Settling;
pub use states::{ControllerEvent, ControllerNext, ControllerState};
pub use yielded::Yielded;

#[cfg(test)]
mod tests;
