//! What a remote terminal makes of a command with the words after it, and of the words that a relay's transmitter sends to it
//! (MIL-STD-1553B 4.4.3): which registers and blocks it leaves, which block the terminal took whole, and what it owes. Each call is
//! proved to do what `bus_model`'s definitions of orders say.
#![tactic(auto)]

mod commands;
mod done;
mod memory;
mod obeying;
mod promise;
mod registers;

pub use done::{Answer, Done, Duty, Promise, Taken};
pub use memory::Memory;
pub use obeying::obey;
pub use promise::{keep_promise, unkept};
pub use registers::status_of;
