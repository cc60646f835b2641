//! What a remote terminal hears on one channel: the last command for it in the burst that runs, with what follows it, the bursts that
//! end, and whether the channel is ignored since the terminal sends there itself (MIL-STD-1553B 4.4.3). Proved for every past.
#![tactic(auto)]

mod ear;

pub use ear::{Ear, Heard, HeardBurst, HeardTick, MOST_SLOTS};
