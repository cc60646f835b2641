//! How the program ends.

use bus_run::FinishedBus;

/// What the top call answers.
#[derive(Drop)]
pub struct Ended {
    /// The status with which the program ends, 0 to 6.
    pub status: u8,
    /// The bus whose run ended: there exactly where a plan was run and its whole text was written, with status 0 or 1.
    pub bus: Option<FinishedBus>,
}
