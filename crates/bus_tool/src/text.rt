//! What a command writes of a plan's run.

/// The text that is asked for.
#[derive(Clone, Copy, Debug, PartialEq, Eq)]
pub enum Text {
    /// The report of the run.
    Report,
    /// The capture of what both channels show, where no station has a subsystem.
    Capture,
}
