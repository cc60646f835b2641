//! What a survey comes to.

/// How a survey ended.
#[derive(Clone, Copy, Debug, PartialEq, Eq)]
pub enum Surveyed {
    /// Each fault was tried, and the whole text was written.
    Done,
    /// There was no memory for a run. The lines of the faults before it were written.
    NoMemory,
    /// A write failed. A front of the text was written.
    WriteFault,
}
