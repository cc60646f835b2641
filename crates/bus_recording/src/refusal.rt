//! Why a text is no recording.

/// The first thing that is wrong with a recording, with its offset in bytes, counted from 0.
#[derive(Clone, Copy, Debug, PartialEq, Eq)]
pub enum RecordingRefusal {
    /// It says no unit of time that can be used before its values begin.
    NoTimescale,
    /// No one-bit variable has the name of this line, counted from 0.
    NoLine(u8),
    /// The token that begins here may not stand there, or says a time past 2^59 ps.
    Token(u64),
    /// The token that begins here says a time before the one that came before it.
    Time(u64),
    /// The text has more than 2^33 bytes.
    Long(u64),
}
