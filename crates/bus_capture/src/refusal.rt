//! Why a text is no capture.

/// The first thing that is wrong with a capture text, with its offset in bytes, counted from 0.
#[derive(Clone, Copy, Debug, PartialEq, Eq)]
pub enum CaptureRefusal {
    /// The first byte that differs from the header, or the length of a text that ends within it.
    Header(u64),
    /// The first byte after the header that may not stand there. It has an offset below 2^33.
    Byte(u64),
    /// The length of a text that ends with a sample of channel A.
    HalfTick(u64),
    /// The text has more than 2^33 bytes.
    Long(u64),
}
