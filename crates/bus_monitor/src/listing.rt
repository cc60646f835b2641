//! What a listing comes to.
use bus_capture::CaptureRefusal;

/// How a listing of a capture ended.
#[derive(Clone, Copy, Debug, PartialEq, Eq)]
pub enum Listing {
    /// The capture was read to its end, and the whole listing was written. The number of its ticks.
    Done(u64),
    /// The text is no capture. The lines that the ticks before the refused byte complete were written.
    Refused(CaptureRefusal),
    /// A read failed. The lines that the ticks before it complete were written.
    ReadFault,
    /// A write failed. A front of the lines was written.
    WriteFault,
}
