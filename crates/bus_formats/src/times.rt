//! The times of the bus in ticks of half a microsecond (MIL-STD-1553B 4.3.3.7 to 4.3.3.9), and the waits that the standard leaves open.
//!
//! Judged by `specs/Times.antt`. A gap is measured from the middle of a parity bit to the middle of the next sync, and
//! four of its ticks lie in the words on both sides.
ghost use Rattle.std.specs.Prelude.{◌≡◌};
ghost use Rattle.bus_formats.specs.Times as spec;

/// The ticks of a gap that lie in the words before and after it.
pub const TICKS_IN_WORDS: u16 = 4;

/// The dead ticks of the least gap between messages (4.3.3.7).
pub const LEAST_QUIET: u16 = 4;

/// The most dead ticks before an answer that counts (4.3.3.9).
pub const NO_RESPONSE: u16 = 24;

/// The ticks for which a relay's receiver waits for the transmitter's answer (the project's own).
pub const RELAY_WAIT: u64 = 30;

/// The ticks for which both channels are quiet before the next message, after one that didn't go well (the project's own).
pub const SETTLING_QUIET: u16 = 40;

/// The ticks from the end of an answer that accepted control to the first command of its station (the project's own).
pub const TAKING_OVER: u64 = 40;

/// The quiet ticks after which an offerer whose offer was answered badly keeps control (the project's own).
pub const DOUBTING: u64 = 80;

/// The quiet ticks after which a run ends (the project's own).
pub const ENDING_QUIET: u64 = 80;

/// The dead ticks of a gap, in which the channel is quiet.
pub fn dead_ticks(gap: u16) -> u16
    ensures { result ≡ spec.dead_ticks gap }
{
    gap.saturating_sub(TICKS_IN_WORDS)
}

/// The constants are those of the definitions.
pub fn times_are_defined()
    ensures quiet { LEAST_QUIET ≡ spec.least_quiet }
    ensures response { NO_RESPONSE ≡ spec.no_response }
    ensures relay { RELAY_WAIT ≡ spec.relay_wait }
    ensures settling { SETTLING_QUIET ≡ spec.settling_quiet }
    ensures taking { TAKING_OVER ≡ spec.taking_over }
    ensures doubting { DOUBTING ≡ spec.doubting }
    ensures ending { ENDING_QUIET ≡ spec.ending_quiet }
{}
