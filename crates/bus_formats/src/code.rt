//! The mode codes and what a mode command carries (MIL-STD-1553B 4.3.3.5.1.7).
//!
//! Judged by `specs/Codes.antt`. The table of legal mode commands stands here once, row for row as in the standard.
ghost use Rattle.std.specs.Prelude.{◌≡◌, option_map};
ghost use Rattle.bus_formats.specs.Codes as spec;

use crate::{Carries, ModeEntry};

/// Offers control of the bus to the addressed terminal (4.3.3.5.1.7.1).
pub const DYNAMIC_BUS_CONTROL: u8 = 0;
/// Tells the terminals to synchronize (4.3.3.5.1.7.2).
pub const SYNCHRONIZE: u8 = 1;
/// Asks for the status that answered the last valid command (4.3.3.5.1.7.3).
pub const TRANSMIT_STATUS_WORD: u8 = 2;
/// Starts the terminal's self-test (4.3.3.5.1.7.4).
pub const INITIATE_SELF_TEST: u8 = 3;
/// Turns off the transmitter of the other channel (4.3.3.5.1.7.5).
pub const TRANSMITTER_SHUTDOWN: u8 = 4;
/// Turns on the transmitter of the other channel (4.3.3.5.1.7.6).
pub const OVERRIDE_TRANSMITTER_SHUTDOWN: u8 = 5;
/// Holds the terminal flag at 0 (4.3.3.5.1.7.7).
pub const INHIBIT_TERMINAL_FLAG: u8 = 6;
/// Lets the terminal flag show again (4.3.3.5.1.7.8).
pub const OVERRIDE_INHIBIT_TERMINAL_FLAG: u8 = 7;
/// Brings the terminal to the state in which it was switched on (4.3.3.5.1.7.9).
pub const RESET_REMOTE_TERMINAL: u8 = 8;
/// Asks for the vector word (4.3.3.5.1.7.11).
pub const TRANSMIT_VECTOR_WORD: u8 = 16;
/// Tells the terminals to synchronize, with a data word (4.3.3.5.1.7.12).
pub const SYNCHRONIZE_WITH_DATA: u8 = 17;
/// Asks for the last valid command (4.3.3.5.1.7.13).
pub const TRANSMIT_LAST_COMMAND: u8 = 18;
/// Asks for the built-in test word (4.3.3.5.1.7.14).
pub const TRANSMIT_BIT_WORD: u8 = 19;

/// What the table says of the mode command with this transmit bit and mode code.
pub fn mode_of(transmit: bool, code: u8) -> ModeEntry
    ensures { result ≡ spec.mode_of transmit code }
{
    let carries = carried(transmit, code);
    match may_broadcast(transmit, code) {
        Some(broadcast) => ModeEntry {
            legal: true,
            broadcast,
            carries,
        },
        None => ModeEntry {
            legal: false,
            broadcast: true,
            carries,
        },
    }
}

/// Which data word a mode command carries: none with the codes 0 to 15, and one with those above.
pub fn carried(transmit: bool, code: u8) -> Carries
    ensures { result ≡ spec.carried transmit code }
{
    match (code < 16, transmit) {
        (true, _) => Carries::Nothing,
        (false, true) => Carries::FromTerminal,
        (false, false) => Carries::ToTerminal,
    }
}

// Whether a legal mode command may be broadcast. None where the command isn't legal.
fn may_broadcast(transmit: bool, code: u8) -> Option<bool>
    ensures { result ≡ option_map (λ r. r.broadcast) (spec.row_of transmit code) }
{
    match (transmit, code) {
        (true, DYNAMIC_BUS_CONTROL) => Some(false),
        (true, SYNCHRONIZE) => Some(true),
        (true, TRANSMIT_STATUS_WORD) => Some(false),
        (true, INITIATE_SELF_TEST) => Some(true),
        (true, TRANSMITTER_SHUTDOWN) => Some(true),
        (true, OVERRIDE_TRANSMITTER_SHUTDOWN) => Some(true),
        (true, INHIBIT_TERMINAL_FLAG) => Some(true),
        (true, OVERRIDE_INHIBIT_TERMINAL_FLAG) => Some(true),
        (true, RESET_REMOTE_TERMINAL) => Some(true),
        (true, TRANSMIT_VECTOR_WORD) => Some(false),
        (false, SYNCHRONIZE_WITH_DATA) => Some(true),
        (true, TRANSMIT_LAST_COMMAND) => Some(false),
        (true, TRANSMIT_BIT_WORD) => Some(false),
        _ => None,
    }
}
