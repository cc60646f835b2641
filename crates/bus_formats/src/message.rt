//! The ten message formats: what the controller sends, and which answers it expects (MIL-STD-1553B 4.3.3.6).
//!
//! Judged by `specs/Forms.antt`.
ghost use Rattle.std.specs.Prelude.{◌≡◌, ◌+◌, ◌%◌, ◌≤◌, ◌<◌, ◌++◌, length, map, filter_map, option_to_list, None};
ghost use Rattle.bus_words.specs.Fields.{command_bits};
ghost use Rattle.bus_formats.specs.Readings.{command_with};
ghost use Rattle.bus_formats.specs.declared.plan.Kind.{Kind as KindData};
ghost use Rattle.bus_formats.specs.Forms as spec;
ghost use Rattle.bus_formats.specs.Accepted.{HasKindRanges};

use crate::code::carried;
use crate::{Answers, Carries, Form, Kind, Shape};
use arrayvec::ArrayVec;
use bus_words::{Command, Sync, Word};

/// The form of the message. None exactly for a mode command that all terminals would answer with a data word, and for
/// one whose `word` is there and not carried to the terminal, or carried and not there.
pub fn form_of(kind: &Kind) -> Option<Form>
    ensures { result ≡ spec.form_of kind.now }
{
    match kind {
        Kind::Receive { to, .. } if *to == 31 => Some(Form::BroadcastReceive),
        Kind::Receive { .. } => Some(Form::Receive),
        Kind::Transmit { .. } => Some(Form::Transmit),
        Kind::Relay { to, .. } if *to == 31 => Some(Form::BroadcastRelay),
        Kind::Relay { .. } => Some(Form::Relay),
        Kind::Mode {
            to,
            transmit,
            code,
            word,
            ..
        } => mode_form(*to == 31, carried(*transmit, *code), *word),
    }
}

fn mode_form(broadcast: bool, carries: Carries, word: Option<u16>) -> Option<Form>
    ensures { result ≡ spec.mode_form broadcast carries word }
{
    match (broadcast, carries, word) {
        (true, Carries::Nothing, None) => Some(Form::BroadcastMode),
        (false, Carries::Nothing, None) => Some(Form::Mode),
        (false, Carries::FromTerminal, None) => Some(Form::ModeTransmit),
        (true, Carries::ToTerminal, Some(_)) => Some(Form::BroadcastModeReceive),
        (false, Carries::ToTerminal, Some(_)) => Some(Form::ModeReceive),
        _ => None,
    }
}

/// The command word of a message, the first of a relay's two: that of its receiver.
pub fn first_command(kind: &Kind) -> Command
    requires { HasKindRanges kind.now }
    ensures { result ≡ spec.first_command kind.now }
{
    match kind {
        Kind::Receive { to, sub, words } => {
            data_command(*to, false, *sub, words.words().len() as u8)
        }
        Kind::Transmit { from, sub, count } => data_command(*from, true, *sub, *count),
        Kind::Relay {
            to,
            to_sub,
            count,
            ..
        } => data_command(*to, false, *to_sub, *count),
        Kind::Mode {
            to,
            mode_sub,
            transmit,
            code,
            ..
        } => Command::make(*to, *transmit, *mode_sub, *code),
    }
}

/// The second command word of a relay: that of its transmitter.
pub fn second_command(kind: &Kind) -> Option<Command>
    requires { HasKindRanges kind.now }
    ensures { result ≡ spec.second_command kind.now }
{
    match kind {
        Kind::Relay {
            from,
            from_sub,
            count,
            ..
        } => Some(data_command(*from, true, *from_sub, *count)),
        _ => None,
    }
}

// A command for that many words, of which 32 are written as 0.
fn data_command(address: u8, transmit: bool, sub: u8, count: u8) -> Command
    requires address { address ≤ 31 }
    requires sub { sub ≤ 31 }
    ensures { result ≡ command_bits address transmit sub (count % 32) }
{
    Command::make(address, transmit, sub, count % 32)
}

/// Whether the second command word makes a relay of the first: it tells one terminal to transmit as many words as the first tells the
/// others to receive (4.3.3.6.3).
pub fn is_second_command(command: Command, second: Command) -> bool
    ensures { result ≡ spec.is_second_command command second }
{
    second.transmit()
        && !second.is_mode()
        && second.field() == command.field()
        && !second.is_broadcast()
}

/// Makes `burst` the words that the controller sends for the message, in order.
pub fn command_burst(kind: &Kind, burst: &mut ArrayVec<Word, 40>)
    requires { HasKindRanges kind.now }
    ensures { burst.new.items ≡ spec.command_words kind.now }
{
    burst.clear();
    burst.push(command_word(first_command(kind)));
    match kind {
        Kind::Receive { words, .. } => append_data(burst, words.words()),
        Kind::Relay { .. } => append_command(burst, second_command(kind)),
        Kind::Mode { word, .. } => append_datum(burst, *word),
        Kind::Transmit { .. } => {}
    }
}

fn append_command(burst: &mut ArrayVec<Word, 40>, command: Option<Command>)
    requires { length burst.old.items < 40 }
    ensures { burst.new.items ≡ burst.old.items ++ map spec.command_word (option_to_list command) }
{
    if let Some(command) = command {
        burst.push(command_word(command));
    }
}

fn append_datum(burst: &mut ArrayVec<Word, 40>, word: Option<u16>)
    requires { length burst.old.items < 40 }
    ensures { burst.new.items ≡ burst.old.items ++ map spec.data_word (option_to_list word) }
{
    if let Some(word) = word {
        burst.push(data_word(word));
    }
}

fn append_data(burst: &mut ArrayVec<Word, 40>, words: &[u16])
    requires { length burst.old.items + length words.now ≤ 40 }
    ensures { burst.new.items ≡ burst.old.items ++ map spec.data_word words.now }
{
    for word in words {
        burst.push(data_word(*word));
    }
}

fn command_word(command: Command) -> Word
    ensures { result ≡ spec.command_word command }
{
    Word {
        sync: Sync::Command,
        bits: command.bits(),
    }
}

fn data_word(bits: u16) -> Word
    ensures { result ≡ spec.data_word bits }
{
    Word {
        sync: Sync::Datum,
        bits,
    }
}

/// The command words of a message are those of the words sent that have command sync.
pub fn commands_are_the_words_with_command_sync()
    ensures { (kind : KindData) → filter_map (λ w. command_with w.sync w.bits) (spec.command_words kind) ≡ spec.commands_of kind }
{}

/// The answers that the controller expects: a broadcast is not answered, and a relay has an answer of each terminal.
pub fn answers(kind: &Kind) -> Answers
    ensures { result ≡ spec.answers_of kind.now }
{
    match kind {
        Kind::Receive { to, .. } => one_answer(*to, 0),
        Kind::Transmit { from, count, .. } => one_answer(*from, *count),
        Kind::Relay {
            from,
            to,
            count,
            ..
        } => Answers {
            first: answer_of(*from, *count),
            second: answer_of(*to, 0),
        },
        Kind::Mode {
            to,
            transmit,
            code,
            ..
        } => one_answer(*to, mode_count(carried(*transmit, *code))),
    }
}

fn one_answer(address: u8, count: u8) -> Answers
    ensures { result ≡ record { first = spec.answer_of address count; second = None } }
{
    Answers {
        first: answer_of(address, count),
        second: None,
    }
}

fn answer_of(address: u8, count: u8) -> Option<Shape>
    ensures { result ≡ spec.answer_of address count }
{
    if address == 31 {
        None
    } else {
        Some(Shape { address, count })
    }
}

fn mode_count(carries: Carries) -> u8
    ensures { result ≡ spec.mode_count carries }
{
    match carries {
        Carries::FromTerminal => 1,
        Carries::Nothing | Carries::ToTerminal => 0,
    }
}
