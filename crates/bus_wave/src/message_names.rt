//! The names of messages, as their strings are written.
ghost use Rattle.std.specs.Prelude.{◌≡◌, ◌+◌, ◌*◌, ◌<◌, ◌≤◌, ◌++◌, length};
ghost use Rattle.bus_text.specs.Texts.{line, outcome_text};
ghost use Rattle.bus_wave.specs.Texts.{message_text, escaped, commands_text, second_text, command_text, direction_text, rest_text, open_text};

use crate::dump_text::DumpText;
use crate::marks::{Commands, MessageMark};
use bus_formats::Outcome;
use bus_text::Line;
use bus_words::Command;

pub(crate) fn add_name(mark: MessageMark, text: &mut DumpText)
    requires { length text.old ≤ 3801 }
    ensures text { text.new ≡ text.old ++ message_text mark }
    ensures grows { length text.new ≤ length text.old + 269 }
{
    match mark {
        MessageMark::Nothing => {}
        MessageMark::Unknown => text.text("unknown"),
        MessageMark::Open(commands) => add_open(commands, text),
        MessageMark::Ended(commands, outcome) => {
            add_commands(commands, text);
            add_outcome(outcome, text);
        }
    }
}

fn add_open(commands: Option<Commands>, text: &mut DumpText)
    requires { length text.old ≤ 3801 }
    ensures text { text.new ≡ text.old ++ open_text commands }
    ensures grows { length text.new ≤ length text.old + 140 }
{
    match commands {
        None => text.text("open"),
        Some(commands) => {
            add_commands(commands, text);
            text.text("\\x20open");
        }
    }
}

fn add_outcome(outcome: Outcome, text: &mut DumpText)
    requires { length text.old ≤ 3940 }
    ensures text { text.new ≡ text.old ++ escaped (outcome_text outcome) }
    ensures grows { length text.new ≤ length text.old + 140 }
{
    let mut line = Line::new();
    line.outcome(outcome);
    add_escaped(line.as_bytes(), text);
}

fn add_escaped(bytes: &[u8], text: &mut DumpText)
    requires { length text.old + 4 * length bytes.now ≤ 4096 }
    ensures text { text.new ≡ text.old ++ escaped bytes.now }
    ensures grows { length text.new ≤ length text.old + 4 * length bytes.now }
{
    for byte in bytes {
        if *byte == b' ' {
            text.text("\\x20");
        } else {
            text.add(&[*byte]);
        }
    }
}

fn add_commands(commands: Commands, text: &mut DumpText)
    requires { length text.old ≤ 3801 }
    ensures text { text.new ≡ text.old ++ commands_text commands }
    ensures grows { length text.new ≤ length text.old + 129 }
{
    add_command(Command::of(commands.first), text);
    add_second(commands.second, text);
}

fn add_second(second: Option<u16>, text: &mut DumpText)
    requires { length text.old ≤ 3900 }
    ensures text { text.new ≡ text.old ++ second_text second }
    ensures grows { length text.new ≤ length text.old + 65 }
{
    if let Some(second) = second {
        text.text("+");
        add_command(Command::of(second), text);
    }
}

fn add_command(command: Command, text: &mut DumpText)
    requires { length text.old ≤ 4000 }
    ensures text { text.new ≡ text.old ++ command_text command }
    ensures grows { length text.new ≤ length text.old + 64 }
{
    text.decimal(u64::from(command.address()));
    add_direction(command.transmit(), text);
    add_rest(command, text);
}

fn add_direction(transmit: bool, text: &mut DumpText)
    requires { length text.old ≤ 4050 }
    ensures text { text.new ≡ text.old ++ direction_text transmit }
    ensures grows { length text.new ≤ length text.old + 3 }
{
    if transmit {
        text.text("-T-");
    } else {
        text.text("-R-");
    }
}

fn add_rest(command: Command, text: &mut DumpText)
    requires { length text.old ≤ 4050 }
    ensures text { text.new ≡ text.old ++ rest_text command }
    ensures grows { length text.new ≤ length text.old + 41 }
{
    if command.is_mode() {
        text.text("MC");
        text.decimal(u64::from(command.field()));
    } else {
        text.decimal(u64::from(command.sub()));
        text.text("-");
        text.decimal(u64::from(command.words()));
    }
}
