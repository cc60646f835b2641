//! The lines of a report, each built whole before it is written.

ghost use Rattle.std.specs.Prelude.{◌≡◌, ◌≤◌, ◌++◌, ◌+◌, length};
ghost use Rattle.bus_formats.specs.Accepted.{HasKindRanges};
ghost use Rattle.bus_report.specs.Report as spec;

use bus_formats::{Attempt, BlockEnd, HeardBurst, Registers, TerminalEnd};
use bus_subsystem::{LineText, Subsystem};
use bus_text::Line;

/// The line of an attempt, which is the n-th to end.
pub fn attempt_line(n: u64, attempt: &Attempt) -> Line
    requires { HasKindRanges attempt.now.kind }
    ensures { result ≡ spec.attempt_line n attempt.now }
{
    let mut line = Line::new();
    line.text("attempt");
    line.number(n);
    line.text(" station");
    line.number(u64::from(attempt.station));
    line.text(" frame");
    line.number(u64::from(attempt.frame));
    line.text(" item");
    line.number(u64::from(attempt.item));
    line.text(" try");
    line.number(u64::from(attempt.turn));
    line.channel(attempt.channel);
    line.number(attempt.start.0);
    line.commands(&attempt.kind);
    line.outcome(attempt.outcome);
    line.status(attempt.first);
    line.status(attempt.second);
    line.kept_words(attempt.words.words());
    line.end();
    line
}

/// The line of a burst.
pub fn burst_line(burst: HeardBurst) -> Line
    ensures { result ≡ spec.burst_line burst }
{
    let mut line = Line::new();
    line.text("burst");
    line.number(burst.start.0);
    line.channel(burst.channel);
    line.number(u64::from(burst.ticks));
    line.number(u64::from(burst.valid));
    line.end();
    line
}

/// The line of a terminal at the end.
pub fn terminal_line(terminal: &TerminalEnd) -> Line
    ensures { result ≡ spec.terminal_line terminal.now }
{
    let mut line = Line::new();
    line.text("terminal");
    line.number(u64::from(terminal.address));
    line.text(" status");
    line.word(terminal.status.bits());
    line.text(" last");
    line.word(terminal.registers.last);
    line.text(" off ");
    line.text(off_text(&terminal.registers));
    line.end();
    line
}

// Which transmitters of a terminal are shut down.
fn off_text(registers: &Registers) -> &'static str
    ensures { result.now ≡ spec.off_text registers.now.off_a registers.now.off_b }
{
    match (registers.off_a, registers.off_b) {
        (false, false) => "-",
        (true, false) => "A",
        (false, true) => "B",
        (true, true) => "AB",
    }
}

/// The line of a receive block at the end.
pub fn block_line(block: &BlockEnd) -> Line
    ensures { result ≡ spec.block_line block.now }
{
    let mut line = Line::new();
    line.text("block");
    line.number(u64::from(block.address));
    line.number(u64::from(block.sub));
    line.words(block.words.words());
    line.end();
    line
}

/// The line of what a terminal's subsystem says.
pub fn subsystem_line(address: u8, subsystem: &Box<dyn Subsystem>) -> Line
    ensures { result ≡ spec.subsystem_line address (said subsystem.now) }
{
    let mut text = LineText::new();
    subsystem.line(&mut text);
    line_of_text(address, text.as_str())
}

// The line of a terminal's subsystem that says this text.
fn line_of_text(address: u8, text: &str) -> Line
    requires { length text.now ≤ 512 }
    ensures { result ≡ spec.subsystem_line address text.now }
{
    let mut line = Line::new();
    line.text("subsystem");
    line.number(u64::from(address));
    line.text(" ");
    line.text(text);
    line.end();
    line
}

/// The last line: the ticks of the run, and in how many of them two stations or more drove one channel.
pub fn end_line(ticks: u64, clashes: u64) -> Line
    ensures { result ≡ spec.end_text ticks clashes }
{
    let mut line = Line::new();
    line.text("end");
    line.number(ticks);
    line.text(" clashes");
    line.number(clashes);
    line.end();
    line
}
