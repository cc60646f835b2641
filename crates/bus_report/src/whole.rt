//! The whole report, one write a line.

ghost use Rattle.std.specs.Prelude.{◌≡◌, ℕ, ◌+◌, ◌<◌, ◌≤◌, ◌^◌, ◌++◌, List, [], length, flat_map, map, drop, get_or, slice_get, Some, IfOk};
ghost use Rattle.std.specs.List.{list_any};
ghost use Rattle.bus_formats.specs.Accepted.{HasKindRanges};
ghost use Rattle.bus_formats.specs.declared.log.Attempt.{Attempt};
ghost use Rattle.bus_outside.specs.Causes.{HasCause, WriteAdds};
ghost use Rattle.bus_text.specs.Texts.{word_line};
ghost use Rattle.bus_report.specs.Report as spec;
ghost use Rattle.bus_report.specs.Report.{report_text};

use crate::lines::{attempt_line, block_line, burst_line, end_line, subsystem_line, terminal_line};
use bus_formats::{Attempt, BlockEnd, Heard, HeardBurst, Plan, RunLog, StationPlan, TerminalEnd};
use bus_outside::{Failed, Sink};
use bus_subsystem::Subsystem;
use bus_text::Line;

/// Writes the report of a run, one write a line: its log, and after each terminal that names a subsystem what that subsystem says.
///
/// The subsystems are those that the stations of the plan name, in order of address. At `Failed`, the first write that failed, a
/// front of the report was written. Asks that the numbers of each attempt's message are in their ranges.
pub fn report<K: Sink>(
    log: &RunLog,
    plan: &Plan,
    subsystems: &Vec<Box<dyn Subsystem>>,
    sink: &mut K,
) -> Result<(), Failed>
    requires { (a : Attempt) (i : ℕ) → slice_get log.now.attempts i ≡ Some a → HasKindRanges a.kind }
    ensures bytes { WriteAdds (K.held sink.old) (K.held sink.new) result
        (report_text log.now plan.now (map (λ b. said b) subsystems.now.items)) }
    ensures cause { HasCause (K.faults sink.old) (K.faults sink.new) result }
{
    attempts(log.attempts.as_slice(), sink)?;
    write_words(log.words.as_slice(), sink)?;
    write_bursts(log.bursts.as_slice(), sink)?;
    write_terminals(
        log.terminals.as_slice(),
        log.blocks.as_slice(),
        plan,
        subsystems.as_slice(),
        sink,
    )?;
    sink.write(end_line(log.end.0, log.clashes).as_bytes())
}

/// Writes the lines of some attempts, one write a line; the first has number 1. At `Failed`, the first write that failed, a front of them was written. Asks that the
/// numbers of each attempt's message are in their ranges.
pub fn attempts<K: Sink>(attempts: &[Attempt], sink: &mut K) -> Result<(), Failed>
    requires { (a : Attempt) (i : ℕ) → slice_get attempts.now i ≡ Some a → HasKindRanges a.kind }
    ensures bytes { WriteAdds (K.held sink.old) (K.held sink.new) result (spec.attempt_lines 1 attempts.now) }
    ensures cause { HasCause (K.faults sink.old) (K.faults sink.new) result }
{
    for (i, attempt) in attempts.iter().enumerate() {
        sink.write(attempt_line(i as u64 + 1, attempt).as_bytes())?;
    }
    Ok(())
}

fn write_words<K: Sink>(words: &[Heard], sink: &mut K) -> Result<(), Failed>
    ensures bytes { WriteAdds (K.held sink.old) (K.held sink.new) result (flat_map word_line words.now) }
    ensures cause { HasCause (K.faults sink.old) (K.faults sink.new) result }
{
    for heard in words {
        sink.write(Line::of_word(*heard).as_bytes())?;
    }
    Ok(())
}

fn write_bursts<K: Sink>(bursts: &[HeardBurst], sink: &mut K) -> Result<(), Failed>
    ensures bytes { WriteAdds (K.held sink.old) (K.held sink.new) result (flat_map spec.burst_line bursts.now) }
    ensures cause { HasCause (K.faults sink.old) (K.faults sink.new) result }
{
    for burst in bursts {
        sink.write(burst_line(*burst).as_bytes())?;
    }
    Ok(())
}

// Each terminal, after it its blocks, and then what its subsystem says.
fn write_terminals<K: Sink>(
    terminals: &[TerminalEnd],
    blocks: &[BlockEnd],
    plan: &Plan,
    subsystems: &[Box<dyn Subsystem>],
    sink: &mut K,
) -> Result<(), Failed>
    ensures bytes { WriteAdds (K.held sink.old) (K.held sink.new) result
        (spec.terminal_lines blocks.now plan.now terminals.now (map (λ b. said b) subsystems.now)) }
    ensures cause { HasCause (K.faults sink.old) (K.faults sink.new) result }
{
    let mut place = 0;
    for terminal in terminals {
        write_terminal(terminal, blocks, sink)?;
        place = write_subsystem(terminal.address, plan, subsystems, place, sink)?;
    }
    Ok(())
}

// What the subsystem of a terminal says, if it names one: the one at this place. The place of the next terminal's is answered.
fn write_subsystem<K: Sink>(
    address: u8,
    plan: &Plan,
    subsystems: &[Box<dyn Subsystem>],
    place: usize,
    sink: &mut K,
) -> Result<usize, Failed>
    requires { place ≤ length subsystems.now }
    ensures bytes { WriteAdds (K.held sink.old) (K.held sink.new) result
        (spec.said_by plan.now address (drop place (map (λ b. said b) subsystems.now))) }
    ensures cause { HasCause (K.faults sink.old) (K.faults sink.new) result }
    ensures next { IfOk result (λ next. next ≤ length subsystems.now) }
    ensures later { IfOk result (λ next. drop next (map (λ b. said b) subsystems.now)
        ≡ spec.said_later plan.now address (drop place (map (λ b. said b) subsystems.now))) }
{
    if place == subsystems.len() {
        return Ok(place);
    }
    if !has_subsystem(plan.stations.as_slice(), address) {
        return Ok(place);
    }
    sink.write(subsystem_line(address, &subsystems[place]).as_bytes())?;
    Ok(place + 1)
}

// Whether the station with this address names a subsystem.
fn has_subsystem(stations: &[StationPlan], address: u8) -> bool
    ensures { result ≡ list_any (spec.names_subsystem address) stations.now }
{
    for station in stations {
        if names_subsystem(station, address) {
            return true;
        }
    }
    false
}

fn names_subsystem(station: &StationPlan, address: u8) -> bool
    ensures { result ≡ spec.names_subsystem address station.now }
{
    station.terminal.address == address && station.terminal.subsystem.is_some()
}

fn write_terminal<K: Sink>(
    terminal: &TerminalEnd,
    blocks: &[BlockEnd],
    sink: &mut K,
) -> Result<(), Failed>
    ensures bytes { WriteAdds (K.held sink.old) (K.held sink.new) result (spec.terminal_text blocks.now terminal.now) }
    ensures cause { HasCause (K.faults sink.old) (K.faults sink.new) result }
{
    sink.write(terminal_line(terminal).as_bytes())?;
    write_blocks(terminal.address, blocks, sink)
}

// The blocks of the terminal with this address.
fn write_blocks<K: Sink>(address: u8, blocks: &[BlockEnd], sink: &mut K) -> Result<(), Failed>
    ensures bytes { WriteAdds (K.held sink.old) (K.held sink.new) result (flat_map (spec.block_of address) blocks.now) }
    ensures cause { HasCause (K.faults sink.old) (K.faults sink.new) result }
{
    for block in blocks {
        write_block(address, block, sink)?;
    }
    Ok(())
}

fn write_block<K: Sink>(address: u8, block: &BlockEnd, sink: &mut K) -> Result<(), Failed>
    ensures bytes { WriteAdds (K.held sink.old) (K.held sink.new) result (spec.block_of address block.now) }
    ensures cause { HasCause (K.faults sink.old) (K.faults sink.new) result }
{
    if block.address == address {
        sink.write(block_line(block).as_bytes())
    } else {
        Ok(())
    }
}
