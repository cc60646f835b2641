//! What is printed of a run in which a second controller took over.
ghost use Rattle.std.specs.Prelude.{◌≡◌, ◌≤◌, ℕ, slice_get, Some};
ghost use Rattle.bus_base.specs.declared.samples.Tick.{Tick};
ghost use Rattle.bus_formats.specs.Accepted.{HasKindRanges};
ghost use Rattle.bus_formats.specs.declared.log.Attempt.{Attempt};
ghost use Rattle.bus_outside.specs.Causes.{HasCause, WriteAdds};
ghost use Rattle.bus_standby.specs.Lines as spec;

use crate::log::StandbyLog;
use bus_base::Tick;
use bus_outside::{Failed, Sink};
use bus_report::{attempts, end_line};
use bus_text::Line;

/// Writes the attempts of the log, when the primary stopped, when the standby took over, and the end; one write a line. At `Failed`, the first write that failed, a
/// front of the text was written. Asks that the numbers of each attempt's message are in their ranges.
pub fn write_standby<K: Sink>(log: &StandbyLog, sink: &mut K) -> Result<(), Failed>
    requires { (a : Attempt) (i : ℕ) → slice_get log.now.attempts i ≡ Some a → HasKindRanges a.kind }
    ensures bytes { WriteAdds (K.held sink.old) (K.held sink.new) result (spec.standby_text log.now) }
    ensures cause { HasCause (K.faults sink.old) (K.faults sink.new) result }
{
    attempts(log.attempts.as_slice(), sink)?;
    write_ends(log.stop, log.taken, log.end, log.clashes, sink)
}

fn write_ends<K: Sink>(
    stop: Option<Tick>,
    taken: Tick,
    end: Tick,
    clashes: u64,
    sink: &mut K,
) -> Result<(), Failed>
    ensures bytes { WriteAdds (K.held sink.old) (K.held sink.new) result (spec.ends_text stop taken end.0 clashes) }
    ensures cause { HasCause (K.faults sink.old) (K.faults sink.new) result }
{
    sink.write(stop_line(stop).as_bytes())?;
    sink.write(take_line(taken).as_bytes())?;
    sink.write(end_line(end.0, clashes).as_bytes())
}

fn stop_line(stop: Option<Tick>) -> Line
    ensures { result ≡ spec.stop_line stop }
{
    let mut line = Line::new();
    line.text("stop");
    match stop {
        None => line.text(" -"),
        Some(tick) => line.number(tick.0),
    }
    line.end();
    line
}

fn take_line(tick: Tick) -> Line
    ensures { result ≡ spec.take_line tick }
{
    let mut line = Line::new();
    line.text("take");
    line.number(tick.0);
    line.end();
    line
}
