//! What is printed of two buses that one device joins.
ghost use Rattle.std.specs.Prelude.{◌≡◌, ◌≤◌, ℕ, slice_get, Some, flat_map};
ghost use Rattle.bus_formats.specs.Accepted.{HasKindRanges};
ghost use Rattle.bus_formats.specs.declared.log.Attempt.{Attempt};
ghost use Rattle.bus_outside.specs.Causes.{HasCause, WriteAdds};
ghost use Rattle.bus_bridge.specs.Lines as spec;

use crate::log::BridgeLog;
use bus_base::Tick;
use bus_formats::Delivery;
use bus_outside::{Failed, Sink};
use bus_report::attempts;
use bus_text::Line;

/// Writes the blocks that were taken, the attempts of the second bus, and the end; one write a line. At `Failed`, the first write that failed, a front of the
/// text was written. Asks that the numbers of each attempt's message are in their ranges.
pub fn write_bridge<K: Sink>(log: &BridgeLog, sink: &mut K) -> Result<(), Failed>
    requires { (a : Attempt) (i : ℕ) → slice_get log.now.attempts i ≡ Some a → HasKindRanges a.kind }
    ensures bytes { WriteAdds (K.held sink.old) (K.held sink.new) result (spec.bridge_text log.now) }
    ensures cause { HasCause (K.faults sink.old) (K.faults sink.new) result }
{
    write_taken(log.taken.as_slice(), sink)?;
    attempts(log.attempts.as_slice(), sink)?;
    sink.write(ends_line(log.first_end, log.second_end, log.clashes).as_bytes())
}

fn write_taken<K: Sink>(taken: &[Delivery], sink: &mut K) -> Result<(), Failed>
    ensures bytes { WriteAdds (K.held sink.old) (K.held sink.new) result (flat_map spec.taken_line taken.now) }
    ensures cause { HasCause (K.faults sink.old) (K.faults sink.new) result }
{
    for delivery in taken {
        sink.write(taken_line(delivery).as_bytes())?;
    }
    Ok(())
}

fn taken_line(delivery: &Delivery) -> Line
    ensures { result ≡ spec.taken_line delivery.now }
{
    let mut line = Line::new();
    line.text("taken");
    line.number(delivery.tick.0);
    line.number(u64::from(delivery.sub));
    line.words(delivery.words.words());
    line.end();
    line
}

fn ends_line(first: Tick, second: Tick, clashes: u64) -> Line
    ensures { result ≡ spec.ends_line first.0 second.0 clashes }
{
    let mut line = Line::new();
    line.text("end");
    line.number(first.0);
    line.number(second.0);
    line.text(" clashes");
    line.number(clashes);
    line.end();
    line
}
