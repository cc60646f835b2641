//! The command that runs a benchmark.
ghost use Rattle.std.specs.Prelude.{ℕ, ◌≤◌, ◌<◌, ◌^◌};
ghost use Rattle.bus_bench.specs.Generated.{bench_plan};
ghost use Rattle.bus_run.specs.Stands.{FinishedStands};
ghost use Rattle.bus_tool.specs.Answers.{Wrote};
ghost use Rattle.bus_tool.specs.EndsBench.{AnswersBench, bench_text};

use crate::ended::Ended;
use crate::outcome::status_of;
use bus_bench::{bench_line, run_bench};
use bus_outside::Sink;
use bus_run::FinishedBus;
use std::alloc::Global;

/// The command `bench`: runs the plan with so many messages, 1 to 4,096, that are drawn from a number, 0 to 2,147,483,647, on, and writes one line.
pub fn bench<K: Sink>(alloc: Global, number: u32, items: u32, sink: &mut K) -> Ended
    requires number { number < 2 ^ 31 }
    requires items { items ≤ 4096 }
    ensures { AnswersBench (K.held sink.old) (K.held sink.new) (K.faults sink.old) (K.faults sink.new) result.status result.bus number items }
{
    match run_bench(alloc, number, items) {
        Err(_) => Ended {
            status: 6,
            bus: None,
        },
        Ok(left) => write_line(items, left, sink),
    }
}

// Writes the line of a run.
fn write_line<K: Sink>(items: u32, bus: FinishedBus, sink: &mut K) -> Ended
    ensures wrote { (number : ℕ) → FinishedStands (bench_plan number items) bus → Wrote (K.held sink.old) (K.held sink.new) (K.faults sink.old) (K.faults sink.new)
        result.status result.bus (bench_text number items) (bench_plan number items) }
    ensures later { K.faults sink.old ≤ K.faults sink.new }
{
    match sink.write(bench_line(items, bus.log()).as_bytes()) {
        Ok(()) => {
            let status = status_of(bus.log());
            Ended {
                status,
                bus: Some(bus),
            }
        }
        Err(_) => Ended {
            status: 5,
            bus: None,
        },
    }
}
