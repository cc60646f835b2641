//! The run of a plan that is drawn.
ghost use Rattle.std.specs.Prelude.{◌≤◌, ◌<◌, ◌^◌, IfOk};
ghost use Rattle.bus_run.specs.Stands.{FinishedStands};
ghost use Rattle.bus_bench.specs.Generated as spec;

use crate::generated::bench_plan;
use bus_run::{FinishedBus, run_without_subsystems};
use std::alloc::{AllocError, Global};

/// Draws a plan, with so many messages, 0 to 4,096, from a number, 0 to 2,147,483,647, on, runs it to its end, and answers what the run leaves.
///
/// # Errors
///
/// `AllocError` where there is no memory for the plan or its run.
pub fn run_bench(alloc: Global, number: u32, items: u32) -> Result<FinishedBus, AllocError>
    requires number { number < 2 ^ 31 }
    requires items { items ≤ 4096 }
    ensures { IfOk result (λ left. FinishedStands (spec.bench_plan number items) left) }
{
    let plan = bench_plan(alloc, number, items)?;
    run_without_subsystems(alloc, &plan)
}
