//! The whole run of a plan that names no subsystem.
ghost use Rattle.std.specs.Prelude.{◌≡◌, [], IfOk};
ghost use Rattle.bus_formats.specs.Accepted.{IsAccepted};
ghost use Rattle.bus_run.specs.Kept.{places};
ghost use Rattle.bus_run.specs.Stands.{FinishedStands};

use crate::{Bus, FinishedBus};
use bus_formats::Plan;
use bus_subsystem::Subsystem;
use std::alloc::{AllocError, Global};

/// Runs an accepted plan that names no subsystem to its end, and answers what the run leaves.
///
/// # Errors
///
/// `AllocError` where there is no memory for the run.
pub fn run_without_subsystems(alloc: Global, plan: &Plan) -> Result<FinishedBus, AllocError>
    requires accepted { IsAccepted plan.now }
    requires none { places plan.now ≡ [] }
    ensures { IfOk result (λ left. FinishedStands plan.now left) }
{
    let mut subsystems: Vec<Box<dyn Subsystem>> = Vec::new(alloc);
    let bus = Bus::prepare(alloc, plan, &mut subsystems)?;
    Ok(bus.finish(&mut subsystems))
}
