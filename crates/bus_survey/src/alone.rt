//! The run of a plan in which one fault alone strikes.
ghost use Rattle.std.specs.Prelude.{◌≡◌, [], IfOk};
ghost use Rattle.bus_formats.specs.Accepted.{IsAccepted};
ghost use Rattle.bus_run.specs.Kept.{places};
ghost use Rattle.bus_run.specs.Stands.{FinishedStands};
ghost use Rattle.bus_survey.specs.Alone.{with_fault_alone};

use bus_formats::{Fault, Plan};
use bus_run::copies::copy_faults;
use bus_run::{FinishedBus, run_without_subsystems};
use std::alloc::{AllocError, Global};

/// Runs a plan that names no subsystem with this fault alone, and answers what the run leaves. The plan keeps no other fault.
///
/// # Errors
///
/// `AllocError` where there is no memory for the run.
pub fn run_with(alloc: Global, plan: &mut Plan, fault: Fault) -> Result<FinishedBus, AllocError>
    requires accepted { IsAccepted (with_fault_alone plan.old fault) }
    requires none { places plan.old ≡ [] }
    ensures ran { IfOk result (λ left. FinishedStands (with_fault_alone plan.old fault) left) }
    ensures alone { IfOk result (λ left. plan.new ≡ with_fault_alone plan.old fault) }
{
    set_fault(alloc, plan, fault)?;
    run_without_subsystems(alloc, plan)
}

// Lets this fault alone strike in a plan.
fn set_fault(alloc: Global, plan: &mut Plan, fault: Fault) -> Result<(), AllocError>
    ensures { IfOk result (λ done. plan.new ≡ with_fault_alone plan.old fault) }
{
    plan.faults = copy_faults(alloc, &[fault])?;
    Ok(())
}
