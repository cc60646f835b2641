//! A survey, one write a line.
ghost use Rattle.std.specs.Prelude.{◌≡◌, [], All};
ghost use Rattle.bus_formats.specs.Accepted.{IsAccepted};
ghost use Rattle.bus_formats.specs.Plans.{without_subsystems};
ghost use Rattle.bus_outside.specs.Causes.{HasCause, WriteAdds};
ghost use Rattle.bus_run.specs.Kept.{places};
ghost use Rattle.bus_survey.specs.Alone.{with_fault_alone};
ghost use Rattle.bus_survey.specs.Lines as spec;
ghost use Rattle.bus_survey.specs.Surveys.{Surveys, SurveyHasCause};

use crate::alone::run_with;
use crate::lines::{fault_line, surveyed_line};
use crate::surveyed::Surveyed;
use bus_formats::{Fault, Plan, RunLog};
use bus_outside::{Failed, Sink};
use std::alloc::Global;
use std::mem;

/// Runs a plan, without its subsystems, once for each of its faults with that fault alone, and writes the line of each run when it has ended, one
/// write a line. What a run took is given back before the next.
pub fn survey<K: Sink>(alloc: Global, plan: Plan, sink: &mut K) -> Surveyed
    requires { IsAccepted plan }
    ensures surveys { Surveys (without_subsystems plan) plan.faults (K.held sink.old) (K.held sink.new) result }
    ensures cause { SurveyHasCause (K.faults sink.old) (K.faults sink.new) result }
{
    let mut alone = plan.without_subsystems();
    let faults = mem::replace(&mut alone.faults, Vec::new(alloc));
    survey_faults(alloc, alone, faults.as_slice(), sink)
}

// Runs a plan that names no subsystem once for each of these faults.
fn survey_faults<K: Sink>(alloc: Global, mut plan: Plan, faults: &[Fault], sink: &mut K) -> Surveyed
    requires accepted { All (λ fault. IsAccepted (with_fault_alone plan fault)) faults.now }
    requires none { places plan ≡ [] }
    ensures surveys { Surveys plan faults.now (K.held sink.old) (K.held sink.new) result }
    ensures cause { SurveyHasCause (K.faults sink.old) (K.faults sink.new) result }
{
    for (i, fault) in faults.iter().enumerate() {
        let Ok(left) = run_with(alloc, &mut plan, *fault) else {
            return Surveyed::NoMemory;
        };
        let Ok(()) = write_line(i as u64 + 1, left.log(), sink) else {
            return Surveyed::WriteFault;
        };
    }
    match sink.write(surveyed_line(faults.len() as u64).as_bytes()) {
        Ok(()) => Surveyed::Done,
        Err(_) => Surveyed::WriteFault,
    }
}

// Writes the line of the n-th fault, whose run has this log.
fn write_line<K: Sink>(n: u64, log: &RunLog, sink: &mut K) -> Result<(), Failed>
    ensures bytes { WriteAdds (K.held sink.old) (K.held sink.new) result (spec.fault_line n log.now.attempts) }
    ensures cause { HasCause (K.faults sink.old) (K.faults sink.new) result }
{
    sink.write(fault_line(n, log.attempts.as_slice()).as_bytes())
}
