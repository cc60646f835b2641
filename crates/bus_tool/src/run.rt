//! The commands that run a plan: what an input is answered with.
ghost use Rattle.std.specs.Prelude.{◌≡◌, ℕ, ◌≤◌, List, [], map, vec_len, Option};
ghost use Rattle.bus_formats.specs.Accepted.{IsAccepted};
ghost use Rattle.bus_formats.specs.Plans.{PlanData};
ghost use Rattle.bus_formats.specs.declared.log.Delivery.{Delivery};
ghost use Rattle.bus_run.specs.Deliveries.{Serves};
ghost use Rattle.bus_run.specs.Kept.{places};
ghost use Rattle.bus_run.specs.Stands.{BusStands, FinishedStands};
ghost use Rattle.bus_tool.specs.Answers.{Answers, AnswersRefused, AnswersRun, Wrote};
ghost use Rattle.bus_tool.specs.Texts.{plan_run, text_of};

use crate::capture::write_capture;
use crate::ended::Ended;
use crate::input::LIMIT;
use crate::outcome::status_of;
use crate::refusals::refusal_line;
use crate::text::Text;
use bus_formats::Plan;
use bus_outside::Sink;
use bus_plan::{PlanError, read_plan};
use bus_report::report;
use bus_run::{Bus, FinishedBus};
use bus_subsystem::Subsystem;
use std::alloc::Global;

/// How a command that writes this text ends, over an input that was read.
pub fn answer<K: Sink>(
    text: Text,
    alloc: Global,
    input: &[u8],
    sink: &mut K,
    subsystems: &mut Vec<Box<dyn Subsystem>>,
) -> Ended
    requires { vec_len subsystems.old ≡ 62 }
    ensures { Answers (K.held sink.old) (K.held sink.new) (K.faults sink.old) (K.faults sink.new) result.status result.bus
        (map (λ b. told b) subsystems.old.items) (map (λ b. told b) subsystems.new.items)
        (map (λ b. said b) subsystems.old.items) (map (λ b. said b) subsystems.new.items)
        (map (λ b. spare b) subsystems.old.items) (map (λ b. spare b) subsystems.new.items) text input.now }
{
    if input.len() > LIMIT {
        return refuse(b"input refused too-long\n", sink);
    }
    match read_plan(alloc, input) {
        Err(PlanError::Memory(_)) => Ended {
            status: 6,
            bus: None,
        },
        Err(PlanError::Refused(refusal)) => refuse(refusal_line(&refusal).as_bytes(), sink),
        Ok(plan) => run_plan(text, alloc, plan, sink, subsystems),
    }
}

/// Writes the line of a refusal.
pub fn refuse<K: Sink>(line: &[u8], sink: &mut K) -> Ended
    ensures { AnswersRefused (K.held sink.old) (K.held sink.new) (K.faults sink.old) (K.faults sink.new) result.status result.bus line.now }
{
    match sink.write(line) {
        Ok(()) => Ended {
            status: 3,
            bus: None,
        },
        Err(_) => Ended {
            status: 5,
            bus: None,
        },
    }
}

// Runs a plan, and writes this text of its run.
fn run_plan<K: Sink>(
    text: Text,
    alloc: Global,
    plan: Plan,
    sink: &mut K,
    subsystems: &mut Vec<Box<dyn Subsystem>>,
) -> Ended
    requires accepted { IsAccepted plan }
    requires all { vec_len subsystems.old ≡ 62 }
    ensures { AnswersRun (K.held sink.old) (K.held sink.new) (K.faults sink.old) (K.faults sink.new) result.status result.bus
        (map (λ b. told b) subsystems.old.items) (map (λ b. told b) subsystems.new.items)
        (map (λ b. said b) subsystems.old.items) (map (λ b. said b) subsystems.new.items)
        (map (λ b. spare b) subsystems.old.items) (map (λ b. spare b) subsystems.new.items) text (plan_run text plan) }
{
    match text {
        Text::Report => report_run(alloc, &plan, sink, subsystems),
        Text::Capture => capture_run(alloc, plan.without_subsystems(), sink),
    }
}

// Runs a plan with the objects that it names, and writes its report.
fn report_run<K: Sink>(
    alloc: Global,
    plan: &Plan,
    sink: &mut K,
    subsystems: &mut Vec<Box<dyn Subsystem>>,
) -> Ended
    requires accepted { IsAccepted plan.now }
    requires all { vec_len subsystems.old ≡ 62 }
    ensures { AnswersRun (K.held sink.old) (K.held sink.new) (K.faults sink.old) (K.faults sink.new) result.status result.bus
        (map (λ b. told b) subsystems.old.items) (map (λ b. told b) subsystems.new.items)
        (map (λ b. said b) subsystems.old.items) (map (λ b. said b) subsystems.new.items)
        (map (λ b. spare b) subsystems.old.items) (map (λ b. spare b) subsystems.new.items) Text.Report plan.now }
{
    match Bus::prepare(alloc, plan, subsystems) {
        Err(_) => Ended {
            status: 6,
            bus: None,
        },
        Ok(bus) => {
            let left = bus.finish(subsystems);
            write_report(left, plan, subsystems, sink)
        }
    }
}

// Writes the report of a run.
fn write_report<K: Sink>(
    bus: FinishedBus,
    plan: &Plan,
    subsystems: &Vec<Box<dyn Subsystem>>,
    sink: &mut K,
) -> Ended
    requires accepted { IsAccepted plan.now }
    requires ran { FinishedStands plan.now bus }
    ensures wrote { Wrote (K.held sink.old) (K.held sink.new) (K.faults sink.old) (K.faults sink.new)
        result.status result.bus (text_of Text.Report plan.now (map (λ b. said b) subsystems.now.items)) plan.now }
    ensures later { K.faults sink.old ≤ K.faults sink.new }
{
    match report(bus.log(), plan, subsystems, sink) {
        Ok(()) => {
            let status = status_of(bus.log());
            Ended {
                status,
                bus: Some(bus),
            }
        }
        Err(_) => Ended {
            status: 5,
            bus: None,
        },
    }
}

// Runs a plan that names no subsystem, without objects, and writes the capture of its run. Other objects stay, whatever they tell and say.
fn capture_run<K: Sink>(alloc: Global, plan: Plan, sink: &mut K) -> Ended
    requires accepted { IsAccepted plan }
    requires none { places plan ≡ [] }
    ensures { (other_told : List (Option (List Delivery))) (other_said : List (List ℕ)) (other_spare : List ℕ) →
        AnswersRun (K.held sink.old) (K.held sink.new) (K.faults sink.old) (K.faults sink.new) result.status result.bus
        other_told other_told other_said other_said other_spare other_spare Text.Capture plan }
{
    let mut subsystems: Vec<Box<dyn Subsystem>> = Vec::new(alloc);
    match Bus::prepare(alloc, &plan, &mut subsystems) {
        Err(_) => Ended {
            status: 6,
            bus: None,
        },
        Ok(bus) => captured(bus, sink, &mut subsystems),
    }
}

// Runs a bus, and writes the capture of its run.
fn captured<K: Sink>(bus: Bus, sink: &mut K, subsystems: &mut Vec<Box<dyn Subsystem>>) -> Ended
    requires { (plan : PlanData) × (before : List (Option (List Delivery))) × BusStands plan 0 bus
        × Serves plan before [] (map (λ b. told b) subsystems.old.items) (map (λ b. spare b) subsystems.old.items) }
    ensures { (plan : PlanData) (before other_told : List (Option (List Delivery))) (other_said : List (List ℕ)) (other_spare : List ℕ) → BusStands plan 0 bus →
        Serves plan before [] (map (λ b. told b) subsystems.old.items) (map (λ b. spare b) subsystems.old.items) →
        AnswersRun (K.held sink.old) (K.held sink.new) (K.faults sink.old) (K.faults sink.new) result.status result.bus
        other_told other_told other_said other_said other_spare other_spare Text.Capture plan }
{
    match write_capture(bus, sink, subsystems) {
        Ok(left) => {
            let status = status_of(left.log());
            Ended {
                status,
                bus: Some(left),
            }
        }
        Err(_) => Ended {
            status: 5,
            bus: None,
        },
    }
}
