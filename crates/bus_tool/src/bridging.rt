//! The command that runs two buses which one device joins.
ghost use Rattle.std.specs.Prelude.{◌≡◌, ◌≤◌, ℕ, List, Option, None};
ghost use Rattle.bus_formats.specs.declared.log.Delivery.{Delivery};
ghost use Rattle.bus_bridge.specs.Inputs.{MayBridge};
ghost use Rattle.bus_bridge.specs.Lines.{bridge_text};
ghost use Rattle.bus_bridge.specs.Worlds.{IsLogOf};
ghost use Rattle.bus_bridge.specs.declared.inputs.BridgePlan.{BridgePlan as BridgePlanValue};
ghost use Rattle.bus_refusals.specs.Refusals.{WroteDue};
ghost use Rattle.bus_tool.specs.EndsBridge.{AnswersBridge, BridgedPlan, EndsBridge};
ghost use Rattle.bus_tool.specs.Texts.{status_of_attempts as status_after};

use crate::input::{Stop, read_input_up_to};
use crate::outcome::status_of_attempts;
use crate::refusals::bridge_line;
use crate::run::refuse;
use bus_bridge::{
    Bridge, BridgeError, BridgeLog, BridgePlan, INPUT_LIMIT, read_bridge, write_bridge,
};
use bus_outside::{Sink, Source};
use std::alloc::Global;

/// The command `bridge`: what a terminal of one bus takes is sent by a terminal of another one. Objects stay, whatever they tell and say.
pub fn bridge_input<S: Source, K: Sink>(alloc: Global, source: &mut S, sink: &mut K) -> u8
    ensures { (told : List (Option (List Delivery))) (said : List (List ℕ)) (spare : List ℕ) →
        EndsBridge (S.left source.old) (S.left source.new) (K.held sink.old) (K.held sink.new)
        (S.faults source.old) (S.faults source.new) (K.faults sink.old) (K.faults sink.new) result None told told said said spare spare }
{
    match read_input_up_to(INPUT_LIMIT, alloc, source) {
        Err(Stop::Fault) => 4,
        Err(Stop::Memory) => 6,
        Ok(input) => answer_bridge(alloc, input.as_slice(), sink),
    }
}

// The status after an input that was read.
fn answer_bridge<K: Sink>(alloc: Global, input: &[u8], sink: &mut K) -> u8
    ensures { AnswersBridge (K.held sink.old) (K.held sink.new) (K.faults sink.old) (K.faults sink.new) result input.now }
{
    match read_bridge(alloc, input) {
        Err(BridgeError::Memory(_)) => 6,
        Err(BridgeError::Refused(refusal)) => refuse(bridge_line(&refusal).as_bytes(), sink).status,
        Ok(plan) => run_bridge(alloc, &plan, sink),
    }
}

// Runs both buses, and writes the text of their log.
fn run_bridge<K: Sink>(alloc: Global, plan: &BridgePlan, sink: &mut K) -> u8
    requires { MayBridge plan.now }
    ensures { BridgedPlan (K.held sink.old) (K.held sink.new) (K.faults sink.old) (K.faults sink.new) result plan.now }
{
    match Bridge::prepare(alloc, plan) {
        Err(_) => 6,
        Ok(bridge) => write_log(&bridge.finish(), sink),
    }
}

fn write_log<K: Sink>(log: &BridgeLog, sink: &mut K) -> u8
    requires { (plan : BridgePlanValue) × MayBridge plan × IsLogOf plan log.now }
    ensures wrote { WroteDue (K.held sink.old) (K.held sink.new) (K.faults sink.old) (K.faults sink.new) result (status_after log.now.attempts) (bridge_text log.now) }
    ensures later { K.faults sink.old ≤ K.faults sink.new }
{
    match write_bridge(log, sink) {
        Ok(()) => status_of_attempts(log.attempts.as_slice()),
        Err(_) => 5,
    }
}
