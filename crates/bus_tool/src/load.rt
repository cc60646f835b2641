//! The command that reckons a schedule.
ghost use Rattle.std.specs.Prelude.{◌≡◌, ℕ, ◌≤◌, List, Option, None};
ghost use Rattle.bus_formats.specs.Accepted.{IsAccepted};
ghost use Rattle.bus_formats.specs.declared.log.Delivery.{Delivery};
ghost use Rattle.bus_load.specs.Lines.{load_text};
ghost use Rattle.bus_load.specs.Load.{first_offer};
ghost use Rattle.bus_refusals.specs.Refusals.{WroteDue};
ghost use Rattle.bus_tool.specs.Answers.{AnswersLoad};
ghost use Rattle.bus_tool.specs.Ends.{EndsLoad};

use crate::input::{LIMIT, Stop, read_input};
use crate::refusals::{offer_line, refusal_line};
use crate::run::refuse;
use bus_formats::Plan;
use bus_load::{first_offer, write_load};
use bus_outside::{Sink, Source};
use bus_plan::{PlanError, read_plan};
use std::alloc::Global;

/// The command `load`: what each frame of the station that starts takes at most. Objects stay, whatever they tell and say.
pub fn load_input<S: Source, K: Sink>(alloc: Global, source: &mut S, sink: &mut K) -> u8
    ensures { (told : List (Option (List Delivery))) (said : List (List ℕ)) (spare : List ℕ) →
        EndsLoad (S.left source.old) (S.left source.new) (K.held sink.old) (K.held sink.new)
        (S.faults source.old) (S.faults source.new) (K.faults sink.old) (K.faults sink.new) result None told told said said spare spare }
{
    match read_input(alloc, source) {
        Err(Stop::Fault) => 4,
        Err(Stop::Memory) => 6,
        Ok(input) => answer_load(alloc, input.as_slice(), sink),
    }
}

// The status after an input that was read.
fn answer_load<K: Sink>(alloc: Global, input: &[u8], sink: &mut K) -> u8
    ensures { AnswersLoad (K.held sink.old) (K.held sink.new) (K.faults sink.old) (K.faults sink.new) result input.now }
{
    if input.len() > LIMIT {
        return refuse(b"input refused too-long\n", sink).status;
    }
    match read_plan(alloc, input) {
        Err(PlanError::Memory(_)) => 6,
        Err(PlanError::Refused(refusal)) => refuse(refusal_line(&refusal).as_bytes(), sink).status,
        Ok(plan) => match first_offer(&plan) {
            Some(place) => refuse(offer_line(place).as_bytes(), sink).status,
            None => reckon(&plan, sink),
        },
    }
}

fn reckon<K: Sink>(plan: &Plan, sink: &mut K) -> u8
    requires accepted { IsAccepted plan.now }
    requires no_offer { first_offer plan.now ≡ None }
    ensures wrote { WroteDue (K.held sink.old) (K.held sink.new) (K.faults sink.old) (K.faults sink.new) result 0 (load_text plan.now) }
    ensures later { K.faults sink.old ≤ K.faults sink.new }
{
    match write_load(plan, sink) {
        Ok(()) => 0,
        Err(_) => 5,
    }
}
