//! The command that surveys the faults of a plan.
ghost use Rattle.std.specs.Prelude.{◌≡◌, ℕ, List, Option, None};
ghost use Rattle.bus_formats.specs.declared.log.Delivery.{Delivery};
ghost use Rattle.bus_tool.specs.Answers.{AnswersSurvey, status_after_survey};
ghost use Rattle.bus_tool.specs.Ends.{EndsSurvey};

use crate::input::{LIMIT, Stop, read_input};
use crate::refusals::refusal_line;
use crate::run::refuse;
use bus_outside::{Sink, Source};
use bus_plan::{PlanError, read_plan};
use bus_survey::{Surveyed, survey};
use std::alloc::Global;

/// The command `survey`: what each fault of a plan does alone. Objects stay, whatever they tell and say.
pub fn survey_input<S: Source, K: Sink>(alloc: Global, source: &mut S, sink: &mut K) -> u8
    ensures { (told : List (Option (List Delivery))) (said : List (List ℕ)) (spare : List ℕ) →
        EndsSurvey (S.left source.old) (S.left source.new) (K.held sink.old) (K.held sink.new)
        (S.faults source.old) (S.faults source.new) (K.faults sink.old) (K.faults sink.new) result None told told said said spare spare }
{
    match read_input(alloc, source) {
        Err(Stop::Fault) => 4,
        Err(Stop::Memory) => 6,
        Ok(input) => answer_survey(alloc, input.as_slice(), sink),
    }
}

// The status after an input that was read.
fn answer_survey<K: Sink>(alloc: Global, input: &[u8], sink: &mut K) -> u8
    ensures { AnswersSurvey (K.held sink.old) (K.held sink.new) (K.faults sink.old) (K.faults sink.new) result input.now }
{
    if input.len() > LIMIT {
        return refuse(b"input refused too-long\n", sink).status;
    }
    match read_plan(alloc, input) {
        Err(PlanError::Memory(_)) => 6,
        Err(PlanError::Refused(refusal)) => refuse(refusal_line(&refusal).as_bytes(), sink).status,
        Ok(plan) => status_after(survey(alloc, plan, sink)),
    }
}

fn status_after(surveyed: Surveyed) -> u8
    ensures { result ≡ status_after_survey surveyed }
{
    match surveyed {
        Surveyed::Done => 0,
        Surveyed::NoMemory => 6,
        Surveyed::WriteFault => 5,
    }
}
