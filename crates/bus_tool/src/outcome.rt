//! The status after a run.
ghost use Rattle.std.specs.Prelude.{◌≡◌, not, ◌||◌};
ghost use Rattle.std.specs.List.{list_all};
ghost use Rattle.bus_model.specs.Log as spec;
ghost use Rattle.bus_tool.specs.Texts as texts;

use bus_formats::{Attempt, Outcome, RunLog};

/// The status after a run with this log: 0 where the last attempt of each item went well, else 1.
pub fn status_of(log: &RunLog) -> u8
    ensures { result ≡ texts.status_of log.now }
{
    status_of_attempts(log.attempts.as_slice())
}

/// The status after a run with these attempts.
pub fn status_of_attempts(attempts: &[Attempt]) -> u8
    ensures { result ≡ texts.status_of_attempts attempts.now }
{
    if all_went_well(attempts) { 0 } else { 1 }
}

fn all_went_well(attempts: &[Attempt]) -> bool
    ensures { result ≡ list_all (λ a. not a.finishes || spec.went_well a.outcome) attempts.now }
{
    attempts
        .iter()
        .all(|attempt| !attempt.finishes || went_well(attempt.outcome))
}

fn went_well(outcome: Outcome) -> bool
    ensures { result ≡ spec.went_well outcome }
{
    match outcome {
        Outcome::Clear | Outcome::Sent | Outcome::Declined | Outcome::Passed => true,
        Outcome::Illegal(_)
        | Outcome::Busy(_)
        | Outcome::NoResponse(_)
        | Outcome::BadReply(_)
        | Outcome::Abandoned
        | Outcome::Yielded => false,
    }
}
