//! The lines of a survey, each built whole before it is written.
ghost use Rattle.std.specs.Prelude.{◌≡◌, ◌≤◌, ◌+◌, ◌++◌, ◌&&◌, bytes_eq, length};
ghost use Rattle.bus_survey.specs.Lines as spec;

use bus_formats::{Attempt, Outcome};
use bus_text::Line;

/// The line of the n-th fault: how many items of its run ended in which outcome.
pub fn fault_line(n: u64, attempts: &[Attempt]) -> Line
    ensures { result ≡ spec.fault_line n attempts.now }
{
    let mut line = Line::new();
    line.text("fault");
    line.number(n);
    add_count(&mut line, attempts, "clear");
    add_count(&mut line, attempts, "sent");
    add_count(&mut line, attempts, "declined");
    add_count(&mut line, attempts, "passed");
    add_count(&mut line, attempts, "illegal");
    add_count(&mut line, attempts, "busy");
    add_count(&mut line, attempts, "no-response");
    add_count(&mut line, attempts, "bad-reply");
    add_count(&mut line, attempts, "abandoned");
    add_count(&mut line, attempts, "yielded");
    line.end();
    line
}

// Adds the name of an outcome, and how many items ended in it.
fn add_count(line: &mut Line, attempts: &[Attempt], name: &str)
    requires name { length name.now ≤ 11 }
    requires room { length line.old + 33 ≤ 600 }
    ensures text { line.new ≡ line.old ++ spec.count_text attempts.now name.now }
    ensures grows { length line.new ≤ length line.old + 33 }
{
    line.text(" ");
    line.text(name);
    line.number(items_ended(attempts, name));
}

// How many items ended in the outcome of this name.
fn items_ended(attempts: &[Attempt], name: &str) -> u64
    ensures { result ≡ spec.items_ended attempts.now name.now }
{
    let mut count = 0;
    for attempt in attempts {
        if ended_so(attempt, name) {
            count += 1;
        }
    }
    count
}

// Whether no retry follows an attempt, and its outcome has this name.
fn ended_so(attempt: &Attempt, name: &str) -> bool
    ensures { result ≡ (attempt.now.finishes && bytes_eq (spec.outcome_name attempt.now.outcome) name.now) }
{
    attempt.finishes && outcome_name(attempt.outcome) == name
}

// The name of an outcome, whatever the part of the message.
fn outcome_name(outcome: Outcome) -> &'static str
    ensures { result.now ≡ spec.outcome_name outcome }
{
    match outcome {
        Outcome::Clear => "clear",
        Outcome::Sent => "sent",
        Outcome::Declined => "declined",
        Outcome::Passed => "passed",
        Outcome::Illegal(_) => "illegal",
        Outcome::Busy(_) => "busy",
        Outcome::NoResponse(_) => "no-response",
        Outcome::BadReply(_) => "bad-reply",
        Outcome::Abandoned => "abandoned",
        Outcome::Yielded => "yielded",
    }
}

/// The last line: the number of faults.
pub fn surveyed_line(faults: u64) -> Line
    ensures { result ≡ spec.surveyed_line faults }
{
    let mut line = Line::new();
    line.text("surveyed");
    line.number(faults);
    line.end();
    line
}
