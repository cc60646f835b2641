//! The line of a benchmark.
ghost use Rattle.std.specs.Prelude.{◌≡◌, ◌≤◌, ◌+◌, ◌++◌, ◌<◌, ◌^◌, count_by, length};
ghost use Rattle.bus_retry.specs.Retries.{is_clear};
ghost use Rattle.bus_bench.specs.Lines as spec;

use bus_formats::{Attempt, Heard, Outcome, RunLog};
use bus_text::Line;

/// The line on a run with so many messages in its plan: how many attempts were made and how many ended clear, the ticks, and the sum of the bits of all words that
/// were heard, in 32 bits.
#[tactic(auto, unfolding(crate::specs::Lines::bench_line))]
pub fn bench_line(items: u32, log: &RunLog) -> Line
    ensures { result ≡ spec.bench_line items log.now }
{
    let mut line = Line::new();
    line.text("bench");
    add_count(&mut line, "items", u64::from(items));
    add_count(&mut line, "attempts", log.attempts.len() as u64);
    add_count(&mut line, "clear", clear_among(log.attempts.as_slice()));
    add_count(&mut line, "ticks", log.end.0);
    add_count(&mut line, "sum", sum_of(log.words.as_slice()));
    line.end();
    line
}

// Adds a name, and how many there are of it.
fn add_count(line: &mut Line, name: &str, count: u64)
    requires name { length name.now ≤ 8 }
    requires room { length line.old + 30 ≤ 600 }
    ensures text { line.new ≡ line.old ++ spec.count_text name.now count }
    ensures grows { length line.new ≤ length line.old + 30 }
{
    line.text(" ");
    line.text(name);
    line.number(count);
}

// How many attempts ended clear.
fn clear_among(attempts: &[Attempt]) -> u64
    ensures { result ≡ count_by (λ a. is_clear a.outcome) attempts.now }
{
    let mut count = 0;
    for attempt in attempts {
        if ended_clear(attempt) {
            count += 1;
        }
    }
    count
}

fn ended_clear(attempt: &Attempt) -> bool
    ensures { result ≡ is_clear attempt.now.outcome }
{
    matches!(attempt.outcome, Outcome::Clear)
}

// The sum of the bits of these words, in 32 bits.
fn sum_of(words: &[Heard]) -> u64
    ensures { result ≡ spec.sum_of words.now }
{
    let mut sum = 0;
    for heard in words {
        sum = (sum + u64::from(heard.word.bits)) % 0x1_0000_0000;
    }
    sum
}
