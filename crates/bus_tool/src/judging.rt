//! The command that judges a capture.
ghost use Rattle.std.specs.Prelude.{◌≡◌, ◌≤◌, nat_lt, if◌then◌else◌};
ghost use Rattle.bus_tool.specs.EndsJudge.{JudgesCapture, StatusJudged};

use bus_outside::{Sink, Source};
use bus_refusals::capture_refusal_line;
use bus_rules::{Judgement, judge};

/// The command `judge`: the breaches of a capture.
pub fn judge_capture<S: Source, K: Sink>(source: &mut S, sink: &mut K) -> u8
    ensures { JudgesCapture (S.left source.old) (S.left source.new) (K.held sink.old) (K.held sink.new)
        (S.faults source.old) (S.faults source.new) (K.faults sink.old) (K.faults sink.new) result }
{
    let judgement = judge(source, sink);
    status_judged(judgement, sink)
}

// The status after a judgement that ended so; at a refusal its line is written.
fn status_judged<K: Sink>(judgement: Judgement, sink: &mut K) -> u8
    ensures answer { StatusJudged (K.held sink.old) (K.held sink.new) (K.faults sink.old) (K.faults sink.new) result judgement }
    ensures later { K.faults sink.old ≤ K.faults sink.new }
{
    match judgement {
        Judgement::Done { breaches, .. } => status_of_breaches(breaches),
        Judgement::ReadFault => 4,
        Judgement::WriteFault => 5,
        Judgement::Refused(refusal) => match sink.write(capture_refusal_line(refusal).as_bytes()) {
            Ok(()) => 3,
            Err(_) => 5,
        },
    }
}

// 1 where there is a breach.
fn status_of_breaches(breaches: u64) -> u8
    ensures { result ≡ (if nat_lt 0 breaches then 1 else 0) }
{
    if breaches > 0 { 1 } else { 0 }
}
