//! What is printed of a schedule.
ghost use Rattle.std.specs.Prelude.{◌≡◌, ◌≤◌, ◌+◌, length, true, false, None};
ghost use Rattle.bus_formats.specs.Accepted.{IsAccepted};
ghost use Rattle.bus_load.specs.Lines as spec;
ghost use Rattle.bus_load.specs.Load as costs;
ghost use Rattle.bus_load.specs.Load.{starting, first_offer};
ghost use Rattle.bus_outside.specs.Causes.{HasCause, WriteAdds};

use crate::costs::frame_cost;
use crate::fits::verdict;
use crate::reckoned::Verdict;
use bus_formats::{FramePlan, Plan};
use bus_outside::{Failed, Sink};
use bus_text::Line;

/// Writes for each frame of the station that starts, which offers no control, its ticks and what it takes at most in the short and in the long reckoning, and
/// then the verdict; one write a line. At `Failed`, the first write that failed, a front of the text was written.
pub fn write_load<K: Sink>(plan: &Plan, sink: &mut K) -> Result<(), Failed>
    requires accepted { IsAccepted plan.now }
    requires no_offer { first_offer plan.now ≡ None }
    ensures bytes { WriteAdds (K.held sink.old) (K.held sink.new) result (spec.load_text plan.now) }
    ensures cause { HasCause (K.faults sink.old) (K.faults sink.new) result }
{
    write_frames(plan, frames_of(plan), sink)?;
    sink.write(verdict_line(verdict(plan)).as_bytes())
}

#[tactic(auto, using(crate::proofs::Limits::limits_of))]
fn frames_of(plan: &Plan) -> &[FramePlan]
    requires { IsAccepted plan.now }
    ensures value { result.now ≡ spec.frames_of (starting plan.now) }
    ensures few { length result.now ≤ 1024 }
{
    for station in &plan.stations {
        if station.terminal.address == plan.start {
            return station.frames.as_slice();
        }
    }
    &[]
}

fn write_frames<K: Sink>(plan: &Plan, frames: &[FramePlan], sink: &mut K) -> Result<(), Failed>
    requires accepted { IsAccepted plan.now }
    requires few { length frames.now ≤ 1024 }
    ensures bytes { WriteAdds (K.held sink.old) (K.held sink.new) result (spec.frame_lines plan.now 1 frames.now) }
    ensures cause { HasCause (K.faults sink.old) (K.faults sink.new) result }
{
    let mut number = 0;
    for frame in frames {
        number += 1;
        sink.write(line_of(plan, number, frame.ticks).as_bytes())?;
    }
    Ok(())
}

fn line_of(plan: &Plan, frame: u32, ticks: u32) -> Line
    requires accepted { IsAccepted plan.now }
    requires first { 1 ≤ frame }
    ensures { result ≡ spec.frame_line frame ticks (costs.frame_cost false plan.now frame) (costs.frame_cost true plan.now frame) }
{
    let mut line = Line::new();
    line.text("frame");
    line.number(u64::from(frame));
    line.text(" ticks");
    line.number(u64::from(ticks));
    line.text(" short");
    line.number(frame_cost(plan, frame, false));
    line.text(" long");
    line.number(frame_cost(plan, frame, true));
    line.end();
    line
}

fn verdict_line(told: Verdict) -> Line
    ensures { result ≡ spec.verdict_line told }
{
    let mut line = Line::new();
    line.text("load ");
    line.text(match told {
        Verdict::Long => "long",
        Verdict::Short => "short",
        Verdict::Over => "over",
    });
    line.end();
    line
}
