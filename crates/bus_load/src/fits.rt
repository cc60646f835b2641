//! Whether each frame ends before the next one is due.
ghost use Rattle.std.specs.List.{AllByRecursion as Each};
ghost use Rattle.std.specs.Prelude.{◌≡◌, ◌≤◌, List, [], length, sum_by, All, None, Some, IfSome};
ghost use Rattle.bus_line.specs.declared.cutter.TheConstants.{LAG};
ghost use Rattle.bus_formats.specs.Accepted.{IsAccepted};
ghost use Rattle.bus_formats.specs.declared.fault.Fault.{Fault as FaultData};
ghost use Rattle.bus_load.specs.InTime.{AddsNone, FramesStartAsPlanned, with_faults};
ghost use Rattle.bus_load.specs.Load as spec;
ghost use Rattle.bus_load.specs.declared.reckoned.Verdict.TheVariants.{Long, Short};

use crate::costs::{again_of, cost_of_items, gap_after};
use crate::reckoned::Verdict;
use bus_formats::{FramePlan, Plan, StationPlan, dead_ticks};

// The tick for which the first frame is planned.
const FIRST_TICK: u64 = 8;

/// In which reckoning each frame of the station that starts, which offers no control, ends before the next one with items is due. Where it is the long one, each
/// frame starts as planned in the run of the plan by the message table, with whatever faults it is accepted; where it is the short one, with whatever
/// faults but those that add words.
pub fn verdict(plan: &Plan) -> Verdict
    requires accepted { IsAccepted plan.now }
    requires no_offer { spec.first_offer plan.now ≡ None }
    ensures value { result ≡ spec.verdict plan.now }
    ensures long { result ≡ Long → (faults : List FaultData) → IsAccepted (with_faults faults plan.now) →
        FramesStartAsPlanned LAG [] (with_faults faults plan.now) }
    ensures short { result ≡ Short → (faults : List FaultData) → IsAccepted (with_faults faults plan.now) → Each AddsNone faults →
        FramesStartAsPlanned LAG [] (with_faults faults plan.now) }
{
    verdict_of(plan)
}

#[tactic(auto, using(crate::proofs::Limits::limits_of))]
fn verdict_of(plan: &Plan) -> Verdict
    requires { IsAccepted plan.now }
    ensures { result ≡ spec.verdict plan.now }
{
    for station in &plan.stations {
        if station.terminal.address == plan.start {
            return verdict_on(station);
        }
    }
    Verdict::Long
}

fn verdict_on(station: &StationPlan) -> Verdict
    requires { spec.IsWithinLimits station.now }
    ensures { result ≡ spec.station_verdict (Some station.now) }
{
    if fits(true, station) {
        Verdict::Long
    } else if fits(false, station) {
        Verdict::Short
    } else {
        Verdict::Over
    }
}

fn fits(long: bool, station: &StationPlan) -> bool
    requires { spec.IsWithinLimits station.now }
    ensures { result ≡ spec.station_fits long station.now }
{
    let frames = station.frames.as_slice();
    frames_fit(long, frames, again_of(station)) && first_fits(frames)
}

fn frames_fit(long: bool, frames: &[FramePlan], again: &[FramePlan]) -> bool
    requires { All (λ f. length f.items ≤ 4096) frames.now }
    ensures { result ≡ spec.frames_fit long frames.now again.now }
{
    for (place, frame) in frames.iter().enumerate() {
        if !frame_fits(long, frame, gap_after(&frames[place + 1..], again)) {
            return false;
        }
    }
    true
}

fn frame_fits(long: bool, frame: &FramePlan, after: Option<u64>) -> bool
    requires few { length frame.now.items ≤ 4096 }
    requires gap { IfSome after (λ gap. gap ≤ 65535) }
    ensures { result ≡ spec.fits_by (spec.cost_of_items long frame.now.items after) frame.now.ticks after }
{
    after.is_none() || cost_of_items(long, frame.items.as_slice(), after) <= u64::from(frame.ticks)
}

// Whether the gap of the very first item doesn't put it off.
fn first_fits(frames: &[FramePlan]) -> bool
    requires short { sum_by (λ f. f.ticks) frames.now ≤ 2048000000 }
    ensures { result ≡ spec.first_fits 0 frames.now }
{
    let mut ticks = 0;
    for frame in frames {
        if let [first, ..] = frame.items.as_slice() {
            return u64::from(dead_ticks(first.gap)) <= FIRST_TICK + ticks;
        }
        ticks += u64::from(frame.ticks);
    }
    true
}
