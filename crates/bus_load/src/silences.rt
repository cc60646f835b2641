//! The longest silence that a living controller keeps (the project's own).
ghost use Rattle.std.specs.Prelude.{◌≡◌, ◌≤◌, ◌+◌, ◌-◌, List, [], sum_by, None, IfSome};
ghost use Rattle.bus_line.specs.declared.cutter.TheConstants.{LAG};
ghost use Rattle.bus_formats.specs.Accepted.{IsAccepted};
ghost use Rattle.bus_formats.specs.declared.fault.Fault.{Fault as FaultData};
ghost use Rattle.bus_load.specs.InTime.{with_faults};
ghost use Rattle.bus_load.specs.Living.{IsAlwaysContinued};
ghost use Rattle.bus_load.specs.Load as limits;
ghost use Rattle.bus_load.specs.Silence as spec;
ghost use Rattle.bus_model.specs.Outside as outside;
ghost use Rattle.bus_model.specs.Starts.{agenda};

use bus_formats::{FramePlan, Item, Plan, SETTLING_QUIET, StationPlan, dead_ticks};

// The tick for which the first frame is planned.
const FIRST_TICK: u64 = 8;

/// The frames with items of a controller, in ticks of all frames before them.
#[derive(Clone, Copy, Debug, PartialEq, Eq)]
pub struct Spread {
    /// Before the first one.
    pub first: Option<u64>,
    /// Before the last one so far.
    pub last: Option<u64>,
    /// The most from one of them to the next.
    pub longest: u64,
}

/// The ticks of silence on both channels after which a second controller may take control: 40 more than the longest that a plan's own controller keeps while it lives
/// and has items left. Where that one offers no control, each of its attempts begins 40 ticks sooner at least, in the run of the plan by the message table, with
/// whatever faults it is accepted.
#[tactic(auto, unfolding(bus_model::specs::Outside::silence))]
pub fn silence(plan: &Plan) -> u64
    requires { IsAccepted plan.now }
    ensures value { result ≡ outside.silence plan.now }
    ensures lives { limits.first_offer plan.now ≡ None → (faults : List FaultData) → IsAccepted (with_faults faults plan.now) →
        IsAlwaysContinued LAG [] (with_faults faults plan.now) (result - 40) }
{
    silence_of(plan)
}

#[tactic(auto, using(crate::proofs::Limits::limits_of), unfolding(bus_model::specs::Outside::silence))]
fn silence_of(plan: &Plan) -> u64
    requires { IsAccepted plan.now }
    ensures { result ≡ outside.silence plan.now }
{
    for station in &plan.stations {
        if station.terminal.address == plan.start {
            return longest_quiet(station) + u64::from(SETTLING_QUIET);
        }
    }
    2 * u64::from(SETTLING_QUIET)
}

// The longest that both channels can be quiet while a station lives and has items left.
fn longest_quiet(station: &StationPlan) -> u64
    requires { limits.IsWithinLimits station.now }
    ensures value { result ≡ outside.longest_quiet (agenda station.now) }
    ensures below { result ≤ 5000000000 }
{
    quiet_over_frames(station)
}

// The same, over its frames alone.
fn quiet_over_frames(station: &StationPlan) -> u64
    requires { limits.IsWithinLimits station.now }
    ensures value { result ≡ spec.longest_quiet_of station.now }
    ensures below { result ≤ 5000000000 }
{
    let frames = station.frames.as_slice();
    let spread = spread_of(frames);
    u64::from(SETTLING_QUIET)
        .max(longest_gap_in(frames))
        .max(before_first(spread.first))
        .max(longest_between(station.repeat, spread, ticks_of(frames)))
}

fn before_first(first: Option<u64>) -> u64
    requires { IfSome first (λ ticks. ticks ≤ 2048000000) }
    ensures value { result ≡ spec.before_first first }
    ensures below { result ≤ 2048000008 }
{
    match first {
        None => 0,
        Some(ticks) => FIRST_TICK + ticks,
    }
}

// The most ticks from a frame with items to the next, where the frames take so many ticks.
fn longest_between(repeat: u32, spread: Spread, ticks: u64) -> u64
    requires ticks { ticks ≤ 2048000000 }
    requires first { IfSome spread.first (λ before. before ≤ 2048000000) }
    requires longest { spread.longest ≤ 2048000000 }
    ensures value { result ≡ spec.longest_between repeat spread ticks }
    ensures below { result ≤ 4096000000 }
{
    if repeat > 1 {
        spread.longest.max(wrapped(spread, ticks))
    } else {
        spread.longest
    }
}

fn wrapped(spread: Spread, ticks: u64) -> u64
    requires ticks { ticks ≤ 2048000000 }
    requires first { IfSome spread.first (λ before. before ≤ 2048000000) }
    ensures value { result ≡ spec.wrapped spread ticks }
    ensures below { result ≤ 4096000000 }
{
    match (spread.first, spread.last) {
        (Some(first), Some(last)) => (ticks + first).saturating_sub(last),
        _ => 0,
    }
}

fn spread_of(frames: &[FramePlan]) -> Spread
    requires { sum_by (λ f. f.ticks) frames.now ≤ 2048000000 }
    ensures value { result ≡ spec.spread_over spec.no_frames 0 frames.now }
    ensures first { IfSome result.first (λ before. before ≤ 2048000000) }
    ensures longest { result.longest ≤ 2048000000 }
{
    let mut spread = Spread {
        first: None,
        last: None,
        longest: 0,
    };
    let mut ticks = 0;
    for frame in frames {
        spread = spread_by(spread, ticks, frame.items.as_slice());
        ticks += u64::from(frame.ticks);
    }
    spread
}

fn spread_by(spread: Spread, ticks: u64, items: &[Item]) -> Spread
    ensures { result ≡ spec.spread_by spread ticks items.now }
{
    match items {
        [] => spread,
        [_, ..] => Spread {
            first: first_at(spread.first, ticks),
            last: Some(ticks),
            longest: spread.longest.max(since(spread.last, ticks)),
        },
    }
}

fn first_at(first: Option<u64>, ticks: u64) -> Option<u64>
    ensures { result ≡ spec.first_at first ticks }
{
    match first {
        None => Some(ticks),
        Some(before) => Some(before),
    }
}

fn since(last: Option<u64>, ticks: u64) -> u64
    ensures { result ≡ spec.since last ticks }
{
    match last {
        None => 0,
        Some(before) => ticks.saturating_sub(before),
    }
}

fn ticks_of(frames: &[FramePlan]) -> u64
    requires { sum_by (λ f. f.ticks) frames.now ≤ 2048000000 }
    ensures { result ≡ sum_by (λ f. f.ticks) frames.now }
{
    let mut ticks = 0;
    for frame in frames {
        ticks += u64::from(frame.ticks);
    }
    ticks
}

fn longest_gap_in(frames: &[FramePlan]) -> u64
    ensures value { result ≡ spec.longest_gap_in frames.now }
    ensures below { result ≤ 65535 }
{
    let mut longest = 0;
    for frame in frames {
        longest = longest.max(longest_gap(frame.items.as_slice()));
    }
    longest
}

fn longest_gap(items: &[Item]) -> u64
    ensures value { result ≡ spec.longest_gap items.now }
    ensures below { result ≤ 65535 }
{
    let mut longest = 0;
    for item in items {
        longest = longest.max(u64::from(dead_ticks(item.gap)));
    }
    longest
}
