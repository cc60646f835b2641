//! The most ticks of a message, and of a frame.
ghost use Rattle.std.specs.Prelude.{◌≡◌, ◌≤◌, ◌+◌, ◌*◌, ◌-◌, drop, length, sum_by, IfSome};
ghost use Rattle.bus_formats.specs.Accepted.{IsAccepted};
ghost use Rattle.bus_formats.specs.Forms as forms;
ghost use Rattle.bus_load.specs.Load as spec;

use bus_formats::{
    FramePlan, Item, Kind, LEAST_QUIET, Plan, SETTLING_QUIET, Shape, StationPlan, answers,
    dead_ticks,
};

// The words that the fail-safe lets a transmitter send (MIL-STD-1553B 4.4.1.3).
const MOST_WORDS: u64 = 40;

// The dead ticks before the latest answer (4.3.3.8).
const LONGEST_RESPONSE: u64 = 20;

/// The most ticks that a frame of the station that starts takes, counted from 1; 0 where it has no items, or isn't there. In the long
/// reckoning faults add words to any burst, up to the fail-safe (4.4.1.3); in the short one none does.
#[tactic(auto, using(crate::proofs::Limits::limits_of))]
pub fn frame_cost(plan: &Plan, frame: u32, long: bool) -> u64
    requires accepted { IsAccepted plan.now }
    requires first { 1 ≤ frame }
    ensures { result ≡ spec.frame_cost long plan.now frame }
{
    for station in &plan.stations {
        if station.terminal.address == plan.start {
            return cost_of_frame(long, station, frame);
        }
    }
    0
}

fn cost_of_frame(long: bool, station: &StationPlan, frame: u32) -> u64
    requires first { 1 ≤ frame }
    requires limits { spec.IsWithinLimits station.now }
    ensures { result ≡ spec.cost_of_first long (drop (frame - 1) station.now.frames) (spec.again_of station.now) }
{
    match station.frames.as_slice().get(frame as usize - 1..) {
        Some([first, later @ ..]) => {
            cost_of_items(
                long,
                first.items.as_slice(),
                gap_after(later, again_of(station)),
            )
        }
        _ => 0,
    }
}

/// The frames that run again after the last one.
pub fn again_of(station: &StationPlan) -> &[FramePlan]
    ensures { result.now ≡ spec.again_of station.now }
{
    if station.repeat > 1 {
        station.frames.as_slice()
    } else {
        &[]
    }
}

/// The gap of the first item of the next frame with items, beyond the least; none where no such frame follows.
pub fn gap_after(later: &[FramePlan], again: &[FramePlan]) -> Option<u64>
    ensures value { result ≡ spec.gap_after later.now again.now }
    ensures below { IfSome result (λ gap. gap ≤ 65535) }
{
    next_gap(later).or(next_gap(again))
}

fn next_gap(frames: &[FramePlan]) -> Option<u64>
    ensures value { result ≡ spec.next_gap frames.now }
    ensures below { IfSome result (λ gap. gap ≤ 65535) }
{
    for frame in frames {
        if let [first, ..] = frame.items.as_slice() {
            return Some(gap_beyond(first));
        }
    }
    None
}

/// The cost of a frame with these items, before an item with this gap.
pub fn cost_of_items(long: bool, items: &[Item], after: Option<u64>) -> u64
    requires few { length items.now ≤ 4096 }
    requires gap { IfSome after (λ gap. gap ≤ 65535) }
    ensures { result ≡ spec.cost_of_items long items.now after }
{
    match items {
        [] => 0,
        [_, others @ ..] => cost_of_messages(long, items)
            + cost_of_gaps(others)
            + after.unwrap_or(0),
    }
}

fn cost_of_messages(long: bool, items: &[Item]) -> u64
    requires few { length items.now ≤ 4096 }
    ensures value { result ≡ sum_by (spec.item_cost long) items.now }
    ensures below { result ≤ 1000000 * length items.now }
{
    let mut ticks = 0;
    for item in items {
        ticks += item_cost(long, item);
    }
    ticks
}

fn cost_of_gaps(items: &[Item]) -> u64
    requires few { length items.now ≤ 4096 }
    ensures value { result ≡ sum_by spec.gap_beyond items.now }
    ensures below { result ≤ 65535 * length items.now }
{
    let mut ticks = 0;
    for item in items {
        ticks += gap_beyond(item);
    }
    ticks
}

fn gap_beyond(item: &Item) -> u64
    ensures value { result ≡ spec.gap_beyond item.now }
    ensures below { result ≤ 65535 }
{
    u64::from(dead_ticks(item.gap).saturating_sub(LEAST_QUIET))
}

// A message with all of its retries, and the quiet before the next one.
fn item_cost(long: bool, item: &Item) -> u64
    ensures value { result ≡ spec.item_cost long item.now }
    ensures below { result ≤ 1000000 }
{
    let ticks = message_ticks(long, &item.kind);
    match answers(&item.kind).first {
        None => ticks + u64::from(LEAST_QUIET),
        Some(_) => (1 + item.retry.len() as u64) * (ticks + u64::from(SETTLING_QUIET)),
    }
}

// From the first tick of a message to its last.
fn message_ticks(long: bool, kind: &Kind) -> u64
    ensures value { result ≡ spec.message_ticks long kind.now }
    ensures below { result ≤ 30000 }
{
    let answers = answers(kind);
    burst_ticks(long, words_sent(kind))
        + answer_ticks(long, answers.first)
        + answer_ticks(long, answers.second)
}

// The words that the controller sends.
fn words_sent(kind: &Kind) -> u64
    ensures value { result ≡ length (forms.command_words kind.now) }
    ensures below { result ≤ 33 }
{
    match kind {
        Kind::Receive { words, .. } => 1 + words.words().len() as u64,
        Kind::Relay { .. } => 2,
        Kind::Mode { word: Some(_), .. } => 2,
        Kind::Transmit { .. } | Kind::Mode { .. } => 1,
    }
}

fn answer_ticks(long: bool, answer: Option<Shape>) -> u64
    ensures value { result ≡ spec.answer_ticks long answer }
    ensures below { result ≤ 10260 }
{
    match answer {
        None => 0,
        Some(shape) => LONGEST_RESPONSE + burst_ticks(long, 1 + u64::from(shape.count)),
    }
}

fn burst_ticks(long: bool, words: u64) -> u64
    requires { words ≤ 256 }
    ensures value { result ≡ spec.burst_ticks long words }
    ensures below { result ≤ 10240 }
{
    40 * if long { MOST_WORDS } else { words }
}
