//! What a plan has too much of.
ghost use Rattle.std.specs.Prelude.{◌≡◌, ◌+◌, ◌*◌, ◌<◌, ◌≤◌, ◌^◌, length, min, nat_lt};
ghost use Rattle.std.specs.List.{list_any};
ghost use Rattle.bus_plan.specs.Limits as spec;

use crate::place::Place;
use crate::rows::Head;
use bus_formats::{FramePlan, Plan, StationPlan};

/// What is counted in a plan.
#[derive(Clone, Copy)]
pub enum Measure {
    Items,
    RepeatedItems,
    RepeatedTicks,
}

// No amount is counted further than this.
const MOST: u64 = 0x8000_0000;

fn has_long_station(most: usize, stations: &[StationPlan]) -> bool
    ensures { result ≡ list_any (λ s. nat_lt most (length s.frames)) stations.now }
{
    for station in stations {
        if station.frames.len() > most {
            return true;
        }
    }
    false
}

// A frame's amount.
fn of_frame(measure: Measure, frame: &FramePlan) -> u64
    ensures { result ≡ spec.of_frame measure frame.now }
{
    match measure {
        Measure::RepeatedTicks => u64::from(frame.ticks),
        _ => frame.items.len() as u64,
    }
}

fn times_in(measure: Measure, station: &StationPlan) -> u64
    ensures value { result ≡ spec.times_in measure station.now }
    ensures below { result < 2 ^ 32 }
{
    match measure {
        Measure::Items => 1,
        _ => u64::from(station.repeat),
    }
}

// The amount of all frames, counted up to the most.
fn of_frames(measure: Measure, frames: &[FramePlan]) -> u64
    ensures { result ≡ min 0x8000_0000 (spec.of_frames measure frames.now) }
{
    let mut amount = 0;
    for frame in frames {
        amount += of_frame(measure, frame).min(MOST - amount);
    }
    amount
}

// The amount of all stations, counted up to the most.
#[tactic(auto, using(crate::proofs::Amounts::capped))]
fn of_stations(measure: Measure, stations: &[StationPlan]) -> u64
    ensures { result ≡ min 0x8000_0000 (spec.of_stations measure stations.now) }
{
    let mut amount = 0;
    for station in stations {
        amount = added(
            amount,
            times_in(measure, station),
            of_frames(measure, station.frames.as_slice()),
        );
    }
    amount
}

fn added(amount: u64, times: u64, more: u64) -> u64
    requires { (amount ≤ 0x8000_0000) × (times < 2 ^ 32) × (more ≤ 0x8000_0000) }
    ensures { result ≡ min 0x8000_0000 (amount + times * more) }
{
    (amount + times * more).min(MOST)
}

fn most_frames(head: Head) -> usize
    ensures { result ≡ spec.most_frames head }
{
    if head.is_second { 1024 } else { 64 }
}

/// What there is too much of.
pub fn too_many(head: Head, plan: &Plan) -> Option<Place>
    ensures { result ≡ spec.too_many head plan.now }
{
    let stations = plan.stations.as_slice();
    if stations.len() > 32 {
        return Some(Place::root().with("stations"));
    }
    if has_long_station(most_frames(head), stations) {
        return Some(Place::root().with("frames"));
    }
    if of_stations(Measure::Items, stations) > 4096 {
        return Some(Place::root().with("items"));
    }
    if plan.faults.len() > 1024 {
        return Some(Place::root().with("faults"));
    }
    if of_stations(Measure::RepeatedItems, stations) > 16384 {
        return Some(Place::root().with("repeats"));
    }
    if of_stations(Measure::RepeatedTicks, stations) > 2_048_000_000 {
        return Some(Place::root().with("ticks"));
    }
    None
}
