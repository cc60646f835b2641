//! For how many attempts, words, bursts and deliveries room is made.
ghost use Rattle.std.specs.Prelude.{◌≡◌, ◌≤◌, ◌+◌, ◌*◌, min, sum_by};
ghost use Rattle.bus_run.specs.Amounts as spec;

use bus_formats::{FramePlan, Item, Plan, StationPlan};

// No amount is counted further than this.
const MOST: u64 = 0x8000_0000;

/// All attempts that the items of a plan can have.
#[tactic(auto, unfolding(crate::specs::Amounts::most_attempts))]
pub fn most_attempts(plan: &Plan) -> u64
    ensures value { result ≡ spec.most_attempts plan.now }
    ensures below { result ≤ 0x8000_0000 }
{
    attempts_of_stations(plan.stations.as_slice())
}

#[tactic(auto, using(crate::proofs::Capped::capped))]
fn attempts_of_stations(stations: &[StationPlan]) -> u64
    ensures { result ≡ spec.counted (sum_by spec.attempts_of_station stations.now) }
{
    let mut amount = 0;
    for station in stations {
        amount = added(
            amount,
            station.repeat,
            attempts_of_frames(station.frames.as_slice()),
        );
    }
    amount
}

#[tactic(auto, using(crate::proofs::Capped::capped))]
fn attempts_of_frames(frames: &[FramePlan]) -> u64
    ensures { result ≡ spec.counted (sum_by spec.attempts_of_frame frames.now) }
{
    let mut amount = 0;
    for frame in frames {
        amount = added(amount, 1, attempts_of_items(frame.items.as_slice()));
    }
    amount
}

#[tactic(auto, using(crate::proofs::Capped::capped))]
fn attempts_of_items(items: &[Item]) -> u64
    ensures { result ≡ spec.counted (sum_by spec.attempts_of_item items.now) }
{
    let mut amount = 0;
    for item in items {
        amount = added(amount, 1, attempts_of_item(item));
    }
    amount
}

fn attempts_of_item(item: &Item) -> u64
    ensures { result ≡ spec.counted (spec.attempts_of_item item.now) }
{
    (1 + item.retry.len() as u64).min(MOST)
}

// An amount, and so many times another more.
fn added(amount: u64, times: u32, more: u64) -> u64
    requires amount { amount ≤ 0x8000_0000 }
    requires more { more ≤ 0x8000_0000 }
    ensures { result ≡ spec.counted (amount + times * more) }
{
    (amount + u64::from(times) * more).min(MOST)
}
