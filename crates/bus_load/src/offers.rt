//! Offers of control among the items of stations (MIL-STD-1553B 4.3.3.5.1.7.1).
ghost use Rattle.std.specs.Prelude.{◌≡◌, ◌≤◌, ◌+◌, length, All, None};
ghost use Rattle.bus_formats.specs.Accepted.{IsAccepted};
ghost use Rattle.bus_load.specs.Load as spec;
ghost use Rattle.bus_load.specs.Offers as any;
ghost use Rattle.bus_model.specs.Attempts as attempts;

use crate::reckoned::OfferPlace;
use bus_formats::code::DYNAMIC_BUS_CONTROL;
use bus_formats::{FramePlan, Item, Kind, Plan};

/// The first item of the station that starts that offers control, in the order of the plan. None exactly where it has none.
#[tactic(auto, using(crate::proofs::Limits::limits_of))]
pub fn first_offer(plan: &Plan) -> Option<OfferPlace>
    requires { IsAccepted plan.now }
    ensures { result ≡ spec.first_offer plan.now }
{
    let mut number = 0;
    for station in &plan.stations {
        number += 1;
        if station.terminal.address == plan.start {
            return offer_in_frames(number, station.frames.as_slice());
        }
    }
    None
}

/// The first item of any station that offers control, in the order of the plan. None exactly where no station has one; then the station that starts has none either.
pub fn any_offer(plan: &Plan) -> Option<OfferPlace>
    requires { IsAccepted plan.now }
    ensures value { result ≡ any.any_offer plan.now }
    ensures none { result ≡ None → spec.first_offer plan.now ≡ None }
{
    first_among(plan)
}

#[tactic(auto, using(crate::proofs::Limits::limits_of))]
fn first_among(plan: &Plan) -> Option<OfferPlace>
    requires { IsAccepted plan.now }
    ensures { result ≡ any.any_offer plan.now }
{
    let mut number = 0;
    for station in &plan.stations {
        number += 1;
        let found = offer_in_frames(number, station.frames.as_slice());
        if found.is_some() {
            return found;
        }
    }
    None
}

fn offer_in_frames(station: u32, frames: &[FramePlan]) -> Option<OfferPlace>
    requires few { length frames.now ≤ 1024 }
    requires items { All (λ f. length f.items ≤ 4096) frames.now }
    ensures { result ≡ spec.offer_in_frames station 1 frames.now }
{
    let mut number = 0;
    for frame in frames {
        number += 1;
        let found = offer_in_items(station, number, frame.items.as_slice());
        if found.is_some() {
            return found;
        }
    }
    None
}

fn offer_in_items(station: u32, frame: u32, items: &[Item]) -> Option<OfferPlace>
    requires few { length items.now ≤ 4096 }
    ensures { result ≡ spec.offer_in_items station frame 1 items.now }
{
    let mut place = 0;
    for item in items {
        place += 1;
        if is_offer(&item.kind) {
            return Some(OfferPlace {
                station,
                frame,
                item: place,
            });
        }
    }
    None
}

fn is_offer(kind: &Kind) -> bool
    ensures { result ≡ attempts.is_offer kind.now }
{
    match kind {
        Kind::Mode { code, .. } => *code == DYNAMIC_BUS_CONTROL,
        _ => false,
    }
}
