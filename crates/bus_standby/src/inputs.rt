//! An input: which station takes over, and when.
ghost use Rattle.std.specs.Prelude.{◌≡◌, ◌≤◌, ◌<◌, length, IfOk, IfErr, Ok, Err, true, None};
ghost use Rattle.std.specs.List.{list_any};
ghost use Rattle.bus_formats.specs.Accepted.{IsAccepted};
ghost use Rattle.bus_load.specs.Offers as offers;
ghost use Rattle.bus_plan.specs.PlanOf.{plan_of_bytes};
ghost use Rattle.bus_standby.specs.Inputs as spec;
ghost use Rattle.bus_standby.specs.Inputs.{MayStandBy};

use crate::header::{Header, place_of, read_header};
use bus_formats::{FramePlan, Item, Plan, StationPlan};
use bus_load::{OfferPlace, any_offer};
use bus_plan::{PlanError, PlanRefusal, read_plan};
use std::alloc::{AllocError, Global};

// The most bytes of the line with its line feed, of a plan's text, and of both.
const LINE_LIMIT: usize = 64;

const PLAN_LIMIT: usize = 4_194_304;

/// The most bytes of an input.
pub const INPUT_LIMIT: usize = 4_194_368;

/// A plan with the station that takes over, and when the one that starts stops.
#[derive(Drop)]
pub struct StandbyPlan {
    /// The plan. The station that starts is the primary.
    pub plan: Plan,
    /// The address of the station that takes over, 0 to 30.
    pub address: u8,
    /// The number of the attempt that the primary doesn't begin any more, from 1.
    pub attempt: u32,
}

/// Why an input is refused. The causes are tried in this order.
#[derive(Drop)]
pub enum StandbyRefusal {
    /// It has more than 4,194,368 bytes.
    TooLong,
    /// It doesn't begin with such a line, or the plan has more than 4,194,304 bytes.
    Header,
    /// The rest is no plan.
    Plan(PlanRefusal),
    /// The address is no station of the plan, or the one that starts, or one without items.
    Address,
    /// Some station offers control: the first item that does.
    Offer(OfferPlace),
}

/// Why there is nothing to run.
#[derive(Drop)]
pub enum StandbyError {
    /// The input is refused.
    Refused(StandbyRefusal),
    /// Memory ran out, whatever the input is.
    Memory(AllocError),
}

/// What an input says: a line `1553 standby <address> <attempt>` of at most 64 bytes with its line feed, and a plan; or the first cause for which it is refused. Want
/// of memory is an answer of its own.
#[tactic(auto, unfolding(crate::specs::Inputs::standby_of_bytes))]
pub fn read_standby(alloc: Global, input: &[u8]) -> Result<StandbyPlan, StandbyError>
    ensures ok { IfOk result (λ p. spec.standby_of_bytes input.now ≡ Ok p) }
    ensures may { IfOk result (λ p. MayStandBy p.plan p.address p.attempt) }
    ensures refused { IfErr result (spec.IsRefusalOf (spec.standby_of_bytes input.now)) }
{
    if input.len() > INPUT_LIMIT {
        return Err(StandbyError::Refused(StandbyRefusal::TooLong));
    }
    read_parts(alloc, input)
}

fn read_parts(alloc: Global, input: &[u8]) -> Result<StandbyPlan, StandbyError>
    ensures ok { IfOk result (λ p. spec.judged_parts (spec.parts_of input.now) ≡ Ok p) }
    ensures may { IfOk result (λ p. MayStandBy p.plan p.address p.attempt) }
    ensures refused { IfErr result (spec.IsRefusalOf (spec.judged_parts (spec.parts_of input.now))) }
{
    match place_of(b'\n', input) {
        None => Err(StandbyError::Refused(StandbyRefusal::Header)),
        Some(place) => read_lines(alloc, &input[..place], &input[place + 1..]),
    }
}

// The line without its line feed, and what follows it.
fn read_lines(alloc: Global, line: &[u8], text: &[u8]) -> Result<StandbyPlan, StandbyError>
    ensures ok { IfOk result (λ p. spec.judged_parts (spec.parts_with_limits (length line.now) line.now text.now) ≡ Ok p) }
    ensures may { IfOk result (λ p. MayStandBy p.plan p.address p.attempt) }
    ensures refused { IfErr result (spec.IsRefusalOf (spec.judged_parts (spec.parts_with_limits (length line.now) line.now text.now))) }
{
    if line.len() >= LINE_LIMIT || text.len() > PLAN_LIMIT {
        return Err(StandbyError::Refused(StandbyRefusal::Header));
    }
    match read_header(line) {
        None => Err(StandbyError::Refused(StandbyRefusal::Header)),
        Some(header) => read_text(alloc, header, text),
    }
}

fn read_text(alloc: Global, header: Header, text: &[u8]) -> Result<StandbyPlan, StandbyError>
    requires first { 1 ≤ header.attempt }
    requires last { header.attempt ≤ 1000000 }
    ensures ok { IfOk result (λ p. spec.judged_plan header (plan_of_bytes text.now) ≡ Ok p) }
    ensures may { IfOk result (λ p. MayStandBy p.plan p.address p.attempt) }
    ensures refused { IfErr result (spec.IsRefusalOf (spec.judged_plan header (plan_of_bytes text.now))) }
{
    match read_plan(alloc, text) {
        Ok(plan) => judge(header, plan),
        Err(PlanError::Refused(refusal)) => {
            Err(StandbyError::Refused(StandbyRefusal::Plan(refusal)))
        }
        Err(PlanError::Memory(error)) => Err(StandbyError::Memory(error)),
    }
}

fn judge(header: Header, plan: Plan) -> Result<StandbyPlan, StandbyError>
    requires accepted { IsAccepted plan }
    requires first { 1 ≤ header.attempt }
    requires last { header.attempt ≤ 1000000 }
    ensures ok { IfOk result (λ p. spec.judged_plan header (Ok plan) ≡ Ok p) }
    ensures may { IfOk result (λ p. MayStandBy p.plan p.address p.attempt) }
    ensures refused { IfErr result (spec.IsRefusalOf (spec.judged_plan header (Ok plan))) }
{
    if !is_able(&plan, header.address) {
        return Err(StandbyError::Refused(StandbyRefusal::Address));
    }
    if let Some(place) = any_offer(&plan) {
        return Err(StandbyError::Refused(StandbyRefusal::Offer(place)));
    }
    Ok(StandbyPlan {
        plan,
        address: header.address,
        attempt: header.attempt,
    })
}

// Whether the station with this address is there, isn't the one that starts, and has an item.
fn is_able(plan: &Plan, address: u8) -> bool
    ensures { result ≡ list_any (spec.can_take plan.now address) plan.now.stations }
{
    for station in &plan.stations {
        if can_take(plan.start, address, station) {
            return true;
        }
    }
    false
}

fn can_take(start: u8, address: u8, station: &StationPlan) -> bool
    ensures { result ≡ spec.can_take_by start address station.now }
{
    station.terminal.address == address && address != start && has_items(station.frames.as_slice())
}

fn has_items(frames: &[FramePlan]) -> bool
    ensures { result ≡ list_any spec.has_frame_items frames.now }
{
    for frame in frames {
        if has_any(frame.items.as_slice()) {
            return true;
        }
    }
    false
}

fn has_any(items: &[Item]) -> bool
    ensures { result ≡ spec.has_any items.now }
{
    match items {
        [] => false,
        [_, ..] => true,
    }
}
