//! An input: two plans, and which terminals of theirs belong to one device.
ghost use Rattle.std.specs.Prelude.{◌≡◌, ◌≤◌, ◌<◌, length, IfOk, IfErr, Ok, Err, Result, true};
ghost use Rattle.std.specs.List.{list_any};
ghost use Rattle.bus_formats.specs.Accepted.{IsAccepted};
ghost use Rattle.bus_formats.specs.Plans.{PlanData};
ghost use Rattle.bus_plan.specs.PlanOf.{plan_of_bytes};
ghost use Rattle.bus_plan.specs.declared.refusal.PlanRefusal.{PlanRefusal as RefusalValue};
ghost use Rattle.bus_bridge.specs.Inputs as spec;
ghost use Rattle.bus_bridge.specs.Inputs.{MayBridge};

use crate::header::{Header, PLAN_LIMIT, read_header};
use crate::pairings::{Pairings, place_of};
use bus_formats::Plan;
use bus_plan::{PlanError, PlanRefusal, read_plan};
use std::alloc::{AllocError, Global};

// The most bytes of the line with its line feed.
const LINE_LIMIT: usize = 1024;

/// The most bytes of an input.
pub const INPUT_LIMIT: usize = 8_389_632;

/// Two plans with a terminal of each that belong to one device.
#[derive(Drop)]
pub struct BridgePlan {
    /// The plan of the first bus, whose terminal takes.
    pub first: Plan,
    /// The plan of the second bus, whose terminal sends.
    pub second: Plan,
    /// The address of the terminal of the first bus, 0 to 30.
    pub a: u8,
    /// The address of the terminal of the second bus, 0 to 30.
    pub b: u8,
    /// Which subaddresses belong together, 1 to 29 pairings; each sends from another subaddress.
    pub pairs: Pairings,
}

/// Why an input is refused. The causes are tried in this order.
#[derive(Drop)]
pub enum BridgeRefusal {
    /// It has more than 8,389,632 bytes.
    TooLong,
    /// It doesn't begin with such a line, or fewer bytes follow than the first plan has, or a plan has more than 4,194,304 bytes.
    Header,
    /// The first plan is none.
    First(PlanRefusal),
    /// The second plan is none.
    Second(PlanRefusal),
    /// The first address is no station of the first plan.
    AddressFirst,
    /// The second address is no station of the second plan.
    AddressSecond,
}

/// Why there is nothing to run.
#[derive(Drop)]
pub enum BridgeError {
    /// The input is refused.
    Refused(BridgeRefusal),
    /// Memory ran out, whatever the input is.
    Memory(AllocError),
}

/// What an input says: a line `1553 bridge <a> <b> <bytes> <from>:<to> ..` of at most 1,024 bytes with its line feed, so many bytes of the first plan, and the
/// second plan; or the first cause for which it is refused. Want of memory is an answer of its own.
#[tactic(auto, unfolding(crate::specs::Inputs::bridge_of_bytes))]
pub fn read_bridge(alloc: Global, input: &[u8]) -> Result<BridgePlan, BridgeError>
    ensures ok { IfOk result (λ p. spec.bridge_of_bytes input.now ≡ Ok p) }
    ensures may { IfOk result MayBridge }
    ensures refused { IfErr result (spec.IsRefusalOf (spec.bridge_of_bytes input.now)) }
{
    if input.len() > INPUT_LIMIT {
        return Err(BridgeError::Refused(BridgeRefusal::TooLong));
    }
    read_parts(alloc, input)
}

fn read_parts(alloc: Global, input: &[u8]) -> Result<BridgePlan, BridgeError>
    ensures ok { IfOk result (λ p. spec.judged_parts (spec.parts_of input.now) ≡ Ok p) }
    ensures may { IfOk result MayBridge }
    ensures refused { IfErr result (spec.IsRefusalOf (spec.judged_parts (spec.parts_of input.now))) }
{
    match place_of(b'\n', input) {
        None => Err(BridgeError::Refused(BridgeRefusal::Header)),
        Some(place) => read_lines(alloc, &input[..place], &input[place + 1..]),
    }
}

// The line without its line feed, and what follows it.
fn read_lines(alloc: Global, line: &[u8], text: &[u8]) -> Result<BridgePlan, BridgeError>
    ensures ok { IfOk result (λ p. spec.judged_parts (spec.parts_with_limit (length line.now) line.now text.now) ≡ Ok p) }
    ensures may { IfOk result MayBridge }
    ensures refused { IfErr result (spec.IsRefusalOf (spec.judged_parts (spec.parts_with_limit (length line.now) line.now text.now))) }
{
    if line.len() >= LINE_LIMIT {
        return Err(BridgeError::Refused(BridgeRefusal::Header));
    }
    match read_header(line) {
        None => Err(BridgeError::Refused(BridgeRefusal::Header)),
        Some(header) => read_texts(alloc, header, text),
    }
}

// What follows the line.
fn read_texts(alloc: Global, header: Header, text: &[u8]) -> Result<BridgePlan, BridgeError>
    ensures ok { IfOk result (λ p. spec.judged_parts (spec.cut_texts header text.now) ≡ Ok p) }
    ensures may { IfOk result MayBridge }
    ensures refused { IfErr result (spec.IsRefusalOf (spec.judged_parts (spec.cut_texts header text.now))) }
{
    if (text.len() as u64) < header.first {
        return Err(BridgeError::Refused(BridgeRefusal::Header));
    }
    let (first, second) = text.split_at(header.first as usize);
    read_plans(alloc, header, first, second)
}

fn read_plans(
    alloc: Global,
    header: Header,
    first: &[u8],
    second: &[u8],
) -> Result<BridgePlan, BridgeError>
    ensures ok { IfOk result (λ p. spec.judged_parts (spec.parts_within header first.now second.now) ≡ Ok p) }
    ensures may { IfOk result MayBridge }
    ensures refused { IfErr result (spec.IsRefusalOf (spec.judged_parts (spec.parts_within header first.now second.now))) }
{
    if second.len() as u64 > PLAN_LIMIT {
        return Err(BridgeError::Refused(BridgeRefusal::Header));
    }
    read_first(alloc, header, first, second)
}

fn read_first(
    alloc: Global,
    header: Header,
    first: &[u8],
    second: &[u8],
) -> Result<BridgePlan, BridgeError>
    ensures ok { IfOk result (λ p. spec.judged_first header (plan_of_bytes first.now) (plan_of_bytes second.now) ≡ Ok p) }
    ensures may { IfOk result MayBridge }
    ensures refused { IfErr result (spec.IsRefusalOf (spec.judged_first header (plan_of_bytes first.now) (plan_of_bytes second.now))) }
{
    match read_plan(alloc, first) {
        Ok(plan) => read_second(alloc, header, plan, second),
        Err(PlanError::Refused(refusal)) => {
            Err(BridgeError::Refused(BridgeRefusal::First(refusal)))
        }
        Err(PlanError::Memory(error)) => Err(BridgeError::Memory(error)),
    }
}

fn read_second(
    alloc: Global,
    header: Header,
    first: Plan,
    second: &[u8],
) -> Result<BridgePlan, BridgeError>
    requires { IsAccepted first }
    ensures ok { IfOk result (λ p. spec.judged_second header first (plan_of_bytes second.now) ≡ Ok p) }
    ensures may { IfOk result MayBridge }
    ensures refused { IfErr result (spec.IsRefusalOf (spec.judged_second header first (plan_of_bytes second.now))) }
{
    match read_plan(alloc, second) {
        Ok(plan) => judge(header, first, plan),
        Err(PlanError::Refused(refusal)) => {
            Err(BridgeError::Refused(BridgeRefusal::Second(refusal)))
        }
        Err(PlanError::Memory(error)) => Err(BridgeError::Memory(error)),
    }
}

fn judge(header: Header, first: Plan, second: Plan) -> Result<BridgePlan, BridgeError>
    requires first { IsAccepted first }
    requires second { IsAccepted second }
    ensures ok { IfOk result (λ p. spec.judged_plans header first second ≡ Ok p) }
    ensures may { IfOk result MayBridge }
    ensures refused { IfErr result (spec.IsRefusalOf (spec.judged_plans header first second)) }
{
    if !has_station(&first, header.a) {
        return Err(BridgeError::Refused(BridgeRefusal::AddressFirst));
    }
    if !has_station(&second, header.b) {
        return Err(BridgeError::Refused(BridgeRefusal::AddressSecond));
    }
    Ok(BridgePlan {
        first,
        second,
        a: header.a,
        b: header.b,
        pairs: header.pairs,
    })
}

// Whether the plan has a station with this address.
fn has_station(plan: &Plan, address: u8) -> bool
    ensures { result ≡ spec.has_station plan.now address }
{
    for station in &plan.stations {
        if station.terminal.address == address {
            return true;
        }
    }
    false
}
