//! The plan of a benchmark.
ghost use Rattle.std.specs.Prelude.{◌≡◌, ◌≤◌, ◌<◌, ◌^◌, [], ◌∷◌, ◌++◌, IfOk};
ghost use Rattle.bus_formats.specs.Accepted.{IsAccepted};
ghost use Rattle.bus_bench.specs.Generated as spec;

use crate::laws::each_plan_that_is_drawn_is_accepted;
use crate::messages::items_drawn;
use bus_base::Channel;
use bus_formats::{FramePlan, Item, Plan, StationPlan, TerminalPlan};
use std::alloc::{AllocError, Global};

/// The plan of a benchmark: terminals at the addresses 0 to 30, and the controller 31, which sends so many messages, 0 to 4,096, that are drawn from a
/// number, 0 to 2,147,483,647, on. It has no fault.
///
/// # Errors
///
/// `AllocError` where there is no memory for it.
pub fn bench_plan(alloc: Global, number: u32, items: u32) -> Result<Plan, AllocError>
    requires number { number < 2 ^ 31 }
    requires items { items ≤ 4096 }
    ensures plan { IfOk result (λ plan. plan ≡ spec.bench_plan number items) }
    ensures accepted { IfOk result (λ plan. IsAccepted plan) }
{
    each_plan_that_is_drawn_is_accepted();
    let drawn = items_drawn(alloc, number, items)?;
    plan_with(alloc, drawn)
}

// The plan with these messages.
#[tactic(auto, unfolding(crate::specs::Generated::bench_plan))]
fn plan_with(alloc: Global, items: Vec<Item>) -> Result<Plan, AllocError>
    ensures { IfOk result (λ plan. plan ≡ spec.plan_with items.items) }
{
    let frame = frame_with(alloc, items)?;
    let mut stations = terminals(alloc)?;
    stations.push(station_at(alloc, 31, frame))?;
    Ok(Plan {
        start: 31,
        stations,
        faults: Vec::new(alloc),
    })
}

// One frame with these messages.
fn frame_with(alloc: Global, items: Vec<Item>) -> Result<Vec<FramePlan>, AllocError>
    ensures { IfOk result (λ frames. frames.items ≡ record { ticks = 0; items = items.items } ∷ []) }
{
    let mut frames = Vec::new(alloc);
    frames.push(FramePlan { ticks: 0, items })?;
    Ok(frames)
}

// The stations 0 to 30, which are terminals alone.
fn terminals(alloc: Global) -> Result<Vec<StationPlan>, AllocError>
    ensures { IfOk result (λ stations. stations.items ≡ spec.terminals_from 0 31) }
{
    let mut stations = Vec::new(alloc);
    for address in 0..31 {
        stations.push(station_at(alloc, address, Vec::new(alloc)))?;
    }
    Ok(stations)
}

fn station_at(alloc: Global, address: u8, frames: Vec<FramePlan>) -> StationPlan
    ensures { result ≡ spec.station_at address frames.items }
{
    StationPlan {
        terminal: terminal_at(alloc, address),
        channel: Channel::A,
        frames,
        repeat: 1,
    }
}

fn terminal_at(alloc: Global, address: u8) -> TerminalPlan
    ensures { result ≡ spec.terminal_at address }
{
    TerminalPlan {
        address,
        delay: 8,
        busy: false,
        service: false,
        subsystem_flag: false,
        terminal_flag: false,
        accepts: false,
        vector: 0,
        bit: 0,
        no_receive: 0,
        no_transmit: 0,
        no_mode: 0,
        subsystem: None,
        loads: Vec::new(alloc),
    }
}
