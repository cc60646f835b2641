//! What a bus keeps of a plan.
ghost use Rattle.std.specs.Prelude.{◌≡◌, ◌≤◌, ◌<◌, length, IfOk};

use arrayvec::ArrayVec;
use bus_formats::{Fault, FramePlan, Item, Load, StationPlan, TerminalPlan, Turn};
use std::alloc::{AllocError, Global};

/// A station's plan once more.
pub fn copy_station(alloc: Global, station: &StationPlan) -> Result<StationPlan, AllocError>
    ensures { IfOk result (λ copied. copied ≡ station.now) }
{
    let terminal = copy_terminal(alloc, &station.terminal)?;
    let frames = copy_frames(alloc, station.frames.as_slice())?;
    Ok(StationPlan {
        terminal,
        channel: station.channel,
        frames,
        repeat: station.repeat,
    })
}

fn copy_terminal(alloc: Global, terminal: &TerminalPlan) -> Result<TerminalPlan, AllocError>
    ensures { IfOk result (λ copied. copied ≡ terminal.now) }
{
    let loads = copy_loads(alloc, terminal.loads.as_slice())?;
    Ok(TerminalPlan {
        address: terminal.address,
        delay: terminal.delay,
        busy: terminal.busy,
        service: terminal.service,
        subsystem_flag: terminal.subsystem_flag,
        terminal_flag: terminal.terminal_flag,
        accepts: terminal.accepts,
        vector: terminal.vector,
        bit: terminal.bit,
        no_receive: terminal.no_receive,
        no_transmit: terminal.no_transmit,
        no_mode: terminal.no_mode,
        subsystem: terminal.subsystem,
        loads,
    })
}

fn copy_loads(alloc: Global, loads: &[Load]) -> Result<Vec<Load>, AllocError>
    ensures { IfOk result (λ copied. copied.items ≡ loads.now) }
{
    let mut copied = Vec::new(alloc);
    for load in loads {
        copied.push(copy_load(load))?;
    }
    Ok(copied)
}

fn copy_load(load: &Load) -> Load
    ensures { result ≡ load.now }
{
    Load {
        sub: load.sub,
        words: load.words.copy(),
    }
}

fn copy_frames(alloc: Global, frames: &[FramePlan]) -> Result<Vec<FramePlan>, AllocError>
    ensures { IfOk result (λ copied. copied.items ≡ frames.now) }
{
    let mut copied = Vec::new(alloc);
    for frame in frames {
        copied.push(copy_frame(alloc, frame)?)?;
    }
    Ok(copied)
}

fn copy_frame(alloc: Global, frame: &FramePlan) -> Result<FramePlan, AllocError>
    ensures { IfOk result (λ copied. copied ≡ frame.now) }
{
    let items = copy_items(alloc, frame.items.as_slice())?;
    Ok(FramePlan {
        ticks: frame.ticks,
        items,
    })
}

fn copy_items(alloc: Global, items: &[Item]) -> Result<Vec<Item>, AllocError>
    ensures { IfOk result (λ copied. copied.items ≡ items.now) }
{
    let mut copied = Vec::new(alloc);
    for item in items {
        copied.push(copy_item(item))?;
    }
    Ok(copied)
}

fn copy_item(item: &Item) -> Item
    ensures { result ≡ item.now }
{
    Item {
        kind: item.kind.copy(),
        channel: item.channel,
        gap: item.gap,
        retry: copy_turns(item.retry.as_slice()),
        abandon: item.abandon,
    }
}

fn copy_turns(turns: &[Turn]) -> ArrayVec<Turn, 3>
    requires { length turns.now ≤ 3 }
    ensures { result.items ≡ turns.now }
{
    let mut copied = ArrayVec::new();
    for turn in turns {
        copied.push(*turn);
    }
    copied
}

/// The faults once more.
pub fn copy_faults(alloc: Global, faults: &[Fault]) -> Result<Vec<Fault>, AllocError>
    ensures { IfOk result (λ copied. copied.items ≡ faults.now) }
{
    let mut copied = Vec::new(alloc);
    for fault in faults {
        copied.push(*fault)?;
    }
    Ok(copied)
}
