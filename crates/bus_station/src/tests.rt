// Two stations, 3 and 5, joined by channel A: ticks, roles and what they tell, when control passes (dynamic bus control, MIL-STD-1553B
// 4.3.3.5.1.7.1). The ticks are worked out from the rules: the offer is sent from tick 8, answered from 52, and the accepter's first command
// starts 40 ticks after the answer's end, in tick 132.
ghost use Rattle.std.specs.Prelude.{◌≤◌, IfOk, [], None};
ghost use Rattle.bus_formats.specs.Accepted.{HasItemRanges};
ghost use Rattle.bus_controller.specs.Queue.{MayRun};
ghost use Rattle.bus_station.specs.Heard.{HasHeard};

use crate::{Role, Station, StationEvent};
use arrayvec::ArrayVec;
use bus_base::{Channel, Drive, Pair, Sample, Tick};
use bus_formats::{Block, FramePlan, Item, Kind, Outcome, StationPlan, TerminalPlan};
use std::alloc::{AllocError, Global};
use std::test::Fail;

fn frames_of(alloc: Global, kind: Kind) -> Result<Vec<FramePlan>, AllocError>
    requires { HasItemRanges (record { kind = kind; channel = None; gap = 12; retry = []; abandon = None }) }
    ensures { IfOk result (λ frames. MayRun frames.items 1) }
{
    let mut items = Vec::new(alloc);
    items.push(Item {
        kind,
        channel: None,
        gap: 12,
        retry: ArrayVec::new(),
        abandon: None,
    })?;
    let mut frames = Vec::new(alloc);
    frames.push(FramePlan { ticks: 0, items })?;
    Ok(frames)
}

// A station with these frames, which accepts control.
fn station(alloc: Global, address: u8, frames: Vec<FramePlan>, starts: bool) -> Station
    requires address { address ≤ 31 }
    requires frames { MayRun frames.items 1 }
    ensures { HasHeard result 0 }
{
    let terminal = TerminalPlan {
        address,
        delay: 8,
        busy: false,
        service: false,
        subsystem_flag: false,
        terminal_flag: false,
        accepts: true,
        vector: 0,
        bit: 0,
        no_receive: 0,
        no_transmit: 0,
        no_mode: 0,
        subsystem: None,
        loads: Vec::new(alloc),
    };
    let plan = StationPlan {
        terminal,
        channel: Channel::A,
        frames,
        repeat: 1,
    };
    Station::new(plan, starts)
}

// Station 3, which holds control from the start and offers it to 5.
fn offerer(alloc: Global) -> Result<Station, AllocError>
    ensures { IfOk result (λ value. HasHeard value 0) }
{
    let offer = Kind::Mode {
        to: 5,
        mode_sub: 0,
        transmit: true,
        code: 0,
        word: None,
    };
    let frames = frames_of(alloc, offer)?;
    Ok(station(alloc, 3, frames, true))
}

// Station 5, which has one word for 3.
fn accepter(alloc: Global) -> Result<Station, AllocError>
    ensures { IfOk result (λ value. HasHeard value 0) }
{
    let message = Kind::Receive {
        to: 3,
        sub: 1,
        words: Block::of(&[7]),
    };
    let frames = frames_of(alloc, message)?;
    Ok(station(alloc, 5, frames, false))
}

// An attempt that ended: its station, the first tick of its command, how it ended and in which tick.
type Row = (u8, u64, Outcome, u64);

// What both stations told: the newest attempt of each, and the tick of the newest block.
#[derive(Clone, Copy)]
struct Told {
    first: Option<Row>,
    second: Option<Row>,
    took: Option<u64>,
}

const NOTHING: Told = Told {
    first: None,
    second: None,
    took: None,
};

// The sample that a station drives, or quiet.
fn driven(drive: Drive) -> Sample {
    match drive {
        Drive::On { sample, .. } => sample,
        Drive::Silent => Sample::Quiet,
    }
}

fn exchanged(sample: Sample) -> Sample {
    match sample {
        Sample::Plus => Sample::Minus,
        Sample::Minus => Sample::Plus,
        Sample::Quiet => Sample::Quiet,
    }
}

// What channel A shows of both, with plus and minus exchanged in one tick.
fn shown(first: Drive, second: Drive, flips: bool) -> Pair {
    let sample = match driven(first) {
        Sample::Quiet => driven(second),
        sample => sample,
    };
    Pair {
        a: if flips { exchanged(sample) } else { sample },
        b: Sample::Quiet,
    }
}

fn newest(told: Option<Row>, event: &StationEvent) -> Option<Row> {
    match event {
        StationEvent::Ended(attempt) => {
            Some((
                attempt.station,
                attempt.start.0,
                attempt.outcome,
                attempt.ended.0,
            ))
        }
        _ => told,
    }
}

// Both hear the ticks from `from` on up to before `end`.
fn run(
    first: &mut Station,
    second: &mut Station,
    told: &mut Told,
    flip: Option<u64>,
    from: u64,
    end: u64,
)
    requires first { HasHeard first.old from }
    requires second { HasHeard second.old from }
    requires order { from ≤ end }
    requires few { end ≤ 1000 }
    ensures first { HasHeard first.new end }
    ensures second { HasHeard second.new end }
{
    for now in from..end {
        let pair = shown(first.drive(), second.drive(), flip == Some(now));
        let event = first.hear(Tick(now), pair);
        told.first = newest(told.first, &event);
        if let StationEvent::Took(delivery) = event {
            told.took = Some(delivery.tick.0);
        }
        let event = second.hear(Tick(now), pair);
        told.second = newest(told.second, &event);
    }
}

#[test]
fn control_passes(rt: HostRuntime) -> Result<(), Fail> {
    let mut first = offerer(rt.alloc())?;
    let mut second = accepter(rt.alloc())?;
    let mut told = NOTHING;
    run(&mut first, &mut second, &mut told, None, 0, 7);
    assert_eq!(rt; first.drive(), Drive::Silent);
    run(&mut first, &mut second, &mut told, None, 7, 8);
    assert_eq!(rt; driven(first.drive()), Sample::Plus);
    run(&mut first, &mut second, &mut told, None, 8, 95);
    assert_eq!(rt; first.role(), Role::Controlling);
    assert_eq!(rt; second.role(), Role::Serving);
    // the answer's end is 92, and known three ticks later
    run(&mut first, &mut second, &mut told, None, 95, 96);
    assert_eq!(rt; told.first, Some((3, 8, Outcome::Passed, 95)));
    assert_eq!(rt; first.role(), Role::Serving);
    assert_eq!(rt; second.role(), Role::Taking(Tick(132)));
    run(&mut first, &mut second, &mut told, None, 96, 132);
    assert_eq!(rt; second.role(), Role::Taking(Tick(132)));
    assert_eq!(rt; driven(second.drive()), Sample::Plus);
    run(&mut first, &mut second, &mut told, None, 132, 133);
    assert_eq!(rt; second.role(), Role::Controlling);
    assert!(rt; !second.is_idle());
    // command and word end at 212, the answer at 256
    run(&mut first, &mut second, &mut told, None, 133, 336);
    assert_eq!(rt; told.second, Some((5, 132, Outcome::Clear, 259)));
    assert_eq!(rt; told.took, Some(215));
    assert_eq!(rt; first.terminal().buffers().front(1), [7].as_slice());
    assert!(rt; first.is_idle());
    assert!(rt; second.is_idle());
    Ok(())
}

// The answer is damaged: the offerer doubts until it hears the accepter's first command, of which its terminal hears each tick.
#[test]
fn control_is_yielded(rt: HostRuntime) -> Result<(), Fail> {
    let mut first = offerer(rt.alloc())?;
    let mut second = accepter(rt.alloc())?;
    let mut told = NOTHING;
    run(&mut first, &mut second, &mut told, Some(58), 0, 132);
    assert_eq!(rt; told.first, None);
    assert_eq!(rt; first.role(), Role::Controlling);
    assert_eq!(rt; second.role(), Role::Taking(Tick(132)));
    run(&mut first, &mut second, &mut told, Some(58), 132, 133);
    assert_eq!(rt; told.first, Some((3, 8, Outcome::Yielded, 132)));
    assert_eq!(rt; first.role(), Role::Serving);
    run(&mut first, &mut second, &mut told, Some(58), 133, 336);
    assert_eq!(rt; told.took, Some(215));
    assert_eq!(rt; first.terminal().buffers().front(1), [7].as_slice());
    Ok(())
}

// A station that serves hears a quiet tick, takes control with its first command in tick 20, and puts up a block for sending.
fn takes_over(station: &mut Station) -> bool
    requires { HasHeard station.old 0 }
    ensures { HasHeard station.new 1 }
{
    let before = station.role();
    station.hear(Tick(0), Pair::QUIET);
    if let Role::Serving = before {
        if let Role::Serving = station.role() {
            if station.items_left() > 0 {
                station.take(Tick(20));
                station.load(1, &[9]);
                return true;
            }
        }
    }
    false
}

// The first tick in which a station sends, of those before tick 100.
fn first_sent(station: &mut Station) -> Option<u64>
    requires { HasHeard station.old 1 }
{
    for now in 1..100u64 {
        if station.drive() != Drive::Silent {
            return Some(now);
        }
        station.hear(Tick(now), Pair::QUIET);
    }
    None
}

#[test]
fn control_is_taken_by_itself(rt: HostRuntime) -> Result<(), Fail> {
    let mut station = accepter(rt.alloc())?;
    assert!(rt; takes_over(&mut station));
    assert_eq!(rt; station.role(), Role::Taking(Tick(20)));
    assert_eq!(rt; station.terminal().buffers().sending(1), [9].as_slice());
    assert_eq!(rt; first_sent(&mut station), Some(20));
    Ok(())
}
