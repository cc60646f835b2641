//! An answer counts where it begins after at most 24 dead ticks (MIL-STD-1553B 4.3.3.9). No plan can show the limit, since terminals answer
//! earlier: so these histories are made by hand.
ghost use Rattle.std.specs.Prelude.{◌≡◌, true, [], IfOk, length};
ghost use Rattle.bus_line.specs.declared.cutter.TheConstants.{LAG};
ghost use Rattle.bus_formats.specs.Accepted.{HasItemRanges};
ghost use Rattle.bus_formats.specs.Plans.{StationData};
ghost use Rattle.bus_controller.specs.Queue.{MayRun};
ghost use Rattle.bus_controller.specs.ControllerStands.{ControllerStands};

use crate::{Agenda, Controller, ControllerEvent};
use arrayvec::ArrayVec;
use bus_base::{Channel, Drive, Pair, Sample, Tick};
use bus_formats::{FramePlan, Item, Kind, Outcome};
use bus_line::spell;
use bus_words::{Sync, Word};
use std::alloc::{AllocError, Global};
use std::test::Fail;

// The command is one word from tick 8 on, where the first frame is planned, so it ends at tick 48.
const END: u64 = 48;

fn frames_of(alloc: Global, item: Item) -> Result<Vec<FramePlan>, AllocError>
    requires { HasItemRanges item }
    ensures { IfOk result (λ frames. MayRun frames.items 1) }
{
    let mut items = Vec::new(alloc);
    items.push(item)?;
    let mut frames = Vec::new(alloc);
    frames.push(FramePlan { ticks: 0, items })?;
    Ok(frames)
}

// A controller that asks terminal 5 for one word.
fn asking(alloc: Global) -> Result<Controller, AllocError>
    ensures { IfOk result (λ value. (station : StationData) × ControllerStands LAG station true [] value []) }
{
    let item = Item {
        kind: Kind::Transmit {
            from: 5,
            sub: 1,
            count: 1,
        },
        channel: None,
        gap: 8,
        retry: ArrayVec::new(),
        abandon: None,
    };
    let frames = frames_of(alloc, item)?;
    Ok(Controller::starting(Agenda::new(frames, 1, Channel::A)))
}

// Sample i of a clean status of terminal 5 and a data word.
fn answer_sample(i: u64) -> Sample {
    let status = Word {
        sync: Sync::Command,
        bits: 0x2800,
    };
    let datum = Word {
        sync: Sync::Datum,
        bits: 0x1234,
    };
    if i < 40 {
        spell(status)[i as usize]
    } else if i < 80 {
        spell(datum)[i as usize - 40]
    } else {
        Sample::Quiet
    }
}

// What the controller drives, and the answer from this tick on.
fn shown_in(drive: Drive, tick: u64, answer: u64) -> Pair {
    let a = match drive {
        Drive::On { sample, .. } => sample,
        Drive::Silent if tick < answer => Sample::Quiet,
        Drive::Silent => answer_sample(tick - answer),
    };
    Pair {
        a,
        b: Sample::Quiet,
    }
}

// Whether the message ended clear, whether it was not answered, and the tick in which it ended.
fn ending_after(alloc: Global, dead: u64) -> Result<Option<(bool, bool, u64)>, AllocError> {
    let answer = END + dead % 100;
    let mut controller = asking(alloc)?;
    for tick in 0..200u64 {
        let shown = shown_in(controller.drive(), tick, answer);
        if let ControllerEvent::Ended(attempt) = controller.hear(Tick(tick), shown) {
            let clear = matches!(attempt.outcome, Outcome::Clear);
            let unanswered = matches!(attempt.outcome, Outcome::NoResponse(_));
            return Ok(Some((clear, unanswered, attempt.ended.0)));
        }
    }
    Ok(None)
}

// After 24 dead ticks the answer of two words ends at 48 + 24 + 80, which is known three ticks later; after 25 the message has ended at 48 + 24.
#[test]
fn the_limit_of_24_dead_ticks(rt: HostRuntime) -> Result<(), Fail> {
    assert_eq!(rt; ending_after(rt.alloc(), 4)?, Some((true, false, 135)));
    assert_eq!(rt; ending_after(rt.alloc(), 24)?, Some((true, false, 155)));
    assert_eq!(rt; ending_after(rt.alloc(), 25)?, Some((false, true, 72)));
    Ok(())
}
