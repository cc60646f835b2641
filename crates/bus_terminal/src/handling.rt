//! What a terminal handles in a tick, and what that leaves.
ghost use Rattle.std.specs.Prelude.{◌≡◌, ◌≤◌, ◌<◌, ◌+◌, ◌^◌, ℕ, Option, Some, None, is_some, if◌then◌else◌};
ghost use Rattle.bus_ears.specs.Ears.{heard_of};
ghost use Rattle.bus_base.specs.Samples.{same_channel};
ghost use Rattle.bus_line.specs.declared.cutter.TheConstants.{LAG};
ghost use Rattle.bus_model.specs.Standing.{Standing, Handled as Order};
ghost use Rattle.bus_model.specs.Terminal.{done_by};
ghost use Rattle.bus_terminal.specs.Holding.{listened_of};
ghost use Rattle.bus_terminal.specs.Handling as spec;

use crate::common::{BothHeard, Ears, Listened};
use bus_base::{Channel, Part};
use bus_ears::{Ear, Heard, HeardBurst, HeardTick};
use bus_formats::{RELAY_WAIT, TerminalPlan};
use bus_orders::{Done, Memory, Promise, keep_promise, obey, unkept};
use bus_words::Command;

/// A promise that stands: for the next burst on its channel, after the relay's command burst that ended at `end`.
#[derive(Clone, Copy, Debug)]
pub struct Waiting {
    pub(crate) channel: Channel,
    pub(crate) end: u64,
    pub(crate) promise: Promise,
}

/// What is handled in a tick: a command is obeyed; a promise is settled by a burst; or it runs out.
#[derive(Drop)]
pub enum Handled {
    Obeys(Channel, Command, HeardBurst),
    Settles(Waiting, HeardBurst),
    RunsOut(Waiting),
}

/// What an order left, on which channel, with the end of its burst, and as which part of the message an answer is sent.
#[derive(Drop)]
pub struct Performed {
    pub(crate) channel: Channel,
    pub(crate) end: u64,
    pub(crate) part: Part,
    pub(crate) done: Done,
}

/// Whether something is handled in the newest tick, where a promise may stand that may run out in it.
#[inline(always)]
pub(crate) fn is_found(
    ears: &Ears,
    both: BothHeard,
    waiting: &Option<Waiting>,
    runs_out: bool,
) -> bool
    requires { spec.WaitFits waiting.now }
    ensures { result ≡ is_some (spec.handled_told (listened_of ears.now both) waiting.now runs_out) }
{
    if is_ordered(Channel::A, &ears.a, both.a, both.a_outrun, waiting) {
        return true;
    }
    if is_ordered(Channel::B, &ears.b, both.b, both.b_outrun, waiting) {
        return true;
    }
    runs_out && waiting.is_some()
}

#[inline(always)]
fn is_ordered(
    channel: Channel,
    ear: &Ear,
    tick: HeardTick,
    outrun: bool,
    waiting: &Option<Waiting>,
) -> bool
    requires { spec.WaitFits waiting.now }
    ensures { result ≡ is_some (spec.order_told channel (heard_of ear.now tick) outrun waiting.now) }
{
    if !tick.ended || tick.ignored {
        return false;
    }
    is_order(channel, ear.last(), outrun, waiting)
}

// A burst that ended is an order: it has a command that isn't outrun, or it settles a promise.
fn is_order(channel: Channel, burst: &HeardBurst, outrun: bool, waiting: &Option<Waiting>) -> bool
    requires { spec.WaitFits waiting.now }
    ensures { result ≡ is_some (spec.order_with channel outrun waiting.now burst.now burst.now.command) }
{
    match burst.command {
        Some(_) => !outrun,
        None => match waiting {
            Some(promised) => {
                let soon = is_in_time(promised.end, burst.first);
                promised.channel == channel && soon
            }
            None => false,
        },
    }
}

/// What is handled in the newest tick, where a promise may stand that may run out in it.
pub(crate) fn found(listened: Listened, waiting: Option<Waiting>, runs_out: bool) -> Option<Handled>
    requires { spec.WaitFits waiting }
    ensures { result ≡ spec.handled_told listened waiting runs_out }
{
    if let Some(order) = order_on(Channel::A, listened.a, listened.a_outrun, waiting) {
        return Some(order);
    }
    if let Some(order) = order_on(Channel::B, listened.b, listened.b_outrun, waiting) {
        return Some(order);
    }
    if runs_out {
        Some(Handled::RunsOut(waiting?))
    } else {
        None
    }
}

fn order_on(
    channel: Channel,
    heard: Heard,
    outrun: bool,
    waiting: Option<Waiting>,
) -> Option<Handled>
    requires { spec.WaitFits waiting }
    ensures { result ≡ spec.order_told channel heard outrun waiting }
{
    if heard.ignored {
        return None;
    }
    let burst = heard.burst?;
    match burst.command {
        Some(command) => {
            if outrun {
                None
            } else {
                Some(Handled::Obeys(channel, command, burst))
            }
        }
        None => settles(channel, waiting?, burst),
    }
}

fn settles(channel: Channel, waiting: Waiting, burst: HeardBurst) -> Option<Handled>
    requires { waiting.end < 2 ^ 60 }
    ensures { result ≡ spec.settles_told channel waiting burst }
{
    let soon = is_in_time(waiting.end, burst.first);
    if waiting.channel == channel && soon {
        Some(Handled::Settles(waiting, burst))
    } else {
        None
    }
}

// A burst that began in the tick `first` began soon enough for a promise after a burst that ended at `end`.
fn is_in_time(end: u64, first: u64) -> bool
    requires { end < 2 ^ 60 }
    ensures { result ≡ spec.in_time end first }
{
    first <= end + RELAY_WAIT
}

/// Does what is handled.
pub(crate) fn perform(
    terminal: &TerminalPlan,
    memory: &mut Memory,
    handled: Handled,
    may_accept: bool,
) -> Performed
    requires address { terminal.now.address ≤ 31 }
    requires end { spec.EndFits handled }
    ensures fits { result.end < 2 ^ 60 }
    ensures does { (s : Standing) (order : Order) → spec.HandledIs handled order s →
        spec.PerformedIs result memory.new s order (done_by LAG terminal.now s memory.old may_accept order) }
{
    match handled {
        Handled::Obeys(channel, command, burst) => {
            let done = obey(
                terminal,
                memory,
                channel,
                command,
                burst.slots.as_slice(),
                burst.rest,
                may_accept,
            );
            Performed {
                channel,
                end: burst.end,
                part: Part::First,
                done,
            }
        }
        Handled::Settles(waiting, burst) => {
            let done = keep_promise(
                terminal,
                memory,
                waiting.channel,
                waiting.promise,
                burst.slots.as_slice(),
                burst.rest,
            );
            Performed {
                channel: waiting.channel,
                end: burst.end,
                part: Part::Second,
                done,
            }
        }
        Handled::RunsOut(waiting) => Performed {
            channel: waiting.channel,
            end: waiting.end,
            part: Part::Second,
            done: unkept(memory),
        },
    }
}
