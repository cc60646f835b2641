//! The judge of both channels, tick by tick.
ghost use Rattle.std.specs.Prelude.{◌≡◌, ◌≤◌, ◌<◌, ◌+◌, ◌*◌, ◌^◌, ◌&&◌, not, List, [], length};
ghost use Rattle.bus_base.specs.declared.samples.Channel.TheVariants.{A};
ghost use Rattle.bus_base.specs.declared.samples.Pair.{Pair};
ghost use Rattle.bus_base.specs.declared.samples.Sample.{Sample};
ghost use Rattle.bus_line.specs.declared.cutter.TheConstants.{LAG};
ghost use Rattle.bus_monitor.specs.Channels.{is_idle_on};
ghost use Rattle.bus_rules.specs.Breaches.{is_heard, both_heard, breaches};
ghost use Rattle.bus_rules.specs.JudgeTexts.{known_lines, judge_text};
ghost use Rattle.bus_rules.specs.Stands.{JudgeStands, open_by};

use crate::breach::Rule;
use crate::breach_text::{add_open, add_verdict, add_where};
use crate::channel_judge::ChannelJudge;
use bus_base::{Channel, Pair, Sample};
use bus_capture::Block;
use bus_monitor::words::add_end;
use bus_monitor::{Lister, Page};

/// Tells the breaches of a capture where they become known. It takes no memory.
#[derive(Drop)]
pub(crate) struct Judge {
    a: ChannelJudge,
    b: ChannelJudge,
    ticks: u64,
    // whether neither channel was quiet in the newest tick
    overlap: bool,
    // the breaches so far
    breaches: u64,
}

impl Judge {
    /// A judge that heard nothing.
    pub(crate) fn new() -> Judge
        ensures { JudgeStands result [] }
    {
        Judge {
            a: ChannelJudge::new(),
            b: ChannelJudge::new(),
            ticks: 0,
            overlap: false,
            breaches: 0,
        }
    }

    /// The breaches of the ticks that it heard, with those of the bursts that run.
    pub(crate) fn count(&self) -> u64
        requires { (past : List Pair) × JudgeStands self.now past × (length past < 2 ^ 60) }
        ensures { (past : List Pair) → JudgeStands self.now past → result ≡ length (breaches LAG past) }
    {
        self.breaches + (is_open(self.a.running()) + is_open(self.b.running()))
    }
}

impl Lister for Judge {
    ghost stands = { JudgeStands };

    ghost lines = { known_lines LAG };

    ghost whole = { judge_text LAG };

    ghost idle = { λ judge. is_idle_on judge.a.messages && is_idle_on judge.b.messages };

    fn is_idle(&self) -> bool {
        self.a.is_idle() && self.b.is_idle()
    }

    fn skip(&mut self, ticks: u64) {
        self.ticks += ticks;
    }

    #[inline(always)]
    fn list(&mut self, shown: Pair, text: &mut Page) {
        let busy_a = self.a.running().is_some();
        let busy_b = self.b.running().is_some();
        let both = are_heard(shown);
        let begins = is_first(both, self.overlap);
        let overlap = add_where(begins, Channel::A, Rule::Overlap, self.ticks, text);
        let a = self.a.judge(Channel::A, self.ticks, shown.a, busy_b, text);
        let b = self.b.judge(Channel::B, self.ticks, shown.b, busy_a, text);
        self.overlap = both;
        self.breaches += overlap + (a + b);
        self.ticks += 1;
    }

    #[inline(always)]
    fn pass(&mut self, block: &Block, at: u32) -> u32 {
        let heard_a = block.heard_a >> at;
        let heard_b = block.heard_b >> at;
        let ticks = self
            .a
            .still(heard_a, self.ticks)
            .min(self.b.still(heard_b, self.ticks))
            .min(block.ticks - at);
        if ticks == 0 {
            return 0;
        }
        self.a.pass(heard_a, block.plus_a >> at, ticks);
        self.b.pass(heard_b, block.plus_b >> at, ticks);
        self.overlap = are_both(heard_a % 2 == 1, heard_b % 2 == 1);
        self.ticks += u64::from(ticks);
        ticks
    }

    fn finish(&self, text: &mut Page) {
        let a = add_open(Channel::A, self.a.running(), text);
        let b = add_open(Channel::B, self.b.running(), text);
        add_verdict(self.breaches + (a + b), text);
        add_end(self.ticks, text);
    }
}

// Whether neither channel is quiet.
#[inline(always)]
fn are_heard(shown: Pair) -> bool
    ensures { result ≡ both_heard shown }
{
    are_both(is_sent(shown.a), is_sent(shown.b))
}

#[inline(always)]
fn are_both(a: bool, b: bool) -> bool
    ensures { result ≡ (a && b) }
{
    a && b
}

// Whether an overlap begins, by whether there is one now and was one before.
#[inline(always)]
fn is_first(now: bool, before: bool) -> bool
    ensures { result ≡ (now && not before) }
{
    now && !before
}

#[inline(always)]
fn is_sent(sample: Sample) -> bool
    ensures { result ≡ is_heard sample }
{
    match sample {
        Sample::Quiet => false,
        Sample::Plus | Sample::Minus => true,
    }
}

// The breach of a burst that runs at the end.
fn is_open(running: Option<u64>) -> u64
    ensures value { result ≡ length (open_by A running) }
    ensures few { result ≤ 1 }
{
    u64::from(running.is_some())
}
