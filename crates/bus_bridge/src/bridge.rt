//! Two buses that one device joins, tick by tick.
ghost use Rattle.std.specs.Prelude.{◌≡◌, ◌<◌, ℕ, suc, [], length, false, IfOk};
ghost use Rattle.bus_line.specs.declared.cutter.TheConstants.{LAG};
ghost use Rattle.bus_model.specs.World.{run_is_over};
ghost use Rattle.bus_bridge.specs.Inputs.{MayBridge};
ghost use Rattle.bus_bridge.specs.Runs.{BridgeBegins, FirstRuns, SecondRuns};
ghost use Rattle.bus_bridge.specs.Worlds.{loads, EndsAt, IsLogOf};
ghost use Rattle.bus_bridge.specs.declared.inputs.BridgePlan.{BridgePlan as BridgePlanValue};

use crate::handing::{keep_taken, load_all, next_tick};
use crate::inputs::BridgePlan;
use crate::log::BridgeLog;
use crate::pairings::Pairings;
use bus_base::Tick;
use bus_formats::Delivery;
use bus_run::JoinedBus;
use std::alloc::{AllocError, Global};

/// Two buses that one device joins: what a terminal of the first one takes is put up for sending in a terminal of the second one.
///
/// Nothing comes back from the second bus. So the first one runs to its end before the second one begins, and each block is put up in the tick in which
/// it was taken: both leave what they leave where they run side by side.
#[derive(Drop)]
pub struct Bridge {
    first: JoinedBus,
    second: JoinedBus,
    // the addresses of the terminal that takes, and of the one that sends
    a: u8,
    b: u8,
    pairs: Pairings,
    // with room for all that a run of the first plan brings
    taken: Vec<Delivery>,
    // so many of them were put up
    loaded: usize,
}

impl Bridge {
    /// Both buses before their first tick. It takes all memory that their runs need. The subsystems that the plans name are left aside.
    ///
    /// # Errors
    ///
    /// `AllocError` where there is no memory for it.
    pub fn prepare(alloc: Global, plan: &BridgePlan) -> Result<Bridge, AllocError>
        requires { MayBridge plan.now }
        ensures { IfOk result (λ bridge. BridgeBegins plan.now bridge) }
    {
        let first = JoinedBus::prepare(alloc, &plan.first)?;
        let second = JoinedBus::prepare(alloc, &plan.second)?;
        let taken = Vec::with_capacity(alloc, first.most_deliveries() as usize)?;
        Ok(Bridge {
            first,
            second,
            a: plan.a,
            b: plan.b,
            pairs: plan.pairs.copy(),
            taken,
            loaded: 0,
        })
    }

    /// Runs both buses to their ends, and answers what they leave: the blocks that were handed on, the attempts of the second bus over them, and the
    /// ticks and clashes of both. It takes no memory.
    pub fn finish(mut self) -> BridgeLog
        requires { (plan : BridgePlanValue) × BridgeBegins plan self }
        ensures { (plan : BridgePlanValue) → BridgeBegins plan self → IsLogOf plan result }
    {
        self.run_first();
        self.run_second();
        self.close()
    }

    // The first bus to its end.
    fn run_first(&mut self)
        requires { (plan : BridgePlanValue) × FirstRuns plan 0 self.old }
        ensures { (plan : BridgePlanValue) → FirstRuns plan 0 self.old →
            (first : ℕ) × EndsAt plan.first [] first × FirstRuns plan first self.new }
    {
        'ticks: while !self.first.is_over() {
            self.tick_first();
        }
    }

    // A tick of the first bus, of which the blocks are kept that are to be handed on.
    fn tick_first(&mut self)
        requires { (plan : BridgePlanValue) × (t : ℕ) × FirstRuns plan t self.old × (run_is_over LAG plan.first [] [] [] t ≡ false) }
        ensures { (plan : BridgePlanValue) (t : ℕ) → FirstRuns plan t self.old → run_is_over LAG plan.first [] [] [] t ≡ false →
            FirstRuns plan (suc t) self.new }
    {
        next_tick(&mut self.first);
        keep_taken(
            self.first.taken(),
            self.a,
            self.pairs.as_slice(),
            &mut self.taken,
        );
    }

    // The second bus to its end.
    fn run_second(&mut self)
        requires { (plan : BridgePlanValue) × (first : ℕ) × SecondRuns plan first 0 0 self.old }
        ensures { (plan : BridgePlanValue) (first : ℕ) → SecondRuns plan first 0 0 self.old →
            (second : ℕ) × EndsAt plan.second (loads plan first) second × SecondRuns plan first second second self.new }
    {
        'ticks: while !self.second.is_over() {
            self.tick_second();
            self.load_due();
        }
    }

    fn tick_second(&mut self)
        requires { (plan : BridgePlanValue) × (first : ℕ) × (t : ℕ) × SecondRuns plan first t t self.old
            × (run_is_over LAG plan.second (loads plan first) [] [] t ≡ false) }
        ensures { (plan : BridgePlanValue) (first t : ℕ) → SecondRuns plan first t t self.old →
            run_is_over LAG plan.second (loads plan first) [] [] t ≡ false → SecondRuns plan first (suc t) t self.new }
    {
        next_tick(&mut self.second);
    }

    // Puts the next block up, if there is one that was taken in the newest tick.
    fn load_due(&mut self)
        requires { (plan : BridgePlanValue) × (first : ℕ) × (t : ℕ) × SecondRuns plan first (suc t) t self.old }
        ensures { (plan : BridgePlanValue) (first t : ℕ) → SecondRuns plan first (suc t) t self.old → SecondRuns plan first (suc t) (suc t) self.new }
    {
        if self.loaded < self.taken.len() {
            self.load_next();
        }
    }

    fn load_next(&mut self)
        requires left { self.old.loaded < length self.old.taken.items }
        requires runs { (plan : BridgePlanValue) × (first : ℕ) × (t : ℕ) × SecondRuns plan first (suc t) t self.old }
        ensures { (plan : BridgePlanValue) (first t : ℕ) → SecondRuns plan first (suc t) t self.old → SecondRuns plan first (suc t) (suc t) self.new }
    {
        let next = &self.taken[self.loaded];
        if next.tick.0 < self.second.ticks() {
            load_all(next, self.b, self.pairs.as_slice(), &mut self.second);
            self.loaded += 1;
        }
    }

    // What both buses leave that ended.
    fn close(self) -> BridgeLog
        requires { (plan : BridgePlanValue) × (first : ℕ) × (second : ℕ) × SecondRuns plan first second second self }
        ensures { (plan : BridgePlanValue) (first second : ℕ) → EndsAt plan.second (loads plan first) second →
            SecondRuns plan first second second self → IsLogOf plan result }
    {
        let first_end = Tick(self.first.ticks());
        let second_end = Tick(self.second.ticks());
        let clashes = self.first.clashes() + self.second.clashes();
        BridgeLog {
            taken: self.taken,
            attempts: self.second.into_attempts(),
            first_end,
            second_end,
            clashes,
        }
    }
}
