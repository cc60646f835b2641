//! The bus of a plan, tick by tick, from its first tick to the tick in which its run by the message table ends.
ghost use Rattle.std.specs.Prelude.{◌≡◌, ◌≤◌, ◌<◌, ◌+◌, ◌*◌, ℕ, suc, List, [], map, length, Option, None, Some, IsSome};
ghost use Rattle.std.specs.Prelude.{All, IfOk, OnOk, OnErr};
ghost use Rattle.bus_line.specs.Channels.{valid, bursts};
ghost use Rattle.bus_line.specs.declared.cutter.TheConstants.{LAG};
ghost use Rattle.bus_formats.specs.Accepted.{IsAccepted};
ghost use Rattle.bus_formats.specs.Plans.{PlanData};
ghost use Rattle.bus_formats.specs.declared.log.Delivery.{Delivery};
ghost use Rattle.bus_model.specs.World.{world, trace};
ghost use Rattle.bus_model.specs.World as worlds;
ghost use Rattle.bus_model.specs.WorldLog.{heard_word, heard_burst};
ghost use Rattle.bus_model.specs.WorldLog as logs;
ghost use Rattle.bus_run.specs.Deliveries.{Serves};
ghost use Rattle.bus_run.specs.Kept.{places, IsPicked};
ghost use Rattle.bus_run.specs.Rooms.{KeepRoom};
ghost use Rattle.bus_run.specs.Parts.{StationsStand};
ghost use Rattle.bus_run.specs.Stands.{BusStands, Stands, FinishedStands, shown_in};
ghost use Rattle.bus_run.specs.Tables.{TellTables};
ghost use Rattle.bus_law_phases.specs.Passages.{IsOrderly};
ghost use Rattle.bus_law_run.specs.WorldIsRun.{plan_scenario, plan_end};

use crate::amounts::most_attempts;
use crate::driven_wire::DrivenWire;
use crate::ends::Ends;
use crate::finished::FinishedBus;
use crate::kept::{keep_named, named_in};
use crate::monitor::Monitor;
use crate::objects::reserve_named;
use crate::prepare::{ends_of, monitor_of, row_of, wire_of};
use crate::station_row::StationRow;
use bus_base::{Pair, Tick};
use bus_formats::{Attempt, ENDING_QUIET, Heard, HeardBurst, Plan, RunLog};
use bus_station::{Station, the_stations_of_an_accepted_plan_fit};
use bus_subsystem::Subsystem;
use std::alloc::{AllocError, Global};

/// The stations of a plan over its wire, with a monitor beside them.
///
/// It keeps no history: it stands for its plan and the number of ticks that it ran. `plan_end` is the tick in which the plan's run by the message table ends;
/// that the world's run is over in that tick, and in none before, is proved, so nothing but the end of the run is tested.
#[derive(Drop)]
pub struct Bus {
    row: StationRow,
    wire: DrivenWire,
    monitor: Monitor,
    ends: Ends,
    ticks: u64,
}

impl Bus {
    /// The bus of an accepted plan before the first tick. It takes all memory that the run needs, also that of the objects. Of those it keeps
    /// the ones that the stations of the plan name, in order of address, and drops the others: at places 0 to 30 are the recorders of these
    /// addresses, and at 31 to 61 the tallies.
    ///
    /// # Errors
    ///
    /// `AllocError` where there is no memory for it. Then no object is dropped, what they tell and say stays, and none has less room.
    pub fn prepare(
        alloc: Global,
        plan: &Plan,
        subsystems: &mut Vec<Box<dyn Subsystem>>,
    ) -> Result<Bus, AllocError>
        requires accepted { IsAccepted plan.now }
        requires places { All (λ place. place < length subsystems.old.items) (places plan.now) }
        ensures bus { IfOk result (λ bus. BusStands plan.now 0 bus) }
        ensures told { OnOk result (IsPicked (map (λ b. told b) subsystems.old.items) (places plan.now) (map (λ b. told b) subsystems.new.items)) }
        ensures said { OnOk result (IsPicked (map (λ b. said b) subsystems.old.items) (places plan.now) (map (λ b. said b) subsystems.new.items)) }
        ensures serves { OnOk result (Serves plan.now (map (λ b. told b) subsystems.new.items) [] (map (λ b. told b) subsystems.new.items)
            (map (λ b. spare b) subsystems.new.items)) }
        ensures told_still { OnErr result (map (λ b. told b) subsystems.new.items ≡ map (λ b. told b) subsystems.old.items) }
        ensures said_still { OnErr result (map (λ b. said b) subsystems.new.items ≡ map (λ b. said b) subsystems.old.items) }
        ensures room_still { OnErr result (KeepRoom (map (λ b. spare b) subsystems.old.items) (map (λ b. spare b) subsystems.new.items)) }
    {
        the_stations_of_an_accepted_plan_fit();
        let most_attempts = most_attempts(plan);
        let named = named_in(plan.stations.as_slice());
        let row = row_of(alloc, plan, &named, most_attempts)?;
        let wire = wire_of(alloc, plan)?;
        let monitor = monitor_of(alloc, most_attempts)?;
        let ends = ends_of(alloc, plan)?;
        reserve_named(subsystems, &named, 3 * most_attempts as usize + 1)?;
        keep_named(subsystems, &named);
        Ok(Bus {
            row,
            wire,
            monitor,
            ends,
            ticks: 0,
        })
    }

    /// Runs the next tick, and answers what both channels showed in it. Each block that the terminal of a station took is taken by the station's
    /// object, if it names a subsystem. None exactly in the tick in which the run by the message table ends; then nothing changes. In each tick before it
    /// at most one station drives each channel, control is in one hand, and the world's run isn't over. It takes no memory.
    pub fn tick(&mut self, subsystems: &mut Vec<Box<dyn Subsystem>>) -> Option<Pair>
        requires { (plan : PlanData) × (t : ℕ) × (before : List (Option (List Delivery))) × BusStands plan t self.old × Serves plan before
            (world LAG plan [] [] [] t) (map (λ b. told b) subsystems.old.items) (map (λ b. spare b) subsystems.old.items) }
        ensures ended { (plan : PlanData) (t : ℕ) → BusStands plan t self.old → t ≡ plan_end plan →
            (result ≡ None) × (self.new ≡ self.old) × (subsystems.new.items ≡ subsystems.old.items) }
        ensures shown { (plan : PlanData) (t : ℕ) → BusStands plan t self.old → t < plan_end plan →
            (result ≡ Some (shown_in plan t)) × BusStands plan (suc t) self.new }
        ensures orderly { (plan : PlanData) (t : ℕ) → BusStands plan t self.old → t < plan_end plan → IsOrderly (plan_scenario plan) t }
        ensures serves { (plan : PlanData) (t : ℕ) (before : List (Option (List Delivery))) → BusStands plan t self.old → t < plan_end plan →
            Serves plan before (world LAG plan [] [] [] t) (map (λ b. told b) subsystems.old.items) (map (λ b. spare b) subsystems.old.items) →
            Serves plan before (world LAG plan [] [] [] (suc t)) (map (λ b. told b) subsystems.new.items) (map (λ b. spare b) subsystems.new.items) }
        ensures nearer { IsSome result → (self.old.ticks < 0xFFFF_FFFF) × (self.new.ticks ≡ self.old.ticks + 1) }
    {
        if self.is_over() {
            return None;
        }
        Some(self.step(subsystems))
    }

    // Whether nothing is left to do and both channels have been quiet long enough.
    #[tactic(auto, unfolding(crate::specs::Stands::BusStands))]
    fn is_over(&self) -> bool
        requires { (plan : PlanData) × (t : ℕ) × BusStands plan t self.now }
        ensures { (plan : PlanData) (t : ℕ) → BusStands plan t self.now → result ≡ worlds.run_is_over LAG plan [] [] [] t }
    {
        self.monitor.quiet() >= ENDING_QUIET && self.row.are_done()
    }

    // One tick more of a run that hasn't ended.
    fn step(&mut self, subsystems: &mut Vec<Box<dyn Subsystem>>) -> Pair
        requires { (plan : PlanData) × (t : ℕ) × (before : List (Option (List Delivery))) × BusStands plan t self.old × (t < plan_end plan)
            × Serves plan before (world LAG plan [] [] [] t) (map (λ b. told b) subsystems.old.items) (map (λ b. spare b) subsystems.old.items) }
        ensures shown { (plan : PlanData) (t : ℕ) → BusStands plan t self.old → t < plan_end plan → result ≡ shown_in plan t }
        ensures stands { (plan : PlanData) (t : ℕ) → BusStands plan t self.old → t < plan_end plan → BusStands plan (suc t) self.new }
        ensures serves { (plan : PlanData) (t : ℕ) (before : List (Option (List Delivery))) → BusStands plan t self.old → t < plan_end plan →
            Serves plan before (world LAG plan [] [] [] t) (map (λ b. told b) subsystems.old.items) (map (λ b. spare b) subsystems.old.items) →
            Serves plan before (world LAG plan [] [] [] (suc t)) (map (λ b. told b) subsystems.new.items) (map (λ b. spare b) subsystems.new.items) }
        ensures ticks { self.new.ticks ≡ self.old.ticks + 1 }
    {
        let shown = self.wire.show(self.row.stations(), self.row.places());
        let moment = self.row.hear(Tick(self.ticks), shown, subsystems);
        self.monitor.hear(&moment);
        self.ticks += 1;
        shown
    }

    /// Runs to the tick in which the run by the message table ends, and answers what it leaves. Each block that the terminal of a station took is taken by
    /// the station's object, if it names a subsystem: so an object that tells what it took tells in addition the blocks that the message table delivers to
    /// its station. It takes no memory.
    pub fn finish(mut self, subsystems: &mut Vec<Box<dyn Subsystem>>) -> FinishedBus
        requires { (plan : PlanData) × (t : ℕ) × (before : List (Option (List Delivery))) × BusStands plan t self × Serves plan before
            (world LAG plan [] [] [] t) (map (λ b. told b) subsystems.old.items) (map (λ b. spare b) subsystems.old.items) }
        ensures { (plan : PlanData) (t : ℕ) (before : List (Option (List Delivery))) → BusStands plan t self →
            Serves plan before (world LAG plan [] [] [] t) (map (λ b. told b) subsystems.old.items) (map (λ b. spare b) subsystems.old.items) →
            FinishedStands plan result × TellTables plan before (map (λ b. told b) subsystems.new.items) ×
            Serves plan before (world LAG plan [] [] [] (plan_end plan)) (map (λ b. told b) subsystems.new.items) (map (λ b. spare b) subsystems.new.items) }
    {
        'ticks: while self.tick(subsystems).is_some() {}
        self.close()
    }

    // What a run leaves that ends here.
    fn close(self) -> FinishedBus
        requires { (plan : PlanData) × BusStands plan (plan_end plan) self }
        ensures { (plan : PlanData) → BusStands plan (plan_end plan) self → FinishedStands plan result }
    {
        let clashes = self.wire.clashes();
        let end = Tick(self.ticks);
        let (stations, attempts) = self.row.into_parts();
        let (words, bursts) = self.monitor.into_lists();
        let (terminals, blocks) = self.ends.gather(&stations);
        let log = RunLog {
            attempts,
            words,
            bursts,
            terminals,
            blocks,
            end,
            clashes,
        };
        FinishedBus { stations, log }
    }

    /// The stations in the order of the plan, as they stand after the ticks so far.
    #[tactic(auto, unfolding(crate::specs::Stands::BusStands))]
    pub fn stations(&self) -> &[Station]
        ensures { (plan : PlanData) (t : ℕ) → BusStands plan t self.now → StationsStand plan result.now (world LAG plan [] [] [] t) }
    {
        self.row.stations()
    }

    /// The attempts that ended so far, in the order in which they ended.
    #[tactic(auto, unfolding(crate::specs::Stands::BusStands))]
    pub fn attempts(&self) -> &[Attempt]
        ensures { (plan : PlanData) (t : ℕ) → BusStands plan t self.now → result.now ≡ logs.attempts LAG plan [] [] [] (world LAG plan [] [] [] t) }
    {
        self.row.attempts()
    }

    /// The valid words that were heard so far, in the order of their last ticks, A before B.
    #[tactic(auto, unfolding(crate::specs::Stands::BusStands))]
    pub fn words(&self) -> &[Heard]
        ensures { (plan : PlanData) (t : ℕ) → BusStands plan t self.now → result.now ≡ map heard_word (valid LAG (world LAG plan [] [] [] t)) }
    {
        self.monitor.words()
    }

    /// The bursts that ended so far, in the order of their last ticks, A before B.
    #[tactic(auto, unfolding(crate::specs::Stands::BusStands))]
    pub fn bursts(&self) -> &[HeardBurst]
        ensures { (plan : PlanData) (t : ℕ) → BusStands plan t self.now → result.now ≡ map heard_burst (bursts LAG (world LAG plan [] [] [] t)) }
    {
        self.monitor.bursts()
    }

    /// In how many ticks so far two stations or more drove one channel.
    #[tactic(auto, unfolding(crate::specs::Stands::BusStands))]
    pub fn clashes(&self) -> u64
        ensures { (plan : PlanData) (t : ℕ) → BusStands plan t self.now → result ≡ worlds.clashes plan.faults (trace LAG plan [] [] [] t).driven }
    {
        self.wire.clashes()
    }

    /// The ticks so far: never more than to the end of the run.
    #[tactic(auto, unfolding(crate::specs::Stands::BusStands))]
    pub fn ticks(&self) -> u64
        ensures are { (plan : PlanData) (t : ℕ) → BusStands plan t self.now → result ≡ t }
        ensures within { (plan : PlanData) (t : ℕ) → BusStands plan t self.now → t ≤ plan_end plan }
    {
        self.ticks
    }
}
