//! A bus that is joined to something outside (data handed on and standby control are the project's own).
ghost use Rattle.std.specs.Prelude.{◌≡◌, ◌≤◌, ◌<◌, ◌^◌, ◌+◌, ◌++◌, ◌&&◌, nat_lt, nat_le, ℕ, List, [], ◌∷◌, length, All, IfOk};
ghost use Rattle.bus_base.specs.declared.samples.Drive.{Drive};
ghost use Rattle.bus_base.specs.declared.samples.Pair.{Pair};
ghost use Rattle.bus_line.specs.declared.cutter.TheConstants.{LAG};
ghost use Rattle.bus_formats.specs.Accepted.{IsAccepted};
ghost use Rattle.bus_formats.specs.declared.log.Attempt.{Attempt};
ghost use Rattle.bus_model.specs.World.{Trace, next_tick, shown_next};
ghost use Rattle.bus_model.specs.World as worlds;
ghost use Rattle.bus_run.specs.Amounts as amounts;
ghost use Rattle.bus_run.specs.Deliveries.{taken_in};
ghost use Rattle.bus_run.specs.Joined.{JoinedStands, tick_more, is_over_after, with_load};
ghost use Rattle.bus_run.specs.Settings.{Setting, unserved};
ghost use Rattle.bus_run.specs.StationRows.{ended_in, count_after};

use crate::amounts::most_attempts;
use crate::driven_wire::DrivenWire;
use crate::prepare::{no_objects, row_with, wire_of};
use crate::station_row::StationRow;
use crate::taken::TakenBlock;
use bus_base::{Pair, Tick};
use bus_formats::{Attempt, ENDING_QUIET, Plan};
use bus_station::the_stations_of_an_accepted_plan_fit;
use std::alloc::{AllocError, Global};

// No bus runs for more ticks.
const MOST_TICKS: u64 = 4_294_967_295;

/// The stations of a plan over its wire, tick by tick. Between two ticks blocks may be put up for sending from outside.
///
/// It keeps no history: `JoinedStands` says of which settings and traces it may be as it is.
#[derive(Drop)]
pub struct JoinedBus {
    row: StationRow,
    wire: DrivenWire,
    // for the list of objects, which is empty and takes no memory
    alloc: Global,
    ticks: u64,
    // for so many attempts there is room
    most_attempts: u64,
}

impl JoinedBus {
    /// The bus of an accepted plan before the first tick, to which nothing was done yet. It takes all memory that the run needs. The subsystems
    /// that the plan names are left aside.
    ///
    /// # Errors
    ///
    /// `AllocError` where there is no memory for it.
    pub fn prepare(alloc: Global, plan: &Plan) -> Result<JoinedBus, AllocError>
        requires { IsAccepted plan.now }
        ensures { IfOk result (λ bus. JoinedStands (unserved plan.now) [] 0 (record { shown = []; driven = [] }) bus) }
    {
        the_stations_of_an_accepted_plan_fit();
        let most_attempts = most_attempts(plan);
        let places = no_objects(alloc, plan.stations.len())?;
        let row = row_with(alloc, plan, places, most_attempts)?;
        let wire = wire_of(alloc, plan)?;
        Ok(JoinedBus {
            row,
            wire,
            alloc,
            ticks: 0,
            most_attempts,
        })
    }

    /// Runs the next tick, where there is room for an attempt of each station: `has_room` says so. It takes no memory.
    pub fn tick(&mut self) -> Pair
        requires { (w : Setting) × (found : List Attempt) × (count : ℕ) × (trace : Trace) × JoinedStands w found count trace self.old
            × (length found ≤ amounts.most_attempts w.plan) × (length trace.shown < 4294967295) }
        ensures shown { (w : Setting) (found : List Attempt) (count : ℕ) (trace : Trace) → JoinedStands w found count trace self.old →
            result ∷ trace.shown ≡ (tick_more w trace).shown }
        ensures stands { (w : Setting) (found : List Attempt) (count : ℕ) (trace : Trace) → JoinedStands w found count trace self.old →
            JoinedStands w (found ++ ended_in w (tick_more w trace).shown) (count_after w (tick_more w trace).shown count) (tick_more w trace) self.new }
        ensures taken { (w : Setting) (found : List Attempt) (count : ℕ) (trace : Trace) → JoinedStands w found count trace self.old →
            self.new.row.taken.items ≡ taken_in w (tick_more w trace).shown }
    {
        let mut nobody = Vec::new(self.alloc);
        let shown = self.wire.show(self.row.stations(), self.row.places());
        let _ = self.row.hear(Tick(self.ticks), shown, &mut nobody);
        self.ticks += 1;
        shown
    }

    /// The most blocks that one of the terminals takes in the run of the plan alone.
    pub fn most_deliveries(&self) -> u64
        requires { (w : Setting) × (found : List Attempt) × (count : ℕ) × (trace : Trace) × JoinedStands w found count trace self.now }
        ensures { (w : Setting) (found : List Attempt) (count : ℕ) (trace : Trace) → JoinedStands w found count trace self.now →
            result ≡ amounts.most_deliveries w.plan }
    {
        3 * self.most_attempts
    }

    /// Whether one tick more may run: there is room for what it may bring, and fewer than 4,294,967,295 ticks ran.
    #[tactic(auto, unfolding(crate::specs::Joined::JoinedStands))]
    pub fn has_room(&self) -> bool
        ensures { (w : Setting) (found : List Attempt) (count : ℕ) (trace : Trace) → JoinedStands w found count trace self.now →
            result ≡ (nat_lt (length trace.shown) 4294967295 && nat_le (length found) (amounts.most_attempts w.plan)) }
    {
        self.ticks < MOST_TICKS && self.row.attempts().len() as u64 <= self.most_attempts
    }

    /// Whether every station that is present is idle, none is taking control, and both channels were quiet long enough.
    pub fn is_over(&self) -> bool
        requires { (w : Setting) × (found : List Attempt) × (count : ℕ) × (trace : Trace) × JoinedStands w found count trace self.now }
        ensures { (w : Setting) (found : List Attempt) (count : ℕ) (trace : Trace) → JoinedStands w found count trace self.now →
            result ≡ is_over_after w trace.shown }
    {
        self.row.quiet() >= ENDING_QUIET && self.row.are_done()
    }

    /// Makes the transmit block of a subaddress, 1 to 29, of the stations with this address exactly the words, 1 to 32: a timed load at the newest tick.
    /// What terminals took in that tick stays. It takes no memory.
    pub fn load(&mut self, address: u8, sub: u8, words: &[u16])
        requires first { 1 ≤ sub }
        requires last { sub ≤ 29 }
        requires some { 1 ≤ length words.now }
        requires fits { length words.now ≤ 32 }
        requires stands { (w : Setting) × (found : List Attempt) × (count : ℕ) × (shown : Pair) × (past : List Pair) × (driven : List (List Drive))
            × JoinedStands w found count (record { shown = shown ∷ past; driven = driven }) self.old }
        ensures stands { (w : Setting) (found : List Attempt) (count : ℕ) (shown : Pair) (past : List Pair) (driven : List (List Drive)) →
            JoinedStands w found count (record { shown = shown ∷ past; driven = driven }) self.old →
            JoinedStands (with_load w (record { tick = length past; address = address; sub = sub; words = words.now })) found count
            (record { shown = shown ∷ past; driven = driven }) self.new }
        ensures taken { self.new.row.taken ≡ self.old.row.taken }
    {
        self.row.load(address, sub, words);
    }

    /// The blocks that terminals took in the newest tick, in the order of the plan.
    pub fn taken(&self) -> &[TakenBlock]
        ensures { result.now ≡ self.now.row.taken.items }
    {
        self.row.taken()
    }

    /// The attempts that ended so far, in the order in which they ended.
    #[tactic(auto, unfolding(crate::specs::Joined::JoinedStands))]
    pub fn attempts(&self) -> &[Attempt]
        ensures { (w : Setting) (found : List Attempt) (count : ℕ) (trace : Trace) → JoinedStands w found count trace self.now → result.now ≡ found }
    {
        self.row.attempts()
    }

    /// Those attempts, of a bus that is done with.
    #[tactic(auto, unfolding(crate::specs::Joined::JoinedStands))]
    pub fn into_attempts(self) -> Vec<Attempt>
        ensures { (w : Setting) (found : List Attempt) (count : ℕ) (trace : Trace) → JoinedStands w found count trace self → result.items ≡ found }
    {
        let (_, attempts) = self.row.into_parts();
        attempts
    }

    /// In how many ticks so far two stations or more drove one channel.
    #[tactic(auto, unfolding(crate::specs::Joined::JoinedStands))]
    pub fn clashes(&self) -> u64
        ensures { (w : Setting) (found : List Attempt) (count : ℕ) (trace : Trace) → JoinedStands w found count trace self.now →
            result ≡ worlds.clashes w.plan.faults trace.driven }
    {
        self.wire.clashes()
    }

    /// The ticks so far.
    #[tactic(auto, unfolding(crate::specs::Joined::JoinedStands))]
    pub fn ticks(&self) -> u64
        ensures { (w : Setting) (found : List Attempt) (count : ℕ) (trace : Trace) → JoinedStands w found count trace self.now →
            result ≡ length trace.shown }
    {
        self.ticks
    }
}
