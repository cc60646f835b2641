//! The stations of a bus, the attempts that they ended, and the deliveries to the objects of their subsystems.
ghost use Rattle.std.specs.Prelude.{◌≡◌, ◌≢◌, ◌≤◌, ◌<◌, ◌^◌, ◌+◌, ◌&&◌, ℕ, suc, Bool, if◌then◌else◌, List, [], ◌∷◌, ◌++◌, map, length, slice_get, Option, Some, is_some, is_none, true};
ghost use Rattle.std.specs.Prelude.{vec_len, vec_capacity};
ghost use Rattle.bus_base.specs.declared.samples.Pair.{Pair};
ghost use Rattle.bus_line.specs.Channels.{quiet_both};
ghost use Rattle.bus_line.specs.declared.cutter.TheConstants.{LAG};
ghost use Rattle.bus_formats.specs.Plans.{StationData};
ghost use Rattle.bus_formats.specs.declared.log.Attempt.{Attempt};
ghost use Rattle.bus_formats.specs.declared.log.Delivery.{Delivery};
ghost use Rattle.bus_model.specs.Memory.{TimedLoad};
ghost use Rattle.bus_model.specs.Control.{OutsideTake, is_idle, takes_control};
ghost use Rattle.bus_model.specs.Starts.{starts};
ghost use Rattle.bus_model.specs.World.{is_done, is_present};
ghost use Rattle.std.specs.List.{list_all};
ghost use Rattle.bus_receiver.specs.Moments.{moment_of, ReceiverStands};
ghost use Rattle.bus_receiver.specs.declared.cutters.Cutters.{Cutters};
ghost use Rattle.bus_station.specs.Listening.{InStep, IsNext};
ghost use Rattle.bus_station.specs.StationStands.{StationKeeps};
ghost use Rattle.bus_station.specs.Told.{attempts_told, delivery_told};
ghost use Rattle.bus_run.specs.Data.{IsForData};
ghost use Rattle.bus_run.specs.Deliveries.{delivered_in, taken_in, ObjectsIn, ServesIn, AreFew, IsHandedOn, AreHandedOut};
ghost use Rattle.bus_run.specs.Parts.{StationsStandIn, StationsBegin, presence};
ghost use Rattle.bus_run.specs.Settings.{Setting};
ghost use Rattle.bus_run.specs.StationRows.{RowKeeps, RowHears, ObjectsHear, takes, noticed_by, taken_at, ended_in, count_after};

use crate::called::places_called;
use crate::objects::deliver;
use crate::taken::TakenBlock;
use arrayvec::ArrayVec;
use bus_base::{Pair, Tick};
use bus_formats::{Attempt, Delivery};
use bus_receiver::{Moment, Receiver};
use bus_station::{Role, Station, StationEvent};
use bus_subsystem::Subsystem;

/// The stations in the order of the plan, the attempts of all of them in the order in which they ended, and what was delivered.
#[derive(Drop)]
pub struct StationRow {
    pub(crate) stations: Vec<Station>,
    // whether the station at each place is present
    pub(crate) present: Vec<bool>,
    pub(crate) attempts: Vec<Attempt>,
    // the place of each station's object, if it names a subsystem
    objects: Vec<Option<usize>>,
    // in how many ticks some terminal took a block
    delivering: u64,
    // the blocks that terminals took in the newest tick
    taken: Vec<TakenBlock>,
    // hears both channels for all stations
    receiver: Receiver,
    // the places of the stations that are present and need each tick, rising, maybe with others that are present
    pub(crate) places: ArrayVec<u8, 32>,
}

impl StationRow {
    /// Stations that heard nothing yet and are all present, with room for their attempts, for the blocks of a tick and the places of their objects.
    pub fn new(
        stations: Vec<Station>,
        present: Vec<bool>,
        attempts: Vec<Attempt>,
        taken: Vec<TakenBlock>,
        objects: Vec<Option<usize>>,
    ) -> StationRow
        requires attempts { attempts.items ≡ [] }
        requires few { length stations.items ≤ 32 }
        requires present { length present.items ≡ length stations.items }
        ensures { (most : ℕ) (w : Setting) → w.loads ≡ [] → w.outside ≡ [] → StationsBegin w.plan stations.items → present.items ≡ presence w →
            most + length stations.items ≤ vec_capacity attempts → length stations.items ≤ vec_capacity taken →
            ObjectsIn w objects.items → RowKeeps most w [] 0 result [] }
    {
        let places = places_called(&stations, &present);
        StationRow {
            stations,
            present,
            attempts,
            objects,
            delivering: 0,
            taken,
            receiver: Receiver::new(),
            places,
        }
    }

    /// The stations that are present hear what both channels showed in the tick `now`, in the order of the plan, all of them or, where no slot and no
    /// burst ended, those that need each tick. The object of each takes the block that its terminal took. What became known with the tick is answered. There is room for an attempt and a delivery of each. It takes no memory.
    pub fn hear(
        &mut self,
        now: Tick,
        shown: Pair,
        subsystems: &mut Vec<Box<dyn Subsystem>>,
    ) -> Moment
        requires { (most : ℕ) × (w : Setting) × (found : List Attempt) × (count : ℕ) × (past : List Pair) × (before : List (Option (List Delivery)))
            × RowKeeps most w found count self.old past
            × ServesIn w before past (map (λ b. told b) subsystems.old.items) (map (λ b. spare b) subsystems.old.items)
            × (length past ≡ now.0) × (now.0 < 2 ^ 32) × (vec_len self.old.attempts ≤ most) × AreFew w past }
        ensures stands { (most : ℕ) (w : Setting) (found : List Attempt) (count : ℕ) (past : List Pair) → RowKeeps most w found count self.old past →
            length past ≡ now.0 →
            RowKeeps most w (found ++ ended_in w (shown ∷ past)) (count_after w (shown ∷ past) count) self.new (shown ∷ past) }
        ensures moment { (most : ℕ) (w : Setting) (found : List Attempt) (count : ℕ) (past : List Pair) → RowKeeps most w found count self.old past →
            result ≡ moment_of LAG shown past }
        ensures taken { (most : ℕ) (w : Setting) (found : List Attempt) (count : ℕ) (past : List Pair) → RowKeeps most w found count self.old past →
            length past ≡ now.0 → self.new.taken.items ≡ taken_in w (shown ∷ past) }
        ensures serves { (most : ℕ) (w : Setting) (found : List Attempt) (count : ℕ) (past : List Pair) (before : List (Option (List Delivery))) →
            RowKeeps most w found count self.old past →
            length past ≡ now.0 → ServesIn w before past (map (λ b. told b) subsystems.old.items) (map (λ b. spare b) subsystems.old.items) →
            ServesIn w before (shown ∷ past) (map (λ b. told b) subsystems.new.items) (map (λ b. spare b) subsystems.new.items) }
    {
        let moment = self.receiver.hear(now, shown);
        self.taken.clear();
        let took = self.hear_moment(&moment, subsystems);
        self.delivering = counted(self.delivering, took);
        moment
    }

    // The station at a place hears the tick, after those before it, and its object takes what its terminal took. It answers whether that took
    // a block. An absent station hears nothing.
    #[inline(always)]
    pub(crate) fn hear_at(
        &mut self,
        place: usize,
        moment: &Moment,
        subsystems: &mut Vec<Box<dyn Subsystem>>,
    ) -> bool
        requires place { place < length self.old.stations.items }
        requires stands { (w : Setting) × (found : List Attempt) × (past : List Pair) × (before : List (Option (List Delivery))) × (bus : Cutters)
            × RowHears w found place bus moment.now.shown past self.old
            × ObjectsHear w self.old.objects.items before place moment.now.shown past (map (λ b. told b) subsystems.old.items)
            (map (λ b. spare b) subsystems.old.items)
            × IsNext LAG moment.now bus self.old.receiver.cutters past × (length past < 2 ^ 32) × AreFew w past }
        requires room { vec_len self.old.attempts < vec_capacity self.old.attempts }
        requires taken_room { vec_len self.old.taken < vec_capacity self.old.taken }
        ensures stands { (w : Setting) (found : List Attempt) (past : List Pair) (bus : Cutters) → RowHears w found place bus moment.now.shown past self.old →
            IsNext LAG moment.now bus self.old.receiver.cutters past → RowHears w found (place + 1) bus moment.now.shown past self.new }
        ensures took { (w : Setting) (found : List Attempt) (past : List Pair) (bus : Cutters) (s : StationData) →
            RowHears w found place bus moment.now.shown past self.old →
            IsNext LAG moment.now bus self.old.receiver.cutters past →
            slice_get w.plan.stations place ≡ Some s → result ≡ is_some (delivered_in w (moment.now.shown ∷ past) s) }
        ensures objects_hear { (w : Setting) (found : List Attempt) (past : List Pair) (before : List (Option (List Delivery))) (bus : Cutters) →
            RowHears w found place bus moment.now.shown past self.old → IsNext LAG moment.now bus self.old.receiver.cutters past →
            ObjectsHear w self.old.objects.items before place moment.now.shown past
            (map (λ b. told b) subsystems.old.items) (map (λ b. spare b) subsystems.old.items) →
            ObjectsHear w self.old.objects.items before (place + 1) moment.now.shown past
            (map (λ b. told b) subsystems.new.items) (map (λ b. spare b) subsystems.new.items) }
        ensures all { length self.new.stations.items ≡ length self.old.stations.items }
        ensures len { vec_len self.new.attempts ≤ vec_len self.old.attempts + 1 }
        ensures room { vec_capacity self.new.attempts ≡ vec_capacity self.old.attempts }
        ensures taken_len { vec_len self.new.taken ≤ vec_len self.old.taken + 1 }
        ensures taken_room { vec_capacity self.new.taken ≡ vec_capacity self.old.taken }
        ensures objects { self.new.objects ≡ self.old.objects }
        ensures delivering { self.new.delivering ≡ self.old.delivering }
        ensures receiver { self.new.receiver ≡ self.old.receiver }
        ensures present { self.new.present ≡ self.old.present }
        ensures places { self.new.places ≡ self.old.places }
        ensures others { (i : ℕ) → i ≢ place → slice_get self.new.stations.items i ≡ slice_get self.old.stations.items i }
    {
        if !self.present[place] {
            return false;
        }
        let station = &mut self.stations[place];
        if !station.learn(moment) {
            return false;
        }
        hand_out(
            station,
            &mut self.attempts,
            &mut self.taken,
            self.objects[place],
            subsystems,
        )
    }

    /// Whether every station that is present is idle and none is taking control.
    pub fn are_done(&self) -> bool
        requires { (w : Setting) × (past : List Pair) × StationsStandIn w self.now.stations.items past × (self.now.present.items ≡ presence w) }
        ensures { (w : Setting) (past : List Pair) → StationsStandIn w self.now.stations.items past → self.now.present.items ≡ presence w →
            result ≡ list_all (is_done LAG w.plan w.loads w.outside w.absent past) w.plan.stations }
    {
        are_done(&self.stations, &self.present)
    }

    /// The stations and the attempts.
    pub fn into_parts(self) -> (Vec<Station>, Vec<Attempt>)
        ensures stations { result.0.items ≡ self.stations.items }
        ensures attempts { result.1.items ≡ self.attempts.items }
    {
        (self.stations, self.attempts)
    }

    /// The stations, in the order of the plan.
    pub fn stations(&self) -> &[Station]
        ensures { result.now ≡ self.now.stations.items }
    {
        &self.stations
    }

    /// Which stations are present, in the order of the plan.
    pub fn present(&self) -> &[bool]
        ensures { result.now ≡ self.now.present.items }
    {
        &self.present
    }

    /// The places of the stations that need each tick, rising, maybe with others.
    pub fn places(&self) -> &[u8]
        ensures { result.now ≡ self.now.places.items }
    {
        &self.places
    }

    /// The blocks that terminals took in the newest tick, in the order of the plan.
    pub fn taken(&self) -> &[TakenBlock]
        ensures { result.now ≡ self.now.taken.items }
    {
        &self.taken
    }

    /// The ticks in a row up to now in which both channels were quiet.
    pub fn quiet(&self) -> u64
        ensures { (past : List Pair) → ReceiverStands LAG self.now.receiver past → result ≡ quiet_both past }
    {
        self.receiver.quiet()
    }

    /// The attempts that ended so far, in the order in which they ended.
    pub fn attempts(&self) -> &[Attempt]
        ensures { result.now ≡ self.now.attempts.items }
    {
        &self.attempts
    }

    /// In how many ticks so far some terminal took a block.
    pub fn delivering(&self) -> u64
        ensures { result ≡ self.now.delivering }
    {
        self.delivering
    }
}

// What a station noticed goes where it is kept: an attempt to the list, a block to those of the tick and to the object at the place, if there is one. It
// answers whether it was a block. It is a call of its own, since what is told is large, and in most ticks there is nothing.
#[inline(never)]
fn hand_out(
    station: &mut Station,
    attempts: &mut Vec<Attempt>,
    taken: &mut Vec<TakenBlock>,
    object: Option<usize>,
    subsystems: &mut Vec<Box<dyn Subsystem>>,
) -> bool
    requires room { vec_len attempts.old < vec_capacity attempts.old }
    requires taken_room { vec_len taken.old < vec_capacity taken.old }
    requires data { IsForData (delivery_told (noticed_by station.old)) }
    requires place { (d : Delivery) (p : ℕ) → delivery_told (noticed_by station.old) ≡ Some d → object ≡ Some p → p < length subsystems.old.items }
    requires space { (d : Delivery) (p : ℕ) (b : _) → delivery_told (noticed_by station.old) ≡ Some d → object ≡ Some p →
        slice_get subsystems.old.items p ≡ Some b → 0 < spare b }
    ensures stands { (plan : StationData) (starts : Bool) (loads : List TimedLoad) (outside : List OutsideTake) (past : List Pair) →
        StationKeeps LAG plan starts loads outside station.old past → StationKeeps LAG plan starts loads outside station.new past }
    ensures in_step { (plan : StationData) (starts : Bool) (loads : List TimedLoad) (outside : List OutsideTake) (bus : Cutters) (past : List Pair) →
        InStep LAG plan starts loads outside station.old bus past → InStep LAG plan starts loads outside station.new bus past }
    ensures attempts { attempts.new.items ≡ attempts.old.items ++ attempts_told (noticed_by station.old) }
    ensures len { vec_len attempts.new ≤ vec_len attempts.old + 1 }
    ensures capacity { vec_capacity attempts.new ≡ vec_capacity attempts.old }
    ensures taken { taken.new.items ≡ taken.old.items ++ taken_at station.old (delivery_told (noticed_by station.old)) }
    ensures taken_len { vec_len taken.new ≤ vec_len taken.old + 1 }
    ensures taken_capacity { vec_capacity taken.new ≡ vec_capacity taken.old }
    ensures took { result ≡ is_some (delivery_told (noticed_by station.old)) }
    ensures objects { AreHandedOut object (delivery_told (noticed_by station.old)) (map (λ b. told b) subsystems.old.items) (map (λ b. told b) subsystems.new.items)
        (map (λ b. spare b) subsystems.old.items) (map (λ b. spare b) subsystems.new.items) }
{
    let address = station.address();
    match station.tell() {
        StationEvent::Nothing => false,
        StationEvent::Ended(attempt) => {
            attempts.push_reserved(attempt);
            false
        }
        StationEvent::Took(delivery) => {
            taken.push_reserved(TakenBlock::of(address, &delivery));
            hand_on(subsystems, object, delivery);
            true
        }
    }
}

// The object at the place, if there is one, takes the delivery.
fn hand_on(subsystems: &mut Vec<Box<dyn Subsystem>>, object: Option<usize>, delivery: Delivery)
    requires place { (p : ℕ) → object ≡ Some p → p < length subsystems.old.items }
    requires room { (p : ℕ) (b : _) → object ≡ Some p → slice_get subsystems.old.items p ≡ Some b → 0 < spare b }
    requires low { 0 < delivery.sub }
    requires high { delivery.sub < 31 }
    ensures { IsHandedOn object delivery (map (λ b. told b) subsystems.old.items) (map (λ b. told b) subsystems.new.items)
        (map (λ b. spare b) subsystems.old.items) (map (λ b. spare b) subsystems.new.items) }
{
    if let Some(place) = object {
        deliver(subsystems, place, delivery);
    }
}

// So many ticks, and one more where some terminal took a block in it.
fn counted(ticks: u64, took: bool) -> u64
    requires { ticks < 2 ^ 60 }
    ensures { result ≡ (if took then suc ticks else ticks) }
{
    if took { ticks + 1 } else { ticks }
}

fn are_done(stations: &[Station], present: &[bool]) -> bool
    requires { length present.now ≡ length stations.now }
    ensures { (w : Setting) (past : List Pair) → StationsStandIn w stations.now past → present.now ≡ presence w →
        result ≡ list_all (is_done LAG w.plan w.loads w.outside w.absent past) w.plan.stations }
{
    for (place, station) in stations.iter().enumerate() {
        if !is_done_or_absent(station, present[place]) {
            return false;
        }
    }
    true
}

fn is_done_or_absent(station: &Station, present: bool) -> bool
    ensures { (w : Setting) (s : StationData) (past : List Pair) → present ≡ is_present w.absent s →
        (is_present w.absent s ≡ true → StationKeeps LAG s (starts w.plan s) w.loads w.outside station.now past) →
        result ≡ is_done LAG w.plan w.loads w.outside w.absent past s }
{
    if present { is_done(station) } else { true }
}

// Whether a station is idle and isn't taking control.
fn is_done(station: &Station) -> bool
    ensures { (s : StationData) (starts : Bool) (loads : List TimedLoad) (outside : List OutsideTake) (past : List Pair) →
        StationKeeps LAG s starts loads outside station.now past →
        result ≡ (is_idle LAG s starts loads outside past && is_none (takes_control LAG s starts loads outside past)) }
{
    station.is_idle() && !is_taking(station.role())
}

fn is_taking(role: Role) -> bool
    ensures { result ≡ takes role }
{
    matches!(role, Role::Taking(_))
}
