//! A tick of the stations of a row: all of them hear it where a slot or a burst ended in it, else those alone that need each tick.
ghost use Rattle.std.specs.Prelude.{◌≡◌, ◌≤◌, ◌<◌, ◌^◌, ◌+◌, true, List, ◌∷◌, map, length, slice_get, Option, Some, vec_len, vec_capacity};
ghost use Rattle.bus_base.specs.declared.samples.Pair.{Pair};
ghost use Rattle.bus_line.specs.declared.cutter.TheConstants.{LAG};
ghost use Rattle.bus_formats.specs.declared.log.Attempt.{Attempt};
ghost use Rattle.bus_formats.specs.declared.log.Delivery.{Delivery};
ghost use Rattle.bus_receiver.specs.Nothing.{are_nothing};
ghost use Rattle.bus_receiver.specs.declared.cutters.Cutters.{Cutters};
ghost use Rattle.bus_station.specs.Listening.{IsNext};
ghost use Rattle.bus_run.specs.Deliveries.{AreFew, is_delivering_in};
ghost use Rattle.bus_run.specs.Settings.{Setting};
ghost use Rattle.bus_run.specs.StationRows.{RowHears, ObjectsHear, RowCalls};

use crate::called::places_called;
use crate::station_row::StationRow;
use bus_receiver::Moment;
use bus_subsystem::Subsystem;

impl StationRow {
    // The stations hear the tick of which this became known. It answers whether a terminal took a block.
    #[inline(always)]
    pub(crate) fn hear_moment(
        &mut self,
        moment: &Moment,
        subsystems: &mut Vec<Box<dyn Subsystem>>,
    ) -> bool
        requires stands { (w : Setting) × (found : List Attempt) × (past : List Pair) × (before : List (Option (List Delivery))) × (bus : Cutters)
            × RowHears w found 0 bus moment.now.shown past self.old
            × ObjectsHear w self.old.objects.items before 0 moment.now.shown past (map (λ b. told b) subsystems.old.items)
            (map (λ b. spare b) subsystems.old.items)
            × IsNext LAG moment.now bus self.old.receiver.cutters past × (length past < 2 ^ 32) × AreFew w past }
        requires calls { RowCalls self.old }
        requires present { length self.old.present.items ≡ length self.old.stations.items }
        requires room { vec_len self.old.attempts + length self.old.stations.items ≤ vec_capacity self.old.attempts }
        requires taken_room { vec_len self.old.taken + length self.old.stations.items ≤ vec_capacity self.old.taken }
        ensures stands { (w : Setting) (found : List Attempt) (past : List Pair) (bus : Cutters) → RowHears w found 0 bus moment.now.shown past self.old →
            IsNext LAG moment.now bus self.old.receiver.cutters past →
            RowHears w found (length self.old.stations.items) bus moment.now.shown past self.new }
        ensures took { (w : Setting) (found : List Attempt) (past : List Pair) (bus : Cutters) → RowHears w found 0 bus moment.now.shown past self.old →
            IsNext LAG moment.now bus self.old.receiver.cutters past →
            result ≡ is_delivering_in w (moment.now.shown ∷ past) w.plan.stations }
        ensures objects_hear { (w : Setting) (found : List Attempt) (past : List Pair) (before : List (Option (List Delivery))) (bus : Cutters) →
            RowHears w found 0 bus moment.now.shown past self.old → IsNext LAG moment.now bus self.old.receiver.cutters past →
            ObjectsHear w self.old.objects.items before 0 moment.now.shown past
            (map (λ b. told b) subsystems.old.items) (map (λ b. spare b) subsystems.old.items) →
            ObjectsHear w self.old.objects.items before (length self.old.stations.items) moment.now.shown past
            (map (λ b. told b) subsystems.new.items) (map (λ b. spare b) subsystems.new.items) }
        ensures calls { RowCalls self.new }
        ensures all { length self.new.stations.items ≡ length self.old.stations.items }
        ensures room { vec_capacity self.new.attempts ≡ vec_capacity self.old.attempts }
        ensures taken_room { vec_capacity self.new.taken ≡ vec_capacity self.old.taken }
        ensures objects { self.new.objects ≡ self.old.objects }
        ensures delivering { self.new.delivering ≡ self.old.delivering }
        ensures receiver { self.new.receiver ≡ self.old.receiver }
    {
        if moment.cuts().are_nothing() {
            return self.hear_some(moment, subsystems);
        }
        self.hear_all(moment, subsystems)
    }

    // Every station that is present hears the tick, in the order of the plan. Then those are found that need each tick.
    fn hear_all(&mut self, moment: &Moment, subsystems: &mut Vec<Box<dyn Subsystem>>) -> bool
        requires stands { (w : Setting) × (found : List Attempt) × (past : List Pair) × (before : List (Option (List Delivery))) × (bus : Cutters)
            × RowHears w found 0 bus moment.now.shown past self.old
            × ObjectsHear w self.old.objects.items before 0 moment.now.shown past (map (λ b. told b) subsystems.old.items)
            (map (λ b. spare b) subsystems.old.items)
            × IsNext LAG moment.now bus self.old.receiver.cutters past × (length past < 2 ^ 32) × AreFew w past }
        requires calls { RowCalls self.old }
        requires present { length self.old.present.items ≡ length self.old.stations.items }
        requires room { vec_len self.old.attempts + length self.old.stations.items ≤ vec_capacity self.old.attempts }
        requires taken_room { vec_len self.old.taken + length self.old.stations.items ≤ vec_capacity self.old.taken }
        ensures stands { (w : Setting) (found : List Attempt) (past : List Pair) (bus : Cutters) → RowHears w found 0 bus moment.now.shown past self.old →
            IsNext LAG moment.now bus self.old.receiver.cutters past →
            RowHears w found (length self.old.stations.items) bus moment.now.shown past self.new }
        ensures took { (w : Setting) (found : List Attempt) (past : List Pair) (bus : Cutters) → RowHears w found 0 bus moment.now.shown past self.old →
            IsNext LAG moment.now bus self.old.receiver.cutters past →
            result ≡ is_delivering_in w (moment.now.shown ∷ past) w.plan.stations }
        ensures objects_hear { (w : Setting) (found : List Attempt) (past : List Pair) (before : List (Option (List Delivery))) (bus : Cutters) →
            RowHears w found 0 bus moment.now.shown past self.old → IsNext LAG moment.now bus self.old.receiver.cutters past →
            ObjectsHear w self.old.objects.items before 0 moment.now.shown past
            (map (λ b. told b) subsystems.old.items) (map (λ b. spare b) subsystems.old.items) →
            ObjectsHear w self.old.objects.items before (length self.old.stations.items) moment.now.shown past
            (map (λ b. told b) subsystems.new.items) (map (λ b. spare b) subsystems.new.items) }
        ensures calls { RowCalls self.new }
        ensures all { length self.new.stations.items ≡ length self.old.stations.items }
        ensures room { vec_capacity self.new.attempts ≡ vec_capacity self.old.attempts }
        ensures taken_room { vec_capacity self.new.taken ≡ vec_capacity self.old.taken }
        ensures objects { self.new.objects ≡ self.old.objects }
        ensures delivering { self.new.delivering ≡ self.old.delivering }
        ensures receiver { self.new.receiver ≡ self.old.receiver }
    {
        let mut took = false;
        for place in 0..self.stations.len() {
            took = took | self.hear_at(place, moment, subsystems);
        }
        self.places = places_called(&self.stations, &self.present);
        took
    }

    // Nothing became known with the tick: the stations that wait are as they were, and the others hear it.
    fn hear_some(&mut self, moment: &Moment, subsystems: &mut Vec<Box<dyn Subsystem>>) -> bool
        requires stands { (w : Setting) × (found : List Attempt) × (past : List Pair) × (before : List (Option (List Delivery))) × (bus : Cutters)
            × RowHears w found 0 bus moment.now.shown past self.old
            × ObjectsHear w self.old.objects.items before 0 moment.now.shown past (map (λ b. told b) subsystems.old.items)
            (map (λ b. spare b) subsystems.old.items)
            × IsNext LAG moment.now bus self.old.receiver.cutters past × (length past < 2 ^ 32) × AreFew w past }
        requires calls { RowCalls self.old }
        requires present { length self.old.present.items ≡ length self.old.stations.items }
        requires room { vec_len self.old.attempts + length self.old.stations.items ≤ vec_capacity self.old.attempts }
        requires taken_room { vec_len self.old.taken + length self.old.stations.items ≤ vec_capacity self.old.taken }
        requires nothing { are_nothing moment.now.cuts ≡ true }
        ensures stands { (w : Setting) (found : List Attempt) (past : List Pair) (bus : Cutters) → RowHears w found 0 bus moment.now.shown past self.old →
            IsNext LAG moment.now bus self.old.receiver.cutters past →
            RowHears w found (length self.old.stations.items) bus moment.now.shown past self.new }
        ensures took { (w : Setting) (found : List Attempt) (past : List Pair) (bus : Cutters) → RowHears w found 0 bus moment.now.shown past self.old →
            IsNext LAG moment.now bus self.old.receiver.cutters past →
            result ≡ is_delivering_in w (moment.now.shown ∷ past) w.plan.stations }
        ensures objects_hear { (w : Setting) (found : List Attempt) (past : List Pair) (before : List (Option (List Delivery))) (bus : Cutters) →
            RowHears w found 0 bus moment.now.shown past self.old → IsNext LAG moment.now bus self.old.receiver.cutters past →
            ObjectsHear w self.old.objects.items before 0 moment.now.shown past
            (map (λ b. told b) subsystems.old.items) (map (λ b. spare b) subsystems.old.items) →
            ObjectsHear w self.old.objects.items before (length self.old.stations.items) moment.now.shown past
            (map (λ b. told b) subsystems.new.items) (map (λ b. spare b) subsystems.new.items) }
        ensures calls { RowCalls self.new }
        ensures all { length self.new.stations.items ≡ length self.old.stations.items }
        ensures room { vec_capacity self.new.attempts ≡ vec_capacity self.old.attempts }
        ensures taken_room { vec_capacity self.new.taken ≡ vec_capacity self.old.taken }
        ensures objects { self.new.objects ≡ self.old.objects }
        ensures delivering { self.new.delivering ≡ self.old.delivering }
        ensures receiver { self.new.receiver ≡ self.old.receiver }
    {
        let mut took = false;
        let count = self.places.as_slice().len();
        for index in 0..count {
            let place = self.place_called(index);
            took = took | self.hear_at(place, moment, subsystems);
        }
        took
    }

    // The place at an index of those that are called.
    #[inline(always)]
    fn place_called(&self, index: usize) -> usize
        requires { index < length self.now.places.items }
        ensures { slice_get self.now.places.items index ≡ Some result }
    {
        usize::from(self.places.as_slice()[index])
    }
}
