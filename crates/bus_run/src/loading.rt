//! What is done to the stations of a bus from outside: a block is put up for sending.
ghost use Rattle.std.specs.Prelude.{◌≡◌, ◌≤◌, ◌<◌, ◌+◌, ℕ, List, ◌∷◌, length};
ghost use Rattle.bus_base.specs.declared.samples.Pair.{Pair};
ghost use Rattle.bus_formats.specs.declared.log.Attempt.{Attempt};
ghost use Rattle.bus_run.specs.Joined.{with_load};
ghost use Rattle.bus_run.specs.Loading.{TakesLoad, AreLoaded};
ghost use Rattle.bus_run.specs.Settings.{Setting};
ghost use Rattle.bus_run.specs.StationRows.{RowKeeps};
ghost use Rattle.bus_station.specs.declared.station.Station.{Station as StationValue};

use crate::called::places_called;
use crate::station_row::StationRow;
use bus_station::{Station, a_load_elsewhere_changes_nothing};

impl StationRow {
    /// Makes the transmit block of a subaddress, 1 to 29, of the stations with this address exactly the words, 1 to 32: a timed load at the last
    /// tick heard. What they told of that tick stays.
    pub fn load(&mut self, address: u8, sub: u8, words: &[u16])
        requires first { 1 ≤ sub }
        requires last { sub ≤ 29 }
        requires some { 1 ≤ length words.now }
        requires fits { length words.now ≤ 32 }
        requires row { (most : ℕ) × (w : Setting) × (found : List Attempt) × (count : ℕ) × (shown : Pair) × (past : List Pair)
            × RowKeeps most w found count self.old (shown ∷ past) }
        ensures keeps { (most : ℕ) (w : Setting) (found : List Attempt) (count : ℕ) (shown : Pair) (past : List Pair) →
            RowKeeps most w found count self.old (shown ∷ past) →
            RowKeeps most (with_load w (record { tick = length past; address = address; sub = sub; words = words.now })) found count self.new
            (shown ∷ past) }
        ensures taken { self.new.taken ≡ self.old.taken }
    {
        for place in 0..self.stations.len() {
            self.load_at(place, address, sub, words);
        }
        self.places = places_called(&self.stations, &self.present);
    }

    fn load_at(&mut self, place: usize, address: u8, sub: u8, words: &[u16])
        requires place { place < length self.old.stations.items }
        requires first { 1 ≤ sub }
        requires last { sub ≤ 29 }
        requires some { 1 ≤ length words.now }
        requires fits { length words.now ≤ 32 }
        ensures loaded { (first : List StationValue) → AreLoaded address sub words.now place first self.old.stations.items →
            AreLoaded address sub words.now (place + 1) first self.new.stations.items }
        ensures all { length self.new.stations.items ≡ length self.old.stations.items }
        ensures present { self.new.present ≡ self.old.present }
        ensures attempts { self.new.attempts ≡ self.old.attempts }
        ensures objects { self.new.objects ≡ self.old.objects }
        ensures delivering { self.new.delivering ≡ self.old.delivering }
        ensures taken { self.new.taken ≡ self.old.taken }
        ensures receiver { self.new.receiver ≡ self.old.receiver }
    {
        load_into(&mut self.stations[place], address, sub, words);
    }
}

// The station takes the load, if it has the address.
fn load_into(station: &mut Station, address: u8, sub: u8, words: &[u16])
    requires first { 1 ≤ sub }
    requires last { sub ≤ 29 }
    requires some { 1 ≤ length words.now }
    requires fits { length words.now ≤ 32 }
    ensures { TakesLoad address sub words.now station.old station.new }
{
    a_load_elsewhere_changes_nothing();
    if station.address() == address {
        station.load(sub, words);
    }
}
