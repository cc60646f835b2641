//! What the stations drive in each tick, and what the wire shows of it.
ghost use Rattle.std.specs.Prelude.{◌≡◌, ◌≤◌, ◌<◌, ◌^◌, ◌&&◌, ◌||◌, ◌+◌, if◌then◌else◌, nat_lt, ℕ, true, List, [], ◌∷◌, length};
ghost use Rattle.bus_base.specs.declared.samples.Channel.TheVariants.{A, B};
ghost use Rattle.bus_base.specs.declared.samples.Drive.{Drive};
ghost use Rattle.bus_base.specs.declared.samples.Pair.{Pair};
ghost use Rattle.bus_line.specs.declared.cutter.TheConstants.{LAG};
ghost use Rattle.bus_formats.specs.Plans.{StationData, PlanData};
ghost use Rattle.bus_model.specs.Starts.{starts};
ghost use Rattle.bus_model.specs.Wire as spec;
ghost use Rattle.bus_model.specs.World.{is_present, drive_after, drives_after};
ghost use Rattle.bus_station.specs.StationStands.{StationKeeps};
ghost use Rattle.bus_run.specs.Called.{AreCalled};
ghost use Rattle.bus_run.specs.Driven.{AreDriven, AreDriving, AreSilentBut};
ghost use Rattle.bus_wire.specs.Places.{AreRising};
ghost use Rattle.bus_run.specs.Parts.{StationsStandIn, DrivenWireStands, presence};
ghost use Rattle.bus_run.specs.Settings.{Setting};

use crate::called::{drive_called, silence};
use arrayvec::ArrayVec;
use bus_base::{Drive, Pair};
use bus_formats::Fault;
use bus_station::Station;
use bus_wire::Wire;

/// The wire, with what each station drives in a tick, and in how many ticks two stations or more drove one channel.
#[derive(Drop)]
pub struct DrivenWire {
    wire: Wire,
    // for each station, in the order of the plan, that it drives nothing, but while a tick is shown what it drives in it
    drives: Vec<Drive>,
    clashes: u64,
}

impl DrivenWire {
    /// A wire with these faults on which nothing was driven yet, and a place for the drive of each station.
    pub fn new(faults: Vec<Fault>, drives: Vec<Drive>) -> DrivenWire
        requires few { length drives.items ≤ 32 }
        requires silent { AreSilentBut [] drives.items }
        ensures { (plan : PlanData) → plan.faults ≡ faults.items → length plan.stations ≡ length drives.items → DrivenWireStands plan result [] }
    {
        DrivenWire {
            wire: Wire::new(faults),
            drives,
            clashes: 0,
        }
    }

    /// What both channels show in the tick to come, where the stations at these places alone may drive: all others wait or are absent.
    #[inline(always)]
    pub fn show(&mut self, stations: &[Station], places: &[u8]) -> Pair
        requires { (w : Setting) × (past : List Pair) × (driven : List (List Drive)) × StationsStandIn w stations.now past
            × AreCalled (presence w) stations.now places.now × DrivenWireStands w.plan self.old driven × (length driven < 2 ^ 60) }
        ensures pair { (w : Setting) (past : List Pair) (driven : List (List Drive)) → StationsStandIn w stations.now past →
            AreCalled (presence w) stations.now places.now → DrivenWireStands w.plan self.old driven →
            result ≡ spec.shown w.plan.faults (drives_after LAG w.plan w.loads w.outside w.absent past ∷ driven) }
        ensures stands { (w : Setting) (past : List Pair) (driven : List (List Drive)) → StationsStandIn w stations.now past →
            AreCalled (presence w) stations.now places.now → DrivenWireStands w.plan self.old driven →
            DrivenWireStands w.plan self.new (drives_after LAG w.plan w.loads w.outside w.absent past ∷ driven) }
    {
        let driving = self.drive(stations, places);
        let among = driving.as_slice();
        let shown = self.wire.show_among(&self.drives, among);
        self.silence(among);
        self.clashes = clashes_after(self.clashes, shown.drivers);
        shown.pair
    }

    // Keeps what the stations at these places drive in the tick to come, and answers which of them drive a channel.
    #[inline(always)]
    fn drive(&mut self, stations: &[Station], places: &[u8]) -> ArrayVec<u8, 32>
        requires few { length stations.now ≤ 32 }
        requires all { length self.old.drives.items ≡ length stations.now }
        requires rising { AreRising 0 (length stations.now) places.now }
        requires silent { AreSilentBut [] self.old.drives.items }
        ensures drives { AreDriven stations.now places.now self.new.drives.items }
        ensures driving { AreDriving (length stations.now) self.new.drives.items result.items }
        ensures wire { self.new.wire ≡ self.old.wire }
        ensures clashes { self.new.clashes ≡ self.old.clashes }
    {
        drive_called(stations, places, &mut self.drives)
    }

    // That was shown.
    #[inline(always)]
    fn silence(&mut self, places: &[u8])
        requires rising { AreRising 0 (length self.old.drives.items) places.now }
        requires silent { AreSilentBut places.now self.old.drives.items }
        ensures silent { AreSilentBut [] self.new.drives.items }
        ensures all { length self.new.drives.items ≡ length self.old.drives.items }
        ensures wire { self.new.wire ≡ self.old.wire }
        ensures clashes { self.new.clashes ≡ self.old.clashes }
    {
        silence(places, &mut self.drives);
    }

    /// In how many ticks two stations or more drove one channel.
    pub fn clashes(&self) -> u64
        ensures { result ≡ self.now.clashes }
    {
        self.clashes
    }
}

// The number of clashes after a tick in which so many stations count as driving A and B.
fn clashes_after(clashes: u64, drivers: [u8; 2]) -> u64
    requires { clashes < 2 ^ 60 }
    ensures { (a b : ℕ) → drivers ≡ a ∷ b ∷ [] → result ≡ (if nat_lt 1 a || nat_lt 1 b then 1 else 0) + clashes }
{
    let [a, b] = drivers;
    if a > 1 || b > 1 { clashes + 1 } else { clashes }
}
