//! Which stations of a row are called where nothing becomes known with a tick, and what they drive.
ghost use Rattle.std.specs.Prelude.{◌≡◌, ◌≤◌, ◌&&◌, [], length};
ghost use Rattle.bus_station.specs.Needs.{needs_each_tick};
ghost use Rattle.bus_wire.specs.Places.{AreRising};
ghost use Rattle.bus_run.specs.Called.{AreCalled};
ghost use Rattle.bus_run.specs.Driven.{AreDriven, AreDriving, AreSilentBut};
ghost use Rattle.bus_run.specs.Driven as driven;

use arrayvec::ArrayVec;
use bus_base::Drive;
use bus_station::Station;

/// The places of the stations that are present and need each tick, rising.
#[inline(never)]
pub(crate) fn places_called(stations: &[Station], present: &[bool]) -> ArrayVec<u8, 32>
    requires few { length stations.now ≤ 32 }
    requires present { length present.now ≡ length stations.now }
    ensures { AreCalled present.now stations.now result.items }
{
    let mut places = ArrayVec::new();
    for (place, station) in stations.iter().enumerate() {
        if is_called(station, present[place]) {
            places.push(place as u8);
        }
    }
    places
}

fn is_called(station: &Station, present: bool) -> bool
    ensures { result ≡ (present && needs_each_tick station.now) }
{
    present && station.needs_each_tick()
}

/// What the stations at these places drive in the tick to come, where all drives are silent. It answers the places of those that drive a channel.
#[inline(always)]
pub(crate) fn drive_called(
    stations: &[Station],
    places: &[u8],
    drives: &mut [Drive],
) -> ArrayVec<u8, 32>
    requires few { length stations.now ≤ 32 }
    requires all { length drives.old ≡ length stations.now }
    requires rising { AreRising 0 (length stations.now) places.now }
    requires silent { AreSilentBut [] drives.old }
    ensures drives { AreDriven stations.now places.now drives.new }
    ensures driving { AreDriving (length stations.now) drives.new result.items }
{
    let mut driving = ArrayVec::new();
    for place in places {
        let station = usize::from(*place);
        let drive = stations[station].drive();
        drives[station] = drive;
        if is_on(drive) {
            driving.push(*place);
        }
    }
    driving
}

// Whether a station drives a channel.
#[inline(always)]
fn is_on(drive: Drive) -> bool
    ensures { result ≡ driven.is_on drive }
{
    matches!(drive, Drive::On { .. })
}

/// The drives at these places are silent again, as all others are.
#[inline(always)]
pub(crate) fn silence(places: &[u8], drives: &mut [Drive])
    requires rising { AreRising 0 (length drives.old) places.now }
    requires silent { AreSilentBut places.now drives.old }
    ensures silent { AreSilentBut [] drives.new }
    ensures all { length drives.new ≡ length drives.old }
{
    for place in places {
        let station = usize::from(*place);
        drives[station] = Drive::Silent;
    }
}
