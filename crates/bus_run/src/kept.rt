//! Which of the objects for subsystems stay.
ghost use Rattle.std.specs.Prelude.{◌≡◌, ◌<◌, length, All};
ghost use Rattle.bus_run.specs.Kept.{place_of as place_at, places_from, named_at, IsPicked};
ghost use Rattle.bus_run.specs.Kept as spec;

use bus_formats::{StationPlan, SubsystemKind};
use bus_subsystem::Subsystem;

/// The place of the object of this kind and address.
pub fn place_of(kind: SubsystemKind, address: usize) -> usize
    requires { address < 31 }
    ensures { result ≡ place_at kind address }
{
    match kind {
        SubsystemKind::Recorder => address,
        SubsystemKind::Tally => 31 + address,
    }
}

/// The subsystem that the station with this address names, if there is one and it names any.
pub fn named(stations: &[StationPlan], address: usize) -> Option<SubsystemKind>
    ensures { result ≡ named_at address stations.now }
{
    for station in stations {
        if usize::from(station.terminal.address) == address {
            return station.terminal.subsystem;
        }
    }
    None
}

/// The subsystems that the stations name, by address from 0 to 30.
pub fn named_in(stations: &[StationPlan]) -> [Option<SubsystemKind>; 31]
    ensures { result ≡ spec.named_in stations.now }
{
    let mut all = [None; 31];
    for address in 0..31 {
        all[address] = named(stations, address);
    }
    all
}

/// Keeps the objects that the addresses 0 to 30 name, in order of address, and drops the others. Places 0 to 30 are the recorders of these
/// addresses, and 31 to 61 the tallies. It takes no memory.
pub fn keep_named(subsystems: &mut Vec<Box<dyn Subsystem>>, named: &[Option<SubsystemKind>])
    requires places { All (λ place. place < length subsystems.old.items) (places_from 0 named.now) }
    requires named { length named.now ≡ 31 }
    ensures { IsPicked subsystems.old.items (places_from 0 named.now) subsystems.new.items }
{
    let mut kept = 0;
    for address in 0..31 {
        if let Some(kind) = named[address] {
            subsystems.swap(kept, place_of(kind, address));
            kept += 1;
        }
    }
    subsystems.truncate(kept);
}
