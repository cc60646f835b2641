//! What is made before the first tick.
ghost use Rattle.std.specs.Prelude.{◌≡◌, ◌≤◌, ◌<◌, ◌+◌, ◌==◌, ◌*◌, ℕ, List, [], length, map, count_by, is_some, true, replicate, None, All, IfOk};
ghost use Rattle.bus_formats.specs.Plans.{PlanData};
ghost use Rattle.bus_formats.specs.Accepted.{IsAccepted};
ghost use Rattle.bus_station.specs.Fits.{StationFits};
ghost use Rattle.bus_run.specs.Kept.{named_in, object_at};
ghost use Rattle.bus_run.specs.Deliveries.{ObjectsIn};
ghost use Rattle.bus_run.specs.Driven.{AreSilentBut};
ghost use Rattle.bus_run.specs.Settings.{Setting};
ghost use Rattle.bus_run.specs.StationRows.{RowStands, RowKeeps};
ghost use Rattle.bus_run.specs.Monitors.{MonitorStands};
ghost use Rattle.bus_run.specs.Parts.{StationsBegin, DrivenWireStands};
ghost use Rattle.bus_run.specs.Terminals.{EndsStand};

use crate::copies::{copy_faults, copy_station};
use crate::driven_wire::DrivenWire;
use crate::ends::Ends;
use crate::monitor::Monitor;
use crate::station_row::StationRow;
use bus_base::Drive;
use bus_formats::{Plan, StationPlan, SubsystemKind};
use bus_station::Station;
use std::alloc::{AllocError, Global};

/// The stations of a plan before the first tick.
pub fn stations_of(alloc: Global, plan: &Plan) -> Result<Vec<Station>, AllocError>
    requires { All StationFits plan.now.stations }
    ensures { IfOk result (λ made. StationsBegin plan.now made.items) }
{
    made_of(alloc, plan.start, plan.stations.as_slice())
}

fn made_of(alloc: Global, start: u8, stations: &[StationPlan]) -> Result<Vec<Station>, AllocError>
    requires { All StationFits stations.now }
    ensures { IfOk result (λ made. (plan : PlanData) → plan.start ≡ start → plan.stations ≡ stations.now → StationsBegin plan made.items) }
{
    let mut made = Vec::new(alloc);
    for station in stations {
        let copied = copy_station(alloc, station)?;
        made.push(Station::new(copied, has_address(station, start)))?;
    }
    Ok(made)
}

fn has_address(station: &StationPlan, address: u8) -> bool
    ensures { result ≡ (station.now.terminal.address == address) }
{
    station.terminal.address == address
}

/// The addresses of the stations.
pub fn addresses_of(alloc: Global, stations: &[StationPlan]) -> Result<Vec<u8>, AllocError>
    ensures { IfOk result (λ addresses. addresses.items ≡ map (λ s. s.terminal.address) stations.now) }
{
    let mut addresses = Vec::new(alloc);
    for station in stations {
        addresses.push(station.terminal.address)?;
    }
    Ok(addresses)
}

/// A place for the drive of each of so many stations, which are silent.
pub fn places_for(alloc: Global, count: usize) -> Result<Vec<Drive>, AllocError>
    ensures { IfOk result (λ places. (length places.items ≡ count) × AreSilentBut [] places.items) }
{
    let mut places = Vec::new(alloc);
    'places: while places.len() < count {
        places.push(Drive::Silent)?;
    }
    Ok(places)
}

/// The place of each station's object, if it names a subsystem, in the order of the plan. The addresses 0 to 30 name these subsystems.
pub fn objects_of(
    alloc: Global,
    stations: &[StationPlan],
    named: &[Option<SubsystemKind>],
) -> Result<Vec<Option<usize>>, AllocError>
    requires { All (λ s. s.terminal.address ≤ length named.now) stations.now }
    ensures { IfOk result (λ objects. objects.items ≡ map (object_at named.now) stations.now) }
{
    let mut objects = Vec::new(alloc);
    for station in stations {
        objects.push(object_of(station, named))?;
    }
    Ok(objects)
}

// The place of a station's object, if it names a subsystem.
fn object_of(station: &StationPlan, named: &[Option<SubsystemKind>]) -> Option<usize>
    requires { station.now.terminal.address ≤ length named.now }
    ensures { result ≡ object_at named.now station.now }
{
    if station.terminal.subsystem.is_none() {
        return None;
    }
    Some(count_named(&named[..usize::from(station.terminal.address)]))
}

// How many of these addresses name a subsystem.
fn count_named(named: &[Option<SubsystemKind>]) -> usize
    ensures { result ≡ count_by is_some named.now }
{
    let mut count = 0;
    for subsystem in named {
        if subsystem.is_some() {
            count += 1;
        }
    }
    count
}

/// So many stations that are all present.
pub fn all_present(alloc: Global, count: usize) -> Result<Vec<bool>, AllocError>
    ensures { IfOk result (λ present. present.items ≡ replicate count true) }
{
    let mut present = Vec::new(alloc);
    for _ in 0..count {
        present.push(true)?;
    }
    Ok(present)
}

/// No object for so many stations.
pub fn no_objects(alloc: Global, count: usize) -> Result<Vec<Option<usize>>, AllocError>
    ensures { IfOk result (λ objects. objects.items ≡ replicate count None) }
{
    let mut objects = Vec::new(alloc);
    for _ in 0..count {
        objects.push(None)?;
    }
    Ok(objects)
}

/// The stations before the first tick, with room for so many attempts and for one more of each. The addresses 0 to 30 name these subsystems.
pub fn row_of(
    alloc: Global,
    plan: &Plan,
    named: &[Option<SubsystemKind>],
    most: u64,
) -> Result<StationRow, AllocError>
    requires accepted { IsAccepted plan.now }
    requires named { named.now ≡ named_in plan.now.stations }
    requires fit { All StationFits plan.now.stations }
    requires most { most ≤ 0x8000_0000 }
    ensures { IfOk result (λ row. RowStands most plan.now row []) }
{
    let objects = objects_of(alloc, plan.stations.as_slice(), named)?;
    row_with(alloc, plan, objects, most)
}

/// The stations before the first tick, with these places of their objects.
pub fn row_with(
    alloc: Global,
    plan: &Plan,
    objects: Vec<Option<usize>>,
    most: u64,
) -> Result<StationRow, AllocError>
    requires few { length plan.now.stations ≤ 32 }
    requires fit { All StationFits plan.now.stations }
    requires most { most ≤ 0x8000_0000 }
    ensures { IfOk result (λ row. (w : Setting) → w.plan ≡ plan.now → w.loads ≡ [] → w.outside ≡ [] → w.absent ≡ [] → ObjectsIn w objects.items →
        RowKeeps most w [] 0 row []) }
{
    let stations = stations_of(alloc, plan)?;
    let present = all_present(alloc, plan.stations.len())?;
    let attempts = Vec::with_capacity(alloc, most as usize + 32)?;
    let taken = Vec::with_capacity(alloc, 32)?;
    Ok(StationRow::new(stations, present, attempts, taken, objects))
}

/// The wire with the faults of a plan, on which nothing was driven yet.
pub fn wire_of(alloc: Global, plan: &Plan) -> Result<DrivenWire, AllocError>
    requires { length plan.now.stations ≤ 32 }
    ensures { IfOk result (λ wire. DrivenWireStands plan.now wire []) }
{
    let faults = copy_faults(alloc, plan.faults.as_slice())?;
    let places = places_for(alloc, plan.stations.len())?;
    Ok(DrivenWire::new(faults, places))
}

/// A monitor that heard nothing, with room for what so many attempts show.
pub fn monitor_of(alloc: Global, most: u64) -> Result<Monitor, AllocError>
    requires { most ≤ 0x8000_0000 }
    ensures { IfOk result (λ monitor. MonitorStands (120 * most) (3 * most) monitor []) }
{
    let words = Vec::with_capacity(alloc, 120 * most as usize + 2)?;
    let bursts = Vec::with_capacity(alloc, 3 * most as usize + 2)?;
    Ok(Monitor::new(words, bursts))
}

/// Room for the terminals and their blocks.
pub fn ends_of(alloc: Global, plan: &Plan) -> Result<Ends, AllocError>
    requires { length plan.now.stations ≤ 32 }
    ensures { IfOk result (λ ends. EndsStand plan.now ends) }
{
    let addresses = addresses_of(alloc, plan.stations.as_slice())?;
    let terminals = Vec::with_capacity(alloc, 31 * 32)?;
    let blocks = Vec::with_capacity(alloc, 30 * 31 * 32)?;
    Ok(Ends::new(addresses, terminals, blocks))
}
