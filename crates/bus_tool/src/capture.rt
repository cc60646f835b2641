//! The capture of a plan's run, written while the bus ticks.
ghost use Rattle.std.specs.Prelude.{◌≡◌, List, [], map, Option};
ghost use Rattle.bus_formats.specs.Plans.{PlanData};
ghost use Rattle.bus_formats.specs.declared.log.Delivery.{Delivery};
ghost use Rattle.bus_run.specs.Deliveries.{Serves};
ghost use Rattle.bus_run.specs.Stands.{BusStands};
ghost use Rattle.bus_outside.specs.Causes.{HasCause};
ghost use Rattle.bus_tool.specs.Captured.{Captured};

use crate::capture_writer::CaptureWriter;
use bus_outside::{Failed, Sink};
use bus_run::{Bus, FinishedBus};
use bus_subsystem::Subsystem;

/// Runs a bus to its end and writes the capture of its run, one write a line; what the run leaves, or that a write failed.
pub fn write_capture<K: Sink>(
    mut bus: Bus,
    sink: &mut K,
    subsystems: &mut Vec<Box<dyn Subsystem>>,
) -> Result<FinishedBus, Failed>
    requires { (plan : PlanData) × (before : List (Option (List Delivery))) × BusStands plan 0 bus
        × Serves plan before [] (map (λ b. told b) subsystems.old.items) (map (λ b. spare b) subsystems.old.items) }
    ensures captured { (plan : PlanData) (before : List (Option (List Delivery))) → BusStands plan 0 bus →
        Serves plan before [] (map (λ b. told b) subsystems.old.items) (map (λ b. spare b) subsystems.old.items) →
        Captured plan (K.held sink.old) (K.held sink.new) result }
    ensures cause { HasCause (K.faults sink.old) (K.faults sink.new) result }
{
    sink.write(b"1553 capture 1\n")?;
    let mut writer = CaptureWriter::new();
    'ticks: while let Some(shown) = bus.tick(subsystems) {
        writer.take(shown, sink)?;
    }
    writer.end(sink)?;
    Ok(bus.finish(subsystems))
}
