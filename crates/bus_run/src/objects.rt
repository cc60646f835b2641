//! The objects behind the terminals: room for deliveries, and a delivery to one of them.
ghost use Rattle.std.specs.Prelude.{◌≡◌, ◌≢◌, ◌≤◌, ◌<◌, ◌+◌, ℕ, map, length, slice_get, All, OnOk, Some};
ghost use Rattle.bus_subsystem.specs.Deliveries.{Takes};
ghost use Rattle.bus_run.specs.Kept.{places_from, HasRoom};
ghost use Rattle.bus_run.specs.Rooms.{KeepRoom};

use crate::kept::place_of;
use bus_formats::{Delivery, SubsystemKind};
use bus_subsystem::Subsystem;
use std::alloc::AllocError;

/// Makes room for so many deliveries in each object that the addresses 0 to 30 name. What the objects tell and say stays, and none loses room,
/// also where there is no memory.
///
/// # Errors
///
/// `AllocError` where there is no memory for them.
pub fn reserve_named(
    subsystems: &mut Vec<Box<dyn Subsystem>>,
    named: &[Option<SubsystemKind>],
    n: usize,
) -> Result<(), AllocError>
    requires places { All (λ place. place < length subsystems.old.items) (places_from 0 named.now) }
    requires named { length named.now ≡ 31 }
    ensures told { map (λ b. told b) subsystems.new.items ≡ map (λ b. told b) subsystems.old.items }
    ensures said { map (λ b. said b) subsystems.new.items ≡ map (λ b. said b) subsystems.old.items }
    ensures spare { KeepRoom (map (λ b. spare b) subsystems.old.items) (map (λ b. spare b) subsystems.new.items) }
    ensures len { length subsystems.new.items ≡ length subsystems.old.items }
    ensures room { OnOk result (All (HasRoom n (map (λ b. spare b) subsystems.new.items)) (places_from 0 named.now)) }
{
    for address in 0..31 {
        if let Some(kind) = named[address] {
            reserve(&mut subsystems[place_of(kind, address)], n)?;
        }
    }
    Ok(())
}

fn reserve(subsystem: &mut Box<dyn Subsystem>, n: usize) -> Result<(), AllocError>
    ensures room { OnOk result (n ≤ spare subsystem.new) }
    ensures spare { spare subsystem.old ≤ spare subsystem.new }
    ensures told { told subsystem.new ≡ told subsystem.old }
    ensures said { said subsystem.new ≡ said subsystem.old }
{
    subsystem.reserve(n)
}

/// The object at the place takes the delivery, and the others stay as they are.
pub fn deliver(subsystems: &mut Vec<Box<dyn Subsystem>>, place: usize, delivery: Delivery)
    requires place { place < length subsystems.old.items }
    requires room { (b : _) → slice_get subsystems.old.items place ≡ Some b → 0 < spare b }
    requires low { 0 < delivery.sub }
    requires high { delivery.sub < 31 }
    ensures len { length subsystems.new.items ≡ length subsystems.old.items }
    ensures others { (k : ℕ) → k ≢ place → slice_get subsystems.new.items k ≡ slice_get subsystems.old.items k }
    ensures told { (b : _) (c : _) → slice_get subsystems.old.items place ≡ Some b →
        slice_get subsystems.new.items place ≡ Some c → Takes (told b) (told c) delivery }
    ensures spare { (b : _) (c : _) → slice_get subsystems.old.items place ≡ Some b →
        slice_get subsystems.new.items place ≡ Some c → spare b ≤ spare c + 1 }
{
    take(&mut subsystems[place], delivery)
}

fn take(subsystem: &mut Box<dyn Subsystem>, delivery: Delivery)
    requires room { 0 < spare subsystem.old }
    requires low { 0 < delivery.sub }
    requires high { delivery.sub < 31 }
    ensures told { Takes (told subsystem.old) (told subsystem.new) delivery }
    ensures spare { spare subsystem.old ≤ spare subsystem.new + 1 }
{
    subsystem.take(delivery)
}
