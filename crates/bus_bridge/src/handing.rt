//! How blocks are handed on from one bus to the other.
ghost use Rattle.std.specs.Prelude.{◌≡◌, ◌≤◌, ◌+◌, ◌++◌, ℕ, suc, List, [], ◌∷◌, length, flat_map, option_to_list, vec_capacity};
ghost use Rattle.std.specs.List.{AllByRecursion as Each};
ghost use Rattle.bus_base.specs.declared.samples.Drive.{Drive};
ghost use Rattle.bus_base.specs.declared.samples.Pair.{Pair};
ghost use Rattle.bus_line.specs.declared.cutter.TheConstants.{LAG};
ghost use Rattle.bus_formats.specs.Accepted.{AreWords};
ghost use Rattle.bus_formats.specs.Plans.{PlanData};
ghost use Rattle.bus_formats.specs.declared.log.Attempt.{Attempt};
ghost use Rattle.bus_model.specs.Memory.{TimedLoad};
ghost use Rattle.bus_model.specs.Outside.{load_by};
ghost use Rattle.bus_model.specs.World.{world};
ghost use Rattle.bus_law_plans.specs.Memories.{IsBlock};
ghost use Rattle.bus_run.specs.Deliveries.{taken_in};
ghost use Rattle.bus_run.specs.Joined.{JoinedStands};
ghost use Rattle.bus_bridge.specs.Ranges.{Sends, AllSend};
ghost use Rattle.bus_bridge.specs.Runs.{RunsWith, HasRoom, with_loads};
ghost use Rattle.bus_bridge.specs.Worlds.{handed_on, pairing_of, loads_of};
ghost use Rattle.bus_bridge.specs.Worlds as spec;

use crate::pairings::Pairing;
use bus_formats::{Block, Delivery};
use bus_run::{JoinedBus, TakenBlock};

/// Runs a tick of a bus over the blocks that were loaded so far, where there is room for what it brings.
pub fn next_tick(bus: &mut JoinedBus)
    requires { (plan : PlanData) × (loads : List TimedLoad) × (t : ℕ) × RunsWith plan loads t bus.old × HasRoom plan loads t }
    ensures stands { (plan : PlanData) (loads : List TimedLoad) (t : ℕ) → RunsWith plan loads t bus.old → RunsWith plan loads (suc t) bus.new }
    ensures taken { (plan : PlanData) (loads : List TimedLoad) (t : ℕ) → RunsWith plan loads t bus.old →
        bus.new.row.taken.items ≡ taken_in (with_loads plan loads) (world LAG plan loads [] [] (suc t)) }
{
    let _ = bus.tick();
}

/// Adds the blocks that are to be handed on of those that were taken, for which there is room: those of the terminal with this address on the
/// subaddresses of the pairings.
pub fn keep_taken(blocks: &[TakenBlock], address: u8, pairs: &[Pairing], taken: &mut Vec<Delivery>)
    requires { length taken.old.items + length (flat_map (handed_on address pairs.now) blocks.now) ≤ vec_capacity taken.old }
    ensures items { taken.new.items ≡ taken.old.items ++ flat_map (handed_on address pairs.now) blocks.now }
    ensures capacity { vec_capacity taken.new ≡ vec_capacity taken.old }
    ensures blocks { Each (λ d. IsBlock d.words) taken.old.items → Each (λ d. IsBlock d.words) taken.new.items }
{
    for block in blocks {
        keep_one(block, address, pairs, taken);
    }
}

fn keep_one(block: &TakenBlock, address: u8, pairs: &[Pairing], taken: &mut Vec<Delivery>)
    requires { length taken.old.items + length (handed_on address pairs.now block.now) ≤ vec_capacity taken.old }
    ensures items { taken.new.items ≡ taken.old.items ++ handed_on address pairs.now block.now }
    ensures capacity { vec_capacity taken.new ≡ vec_capacity taken.old }
    ensures blocks { Each (λ d. IsBlock d.words) taken.old.items → Each (λ d. IsBlock d.words) taken.new.items }
{
    if block.address == address && is_paired(pairs, block.delivery.sub) {
        taken.push_reserved(copied(&block.delivery));
    }
}

// Whether a pairing names this subaddress of the first terminal.
fn is_paired(pairs: &[Pairing], sub: u8) -> bool
    ensures { result ≡ spec.is_paired pairs.now sub }
{
    for pairing in pairs {
        if pairing.from == sub {
            return true;
        }
    }
    false
}

fn copied(delivery: &Delivery) -> Delivery
    ensures value { result ≡ delivery.now }
    ensures block { IsBlock result.words }
{
    Delivery {
        tick: delivery.tick,
        channel: delivery.channel,
        sub: delivery.sub,
        broadcast: delivery.broadcast,
        words: copied_words(delivery.words.words()),
    }
}

// The words once more. Each is read, so each is known to have sixteen bits.
fn copied_words(words: &[u16]) -> Block
    requires { length words.now ≤ 32 }
    ensures value { result ≡ words.now }
    ensures words { AreWords words.now }
{
    let mut copied = Block::new();
    for word in words {
        let _ = copied.push(*word);
    }
    copied
}

/// Puts a block up for sending that was taken in the newest tick: in the terminals with this address, from the subaddress of each pairing that names
/// its own.
pub fn load_all(delivery: &Delivery, address: u8, pairs: &[Pairing], bus: &mut JoinedBus)
    requires some { 1 ≤ length delivery.now.words }
    requires send { AllSend pairs.now }
    requires stands { (plan : PlanData) × (loads : List TimedLoad) × (found : List Attempt) × (count : ℕ) × (shown : Pair) × (past : List Pair)
        × (driven : List (List Drive)) × (length past ≡ delivery.now.tick.0) × JoinedStands (with_loads plan loads) found count (record { shown = shown ∷ past; driven = driven }) bus.old }
    ensures { (plan : PlanData) (loads : List TimedLoad) (found : List Attempt) (count : ℕ) (shown : Pair) (past : List Pair)
        (driven : List (List Drive)) → length past ≡ delivery.now.tick.0 →
        JoinedStands (with_loads plan loads) found count (record { shown = shown ∷ past; driven = driven }) bus.old →
        JoinedStands (with_loads plan (loads ++ loads_of address pairs.now delivery.now)) found count (record { shown = shown ∷ past; driven = driven })
        bus.new }
{
    for pairing in pairs {
        load_one(delivery, address, *pairing, bus);
    }
}

fn load_one(delivery: &Delivery, address: u8, pairing: Pairing, bus: &mut JoinedBus)
    requires some { 1 ≤ length delivery.now.words }
    requires sends { Sends pairing }
    requires stands { (plan : PlanData) × (loads : List TimedLoad) × (found : List Attempt) × (count : ℕ) × (shown : Pair) × (past : List Pair)
        × (driven : List (List Drive)) × JoinedStands (with_loads plan loads) found count (record { shown = shown ∷ past; driven = driven }) bus.old }
    ensures { (plan : PlanData) (loads : List TimedLoad) (found : List Attempt) (count : ℕ) (shown : Pair) (past : List Pair)
        (driven : List (List Drive)) → length past ≡ delivery.now.tick.0 →
        JoinedStands (with_loads plan loads) found count (record { shown = shown ∷ past; driven = driven }) bus.old →
        JoinedStands (with_loads plan (loads ++ option_to_list (load_by address delivery.now (pairing_of pairing)))) found count
        (record { shown = shown ∷ past; driven = driven }) bus.new }
{
    if pairing.from == delivery.sub {
        bus.load(address, pairing.to, delivery.words.words());
    }
}
