//! The terminals at the end of a run, and their blocks.
ghost use Rattle.std.specs.Prelude.{◌≡◌, ◌≤◌, ◌<◌, ◌+◌, ◌*◌, ◌++◌, ℕ, List, []};
ghost use Rattle.std.specs.Prelude.{◌∷◌, length, map, flat_map, slice_get, Some, option_to_list, vec_len, vec_capacity};
ghost use Rattle.bus_base.specs.declared.samples.Pair.{Pair};
ghost use Rattle.bus_line.specs.declared.cutter.TheConstants.{LAG};
ghost use Rattle.bus_formats.specs.Plans.{TerminalData, StationData, PlanData};
ghost use Rattle.bus_model.specs.Hearing.{Hearing};
ghost use Rattle.bus_model.specs.Terminal.{memory_after};
ghost use Rattle.bus_model.specs.Message.{Present};
ghost use Rattle.bus_model.specs.Log.{terminals, terminals_at, terminal_end, blocks_of};
ghost use Rattle.bus_model.specs.Starts.{starts};
ghost use Rattle.bus_station.specs.StationStands.{StationKeeps};
ghost use Rattle.bus_model.specs.WorldLog.{presents, present_after};
ghost use Rattle.bus_terminal.specs.TerminalStands.{TerminalKeeps};
ghost use Rattle.bus_run.specs.Parts.{StationsStand};
ghost use Rattle.bus_run.specs.Terminals.{EndsStand, ArePut, so_far, blocks_below, block_of};

use bus_buffers::Buffers;
use bus_formats::{Block, BlockEnd, TerminalEnd};
use bus_station::Station;
use bus_terminal::Terminal;

/// The terminals of the log and their receive blocks, with room for all of them, and the addresses of the stations in the order of the plan.
#[derive(Drop)]
pub struct Ends {
    addresses: Vec<u8>,
    terminals: Vec<TerminalEnd>,
    blocks: Vec<BlockEnd>,
}

impl Ends {
    /// No terminals yet, with room for them and their blocks.
    pub fn new(addresses: Vec<u8>, terminals: Vec<TerminalEnd>, blocks: Vec<BlockEnd>) -> Ends
        requires terminals { terminals.items ≡ [] }
        requires blocks { blocks.items ≡ [] }
        ensures { (plan : PlanData) → addresses.items ≡ map (λ s. s.terminal.address) plan.stations → length plan.stations ≤ 32 →
            992 ≤ vec_capacity terminals → 29760 ≤ vec_capacity blocks → EndsStand plan result }
    {
        Ends {
            addresses,
            terminals,
            blocks,
        }
    }

    /// The terminals of these stations with an address below 31, in order of address, and their receive blocks that aren't empty, by
    /// address, then by subaddress.
    pub fn gather(mut self, stations: &[Station]) -> (Vec<TerminalEnd>, Vec<BlockEnd>)
        requires { (plan : PlanData) × (past : List Pair) × EndsStand plan self × StationsStand plan stations.now past }
        ensures terminals { (plan : PlanData) (past : List Pair) → EndsStand plan self → StationsStand plan stations.now past →
            result.0.items ≡ map terminal_end (terminals (presents LAG plan [] [] [] past)) }
        ensures block_ends { (plan : PlanData) (past : List Pair) → EndsStand plan self → StationsStand plan stations.now past →
            result.1.items ≡ flat_map blocks_of (terminals (presents LAG plan [] [] [] past)) }
    {
        for address in 0..31 {
            self.put_address(address, stations);
        }
        (self.terminals, self.blocks)
    }

    // Puts the terminals with this address.
    fn put_address(&mut self, address: u8, stations: &[Station])
        requires few { length stations.now ≤ 32 }
        requires stand { (plan : PlanData) × (past : List Pair) × StationsStand plan stations.now past
            × (self.old.addresses.items ≡ map (λ s. s.terminal.address) plan.stations) }
        requires terminal_room { vec_len self.old.terminals + 32 ≤ vec_capacity self.old.terminals }
        requires block_room { vec_len self.old.blocks + 960 ≤ vec_capacity self.old.blocks }
        ensures put { (plan : PlanData) (past : List Pair) → self.old.addresses.items ≡ map (λ s. s.terminal.address) plan.stations →
            StationsStand plan stations.now past → ArePut (so_far plan past address 0) self.old → ArePut (so_far plan past (address + 1) 0) self.new }
        ensures addresses { self.new.addresses ≡ self.old.addresses }
        ensures terminals { vec_len self.new.terminals ≤ vec_len self.old.terminals + 32 }
        ensures blocks { vec_len self.new.blocks ≤ vec_len self.old.blocks + 960 }
        ensures terminal_room { vec_capacity self.new.terminals ≡ vec_capacity self.old.terminals }
        ensures block_room { vec_capacity self.new.blocks ≡ vec_capacity self.old.blocks }
    {
        for (place, station) in stations.iter().enumerate() {
            self.put_at(address, place, station);
        }
    }

    // Puts the terminal of the station at a place, if it has this address.
    fn put_at(&mut self, address: u8, place: usize, station: &Station)
        requires place { place < length self.old.addresses.items }
        requires stands { (plan : PlanData) × (s : StationData) × (past : List Pair) × StationKeeps LAG s (starts plan s) [] [] station.now past }
        requires terminal_room { vec_len self.old.terminals < vec_capacity self.old.terminals }
        requires block_room { vec_len self.old.blocks + 30 ≤ vec_capacity self.old.blocks }
        ensures put { (plan : PlanData) (s : StationData) (past : List Pair) (found : List Present) →
            self.old.addresses.items ≡ map (λ s. s.terminal.address) plan.stations →
            slice_get plan.stations place ≡ Some s → StationKeeps LAG s (starts plan s) [] [] station.now past → ArePut found self.old →
            ArePut (found ++ terminals_at (present_after LAG plan [] [] [] past s ∷ []) address) self.new }
        ensures addresses { self.new.addresses ≡ self.old.addresses }
        ensures terminals { vec_len self.new.terminals ≤ vec_len self.old.terminals + 1 }
        ensures blocks { vec_len self.new.blocks ≤ vec_len self.old.blocks + 30 }
        ensures terminal_room { vec_capacity self.new.terminals ≡ vec_capacity self.old.terminals }
        ensures block_room { vec_capacity self.new.blocks ≡ vec_capacity self.old.blocks }
    {
        if self.addresses[place] != address {
            return;
        }
        self.put(address, station.terminal());
    }

    // Puts a terminal and its blocks.
    fn put(&mut self, address: u8, terminal: &Terminal)
        requires stands { (plan : TerminalData) × (hearing : Hearing) × TerminalKeeps LAG plan [] terminal.now hearing }
        requires terminal_room { vec_len self.old.terminals < vec_capacity self.old.terminals }
        requires block_room { vec_len self.old.blocks + 30 ≤ vec_capacity self.old.blocks }
        ensures put { (p : Present) (hearing : Hearing) (found : List Present) →
            TerminalKeeps LAG p.plan.terminal [] terminal.now hearing →
            p.memory ≡ memory_after LAG p.plan.terminal [] hearing → p.plan.terminal.address ≡ address → ArePut found self.old → ArePut
            (found ++ p ∷ []) self.new }
        ensures addresses { self.new.addresses ≡ self.old.addresses }
        ensures terminals { vec_len self.new.terminals ≡ vec_len self.old.terminals + 1 }
        ensures blocks { vec_len self.new.blocks ≤ vec_len self.old.blocks + 30 }
        ensures terminal_room { vec_capacity self.new.terminals ≡ vec_capacity self.old.terminals }
        ensures block_room { vec_capacity self.new.blocks ≡ vec_capacity self.old.blocks }
    {
        let end = TerminalEnd {
            address,
            registers: *terminal.registers(),
            status: terminal.status(),
        };
        self.terminals.push_reserved(end);
        put_blocks(&mut self.blocks, address, terminal.buffers());
    }
}

// Puts the receive blocks of a terminal that aren't empty, by subaddress.
fn put_blocks(blocks: &mut Vec<BlockEnd>, address: u8, buffers: &Buffers)
    requires { vec_len blocks.old + 30 ≤ vec_capacity blocks.old }
    ensures items { blocks.new.items ≡ blocks.old.items ++ blocks_below address buffers.now 30 }
    ensures len { vec_len blocks.new ≤ vec_len blocks.old + 30 }
    ensures room { vec_capacity blocks.new ≡ vec_capacity blocks.old }
{
    for sub in 1..31 {
        put_block(blocks, address, sub, buffers.front(sub));
    }
}

fn put_block(blocks: &mut Vec<BlockEnd>, address: u8, sub: u8, words: &[u16])
    requires room { vec_len blocks.old < vec_capacity blocks.old }
    requires fits { length words.now ≤ 32 }
    ensures items { blocks.new.items ≡ blocks.old.items ++ option_to_list (block_of address sub words.now) }
    ensures len { vec_len blocks.new ≤ vec_len blocks.old + 1 }
    ensures room { vec_capacity blocks.new ≡ vec_capacity blocks.old }
{
    if words.is_empty() {
        return;
    }
    blocks.push_reserved(BlockEnd {
        address,
        sub,
        words: Block::of(words),
    });
}
