//! A terminal that owes nothing.
ghost use Rattle.std.specs.Prelude.{◌≡◌, ◌<◌, ◌^◌, ℕ, Bool, List, [], length};
ghost use Rattle.bus_line.specs.declared.cutter.TheConstants.{LAG};
ghost use Rattle.bus_formats.specs.Plans.{TerminalData};
ghost use Rattle.bus_model.specs.Memory.{TimedLoad, first_memory, clear_registers, no_blocks, loaded};
ghost use Rattle.bus_model.specs.Hearing.{Moment};
ghost use Rattle.bus_model.specs.Standing.{Standing};
ghost use Rattle.bus_model.specs.Terminal.{accepted_on, standing};
ghost use Rattle.bus_terminal.specs.Quiet.{quiet_moments};
ghost use Rattle.bus_terminal.specs.Stands.{TerminalFits, ListeningStands, NextStands};
ghost use Rattle.bus_terminal.specs.TerminalStands.{HasLoads};
ghost use Rattle.bus_terminal.specs.Holding.{AreCuts};
ghost use Rattle.bus_terminal.specs.Hearing.{ListeningHeard, AfterStep};
ghost use Rattle.bus_terminal.specs.declared.listening.Listening.{Listening as ListeningData};

use crate::common::{BothHeard, Common, Ears};
use crate::handling::{found, is_found};
use crate::state::{Step, TerminalEvent, TerminalNext, TerminalState, act};
use bus_base::{Pair, Tick};
use bus_formats::{Load, TerminalPlan};
use bus_orders::Memory;
use bus_receiver::Cuts;

/// It owes nothing: it waits for a command. What its last order left was carried out, given up, or taken back by a newer command on the other
/// channel (MIL-STD-1553B 4.4.3.1, 4.4.3.2). A command that is answered or promises something leaves it, in the tick in which its burst's end is
/// known.
#[derive(Drop)]
pub struct Listening {
    pub(crate) common: Common,
}

impl Listening {
    /// Registers that are clear, and blocks that are empty but for the plan's loads. It stands for any number of quiet ticks.
    pub fn new(plan: TerminalPlan) -> Listening
        requires fits { TerminalFits LAG plan }
        requires loads { HasLoads plan.loads }
        ensures { (n : ℕ) → ListeningStands LAG plan [] result (quiet_moments n) (standing LAG plan [] (first_memory plan) (quiet_moments n)) }
    {
        let memory = loaded_memory(&plan.loads);
        Listening {
            common: Common {
                plan,
                memory,
                ears: Ears::new(),
            },
        }
    }

    /// Hears what both channels show in the tick `now`, the number of the ticks heard before, and what became known with it. `may_accept` says that the terminal's station has
    /// items left. Whatever history it stands for, the next state stands for it with this tick, and it tells the block that was taken whole in the
    /// tick, or that control was accepted.
    pub fn hear(mut self, now: Tick, heard: Pair, cuts: &Cuts, may_accept: bool) -> TerminalNext
        requires { (terminal : TerminalData) × (loads : List TimedLoad) × (past : List Moment) × (s : Standing)
            × ListeningStands LAG terminal loads self past s × AreCuts LAG cuts.now heard past × (length past ≡ now.0) × (now.0 < 2 ^ 60) }
        ensures { (terminal : TerminalData) (loads : List TimedLoad) (past : List Moment) (s : Standing) →
            ListeningStands LAG terminal loads self past s → AreCuts LAG cuts.now heard past → length past ≡ now.0 →
            NextStands LAG terminal loads result past (record { shown = heard; has_items = may_accept }) s
            (accepted_on LAG terminal loads (record { shown = heard; has_items = may_accept }) past s) }
    {
        match self.listen(now, heard, cuts) {
            Step::Stays => TerminalNext {
                state: TerminalState::Listening(self),
                event: TerminalEvent::Nothing,
            },
            Step::Changes(both) => self.next(now, both, may_accept),
        }
    }

    /// Hears what both channels show in the tick `now`, the number of the ticks heard before, and what became known with it, and stays unless something is handled or it is left.
    #[inline(always)]
    pub(crate) fn listen(&mut self, now: Tick, heard: Pair, cuts: &Cuts) -> Step
        requires { (terminal : TerminalData) × (loads : List TimedLoad) × (past : List Moment) × (s : Standing)
            × ListeningStands LAG terminal loads self.old past s × AreCuts LAG cuts.now heard past × (length past ≡ now.0) × (now.0 < 2 ^ 60) }
        ensures { (terminal : TerminalData) (loads : List TimedLoad) (past : List Moment) (s : Standing) (may : Bool) →
            ListeningStands LAG terminal loads self.old past s → AreCuts LAG cuts.now heard past → length past ≡ now.0 →
            AfterStep LAG terminal loads (TerminalState.Listening self.new) result past (record { shown = heard; has_items = may }) s
            (accepted_on LAG terminal loads (record { shown = heard; has_items = may }) past s) }
    {
        let both = self.common.listen(now.0, heard, cuts, None);
        Step::of(is_found(&self.common.ears, both, &None, false), both)
    }

    /// The state after the tick `now`, which its ears have heard. `may_accept` says that the terminal's station has items left.
    #[inline(never)]
    pub(crate) fn next(self, now: Tick, both: BothHeard, may_accept: bool) -> TerminalNext
        requires { (terminal : TerminalData) × (loads : List TimedLoad) × (before : ListeningData) × (past : List Moment) × (moment : Moment) × (s : Standing)
            × ListeningHeard LAG terminal loads before self both past moment s × (length past ≡ now.0) × (now.0 < 2 ^ 60) }
        ensures { (terminal : TerminalData) (loads : List TimedLoad) (before : ListeningData) (past : List Moment) (moment : Moment) (s : Standing) →
            ListeningHeard LAG terminal loads before self both past moment s → length past ≡ now.0 → moment.has_items ≡ may_accept →
            NextStands LAG terminal loads result past moment s (accepted_on LAG terminal loads moment past s) }
    {
        let mut common = self.common;
        let listened = common.tell(both);
        match found(listened, None, false) {
            Some(handled) => act(common, now.0, handled, may_accept),
            None => TerminalNext {
                state: TerminalState::Listening(Listening { common }),
                event: TerminalEvent::Nothing,
            },
        }
    }
}

// Clear registers, and empty blocks but for these loads.
fn loaded_memory(loads: &Vec<Load>) -> Memory
    requires { HasLoads loads.now.items }
    ensures { result ≡ record { registers = clear_registers; received = no_blocks; transmit = loaded no_blocks loads.now.items } }
{
    let mut memory = Memory::new();
    put_up(&mut memory, loads.as_slice());
    memory
}

fn put_up(memory: &mut Memory, loads: &[Load])
    requires { HasLoads loads.now }
    ensures { memory.new ≡ record memory.old { transmit = loaded memory.old.transmit loads.now } }
{
    for load in loads {
        memory.load(load.sub, load.words.words());
    }
}
