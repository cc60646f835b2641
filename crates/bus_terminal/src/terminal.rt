//! The terminal that the layer above uses.
ghost use Rattle.std.specs.Prelude.{◌≡◌, ◌<◌, ◌^◌, ◌≤◌, ◌∷◌, ◌++◌, [], ℕ, Bool, List, length, false};
ghost use Rattle.bus_line.specs.declared.cutter.TheConstants.{LAG};
ghost use Rattle.bus_formats.specs.Plans.{TerminalData};
ghost use Rattle.bus_model.specs.Memory.{TimedLoad, first_memory};
ghost use Rattle.bus_model.specs.Hearing.{Hearing, Moment};
ghost use Rattle.bus_model.specs.Standing.{Standing};
ghost use Rattle.bus_model.specs.Terminal.{took_now, accepted_now, accepted_on, drives, memory_after, standing, order_now};
ghost use Rattle.bus_terminal.specs.Stands.{TerminalFits, StateStands, NextStands, TakenIs, AcceptedIs, channel_of};
ghost use Rattle.bus_terminal.specs.TerminalStands.{TerminalStands, TerminalKeeps, TerminalHears, HasLoads};
ghost use Rattle.bus_terminal.specs.Holding.{AreCuts};
ghost use Rattle.bus_receiver.specs.Cuts.{CuttersHear};
ghost use Rattle.bus_terminal.specs.Quiet.{quiet_moments};
ghost use Rattle.bus_terminal.specs.Stands.{AreMade, RestsFrom};
ghost use Rattle.bus_terminal.specs.Shown.{common_of};
ghost use Rattle.bus_terminal.specs.Hearing.{StateHeard, AfterStep};
ghost use Rattle.bus_terminal.specs.Needs as needs;
ghost use Rattle.bus_model.specs.Memory as kept;

use crate::Listening;
use crate::common::{BothHeard, Common, Ears};
use crate::state::{Step, TerminalEvent, TerminalState};
use bus_base::{Drive, Pair, Tick};
use bus_buffers::Buffers;
use bus_formats::{Registers, TerminalPlan};
use bus_orders::status_of;
use bus_receiver::{Cuts, Cutters};
use bus_words::Status;

/// A remote terminal. It hears both channels by its own cutters, or is told what became known of them.
#[derive(Drop)]
pub struct Terminal {
    state: TerminalState,
    cutters: Cutters,
}

impl Terminal {
    /// A terminal that listens: its registers are clear, and its blocks are empty but for the plan's loads. It stands for any number of quiet
    /// ticks.
    pub fn new(plan: TerminalPlan) -> Terminal
        requires fits { TerminalFits LAG plan }
        requires loads { HasLoads plan.loads }
        ensures { (n : ℕ) → TerminalStands LAG plan [] result (record { memory = first_memory plan; ticks = quiet_moments n }) }
    {
        Terminal {
            state: TerminalState::Listening(Listening::new(plan)),
            cutters: Cutters::new(),
        }
    }

    /// Hears what both channels show in the tick `now`, which follows the last tick heard. `may_accept` says that the terminal's station has
    /// items left. It tells the block that it took whole in this tick, or that it accepted control: the end of an answer with acceptance, as long
    /// as a status word at least, is known in this tick (MIL-STD-1553B 4.3.3.5.1.7.1). No tick has both.
    pub fn hear(&mut self, now: Tick, heard: Pair, may_accept: bool) -> TerminalEvent
        requires { (plan : TerminalData) × (loads : List TimedLoad) × (hearing : Hearing) × TerminalStands LAG plan loads self.old hearing
            × (length hearing.ticks ≡ now.0) × (now.0 < 2 ^ 60) }
        ensures stands { (plan : TerminalData) (loads : List TimedLoad) (hearing : Hearing) → TerminalStands LAG plan loads self.old hearing →
            length hearing.ticks ≡ now.0 →
            TerminalStands LAG plan loads self.new (record hearing { ticks = record { shown = heard; has_items = may_accept } ∷ hearing.ticks }) }
        ensures took { (plan : TerminalData) (loads : List TimedLoad) (hearing : Hearing) → TerminalStands LAG plan loads self.old hearing →
            length hearing.ticks ≡ now.0 →
            TakenIs result now.0
            (channel_of (standing LAG plan loads hearing.memory hearing.ticks)
            (order_now LAG plan (record { shown = heard; has_items = may_accept } ∷ hearing.ticks) (standing LAG plan loads hearing.memory hearing.ticks)))
            (took_now LAG plan loads (record hearing { ticks = record { shown = heard; has_items = may_accept } ∷ hearing.ticks })) }
        ensures accepted { (plan : TerminalData) (loads : List TimedLoad) (hearing : Hearing) → TerminalStands LAG plan loads self.old hearing →
            length hearing.ticks ≡ now.0 →
            AcceptedIs result (accepted_now LAG plan loads (record hearing { ticks = record { shown = heard; has_items = may_accept } ∷ hearing.ticks })) }
    {
        let cuts = self.cut(heard);
        self.learn(now, heard, &cuts, may_accept)
    }

    /// What becomes known of both channels, by its own cutters, with what they show in the next tick. Of all else it hears that tick by `learn`.
    #[inline(always)]
    pub fn cut(&mut self, heard: Pair) -> Cuts
        requires { (ticks : List Moment) × TerminalHears LAG self.old ticks × (length ticks < 2 ^ 60) }
        ensures state { self.new.state ≡ self.old.state }
        ensures hears { CuttersHear LAG self.old.cutters self.new.cutters heard result }
    {
        self.cutters.hear(heard)
    }

    /// Hears the tick `now` as `hear` does, where this is what became known of both channels with it. Its own cutters don't hear it.
    #[inline(always)]
    pub fn learn(&mut self, now: Tick, heard: Pair, cuts: &Cuts, may_accept: bool) -> TerminalEvent
        requires { (plan : TerminalData) × (loads : List TimedLoad) × (hearing : Hearing) × TerminalKeeps LAG plan loads self.old hearing
            × AreCuts LAG cuts.now heard hearing.ticks × (length hearing.ticks ≡ now.0) × (now.0 < 2 ^ 60) }
        ensures stands { (plan : TerminalData) (loads : List TimedLoad) (hearing : Hearing) → TerminalKeeps LAG plan loads self.old hearing →
            AreCuts LAG cuts.now heard hearing.ticks → length hearing.ticks ≡ now.0 →
            TerminalKeeps LAG plan loads self.new (record hearing { ticks = record { shown = heard; has_items = may_accept } ∷ hearing.ticks }) }
        ensures took { (plan : TerminalData) (loads : List TimedLoad) (hearing : Hearing) → TerminalKeeps LAG plan loads self.old hearing →
            AreCuts LAG cuts.now heard hearing.ticks → length hearing.ticks ≡ now.0 →
            TakenIs result now.0
            (channel_of (standing LAG plan loads hearing.memory hearing.ticks)
            (order_now LAG plan (record { shown = heard; has_items = may_accept } ∷ hearing.ticks) (standing LAG plan loads hearing.memory hearing.ticks)))
            (took_now LAG plan loads (record hearing { ticks = record { shown = heard; has_items = may_accept } ∷ hearing.ticks })) }
        ensures accepted { (plan : TerminalData) (loads : List TimedLoad) (hearing : Hearing) → TerminalKeeps LAG plan loads self.old hearing →
            AreCuts LAG cuts.now heard hearing.ticks → length hearing.ticks ≡ now.0 →
            AcceptedIs result (accepted_now LAG plan loads (record hearing { ticks = record { shown = heard; has_items = may_accept } ∷ hearing.ticks })) }
        ensures cutters { self.new.cutters ≡ self.old.cutters }
    {
        self.step(now, heard, cuts, may_accept)
    }

    /// Hears the tick `now` as `learn` does, where nothing is handled in it and its state isn't left. Else its ears alone have heard it, and `settle` ends
    /// the tick by what they told.
    #[inline(always)]
    pub fn listen(&mut self, now: Tick, heard: Pair, cuts: &Cuts) -> Step
        requires { (plan : TerminalData) × (loads : List TimedLoad) × (hearing : Hearing) × TerminalKeeps LAG plan loads self.old hearing
            × AreCuts LAG cuts.now heard hearing.ticks × (length hearing.ticks ≡ now.0) × (now.0 < 2 ^ 60) }
        ensures listened { (plan : TerminalData) (loads : List TimedLoad) (hearing : Hearing) (may : Bool) → TerminalKeeps LAG plan loads self.old hearing →
            AreCuts LAG cuts.now heard hearing.ticks → length hearing.ticks ≡ now.0 →
            AfterStep LAG plan loads self.new.state result hearing.ticks (record { shown = heard; has_items = may })
            (standing LAG plan loads hearing.memory hearing.ticks)
            (accepted_on LAG plan loads (record { shown = heard; has_items = may }) hearing.ticks (standing LAG plan loads hearing.memory hearing.ticks)) }
        ensures cutters { self.new.cutters ≡ self.old.cutters }
    {
        self.state.listen(now, heard, cuts)
    }

    /// Ends a tick that its ears heard, in which something is handled or its state is left, and tells of it what `hear` tells.
    #[inline(never)]
    pub fn settle(
        &mut self,
        now: Tick,
        heard: Pair,
        both: BothHeard,
        may_accept: bool,
    ) -> TerminalEvent
        requires { (terminal : TerminalData) × (loads : List TimedLoad) × (past : List Moment) × (moment : Moment) × (s : Standing)
            × StateHeard LAG terminal loads self.old.state both past moment s × (length past ≡ now.0) × (now.0 < 2 ^ 60) }
        ensures next { (terminal : TerminalData) (loads : List TimedLoad) (past : List Moment) (moment : Moment) (s : Standing) →
            StateHeard LAG terminal loads self.old.state both past moment s → length past ≡ now.0 → moment.shown ≡ heard → moment.has_items ≡ may_accept →
            NextStands LAG terminal loads (record { state = self.new.state; event = result }) past moment s (accepted_on LAG terminal loads moment past s) }
        ensures cutters { self.new.cutters ≡ self.old.cutters }
    {
        core::mem::replace_with(
            &mut self.state,
            (now, heard, both, may_accept),
            |state: TerminalState, tick: (Tick, Pair, BothHeard, bool)| {
                let next = state.next(tick.0, tick.1, tick.2, tick.3);
                (next.state, next.event)
            },
        )
    }

    /// What it sends in the next tick.
    pub fn drive(&self) -> Drive
        ensures { (plan : TerminalData) (loads : List TimedLoad) (hearing : Hearing) → TerminalKeeps LAG plan loads self.now hearing →
            result ≡ drives LAG plan loads hearing }
    {
        self.state.drive()
    }

    /// Whether it has to hear each tick: it owes an answer or sends it, it waits for a relay's answer that hasn't begun, or the end of its own
    /// transmission isn't known. Any other terminal is left as it is by a tick with which nothing becomes known, and sends nothing
    /// (`waiting`).
    #[inline(always)]
    pub fn needs_each_tick(&self) -> bool
        ensures { result ≡ needs.needs_each_tick self.now }
    {
        self.state.needs_each_tick()
    }

    /// Its registers.
    pub fn registers(&self) -> &Registers
        ensures { (plan : TerminalData) (loads : List TimedLoad) (hearing : Hearing) → TerminalKeeps LAG plan loads self.now hearing →
            result.now ≡ (memory_after LAG plan loads hearing).registers }
    {
        self.state.common().memory.registers()
    }

    /// Its blocks.
    pub fn buffers(&self) -> &Buffers
        ensures { (plan : TerminalData) (loads : List TimedLoad) (hearing : Hearing) → TerminalKeeps LAG plan loads self.now hearing →
            result.now ≡ record { received = (memory_after LAG plan loads hearing).received; transmit = (memory_after LAG plan loads hearing).transmit } }
    {
        self.state.common().memory.buffers()
    }

    /// Its status word, formed from the registers as they stand, without acceptance.
    pub fn status(&self) -> Status
        requires { (plan : TerminalData) × (loads : List TimedLoad) × (hearing : Hearing) × TerminalKeeps LAG plan loads self.now hearing }
        ensures { (plan : TerminalData) (loads : List TimedLoad) (hearing : Hearing) → TerminalKeeps LAG plan loads self.now hearing →
            result ≡ kept.status_of plan (memory_after LAG plan loads hearing).registers false }
    {
        let common = self.state.common();
        status_of(&common.plan, *common.memory.registers(), false)
    }

    /// It listens as after any number of quiet ticks; what it keeps stays.
    pub fn wake(&mut self)
        ensures { (plan : TerminalData) (loads : List TimedLoad) (hearing : Hearing) (n : ℕ) → TerminalKeeps LAG plan loads self.old hearing →
            AreMade plan.address n loads →
            TerminalStands LAG plan loads self.new (record { memory = memory_after LAG plan loads hearing; ticks = quiet_moments n }) }
    {
        self.cutters = Cutters::new();
        self.rest()
    }

    /// Makes the transmit block of a subaddress, 1 to 29, exactly the words, 1 to 32: a timed load at the last tick heard, or at once where
    /// none was heard.
    pub fn load(&mut self, sub: u8, words: &[u16])
        requires first { 1 ≤ sub }
        requires last { sub ≤ 29 }
        requires some { 1 ≤ length words.now }
        requires fits { length words.now ≤ 32 }
        ensures timed { (plan : TerminalData) (loads : List TimedLoad) (memory : kept.Memory) (now : Moment) (past : List Moment) →
            TerminalKeeps LAG plan loads self.old (record { memory = memory; ticks = now ∷ past }) →
            TerminalKeeps LAG plan (loads ++ record { tick = length past; address = plan.address; sub = sub; words = words.now } ∷ []) self.new
            (record { memory = memory; ticks = now ∷ past }) }
        ensures at_once { (plan : TerminalData) (loads : List TimedLoad) (memory : kept.Memory) →
            TerminalKeeps LAG plan loads self.old (record { memory = memory; ticks = [] }) →
            TerminalKeeps LAG plan loads self.new (record { memory = kept.load_block memory sub words.now; ticks = [] }) }
        ensures cutters { self.new.cutters ≡ self.old.cutters }
    {
        self.state.load(sub, words);
    }

    fn rest(&mut self)
        ensures state { RestsFrom LAG self.new.state (common_of self.old.state) }
        ensures cutters { self.new.cutters ≡ self.old.cutters }
    {
        core::mem::replace_with(
            &mut self.state,
            (),
            |state: TerminalState, unit: ()| (rested(state), unit),
        )
    }

    #[inline(always)]
    fn step(&mut self, now: Tick, heard: Pair, cuts: &Cuts, may_accept: bool) -> TerminalEvent
        requires { (terminal : TerminalData) × (loads : List TimedLoad) × (past : List Moment) × (s : Standing)
            × StateStands LAG terminal loads self.old.state past s × AreCuts LAG cuts.now heard past × (length past ≡ now.0) × (now.0 < 2 ^ 60) }
        ensures next { (terminal : TerminalData) (loads : List TimedLoad) (past : List Moment) (s : Standing) →
            StateStands LAG terminal loads self.old.state past s → AreCuts LAG cuts.now heard past →
            length past ≡ now.0 → NextStands LAG terminal loads (record { state = self.new.state; event = result })
            past (record { shown = heard; has_items = may_accept }) s
            (accepted_on LAG terminal loads (record { shown = heard; has_items = may_accept }) past s) }
        ensures cutters { self.new.cutters ≡ self.old.cutters }
    {
        match self.state.listen(now, heard, cuts) {
            Step::Stays => TerminalEvent::Nothing,
            Step::Changes(both) => self.settle(now, heard, both, may_accept),
        }
    }
}

// The state that listens with fresh ears.
fn rested(state: TerminalState) -> TerminalState
    ensures { RestsFrom LAG result (common_of state) }
{
    let common = match state {
        TerminalState::Listening(state) => state.common,
        TerminalState::Promised(state) => state.common,
        TerminalState::Owing(state) => state.common,
        TerminalState::Answering(state) => state.common,
    };
    let Common { plan, memory, .. } = common;
    TerminalState::Listening(Listening {
        common: Common {
            plan,
            memory,
            ears: Ears::new(),
        },
    })
}
