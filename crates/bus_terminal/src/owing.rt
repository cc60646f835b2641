//! A terminal that owes an answer, which isn't due yet.
ghost use Rattle.std.specs.Prelude.{◌≡◌, ◌<◌, ◌^◌, ℕ, Bool, List, length};
ghost use Rattle.bus_line.specs.declared.cutter.TheConstants.{LAG};
ghost use Rattle.bus_formats.specs.Plans.{TerminalData};
ghost use Rattle.bus_model.specs.Memory.{TimedLoad};
ghost use Rattle.bus_model.specs.Hearing.{Moment};
ghost use Rattle.bus_model.specs.Standing.{Standing};
ghost use Rattle.bus_model.specs.Terminal.{accepted_on};
ghost use Rattle.bus_terminal.specs.Stands.{OwingStands, NextStands};
ghost use Rattle.bus_terminal.specs.Holding.{AreCuts};
ghost use Rattle.bus_terminal.specs.Hearing.{OwingHeard, AfterStep};
ghost use Rattle.bus_terminal.specs.declared.owing.Owing.{Owing as OwingData};
ghost use Rattle.bus_terminal.specs.Steps.{owing_on};

use crate::Listening;
use crate::common::{BothHeard, Common, either, is_heard};
use crate::handling::{found, is_found};
use crate::state::{Sends, Step, TerminalEvent, TerminalNext, TerminalState, act, due, owe};
use bus_base::{Pair, Tick};
use bus_receiver::Cuts;

/// Its answer begins after its own dead ticks, 4 to 20: fewer passed since the end of the burst that it answers (response time, MIL-STD-1553B
/// 4.3.3.8). Left when the answer is due, at a sample on its channel, or at a newer command on the other (4.4.3.2).
#[derive(Drop)]
pub struct Owing {
    pub(crate) common: Common,
    pub(crate) sends: Sends,
}

impl Owing {
    /// Hears what both channels show in the tick `now`, the number of the ticks heard before, and what became known with it. `may_accept` says that the terminal's station has
    /// items left. Whatever history it stands for, the next state stands for it with this tick, and it tells the block that was taken whole in the
    /// tick, or that control was accepted.
    pub fn hear(mut self, now: Tick, heard: Pair, cuts: &Cuts, may_accept: bool) -> TerminalNext
        requires { (terminal : TerminalData) × (loads : List TimedLoad) × (past : List Moment) × (s : Standing)
            × OwingStands LAG terminal loads self past s × AreCuts LAG cuts.now heard past × (length past ≡ now.0) × (now.0 < 2 ^ 60) }
        ensures { (terminal : TerminalData) (loads : List TimedLoad) (past : List Moment) (s : Standing) →
            OwingStands LAG terminal loads self past s → AreCuts LAG cuts.now heard past → length past ≡ now.0 →
            NextStands LAG terminal loads result past (record { shown = heard; has_items = may_accept }) s
            (accepted_on LAG terminal loads (record { shown = heard; has_items = may_accept }) past s) }
    {
        match self.listen(now, heard, cuts) {
            Step::Stays => TerminalNext {
                state: TerminalState::Owing(self),
                event: TerminalEvent::Nothing,
            },
            Step::Changes(both) => self.next(now, heard, both, may_accept),
        }
    }

    /// Hears what both channels show in the tick `now`, the number of the ticks heard before, and what became known with it, and stays unless something is handled or it is left.
    #[inline(always)]
    pub(crate) fn listen(&mut self, now: Tick, heard: Pair, cuts: &Cuts) -> Step
        requires { (terminal : TerminalData) × (loads : List TimedLoad) × (past : List Moment) × (s : Standing) × OwingStands LAG terminal loads self.old past s
            × AreCuts LAG cuts.now heard past × (length past ≡ now.0) × (now.0 < 2 ^ 60) }
        ensures { (terminal : TerminalData) (loads : List TimedLoad) (past : List Moment) (s : Standing) (may : Bool) →
            OwingStands LAG terminal loads self.old past s → AreCuts LAG cuts.now heard past → length past ≡ now.0 →
            AfterStep LAG terminal loads (TerminalState.Owing self.new) result past (record { shown = heard; has_items = may }) s
            (accepted_on LAG terminal loads (record { shown = heard; has_items = may }) past s) }
    {
        let both = self.common.listen(now.0, heard, cuts, None);
        let handled = is_found(&self.common.ears, both, &None, false);
        let newer = self
            .common
            .ears
            .supersede(self.sends.channel, self.sends.end);
        let dropped = is_heard(heard, self.sends.channel);
        let is_due = now.0 + 1 >= due(&self.common.plan, self.sends.end);
        let left = either(either(newer, dropped), is_due);
        Step::of(either(handled, left), both)
    }

    /// The state after the tick `now`, which its ears have heard. `may_accept` says that the terminal's station has items left.
    #[inline(never)]
    pub(crate) fn next(
        self,
        now: Tick,
        heard: Pair,
        both: BothHeard,
        may_accept: bool,
    ) -> TerminalNext
        requires { (terminal : TerminalData) × (loads : List TimedLoad) × (before : OwingData) × (past : List Moment) × (moment : Moment) × (s : Standing)
            × OwingHeard LAG terminal loads before self both past moment s × (length past ≡ now.0) × (now.0 < 2 ^ 60) }
        ensures { (terminal : TerminalData) (loads : List TimedLoad) (before : OwingData) (past : List Moment) (moment : Moment) (s : Standing) →
            OwingHeard LAG terminal loads before self both past moment s → length past ≡ now.0 → moment.shown ≡ heard → moment.has_items ≡ may_accept →
            NextStands LAG terminal loads result past moment s (accepted_on LAG terminal loads moment past s) }
    {
        let mut common = self.common;
        let sends = self.sends;
        let listened = common.tell(both);
        match found(listened, None, false) {
            Some(handled) => act(common, now.0, handled, may_accept),
            None => {
                let newer = common.ears.supersede(sends.channel, sends.end);
                let dropped = is_heard(heard, sends.channel);
                TerminalNext {
                    state: owe_on(common, now.0 + 1, sends, dropped, newer),
                    event: TerminalEvent::Nothing,
                }
            }
        }
    }
}

// The answer is dropped by a sample on its channel, or by a newer command on the other.
fn owe_on(common: Common, next: u64, sends: Sends, heard: bool, newer: bool) -> TerminalState
    requires { sends.end < 2 ^ 60 }
    ensures { result ≡ owing_on common next sends heard newer }
{
    if heard || newer {
        TerminalState::Listening(Listening { common })
    } else {
        owe(common, next, sends)
    }
}
