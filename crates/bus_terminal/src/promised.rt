//! A relay's receiver that promised to take what the transmitter answers.
ghost use Rattle.std.specs.Prelude.{◌≡◌, ◌<◌, ◌^◌, ◌+◌, ◌==◌, ◌&&◌, ◌||◌, not, ℕ, Bool, List, length};
ghost use Rattle.bus_line.specs.declared.cutter.TheConstants.{LAG};
ghost use Rattle.bus_formats.specs.Plans.{TerminalData};
ghost use Rattle.bus_formats.specs.Times.{relay_wait};
ghost use Rattle.bus_model.specs.Memory.{TimedLoad};
ghost use Rattle.bus_model.specs.Hearing.{Moment};
ghost use Rattle.bus_model.specs.Standing.{Standing};
ghost use Rattle.bus_model.specs.Terminal.{accepted_on};
ghost use Rattle.bus_terminal.specs.Stands.{PromisedStands, NextStands};
ghost use Rattle.bus_terminal.specs.Holding.{AreCuts};
ghost use Rattle.bus_terminal.specs.Hearing.{PromisedHeard, AfterStep};
ghost use Rattle.bus_terminal.specs.declared.promised.Promised.{Promised as PromisedData};
ghost use Rattle.bus_terminal.specs.Steps.{promised_on_told};

use crate::Listening;
use crate::common::{BothHeard, Common, either, is_heard};
use crate::handling::{Waiting, found, is_found};
use crate::state::{Step, TerminalEvent, TerminalNext, TerminalState, act};
use bus_base::{Pair, Tick};
use bus_formats::RELAY_WAIT;
use bus_orders::Promise;
use bus_receiver::Cuts;

/// It takes the next burst on the promise's channel, if that begins after at most 30 dead ticks. At most 30 passed since the end of the relay's
/// command burst, or the awaited burst runs (terminal to terminal transfers, MIL-STD-1553B 4.3.3.6.3, 4.3.3.6.7.2). Left in the tick in which that
/// burst's end is known, at the 31st quiet tick, or at a newer command on the other channel (4.4.3.2).
#[derive(Drop)]
pub struct Promised {
    pub(crate) common: Common,
    pub(crate) waiting: Waiting,
    // something was heard on the channel since the relay's command burst
    pub(crate) heard: bool,
}

impl Promised {
    /// Hears what both channels show in the tick `now`, the number of the ticks heard before, and what became known with it. `may_accept` says that the terminal's station has
    /// items left. Whatever history it stands for, the next state stands for it with this tick, and it tells the block that was taken whole in the
    /// tick, or that control was accepted.
    pub fn hear(mut self, now: Tick, heard: Pair, cuts: &Cuts, may_accept: bool) -> TerminalNext
        requires { (terminal : TerminalData) × (loads : List TimedLoad) × (past : List Moment) × (s : Standing)
            × PromisedStands LAG terminal loads self past s × AreCuts LAG cuts.now heard past × (length past ≡ now.0) × (now.0 < 2 ^ 60) }
        ensures { (terminal : TerminalData) (loads : List TimedLoad) (past : List Moment) (s : Standing) →
            PromisedStands LAG terminal loads self past s → AreCuts LAG cuts.now heard past → length past ≡ now.0 →
            NextStands LAG terminal loads result past (record { shown = heard; has_items = may_accept }) s
            (accepted_on LAG terminal loads (record { shown = heard; has_items = may_accept }) past s) }
    {
        match self.listen(now, heard, cuts) {
            Step::Stays => TerminalNext {
                state: TerminalState::Promised(self),
                event: TerminalEvent::Nothing,
            },
            Step::Changes(both) => self.next(now, both, may_accept),
        }
    }

    /// Hears what both channels show in the tick `now`, the number of the ticks heard before, and what became known with it, and stays unless something is handled or it is left.
    #[inline(always)]
    pub(crate) fn listen(&mut self, now: Tick, heard: Pair, cuts: &Cuts) -> Step
        requires { (terminal : TerminalData) × (loads : List TimedLoad) × (past : List Moment) × (s : Standing)
            × PromisedStands LAG terminal loads self.old past s × AreCuts LAG cuts.now heard past × (length past ≡ now.0) × (now.0 < 2 ^ 60) }
        ensures { (terminal : TerminalData) (loads : List TimedLoad) (past : List Moment) (s : Standing) (may : Bool) →
            PromisedStands LAG terminal loads self.old past s → AreCuts LAG cuts.now heard past → length past ≡ now.0 →
            AfterStep LAG terminal loads (TerminalState.Promised self.new) result past (record { shown = heard; has_items = may }) s
            (accepted_on LAG terminal loads (record { shown = heard; has_items = may }) past s) }
    {
        let both = self.common.listen(now.0, heard, cuts, None);
        self.heard = either(self.heard, is_heard(heard, self.waiting.channel));
        let out = runs_out(now.0, self.waiting.end, self.heard);
        let handled = is_found(&self.common.ears, both, &Some(self.waiting), out);
        let newer = self
            .common
            .ears
            .supersede(self.waiting.channel, self.waiting.end);
        Step::of(either(handled, newer), both)
    }

    /// The state after the tick `now`, which its ears have heard. `may_accept` says that the terminal's station has items left.
    #[inline(never)]
    pub(crate) fn next(self, now: Tick, both: BothHeard, may_accept: bool) -> TerminalNext
        requires { (terminal : TerminalData) × (loads : List TimedLoad) × (before : PromisedData) × (past : List Moment) × (moment : Moment) × (s : Standing)
            × PromisedHeard LAG terminal loads before self both past moment s × (length past ≡ now.0) × (now.0 < 2 ^ 60) }
        ensures { (terminal : TerminalData) (loads : List TimedLoad) (before : PromisedData) (past : List Moment) (moment : Moment) (s : Standing) →
            PromisedHeard LAG terminal loads before self both past moment s → length past ≡ now.0 → moment.has_items ≡ may_accept →
            NextStands LAG terminal loads result past moment s (accepted_on LAG terminal loads moment past s) }
    {
        let mut common = self.common;
        let waiting = self.waiting;
        let out = runs_out(now.0, waiting.end, self.heard);
        let listened = common.tell(both);
        match found(listened, Some(again(&waiting)), out) {
            Some(handled) => act(common, now.0, handled, may_accept),
            None => {
                let newer = common.ears.supersede(waiting.channel, waiting.end);
                TerminalNext {
                    state: wait_on(common, waiting, self.heard, newer),
                    event: TerminalEvent::Nothing,
                }
            }
        }
    }
}

// The same promise.
fn again(waiting: &Waiting) -> Waiting
    ensures { result ≡ waiting.now }
{
    Waiting {
        channel: waiting.channel,
        end: waiting.end,
        promise: Promise {
            command: waiting.promise.command,
            transmitter: waiting.promise.transmitter,
        },
    }
}

// The 31st dead tick was quiet, as all before it.
fn runs_out(now: u64, end: u64, heard: bool) -> bool
    requires { end < 2 ^ 60 }
    ensures { result ≡ ((now == (end + relay_wait)) && not heard) }
{
    now == end + RELAY_WAIT && !heard
}

// The promise stands until a newer command comes on the other channel.
fn wait_on(common: Common, waiting: Waiting, heard: bool, newer: bool) -> TerminalState
    ensures { result ≡ promised_on_told common waiting heard newer }
{
    if newer {
        TerminalState::Listening(Listening { common })
    } else {
        TerminalState::Promised(Promised {
            common,
            waiting,
            heard,
        })
    }
}
