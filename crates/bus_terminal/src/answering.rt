//! A terminal whose answer runs.
ghost use Rattle.std.specs.Prelude.{◌≡◌, ◌<◌, ◌^◌, ◌+◌, ◌==◌, ◌≤◌, ◌&&◌, ℕ, Bool, List, length};
ghost use Rattle.bus_line.specs.declared.cutter.TheConstants.{LAG};
ghost use Rattle.bus_formats.specs.Plans.{TerminalData};
ghost use Rattle.bus_model.specs.Memory.{TimedLoad};
ghost use Rattle.bus_model.specs.Hearing.{Moment};
ghost use Rattle.bus_model.specs.Sending.{drive_sample};
ghost use Rattle.bus_model.specs.Sending as sending;
ghost use Rattle.bus_model.specs.Standing.{Standing};
ghost use Rattle.bus_model.specs.Terminal.{accepted_on, drive_of};
ghost use Rattle.bus_terminal.specs.Stands.{AnsweringStands, NextStands};
ghost use Rattle.bus_terminal.specs.Holding.{AreCuts};
ghost use Rattle.bus_terminal.specs.Hearing.{AnsweringHeard, AfterStep};
ghost use Rattle.bus_terminal.specs.declared.answering.Answering.{Answering as AnsweringData};
ghost use Rattle.bus_terminal.specs.Steps.{answering_on, begins_told, acceptance_told};
ghost use Rattle.bus_terminal.specs.Steps as told;

use crate::Listening;
use crate::common::{BothHeard, Common, Listened, either};
use crate::handling::{found, is_found};
use crate::state::{Sends, Step, TerminalEvent, TerminalNext, TerminalState, act};
use bus_base::{Channel, Drive, Pair, Part, Tick};
use bus_ears::HeardBurst;
use bus_line::sample_of;
use bus_receiver::Cuts;
use bus_words::Word;

/// Its answer began `sent` ticks ago, or begins in the next tick: its own dead ticks passed (response time, MIL-STD-1553B 4.3.3.8), and since the
/// answer's first tick its channel wasn't quiet for four ticks in a row. Left at the fourth quiet tick in a row there, or at a newer command on
/// the other channel (4.4.3.2).
#[derive(Drop)]
pub struct Answering {
    pub(crate) common: Common,
    pub(crate) sends: Sends,
    pub(crate) sent: u64,
}

impl Answering {
    /// Hears what both channels show in the tick `now`, the number of the ticks heard before, and what became known with it. `may_accept` says that the terminal's station has
    /// items left. Whatever history it stands for, the next state stands for it with this tick, and it tells the block that was taken whole in the
    /// tick, or that control was accepted.
    pub fn hear(mut self, now: Tick, heard: Pair, cuts: &Cuts, may_accept: bool) -> TerminalNext
        requires { (terminal : TerminalData) × (loads : List TimedLoad) × (past : List Moment) × (s : Standing)
            × AnsweringStands LAG terminal loads self past s × AreCuts LAG cuts.now heard past × (length past ≡ now.0) × (now.0 < 2 ^ 60) }
        ensures { (terminal : TerminalData) (loads : List TimedLoad) (past : List Moment) (s : Standing) →
            AnsweringStands LAG terminal loads self past s → AreCuts LAG cuts.now heard past → length past ≡ now.0 →
            NextStands LAG terminal loads result past (record { shown = heard; has_items = may_accept }) s
            (accepted_on LAG terminal loads (record { shown = heard; has_items = may_accept }) past s) }
    {
        match self.listen(now, heard, cuts) {
            Step::Stays => TerminalNext {
                state: TerminalState::Answering(self),
                event: TerminalEvent::Nothing,
            },
            Step::Changes(both) => self.next(now, both, may_accept),
        }
    }

    /// Hears what both channels show in the tick `now`, the number of the ticks heard before, and what became known with it, and stays unless something is handled or it is left.
    #[inline(always)]
    pub(crate) fn listen(&mut self, now: Tick, heard: Pair, cuts: &Cuts) -> Step
        requires { (terminal : TerminalData) × (loads : List TimedLoad) × (past : List Moment) × (s : Standing)
            × AnsweringStands LAG terminal loads self.old past s × AreCuts LAG cuts.now heard past × (length past ≡ now.0) × (now.0 < 2 ^ 60) }
        ensures { (terminal : TerminalData) (loads : List TimedLoad) (past : List Moment) (s : Standing) (may : Bool) →
            AnsweringStands LAG terminal loads self.old past s → AreCuts LAG cuts.now heard past → length past ≡ now.0 →
            AfterStep LAG terminal loads (TerminalState.Answering self.new) result past (record { shown = heard; has_items = may }) s
            (accepted_on LAG terminal loads (record { shown = heard; has_items = may }) past s) }
    {
        let begins = begins_in(self.sent, self.sends.channel);
        let both = self.common.listen(now.0, heard, cuts, begins);
        let handled = is_found(&self.common.ears, both, &None, false);
        let newer = self
            .common
            .ears
            .supersede(self.sends.channel, self.sends.end);
        let ignored = self.common.ears.ignore(self.sends.channel);
        self.sent += 1;
        let left = either(newer, !ignored);
        Step::of(either(handled, left), both)
    }

    /// The state after the tick `now`, which its ears have heard. `may_accept` says that the terminal's station has items left.
    #[inline(never)]
    pub(crate) fn next(self, now: Tick, both: BothHeard, may_accept: bool) -> TerminalNext
        requires { (terminal : TerminalData) × (loads : List TimedLoad) × (before : AnsweringData) × (past : List Moment) × (moment : Moment) × (s : Standing)
            × AnsweringHeard LAG terminal loads before self both past moment s × (length past ≡ now.0) × (now.0 < 2 ^ 60) }
        ensures { (terminal : TerminalData) (loads : List TimedLoad) (before : AnsweringData) (past : List Moment) (moment : Moment) (s : Standing) →
            AnsweringHeard LAG terminal loads before self both past moment s → length past ≡ now.0 → moment.has_items ≡ may_accept →
            NextStands LAG terminal loads result past moment s (accepted_on LAG terminal loads moment past s) }
    {
        let mut common = self.common;
        let sends = self.sends;
        let listened = common.tell(both);
        let accepted = accepts(&sends, &listened, (now.0 + 1).saturating_sub(self.sent));
        match found(listened, None, false) {
            Some(handled) => act(common, now.0, handled, may_accept),
            None => {
                let newer = common.ears.supersede(sends.channel, sends.end);
                let ignored = common.ears.ignore(sends.channel);
                TerminalNext {
                    state: send_on(common, sends, self.sent, newer, ignored),
                    event: acceptance(accepted),
                }
            }
        }
    }

    /// What it sends in the next tick.
    pub fn drive(&self) -> Drive
        ensures sample { result ≡ drive_sample self.now.sends.channel self.now.sends.part self.now.sends.answer.words.items self.now.sent }
        ensures drives { (terminal : TerminalData) (loads : List TimedLoad) (past : List Moment) (s : Standing) →
            AnsweringStands LAG terminal loads self.now past s → result ≡ drive_of LAG terminal past s }
    {
        drive_sample(
            self.sends.channel,
            self.sends.part,
            self.sends.answer.words.as_slice(),
            self.sent,
        )
    }
}

// Sample `place` of the words, one after the other.
fn drive_sample(channel: Channel, part: Part, words: &[Word], place: u64) -> Drive
    requires { length words.now ≤ 33 }
    ensures { result ≡ sending.drive_sample channel part words.now place }
{
    if place / 40 >= words.len() as u64 {
        return Drive::Silent;
    }
    let word = words[(place / 40) as usize];
    Drive::On {
        channel,
        sample: sample_of(word, (place % 40) as usize),
        part,
        last: place + 1 == 40 * words.len() as u64,
    }
}

// The channel on which the answer begins, where nothing of it was sent.
fn begins_in(sent: u64, channel: Channel) -> Option<Channel>
    ensures { result ≡ begins_told (sent == 0) channel }
{
    if sent == 0 { Some(channel) } else { None }
}

// The answer runs on until a newer command comes on the other channel, or it is over.
fn send_on(common: Common, sends: Sends, sent: u64, newer: bool, ignored: bool) -> TerminalState
    ensures { result ≡ answering_on common sends sent newer ignored }
{
    if newer || !ignored {
        TerminalState::Listening(Listening { common })
    } else {
        TerminalState::Answering(Answering {
            common,
            sends,
            sent,
        })
    }
}

// The answer accepts control, and the burst that ended on its channel is it.
fn accepts(sends: &Sends, listened: &Listened, due: u64) -> bool
    requires { due < 2 ^ 60 }
    ensures { result ≡ (sends.now.answer.acceptance && told.is_status due (told.told_on sends.now.channel listened.now)) }
{
    let burst = match sends.channel {
        Channel::A => &listened.a.burst,
        Channel::B => &listened.b.burst,
    };
    sends.answer.acceptance && is_status(burst, due)
}

// The burst began when the answer was due, and is as long as a status word at least.
fn is_status(burst: &Option<HeardBurst>, due: u64) -> bool
    requires { due < 2 ^ 60 }
    ensures { result ≡ told.is_status due burst.now }
{
    match burst {
        Some(burst) => burst.first == due && burst.end >= due + 40,
        None => false,
    }
}

// Control was accepted in a tick without an order. An order on the other channel in the tick in which an answer's end is known would have given
// the answer up, or is older than it and no order.
fn acceptance(accepted: bool) -> TerminalEvent
    ensures { result ≡ acceptance_told accepted }
{
    if accepted {
        TerminalEvent::Accepted
    } else {
        TerminalEvent::Nothing
    }
}
