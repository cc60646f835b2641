//! A command is sent.
ghost use Rattle.std.specs.Prelude.{◌≡◌, true, false, List, Option};
ghost use Rattle.bus_base.specs.declared.samples.Pair.{Pair};
ghost use Rattle.bus_formats.specs.Accepted.{HasItemRanges};
ghost use Rattle.bus_base.specs.Samples.{is_quiet};
ghost use Rattle.bus_line.specs.declared.cutter.TheConstants.{LAG};
ghost use Rattle.bus_model.specs.Sending.{drive_sample};
ghost use Rattle.bus_base.specs.declared.samples.Part.TheVariants.{Command};
ghost use Rattle.bus_model.specs.Course.{Course, drive_course};
ghost use Rattle.bus_receiver.specs.Moments.{moment_of};
ghost use Rattle.bus_controller.specs.Stands.{SendingStands, NextStands};
ghost use Rattle.bus_controller.specs.Steps.{sends, from_sending, quiet_more, command_ended, going};
ghost use Rattle.bus_controller.specs.declared.states.ControllerState.TheVariants as states;

use crate::agenda::Agenda;
use crate::attempt::{Begun, Ended};
use crate::close::close;
use crate::expecting::Expecting;
use crate::states::{ControllerNext, ControllerState};
use arrayvec::ArrayVec;
use bus_base::{Drive, Part, Sample};
use bus_formats::{Outcome, answers, command_burst};
use bus_line::{LAG, sample_of};
use bus_receiver::Moment;
use bus_words::Word;

/// A message's command is sent, until its own channel is quiet for four ticks in a row.
#[derive(Drop)]
pub struct Sending {
    pub(crate) agenda: Agenda,
    pub(crate) begun: Begun,
    // the words of the command
    pub(crate) burst: ArrayVec<Word, 40>,
    // the ticks since it began
    pub(crate) sent: u16,
    // the quiet ticks of its channel in a row among these
    pub(crate) quiet: u8,
}

impl Sending {
    /// The command of an attempt that begins with the tick to come.
    pub(crate) fn new(agenda: Agenda, begun: Begun) -> Sending
        requires { HasItemRanges begun.entry.item }
        ensures { result ≡ sends (agenda, begun) }
    {
        let mut burst = ArrayVec::new();
        command_burst(&begun.entry.item.kind, &mut burst);
        Sending {
            agenda,
            begun,
            burst,
            sent: 0,
            quiet: 0,
        }
    }

    /// Hears a tick in place, where the command goes on. False where its end is known: then the tick isn't heard.
    #[inline(always)]
    pub(crate) fn stay(&mut self, moment: &Moment) -> bool
        ensures stays { result ≡ true → from_sending LAG self.old moment.now ≡ going (states.Sending self.new) }
        ensures same { result ≡ false → self.new ≡ self.old }
    {
        let quiet = quiet_after(self.quiet, moment.sample(self.begun.state.channel));
        if quiet > LAG {
            return false;
        }
        self.sent = self.sent.saturating_add(1);
        self.quiet = quiet;
        true
    }

    /// Hears a tick. Whatever course and past it stands for, the next state stands for them one tick later, and it tells of the attempt that ended
    /// in the tick.
    pub fn hear(self, moment: Moment) -> ControllerNext
        ensures step { result ≡ from_sending LAG self moment }
        ensures stands { (c : Course) (shown : Pair) (past : List Pair) → SendingStands LAG c past self → moment ≡ moment_of LAG shown past →
            NextStands LAG c shown past result }
    {
        self.step(moment)
    }

    fn step(self, moment: Moment) -> ControllerNext
        ensures { result ≡ from_sending LAG self moment }
    {
        let quiet = quiet_after(self.quiet, moment.sample(self.begun.state.channel));
        if quiet <= LAG {
            return ControllerNext::going(ControllerState::Sending(Sending {
                agenda: self.agenda,
                begun: self.begun,
                burst: self.burst,
                sent: self.sent.saturating_add(1),
                quiet,
            }));
        }
        end_command(self.agenda, self.begun, moment)
    }

    /// What is sent in the tick to come.
    pub fn drive(&self) -> Drive
        ensures sample { result ≡ drive_sample self.now.begun.state.channel Command self.now.burst.items self.now.sent }
        ensures drives { (c : Course) (past : List Pair) → SendingStands LAG c past self.now → result ≡ drive_course LAG past c }
    {
        self.next_sample()
    }

    fn next_sample(&self) -> Drive
        ensures { result ≡ drive_sample self.now.begun.state.channel Command self.now.burst.items self.now.sent }
    {
        let words = self.burst.as_slice();
        match words.get(usize::from(self.sent / 40)) {
            None => Drive::Silent,
            Some(word) => Drive::On {
                channel: self.begun.state.channel,
                sample: sample_of(*word, usize::from(self.sent % 40)),
                part: Part::Command,
                last: usize::from(self.sent) + 1 == 40 * words.len(),
            },
        }
    }
}

fn quiet_after(quiet: u8, sample: Sample) -> u8
    ensures { result ≡ quiet_more quiet sample }
{
    match sample {
        Sample::Quiet => quiet.saturating_add(1),
        Sample::Plus | Sample::Minus => 0,
    }
}

// The end of the command is known.
fn end_command(agenda: Agenda, begun: Begun, moment: Moment) -> ControllerNext
    ensures { result ≡ command_ended LAG agenda begun moment }
{
    match answers(&begun.entry.item.kind).first {
        None => close(
            agenda,
            begun,
            Ended::without_words(Outcome::Sent, None, None),
            moment,
        ),
        Some(_) => ControllerNext::going(ControllerState::Expecting(Expecting::new(
            agenda, begun, None, moment,
        ))),
    }
}
