// One terminal of address 5 and delay 8 on bursts made by hand: registers, blocks, what it drives and what it tells. The ticks and words are
// worked out from the rules.
ghost use Rattle.std.specs.Prelude.{◌≡◌, ℕ, ◌+◌, ◌≤◌};
ghost use Rattle.bus_terminal.specs.Heard.{HasHeard};

use crate::{Terminal, TerminalEvent};
use bus_base::{Channel, Drive, Pair, Sample, Tick};
use bus_formats::TerminalPlan;
use bus_line::spell;
use bus_words::{Sync, Word};
use std::alloc::Global;

// A terminal that has heard nothing, and may accept control.
fn listening(alloc: Global, accepts: bool) -> Terminal
    ensures { HasHeard result 0 }
{
    let plan = TerminalPlan {
        address: 5,
        delay: 8,
        busy: false,
        service: false,
        subsystem_flag: false,
        terminal_flag: false,
        accepts,
        vector: 0,
        bit: 0,
        no_receive: 0,
        no_transmit: 0,
        no_mode: 0,
        subsystem: None,
        loads: Vec::new(alloc),
    };
    Terminal::new(plan)
}

fn sample(words: &[Word], first: u64, now: u64) -> Sample {
    if now < first || (now - first) / 40 >= words.len() as u64 {
        return Sample::Quiet;
    }
    let place = now - first;
    spell(words[(place / 40) as usize])[(place % 40) as usize]
}

fn command(bits: u16) -> Word {
    Word {
        sync: Sync::Command,
        bits,
    }
}

fn datum(bits: u16) -> Word {
    Word {
        sync: Sync::Datum,
        bits,
    }
}

// What is shown beside what the terminal drives: words on A from one tick on, words on B from another; and two ticks, if any, in which A is
// quiet, and in which it isn't, whatever is driven there.
#[derive(Clone, Copy)]
struct Shown<'w> {
    a: &'w [Word],
    first_a: u64,
    b: &'w [Word],
    first_b: u64,
    quiet: Option<u64>,
    pulse: Option<u64>,
}

impl Shown<'_> {
    fn in_tick(&self, now: u64, driven: Drive) -> Pair {
        let mut heard = Pair {
            a: sample(self.a, self.first_a, now),
            b: sample(self.b, self.first_b, now),
        };
        if let Drive::On {
            channel,
            sample,
            ..
        } = driven
        {
            match channel {
                Channel::A => heard.a = sample,
                Channel::B => heard.b = sample,
            }
        }
        if self.quiet == Some(now) {
            heard.a = Sample::Quiet;
        }
        if self.pulse == Some(now) {
            heard.a = Sample::Plus;
        }
        heard
    }
}

// The newest tick in which a terminal told of a block, and in which it told that it accepted control.
#[derive(Clone, Copy)]
struct Told {
    took: Option<u64>,
    accepted: Option<u64>,
}

// Hears ticks up to before `end`.
fn tell(terminal: &mut Terminal, shown: &Shown, end: u64) -> Told
    requires heard { HasHeard terminal.old 0 }
    requires few { end ≤ 1000 }
    ensures { HasHeard terminal.new end }
{
    let mut told = Told {
        took: None,
        accepted: None,
    };
    for now in 0..end {
        let heard = shown.in_tick(now, terminal.drive());
        match terminal.hear(Tick(now), heard, true) {
            TerminalEvent::Took(_) => told.took = Some(now),
            TerminalEvent::Accepted => told.accepted = Some(now),
            TerminalEvent::Nothing => {}
        }
    }
    told
}

// Hears ticks up to before `end`: on A these words from tick 0, on B those from tick `first_b`, and what the terminal drives.
fn run(terminal: &mut Terminal, a: &[Word], b: &[Word], first_b: u64, end: u64)
    requires heard { HasHeard terminal.old 0 }
    requires few { end ≤ 1000 }
    ensures { HasHeard terminal.new end }
{
    let shown = Shown {
        a,
        first_a: 0,
        b,
        first_b,
        quiet: None,
        pulse: None,
    };
    tell(terminal, &shown, end);
}

// An offer of control on A, from tick 0 to 39, which is answered from tick 44 to 83.
fn offer(quiet: Option<u64>, pulse: Option<u64>) -> Shown<'static> {
    Shown {
        a: &[Word {
            sync: Sync::Command,
            bits: 0x2C00,
        }],
        first_a: 0,
        b: &[],
        first_b: 0,
        quiet,
        pulse,
    }
}

// The ticks in which the terminal drives a word's spelling on a channel, from tick `first` on.
fn drives_word(terminal: &mut Terminal, channel: Channel, word: Word, first: u64) -> bool
    requires heard { HasHeard terminal.old first }
    requires few { first ≤ 1000 }
{
    let samples = spell(word);
    let mut same = true;
    for place in 0..40u64 {
        let driven = terminal.drive();
        let wanted = samples[place as usize];
        let mut heard = Pair::QUIET;
        match driven {
            Drive::On {
                channel: on,
                sample,
                last,
                ..
            } => {
                same = same && on == channel && sample == wanted && last == (place == 39);
                match on {
                    Channel::A => heard.a = sample,
                    Channel::B => heard.b = sample,
                }
            }
            Drive::Silent => same = false,
        }
        terminal.hear(Tick(first + place), heard, true);
    }
    same && terminal.drive() == Drive::Silent
}

#[test]
fn shutdown_of_the_other_channel(rt: HostRuntime) {
    let mut terminal = listening(rt.alloc(), false);
    run(&mut terminal, &[command(0x2C04)], &[], 0, 44);
    assert_eq!(rt; terminal.registers().last, 0x2C04);
    assert!(rt; terminal.registers().off_b);
    assert!(rt; !terminal.registers().off_a);
    assert!(rt; drives_word(&mut terminal, Channel::A, command(0x2800), 44));
}

#[test]
fn broadcast_status_request_is_illegal(rt: HostRuntime) {
    let mut terminal = listening(rt.alloc(), false);
    run(&mut terminal, &[command(0xFC02)], &[], 0, 44);
    assert_eq!(rt; terminal.registers().last, 0xFC02);
    assert!(rt; terminal.registers().message_error);
    assert!(rt; terminal.registers().broadcast);
    assert_eq!(rt; terminal.drive(), Drive::Silent);
}

#[test]
fn mode_code_one_without_transmit_is_illegal(rt: HostRuntime) {
    let mut terminal = listening(rt.alloc(), false);
    run(&mut terminal, &[command(0x2801)], &[], 0, 44);
    assert_eq!(rt; terminal.registers().last, 0x2801);
    assert!(rt; terminal.registers().message_error);
    assert!(rt; drives_word(&mut terminal, Channel::A, command(0x2C00), 44));
}

#[test]
fn newer_of_two_commands(rt: HostRuntime) {
    let mut terminal = listening(rt.alloc(), false);
    let a = [command(0x2821), datum(7)];
    let b = [command(0x2842), datum(1), datum(2)];
    run(&mut terminal, &a, &b, 20, 144);
    assert!(rt; terminal.buffers().front(1).is_empty());
    assert_eq!(rt; terminal.buffers().front(2), [1, 2].as_slice());
    assert_eq!(rt; terminal.registers().last, 0x2842);
    assert!(rt; drives_word(&mut terminal, Channel::B, command(0x2800), 144));
}

// The answer's end is tick 84, and known with the fourth quiet tick.
#[test]
fn an_answer_of_forty_ticks_accepts(rt: HostRuntime) {
    let mut terminal = listening(rt.alloc(), true);
    let told = tell(&mut terminal, &offer(None, None), 200);
    assert_eq!(rt; told.accepted, Some(87));
    assert_eq!(rt; told.took, None);
}

// Its last tick is quiet, so that it ends a tick early.
#[test]
fn an_answer_of_thirty_nine_ticks_does_not(rt: HostRuntime) {
    let mut terminal = listening(rt.alloc(), true);
    let told = tell(&mut terminal, &offer(Some(83), None), 200);
    assert_eq!(rt; told.accepted, None);
}

// Its first tick is quiet, so that the burst that is heard begins late.
#[test]
fn an_answer_that_begins_late_does_not(rt: HostRuntime) {
    let mut terminal = listening(rt.alloc(), true);
    let told = tell(&mut terminal, &offer(Some(44), None), 200);
    assert_eq!(rt; told.accepted, None);
}

// A sample in tick 87 belongs to the burst, which ends with tick 88.
#[test]
fn a_longer_answer_accepts_at_its_own_end(rt: HostRuntime) {
    let mut terminal = listening(rt.alloc(), true);
    let told = tell(&mut terminal, &offer(None, Some(87)), 200);
    assert_eq!(rt; told.accepted, Some(91));
}

#[test]
fn a_terminal_that_may_not_accept_answers_alone(rt: HostRuntime) {
    let mut terminal = listening(rt.alloc(), false);
    let told = tell(&mut terminal, &offer(None, None), 200);
    assert_eq!(rt; told.accepted, None);
}

// The answer, from tick 80 to 119, and the burst of an older command on B end together.
#[test]
fn an_older_command_does_not_meet_acceptance(rt: HostRuntime) {
    let mut terminal = listening(rt.alloc(), true);
    let shown = Shown {
        a: &[command(0x2C00)],
        first_a: 36,
        b: &[command(0x2822), datum(1), datum(2)],
        first_b: 0,
        quiet: None,
        pulse: None,
    };
    let told = tell(&mut terminal, &shown, 200);
    assert_eq!(rt; told.accepted, Some(123));
    assert_eq!(rt; told.took, None);
    assert!(rt; terminal.buffers().front(1).is_empty());
}

// The command on B, whose word ends in tick 43, takes back the answer; its block is taken when the burst's end, 84, is known.
#[test]
fn a_newer_command_takes_acceptance_back(rt: HostRuntime) {
    let mut terminal = listening(rt.alloc(), true);
    let shown = Shown {
        a: &[command(0x2C00)],
        first_a: 0,
        b: &[command(0x2821), datum(7)],
        first_b: 4,
        quiet: None,
        pulse: None,
    };
    let told = tell(&mut terminal, &shown, 200);
    assert_eq!(rt; told.accepted, None);
    assert_eq!(rt; told.took, Some(87));
    assert_eq!(rt; terminal.buffers().front(1), [7].as_slice());
}
