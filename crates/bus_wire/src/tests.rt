//! Two stations on a wire: what it shows in single ticks, worked out by hand from the rules of faults.
use crate::{Shown, Wire};
use bus_base::{Channel, Drive, FlipSet, Pair, Part, Sample};
use bus_formats::{Fault, Hit};
use std::test::Fail;

// A burst of a station: what it is, its first tick, and how long it is. All its samples are the same; the last tick is the last of its words.
#[derive(Clone, Copy)]
struct Burst {
    channel: Channel,
    part: Part,
    sample: Sample,
    first: u64,
    ticks: u64,
}

impl Burst {
    fn drive(&self, now: u64) -> Option<Drive> {
        if now < self.first || now - self.first >= self.ticks {
            return None;
        }
        Some(Drive::On {
            channel: self.channel,
            sample: self.sample,
            part: self.part,
            last: now - self.first == self.ticks - 1,
        })
    }
}

// What a station of these bursts drives in a tick.
fn drive(bursts: &[Burst], now: u64) -> Drive {
    for burst in bursts {
        if let Some(drive) = burst.drive(now) {
            return drive;
        }
    }
    Drive::Silent
}

// What the wire shows in a tick of what two stations drive.
fn shown_in(faults: Vec<Fault>, one: &[Burst], other: &[Burst], tick: u16) -> Shown {
    let mut wire = Wire::new(faults);
    for now in 0..u64::from(tick) {
        wire.show(&[drive(one, now), drive(other, now)]);
    }
    wire.show(&[drive(one, u64::from(tick)), drive(other, u64::from(tick))])
}

// A tick in which A shows this, B is quiet, and so many stations drive A.
fn on_a(a: Sample, drivers: u8) -> Shown {
    Shown {
        pair: Pair {
            a,
            b: Sample::Quiet,
        },
        drivers: [drivers, 0],
    }
}

fn plus(channel: Channel, part: Part, first: u64, ticks: u64) -> Burst {
    Burst {
        channel,
        part,
        sample: Sample::Plus,
        first,
        ticks,
    }
}

// Two commands of two words each, and the answer to the first.
fn commands() -> [Burst; 2] {
    [
        plus(Channel::A, Part::Command, 8, 80),
        plus(Channel::A, Part::Command, 300, 80),
    ]
}

fn answer() -> [Burst; 1] {
    [plus(Channel::A, Part::First, 100, 80)]
}

// The flip of sample 7 of the second word strikes the second command, which begins at tick 300, in tick 347 alone.
#[test]
fn one_sample_is_flipped(rt: HostRuntime) -> Result<(), Fail> {
    let Ok(set) = FlipSet::of(&[7]) else {
        assert!(rt; false, "a set was refused");
        return Ok(());
    };
    let wanted = [
        (55, Sample::Plus),
        (147, Sample::Plus),
        (307, Sample::Plus),
        (346, Sample::Plus),
        (347, Sample::Minus),
        (348, Sample::Plus),
    ];
    for (tick, sample) in wanted {
        let fault = Fault {
            attempt: 2,
            part: Part::Command,
            hit: Hit::Flip { word: 1, set },
        };
        let faults = vec![in rt.alloc(); fault]?;
        assert_eq!(rt;
            shown_in(faults, &commands(), &answer(), tick),
            on_a(sample, 1),
            "at {tick}"
        );
    }
    Ok(())
}

// An answer from tick 100 on is cut after one word. It drives on, so a new transmission begins after four quiet ticks, and is cut alike.
#[test]
fn a_cut_ends_with_the_fourth_quiet_tick(rt: HostRuntime) -> Result<(), Fail> {
    let wanted = [
        (100, Sample::Plus),
        (139, Sample::Plus),
        (140, Sample::Quiet),
        (143, Sample::Quiet),
        (144, Sample::Plus),
        (179, Sample::Plus),
    ];
    for (tick, sample) in wanted {
        let fault = Fault {
            attempt: 1,
            part: Part::First,
            hit: Hit::Cut { after: 1 },
        };
        let faults = vec![in rt.alloc(); fault]?;
        assert_eq!(rt;
            shown_in(faults, &commands(), &answer(), tick),
            on_a(sample, 1),
            "at {tick}"
        );
    }
    Ok(())
}

// A command of two words from tick 8 on ends with tick 87. Two data words of 0 follow: their sync is minus, then plus, and each 0 is minus,
// then plus, but for the parity, which is a one.
#[test]
fn an_extra_adds_words_of_zero(rt: HostRuntime) -> Result<(), Fail> {
    let wanted = [
        (87, Sample::Plus, 1),
        (88, Sample::Minus, 1),
        (90, Sample::Minus, 1),
        (91, Sample::Plus, 1),
        (94, Sample::Minus, 1),
        (95, Sample::Plus, 1),
        (126, Sample::Plus, 1),
        (127, Sample::Minus, 1),
        (128, Sample::Minus, 1),
        (167, Sample::Minus, 1),
        (168, Sample::Quiet, 0),
    ];
    for (tick, sample, drivers) in wanted {
        let fault = Fault {
            attempt: 1,
            part: Part::Command,
            hit: Hit::Extra { words: 2 },
        };
        let faults = vec![in rt.alloc(); fault]?;
        assert_eq!(rt;
            shown_in(faults, &commands(), &[], tick),
            on_a(sample, drivers),
            "at {tick}"
        );
    }
    Ok(())
}

// 30 words and 39 more would be too many: the fail-safe stops them 1,600 ticks after tick 8.
#[test]
fn the_fail_safe_stops_an_extra(rt: HostRuntime) -> Result<(), Fail> {
    let long = [plus(Channel::A, Part::Command, 8, 1200)];
    for (tick, sample, drivers) in [(1607, Sample::Minus, 1), (1608, Sample::Quiet, 0)] {
        let fault = Fault {
            attempt: 1,
            part: Part::Command,
            hit: Hit::Extra { words: 39 },
        };
        let faults = vec![in rt.alloc(); fault]?;
        assert_eq!(rt;
            shown_in(faults, &long, &[], tick),
            on_a(sample, drivers),
            "at {tick}"
        );
    }
    Ok(())
}

// The words that an extra adds to an answer end where another station drives the other channel, here in tick 190, and don't come back.
#[test]
fn an_extra_of_an_answer_ends_beside_a_command(rt: HostRuntime) -> Result<(), Fail> {
    let commands = [
        plus(Channel::A, Part::Command, 8, 80),
        plus(Channel::B, Part::Command, 190, 40),
    ];
    let b = Shown {
        pair: Pair {
            a: Sample::Quiet,
            b: Sample::Plus,
        },
        drivers: [0, 1],
    };
    let wanted = [
        (189, on_a(Sample::Plus, 1)),
        (190, b),
        (229, b),
        (230, on_a(Sample::Quiet, 0)),
    ];
    for (tick, shown) in wanted {
        let fault = Fault {
            attempt: 1,
            part: Part::First,
            hit: Hit::Extra { words: 5 },
        };
        let faults = vec![in rt.alloc(); fault]?;
        assert_eq!(rt;
            shown_in(faults, &commands, &answer(), tick),
            shown,
            "at {tick}"
        );
    }
    Ok(())
}

// Of two stations that drive a channel the first is shown.
#[test]
fn the_first_of_two_stations_is_shown(rt: HostRuntime) {
    let minus = Burst {
        sample: Sample::Minus,
        ..plus(Channel::A, Part::First, 50, 80)
    };
    for (tick, sample, drivers) in [
        (49, Sample::Plus, 1),
        (50, Sample::Plus, 2),
        (88, Sample::Minus, 1),
    ] {
        let faults = Vec::new(rt.alloc());
        assert_eq!(rt;
            shown_in(faults, &commands(), &[minus], tick),
            on_a(sample, drivers),
            "at {tick}"
        );
    }
}

// Of three stations the second alone may drive, and then none.
#[test]
fn stations_at_named_places(rt: HostRuntime) {
    let mut wire = Wire::new(Vec::new(rt.alloc()));
    let drives = [
        Drive::Silent,
        Drive::On {
            channel: Channel::A,
            sample: Sample::Plus,
            part: Part::Command,
            last: false,
        },
        Drive::Silent,
    ];
    assert_eq!(rt; wire.show_among(&drives, &[1]), on_a(Sample::Plus, 1));
    let silent = [Drive::Silent; 3];
    assert_eq!(rt; wire.show_among(&silent, &[]), on_a(Sample::Quiet, 0));
}
