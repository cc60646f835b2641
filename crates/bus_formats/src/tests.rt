//! Rows of the standard's tables, and command words worked by hand.
use crate::*;
use arrayvec::ArrayVec;
use bus_base::Part;
use bus_words::{Status, Sync, Word};

const fn legal(broadcast: bool, carries: Carries) -> ModeEntry {
    ModeEntry {
        legal: true,
        broadcast,
        carries,
    }
}

#[test]
fn lists_the_mode_commands(rt: HostRuntime) {
    let rows = [
        (true, 0, legal(false, Carries::Nothing)),
        (true, 1, legal(true, Carries::Nothing)),
        (true, 2, legal(false, Carries::Nothing)),
        (true, 8, legal(true, Carries::Nothing)),
        (true, 16, legal(false, Carries::FromTerminal)),
        (false, 17, legal(true, Carries::ToTerminal)),
        (true, 18, legal(false, Carries::FromTerminal)),
        (true, 19, legal(false, Carries::FromTerminal)),
    ];
    for (transmit, code, entry) in rows {
        assert_eq!(rt; mode_of(transmit, code), entry, "at {code}");
    }
    let mut legal = 0u8;
    for code in 0..32u8 {
        for transmit in [false, true] {
            if legal < 64 && mode_of(transmit, code).legal {
                legal += 1;
            }
        }
    }
    assert_eq!(rt; legal, 13);
    assert!(rt; mode_of(false, 20).broadcast);
}

fn command(bits: u16) -> Word {
    Word {
        sync: Sync::Command,
        bits,
    }
}

fn datum(bits: u16) -> Word {
    Word {
        sync: Sync::Datum,
        bits,
    }
}

#[test]
fn sends_a_block(rt: HostRuntime) {
    let mut burst = ArrayVec::new();
    let kind = Kind::Receive {
        to: 5,
        sub: 1,
        words: Block::of(&[0x0102, 0x0304]),
    };
    command_burst(&kind, &mut burst);
    let sent = [command(0x2822), datum(0x0102), datum(0x0304)];
    assert!(rt; burst.as_slice() == &sent[..]);
    assert_eq!(rt; form_of(&kind), Some(Form::Receive));
    assert_eq!(rt;
        answers(&kind).first,
        Some(Shape {
            address: 5,
            count: 0
        })
    );
    let nothing = Answers {
        first: None,
        second: None,
    };
    let to_all = Kind::Receive {
        to: 31,
        sub: 1,
        words: Block::of(&[7]),
    };
    assert_eq!(rt; form_of(&to_all), Some(Form::BroadcastReceive));
    assert_eq!(rt; answers(&to_all), nothing);
}

#[test]
fn writes_thirty_two_words_as_zero(rt: HostRuntime) {
    let mut burst = ArrayVec::new();
    let kind = Kind::Transmit {
        from: 5,
        sub: 19,
        count: 32,
    };
    command_burst(&kind, &mut burst);
    assert!(rt; burst.as_slice() == &[command(0x2e60)][..]);
    assert_eq!(rt;
        answers(&kind).first,
        Some(Shape {
            address: 5,
            count: 32
        })
    );
}

#[test]
fn relays_between_two(rt: HostRuntime) {
    let mut burst = ArrayVec::new();
    let kind = Kind::Relay {
        from: 5,
        from_sub: 1,
        to: 6,
        to_sub: 2,
        count: 1,
    };
    command_burst(&kind, &mut burst);
    assert!(rt; burst.as_slice() == &[command(0x3041), command(0x2c21)][..]);
    let due = Answers {
        first: Some(Shape {
            address: 5,
            count: 1,
        }),
        second: Some(Shape {
            address: 6,
            count: 0,
        }),
    };
    assert_eq!(rt; answers(&kind), due);
}

fn mode(to: u8, transmit: bool, code: u8, word: Option<u16>) -> Kind {
    Kind::Mode {
        to,
        mode_sub: 0,
        transmit,
        code,
        word,
    }
}

#[test]
fn names_the_forms_of_mode_commands(rt: HostRuntime) {
    let rows = [
        (5, true, 2, None, Some(Form::Mode)),
        (5, true, 16, None, Some(Form::ModeTransmit)),
        (5, false, 17, Some(9), Some(Form::ModeReceive)),
        (31, true, 1, None, Some(Form::BroadcastMode)),
        (31, false, 17, Some(9), Some(Form::BroadcastModeReceive)),
        (31, true, 16, None, None),
        (5, false, 17, None, None),
        (5, true, 1, Some(9), None),
    ];
    for (to, transmit, code, word, form) in rows {
        assert_eq!(rt; form_of(&mode(to, transmit, code, word)), form, "at {code}");
    }
}

#[test]
fn reads_answers_of_a_transmit_message(rt: HostRuntime) {
    let kind = Kind::Transmit {
        from: 5,
        sub: 1,
        count: 1,
    };
    let bad = Reading::Ends(Outcome::BadReply(Part::First), None);
    let refused = Reading::Ends(Outcome::Illegal(Part::First), Some(Status::of(0x2c00)));
    let busy = Reading::Ends(Outcome::Busy(Part::First), Some(Status::of(0x2808)));
    let good = Reading::Good(Status::of(0x2800));
    let status = Some(command(0x2800));
    let word = Some(datum(9));
    assert_eq!(rt; read_answer(&kind, Part::First, &[status, word], 0), good);
    assert_eq!(rt; read_answer(&kind, Part::First, &[status, word], 1), bad);
    assert_eq!(rt; read_answer(&kind, Part::First, &[status, None], 0), bad);
    assert_eq!(rt; read_answer(&kind, Part::First, &[status], 0), bad);
    assert_eq!(rt;
        read_answer(&kind, Part::First, &[Some(command(0x2c00))], 0),
        refused
    );
    assert_eq!(rt;
        read_answer(&kind, Part::First, &[Some(command(0x2808))], 0),
        busy
    );
    assert_eq!(rt;
        read_answer(&kind, Part::First, &[Some(command(0x3000)), word], 0),
        bad
    );
    assert_eq!(rt;
        read_answer(&kind, Part::First, &[Some(command(0x2820)), word], 0),
        bad
    );
}

#[test]
fn reads_answers_of_mode_commands(rt: HostRuntime) {
    let offer = mode(5, true, 0, None);
    let passed = Reading::Ends(Outcome::Passed, Some(Status::of(0x2802)));
    let declined = Reading::Ends(Outcome::Declined, Some(Status::of(0x2800)));
    assert_eq!(rt;
        read_answer(&offer, Part::First, &[Some(command(0x2802))], 0),
        passed
    );
    assert_eq!(rt;
        read_answer(&offer, Part::First, &[Some(command(0x2800))], 0),
        declined
    );
    let good = Reading::Good(Status::of(0x2c00));
    let asks = mode(5, true, 2, None);
    assert_eq!(rt;
        read_answer(&asks, Part::First, &[Some(command(0x2c00))], 0),
        good
    );
    let last = mode(5, true, 18, None);
    let slots = [Some(command(0x2c00)), Some(datum(0x2822))];
    assert_eq!(rt; read_answer(&last, Part::First, &slots, 0), good);
}

#[test]
fn keeps_at_most_thirty_two_words(rt: HostRuntime) {
    let mut block = Block::new();
    for word in 0..32u16 {
        assert!(rt; block.push(word));
    }
    assert!(rt; !block.push(32));
    assert_eq!(rt; block.copy().words().len(), 32);
}

#[test]
fn forgets_the_subsystems(rt: HostRuntime) -> Result<(), std::alloc::AllocError> {
    let alloc = rt.alloc();
    let terminal = TerminalPlan {
        address: 5,
        delay: 8,
        busy: false,
        service: false,
        subsystem_flag: false,
        terminal_flag: false,
        accepts: false,
        vector: 0,
        bit: 0,
        no_receive: 0,
        no_transmit: 0,
        no_mode: 0,
        subsystem: Some(SubsystemKind::Tally),
        loads: Vec::new(alloc),
    };
    let station = StationPlan {
        terminal,
        channel: bus_base::Channel::B,
        frames: Vec::new(alloc),
        repeat: 1,
    };
    let plan = Plan {
        start: 5,
        stations: vec![in alloc; station]?,
        faults: Vec::new(alloc),
    };
    let plan = plan.without_subsystems();
    assert!(rt; plan.stations.len() == 1 && plan.stations[0].terminal.subsystem.is_none());
    assert_eq!(rt; dead_ticks(8), LEAST_QUIET);
    Ok(())
}
