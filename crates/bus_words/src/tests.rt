// Words whose fields were worked out by hand from the place values of the standard.
use crate::{Command, Flags, Status, parity};

#[test]
fn command_fields(rt: HostRuntime) {
    // 2822 and 2C21 hexadecimal: terminal 5 receives two words at subaddress 1, and transmits one.
    let receive = Command::make(5, false, 1, 2);
    assert_eq!(rt; receive.bits(), 0x2822);
    assert!(rt; parity(0x2822), "2822 has four ones");
    let transmit = Command::of(0x2C21);
    assert_eq!(rt; transmit.address(), 5);
    assert!(rt; transmit.transmit(), "the bit of value 1024");
    assert_eq!(rt; transmit.sub(), 1);
    assert_eq!(rt; transmit.field(), 1);
    assert_eq!(rt; transmit.words(), 1);
    assert!(rt; !transmit.is_mode(), "subaddress 1");
    assert!(rt; !parity(0x2C21), "2C21 has five ones");
    assert_eq!(rt; Command::make(31, true, 30, 0).words(), 32);
    assert!(rt;
        Command::make(31, true, 30, 0).is_broadcast() && !transmit.is_broadcast(),
        "address 31"
    );
    assert!(rt; Command::make(0, true, 0, 2).is_mode(), "subaddress 0");
    assert!(rt; Command::make(31, true, 31, 8).is_mode(), "subaddress 31");
}

#[test]
fn status_fields(rt: HostRuntime) {
    let flags = Flags {
        message_error: true,
        service: false,
        broadcast: true,
        busy: false,
        subsystem: true,
        acceptance: false,
        terminal: true,
    };
    let status = Status::make(3, flags);
    assert_eq!(rt; status.bits(), 6144 + 1024 + 16 + 4 + 1);
    assert_eq!(rt; status.address(), 3);
    assert_eq!(rt; status.flags(), flags);
    assert!(rt; status.is_clean(), "made by its flags");
    for bit in [512u16, 128, 64, 32] {
        assert!(rt; !Status::of(bit).is_clean(), "at {bit}");
    }
}
