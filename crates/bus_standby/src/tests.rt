//! Lines that a bench engineer mistypes. The expected values are those of an independent reader in Python.
use crate::Header;
use crate::header::read_header;

#[test]
fn lines_are_read(rt: HostRuntime) {
    let rows: [(&[u8], Option<Header>); 3] = [
        (
            b"1553 standby 6 2",
            Some(Header {
                address: 6,
                attempt: 2,
            }),
        ),
        (
            b"1553 standby 0 1",
            Some(Header {
                address: 0,
                attempt: 1,
            }),
        ),
        (
            b"1553 standby 30 1000000",
            Some(Header {
                address: 30,
                attempt: 1_000_000,
            }),
        ),
    ];
    for (line, wanted) in rows {
        assert_eq!(rt; read_header(line), wanted);
    }
}

#[test]
fn other_lines_are_none(rt: HostRuntime) {
    let rows: [&[u8]; 14] = [
        b"",
        b"1553",
        b"1553 standby",
        b"1553 standby ",
        b"1553 standby 6",
        b"1553 standby 6 ",
        b"1553 standby 31 2",
        b"1553 standby 06 2",
        b"1553 standby 6 0",
        b"1553 standby 6 02",
        b"1553 standby 6 1000001",
        b"1553 standby  6 2",
        b"1553 standby 6 2 ",
        b"1553 standby 6 2\r",
    ];
    for line in rows {
        assert_eq!(rt; read_header(line), None);
    }
}
