//! Lines that a bench engineer mistypes. The expected values are those of an independent reader in Python.
use crate::header::read_header;

#[test]
fn lines_are_read(rt: HostRuntime) {
    let rows: [(&[u8], u8, u8, u64, usize); 3] = [
        (b"1553 bridge 5 7 1047 1:2", 5, 7, 1047, 1),
        (b"1553 bridge 0 30 0 30:29", 0, 30, 0, 1),
        (b"1553 bridge 6 6 4194304 1:1 1:2 30:3", 6, 6, 4_194_304, 3),
    ];
    for (line, a, b, first, pairs) in rows {
        match read_header(line) {
            None => assert!(rt; false, "a line was refused"),
            Some(header) => {
                assert_eq!(rt; header.a, a);
                assert_eq!(rt; header.b, b);
                assert_eq!(rt; header.first, first);
                assert_eq!(rt; header.pairs.as_slice().len(), pairs);
            }
        }
    }
}

#[test]
fn other_lines_are_none(rt: HostRuntime) {
    let rows: [&[u8]; 16] = [
        b"",
        b"1553 bridge",
        b"1553 bridge 5 7 1047",
        b"1553 bridge 5 7 1047 ",
        b"1553 bridge 31 7 1047 1:2",
        b"1553 bridge 5 31 1047 1:2",
        b"1553 bridge 05 7 1047 1:2",
        b"1553 bridge 5 7 4194305 1:2",
        b"1553 bridge 5 7 1047 0:2",
        b"1553 bridge 5 7 1047 31:2",
        b"1553 bridge 5 7 1047 1:0",
        b"1553 bridge 5 7 1047 1:30",
        b"1553 bridge 5 7 1047 1:2 3:2",
        b"1553 bridge 5 7 1047 1:2  3:4",
        b"1553 bridge 5 7 1047 1:2 ",
        b"1553 bridge 5 7 1047 1:2\r",
    ];
    for line in rows {
        assert!(rt; read_header(line).is_none());
    }
}
