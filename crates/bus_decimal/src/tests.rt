use crate::number_up_to;

#[test]
fn numbers_are_read_up_to_the_greatest_one(rt: HostRuntime) {
    let rows: [(&[u8], Option<u64>); 7] = [
        (b"0", Some(0)),
        (b"7", Some(7)),
        (b"10", Some(10)),
        (b"2147483647", Some(2_147_483_647)),
        (b"2147483648", None),
        (b"10000000000", None),
        (b"99999999999999999999999999", None),
    ];
    for (text, wanted) in rows {
        assert_eq!(rt; number_up_to(2_147_483_647, text), wanted);
    }
}

#[test]
fn other_texts_are_no_numbers(rt: HostRuntime) {
    let rows: [&[u8]; 9] = [b"", b"00", b"07", b"+7", b"-7", b" 7", b"7 ", b"/", b":"];
    for text in rows {
        assert_eq!(rt; number_up_to(99, text), None);
    }
}
