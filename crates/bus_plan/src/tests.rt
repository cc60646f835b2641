//! Texts that a bench engineer mistypes, and what is refused of them. The expected refusals are those of an independent reader in Python.
use crate::{PlanError, read_plan};
use bus_formats::{Hit, SubsystemKind};
use std::alloc::{AllocError, Global};
use std::test::Fail;

// A text, the number of the rule that refuses it, and the place.
struct Case(&'static str, u8, &'static str);

static CASES: [Case; 31] = [
    Case("version =", 1, ""),
    Case("version = 1\nversion = 1\n", 1, ""),
    Case("version = 1\nstart = 9223372036854775808\n", 1, ""),
    Case(
        "version = 1\nstart = 5\nstation = [{address = 5, \"a b\" = 1}, {address = 6}]\n",
        2,
        "station.1.?",
    ),
    Case(
        "version = 1\nstart = 5\nstation = [{address = 5, repeat = 2}, {address = 6}]\n",
        2,
        "station.1.repeat",
    ),
    Case("version = 1\nstart = 5\n", 3, "station"),
    Case(
        "version = 1\nstart = 5\nstation = [{address = 5, frame = [{item = [{form = \"transmit\", sub = 1, count = 1}]}]}, {address = 6}]\n",
        3,
        "station.1.frame.1.item.1.from",
    ),
    Case(
        "version = 1979-05-27\nstart = 5\nstation = []\n",
        4,
        "version",
    ),
    Case("version = 1\nstart = 5.0\nstation = []\n", 4, "start"),
    Case(
        "version = 1\nstart = 5\nstation = [{address = 5}, 6]\n",
        4,
        "station.2",
    ),
    Case(
        "version = 1\nstart = 5\nstation = [{address = 5, load = [{sub = 1, words = [1, \"2\"]}]}, {address = 6}]\n",
        4,
        "station.1.load.1.words.2",
    ),
    Case("version = 3\nstart = 5\nstation = []\n", 5, "version"),
    Case(
        "version = 1\nstart = 5\nstation = [{address = 31}]\n",
        5,
        "station.1.address",
    ),
    Case(
        "version = 1\nstart = 5\nstation = [{address = 5, load = [{sub = 30, words = []}]}, {address = 6}]\n",
        5,
        "station.1.load.1.sub",
    ),
    Case(
        "version = 1\nstart = 5\nstation = [{address = 5, load = [{sub = 1, words = []}]}, {address = 6}]\n",
        5,
        "station.1.load.1.words",
    ),
    Case(
        "version = 1\nstart = 5\nstation = [{address = 5, load = [{sub = 1, words = [0, 0, 0, 0, 0, 0, 0, 0, 0, 0, 0, 0, 0, 0, 0, 0, 0, 0, 0, 0, 0, 0, 0, 0, 0, 0, 0, 0, 0, 0, 0, 0, 0, 65536]}]}, {address = 6}]\n",
        5,
        "station.1.load.1.words.34",
    ),
    Case(
        "version = 1\nstart = 5\nstation = [{address = 5, no_mode = [3, 8]}, {address = 6}]\n",
        5,
        "station.1.no_mode.2",
    ),
    Case(
        "version = 1\nstart = 5\nstation = [{address = 5}]\nfault = [{attempt = 1, part = \"first\", kind = \"flip\", word = 0, at = [21, 20]}]\n",
        5,
        "fault.1.at",
    ),
    Case(
        "version = 1\nstart = 5\nstation = [{address = 5}]\nfault = [{attempt = 1, part = \"command\", kind = \"cut\", after = 0}]\n",
        5,
        "fault.1.after",
    ),
    Case(
        "version = 1\nstart = 5\nstation = [{address = 5}]\nfault = [{attempt = 1, part = \"first\", kind = \"fade\", word = 0, at = [3]}]\n",
        5,
        "fault.1.kind",
    ),
    Case(
        "version = 2\nstart = 5\nstation = [{address = 5}]\nfault = [{attempt = 1, part = \"first\", kind = \"fade\", word = 0, at = [2]}]\n",
        5,
        "fault.1.at",
    ),
    Case(
        "version = 1\nstart = 5\nstation = [{address = 5}, {address = 5}]\n",
        6,
        "station.2",
    ),
    Case(
        "version = 1\nstart = 4\nstation = [{address = 5}]\n",
        7,
        "start",
    ),
    Case(
        "version = 1\nstart = 5\nstation = [{address = 5, frame = [{item = [{form = \"relay\", from = 6, from_sub = 1, to = 7, to_sub = 1, count = 1}]}]}, {address = 6}]\n",
        7,
        "station.1.frame.1.item.1",
    ),
    Case(
        "version = 1\nstart = 5\nstation = [{address = 5, frame = [{item = [{form = \"relay\", from = 6, from_sub = 1, to = 6, to_sub = 1, count = 1}]}]}, {address = 6}]\n",
        8,
        "station.1.frame.1.item.1",
    ),
    Case(
        "version = 1\nstart = 5\nstation = [{address = 5, frame = [{item = [{form = \"mode\", to = 6, code = 1}, {form = \"mode\", to = 6, code = 17}]}]}, {address = 6}]\n",
        9,
        "station.1.frame.1.item.2",
    ),
    Case(
        "version = 1\nstart = 5\nstation = [{address = 5, frame = [{item = [{form = \"transmit\", from = 6, sub = 1, count = 1, abandon = 25}]}]}, {address = 6}]\n",
        10,
        "station.1.frame.1.item.1",
    ),
    Case(
        "version = 1\nstart = 5\nstation = [{address = 5}]\nfault = [{attempt = 1, part = \"first\", kind = \"flip\", word = 0, at = [20, 21, 22, 23]}]\n",
        11,
        "fault.1",
    ),
    Case(
        "version = 1\nstart = 5\nstation = [{address = 5}]\nfault = [{attempt = 1, part = \"first\", kind = \"flip\", word = 0, at = [0, 1, 2, 3, 4, 5]}]\n",
        11,
        "fault.1",
    ),
    Case(
        "version = 1\nstart = 5\nstation = [{address = 5}]\nfault = [{attempt = 1, part = \"first\", kind = \"cut\", after = 0}, {attempt = 1, part = \"first\", kind = \"extra\", words = 1}]\n",
        12,
        "fault.2",
    ),
    Case(
        "version = 2\nstart = 5\nstation = [{address = 5}]\nfault = [{attempt = 1, part = \"first\", kind = \"flip\", word = 0, at = [3]}, {attempt = 1, part = \"second\", kind = \"flip\", word = 0, at = [3]}, {attempt = 1, part = \"first\", kind = \"cut\", after = 0}, {attempt = 2, part = \"first\", kind = \"flip\", word = 0, at = [3]}, {attempt = 1, part = \"first\", kind = \"fade\", word = 0, at = [3]}]\n",
        12,
        "fault.5",
    ),
];

fn is_refused(alloc: Global, text: &str, number: u8, place: &str) -> bool {
    match read_plan(alloc, text.as_bytes()) {
        Err(PlanError::Refused(refusal)) => {
            let at = match refusal.place() {
                Some(place) => place.as_str(),
                None => "",
            };
            refusal.number() == number && at == place
        }
        Ok(_plan) => false,
        Err(PlanError::Memory(_)) => false,
    }
}

#[test]
fn refuses_by_rule_and_place(rt: HostRuntime) {
    for case in &CASES {
        assert!(rt; is_refused(rt.alloc(), case.0, case.1, case.2));
    }
}

// A text with one part so many times.
fn repeated(
    alloc: Global,
    head: &str,
    part: &str,
    count: u32,
    tail: &str,
) -> Result<String, AllocError> {
    let mut text = String::new(alloc);
    text.push_str(head)?;
    for _ in 0..count {
        text.push_str(part)?;
    }
    text.push_str(tail)?;
    Ok(text)
}

#[test]
fn refuses_too_many_items(rt: HostRuntime) -> Result<(), Fail> {
    let head = "version = 1\nstart = 5\nstation = [{address = 6}, {address = 5, frame = [{item = [";
    let item = "{form = \"mode\", to = 6, code = 1}, ";
    let most = repeated(rt.alloc(), head, item, 4096, "]}]}]\n")?;
    assert!(rt; !is_refused(rt.alloc(), most.as_str(), 13, "items"));
    let more = repeated(rt.alloc(), head, item, 4097, "]}]}]\n")?;
    assert!(rt; is_refused(rt.alloc(), more.as_str(), 13, "items"));
    Ok(())
}

const PLAN: &str =
    "version = 2\nstart = 5\nstation = [{address = 5, delay = 12, no_receive = [1, 29], repeat = 3, frame = [{ticks = 1000, item = [{form = \"mode\", to = 6, code = 17, word = 9}]}]}, {address = 6, subsystem = \"tally\"}]\nfault = [{attempt = 1, part = \"first\", kind = \"fade\", word = 2, at = [3, 38]}]\n";

#[test]
fn reads_a_plan(rt: HostRuntime) -> Result<(), Fail> {
    match read_plan(rt.alloc(), PLAN.as_bytes()) {
        Ok(plan) => match (plan.stations.as_slice(), plan.faults.as_slice()) {
            ([first, second], [fault]) => {
                assert_eq!(rt; plan.start, 5);
                assert_eq!(rt; first.terminal.delay, 12);
                assert_eq!(rt; first.terminal.no_receive, 0x2000_0002);
                assert_eq!(rt; first.repeat, 3);
                assert!(rt; matches!(second.terminal.subsystem, Some(SubsystemKind::Tally)));
                assert!(rt; matches!(fault.hit, Hit::Fade { word: 2, .. }));
            }
            _ => assert!(rt; false),
        },
        Err(_) => assert!(rt; false),
    }
    Ok(())
}
