//! Small recordings made by hand. The expected captures are those of another program that makes captures of recordings, written apart from this one.
ghost use Rattle.std.specs.Prelude.{◌<◌};

use crate::lines_tool;
use bus_outside::{MemorySink, MemorySource};
use std::alloc::{AllocError, Global};
use std::test::Fail;

// A sync of half microseconds that a clock of 10 ns saw late, and a tick after it.
const DUMP: &str =
    "$timescale 10 ns $end $var wire 1 ! D0 $end $var wire 1 # D1 $end $enddefinitions $end
#0 0! 0# #400 1! #555 0! 1# #705 1! 0# #755 0! #1000";

const DUMPED: &str = "1553 capture 1\n................+.+.+.-.-.-.+...........\n";

// Two rows for each tick, and after them words.
const LOGIC: &str =
    "a,b\n0,0\n0,0\n0,0\n0,0\n0,0\n0,0\n0,0\n0,0\n1,0\n1,0\n1,0\n1,0\n1,0\n1,0\n0,1\n0,1\n0,1\n0,1\n0,1\n0,1\n1;0\n1\t0\n0,0\n0,0\n0,0\nend\n1,0\n";

const LOGIC_DRAWN: &str = "1553 capture 1\n........+.+.+.-.-.-.+.....\n";

// Times before the trigger; 2.5 V isn't past the threshold.
const VOLTS: &str =
    "Second,Volt,Volt\n-1.0e-6,0.1,0\n-5e-7,0,2.6\n5e-7,-0.1,2.6\n1.0E-6,0,-2.6\n2.5e-6,0,2.5\n4e-6,0,0\n";

const VOLTS_DRAWN: &str = "1553 capture 1\n...+.+.+.-.-.-......\n";

// What a recording comes to.
#[derive(Drop)]
struct Capture {
    status: u8,
    sink: MemorySink,
}

impl Capture {
    fn is(&self, status: u8, text: &str) -> bool {
        self.status == status && self.sink.bytes() == text.as_bytes()
    }
}

// What the program makes, by these words, of a text that comes in pieces of so many bytes, where this read fails and the sink has so much room.
fn made(
    alloc: Global,
    words: &[&str],
    text: &str,
    most: usize,
    failing_read: u64,
    room: usize,
) -> Result<Capture, AllocError>
    requires { 0 < most }
{
    let mut owned = Vec::new(alloc);
    for word in words {
        owned.push(String::from_str(alloc, word)?)?;
    }
    let mut failing_reads = Vec::new(alloc);
    failing_reads.push(failing_read)?;
    let mut source = MemorySource::new(
        Vec::from_slice(alloc, text.as_bytes())?,
        failing_reads,
        most,
    );
    let mut sink = MemorySink::new(alloc, room, Vec::new(alloc))?;
    let status = lines_tool(owned.as_slice(), &mut source, &mut sink);
    Ok(Capture { status, sink })
}

#[test]
fn captures_are_the_same_in_any_pieces(rt: HostRuntime) -> Result<(), Fail> {
    let alloc = rt.alloc();
    for most in [1usize, 7, 4096] {
        let dump = made(alloc, &["vcd", "D0", "D1"], DUMP, most, 0, 200)?;
        assert!(rt; dump.is(0, DUMPED), "a dump in pieces of {most}");
        let logic = made(alloc, &["logic", "250000", "1", "2"], LOGIC, most, 0, 200)?;
        assert!(rt; logic.is(0, LOGIC_DRAWN), "lines in pieces of {most}");
        let volts = made(
            alloc,
            &["volts", "time", "2500", "2", "3"],
            VOLTS,
            most,
            0,
            200,
        )?;
        assert!(rt; volts.is(0, VOLTS_DRAWN), "volts in pieces of {most}");
    }
    Ok(())
}

// No tick was due before any of them.
#[test]
fn refusals_tell_their_places(rt: HostRuntime) -> Result<(), Fail> {
    let alloc = rt.alloc();
    let lines = ["vcd", "D0", "D1"];
    for (text, refusal) in [
        ("$enddefinitions $end", "no-timescale 0"),
        (
            "$timescale 1ns $end $var wire 1 ! D0 $end $enddefinitions $end",
            "no-line D1",
        ),
        ("$timescale 1ns $end x", "token 20"),
        (
            "$timescale 1ns $end $var wire 1 ! D0 $end $var wire 1 # D1 $end $enddefinitions $end #7 #6 ",
            "time 88",
        ),
    ] {
        let made = made(alloc, &lines, text, 4096, 0, 200)?;
        assert!(rt; made.status == 3, "{refusal}");
        let mut whole = String::from_str(alloc, "1553 capture 1\nrecording refused ")?;
        whole.push_str(refusal)?;
        whole.push_str("\n")?;
        assert!(rt; made.is(3, whole.as_str()), "{refusal}");
    }
    let back = made(
        alloc,
        &["volts", "time", "2500", "2"],
        "2e-9,0\n1e-9,0\n",
        4096,
        0,
        200,
    )?;
    assert!(rt; back.is(3, "1553 capture 1\nrecording refused time 7\n"));
    Ok(())
}

#[test]
fn words_without_a_meaning_are_refused(rt: HostRuntime) -> Result<(), Fail> {
    let alloc = rt.alloc();
    let unmeant = made(alloc, &["logic", "0", "1", "2"], LOGIC, 4096, 0, 200)?;
    assert!(rt; unmeant.is(2, "words refused\n"));
    let unnamed = made(alloc, &["vcd", "D0", ""], DUMP, 4096, 0, 200)?;
    assert!(rt; unnamed.is(2, "words refused\n"));
    let roomless = made(alloc, &[], DUMP, 4096, 0, 5)?;
    assert!(rt; roomless.is(5, ""));
    Ok(())
}

// All ticks are due by then that are more than 32 before the last moment, which is at 80 us.
#[test]
fn a_read_that_fails_leaves_the_ticks_before(rt: HostRuntime) -> Result<(), Fail> {
    let alloc = rt.alloc();
    let mut text = String::from_str(alloc, DUMP)?;
    text.push_str(" #8000 #8001 ")?;
    let past_the_end = text.len() as u64 + 1;
    let lines = ["vcd", "D0", "D1"];
    let failed = made(alloc, &lines, text.as_str(), 1, past_the_end, 400)?;
    assert!(rt; failed.status == 4);
    let front = DUMPED.as_bytes().strip_suffix(b"\n").unwrap_or(b"");
    assert!(rt; failed.sink.bytes().starts_with(front));
    Ok(())
}

#[test]
fn a_sink_without_room_ends_it(rt: HostRuntime) -> Result<(), Fail> {
    let alloc = rt.alloc();
    let full = made(alloc, &["vcd", "D0", "D1"], DUMP, 4096, 0, 20)?;
    assert!(rt; full.is(5, ""));
    Ok(())
}
