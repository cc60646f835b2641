// The statuses, the text and the objects that the top call leaves. The plans and their texts are worked rows of the project's.
ghost use Rattle.std.specs.Prelude.{[], None};

use crate::{Ended, bus_tool};
use bus_formats::Delivery;
use bus_outside::{MemorySink, MemorySource};
use bus_subsystem::{LineText, Recorder, Subsystem, Tally};
use std::alloc::AllocError;
use std::process::Abort;
use std::test::Fail;

// A line more at its end names the subsystem of the station with the address 5.
const PLAN: &str = "version = 1
start = 31
[[station]]
address = 31
[[station.frame]]
[[station.frame.item]]
form = \"receive\"
to = 5
sub = 1
words = [0x0102, 0x0304]
[[station]]
address = 5
";

// The report of that plan up to its last line, before which stands what a subsystem says.
const LINES: &str = "attempt 1 station 31 frame 1 item 1 try 1 A 8 2822 clear status 2800
word 8 A c 2822
word 48 A d 0102
word 88 A d 0304
word 132 A c 2800
burst 8 A 120 3
burst 132 A 40 1
terminal 5 status 2800 last 2822 off -
block 5 1 0102 0304
";

const LAST_LINE: &str = "end 252 clashes 0
";

// Offers a mode command that no terminal may know: it is refused as illegal.
const ILLEGAL_PLAN: &str = "version = 1
start = 31
[[station]]
address = 31
[[station.frame]]
[[station.frame.item]]
form = \"mode\"
to = 5
code = 9
[[station]]
address = 5
";

const ILLEGAL_REPORT: &str =
    "attempt 1 station 31 frame 1 item 1 try 1 A 8 2C09 illegal 1 status 2C00
word 8 A c 2C09
word 52 A c 2C00
burst 8 A 40 1
burst 52 A 40 1
terminal 5 status 2C00 last 2C09 off -
end 172 clashes 0
";

// The capture of the first plan, a worked row of the project's.
const CAPTURE: &str = "1553 capture 1
................+.+.+.-.-.-.-.+.-.+.+.-.-.+.+.-.-.+.-.+.-.+.-.+.-.+.+.-.-.+.-.+.-.+.+.-.-.+.+.-.-.-.-.+.+.+.-.+.-.+.-.+.-.+.-.+.
-.+.-.+.+.-.-.+.-.+.-.+.-.+.-.+.-.+.+.-.-.+.+.-.-.-.-.+.+.+.-.+.-.+.-.+.-.+.-.+.-.+.+.-.+.-.-.+.-.+.-.+.-.+.-.+.+.-.-.+.-.+.-.+.
........+.+.+.-.-.-.-.+.-.+.+.-.-.+.+.-.-.+.-.+.-.+.-.+.-.+.-.+.-.+.-.+.-.+.-.+.-.+.+.-.........................................
........................................................................................................................
";

// Two faults of that plan, of which the second names an attempt that doesn't come.
const FAULTS: &str = "[[fault]]
attempt = 1
part = \"command\"
kind = \"flip\"
word = 2
at = [6]
[[fault]]
attempt = 2
part = \"first\"
kind = \"cut\"
after = 0
";

const SURVEY: &str =
    "fault 1 clear 0 sent 0 declined 0 passed 0 illegal 0 busy 0 no-response 1 bad-reply 0 abandoned 0 yielded 0
fault 2 clear 1 sent 0 declined 0 passed 0 illegal 0 busy 0 no-response 0 bad-reply 0 abandoned 0 yielded 0
surveyed 2
";

// The command of three words, 20 dead ticks and a status; then 40 quiet ticks, and no other frame.
const LOAD: &str = "frame 1 ticks 0 short 220 long 3260
load long
";

// The words of the 141 ticks that stand in its first 300 bytes.
const WORDS_OF_300_BYTES: &str = "word 8 A c 2822
word 48 A d 0102
word 88 A d 0304
";

// An object with room for so many deliveries, for which there is never more memory.
#[derive(Drop)]
struct Roomless {
    space: usize,
}

impl Subsystem for Roomless {
    ghost told = { λ _. None };

    ghost spare = { λ object. object.space };

    ghost said = { λ _. [] };

    fn reserve(&mut self, n: usize) -> Result<(), AllocError> {
        if n <= self.space {
            Ok(())
        } else {
            Err(AllocError)
        }
    }

    fn take(&mut self, _delivery: Delivery) {
        self.space -= 1;
    }

    fn line(&self, _text: &mut LineText) {}
}

// What is left of a call over a plan.
#[derive(Drop)]
struct Left {
    ended: Ended,
    sink: MemorySink,
    objects: usize,
}

// How the streams behave: how many bytes a read gives at most, and the numbers of the reads and writes that fail.
#[derive(Drop)]
struct Streams {
    most: usize,
    failing_reads: Vec<u64>,
    failing_writes: Vec<u64>,
}

impl Streams {
    fn steady(rt: &impl AllocGlobal, most: usize) -> Streams {
        Streams {
            most,
            failing_reads: Vec::new(rt.alloc()),
            failing_writes: Vec::new(rt.alloc()),
        }
    }

    // The read and the write with these numbers fail; numbers begin with 1.
    fn failing(rt: &impl AllocGlobal, most: usize, read: u64, write: u64) -> Result<Streams, Fail> {
        let mut streams = Streams::steady(rt, most);
        streams.failing_reads.push(read)?;
        streams.failing_writes.push(write)?;
        Ok(streams)
    }
}

// Calls the top call with this word, over this plan and 62 objects. Where there is no room, the recorder of the address 5 has none.
fn run_over(
    rt: &(impl Abort + AllocGlobal),
    word: &str,
    plan: &str,
    streams: Streams,
    has_room: bool,
) -> Result<Left, Fail> {
    let mut words = Vec::new(rt.alloc());
    words.push(String::from_str(rt.alloc(), word)?)?;
    let mut bytes = Vec::new(rt.alloc());
    bytes.extend_from_slice(plan.as_bytes())?;
    let mut source = MemorySource::new(bytes, streams.failing_reads, streams.most.max(1));
    let mut sink = MemorySink::new(rt.alloc(), 4096, streams.failing_writes)?;
    let mut subsystems: Vec<Box<dyn Subsystem>> = Vec::new(rt.alloc());
    for address in 0..31 {
        if address == 5 && !has_room {
            subsystems.push(Box::new(rt.alloc(), Roomless { space: 0 })?)?;
        } else {
            subsystems.push(Box::new(rt.alloc(), Recorder::new(rt.alloc()))?)?;
        }
    }
    for _ in 0..31 {
        subsystems.push(Box::new(rt.alloc(), Tally::new())?)?;
    }
    assert!(rt; subsystems.len() == 62);
    let ended = bus_tool(
        rt.alloc(),
        words.as_slice(),
        &mut source,
        &mut sink,
        &mut subsystems,
    );
    Ok(Left {
        ended,
        sink,
        objects: subsystems.len(),
    })
}

// The plan whose station with the address 5 names a subsystem.
fn plan_with(rt: &HostRuntime, subsystem: &str) -> Result<String, Fail> {
    let mut plan = String::from_str(rt.alloc(), PLAN)?;
    plan.push_str("subsystem = \"")?;
    plan.push_str(subsystem)?;
    plan.push_str("\"\n")?;
    Ok(plan)
}

// The report in which a subsystem says this line.
fn report_with(rt: &HostRuntime, line: &str) -> Result<String, Fail> {
    let mut report = String::from_str(rt.alloc(), LINES)?;
    report.push_str(line)?;
    report.push_str(LAST_LINE)?;
    Ok(report)
}

#[test]
fn one_message_from_plan_to_report(rt: HostRuntime) -> Result<(), Fail> {
    let left = run_over(&rt, "run", PLAN, Streams::steady(&rt, 10), true)?;
    assert_eq!(rt; left.ended.status, 0, "memory is ample");
    assert_eq!(rt; left.ended.bus.is_some(), true);
    let report = report_with(&rt, "")?;
    assert_eq!(rt; left.sink.bytes(), report.as_bytes());
    assert_eq!(rt; left.objects, 0, "no station names one");
    Ok(())
}

#[test]
fn one_message_to_a_subsystem(rt: HostRuntime) -> Result<(), Fail> {
    for (subsystem, line) in [
        ("recorder", "subsystem 5 recorder blocks 1 words 2\n"),
        ("tally", "subsystem 5 tally 1:1\n"),
    ] {
        let plan = plan_with(&rt, subsystem)?;
        let left = run_over(&rt, "run", plan.as_str(), Streams::steady(&rt, 4096), true)?;
        assert_eq!(rt; left.ended.status, 0, "memory is ample");
        assert_eq!(rt; left.ended.bus.is_some(), true);
        let report = report_with(&rt, line)?;
        assert_eq!(rt; left.sink.bytes(), report.as_bytes());
        assert_eq!(rt; left.objects, 1, "the one that the plan names");
    }
    Ok(())
}

#[test]
fn a_subsystem_without_room(rt: HostRuntime) -> Result<(), Fail> {
    let plan = plan_with(&rt, "recorder")?;
    let left = run_over(&rt, "run", plan.as_str(), Streams::steady(&rt, 4096), false)?;
    assert_eq!(rt; left.ended.status, 6);
    assert_eq!(rt; left.ended.bus.is_some(), false);
    assert_eq!(rt; left.sink.bytes(), b"".as_slice());
    assert_eq!(rt; left.objects, 62);
    Ok(())
}

#[test]
fn one_message_that_is_refused(rt: HostRuntime) -> Result<(), Fail> {
    let left = run_over(&rt, "run", ILLEGAL_PLAN, Streams::steady(&rt, 4096), true)?;
    assert_eq!(rt; left.ended.status, 1, "memory is ample");
    assert_eq!(rt; left.ended.bus.is_some(), true);
    assert_eq!(rt; left.sink.bytes(), ILLEGAL_REPORT.as_bytes());
    Ok(())
}

#[test]
fn one_message_on_the_line(rt: HostRuntime) -> Result<(), Fail> {
    let plan = plan_with(&rt, "recorder")?;
    let left = run_over(
        &rt,
        "capture",
        plan.as_str(),
        Streams::steady(&rt, 4096),
        true,
    )?;
    assert_eq!(rt; left.ended.status, 0, "memory is ample");
    assert_eq!(rt; left.ended.bus.is_some(), true);
    assert_eq!(rt; left.sink.bytes(), CAPTURE.as_bytes());
    assert_eq!(rt; left.objects, 62);
    Ok(())
}

#[test]
fn streams_that_fail(rt: HostRuntime) -> Result<(), Fail> {
    // the word, the input, the most bytes that a read gives, the read and the write that fail (0: none), the status, the text
    for (word, input, most, read, write, status, text) in [
        ("run", PLAN, 4096, 1, 0, 4, ""),
        ("run", PLAN, 10, 2, 0, 4, ""),
        ("run", "version =", 4096, 0, 1, 5, ""),
        ("capture", PLAN, 10, 2, 0, 4, ""),
        ("capture", PLAN, 4096, 0, 1, 5, ""),
        ("survey", PLAN, 10, 2, 0, 4, ""),
        ("survey", "version =", 4096, 0, 1, 5, ""),
        ("load", PLAN, 10, 2, 0, 4, ""),
        ("load", "version =", 4096, 0, 1, 5, ""),
        ("decode", CAPTURE, 300, 2, 0, 4, WORDS_OF_300_BYTES),
        ("decode", CAPTURE, 4096, 0, 1, 5, ""),
        ("messages", CAPTURE, 300, 2, 0, 4, ""),
        ("messages", CAPTURE, 4096, 0, 1, 5, ""),
    ] {
        let left = run_over(
            &rt,
            word,
            input,
            Streams::failing(&rt, most, read, write)?,
            true,
        )?;
        assert_eq!(rt;
            left.ended.status,
            status,
            "{word}, read {read}, write {write}"
        );
        assert_eq!(rt; left.ended.bus.is_some(), false);
        assert_eq!(rt;
            left.sink.bytes(),
            text.as_bytes(),
            "{word}, read {read}, write {write}"
        );
    }
    Ok(())
}

// Calls the top call with this word, over this plan, so that each write of this text fails in turn, and then none.
fn each_write_fails(
    rt: &(impl Abort + AllocGlobal),
    word: &str,
    plan: &str,
    text: &str,
) -> Result<(), Fail> {
    let mut written = String::new(rt.alloc());
    let mut write = 1u64;
    for line in text.lines() {
        let left = run_over(rt, word, plan, Streams::failing(rt, 4096, 0, write)?, true)?;
        assert_eq!(rt; left.ended.status, 5, "{word}, write {write}");
        assert_eq!(rt;
            left.sink.bytes(),
            written.as_bytes(),
            "{word}, write {write}"
        );
        written.push_str(line)?;
        written.push_str("\n")?;
        write = write.saturating_add(1);
    }
    let left = run_over(rt, word, plan, Streams::failing(rt, 4096, 0, write)?, true)?;
    assert_eq!(rt; left.ended.status, 0, "there is a write for each line");
    assert_eq!(rt; left.sink.bytes(), written.as_bytes());
    Ok(())
}

#[test]
fn each_write_of_a_report_fails(rt: HostRuntime) -> Result<(), Fail> {
    let report = report_with(&rt, "")?;
    each_write_fails(&rt, "run", PLAN, report.as_str())
}

#[test]
fn each_write_of_a_survey_fails(rt: HostRuntime) -> Result<(), Fail> {
    let mut plan = plan_with(&rt, "recorder")?;
    plan.push_str(FAULTS)?;
    each_write_fails(&rt, "survey", plan.as_str(), SURVEY)
}

#[test]
fn each_write_of_a_load_fails(rt: HostRuntime) -> Result<(), Fail> {
    each_write_fails(&rt, "load", PLAN, LOAD)
}

#[test]
fn a_survey_of_no_fault(rt: HostRuntime) -> Result<(), Fail> {
    let left = run_over(&rt, "survey", PLAN, Streams::steady(&rt, 10), true)?;
    assert_eq!(rt; left.ended.status, 0, "memory is ample");
    assert_eq!(rt; left.ended.bus.is_some(), false);
    assert_eq!(rt; left.sink.bytes(), b"surveyed 0\n".as_slice());
    assert_eq!(rt; left.objects, 62);
    Ok(())
}

#[test]
fn words_without_a_meaning(rt: HostRuntime) -> Result<(), Fail> {
    let left = run_over(&rt, "run now", PLAN, Streams::steady(&rt, 4096), true)?;
    assert_eq!(rt; left.ended.status, 2);
    assert_eq!(rt; left.sink.bytes(), b"words refused\n".as_slice());
    assert_eq!(rt; left.objects, 62);
    Ok(())
}
