//! Waves of a capture made by hand. The expected text is that of another program that draws waves, written apart from this one.
ghost use Rattle.std.specs.Prelude.{◌<◌};

use crate::text::HEAD;
use crate::{wave_tool, write_wave};
use bus_capture::CaptureRefusal;
use bus_monitor::Listing;
use bus_outside::{MemorySink, MemorySource};
use std::alloc::{AllocError, Global};
use std::test::Fail;

// A burst of two ticks on A, which is no message, and one on B that runs when the text is refused.
const PULSES: &str = "1553 capture 1\n..+.-...........\n.-..x";

const DRAWN: &str =
    "#5\n1L\nsunknown M\ns? T\ns! W\n#10\n0L\n1N\n#15\nzL\n0N\ns M\ns T\ns W\n#40\n0l\n1n\nsopen m\ns? t\nr4.5 g\ns! w\n#45\nzl\n0n\ns m\ns t\ns w\n#50\n";

const COMMENT: &str = "$comment capture refused byte 36 $end\n";

// The wave of the text that comes in pieces of so many bytes at most, where these reads fail.
fn draws(
    alloc: Global,
    most: usize,
    failing_reads: Vec<u64>,
    ending: Listing,
    comment: &str,
) -> Result<bool, AllocError>
    requires { 0 < most }
{
    let text = Vec::from_slice(alloc, PULSES.as_bytes())?;
    let mut source = MemorySource::new(text, failing_reads, most);
    let mut sink = MemorySink::new(alloc, 2000, Vec::new(alloc))?;
    let ended = write_wave(&mut source, &mut sink);
    let mut whole = Vec::from_slice(alloc, HEAD.as_bytes())?;
    whole.extend_from_slice(DRAWN.as_bytes())?;
    whole.extend_from_slice(comment.as_bytes())?;
    Ok(ended == ending && sink.bytes() == whole.as_slice())
}

#[test]
fn a_wave_is_the_same_in_any_pieces(rt: HostRuntime) -> Result<(), Fail> {
    let alloc = rt.alloc();
    let refused = Listing::Refused(CaptureRefusal::Byte(36));
    assert!(rt; draws(alloc, 1, Vec::new(alloc), refused, COMMENT)?);
    assert!(rt; draws(alloc, 7, Vec::new(alloc), refused, COMMENT)?);
    assert!(rt; draws(alloc, 4096, Vec::new(alloc), refused, COMMENT)?);
    Ok(())
}

// The sixth read would have the wrong byte.
#[test]
fn a_read_that_fails_leaves_the_wave_of_the_ticks_before(rt: HostRuntime) -> Result<(), Fail> {
    let alloc = rt.alloc();
    let mut fails = Vec::new(alloc);
    fails.push(37)?;
    assert!(rt; draws(alloc, 1, fails, Listing::ReadFault, "")?);
    Ok(())
}

// The status where the sink has room for so many bytes, and there are so many words.
fn status(alloc: Global, room: usize, words: &[String]) -> Result<u8, AllocError> {
    let text = Vec::from_slice(alloc, PULSES.as_bytes())?;
    let mut source = MemorySource::new(text, Vec::new(alloc), 7);
    let mut sink = MemorySink::new(alloc, room, Vec::new(alloc))?;
    Ok(wave_tool(words, &mut source, &mut sink))
}

#[test]
fn the_status_tells_how_it_ended(rt: HostRuntime) -> Result<(), Fail> {
    let alloc = rt.alloc();
    let mut words = Vec::new(alloc);
    words.push(String::new(alloc))?;
    assert!(rt; status(alloc, 2000, &[])? == 3);
    assert!(rt; status(alloc, 600, &[])? == 5);
    assert!(rt; status(alloc, 2000, words.as_slice())? == 2);
    Ok(())
}
