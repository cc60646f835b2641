//! Tables of a capture made by hand. A response is counted from the middle of the last bit before it, so that four quiet ticks are a response of eight
//! ticks (MIL-STD-1553B 4.3.3.8).
ghost use Rattle.std.specs.Prelude.{◌<◌};

use crate::table_tool;
use arrayvec::ArrayVec;
use bus_base::{Pair, Sample};
use bus_capture::capture_line;
use bus_line::spell;
use bus_outside::{MemorySink, MemorySource};
use bus_words::{Sync, Word};
use std::alloc::{AllocError, Global};
use std::test::Fail;

fn show(pairs: &mut [Pair], first: usize, sync: Sync, bits: u16) {
    for (at, sample) in spell(Word { sync, bits }).iter().enumerate() {
        if let Some(pair) = pairs.get_mut(first.saturating_add(at)) {
            pair.a = *sample;
        }
    }
}

// A command word for two data words, these, and the status word that answers them, on channel A; in this tick it is quiet in any case.
fn capture(alloc: Global, faded: usize) -> Result<Vec<u8>, AllocError> {
    let mut pairs = [Pair::QUIET; 252];
    show(&mut pairs, 8, Sync::Command, 0x2822);
    show(&mut pairs, 48, Sync::Datum, 0x0102);
    show(&mut pairs, 88, Sync::Datum, 0x0304);
    show(&mut pairs, 132, Sync::Command, 0x2800);
    if let Some(pair) = pairs.get_mut(faded) {
        pair.a = Sample::Quiet;
    }
    let mut text = Vec::from_slice(alloc, b"1553 capture 1\n")?;
    let mut line = ArrayVec::new();
    for pairs in pairs.chunks(64) {
        if pairs.is_empty() || pairs.len() > 64 {
            continue;
        }
        capture_line(pairs, &mut line);
        text.extend_from_slice(line.as_slice())?;
    }
    Ok(text)
}

// Whether the table of this format of a text that comes in pieces of so many bytes, where this read fails, ends with this status and is this text.
fn writes(
    alloc: Global,
    format: &str,
    text: Vec<u8>,
    most: usize,
    failing_read: u64,
    status: u8,
    table: &str,
) -> Result<bool, AllocError>
    requires { 0 < most }
{
    let mut words = Vec::new(alloc);
    words.push(String::from_str(alloc, format)?)?;
    let mut failing_reads = Vec::new(alloc);
    failing_reads.push(failing_read)?;
    let mut source = MemorySource::new(text, failing_reads, most);
    let mut sink = MemorySink::new(alloc, 2000, Vec::new(alloc))?;
    let ended = table_tool(words.as_slice(), &mut source, &mut sink);
    Ok(ended == status && sink.bytes() == table.as_bytes())
}

const NAMES: &str =
    "at,us,channel,form,rt,sub,count,code,from,from_sub,commands,outcome,answer,statuses,responses,gap,ticks,data,bad,bad_at\n";

const CLEAR: &str =
    "at,us,channel,form,rt,sub,count,code,from,from_sub,commands,outcome,answer,statuses,responses,gap,ticks,data,bad,bad_at
8,4.0,A,receive,5,1,2,,,,2822,clear,,2800,8,,164,0102 0304,,
";

// The fourth bit of the first data word has no first half, in bit time 7 of that word: its burst is no message that is known. The status word, which
// answers none then, is read as the command of a mode code that isn't answered.
const BAD: &str =
    "at,us,channel,form,rt,sub,count,code,from,from_sub,commands,outcome,answer,statuses,responses,gap,ticks,data,bad,bad_at
8,4.0,A,,,,,,,,,unknown,,,,,120,,bit 7,48
132,66.0,A,mode,5,0,,0,,,2800,no-response,1,,,8,40,,,
";

#[test]
fn rows_are_the_same_in_any_pieces(rt: HostRuntime) -> Result<(), Fail> {
    let alloc = rt.alloc();
    for most in [1usize, 7, 4096] {
        assert!(rt;
            writes(alloc, "csv", capture(alloc, 0)?, most, 0, 0, CLEAR)?,
            "pieces of {most}"
        );
        assert!(rt;
            writes(alloc, "csv", capture(alloc, 60)?, most, 0, 0, BAD)?,
            "pieces of {most}"
        );
    }
    Ok(())
}

// The refused byte is the one after the 15 of the header, the 504 of the ticks and the 4 line feeds.
#[test]
fn objects_end_with_what_ended_them(rt: HostRuntime) -> Result<(), Fail> {
    let alloc = rt.alloc();
    let whole =
        "{\"at\":8,\"us\":4.0,\"channel\":\"A\",\"form\":\"receive\",\"rt\":5,\"sub\":1,\"count\":2,\"code\":null,\"from\":null,\"from_sub\":null,\"commands\":[\"2822\"],\"outcome\":\"clear\",\"answer\":null,\"statuses\":[\"2800\"],\"responses\":[8],\"gap\":null,\"ticks\":164,\"data\":[\"0102\",\"0304\"],\"bad\":null,\"bad_at\":null}\n{\"end\":252,\"messages\":1}\n";
    let refused =
        "{\"at\":8,\"us\":4.0,\"channel\":\"A\",\"form\":\"receive\",\"rt\":5,\"sub\":1,\"count\":2,\"code\":null,\"from\":null,\"from_sub\":null,\"commands\":[\"2822\"],\"outcome\":\"clear\",\"answer\":null,\"statuses\":[\"2800\"],\"responses\":[8],\"gap\":null,\"ticks\":164,\"data\":[\"0102\",\"0304\"],\"bad\":null,\"bad_at\":null}\n{\"refused\":\"byte\",\"offset\":523}\n";
    assert!(rt; writes(alloc, "json", capture(alloc, 0)?, 4096, 0, 0, whole)?);
    let mut damaged = capture(alloc, 0)?;
    damaged.push(b'x')?;
    assert!(rt; writes(alloc, "json", damaged, 4096, 0, 3, refused)?);
    Ok(())
}

// The command of two data words isn't answered yet when the fourth read fails, of pieces of 100 bytes: only the names of the fields stand.
#[test]
fn a_failing_source_leaves_the_rows_so_far(rt: HostRuntime) -> Result<(), Fail> {
    let alloc = rt.alloc();
    assert!(rt; writes(alloc, "csv", capture(alloc, 0)?, 100, 4, 4, NAMES)?);
    assert!(rt;
        writes(
            alloc,
            "xml",
            capture(alloc, 0)?,
            100,
            0,
            2,
            "words refused\n"
        )?
    );
    Ok(())
}
