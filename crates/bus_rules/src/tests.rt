//! Judgements of captures made by hand. Expected lines are counted by hand from the rules: a burst's end is known three ticks after it.
ghost use Rattle.std.specs.Prelude.{◌<◌};

use crate::{Judgement, judge};
use arrayvec::ArrayVec;
use bus_base::{Channel, Pair, Sample};
use bus_capture::{CaptureRefusal, capture_line};
use bus_line::spell;
use bus_outside::{MemorySink, MemorySource};
use bus_words::{Sync, Word};
use std::alloc::{AllocError, Global};
use std::test::Fail;

fn show(pairs: &mut [Pair], channel: Channel, first: usize, sync: Sync, bits: u16) {
    for (at, sample) in spell(Word { sync, bits }).iter().enumerate() {
        if let Some(pair) = pairs.get_mut(first.saturating_add(at)) {
            match channel {
                Channel::A => pair.a = *sample,
                Channel::B => pair.b = *sample,
            }
        }
    }
}

fn text_of(alloc: Global, pairs: &[Pair]) -> Result<Vec<u8>, AllocError> {
    let mut text = Vec::from_slice(alloc, b"1553 capture 1\n")?;
    let mut line = ArrayVec::new();
    for pairs in pairs.chunks(64) {
        if pairs.is_empty() || pairs.len() > 64 {
            continue;
        }
        capture_line(pairs, &mut line);
        text.extend_from_slice(line.as_slice())?;
    }
    Ok(text)
}

// A command word for two data words, these, and the status word that answers them, after so many dead ticks.
fn show_answered(pairs: &mut [Pair], dead: usize)
    requires { dead < 60 }
{
    show(pairs, Channel::A, 8, Sync::Command, 0x2822);
    show(pairs, Channel::A, 48, Sync::Datum, 0x0102);
    show(pairs, Channel::A, 88, Sync::Datum, 0x0304);
    show(pairs, Channel::A, 128 + dead, Sync::Command, 0x2800);
}

// The capture of such a message.
fn answered_after(dead: usize) -> [Pair; 252]
    requires { dead < 60 }
{
    let mut pairs = [Pair::QUIET; 252];
    show_answered(&mut pairs, dead);
    pairs
}

// Whether a text that comes in pieces of so many bytes is judged so.
fn is_judged(
    alloc: Global,
    text: &[u8],
    most: usize,
    judgement: Judgement,
    lines: &str,
) -> Result<bool, AllocError>
    requires { 0 < most }
{
    let text = Vec::from_slice(alloc, text)?;
    let mut source = MemorySource::new(text, Vec::new(alloc), most);
    let mut sink = MemorySink::new(alloc, 1000, Vec::new(alloc))?;
    let ended = judge(&mut source, &mut sink);
    Ok(ended == judgement && sink.bytes() == lines.as_bytes())
}

fn are_judged(
    alloc: Global,
    pairs: &[Pair],
    breaches: u64,
    lines: &str,
) -> Result<bool, AllocError> {
    let text = text_of(alloc, pairs)?;
    let done = Judgement::Done {
        ticks: pairs.len() as u64,
        breaches,
    };
    let bytes = is_judged(alloc, &text, 1, done, lines)?;
    let pieces = is_judged(alloc, &text, 7, done, lines)?;
    let whole = is_judged(alloc, &text, 4096, done, lines)?;
    Ok(bytes && pieces && whole)
}

#[test]
fn a_message_in_order_is_clean(rt: HostRuntime) -> Result<(), Fail> {
    let alloc = rt.alloc();
    assert!(rt; are_judged(alloc, &answered_after(4), 0, "clean\nend 252\n")?);
    assert!(rt; are_judged(alloc, &answered_after(20), 0, "clean\nend 252\n")?);
    assert!(rt; are_judged(alloc, &[], 0, "clean\nend 0\n")?);
    Ok(())
}

#[test]
fn a_late_answer_is_a_breach(rt: HostRuntime) -> Result<(), Fail> {
    let lines = "breach 149 A response\nbreaches 1\nend 252\n";
    assert!(rt; are_judged(rt.alloc(), &answered_after(21), 1, lines)?);
    Ok(())
}

// One tick of a signal on channel B in the last tick of the burst on channel A.
#[test]
fn an_overlap_of_one_tick_is_a_breach(rt: HostRuntime) -> Result<(), Fail> {
    let mut pairs = answered_after(4);
    if let Some(pair) = pairs.get_mut(127) {
        pair.b = Sample::Plus;
    }
    let lines =
        "breach 127 A overlap\nbreach 127 B gap\nbreach 127 B word\nbreach 127 B unknown\nbreaches 4\nend 252\n";
    assert!(rt; are_judged(rt.alloc(), &pairs, 4, lines)?);
    Ok(())
}

#[test]
fn an_open_burst_is_a_breach(rt: HostRuntime) -> Result<(), Fail> {
    let mut pairs = [Pair::QUIET; 150];
    show_answered(&mut pairs, 4);
    let lines = "breach 132 A open\nbreaches 1\nend 150\n";
    assert!(rt; are_judged(rt.alloc(), &pairs, 1, lines)?);
    Ok(())
}

// A burst of so many ticks, which is no word.
fn long_burst(ticks: usize) -> [Pair; 1616] {
    let mut pairs = [Pair::QUIET; 1616];
    for pair in pairs.iter_mut().take(ticks) {
        pair.a = Sample::Plus;
    }
    pairs
}

#[test]
fn a_burst_of_more_than_1600_ticks_is_a_breach(rt: HostRuntime) -> Result<(), Fail> {
    let alloc = rt.alloc();
    let lines = "breach 0 A word\nbreach 0 A unknown\nbreaches 2\nend 1616\n";
    assert!(rt; are_judged(alloc, &long_burst(1600), 2, lines)?);
    let lines = "breach 0 A word\nbreach 0 A long\nbreach 0 A unknown\nbreaches 3\nend 1616\n";
    assert!(rt; are_judged(alloc, &long_burst(1601), 3, lines)?);
    Ok(())
}

#[test]
fn refused_captures_keep_what_was_known(rt: HostRuntime) -> Result<(), Fail> {
    let alloc = rt.alloc();
    let mut text = text_of(alloc, &answered_after(21))?;
    text.push(b'x')?;
    let refused = Judgement::Refused(CaptureRefusal::Byte(text.len() as u64 - 1));
    assert!(rt; is_judged(alloc, &text, 7, refused, "breach 149 A response\n")?);
    Ok(())
}

// A read that fails in mid-stream, and a write.
#[test]
fn faults_are_told(rt: HostRuntime) -> Result<(), Fail> {
    let alloc = rt.alloc();
    let text = text_of(alloc, &answered_after(21))?;
    let mut failing = Vec::new(alloc);
    failing.push(60)?;
    let mut source = MemorySource::new(Vec::from_slice(alloc, &text)?, failing, 7);
    let mut sink = MemorySink::new(alloc, 1000, Vec::new(alloc))?;
    assert!(rt; judge(&mut source, &mut sink) == Judgement::ReadFault);
    assert!(rt; sink.bytes() == b"breach 149 A response\n".as_slice());

    let mut failing = Vec::new(alloc);
    failing.push(1)?;
    let mut source = MemorySource::new(text, Vec::new(alloc), 7);
    let mut sink = MemorySink::new(alloc, 1000, failing)?;
    assert!(rt; judge(&mut source, &mut sink) == Judgement::WriteFault);
    assert!(rt; sink.bytes().is_empty());
    Ok(())
}
