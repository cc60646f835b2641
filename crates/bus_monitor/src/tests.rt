//! Both listings of captures made by hand. Expected lines are counted by hand: a message closes three ticks after the burst that ends it, or
//! 24 ticks after the last burst where no answer begins (MIL-STD-1553B 4.3.3.9).
ghost use Rattle.std.specs.Prelude.{◌<◌};

use crate::{Listing, list_messages, list_words};
use arrayvec::ArrayVec;
use bus_base::{Channel, Pair, Sample};
use bus_capture::{CaptureRefusal, capture_line};
use bus_line::spell;
use bus_outside::{MemorySink, MemorySource};
use bus_words::{Sync, Word};
use std::alloc::{AllocError, Global};
use std::test::Fail;

// Which listing is made.
#[derive(Clone, Copy)]
pub(crate) enum What {
    Words,
    Messages,
}

pub(crate) fn show(pairs: &mut [Pair], channel: Channel, first: usize, sync: Sync, bits: u16) {
    for (at, sample) in spell(Word { sync, bits }).iter().enumerate() {
        if let Some(pair) = pairs.get_mut(first.saturating_add(at)) {
            match channel {
                Channel::A => pair.a = *sample,
                Channel::B => pair.b = *sample,
            }
        }
    }
}

pub(crate) fn text_of(alloc: Global, pairs: &[Pair]) -> Result<Vec<u8>, AllocError> {
    let mut text = Vec::from_slice(alloc, b"1553 capture 1\n")?;
    let mut line = ArrayVec::new();
    for pairs in pairs.chunks(64) {
        if pairs.is_empty() || pairs.len() > 64 {
            continue;
        }
        capture_line(pairs, &mut line);
        text.extend_from_slice(line.as_slice())?;
    }
    Ok(text)
}

// A command word for two data words, these, and the status word that answers them.
fn receive_capture(alloc: Global) -> Result<Vec<u8>, AllocError> {
    let mut pairs = [Pair::QUIET; 252];
    show(&mut pairs, Channel::A, 8, Sync::Command, 0x2822);
    show(&mut pairs, Channel::A, 48, Sync::Datum, 0x0102);
    show(&mut pairs, Channel::A, 88, Sync::Datum, 0x0304);
    show(&mut pairs, Channel::A, 132, Sync::Command, 0x2800);
    text_of(alloc, &pairs)
}

const WORDS: &str =
    "word 8 A c 2822\nword 48 A d 0102\nword 88 A d 0304\nword 132 A c 2800\nend 252\n";

const MESSAGES: &str = "message 8 A 2822 clear status 2800\nend 252\n";

// The listing of a text that comes in pieces of so many bytes at most, where these reads and writes fail.
pub(crate) fn listing_of(
    what: What,
    text: Vec<u8>,
    most: usize,
    failing_reads: Vec<u64>,
    sink: &mut MemorySink,
) -> Listing
    requires { 0 < most }
{
    let mut source = MemorySource::new(text, failing_reads, most);
    match what {
        What::Words => list_words(&mut source, sink),
        What::Messages => list_messages(&mut source, sink),
    }
}

fn lists(
    alloc: Global,
    what: What,
    text: Vec<u8>,
    most: usize,
    listing: Listing,
    lines: &str,
) -> Result<bool, AllocError>
    requires { 0 < most }
{
    let mut sink = MemorySink::new(alloc, 1000, Vec::new(alloc))?;
    let ended = listing_of(what, text, most, Vec::new(alloc), &mut sink);
    Ok(ended == listing && sink.bytes() == lines.as_bytes())
}

fn listed_in_pieces(alloc: Global, most: usize) -> Result<bool, AllocError>
    requires { 0 < most }
{
    let done = Listing::Done(252);
    let words = lists(
        alloc,
        What::Words,
        receive_capture(alloc)?,
        most,
        done,
        WORDS,
    )?;
    let messages = lists(
        alloc,
        What::Messages,
        receive_capture(alloc)?,
        most,
        done,
        MESSAGES,
    )?;
    Ok(words && messages)
}

#[test]
fn listings_are_the_same_in_any_pieces(rt: HostRuntime) -> Result<(), Fail> {
    assert!(rt; listed_in_pieces(rt.alloc(), 1)?);
    assert!(rt; listed_in_pieces(rt.alloc(), 7)?);
    assert!(rt; listed_in_pieces(rt.alloc(), 4096)?);
    Ok(())
}

// The status word of terminal 5 is asked for on A and doesn't come; all terminals are synchronized on B. Both messages close in tick 72.
#[test]
fn both_channels_at_once(rt: HostRuntime) -> Result<(), Fail> {
    let alloc = rt.alloc();
    let mut pairs = [Pair::QUIET; 80];
    show(&mut pairs, Channel::A, 8, Sync::Command, 0x2c02);
    show(&mut pairs, Channel::B, 29, Sync::Command, 0xfc01);
    let lines = "message 8 A 2C02 no-response 1\nmessage 29 B FC01 sent\nend 80\n";
    let text = text_of(alloc, &pairs)?;
    assert!(rt; lists(alloc, What::Messages, text, 7, Listing::Done(80), lines)?);
    let text = text_of(alloc, &pairs)?;
    let lines = "word 8 A c 2C02\nword 29 B c FC01\nend 80\n";
    assert!(rt; lists(alloc, What::Words, text, 7, Listing::Done(80), lines)?);
    Ok(())
}

// Traffic on both channels at once, over the ends of lines, in pieces of so many bytes: of one, where no whole line is taken at once, or of
// more. The second of the two words on B after tick 240 comes after three quiet ticks, so it fills no slot. The expected lines are those of a
// model that was written apart from this program.
fn busy_channels_are_listed(alloc: Global, most: usize) -> Result<bool, AllocError>
    requires { 0 < most }
{
    let mut pairs = [Pair::QUIET; 384];
    show(&mut pairs, Channel::A, 3, Sync::Command, 0x2822);
    show(&mut pairs, Channel::A, 43, Sync::Datum, 0x0102);
    show(&mut pairs, Channel::A, 83, Sync::Datum, 0xffff);
    show(&mut pairs, Channel::A, 130, Sync::Command, 0x2800);
    show(&mut pairs, Channel::B, 50, Sync::Command, 0x2c22);
    show(&mut pairs, Channel::B, 100, Sync::Command, 0x2800);
    show(&mut pairs, Channel::B, 140, Sync::Datum, 0xabcd);
    show(&mut pairs, Channel::B, 180, Sync::Datum, 0x8001);
    show(&mut pairs, Channel::A, 200, Sync::Command, 0xfc01);
    show(&mut pairs, Channel::B, 243, Sync::Datum, 0x1234);
    show(&mut pairs, Channel::B, 286, Sync::Command, 0x2c02);
    let done = Listing::Done(384);
    let words =
        "word 3 A c 2822\nword 43 A d 0102\nword 50 B c 2C22\nword 83 A d FFFF\nword 100 B c 2800\n\
        word 130 A c 2800\nword 140 B d ABCD\nword 180 B d 8001\nword 200 A c FC01\nword 243 B d 1234\nend 384\n";
    let messages = "message 3 A 2822 clear status 2800\nmessage 50 B 2C22 clear status 2800\n\
        message 200 A FC01 sent\nmessage 243 B unknown\nend 384\n";
    let text = text_of(alloc, &pairs)?;
    let words = lists(alloc, What::Words, text, most, done, words)?;
    let text = text_of(alloc, &pairs)?;
    let messages = lists(alloc, What::Messages, text, most, done, messages)?;
    Ok(words && messages)
}

#[test]
fn whole_lines_are_listed_as_their_bytes_are(rt: HostRuntime) -> Result<(), Fail> {
    assert!(rt; busy_channels_are_listed(rt.alloc(), 1)?);
    assert!(rt; busy_channels_are_listed(rt.alloc(), 100)?);
    assert!(rt; busy_channels_are_listed(rt.alloc(), 4096)?);
    Ok(())
}

// An answer counts that begins after 24 quiet ticks, and none that begins after 25.
#[test]
fn an_answer_begins_in_the_last_tick(rt: HostRuntime) -> Result<(), Fail> {
    let alloc = rt.alloc();
    let mut pairs = [Pair::QUIET; 73];
    show(&mut pairs, Channel::A, 8, Sync::Command, 0x2c02);
    show(&mut pairs, Channel::A, 72, Sync::Command, 0x2800);
    let text = text_of(alloc, &pairs)?;
    let lines = "message 8 A open\nend 73\n";
    assert!(rt; lists(alloc, What::Messages, text, 1, Listing::Done(73), lines)?);
    let mut pairs = [Pair::QUIET; 74];
    show(&mut pairs, Channel::A, 8, Sync::Command, 0x2c02);
    show(&mut pairs, Channel::A, 73, Sync::Command, 0x2800);
    let text = text_of(alloc, &pairs)?;
    let lines = "message 8 A 2C02 no-response 1\nmessage 73 A open\nend 74\n";
    assert!(rt; lists(alloc, What::Messages, text, 1, Listing::Done(74), lines)?);
    Ok(())
}

// A million ticks without a quiet one.
#[test]
fn a_burst_that_never_ends(rt: HostRuntime) -> Result<(), Fail> {
    let alloc = rt.alloc();
    let pair = Pair {
        a: Sample::Plus,
        b: Sample::Quiet,
    };
    let mut line = ArrayVec::new();
    capture_line(&[pair; 64], &mut line);
    let mut text = Vec::from_slice(alloc, b"1553 capture 1\n")?;
    for _ in 0..15_625u32 {
        text.extend_from_slice(line.as_slice())?;
    }
    let lines = "message 0 A open\nend 1000000\n";
    assert!(rt;
        lists(
            alloc,
            What::Messages,
            text,
            4096,
            Listing::Done(1_000_000),
            lines
        )?
    );
    Ok(())
}

// The lines of the ticks before a byte that is refused stand, and nothing of what is open.
#[test]
fn a_refusal_leaves_the_lines_before(rt: HostRuntime) -> Result<(), Fail> {
    let alloc = rt.alloc();
    let mut pairs = [Pair::QUIET; 128];
    show(&mut pairs, Channel::A, 8, Sync::Command, 0x2c02);
    show(&mut pairs, Channel::A, 80, Sync::Command, 0x2c02);
    let mut text = text_of(alloc, &pairs)?;
    text.extend_from_slice(b".x")?;
    let byte = Listing::Refused(CaptureRefusal::Byte(15 + 2 * 129 + 1));
    let lines = "message 8 A 2C02 no-response 1\n";
    assert!(rt; lists(alloc, What::Messages, text, 4096, byte, lines)?);
    let mut text = text_of(alloc, &pairs)?;
    text.push(b'+')?;
    let half = Listing::Refused(CaptureRefusal::HalfTick(15 + 2 * 129 + 1));
    assert!(rt; lists(alloc, What::Messages, text, 4096, half, lines)?);
    Ok(())
}

#[test]
fn a_failing_read_leaves_whole_lines(rt: HostRuntime) -> Result<(), Fail> {
    let alloc = rt.alloc();
    let fails = Vec::from_slice(alloc, &[2])?;
    let mut sink = MemorySink::new(alloc, 1000, Vec::new(alloc))?;
    let text = receive_capture(alloc)?;
    assert_eq!(rt;
        listing_of(What::Words, text, 300, fails, &mut sink),
        Listing::ReadFault
    );
    let lines = "word 8 A c 2822\nword 48 A d 0102\nword 88 A d 0304\n";
    assert!(rt; sink.bytes() == lines.as_bytes());
    Ok(())
}

// The second of two pieces is lost with its lines.
#[test]
fn a_failing_write_leaves_a_front(rt: HostRuntime) -> Result<(), Fail> {
    let alloc = rt.alloc();
    let mut sink = MemorySink::new(alloc, 1000, Vec::from_slice(alloc, &[2])?)?;
    let text = receive_capture(alloc)?;
    let ended = listing_of(What::Words, text, 300, Vec::new(alloc), &mut sink);
    assert_eq!(rt; ended, Listing::WriteFault);
    let lines = "word 8 A c 2822\nword 48 A d 0102\nword 88 A d 0304\n";
    assert!(rt; sink.bytes() == lines.as_bytes());
    let mut sink = MemorySink::new(alloc, 1000, Vec::from_slice(alloc, &[2])?)?;
    let text = receive_capture(alloc)?;
    let ended = listing_of(What::Messages, text, 300, Vec::new(alloc), &mut sink);
    assert_eq!(rt; ended, Listing::WriteFault);
    assert!(rt; sink.bytes().is_empty());
    Ok(())
}
