//! Lines worked by hand, and what a text refuses.
ghost use Rattle.std.specs.Prelude.{◌≡◌};

use crate::*;
use bus_base::{Channel, Tick};
use bus_formats::{Block, Delivery};

fn delivery(sub: u8, words: &[u16; 2]) -> Delivery
    ensures { result.sub ≡ sub }
{
    Delivery {
        tick: Tick(131),
        channel: Channel::A,
        sub,
        broadcast: false,
        words: Block::of(words),
    }
}

#[test]
fn a_recorder_says_blocks_and_words(rt: HostRuntime) {
    let mut recorder = Recorder::new(rt.alloc());
    assert!(rt; recorder.reserve(1).is_ok());
    recorder.take(delivery(1, &[0x0102, 0x0304]));
    let mut text = LineText::new();
    recorder.line(&mut text);
    assert_eq!(rt; text.as_str(), "recorder blocks 1 words 2");
}

#[test]
fn a_tally_says_the_counts_above_zero(rt: HostRuntime) {
    let mut tally = Tally::new();
    tally.take(delivery(1, &[0x0102, 0x0304]));
    let mut text = LineText::new();
    tally.line(&mut text);
    assert_eq!(rt; text.as_str(), "tally 1:1");
    tally.take(delivery(30, &[0, 0]));
    tally.take(delivery(1, &[0, 0]));
    let mut later = LineText::new();
    tally.line(&mut later);
    assert_eq!(rt; later.as_str(), "tally 1:2 30:1");
}

#[test]
fn a_text_refuses_what_is_not_printable_or_too_long(rt: HostRuntime) {
    let mut text = LineText::new();
    assert!(rt; !text.add("a\n"));
    assert!(rt; !text.add("\u{7f}"));
    assert!(rt; !text.add("é"));
    assert_eq!(rt; text.as_str(), "");
    for _ in 0..51 {
        assert!(rt; text.add(" 0123456~Z"));
    }
    assert!(rt; !text.add("abc"));
    assert_eq!(rt; text.as_str().len(), 510);
    assert!(rt; text.add("ab"));
    assert_eq!(rt; text.as_str().len(), 512);
}
