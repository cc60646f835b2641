//! The lines of a tick without marks.
ghost use Rattle.std.specs.Prelude.{◌≡◌, ◌+◌, ◌<◌, ◌≤◌, ◌^◌, ◌&&◌, ◌++◌, ◌∷◌, [], length, false};
ghost use Rattle.bus_base.specs.declared.samples.Channel.TheVariants as channels;
ghost use Rattle.bus_line.specs.Spelling.{same_sample};
ghost use Rattle.bus_text.specs.Texts.{line};
ghost use Rattle.bus_wave.specs.Levels.{four_digits};
ghost use Rattle.bus_wave.specs.Marks.{column_of, is_minus as minus, level_changes, changes_of, tick_changes};
ghost use Rattle.bus_wave.specs.Texts.{changes_text, letter as letter_of, level_byte as byte_of_level, bit_byte as byte_of_bit};

use crate::dump_text::DumpText;
use crate::marks::Column;
use crate::stamp::Stamp;
use crate::text::{add_levels, add_tick, bit_byte, is_minus, letter, level_byte, same, same_bit};
use bus_base::{Channel, Pair, Sample};

/// Adds the lines of a tick without marks, by what the tick before showed.
#[inline(always)]
pub fn add_shown(tick: u64, before: Pair, shown: Pair, stamp: &mut Stamp, text: &mut DumpText)
    requires time { tick < 2 ^ 60 }
    requires room { length text.old ≤ 3000 }
    ensures text { text.new ≡ text.old ++ changes_text (tick_changes tick before (column_of shown)) }
    ensures grows { length text.new ≤ length text.old + 1000 }
{
    if tick < 2000 {
        add_tick(tick, before, &Column::of(shown), text);
    } else {
        add_late(tick, before, shown, stamp, text);
    }
}

// The same, from tick 2,000 on: its time is at least 10,000.
#[inline(always)]
fn add_late(tick: u64, before: Pair, shown: Pair, stamp: &mut Stamp, text: &mut DumpText)
    requires late { 2000 ≤ tick }
    requires time { tick < 2 ^ 60 }
    requires room { length text.old ≤ 3000 }
    ensures text { text.new ≡ text.old ++ changes_text (tick_changes tick before (column_of shown)) }
    ensures grows { length text.new ≤ length text.old + 40 }
{
    if !same_pair(before, shown) {
        add_changed(tick, before, shown, stamp, text);
    }
}

// The same, where something changes.
#[inline(always)]
fn add_changed(tick: u64, before: Pair, shown: Pair, stamp: &mut Stamp, text: &mut DumpText)
    requires late { 2000 ≤ tick }
    requires time { tick < 2 ^ 60 }
    requires room { length text.old ≤ 3000 }
    requires changed { (same_sample before.a shown.a && same_sample before.b shown.b) ≡ false }
    ensures text { text.new ≡ text.old ++ changes_text (changes_of tick before (column_of shown)) }
    ensures grows { length text.new ≤ length text.old + 40 }
{
    stamp.renew(tick / 2000);
    text.add_stamp(stamp);
    add_rest((5 * tick % 10_000) as u16, before, shown, text);
}

// Adds what follows the first digits of a time: the last four, and the levels that change.
#[inline(always)]
fn add_rest(last: u16, before: Pair, shown: Pair, text: &mut DumpText)
    requires last { last < 10000 }
    requires room { length text.old ≤ 3900 }
    requires changed { (same_sample before.a shown.a && same_sample before.b shown.b) ≡ false }
    ensures text { text.new ≡ text.old ++ ((line (four_digits last) ++ changes_text (level_changes channels.A before.a shown.a))
        ++ changes_text (level_changes channels.B before.b shown.b)) }
    ensures grows { length text.new ≤ length text.old + 17 }
{
    if same(before.a, shown.a) {
        add_first(Channel::B, last, before.b, shown.b, text);
        return;
    }
    add_first(Channel::A, last, before.a, shown.a, text);
    if !same(before.b, shown.b) {
        add_levels(Channel::B, before.b, shown.b, text);
    }
}

// Adds the last four digits of a time, and the lines of a level that changes.
#[inline(always)]
fn add_first(channel: Channel, last: u16, before: Sample, now: Sample, text: &mut DumpText)
    requires last { last < 10000 }
    requires room { length text.old ≤ 4000 }
    requires changed { same_sample before now ≡ false }
    ensures text { text.new ≡ text.old ++ (line (four_digits last) ++ changes_text (level_changes channel before now)) }
    ensures grows { length text.new ≤ length text.old + 11 }
{
    let count = if same_bit(is_minus(before), is_minus(now)) {
        8
    } else {
        11
    };
    text.add_front(&first_lines(channel, last, now), count);
}

// The last four digits of a time, and the lines of a level and of whether it is negative.
#[inline(always)]
fn first_lines(channel: Channel, last: u16, now: Sample) -> [u8; 16]
    requires { last < 10000 }
    ensures { result ≡ (line (four_digits last) ++ (byte_of_level now ∷ letter_of channel 76 ∷ 10 ∷ byte_of_bit (minus now) ∷ letter_of channel 78 ∷ 10 ∷ []))
        ++ (0 ∷ 0 ∷ 0 ∷ 0 ∷ 0 ∷ []) }
{
    let (high, low) = (last / 100, last % 100);
    [
        b'0' + (high / 10) as u8,
        b'0' + (high % 10) as u8,
        b'0' + (low / 10) as u8,
        b'0' + (low % 10) as u8,
        b'\n',
        level_byte(now),
        letter(channel, b'L'),
        b'\n',
        bit_byte(is_minus(now)),
        letter(channel, b'N'),
        b'\n',
        0,
        0,
        0,
        0,
        0,
    ]
}

#[inline(always)]
fn same_pair(before: Pair, now: Pair) -> bool
    ensures { result ≡ (same_sample before.a now.a && same_sample before.b now.b) }
{
    same(before.a, now.a) && same(before.b, now.b)
}
