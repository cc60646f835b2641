//! The lines of a wave.
ghost use Rattle.std.specs.Prelude.{◌≡◌, ◌+◌, ◌*◌, ◌<◌, ◌≤◌, ◌^◌, ◌++◌, length};
ghost use Rattle.bus_line.specs.Spelling.{same_sample};
ghost use Rattle.bus_text.specs.Texts.{line, number};
ghost use Rattle.bus_wave.specs.Marks.{
  time,
  message,
  sender,
  gap,
  word,
  is_minus,
  same_bool,
  level_change,
  negative_change,
  level_changes,
  change_if,
  mark_changes,
  time_change,
  is_still as still,
  changes_of,
  tick_changes,
};
ghost use Rattle.bus_wave.specs.Texts.{
  change_text,
  changes_text,
  sender_text,
  word_text,
  half_text,
  id_text,
  letter,
  level_byte,
  bit_byte,
  refusal_comment,
  offset_comment,
};

use crate::dump_text::DumpText;
use crate::marks::{Column, Marks, MessageMark, SenderMark, WordMark};
use crate::message_names::add_name;
use bus_base::{Channel, Pair, Sample};
use bus_capture::CaptureRefusal;
use bus_words::Command;

/// The head: the lines that a dump begins with, and what stands before the first tick.
pub const HEAD: &str =
    "$comment 1553 wave 1 $end\n$timescale 100 ns $end\n$scope module bus $end\n$var wire 1 L A $end\n$var wire 1 N A_neg $end\n$var string 1 W A_word $end\n$var string 1 M A_message $end\n$var string 1 T A_sender $end\n$var real 64 G A_gap $end\n$var wire 1 l B $end\n$var wire 1 n B_neg $end\n$var string 1 w B_word $end\n$var string 1 m B_message $end\n$var string 1 t B_sender $end\n$var real 64 g B_gap $end\n$upscope $end\n$enddefinitions $end\n#0\n$dumpvars\nzL\n0N\ns W\ns M\ns T\nr0 G\nzl\n0n\ns w\ns m\ns t\nr0 g\n$end\n";

/// Adds the lines of a tick, by what the tick before showed.
#[inline(never)]
pub fn add_tick(tick: u64, before: Pair, column: &Column, text: &mut DumpText)
    requires time { tick < 2 ^ 61 }
    requires room { length text.old ≤ 3000 }
    ensures text { text.new ≡ text.old ++ changes_text (tick_changes tick before column.now) }
    ensures grows { length text.new ≤ length text.old + 1000 }
{
    if !is_still(before, column) {
        add_changes(tick, before, column, text);
    }
}

#[inline(always)]
fn is_still(before: Pair, column: &Column) -> bool
    ensures { result ≡ still before column.now }
{
    same(before.a, column.shown.a)
        && same(before.b, column.shown.b)
        && column.a.is_none()
        && column.b.is_none()
}

fn add_changes(tick: u64, before: Pair, column: &Column, text: &mut DumpText)
    requires time { tick < 2 ^ 61 }
    requires room { length text.old ≤ 3000 }
    ensures text { text.new ≡ text.old ++ changes_text (changes_of tick before column.now) }
    ensures grows { length text.new ≤ length text.old + 1000 }
{
    add_time(tick, text);
    add_levels(Channel::A, before.a, column.shown.a, text);
    add_levels(Channel::B, before.b, column.shown.b, text);
    add_marks(Channel::A, &column.a, text);
    add_marks(Channel::B, &column.b, text);
}

/// Adds the time of a tick, where that isn't the first one.
pub fn add_time(tick: u64, text: &mut DumpText)
    requires time { tick < 2 ^ 61 }
    requires room { length text.old ≤ 4000 }
    ensures text { text.new ≡ text.old ++ changes_text (time_change tick) }
    ensures grows { length text.new ≤ length text.old + 22 }
{
    if tick != 0 {
        add_later(tick, text);
    }
}

fn add_later(tick: u64, text: &mut DumpText)
    requires time { tick < 2 ^ 61 }
    requires room { length text.old ≤ 4000 }
    ensures text { text.new ≡ text.old ++ change_text (time tick) }
    ensures grows { length text.new ≤ length text.old + 22 }
{
    text.text("#");
    text.decimal(5 * tick);
    text.end();
}

#[inline(always)]
pub(crate) fn add_levels(channel: Channel, before: Sample, now: Sample, text: &mut DumpText)
    requires { length text.old ≤ 4000 }
    ensures text { text.new ≡ text.old ++ changes_text (level_changes channel before now) }
    ensures grows { length text.new ≤ length text.old + 6 }
{
    add_level(channel, before, now, text);
    add_negative(channel, before, now, text);
}

#[inline(always)]
fn add_level(channel: Channel, before: Sample, now: Sample, text: &mut DumpText)
    requires { length text.old ≤ 4050 }
    ensures text { text.new ≡ text.old ++ changes_text (level_change channel before now) }
    ensures grows { length text.new ≤ length text.old + 3 }
{
    if !same(before, now) {
        text.add(&[level_byte(now), letter(channel, b'L'), b'\n']);
    }
}

#[inline(always)]
fn add_negative(channel: Channel, before: Sample, now: Sample, text: &mut DumpText)
    requires { length text.old ≤ 4050 }
    ensures text { text.new ≡ text.old ++ changes_text (negative_change channel before now) }
    ensures grows { length text.new ≤ length text.old + 3 }
{
    if !same_bit(is_minus(before), is_minus(now)) {
        text.add(&[bit_byte(is_minus(now)), letter(channel, b'N'), b'\n']);
    }
}

/// Adds the lines of the marks of a channel.
pub fn add_marks(channel: Channel, marks: &Marks, text: &mut DumpText)
    requires { length text.old ≤ 3700 }
    ensures text { text.new ≡ text.old ++ changes_text (mark_changes channel marks.now) }
    ensures grows { length text.new ≤ length text.old + 340 }
{
    add_message(channel, marks.message, text);
    add_sender(channel, marks.sender, text);
    add_gap(channel, marks.gap, text);
    add_word(channel, marks.word, text);
}

fn add_message(channel: Channel, mark: Option<MessageMark>, text: &mut DumpText)
    requires { length text.old ≤ 3800 }
    ensures text { text.new ≡ text.old ++ changes_text (change_if (message channel) mark) }
    ensures grows { length text.new ≤ length text.old + 273 }
{
    if let Some(mark) = mark {
        text.text("s");
        add_name(mark, text);
        end_line(channel, b'M', text);
    }
}

fn add_sender(channel: Channel, mark: Option<SenderMark>, text: &mut DumpText)
    requires { length text.old ≤ 4020 }
    ensures text { text.new ≡ text.old ++ changes_text (change_if (sender channel) mark) }
    ensures grows { length text.new ≤ length text.old + 26 }
{
    if let Some(mark) = mark {
        text.text("s");
        add_terminal(mark, text);
        end_line(channel, b'T', text);
    }
}

fn add_gap(channel: Channel, mark: Option<u64>, text: &mut DumpText)
    requires { length text.old ≤ 4040 }
    ensures text { text.new ≡ text.old ++ changes_text (change_if (gap channel) mark) }
    ensures grows { length text.new ≤ length text.old + 26 }
{
    if let Some(quiet) = mark {
        text.text("r");
        text.decimal(quiet / 2 + 2);
        add_half(quiet, text);
        end_line(channel, b'G', text);
    }
}

fn add_word(channel: Channel, mark: Option<WordMark>, text: &mut DumpText)
    requires { length text.old ≤ 4070 }
    ensures text { text.new ≡ text.old ++ changes_text (change_if (word channel) mark) }
    ensures grows { length text.new ≤ length text.old + 13 }
{
    if let Some(mark) = mark {
        text.text("s");
        add_slot(mark, text);
        end_line(channel, b'W', text);
    }
}

fn add_half(quiet: u64, text: &mut DumpText)
    requires { length text.old ≤ 4080 }
    ensures text { text.new ≡ text.old ++ half_text quiet }
    ensures grows { length text.new ≤ length text.old + 2 }
{
    if quiet % 2 == 0 {
        text.text(".0");
    } else {
        text.text(".5");
    }
}

fn end_line(channel: Channel, capital: u8, text: &mut DumpText)
    requires capital { capital < 128 }
    requires room { length text.old ≤ 4090 }
    ensures text { text.new ≡ line (text.old ++ id_text channel capital) }
    ensures grows { length text.new ≤ length text.old + 3 }
{
    text.add(&[b' ', letter(channel, capital), b'\n']);
}

fn add_terminal(mark: SenderMark, text: &mut DumpText)
    requires { length text.old ≤ 4060 }
    ensures text { text.new ≡ text.old ++ sender_text mark }
    ensures grows { length text.new ≤ length text.old + 22 }
{
    match mark {
        SenderMark::Nobody => {}
        SenderMark::Controller => text.text("BC"),
        SenderMark::Terminal(address) => {
            text.text("RT");
            text.decimal(u64::from(address));
        }
        SenderMark::Unknown => text.text("?"),
    }
}

fn add_slot(mark: WordMark, text: &mut DumpText)
    requires { length text.old ≤ 4080 }
    ensures text { text.new ≡ text.old ++ word_text mark }
    ensures grows { length text.new ≤ length text.old + 9 }
{
    match mark {
        WordMark::Nothing => {}
        WordMark::Bad => text.text("!"),
        WordMark::Command(bits) => {
            text.text("C\\x20");
            text.hex(bits);
        }
        WordMark::Other(bits) => {
            text.text("S\\x20");
            text.hex(bits);
        }
        WordMark::Datum(bits) => text.hex(bits),
    }
}

/// Adds the comment of a refused capture.
pub fn add_refusal(refusal: CaptureRefusal, text: &mut DumpText)
    requires { length text.old ≤ 4000 }
    ensures { text.new ≡ text.old ++ refusal_comment refusal }
{
    match refusal {
        CaptureRefusal::Header(offset) => add_offset(" header", offset, text),
        CaptureRefusal::Byte(offset) => add_offset(" byte", offset, text),
        CaptureRefusal::HalfTick(offset) => add_offset(" half-tick", offset, text),
        CaptureRefusal::Long(offset) => add_offset(" long", offset, text),
    }
}

fn add_offset(name: &str, offset: u64, text: &mut DumpText)
    requires name { length name.now ≤ 14 }
    requires room { length text.old ≤ 4000 }
    ensures { text.new ≡ text.old ++ offset_comment name.now offset }
{
    text.text("$comment capture refused");
    text.text(name);
    text.number(offset);
    text.text(" $end");
    text.end();
}

#[inline(always)]
pub(crate) fn letter(channel: Channel, capital: u8) -> u8
    requires { capital < 128 }
    ensures { result ≡ letter channel capital }
{
    match channel {
        Channel::A => capital,
        Channel::B => capital + 32,
    }
}

#[inline(always)]
pub(crate) fn level_byte(sample: Sample) -> u8
    ensures { result ≡ level_byte sample }
{
    match sample {
        Sample::Plus => b'1',
        Sample::Minus => b'0',
        Sample::Quiet => b'z',
    }
}

#[inline(always)]
pub(crate) fn bit_byte(bit: bool) -> u8
    ensures { result ≡ bit_byte bit }
{
    if bit { b'1' } else { b'0' }
}

#[inline(always)]
pub(crate) fn is_minus(sample: Sample) -> bool
    ensures { result ≡ is_minus sample }
{
    match sample {
        Sample::Minus => true,
        Sample::Plus | Sample::Quiet => false,
    }
}

#[inline(always)]
pub fn same(before: Sample, now: Sample) -> bool
    ensures { result ≡ same_sample before now }
{
    match (before, now) {
        (Sample::Plus, Sample::Plus) => true,
        (Sample::Minus, Sample::Minus) => true,
        (Sample::Quiet, Sample::Quiet) => true,
        _ => false,
    }
}

#[inline(always)]
pub(crate) fn same_bit(before: bool, now: bool) -> bool
    ensures { result ≡ same_bool before now }
{
    match (before, now) {
        (true, true) => true,
        (false, false) => true,
        _ => false,
    }
}
