//! The reader of capture texts, one byte at a time.
ghost use Rattle.std.specs.Prelude.{◌≡◌, ◌<◌, ◌≤◌, ◌+◌, ℕ, List, [], ◌∷◌, ◌++◌, take, length, reverse};
ghost use Rattle.bus_capture.specs.Readings.{
  reached,
  sample_of,
  first_byte,
  second_byte,
  in_header,
  in_ticks,
  one_byte,
  end_in,
  end_after,
  answer_at,
  answer_now,
  place_after,
  ticks_in,
};
ghost use Rattle.bus_capture.specs.Reader.{ReaderStands, after_byte};
ghost use Rattle.bus_base.specs.Samples.{quiet_pairs};
ghost use Rattle.bus_capture.specs.Quiet.{ReadsQuiet, IsStep, IsFront, step_in, are_stops, is_sample, are_samples, level, pairs_in, four_quiet, tick_front};
ghost use Rattle.bus_capture.specs.Blocks.{ticks_of};
ghost use Rattle.bus_capture.specs.Readings.{text_limit};
ghost use Rattle.bus_capture.specs.declared.reader.Place.TheVariants.{Between};
ghost use Rattle.std.specs.Prelude.{IsTrue, true};

use crate::block::{Block, BlockRun, front_block};
use crate::refusal::CaptureRefusal;
use bus_base::{Pair, Sample};

// The first line of a capture text.
const HEADER: [u8; 15] = *b"1553 capture 1\n";

// The most bytes that a capture text has: 2^33.
const LIMIT: u64 = 8_589_934_592;

// The samples that the bytes '+', ',' and '-' write.
const LEVELS: [Option<Sample>; 3] = [Some(Sample::Plus), None, Some(Sample::Minus)];

/// Where a text stands after a byte: within the header or between ticks, after a tick's sample of A, or refused.
#[derive(Clone, Copy, Debug, PartialEq, Eq)]
enum Place {
    Between,
    Half(Sample),
    Refused(CaptureRefusal),
}

/// What one byte makes of a text: where it stands then, and the tick that the byte completes.
#[derive(Clone, Copy, Debug, PartialEq, Eq)]
struct Step {
    pub place: Place,
    pub tick: Option<Pair>,
}

/// Quiet ticks at the front of a piece of text.
#[derive(Clone, Copy, Debug, PartialEq, Eq)]
pub struct QuietRun {
    /// The bytes that they take, with the line feeds between them.
    pub bytes: usize,
    /// Their number.
    pub ticks: u64,
}

/// Ticks at the front of a piece of text.
#[derive(Clone, Copy, Debug, PartialEq, Eq)]
pub struct FrontRun {
    /// The bytes that they take, with the line feeds between them.
    pub bytes: usize,
    /// Their number.
    pub ticks: usize,
}

/// Reads a capture text byte by byte. It keeps counts and one sample, and takes no memory.
#[derive(Drop)]
pub struct CaptureReader {
    place: Place,
    at: u64,
    ticks: u64,
}

impl CaptureReader {
    /// A reader that was given no byte.
    pub fn new() -> CaptureReader
        ensures { ReaderStands result [] }
    {
        CaptureReader {
            place: Place::Between,
            at: 0,
            ticks: 0,
        }
    }

    /// Takes the next byte of the text. The tick that it completes, if it completes one; or the first refusal of the text,
    /// with its offset, and after a refusal the same at every further byte.
    pub fn push(&mut self, byte: u8) -> Result<Option<Pair>, CaptureRefusal>
        ensures stands { (bytes : List ℕ) → ReaderStands self.old bytes → ReaderStands self.new (byte ∷ bytes) }
        ensures answer { (bytes : List ℕ) → ReaderStands self.old bytes → result ≡ answer_now (byte ∷ bytes) }
    {
        self.take(byte)
    }

    /// What the text comes to where it ends here: the number of its ticks, or its refusal. A text that ends within its
    /// header or after half a tick is refused with its length, and that changes nothing: a further byte goes on from here.
    pub fn end(&self) -> Result<u64, CaptureRefusal>
        ensures { (bytes : List ℕ) → ReaderStands self.now bytes → result ≡ end_after bytes }
    {
        self.ended()
    }

    /// Takes the quiet ticks at the front of a piece of the text, with the line feeds between them, as `push` would take them byte by byte:
    /// both channels are quiet in each of these ticks. None where the text stands elsewhere than between two ticks.
    pub fn skip_quiet(&mut self, piece: &[u8]) -> QuietRun
        ensures within { result.bytes ≤ length piece.now }
        ensures stands { (bytes : List ℕ) → ReaderStands self.old bytes → ReaderStands self.new (reverse (take result.bytes piece.now) ++ bytes) }
        ensures ticks { (bytes : List ℕ) → ReaderStands self.old bytes →
            ticks_in (reverse (take result.bytes piece.now) ++ bytes) ≡ quiet_pairs result.ticks ++ ticks_in bytes }
        ensures place { (bytes : List ℕ) → ReaderStands self.old bytes →
            place_after (reverse (take result.bytes piece.now) ++ bytes) ≡ place_after bytes }
    {
        if !self.stands_between(piece.len()) {
            return QuietRun { bytes: 0, ticks: 0 };
        }
        let run = quiet_front(piece);
        self.at = self.at.saturating_add(run.bytes as u64);
        self.ticks = self.ticks.saturating_add(run.ticks);
        run
    }

    /// Takes the whole ticks at the front of a piece of the text, with the line feeds between them, as `push` would take them byte by byte, and
    /// leaves them in the front of `ticks`: as many as come, and no more than there is room for. None where the text stands elsewhere than
    /// between two ticks, or something else comes.
    pub fn read_ticks(&mut self, piece: &[u8], ticks: &mut [Pair]) -> FrontRun
        ensures within { result.bytes ≤ length piece.now }
        ensures room { result.ticks ≤ length ticks.new }
        ensures stands { (bytes : List ℕ) → ReaderStands self.old bytes → ReaderStands self.new (reverse (take result.bytes piece.now) ++ bytes) }
        ensures ticks { (bytes : List ℕ) → ReaderStands self.old bytes →
            ticks_in (reverse (take result.bytes piece.now) ++ bytes) ≡ reverse (take result.ticks ticks.new) ++ ticks_in bytes }
        ensures place { (bytes : List ℕ) → ReaderStands self.old bytes →
            place_after (reverse (take result.bytes piece.now) ++ bytes) ≡ place_after bytes }
    {
        if !self.stands_between(piece.len()) {
            return FrontRun { bytes: 0, ticks: 0 };
        }
        let run = front_ticks(piece, ticks);
        self.at = self.at.saturating_add(run.bytes as u64);
        self.ticks = self.ticks.saturating_add(run.ticks as u64);
        run
    }

    /// Takes the ticks at the front of a piece of the text as bits, up to 64 and up to the end of a line, with its line feed, as `push` would take them
    /// byte by byte. None where the text stands elsewhere than between two ticks, or fewer than 128 bytes are left.
    #[inline(always)]
    pub fn read_block(&mut self, piece: &[u8]) -> BlockRun
        ensures within { result.bytes ≤ length piece.now }
        ensures few { result.block.ticks ≤ 64 }
        ensures stands { (bytes : List ℕ) → ReaderStands self.old bytes → ReaderStands self.new (reverse (take result.bytes piece.now) ++ bytes) }
        ensures ticks { (bytes : List ℕ) → ReaderStands self.old bytes →
            ticks_in (reverse (take result.bytes piece.now) ++ bytes) ≡ reverse (ticks_of result.block) ++ ticks_in bytes }
        ensures place { (bytes : List ℕ) → ReaderStands self.old bytes →
            place_after (reverse (take result.bytes piece.now) ++ bytes) ≡ place_after bytes }
    {
        if !self.stands_between(piece.len()) {
            return BlockRun {
                block: Block::none(),
                bytes: 0,
            };
        }
        let run = front_block(piece);
        self.at = self.at.saturating_add(run.bytes as u64);
        self.ticks = self.ticks.saturating_add(u64::from(run.block.ticks));
        run
    }

    // Whether it stands between two ticks, and no text of so many bytes more is too long.
    fn stands_between(&self, more: usize) -> bool
        ensures { IsTrue result → (self.now.place ≡ Between) × (15 ≤ self.now.at) × (self.now.at + more ≤ text_limit) }
    {
        let room = LIMIT.saturating_sub(self.at);
        self.place == Place::Between && self.at >= 15 && more as u64 <= room && self.at <= LIMIT
    }

    fn take(&mut self, byte: u8) -> Result<Option<Pair>, CaptureRefusal>
        ensures state { self.new ≡ after_byte self.old byte }
        ensures answer { let step = one_byte self.old.at byte self.old.place in result ≡ answer_at step.place step.tick }
    {
        let step = read_byte(self.at, byte, self.place);
        self.place = step.place;
        self.at = self.at.saturating_add(1);
        self.ticks = self.ticks.saturating_add(u64::from(step.tick.is_some()));
        match step.place {
            Place::Refused(refusal) => Err(refusal),
            Place::Between | Place::Half(_) => Ok(step.tick),
        }
    }

    fn ended(&self) -> Result<u64, CaptureRefusal>
        ensures { result ≡ end_in self.now.at self.now.ticks self.now.place }
    {
        match self.place {
            Place::Refused(refusal) => Err(refusal),
            Place::Half(_) => Err(CaptureRefusal::HalfTick(self.at)),
            Place::Between if self.at < 15 => Err(CaptureRefusal::Header(self.at)),
            Place::Between => Ok(self.ticks),
        }
    }
}

// The quiet ticks at the front of a piece that begins between two ticks.
fn quiet_front(piece: &[u8]) -> QuietRun
    ensures within { result.bytes ≤ length piece.now }
    ensures reads { ReadsQuiet (take result.bytes piece.now) result.ticks }
{
    let mut bytes = 0;
    let mut ticks = 0;
    'bytes: while bytes < piece.len() {
        let next = quiet_part(&piece[bytes..]);
        if next.bytes == 0 {
            break 'bytes;
        }
        bytes += next.bytes;
        ticks += next.ticks;
    }
    QuietRun { bytes, ticks }
}

// 32 quiet ticks at the front of a piece, or four, or less.
fn quiet_part(piece: &[u8]) -> QuietRun
    ensures { IsStep piece.now result }
{
    if begins_quiet(piece) {
        return QuietRun {
            bytes: 64,
            ticks: 32,
        };
    }
    if are_four_quiet(piece) {
        return QuietRun { bytes: 8, ticks: 4 };
    }
    quiet_step(piece)
}

// Whether a piece begins with 32 quiet ticks, half a line.
fn begins_quiet(piece: &[u8]) -> bool
    ensures { IsTrue result → (64 ≤ length piece.now) × (are_stops (take 64 piece.now) ≡ true) }
{
    if piece.len() < 64 {
        return false;
    }
    only_stops(&piece[..64])
}

// Whether all bytes are full stops. It goes over all of them, many at once.
fn only_stops(bytes: &[u8]) -> bool
    ensures { result ≡ are_stops bytes.now }
{
    let mut only = true;
    for byte in bytes {
        only = only & (*byte == b'.');
    }
    only
}

// Whether a piece begins with four quiet ticks.
fn are_four_quiet(piece: &[u8]) -> bool
    ensures { result ≡ four_quiet piece.now }
{
    matches!(piece, [b'.', b'.', b'.', b'.', b'.', b'.', b'.', b'.', ..])
}

// One quiet tick or one line feed at the front of a piece, if there is one.
fn quiet_step(piece: &[u8]) -> QuietRun
    ensures { result ≡ step_in piece.now }
{
    match piece {
        [b'.', b'.', ..] => QuietRun { bytes: 2, ticks: 1 },
        [b'\n', ..] => QuietRun { bytes: 1, ticks: 0 },
        _ => QuietRun { bytes: 0, ticks: 0 },
    }
}

// The ticks at the front of a piece that begins between two ticks, left in the front of `ticks`: those of a whole line at once, or else those
// up to the end of the line.
fn front_ticks(piece: &[u8], ticks: &mut [Pair]) -> FrontRun
    ensures { IsFront piece.now ticks.new result }
{
    if ticks.len() >= 64 && begins_line(piece) {
        copy_line(&piece[..128], ticks);
        return FrontRun {
            bytes: 128,
            ticks: 64,
        };
    }
    rest_of_line(piece, ticks)
}

// Whether a piece begins with 64 ticks and no line feed between them.
fn begins_line(piece: &[u8]) -> bool
    ensures { IsTrue result → (128 ≤ length piece.now) × (are_samples (take 128 piece.now) ≡ true) }
{
    if piece.len() < 128 {
        return false;
    }
    only_samples(&piece[..128])
}

// Whether all bytes are samples. It goes over all of them, many at once.
fn only_samples(bytes: &[u8]) -> bool
    ensures { result ≡ are_samples bytes.now }
{
    let mut only = true;
    for byte in bytes {
        only = only & is_sample(*byte);
    }
    only
}

#[inline(always)]
fn is_sample(byte: u8) -> bool
    ensures { result ≡ is_sample byte }
{
    (byte == b'+') | (byte == b'-') | (byte == b'.')
}

// Leaves the ticks that the bytes of a line write in the front of `ticks`, many at once.
fn copy_line(bytes: &[u8], ticks: &mut [Pair])
    requires line { length bytes.now ≡ 128 }
    requires room { 64 ≤ length ticks.old }
    ensures { take 64 ticks.new ≡ pairs_in bytes.now }
{
    for place in 0..64usize {
        ticks[place] = Pair {
            a: level(bytes[2 * place]),
            b: level(bytes[2 * place + 1]),
        };
    }
}

// The sample that a byte writes, if it writes one.
#[inline(always)]
fn level(byte: u8) -> Sample
    ensures { result ≡ level byte }
{
    if byte == b'+' {
        Sample::Plus
    } else if byte == b'-' {
        Sample::Minus
    } else {
        Sample::Quiet
    }
}

// The ticks up to the end of a line, and its line feed.
fn rest_of_line(piece: &[u8], ticks: &mut [Pair]) -> FrontRun
    ensures { IsFront piece.now ticks.new result }
{
    let mut bytes = 0;
    let mut count = 0;
    'bytes: while bytes < piece.len() && count < ticks.len() {
        match front_tick(&piece[bytes..]) {
            Some(shown) => {
                ticks[count] = shown;
                count += 1;
                bytes += 2;
            }
            None if piece[bytes] == b'\n' => {
                return FrontRun {
                    bytes: bytes + 1,
                    ticks: count,
                };
            }
            None => break 'bytes,
        }
    }
    FrontRun {
        bytes,
        ticks: count,
    }
}

// The tick that the first two bytes of a piece are, if they are one.
#[inline(always)]
fn front_tick(piece: &[u8]) -> Option<Pair>
    ensures { result ≡ tick_front piece.now }
{
    match piece {
        [a, b, ..] => Some(Pair {
            a: sample(*a)?,
            b: sample(*b)?,
        }),
        _ => None,
    }
}

// A channel is quiet for long. The levels of its words are looked up, since a branch on them would be guessed wrong as often as not.
#[inline(always)]
fn sample(byte: u8) -> Option<Sample>
    ensures { result ≡ sample_of byte }
{
    match byte {
        b'.' => Some(Sample::Quiet),
        b'+'..=b'-' => LEVELS[usize::from(byte - b'+')],
        _ => None,
    }
}

fn read_byte(at: u64, byte: u8, place: Place) -> Step
    ensures { result ≡ one_byte at byte place }
{
    match place {
        Place::Refused(_) => reached(place),
        _ if at < 15 => header_step(at, byte),
        _ if at >= LIMIT => reached(Place::Refused(CaptureRefusal::Long(at))),
        Place::Between => first_step(at, byte),
        Place::Half(a) => second_step(at, byte, a),
    }
}

fn reached(place: Place) -> Step
    ensures { result ≡ reached place }
{
    Step { place, tick: None }
}

fn header_step(at: u64, byte: u8) -> Step
    requires { at < 15 }
    ensures { result ≡ in_header at byte }
{
    if HEADER[at as usize] == byte {
        reached(Place::Between)
    } else {
        reached(Place::Refused(CaptureRefusal::Header(at)))
    }
}

fn first_step(at: u64, byte: u8) -> Step
    ensures { result ≡ first_byte at byte (sample_of byte) }
{
    match sample(byte) {
        Some(a) => reached(Place::Half(a)),
        None if byte == b'\n' => reached(Place::Between),
        None => reached(Place::Refused(CaptureRefusal::Byte(at))),
    }
}

fn second_step(at: u64, byte: u8, a: Sample) -> Step
    ensures { result ≡ second_byte at a (sample_of byte) }
{
    match sample(byte) {
        Some(b) => Step {
            place: Place::Between,
            tick: Some(Pair { a, b }),
        },
        None => reached(Place::Refused(CaptureRefusal::Byte(at))),
    }
}

#[cfg(test)]
mod tests {
    use super::*;

    fn ended(text: &[u8]) -> Result<u64, CaptureRefusal> {
        let mut reader = CaptureReader::new();
        for byte in text {
            let _ = reader.push(*byte);
        }
        reader.end()
    }

    fn is_header_refused_at(at: usize) -> bool {
        let mut reader = CaptureReader::new();
        for (place, byte) in HEADER.iter().enumerate() {
            let _ = reader.push(if place == at { *byte ^ 1 } else { *byte });
        }
        reader.end() == Err(CaptureRefusal::Header(at as u64))
    }

    // the offsets are those of the worked texts: a header is 15 bytes
    #[test]
    fn refusals_have_their_offset(rt: HostRuntime) {
        let header = CaptureRefusal::Header;
        let byte = CaptureRefusal::Byte;
        assert_eq!(rt; ended(b""), Err(header(0)));
        assert_eq!(rt; ended(b"1553 capture 1"), Err(header(14)));
        assert_eq!(rt; ended(b"1553 capture 2\n..\n"), Err(header(13)));
        assert_eq!(rt; ended(b"1553 capture 1\n"), Ok(0));
        assert_eq!(rt; ended(b"1553 capture 1\n+\n"), Err(byte(16)));
        assert_eq!(rt; ended(b"1553 capture 1\n\n\n+-\n..x+"), Err(byte(22)));
        assert_eq!(rt;
            ended(b"1553 capture 1\n..+"),
            Err(CaptureRefusal::HalfTick(18))
        );
        assert_eq!(rt; ended(b"1553 capture 1\n..+-\n\n-+"), Ok(3));
    }

    #[test]
    fn each_byte_of_the_header_counts(rt: HostRuntime) {
        for at in 0..15 {
            assert!(rt; is_header_refused_at(at), "at {at}");
        }
    }

    #[test]
    fn a_refusal_stays(rt: HostRuntime) {
        let mut reader = CaptureReader::new();
        assert_eq!(rt; reader.push(b'2'), Err(CaptureRefusal::Header(0)));
        assert_eq!(rt; reader.push(b'1'), Err(CaptureRefusal::Header(0)));
        assert_eq!(rt; reader.end(), Err(CaptureRefusal::Header(0)));
    }
}
