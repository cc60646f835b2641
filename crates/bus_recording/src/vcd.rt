//! Value change dumps, read byte by byte.
ghost use Rattle.std.specs.Prelude.{◌≡◌, ◌<◌, ◌≤◌, length};
ghost use Rattle.bus_recording.specs.Vcd as spec;
ghost use Rattle.bus_recording.specs.Tokens.{bytes_of, front};
ghost use Rattle.bus_recording.specs.Wires.{wire_named};

use crate::moment::Moment;
use crate::refusal::RecordingRefusal;
use crate::scale::{join, unit_of};
use crate::token::{Token, is_white};
use crate::wires::{Wires, copy};
use arrayvec::ArrayVec;
use bus_decimal::number_up_to;

// The most bytes of a recording: 2^33.
const LIMIT: u64 = 8_589_934_592;

// The latest time, in picoseconds: 2^59.
const LATEST: u64 = 576_460_752_303_423_488;

/// Where a dump stands after a token.
#[derive(Clone, Copy, Debug, PartialEq, Eq)]
pub enum Place {
    /// Between the sections of its head.
    Head,
    /// In the section of the unit of time.
    Scale,
    /// In the section of a variable.
    Variable,
    /// In another section.
    Section,
    /// In the last section.
    Definitions,
    /// Between values.
    Body,
    /// Before the identifier of a value that is passed over.
    Identifier,
    /// In a comment between values.
    Comment,
    /// Refused.
    Refused(RecordingRefusal),
}

/// Reads a value change dump byte by byte. It takes no memory.
#[derive(Drop)]
pub struct VcdReader {
    /// Where it stands.
    pub place: Place,
    /// The token that is read.
    pub token: Token,
    /// The bytes so far.
    pub at: u64,
    /// The text of the unit of time, as far as it is read.
    pub scale: ArrayVec<u8, 8>,
    /// The picoseconds of the unit of time, 0 where it isn't known.
    pub unit: u64,
    /// How many parts of a variable were read, four at most.
    pub part: u8,
    /// Whether these are the parts of a one-bit variable.
    pub is_bit: bool,
    /// The variable's identifier.
    pub id: ArrayVec<u8, 64>,
    /// The lines.
    pub wires: Wires,
    /// The time, in picoseconds.
    pub time: u64,
}

impl VcdReader {
    /// A reader of these lines that was given no byte.
    pub fn new(wires: Wires) -> VcdReader
        ensures { result ≡ spec.reader_of wires }
    {
        VcdReader {
            place: Place::Head,
            token: Token::new(),
            at: 0,
            scale: ArrayVec::new(),
            unit: 0,
            part: 0,
            is_bit: false,
            id: ArrayVec::new(),
            wires,
            time: 0,
        }
    }

    /// Takes the next byte of the text. The moment that it ends, if it ends one; or the first refusal, and after that the same at every further byte.
    pub fn push(&mut self, byte: u8) -> Result<Option<Moment>, RecordingRefusal>
        ensures state { self.new ≡ spec.after_byte byte self.old }
        ensures answer { result ≡ spec.answer_of self.new.place (spec.moment_after byte self.old) }
    {
        let moment = self.take(byte);
        match self.place {
            Place::Refused(refusal) => Err(refusal),
            _ => Ok(moment),
        }
    }

    /// What the text comes to where it ends here: its last moment, or its refusal.
    pub fn end(&mut self) -> Result<Moment, RecordingRefusal>
        ensures state { self.new ≡ spec.token_ended self.old }
        ensures answer { result ≡ spec.end_in self.new.place (spec.moment_ended self.old) self.new }
    {
        let ended = self.end_token();
        match self.place {
            Place::Refused(refusal) => Err(refusal),
            Place::Body | Place::Identifier | Place::Comment => Ok(self.last_moment(ended)),
            Place::Head | Place::Scale | Place::Variable | Place::Section | Place::Definitions =>
                Err(self.head_refusal()),
        }
    }

    fn take(&mut self, byte: u8) -> Option<Moment>
        ensures state { self.new ≡ spec.after_byte byte self.old }
        ensures moment { result ≡ spec.moment_after byte self.old }
    {
        if is_refused(self.place) {
            return None;
        }
        if self.at >= LIMIT {
            self.place = Place::Refused(RecordingRefusal::Long(self.at));
            return None;
        }
        let at = self.at;
        let moment = self.take_byte(byte);
        self.at = at + 1;
        moment
    }

    fn take_byte(&mut self, byte: u8) -> Option<Moment>
        ensures state { self.new ≡ spec.byte_taken byte self.old }
        ensures moment { result ≡ spec.moment_taken byte self.old }
    {
        if is_white(byte) {
            return self.end_token();
        }
        self.token.push(self.at, byte);
        None
    }

    // A token ends, where one is begun.
    fn end_token(&mut self) -> Option<Moment>
        ensures state { self.new ≡ spec.token_ended self.old }
        ensures moment { result ≡ spec.moment_ended self.old }
    {
        if !self.token.is_begun() {
            return None;
        }
        let moment = self.take_token();
        self.token = Token::new();
        moment
    }

    fn take_token(&mut self) -> Option<Moment>
        ensures state { self.new ≡ spec.token_in self.old.place self.old }
        ensures moment { result ≡ spec.moment_in self.old.place self.old }
    {
        match self.place {
            Place::Body => return self.take_value(),
            Place::Head => self.take_head(),
            Place::Scale => self.take_scale(),
            Place::Variable => self.take_variable(),
            Place::Section => self.pass_to(Place::Head),
            Place::Definitions => self.pass_to(Place::Body),
            Place::Identifier => self.place = Place::Body,
            Place::Comment => self.pass_to(Place::Body),
            Place::Refused(_) => {}
        }
        None
    }

    // ---- the head

    fn is_end(&self) -> bool
        ensures { result ≡ spec.ends_section self.now }
    {
        self.token.is_word(b"$end")
    }

    fn pass_to(&mut self, next: Place)
        ensures { self.new ≡ spec.passed next self.old }
    {
        if self.is_end() {
            self.place = next;
        }
    }

    fn take_head(&mut self)
        ensures { self.new ≡ spec.head_token self.old }
    {
        if self.token.is_word(b"$timescale") {
            self.place = Place::Scale;
            self.scale.clear();
        } else if self.token.is_word(b"$var") {
            self.place = Place::Variable;
            self.part = 0;
            self.is_bit = true;
        } else if self.token.is_word(b"$enddefinitions") {
            self.end_head();
        } else {
            self.begin_section();
        }
    }

    fn begin_section(&mut self)
        ensures { self.new ≡ spec.section_begins self.old }
    {
        if self.token.front() == b'$' {
            self.place = Place::Section;
        } else {
            self.place = Place::Refused(RecordingRefusal::Token(self.token.start));
        }
    }

    fn end_head(&mut self)
        ensures { self.new ≡ spec.definitions_end self.old }
    {
        if self.unit == 0 {
            self.place = Place::Refused(RecordingRefusal::NoTimescale);
            return;
        }
        match self.wires.first_missing() {
            Some(line) => self.place = Place::Refused(RecordingRefusal::NoLine(line)),
            None => self.place = Place::Definitions,
        }
    }

    fn take_scale(&mut self)
        ensures { self.new ≡ spec.scale_token self.old }
    {
        if self.is_end() {
            self.place = Place::Head;
            self.unit = unit_of(self.scale.as_slice());
            return;
        }
        join(&mut self.scale, self.token.bytes.as_slice());
    }

    fn take_variable(&mut self)
        ensures { self.new ≡ spec.variable_token self.old }
    {
        if self.is_end() {
            self.place = Place::Head;
            return;
        }
        self.take_part();
    }

    fn take_part(&mut self)
        ensures { self.new ≡ spec.variable_part self.old }
    {
        if self.part == 0 {
            self.part = 1;
            self.is_bit = self.token.is_word(b"wire") || self.token.is_word(b"reg");
        } else if self.part == 1 {
            self.part = 2;
            self.is_bit = self.is_bit && self.token.is_word(b"1");
        } else if self.part == 2 {
            self.part = 3;
            self.is_bit = self.is_bit && !self.token.is_long;
            copy(self.token.bytes.as_slice(), &mut self.id);
        } else if self.part == 3 {
            self.take_name();
        }
    }

    fn take_name(&mut self)
        ensures { self.new ≡ spec.named self.old }
    {
        self.part = 4;
        if self.is_bit && !self.token.is_long {
            self.wires
                .declare(self.id.as_slice(), self.token.bytes.as_slice());
        }
    }

    // ---- the values

    // A token between values; the moment that it ends, if it is a time.
    fn take_value(&mut self) -> Option<Moment>
        ensures state { self.new ≡ spec.body_token self.old }
        ensures moment { result ≡ spec.moment_in_body self.old }
    {
        let first = self.token.front();
        if first == b'#' {
            return self.take_time();
        }
        if is_value(first) {
            self.take_change(first == b'1');
        } else if is_other_value(first) {
            self.place = Place::Identifier;
        } else {
            self.take_word();
        }
        None
    }

    fn time_said(&self) -> Option<u64>
        ensures { result ≡ spec.time_said self.now }
    {
        if self.token.is_long {
            return None;
        }
        time_up_to(self.unit, number_up_to(LATEST, self.token.rest()))
    }

    fn take_time(&mut self) -> Option<Moment>
        ensures state { self.new ≡ spec.time_token (spec.time_said self.old) self.old }
        ensures moment { result ≡ spec.moment_of (spec.time_said self.old) self.old }
    {
        match self.time_said() {
            None => {
                self.place = Place::Refused(RecordingRefusal::Token(self.token.start));
                None
            }
            Some(time) if time < self.time => {
                self.place = Place::Refused(RecordingRefusal::Time(self.token.start));
                None
            }
            Some(time) => {
                let moment = self.moment();
                self.time = time;
                Some(moment)
            }
        }
    }

    fn moment(&self) -> Moment
        ensures { result ≡ spec.moment_at self.now }
    {
        Moment {
            at: self.time,
            pair: self.wires.pair(),
        }
    }

    // The moment that the last token ended, or else what is shown from the last time on.
    fn last_moment(&self, ended: Option<Moment>) -> Moment
        ensures { result ≡ spec.last_by ended self.now }
    {
        match ended {
            None => self.moment(),
            Some(moment) => moment,
        }
    }

    fn take_change(&mut self, on: bool)
        ensures { self.new ≡ spec.value_token on self.old }
    {
        if !self.token.is_long {
            self.wires.change(self.token.rest(), on);
        }
    }

    fn take_word(&mut self)
        ensures { self.new ≡ spec.word_token self.old }
    {
        if self.token.is_word(b"$comment") {
            self.place = Place::Comment;
        } else if self.token.front() != b'$' {
            self.place = Place::Refused(RecordingRefusal::Token(self.token.start));
        }
    }

    // Why a text that ends in its head is refused.
    fn head_refusal(&self) -> RecordingRefusal
        ensures { result ≡ spec.head_refusal self.now }
    {
        if self.unit == 0 {
            return RecordingRefusal::NoTimescale;
        }
        match self.wires.first_missing() {
            Some(line) => RecordingRefusal::NoLine(line),
            None => RecordingRefusal::Token(self.at),
        }
    }
}

fn is_refused(place: Place) -> bool
    ensures { result ≡ spec.is_refused place }
{
    matches!(place, Place::Refused(_))
}

// A number of units as a time.
fn time_up_to(unit: u64, units: Option<u64>) -> Option<u64>
    ensures { result ≡ spec.time_up_to unit units }
{
    let time = units?.saturating_mul(unit);
    if time <= LATEST { Some(time) } else { None }
}

fn is_value(byte: u8) -> bool
    ensures { result ≡ spec.is_value byte }
{
    byte == b'0' || byte == b'1' || byte == b'X' || byte == b'x' || byte == b'Z' || byte == b'z'
}

fn is_other_value(byte: u8) -> bool
    ensures { result ≡ spec.is_other_value byte }
{
    byte == b'B' || byte == b'b' || byte == b'R' || byte == b'r' || byte == b'S' || byte == b's'
}
