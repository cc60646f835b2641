//! Rows of numbers, read byte by byte.
ghost use Rattle.std.specs.Prelude.{◌≡◌, ◌<◌, ◌≤◌};
ghost use Rattle.bus_recording.specs.Rows as spec;

use crate::fields::{Columns, Fields, NO_FIELDS, is_row, logic, pair_in, time_of, volts};
use crate::moment::Moment;
use crate::number::Number;
use crate::refusal::RecordingRefusal;
use bus_base::Sample;

// The most bytes of a recording: 2^33.
const LIMIT: u64 = 8_589_934_592;

// The latest time, in picoseconds: 2^59.
const LATEST: u64 = 576_460_752_303_423_488;

/// Where the rows stand.
#[derive(Clone, Copy, Debug, PartialEq, Eq)]
pub enum Rows {
    /// Before the first row of numbers.
    Before,
    /// Among the rows of numbers.
    Within,
    /// After them.
    Over,
    /// Refused.
    Refused(RecordingRefusal),
}

/// Reads rows of numbers byte by byte. It takes no memory.
#[derive(Clone, Copy, Debug)]
pub struct RowReader {
    /// What the columns mean.
    pub columns: Columns,
    /// Where the rows stand.
    pub rows: Rows,
    /// The field that is read.
    pub number: Number,
    /// Its column, counted from 1.
    pub column: u32,
    /// The fields of the row so far.
    pub fields: Fields,
    /// The bytes so far.
    pub at: u64,
    /// The offset of the row.
    pub start: u64,
    /// The time of the first row, as its first column says it.
    pub first: u64,
    /// The time of the last row, in picoseconds from the first.
    pub time: u64,
}

impl RowReader {
    /// A reader of these columns that was given no byte.
    pub fn new(columns: Columns) -> RowReader
        ensures { result ≡ spec.reader_of columns }
    {
        RowReader {
            columns,
            rows: Rows::Before,
            number: Number::new(),
            column: 1,
            fields: NO_FIELDS,
            at: 0,
            start: 0,
            first: 0,
            time: 0,
        }
    }

    /// Takes the next byte of the text. The moment that it ends, if it ends one; or the first refusal, and after that the same at every further byte.
    pub fn push(&mut self, byte: u8) -> Result<Option<Moment>, RecordingRefusal>
        ensures state { self.new ≡ spec.after_byte byte self.old }
        ensures answer { result ≡ spec.answer_of self.new.rows (spec.moment_after byte self.old) }
    {
        let moment = self.take(byte);
        match self.rows {
            Rows::Refused(refusal) => Err(refusal),
            Rows::Before | Rows::Within | Rows::Over => Ok(moment),
        }
    }

    /// What the text comes to where it ends here: a last moment, if its last row is one, or the refusal.
    pub fn end(&mut self) -> Result<Option<Moment>, RecordingRefusal>
        ensures state { self.new ≡ spec.after_end self.old }
        ensures answer { result ≡ spec.answer_of self.new.rows (spec.last_moment self.old) }
    {
        self.end_field();
        let moment = self.take_row();
        match self.rows {
            Rows::Refused(refusal) => Err(refusal),
            Rows::Before | Rows::Within | Rows::Over => Ok(moment),
        }
    }

    /// When the recording ends, in picoseconds from its first row: a step after its last.
    pub fn end_time(&self) -> u64
        ensures { result ≡ spec.end_time self.now }
    {
        self.time.saturating_add(self.columns.step)
    }

    fn take(&mut self, byte: u8) -> Option<Moment>
        ensures state { self.new ≡ spec.after_byte byte self.old }
        ensures moment { result ≡ spec.moment_after byte self.old }
    {
        if is_refused(self.rows) {
            return None;
        }
        if self.at >= LIMIT {
            self.rows = Rows::Refused(RecordingRefusal::Long(self.at));
            return None;
        }
        let at = self.at;
        let moment = self.take_byte(byte);
        self.at = at + 1;
        moment
    }

    fn take_byte(&mut self, byte: u8) -> Option<Moment>
        requires { self.old.at < 8589934592 }
        ensures state { self.new ≡ spec.byte_taken byte self.old }
        ensures moment { result ≡ spec.moment_taken byte self.old }
    {
        if byte == b'\n' {
            return self.end_row();
        }
        if parts_fields(byte) {
            self.end_field();
        } else {
            self.number.push(byte);
        }
        None
    }

    fn end_row(&mut self) -> Option<Moment>
        requires { self.old.at < 8589934592 }
        ensures state { self.new ≡ spec.row_ended (spec.field_ended self.old) }
        ensures moment { result ≡ spec.moment_in self.old.rows (spec.field_ended self.old) }
    {
        let at = self.at;
        self.end_field();
        let moment = self.take_row();
        self.fields = NO_FIELDS;
        self.column = 1;
        self.start = at + 1;
        moment
    }

    fn end_field(&mut self)
        ensures { self.new ≡ spec.field_ended self.old }
    {
        self.fields = self.fields_with();
        self.number = Number::new();
        if self.column < u32::MAX {
            self.column += 1;
        }
    }

    fn fields_with(&self) -> Fields
        ensures { result ≡ spec.with_field self.now }
    {
        Fields {
            time: self.time_at(),
            a_plus: self.level_at(self.columns.a_plus, self.fields.a_plus),
            a_minus: self.level_at(self.columns.a_minus, self.fields.a_minus),
            b_plus: self.level_at(self.columns.b_plus, self.fields.b_plus),
            b_minus: self.level_at(self.columns.b_minus, self.fields.b_minus),
        }
    }

    // The time of the row after the field, where rows say their times.
    fn time_at(&self) -> Option<u64>
        ensures { result ≡ spec.time_at self.now }
    {
        if self.columns.step != 0 {
            return self.fields.time;
        }
        if self.column != 1 {
            return self.fields.time;
        }
        time_of(&self.number)
    }

    // The level that the field shows, where it is in this column, or the one before.
    fn level_at(&self, column: u32, before: Option<Sample>) -> Option<Sample>
        ensures { result ≡ spec.level_at column before self.now }
    {
        if self.column != column {
            return before;
        }
        self.level()
    }

    fn level(&self) -> Option<Sample>
        ensures { result ≡ spec.level_in self.now.columns self.now.number }
    {
        if self.columns.is_logic {
            logic(self.number.size())
        } else {
            volts(
                self.columns.threshold,
                self.number.is_negative,
                self.number.size(),
            )
        }
    }

    // A row is whole; the moment that it is.
    fn take_row(&mut self) -> Option<Moment>
        ensures state { self.new ≡ spec.row_in self.old.rows self.old }
        ensures moment { result ≡ spec.moment_in self.old.rows self.old }
    {
        match self.rows {
            Rows::Before => self.take_first(),
            Rows::Within => self.take_later(),
            Rows::Over | Rows::Refused(_) => None,
        }
    }

    fn take_first(&mut self) -> Option<Moment>
        ensures state { self.new ≡ spec.first_row self.old }
        ensures moment { result ≡ spec.first_moment self.old }
    {
        if !is_row(&self.columns, &self.fields) {
            return None;
        }
        self.first = self.said();
        self.rows = Rows::Within;
        Some(self.moment_at(0))
    }

    fn take_later(&mut self) -> Option<Moment>
        ensures state { self.new ≡ spec.later_row self.old }
        ensures moment { result ≡ spec.later_moment self.old }
    {
        if !is_row(&self.columns, &self.fields) {
            self.rows = Rows::Over;
            return None;
        }
        self.take_next()
    }

    fn take_next(&mut self) -> Option<Moment>
        ensures state { self.new ≡ spec.next_row self.old }
        ensures moment { result ≡ spec.next_moment self.old }
    {
        if self.goes_back() {
            self.rows = Rows::Refused(RecordingRefusal::Time(self.start));
            return None;
        }
        let time = self.next_time();
        if time > LATEST {
            self.rows = Rows::Refused(RecordingRefusal::Long(self.at));
            return None;
        }
        self.time = time;
        Some(self.moment_at(time))
    }

    fn said(&self) -> u64
        ensures { result ≡ spec.said self.now }
    {
        match self.fields.time {
            None => self.first,
            Some(time) => time,
        }
    }

    fn next_time(&self) -> u64
        ensures { result ≡ spec.next_time self.now }
    {
        if self.columns.step == 0 {
            return self.said().saturating_sub(self.first);
        }
        self.time.saturating_add(self.columns.step)
    }

    fn goes_back(&self) -> bool
        ensures { result ≡ spec.goes_back self.now }
    {
        self.columns.step == 0 && self.said() < self.first.saturating_add(self.time)
    }

    fn moment_at(&self, at: u64) -> Moment
        ensures { result ≡ spec.moment_at at self.now }
    {
        Moment {
            at,
            pair: pair_in(&self.columns, &self.fields),
        }
    }
}

fn is_refused(rows: Rows) -> bool
    ensures { result ≡ spec.is_refused rows }
{
    matches!(rows, Rows::Refused(_))
}

fn parts_fields(byte: u8) -> bool
    ensures { result ≡ spec.parts_fields byte }
{
    byte == b',' || byte == b';' || byte == b'\t'
}
