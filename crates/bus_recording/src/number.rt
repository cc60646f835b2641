//! Decimal numbers, read byte by byte.
ghost use Rattle.std.specs.Prelude.{◌≡◌, ◌+◌, ◌<◌, ◌≤◌, Some, None, IfSome, IfNone};
ghost use Rattle.bus_recording.specs.Numbers as spec;

// The most that a number's digits say, and its value: 2^59.
const GREATEST: u64 = 576_460_752_303_423_488;

// The most digits after the point, and the greatest exponent.
const MOST_PLACES: u8 = 99;

/// Where a number stands after a byte.
#[derive(Clone, Copy, Debug, PartialEq, Eq)]
pub enum NumberPlace {
    /// Before its first byte.
    Start,
    /// After its sign.
    Signed,
    /// In the digits before the point.
    Whole,
    /// After the point.
    Point,
    /// In the digits after the point.
    Fraction,
    /// After the letter of the exponent.
    Mark,
    /// After the exponent's sign.
    MarkSigned,
    /// In the exponent.
    Exponent,
    /// After a space that follows it.
    After,
    /// It is no number.
    Wrong,
}

/// A number that is read.
#[derive(Clone, Copy, Debug)]
pub struct Number {
    /// Where it stands.
    pub place: NumberPlace,
    /// Whether it has a minus sign.
    pub is_negative: bool,
    /// What its digits say, without the point.
    pub digits: u64,
    /// How many of them stand after the point.
    pub places: u8,
    /// Whether its exponent has a minus sign.
    pub is_small: bool,
    /// Its exponent, without the sign.
    pub exponent: u8,
}

impl Number {
    /// A number of which no byte is read.
    pub(crate) fn new() -> Number
        ensures { result ≡ spec.no_number }
    {
        Number {
            place: NumberPlace::Start,
            is_negative: false,
            digits: 0,
            places: 0,
            is_small: false,
            exponent: 0,
        }
    }

    /// Takes its next byte.
    pub(crate) fn push(&mut self, byte: u8)
        ensures { self.new ≡ spec.number_after byte self.old }
    {
        match self.place {
            NumberPlace::Start => self.start(byte),
            NumberPlace::Signed => self.signed(byte),
            NumberPlace::Whole => self.whole(byte),
            NumberPlace::Point => self.point(byte),
            NumberPlace::Fraction => self.fraction(byte),
            NumberPlace::Mark => self.mark(byte),
            NumberPlace::MarkSigned => self.mark_signed(byte),
            NumberPlace::Exponent => self.in_exponent(byte),
            NumberPlace::After => self.after(byte),
            NumberPlace::Wrong => {}
        }
    }

    fn digit(&mut self, place: NumberPlace, byte: u8)
        requires { byte < 58 }
        ensures { self.new ≡ spec.with_digit place byte self.old }
    {
        let more = u64::from(byte.saturating_sub(b'0'));
        if self.digits > GREATEST {
            self.place = NumberPlace::Wrong;
            return;
        }
        let digits = 10 * self.digits + more;
        if digits <= GREATEST {
            self.place = place;
            self.digits = digits;
        } else {
            self.place = NumberPlace::Wrong;
        }
    }

    fn digit_after_point(&mut self, byte: u8)
        requires { byte < 58 }
        ensures { self.new ≡ spec.with_place byte self.old }
    {
        if self.places >= MOST_PLACES {
            self.place = NumberPlace::Wrong;
            return;
        }
        self.places += 1;
        self.digit(NumberPlace::Fraction, byte);
    }

    fn digit_of_exponent(&mut self, byte: u8)
        requires { byte < 58 }
        ensures { self.new ≡ spec.with_exponent byte self.old }
    {
        let exponent = 10 * u16::from(self.exponent) + u16::from(byte.saturating_sub(b'0'));
        if exponent <= 99 {
            self.place = NumberPlace::Exponent;
            self.exponent = exponent as u8;
        } else {
            self.place = NumberPlace::Wrong;
        }
    }

    fn start(&mut self, byte: u8)
        ensures { self.new ≡ spec.in_start byte self.old }
    {
        if is_space(byte) {
            return;
        }
        if is_digit(byte) {
            self.digit(NumberPlace::Whole, byte);
        } else if byte == b'+' {
            self.place = NumberPlace::Signed;
        } else if byte == b'-' {
            self.place = NumberPlace::Signed;
            self.is_negative = true;
        } else {
            self.place = NumberPlace::Wrong;
        }
    }

    fn signed(&mut self, byte: u8)
        ensures { self.new ≡ spec.in_signed byte self.old }
    {
        if is_digit(byte) {
            self.digit(NumberPlace::Whole, byte);
        } else {
            self.place = NumberPlace::Wrong;
        }
    }

    fn after_digits(&mut self, byte: u8)
        ensures { self.new ≡ spec.after_digits byte self.old }
    {
        if byte == b'e' || byte == b'E' {
            self.place = NumberPlace::Mark;
        } else if is_space(byte) {
            self.place = NumberPlace::After;
        } else {
            self.place = NumberPlace::Wrong;
        }
    }

    fn whole(&mut self, byte: u8)
        ensures { self.new ≡ spec.in_whole byte self.old }
    {
        if is_digit(byte) {
            self.digit(NumberPlace::Whole, byte);
        } else if byte == b'.' {
            self.place = NumberPlace::Point;
        } else {
            self.after_digits(byte);
        }
    }

    fn point(&mut self, byte: u8)
        ensures { self.new ≡ spec.in_point byte self.old }
    {
        if is_digit(byte) {
            self.digit_after_point(byte);
        } else {
            self.place = NumberPlace::Wrong;
        }
    }

    fn fraction(&mut self, byte: u8)
        ensures { self.new ≡ spec.in_fraction byte self.old }
    {
        if is_digit(byte) {
            self.digit_after_point(byte);
        } else {
            self.after_digits(byte);
        }
    }

    fn mark(&mut self, byte: u8)
        ensures { self.new ≡ spec.in_mark byte self.old }
    {
        if is_digit(byte) {
            self.digit_of_exponent(byte);
        } else if byte == b'+' {
            self.place = NumberPlace::MarkSigned;
        } else if byte == b'-' {
            self.place = NumberPlace::MarkSigned;
            self.is_small = true;
        } else {
            self.place = NumberPlace::Wrong;
        }
    }

    fn mark_signed(&mut self, byte: u8)
        ensures { self.new ≡ spec.in_mark_signed byte self.old }
    {
        if is_digit(byte) {
            self.digit_of_exponent(byte);
        } else {
            self.place = NumberPlace::Wrong;
        }
    }

    fn in_exponent(&mut self, byte: u8)
        ensures { self.new ≡ spec.in_exponent byte self.old }
    {
        if is_digit(byte) {
            self.digit_of_exponent(byte);
        } else if is_space(byte) {
            self.place = NumberPlace::After;
        } else {
            self.place = NumberPlace::Wrong;
        }
    }

    fn after(&mut self, byte: u8)
        ensures { self.new ≡ spec.in_after byte self.old }
    {
        if !is_space(byte) {
            self.place = NumberPlace::Wrong;
        }
    }

    fn up(&self) -> u16
        ensures up { result ≡ spec.up self.now }
        ensures few { result < 1000 }
    {
        if self.is_small {
            12
        } else {
            12 + u16::from(self.exponent)
        }
    }

    fn down(&self) -> u16
        ensures down { result ≡ spec.down self.now }
        ensures few { result < 1000 }
    {
        if self.is_small {
            u16::from(self.places) + u16::from(self.exponent)
        } else {
            u16::from(self.places)
        }
    }

    /// Its distance from 0 in parts of 10^-12; none where that is past 2^59 or it is no number.
    pub(crate) fn size(&self) -> Option<u64>
        ensures { result ≡ spec.size_of self.now }
    {
        if !is_whole(self.place) {
            return None;
        }
        shifted(self.up(), self.down(), self.digits)
    }
}

fn shifted(high: u16, low: u16, digits: u64) -> Option<u64>
    ensures { result ≡ spec.up_to_greatest (spec.shifted high low digits) }
{
    if low <= high {
        return tenfold(high - low, digits);
    }
    let value = tenth(low - high, digits);
    if value <= GREATEST { Some(value) } else { None }
}

// Ten times a value, so often, where that isn't past the greatest.
fn tenfold(times: u16, value: u64) -> Option<u64>
    ensures { result ≡ spec.up_to_greatest (spec.tenfold times value) }
{
    if value > GREATEST {
        return None;
    }
    if times == 0 {
        return Some(value);
    }
    tenfold(times - 1, 10 * value)
}

// The whole tenth of a value, so often.
fn tenth(times: u16, value: u64) -> u64
    ensures { result ≡ spec.tenth times value }
{
    if times == 0 {
        return value;
    }
    tenth(times - 1, value / 10)
}

fn is_whole(place: NumberPlace) -> bool
    ensures { result ≡ spec.is_whole place }
{
    match place {
        NumberPlace::Whole | NumberPlace::Fraction | NumberPlace::Exponent | NumberPlace::After =>
            true,
        NumberPlace::Start
        | NumberPlace::Signed
        | NumberPlace::Point
        | NumberPlace::Mark
        | NumberPlace::MarkSigned
        | NumberPlace::Wrong => false,
    }
}

fn is_digit(byte: u8) -> bool
    ensures { result ≡ spec.is_digit byte }
{
    (b'0'..=b'9').contains(&byte)
}

fn is_space(byte: u8) -> bool
    ensures { result ≡ spec.is_space byte }
{
    byte == b' ' || byte == b'\r'
}
