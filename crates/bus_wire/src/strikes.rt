//! The faults that strike one transmission, and what they make of it.
//!
//! The faults aren't copied: a transmission keeps the range of the list in which all of its own lie, so that one which no fault names goes
//! over nothing in its ticks.
ghost use Rattle.std.specs.Prelude.{◌≡◌, ◌+◌, ◌≤◌, ◌&&◌, ◌==◌, nat_le, List, take, drop, length, if◌then◌else◌};
ghost use Rattle.std.specs.List.{list_any};
ghost use Rattle.bus_base.specs.Samples as samples;
ghost use Rattle.bus_model.specs.Strikes.{hits_on, strikes_at};
ghost use Rattle.bus_model.specs.Transmissions as spec;
ghost use Rattle.bus_model.specs.Wire.{hit_sample, struck_sample};
ghost use Rattle.bus_wire.specs.Steps.{names, first_extra};
ghost use Rattle.bus_wire.specs.Stands.{AreStrikes};

use bus_base::{Part, Sample};
use bus_formats::{Fault, Hit};

/// Which faults strike a transmission: those of its attempt and part. All of them lie in a range of the wire's list.
#[derive(Clone, Copy)]
pub struct Strikes {
    /// Its attempt, counted from 1 over the run.
    pub attempt: u128,
    /// Its part of the message.
    pub part: Part,
    // the place of the first of its faults, and the place after the last
    from: usize,
    until: usize,
    /// How many words its first extra adds, if it has any.
    pub extra: Option<u8>,
}

impl Strikes {
    /// No strikes: those of a transmitter that never sent.
    pub fn none() -> Strikes
        ensures { result.extra ≡ None }
    {
        Strikes {
            attempt: 0,
            part: Part::Command,
            from: 0,
            until: 0,
            extra: None,
        }
    }

    /// The strikes of a part of an attempt.
    #[inline(never)]
    pub fn of(faults: &[Fault], attempt: u128, part: Part) -> Strikes
        ensures attempt { result.attempt ≡ attempt }
        ensures part { result.part ≡ part }
        ensures strikes { AreStrikes faults.now result }
    {
        let from = first_named(faults, attempt, part);
        let until = from + past_last_named(&faults[from..], attempt, part);
        Strikes {
            attempt,
            part,
            from,
            until,
            extra: extra_in(&faults[from..until], attempt, part),
        }
    }

    /// The sample at a place of the transmission as the wire shows it.
    #[inline(always)]
    pub fn shown(&self, faults: &[Fault], place: u64, sample: Sample) -> Sample
        requires { AreStrikes faults.now self.now }
        ensures { result ≡ struck_sample place (hits_on faults.now self.now.attempt self.now.part) sample }
    {
        if self.is_empty() {
            return sample;
        }
        self.struck(faults, place, sample)
    }

    /// Whether no fault is in its range.
    #[inline(always)]
    pub fn is_empty(&self) -> bool
        ensures { result ≡ nat_le self.now.until self.now.from }
    {
        self.until <= self.from
    }

    // It is a call of its own, since few transmissions are struck.
    #[inline(never)]
    fn struck(&self, faults: &[Fault], place: u64, sample: Sample) -> Sample
        requires { AreStrikes faults.now self.now }
        ensures { result ≡ struck_sample place (hits_on faults.now self.now.attempt self.now.part) sample }
    {
        struck(
            &faults[self.from..self.until],
            self.attempt,
            self.part,
            place,
            sample,
        )
    }

    /// Whether a cut ended the transmission before this place.
    #[inline(always)]
    pub fn is_cut_over(&self, faults: &[Fault], place: u64) -> bool
        requires { AreStrikes faults.now self.now }
        ensures { result ≡ list_any (spec.cut_over place) (hits_on faults.now self.now.attempt self.now.part) }
    {
        if self.is_empty() {
            return false;
        }
        self.has_cut_before(faults, place)
    }

    #[inline(never)]
    fn has_cut_before(&self, faults: &[Fault], place: u64) -> bool
        requires { AreStrikes faults.now self.now }
        ensures { result ≡ list_any (spec.cut_over place) (hits_on faults.now self.now.attempt self.now.part) }
    {
        cut_in(
            &faults[self.from..self.until],
            self.attempt,
            self.part,
            place,
        )
    }
}

// Whether a fault names a part of an attempt.
fn is_named(fault: &Fault, attempt: u128, part: Part) -> bool
    ensures { result ≡ names attempt part fault.now }
{
    u128::from(fault.attempt) == attempt && same_part(fault.part, part)
}

fn same_part(a: Part, b: Part) -> bool
    ensures { result ≡ samples.same_part a b }
{
    matches!(
        (a, b),
        (Part::Command, Part::Command) | (Part::First, Part::First) | (Part::Second, Part::Second)
    )
}

// The place of the first fault that names a part of an attempt, or of the end.
fn first_named(faults: &[Fault], attempt: u128, part: Part) -> usize
    ensures within { result ≤ length faults.now }
    ensures same { hits_on (drop result faults.now) attempt part ≡ hits_on faults.now attempt part }
{
    for (place, fault) in faults.iter().enumerate() {
        if is_named(fault, attempt, part) {
            return place;
        }
    }
    faults.len()
}

// The place after the last fault that names a part of an attempt, or 0.
fn past_last_named(faults: &[Fault], attempt: u128, part: Part) -> usize
    ensures within { result ≤ length faults.now }
    ensures same { hits_on (take result faults.now) attempt part ≡ hits_on faults.now attempt part }
{
    let mut end = faults.len();
    while end > 0 && !is_named(&faults[end - 1], attempt, part) {
        end -= 1;
    }
    end
}

// How many words the first extra of a part of an attempt adds, if it has any.
fn extra_in(faults: &[Fault], attempt: u128, part: Part) -> Option<u8>
    ensures { result ≡ first_extra (hits_on faults.now attempt part) }
{
    for fault in faults {
        if is_named(fault, attempt, part) {
            if let Hit::Extra { words } = fault.hit {
                return Some(words);
            }
        }
    }
    None
}

// Whether a cut of a part of an attempt ended it before this place.
fn cut_in(faults: &[Fault], attempt: u128, part: Part, place: u64) -> bool
    ensures { result ≡ list_any (spec.cut_over place) (hits_on faults.now attempt part) }
{
    for fault in faults {
        if is_named(fault, attempt, part) && cuts_before(&fault.hit, place) {
            return true;
        }
    }
    false
}

fn cuts_before(hit: &Hit, place: u64) -> bool
    ensures { result ≡ spec.cut_over place hit.now }
{
    match hit {
        Hit::Cut { after } => place == 40 * u64::from(*after) + 4,
        _ => false,
    }
}

// A sample after all faults of a part of an attempt, in their order.
fn struck(faults: &[Fault], attempt: u128, part: Part, place: u64, sample: Sample) -> Sample
    ensures { result ≡ struck_sample place (hits_on faults.now attempt part) sample }
{
    let mut shown = sample;
    for fault in faults {
        if is_named(fault, attempt, part) {
            shown = after_hit(&fault.hit, place, shown);
        }
    }
    shown
}

fn after_hit(hit: &Hit, place: u64, sample: Sample) -> Sample
    ensures { result ≡ hit_sample place hit.now sample }
{
    match hit {
        Hit::Flip { word, set } if place / 40 == u64::from(*word) && set.has((place % 40) as u8) =>
            exchanged(sample),
        Hit::Fade { word, set } if place / 40 == u64::from(*word) && set.has((place % 40) as u8) =>
            Sample::Quiet,
        Hit::Cut { after } if place >= 40 * u64::from(*after) => Sample::Quiet,
        _ => sample,
    }
}

fn exchanged(sample: Sample) -> Sample
    ensures { result ≡ samples.exchanged sample }
{
    match sample {
        Sample::Plus => Sample::Minus,
        Sample::Minus => Sample::Plus,
        Sample::Quiet => Sample::Quiet,
    }
}
