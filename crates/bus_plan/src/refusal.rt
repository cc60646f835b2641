//! Why a text is no plan, and where.
ghost use Rattle.std.specs.Prelude.{◌≡◌, option_map};
ghost use Rattle.bus_plan.specs.Refusals as spec;

use crate::place::Place;
use std::alloc::AllocError;

/// The rule that a text breaks, and the first place that breaks it.
///
/// The rules are numbered in the order in which they are tried: a text is refused by the least.
#[derive(Drop)]
pub enum PlanRefusal {
    /// The text is no TOML document in UTF-8.
    NotToml,
    /// A table has a key that it doesn't know.
    UnknownKey(Place),
    /// A required key is absent.
    Missing(Place),
    /// A value has another TOML kind.
    WrongKind(Place),
    /// A number, a text, or the length or order of a list isn't among those allowed.
    OutOfRange(Place),
    /// A station repeats an earlier address.
    SameAddress(Place),
    /// The start, or an item's address other than 31, names no station.
    NoSuchStation(Place),
    /// An item's address other than 31 is that of its own station, or a relay names one station twice.
    SelfAddressed(Place),
    /// An item has no message format (MIL-STD-1553B 4.3.3.6).
    BadForm(Place),
    /// An item that abandons isn't a transmit item, or what follows it in its frame is a relay or goes to another terminal.
    BadAbandon(Place),
    /// No receiver could notice the flips of a fault.
    Undetectable(Place),
    /// A fault strikes the same as an earlier one.
    SameFault(Place),
    /// There are more stations, frames, items or faults than allowed, or more of them by repeats.
    TooMany(Place),
}

impl PlanRefusal {
    /// The number of the rule, 1 to 13.
    pub fn number(&self) -> u8
        ensures { result ≡ spec.number_of self.now }
    {
        match self {
            PlanRefusal::NotToml => 1,
            PlanRefusal::UnknownKey(_) => 2,
            PlanRefusal::Missing(_) => 3,
            PlanRefusal::WrongKind(_) => 4,
            PlanRefusal::OutOfRange(_) => 5,
            PlanRefusal::SameAddress(_) => 6,
            PlanRefusal::NoSuchStation(_) => 7,
            PlanRefusal::SelfAddressed(_) => 8,
            PlanRefusal::BadForm(_) => 9,
            PlanRefusal::BadAbandon(_) => 10,
            PlanRefusal::Undetectable(_) => 11,
            PlanRefusal::SameFault(_) => 12,
            PlanRefusal::TooMany(_) => 13,
        }
    }

    /// The rule's name as it is printed.
    pub fn name(&self) -> &'static str
        ensures { result.now ≡ spec.name_of self.now }
    {
        match self {
            PlanRefusal::NotToml => "not-toml",
            PlanRefusal::UnknownKey(_) => "unknown-key",
            PlanRefusal::Missing(_) => "missing",
            PlanRefusal::WrongKind(_) => "wrong-kind",
            PlanRefusal::OutOfRange(_) => "out-of-range",
            PlanRefusal::SameAddress(_) => "same-address",
            PlanRefusal::NoSuchStation(_) => "no-such-station",
            PlanRefusal::SelfAddressed(_) => "self-addressed",
            PlanRefusal::BadForm(_) => "bad-form",
            PlanRefusal::BadAbandon(_) => "bad-abandon",
            PlanRefusal::Undetectable(_) => "undetectable",
            PlanRefusal::SameFault(_) => "same-fault",
            PlanRefusal::TooMany(_) => "too-many",
        }
    }

    /// The first place that breaks the rule, which a text that is no document lacks.
    pub fn place(&self) -> Option<&Place>
        ensures { option_map (λ p. p.now) result ≡ spec.place_of self.now }
    {
        match self {
            PlanRefusal::NotToml => None,
            PlanRefusal::UnknownKey(place) => Some(place),
            PlanRefusal::Missing(place) => Some(place),
            PlanRefusal::WrongKind(place) => Some(place),
            PlanRefusal::OutOfRange(place) => Some(place),
            PlanRefusal::SameAddress(place) => Some(place),
            PlanRefusal::NoSuchStation(place) => Some(place),
            PlanRefusal::SelfAddressed(place) => Some(place),
            PlanRefusal::BadForm(place) => Some(place),
            PlanRefusal::BadAbandon(place) => Some(place),
            PlanRefusal::Undetectable(place) => Some(place),
            PlanRefusal::SameFault(place) => Some(place),
            PlanRefusal::TooMany(place) => Some(place),
        }
    }
}

/// Why no plan was read: the text is refused, or memory ran out.
#[derive(Drop)]
pub enum PlanError {
    /// The text is no plan.
    Refused(PlanRefusal),
    /// Memory ran out, whatever the text is.
    Memory(AllocError),
}
