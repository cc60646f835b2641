//! Crossings whose tick is known, and the ticks of other moments, counted from them.
ghost use Rattle.std.specs.Prelude.{◌≡◌, ◌+◌, ◌-◌, ◌<◌, ◌≤◌, ◌^◌};
ghost use Rattle.bus_phase.specs.Anchors as spec;

use crate::times::{nearest, nearest_back};

/// A crossing whose tick is known.
#[derive(Clone, Copy, Debug, PartialEq, Eq)]
pub struct Anchor {
    /// The tick that begins with it.
    pub tick: u32,
    /// When it was, in picoseconds.
    pub at: u64,
}

/// The tick of a moment, counted from an anchor.
pub(crate) fn counted(anchor: Anchor, at: u64) -> u64
    ensures tick { result ≡ spec.counted anchor at }
    ensures few { result < 2 ^ 48 }
{
    if at < anchor.at {
        return u64::from(anchor.tick).saturating_sub(nearest_back(anchor.at - at));
    }
    u64::from(anchor.tick) + nearest(at - anchor.at)
}

/// The later of two anchors.
pub(crate) fn later_of(own: Anchor, other: Anchor) -> Anchor
    ensures { result ≡ spec.later_of own other }
{
    if other.at < own.at { own } else { other }
}

/// The latest of the two channels' anchors.
pub(crate) fn latest(own: Option<Anchor>, other: Option<Anchor>) -> Option<Anchor>
    ensures { result ≡ spec.latest own other }
{
    match (own, other) {
        (None, _) => other,
        (Some(_), None) => own,
        (Some(own), Some(other)) => Some(later_of(own, other)),
    }
}

fn within(count: u64, room: u64, own: u64) -> u64
    requires { count + room < 2 ^ 64 }
    ensures { result ≡ spec.within count room own }
{
    count.saturating_sub(room).max(own.min(count + room))
}

fn tick_after(anchor: Anchor, at: u64) -> u64
    ensures tick { result ≡ spec.tick_after anchor at }
    ensures few { result < 2 ^ 49 }
{
    let silence = nearest(at.saturating_sub(anchor.at));
    within(counted(anchor, at), silence / 40, nearest(at))
}

/// The tick of a moment in a silence.
pub(crate) fn tick_in_silence(anchor: Option<Anchor>, at: u64) -> u64
    ensures tick { result ≡ spec.tick_in_silence anchor at }
    ensures few { result < 2 ^ 49 }
{
    match anchor {
        None => nearest(at),
        Some(anchor) => tick_after(anchor, at),
    }
}

/// The tick of the recording's end.
pub(crate) fn tick_at_end(anchor: Option<Anchor>, at: u64) -> u64
    ensures { result ≡ spec.tick_at_end anchor at }
{
    match anchor {
        None => nearest(at),
        Some(anchor) => counted(anchor, at),
    }
}

/// The tick of a burst's first crossing.
pub(crate) fn reference(own: Option<Anchor>, other: Option<Anchor>, at: u64) -> u64
    ensures tick { result ≡ spec.reference own other at }
    ensures few { result < 2 ^ 49 }
{
    match own {
        None => tick_in_silence(other, at),
        Some(anchor) if at.saturating_sub(anchor.at) <= 20_000_000 => counted(anchor, at),
        Some(_) => tick_in_silence(latest(own, other), at),
    }
}

/// The tick of a change within a burst.
pub(crate) fn tick_within(own: Option<Anchor>, other: Option<Anchor>, at: u64) -> u64
    ensures { result ≡ spec.tick_within own other at }
{
    match own {
        None => tick_in_silence(other, at),
        Some(anchor) => counted(anchor, at),
    }
}
