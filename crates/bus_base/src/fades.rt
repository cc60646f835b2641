//! Fade sets: the samples of a word that damage leaves quiet. Judged by `specs/Fades.antt`.
ghost use Rattle.std.specs.Prelude.{◌≡◌, MatchResult};
ghost use Rattle.bus_base.specs.Positions.{set_of, takes};

use crate::positions::{PositionSet, first_outside, first_unordered};
use std::marker::Model;

/// Why a list of positions is no fade set. A place counts from 0.
#[derive(Clone, Copy, Debug, PartialEq, Eq)]
pub enum FadeRefusal {
    /// The list is empty.
    Empty,
    /// The first place whose position is below 3 or above 38.
    Position(usize),
    /// The first place whose position isn't above the one before.
    Order(usize),
    /// The list has more than three positions.
    Count,
}

/// A set of one to three positions in the forty samples of a word, at which damage leaves the
/// channel quiet.
///
/// They lie from 3 to 38: a word that fades keeps its first and last tick, and is never quiet long
/// enough to end its burst.
#[derive(Clone, Copy, Debug, PartialEq, Eq)]
pub struct FadeSet {
    positions: PositionSet,
}

impl Model for FadeSet {
    ghost use Rattle.std.specs.Prelude.{List, Bool};

    ghost Value = { List Bool };

    ghost view = { λ s. s.positions };

    ghost inverse = { λ v. record { positions = v } };
}

impl FadeSet {
    ghost use Rattle.bus_base.specs.Fades.{IsRefused, IsFade};

    /// The set of these positions, which rise from 3 to 38, or the first reason why there is none.
    pub fn of(positions: &[u8]) -> Result<FadeSet, FadeRefusal>
        ensures { MatchResult result
            (λ set. IsFade positions.now × (set ≡ set_of positions.now))
            (λ refusal. IsRefused positions.now refusal) }
    {
        if positions.is_empty() {
            return Err(FadeRefusal::Empty);
        }
        if let Some(place) = first_outside(positions, 3, 38) {
            return Err(FadeRefusal::Position(place));
        }
        if let Some(place) = first_unordered(positions) {
            return Err(FadeRefusal::Order(place));
        }
        if positions.len() > 3 {
            return Err(FadeRefusal::Count);
        }
        Ok(FadeSet {
            positions: PositionSet::of(positions),
        })
    }

    /// Whether the position, counted in samples from 0, is in the set. None above 39 is.
    pub fn has(&self, position: u8) -> bool
        ensures { result ≡ takes self.now position }
    {
        self.positions.has(position)
    }
}
