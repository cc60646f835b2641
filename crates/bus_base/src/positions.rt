//! Sets of positions in the forty samples of a word, which flip sets and fade sets share, and what both ask of the lists that they are
//! made of. A position is counted in samples from 0.
ghost use Rattle.std.specs.Prelude.{◌≡◌, MatchOption};
ghost use Rattle.bus_base.specs.Positions.{names, set_of, takes, IsWithin, IsFirstOutside, Rises, IsFirstUnordered};

use std::marker::Model;

// One flag for each sample of a word.
#[derive(Clone, Copy, Debug, PartialEq, Eq)]
pub(crate) struct PositionSet {
    flags: [bool; 40],
}

impl Model for PositionSet {
    ghost use Rattle.std.specs.Prelude.{List, Bool};

    ghost Value = { List Bool };

    ghost view = { λ s. s.flags };

    ghost inverse = { λ v. record { flags = v } };
}

impl PositionSet {
    // The set of the list's positions.
    pub(crate) fn of(positions: &[u8]) -> PositionSet
        ensures { result ≡ set_of positions.now }
    {
        let mut flags = [false; 40];
        for place in 0..flags.len() {
            flags[place] = names_position(positions, place);
        }
        PositionSet { flags }
    }

    // Whether the position is in the set. None above 39 is.
    pub(crate) fn has(&self, position: u8) -> bool
        ensures { result ≡ takes self.now position }
    {
        (position as usize) < self.flags.len() && self.flags[position as usize]
    }

    // The forty flags.
    pub(crate) fn flags(&self) -> &[bool; 40]
        ensures { result.now ≡ self.now }
    {
        &self.flags
    }
}

#[tactic(auto, unfolding(crate::specs::Positions::names))]
fn names_position(positions: &[u8], place: usize) -> bool
    ensures { result ≡ names positions.now place }
{
    positions.iter().any(|position| *position as usize == place)
}

// The first place whose position is below the lowest or above the highest.
pub(crate) fn first_outside(positions: &[u8], lowest: u8, highest: u8) -> Option<usize>
    ensures { MatchOption result
        (IsWithin lowest highest positions.now)
        (λ place. IsFirstOutside lowest highest positions.now place) }
{
    for (place, position) in positions.iter().enumerate() {
        if *position < lowest || *position > highest {
            return Some(place);
        }
    }
    None
}

// The first place whose position isn't above the one before.
pub(crate) fn first_unordered(positions: &[u8]) -> Option<usize>
    ensures { MatchOption result (Rises positions.now) (λ place. IsFirstUnordered positions.now place) }
{
    for place in 1..positions.len() {
        if positions[place] <= positions[place - 1] {
            return Some(place);
        }
    }
    None
}
