//! Lists of positions in a word's samples, and the sets that they name.
ghost use Rattle.std.specs.Prelude.{◌≡◌, true};
ghost use Rattle.toml.specs.View.{view, array_view};
ghost use Rattle.bus_base.specs.Positions.{set_of};
ghost use Rattle.bus_plan.specs.Positions as spec;
ghost use Rattle.bus_plan.specs.Ranges.{flip_range, fade_range};
ghost use Rattle.bus_plan.specs.DecodeFaults as decode;

use crate::document::number_in;
use crate::ranges::{FADE, FLIP, Range};
use arrayvec::ArrayVec;
use bus_base::{FadeSet, FlipSet};
use toml::Value;

const BYTE: Range = Range { low: 0, high: 255 };

// A number of a list as a position, where 255 stands for one that is none.
fn position_of(value: &Value) -> u8
    ensures { result ≡ spec.position_of (view value.now) }
{
    number_in(BYTE, 255, Some(value)) as u8
}

/// The positions of a list, of which the first 41 tell enough: no more than 40 can stand.
pub fn positions(items: &Vec<Value>) -> ArrayVec<u8, 41>
    ensures { result.items ≡ spec.positions_of (array_view items.now) }
{
    let mut positions = ArrayVec::new();
    for value in items {
        if !positions.is_full() {
            positions.push(position_of(value));
        }
    }
    positions
}

fn rises(range: Range, positions: &[u8]) -> bool
    ensures { result ≡ spec.rises range.low range.high positions.now }
{
    let mut low = range.low;
    for position in positions {
        let position = u32::from(*position);
        if position < low || range.high < position {
            return false;
        }
        low = position + 1;
    }
    true
}

/// Whether a list of positions may stand: one to so many of them, each in the range and greater than the one before.
pub fn may_stand(range: Range, most: usize, positions: &[u8]) -> bool
    ensures { result ≡ spec.may_stand range most positions.now }
{
    1 <= positions.len() && positions.len() <= most && rises(range, positions)
}

// Whether positions that may stand name a set of flips that can't be detected.
fn is_refused(positions: &[u8]) -> bool
    requires { spec.may_stand flip_range 40 positions.now ≡ true }
    ensures { result ≡ spec.is_undetectable (set_of positions.now) }
{
    match FlipSet::of(positions) {
        Ok(_set) => false,
        Err(_refusal) => true,
    }
}

/// Whether positions name a set of flips that can't be detected.
pub fn names_undetectable(positions: &[u8]) -> bool
    ensures { result ≡ decode.names_undetectable positions.now }
{
    may_stand(FLIP, 40, positions) && is_refused(positions)
}

// The flips at positions that may stand, where they can be detected.
fn standing_flips(positions: &[u8]) -> Option<FlipSet>
    requires { spec.may_stand flip_range 40 positions.now ≡ true }
    ensures { result ≡ decode.flips_at positions.now }
{
    match FlipSet::of(positions) {
        Ok(set) => Some(set),
        Err(_refusal) => None,
    }
}

/// The flips at positions, where these may stand and can be detected.
pub fn flips_at(positions: &[u8]) -> Option<FlipSet>
    ensures { result ≡ decode.flips_at positions.now }
{
    if may_stand(FLIP, 40, positions) {
        standing_flips(positions)
    } else {
        None
    }
}

// The fades at positions that may stand.
fn standing_fades(positions: &[u8]) -> Option<FadeSet>
    requires { spec.may_stand fade_range 3 positions.now ≡ true }
    ensures { result ≡ decode.fades_at positions.now }
{
    match FadeSet::of(positions) {
        Ok(set) => Some(set),
        Err(_refusal) => None,
    }
}

/// The fades at positions, where these may stand.
pub fn fades_at(positions: &[u8]) -> Option<FadeSet>
    ensures { result ≡ decode.fades_at positions.now }
{
    if may_stand(FADE, 3, positions) {
        standing_fades(positions)
    } else {
        None
    }
}
