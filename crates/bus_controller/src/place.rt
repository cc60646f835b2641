//! A place among the frames that a controller runs, and the next place at which there is an item.
ghost use Rattle.std.specs.Prelude.{◌≡◌, ℕ, ◌+◌, ◌<◌, ◌≤◌, ◌-◌, length, drop, All, slice_get, option_map, Some};
ghost use Rattle.bus_base.specs.Positions.{IsBetween};
ghost use Rattle.bus_model.specs.Starts.{entries_from, repeated};
ghost use Rattle.bus_formats.specs.Plans.{FrameData};
ghost use Rattle.bus_formats.specs.Accepted.{HasItemRanges, HasFrameRanges};
ghost use Rattle.bus_controller.specs.Queue.{IsPlace, HasItem, entries_of, items_of, due_of};

use crate::queue::{Due, Entry};
use arrayvec::ArrayVec;
use bus_formats::{FramePlan, Item};

/// Where an item stands. The frames are run in rounds.
#[derive(Clone, Copy)]
pub struct Place {
    // the rounds after this one
    pub rounds: u32,
    // the frame in its round, and the item in its frame, both counted from 0
    pub frame: usize,
    pub item: usize,
    // the number of the frame over all rounds, counted from 1
    pub number: u32,
    // the ticks of all frames before it
    pub offset: u64,
}

/// The place of the first item from this place on.
pub fn first_item(frames: &[FramePlan], place: Place) -> Place
    requires few { length frames.now ≤ 1024 }
    requires ranges { All HasFrameRanges frames.now }
    requires place { IsPlace frames.now place }
    requires some { 0 < length (entries_of frames.now place) }
    ensures same { entries_of frames.now result ≡ entries_of frames.now place }
    ensures place { IsPlace frames.now result }
    ensures item { HasItem frames.now result }
{
    let mut at = place;
    'frames: while items_in(frames, at.frame) <= at.item {
        at = next_frame(frames, at);
    }
    at
}

/// The first place of the frames, which are run so many times, or that of the first item where so many items are left.
pub fn first_place(frames: &[FramePlan], repeat: u32, left: u32) -> Place
    requires few { length frames.now ≤ 1024 }
    requires ranges { All HasFrameRanges frames.now }
    requires rounds { IsBetween 1 64 repeat }
    requires left { left ≡ length (entries_from 1 0 (repeated repeat frames.now)) }
    ensures all { entries_of frames.now result ≡ entries_from 1 0 (repeated repeat frames.now) }
    ensures place { IsPlace frames.now result }
    ensures item { 0 < left → HasItem frames.now result }
{
    let start = Place {
        rounds: rounds_after(frames, repeat),
        frame: 0,
        item: 0,
        number: 1,
        offset: 0,
    };
    if left == 0 {
        start
    } else {
        first_item(frames, start)
    }
}

// The rounds after the first.
fn rounds_after(frames: &[FramePlan], repeat: u32) -> u32
    requires { 0 < repeat }
    ensures none { length frames.now ≡ 0 → result ≡ 0 }
    ensures some { 0 < length frames.now → result ≡ repeat - 1 }
{
    if frames.is_empty() { 0 } else { repeat - 1 }
}

/// The place after an item that is done, or that of the next item where so many items are left.
pub fn place_after(frames: &[FramePlan], place: Place, left: u32) -> Place
    requires few { length frames.now ≤ 1024 }
    requires ranges { All HasFrameRanges frames.now }
    requires place { IsPlace frames.now place }
    requires item { HasItem frames.now place }
    requires short { items_of frames.now ≤ 16384 }
    requires left { length (entries_of frames.now place) ≡ left + 1 }
    ensures rest { entries_of frames.now result ≡ drop 1 (entries_of frames.now place) }
    ensures place { IsPlace frames.now result }
    ensures item { 0 < left → HasItem frames.now result }
{
    let next = after_item(frames, place);
    if left == 0 {
        next
    } else {
        first_item(frames, next)
    }
}

fn after_item(frames: &[FramePlan], place: Place) -> Place
    requires place { IsPlace frames.now place }
    requires item { HasItem frames.now place }
    requires short { items_of frames.now ≤ 16384 }
    ensures rest { entries_of frames.now result ≡ drop 1 (entries_of frames.now place) }
    ensures place { IsPlace frames.now result }
{
    Place {
        item: place.item + 1,
        ..place
    }
}

/// A copy of the item at a place, with the place. It takes no memory.
pub fn entry_at(frames: &[FramePlan], place: Place) -> Entry
    requires place { IsPlace frames.now place }
    requires item { HasItem frames.now place }
    requires short { items_of frames.now ≤ 16384 }
    requires ranges { All HasFrameRanges frames.now }
    ensures first { slice_get (entries_of frames.now place) 0 ≡ Some result }
    ensures ranges { HasItemRanges result.item }
{
    let frame = &frames[place.frame];
    let item = &frame.items[place.item];
    Entry {
        frame: place.number,
        place: place.item as u32 + 1,
        offset: place.offset,
        item: copy_of(item),
    }
}

/// What decides when the item at a place is due.
pub fn due_at(frames: &[FramePlan], place: Place) -> Due
    requires item { HasItem frames.now place }
    ensures { option_map due_of (slice_get (entries_of frames.now place) 0) ≡ Some result }
{
    let frame = &frames[place.frame];
    let item = &frame.items[place.item];
    Due {
        gap: item.gap,
        offset: place.offset,
        opens: place.item == 0,
    }
}

fn copy_of(item: &Item) -> Item
    ensures { result ≡ item.now }
{
    let turns = item.retry.as_slice();
    let mut retry = ArrayVec::new();
    for turn in turns {
        retry.push(*turn);
    }
    Item {
        kind: item.kind.copy(),
        channel: item.channel,
        gap: item.gap,
        retry,
        abandon: item.abandon,
    }
}

// The items of a frame.
fn items_in(frames: &[FramePlan], frame: usize) -> usize
    requires { frame < length frames.now }
    ensures { (f : FrameData) → slice_get frames.now frame ≡ Some f → result ≡ length f.items }
{
    let here = &frames[frame];
    here.items.len()
}

// The place of the frame after this one, all of whose items stand before the place.
fn next_frame(frames: &[FramePlan], place: Place) -> Place
    requires few { length frames.now ≤ 1024 }
    requires ranges { All HasFrameRanges frames.now }
    requires place { IsPlace frames.now place }
    requires within { place.frame < length frames.now }
    requires over { HasItem frames.now place → ⊥ }
    ensures same { entries_of frames.now result ≡ entries_of frames.now place }
    ensures place { IsPlace frames.now result }
    ensures number { result.number ≡ place.number + 1 }
{
    let frame = &frames[place.frame];
    let offset = place.offset + u64::from(frame.ticks);
    let number = place.number + 1;
    if place.frame + 1 == frames.len() && place.rounds > 0 {
        return Place {
            rounds: place.rounds - 1,
            frame: 0,
            item: 0,
            number,
            offset,
        };
    }
    Place {
        rounds: place.rounds,
        frame: place.frame + 1,
        item: 0,
        number,
        offset,
    }
}
