//! The items that a controller has left, in the order in which it runs them. Repeated frames aren't copied.
ghost use Rattle.std.specs.Prelude.{◌≡◌, ◌≤◌, length, drop, slice_get, option_map, IfSome};
ghost use Rattle.bus_formats.specs.Accepted.{HasItemRanges};
ghost use Rattle.bus_model.specs.Starts.{entries_from, repeated};
ghost use Rattle.bus_controller.specs.Queue.{items_of, MayRun, due_of};

use crate::place::{Place, due_at, entry_at, first_place, place_after};
use bus_formats::{FramePlan, Item};
use std::marker::Model;

/// An item that is run, with its frame and its place there, both counted from 1, and the ticks of all frames before its own.
#[derive(Drop)]
pub struct Entry {
    pub frame: u32,
    pub place: u32,
    pub offset: u64,
    pub item: Item,
}

impl Model for Entry {
    ghost use Rattle.bus_model.specs.Starts as starts;

    ghost Value = { starts.Entry };

    ghost view = { λ e. record { frame = e.frame; place = e.place; offset = e.offset; item = e.item } };
}

/// What decides when the next item is due: its gap and the ticks of all frames before its own, and whether it is its frame's first.
#[derive(Clone, Copy)]
pub struct Due {
    pub gap: u16,
    pub offset: u64,
    pub opens: bool,
}

impl Model for Due {
    ghost use Rattle.bus_controller.specs.Queue.{DueData};

    ghost Value = { DueData };

    ghost view = { λ d. record { gap = d.gap; offset = d.offset; opens = d.opens } };

    ghost inverse = { λ d. record { gap = d.gap; offset = d.offset; opens = d.opens } };
}

/// The items that are left, seen by contracts as their list.
#[derive(Drop)]
pub struct Queue {
    frames: Vec<FramePlan>,
    place: Place,
    left: u32,
}

impl Model for Queue {
    ghost use Rattle.std.specs.Prelude.{List};
    ghost use Rattle.bus_model.specs.Starts as starts;
    ghost use Rattle.bus_controller.specs.Queue.{entries_of, IsQueue};

    ghost Value = { List starts.Entry };

    ghost view = { λ q. entries_of q.frames.items q.place };

    ghost invariant = { λ q. IsQueue q.frames.items q.place q.left };
}

impl Queue {
    /// All items of the frames, which are run so many times.
    pub fn new(frames: Vec<FramePlan>, repeat: u32) -> Queue
        requires { MayRun frames.items repeat }
        ensures { result ≡ entries_from 1 0 (repeated repeat frames.items) }
    {
        let left = repeat * count_items(&frames);
        let place = first_place(&frames, repeat, left);
        Queue {
            frames,
            place,
            left,
        }
    }

    /// How many items are left.
    pub fn len(&self) -> u32
        ensures { result ≡ length self.now }
    {
        self.left
    }

    /// A copy of the next item, with its place. It takes no memory.
    pub fn entry(&self) -> Option<Entry>
        ensures value { result ≡ slice_get self.now 0 }
        ensures ranges { IfSome result (λ entry. HasItemRanges entry.item) }
    {
        if self.left == 0 {
            return None;
        }
        Some(entry_at(&self.frames, self.place))
    }

    /// What decides when the next item is due.
    pub fn due(&self) -> Option<Due>
        ensures { result ≡ option_map due_of (slice_get self.now 0) }
    {
        if self.left == 0 {
            return None;
        }
        Some(due_at(&self.frames, self.place))
    }

    /// The next item is done, and isn't left any longer.
    pub fn finish(&mut self)
        ensures { self.new ≡ drop 1 self.old }
    {
        if self.left == 0 {
            return;
        }
        self.left -= 1;
        self.place = place_after(&self.frames, self.place, self.left);
    }
}

fn count_items(frames: &[FramePlan]) -> u32
    requires { items_of frames.now ≤ 16384 }
    ensures { result ≡ items_of frames.now }
{
    let mut total = 0u32;
    for frame in frames {
        total += frame.items.len() as u32;
    }
    total
}
