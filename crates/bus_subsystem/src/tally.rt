//! A subsystem that counts deliveries for each subaddress.

ghost use Rattle.std.specs.Prelude.{◌≡◌, ◌+◌, ◌*◌, ◌≤◌, ◌<◌, ◌^◌, ◌++◌, None, codes, decimal, length, replicate};
ghost use Rattle.bus_subsystem.specs.Deliveries.{Takes, counted, count_text, tally_line};

use crate::{LineText, Subsystem};
use bus_formats::Delivery;
use std::alloc::AllocError;

/// Counts deliveries for each subaddress and keeps none, so that it always has room. Its line is `tally`, and then ` S:N` for each
/// subaddress S with a count N above 0, in rising order.
///
/// A count that has reached 4,294,967,295 stays there; no run has so many deliveries.
#[derive(Drop)]
pub struct Tally {
    // The count of each subaddress from 0 on.
    counts: [u32; 31],
}

impl Tally {
    /// A tally whose counts are all 0.
    pub fn new() -> Tally
        ensures { result.counts ≡ replicate 31 0 }
    {
        Tally { counts: [0; 31] }
    }
}

impl Default for Tally {
    ghost is_default = { λ t. t.counts ≡ replicate 31 0 };

    fn default() -> Tally {
        Tally::new()
    }
}

impl Subsystem for Tally {
    ghost told = { λ _. None };

    ghost spare = { λ _. 2 ^ 64 };

    ghost said = { λ t. tally_line t.counts };

    fn reserve(&mut self, _n: usize) -> Result<(), AllocError> {
        Ok(())
    }

    /// Raises the count of the delivery's subaddress by one, where it isn't at its last value. All other counts stay.
    fn take(&mut self, delivery: Delivery)
        requires low { 0 < delivery.sub }
        requires high { delivery.sub < 31 }
        ensures counts { self.new.counts ≡ counted self.old.counts delivery.sub }
    {
        let sub = delivery.sub as usize;
        self.counts[sub] = self.counts[sub].saturating_add(1);
    }

    fn line(&self, text: &mut LineText) {
        text.add_line(&line_of(&self.counts));
    }
}

// The line of these counts, at most 439 characters.
fn line_of(counts: &[u32]) -> LineText
    requires { length counts.now ≡ 31 }
    ensures { result ≡ tally_line counts.now }
{
    let mut line = LineText::new();
    line.text("tally");
    for sub in 0..31 {
        add_count(&mut line, sub, counts[sub]);
    }
    line
}

// Adds the count of a subaddress, if it is above 0.
fn add_count(line: &mut LineText, sub: usize, count: u32)
    requires sub { sub < 31 }
    requires room { length line.old + 14 ≤ 512 }
    ensures text { line.new ≡ line.old ++ count_text sub count }
    ensures grows { length line.new ≤ length line.old + 14 }
{
    if count == 0 {
        return;
    }
    line.text(" ");
    line.decimal(sub as u128);
    line.text(":");
    line.decimal(count as u128);
}
