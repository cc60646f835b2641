//! A subsystem that keeps every delivery.

ghost use Rattle.std.specs.Prelude.{◌≡◌, ◌+◌, ◌*◌, ◌-◌, ◌≤◌, ◌++◌, Some, [], vec_len, vec_capacity, codes, decimal, length};
ghost use Rattle.bus_subsystem.specs.Deliveries.{words_in as words_of, recorder_line, recorder_text};

use crate::{LineText, Subsystem};
use bus_formats::Delivery;
use std::alloc::{AllocError, Global};

/// Keeps and tells every delivery. Its line is `recorder blocks B words W`: how many deliveries it took, and how many words they have
/// in all.
#[derive(Drop)]
pub struct Recorder {
    taken: Vec<Delivery>,
}

impl Recorder {
    /// A recorder that took nothing and has room for nothing. It takes no memory: the allocator is kept for `reserve`.
    pub fn new(alloc: Global) -> Recorder
        ensures { result.taken.items ≡ [] }
    {
        Recorder {
            taken: Vec::new(alloc),
        }
    }
}

impl Subsystem for Recorder {
    ghost told = { λ r. Some r.taken.items };

    ghost spare = { λ r. vec_capacity r.taken - vec_len r.taken };

    ghost said = { λ r. recorder_line r.taken.items };

    fn reserve(&mut self, n: usize) -> Result<(), AllocError> {
        self.taken.reserve(n)
    }

    fn take(&mut self, delivery: Delivery) {
        // There is room, so nothing is allocated.
        if self.taken.push(delivery).is_err() {
            unreachable!()
        }
    }

    fn line(&self, text: &mut LineText) {
        text.add_line(&line_of(&self.taken));
    }
}

// The line of these deliveries.
fn line_of(taken: &[Delivery]) -> LineText
    ensures { result ≡ recorder_line taken.now }
{
    written(taken.len() as u128, words_in(taken))
}

// The line of so many blocks with so many words.
fn written(blocks: u128, words: u128) -> LineText
    ensures { result ≡ recorder_text blocks words }
{
    let mut line = LineText::new();
    line.text("recorder blocks ");
    line.decimal(blocks);
    line.text(" words ");
    line.decimal(words);
    line
}

// How many words the deliveries have in all. No list of blocks is so long that 128 bits don't hold it.
fn words_in(taken: &[Delivery]) -> u128
    ensures { result ≡ words_of taken.now }
{
    let mut words = 0;
    for delivery in taken {
        words += delivery.words.words().len() as u128;
    }
    words
}
