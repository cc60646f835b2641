//! The listing of the valid words of a capture.
ghost use Rattle.std.specs.Prelude.{◌≡◌, ◌≤◌, ◌<◌, ◌+◌, ◌++◌, ◌^◌, length, flat_map, ◌&&◌, option_to_list, ℕ, List};
ghost use Rattle.bus_planes.specs.Still.{rests};
ghost use Rattle.bus_line.specs.declared.cutter.TheConstants.{LAG};
ghost use Rattle.bus_text.specs.Texts.{word_line};
ghost use Rattle.bus_monitor.specs.Listings.{word_listing};
ghost use Rattle.bus_monitor.specs.Progress.{word_lines, end_text};
ghost use Rattle.bus_monitor.specs.Scribes.{IsListed, ListingHasCause};
ghost use Rattle.bus_monitor.specs.Listers.{WordListerStands, heard_in};

use crate::list::list;
use crate::listing_writer::Lister;
use crate::page::Page;
use crate::word_lister::word_in;
use crate::{Listing, WordLister};
use bus_base::{Channel, Pair};
use bus_capture::Block;
use bus_formats::Heard;
use bus_line::Cut;
use bus_outside::{Sink, Source};

/// Reads a capture to its end, in pieces of at most 4,096 bytes, and writes the listing of its valid words while it reads: a line
/// for each, in the order of their last ticks, A before B, and then the number of ticks. It takes no memory.
pub fn list_words<S: Source, K: Sink>(source: &mut S, sink: &mut K) -> Listing
    ensures listed { IsListed (word_lines LAG) (word_listing LAG) (S.left source.old) (S.left source.new) (K.held sink.old) (K.held sink.new) result }
    ensures cause { ListingHasCause (S.faults source.old) (S.faults source.new) (K.faults sink.old) (K.faults sink.new) result }
{
    list(WordLister::new(), source, sink)
}

impl Lister for WordLister {
    ghost stands = { WordListerStands };

    ghost lines = { word_lines LAG };

    ghost whole = { word_listing LAG };

    ghost idle = { λ lister. rests LAG lister.a && rests LAG lister.b };

    fn is_idle(&self) -> bool {
        self.is_idle()
    }

    fn skip(&mut self, ticks: u64) {
        self.skip(ticks);
    }

    #[inline(always)]
    fn list(&mut self, shown: Pair, text: &mut Page) {
        let tick = self.ticks();
        let a = self.a.hear(shown.a);
        add_cut(a, Channel::A, tick, text);
        let b = self.b.hear(shown.b);
        add_cut(b, Channel::B, tick, text);
        self.count();
    }

    #[inline(always)]
    fn pass(&mut self, block: &Block, at: u32) -> u32 {
        self.pass(block, at)
    }

    fn finish(&self, text: &mut Page) {
        add_end(self.ticks(), text);
    }
}

// Adds the line of the valid word that ends in this tick, if what became known of the channel has one. It is called twice a tick, and mostly
// does nothing.
#[inline(always)]
fn add_cut(cut: Cut, channel: Channel, tick: u64, text: &mut Page)
    requires { length text.old ≤ 3900 }
    ensures text { text.new ≡ text.old ++ flat_map word_line (option_to_list (heard_in cut channel tick)) }
    ensures grows { length text.new ≤ length text.old + 40 }
{
    if let Cut::Slot { .. } = cut {
        add_word(word_in(cut, channel, tick), text);
    }
}

#[inline(always)]
fn add_word(heard: Option<Heard>, text: &mut Page)
    requires { length text.old ≤ 3900 }
    ensures text { text.new ≡ text.old ++ flat_map word_line (option_to_list heard) }
    ensures grows { length text.new ≤ length text.old + 40 }
{
    if let Some(heard) = heard {
        add_line(heard, text);
    }
}

#[inline(always)]
fn add_line(heard: Heard, text: &mut Page)
    requires { length text.old ≤ 3900 }
    ensures text { text.new ≡ text.old ++ word_line heard }
    ensures grows { length text.new ≤ length text.old + 40 }
{
    text.word(heard);
}

/// Adds the line that ends a listing, with the number of ticks.
pub fn add_end(ticks: u64, text: &mut Page)
    requires { length text.old ≤ 3900 }
    ensures { text.new ≡ text.old ++ end_text ticks }
{
    text.text("end");
    text.number(ticks);
    text.end();
}
