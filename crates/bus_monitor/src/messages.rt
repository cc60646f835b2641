//! The listing of the messages of a capture.
ghost use Rattle.std.specs.Prelude.{[], ◌&&◌};
ghost use Rattle.bus_monitor.specs.Channels.{is_idle_on};
ghost use Rattle.bus_line.specs.declared.cutter.TheConstants.{LAG};
ghost use Rattle.bus_monitor.specs.Listings.{message_listing};
ghost use Rattle.bus_monitor.specs.Progress.{message_lines};
ghost use Rattle.bus_monitor.specs.Scribes.{IsListed, ListingHasCause};
ghost use Rattle.bus_monitor.specs.Listers.{MessageListerStands};

use crate::Listing;
use crate::channel_lister::ChannelLister;
use crate::list::list;
use crate::listing_writer::Lister;
use crate::message_text::add_open;
use crate::page::Page;
use crate::words::add_end;
use bus_base::{Channel, Pair};
use bus_capture::Block;
use bus_outside::{Sink, Source};

/// Reads a capture to its end, in pieces of at most 4,096 bytes, and writes the listing of its messages while it reads: a line for each
/// message where it closes, with its outcome and statuses, A before B in one tick; then a line for each that is open at the end, and the
/// number of ticks (bus monitor, MIL-STD-1553B 4.4.4). It takes no memory.
pub fn list_messages<S: Source, K: Sink>(source: &mut S, sink: &mut K) -> Listing
    ensures listed { IsListed (message_lines LAG) (message_listing LAG) (S.left source.old) (S.left source.new) (K.held sink.old) (K.held sink.new) result }
    ensures cause { ListingHasCause (S.faults source.old) (S.faults source.new) (K.faults sink.old) (K.faults sink.new) result }
{
    list(MessageLister::new(), source, sink)
}

/// Lists the messages of both channels. It takes no memory.
#[derive(Drop)]
pub(crate) struct MessageLister {
    a: ChannelLister,
    b: ChannelLister,
    ticks: u64,
}

impl MessageLister {
    /// A lister that heard nothing.
    pub(crate) fn new() -> MessageLister
        ensures { MessageListerStands result [] }
    {
        MessageLister {
            a: ChannelLister::new(),
            b: ChannelLister::new(),
            ticks: 0,
        }
    }
}

impl Lister for MessageLister {
    ghost stands = { MessageListerStands };

    ghost lines = { message_lines LAG };

    ghost whole = { message_listing LAG };

    ghost idle = { λ lister. is_idle_on lister.a && is_idle_on lister.b };

    fn is_idle(&self) -> bool {
        self.a.is_idle() && self.b.is_idle()
    }

    fn skip(&mut self, ticks: u64) {
        self.ticks += ticks;
    }

    #[inline(always)]
    fn list(&mut self, shown: Pair, text: &mut Page) {
        self.a.list(Channel::A, self.ticks, shown.a, text);
        self.b.list(Channel::B, self.ticks, shown.b, text);
        self.ticks += 1;
    }

    #[inline(always)]
    fn pass(&mut self, block: &Block, at: u32) -> u32 {
        let heard_a = block.heard_a >> at;
        let heard_b = block.heard_b >> at;
        let ticks = self
            .a
            .still(heard_a, self.ticks)
            .min(self.b.still(heard_b, self.ticks))
            .min(block.ticks - at);
        if ticks == 0 {
            return 0;
        }
        self.a.pass(heard_a, block.plus_a >> at, ticks);
        self.b.pass(heard_b, block.plus_b >> at, ticks);
        self.ticks += u64::from(ticks);
        ticks
    }

    fn finish(&self, text: &mut Page) {
        add_open(Channel::A, self.a.open(), text);
        add_open(Channel::B, self.b.open(), text);
        add_end(self.ticks, text);
    }
}
