//! A listing from the first piece to the last.
ghost use Rattle.std.specs.Prelude.{◌≡◌, ◌≤◌, [], List, ℕ, length};
ghost use Rattle.bus_monitor.specs.Scribes.{IsListed, IsListedBy, ListingHasCause, Follows};

use crate::Listing;
use crate::listing_writer::{Lister, ListingWriter};
use crate::page::Page;
use bus_outside::{Sink, Source};

// The most bytes that are read: one more than a capture text has.
const MOST_BYTES: u64 = 8_589_934_593;

// The bytes of a piece.
const PIECE: u64 = 32768;

/// Lists what the source has to its end, and hands the lister back, which then stands for all ticks of the capture.
pub fn list_by<L: Lister + Drop, S: Source, K: Sink>(
    lister: L,
    source: &mut S,
    sink: &mut K,
) -> (Listing, L)
    requires stands { L.stands lister [] }
    requires lines { L.lines [] ≡ [] }
    ensures listed { IsListedBy L.stands L.lines L.whole (S.left source.old) (S.left source.new) (K.held sink.old) (K.held sink.new) result.1 result.0 }
    ensures cause { ListingHasCause (S.faults source.old) (S.faults source.new) (K.faults sink.old) (K.faults sink.new) result.0 }
{
    list_from(lister, Page::new(), source, sink)
}

/// The same of a listing that begins with a text.
pub fn list_from<L: Lister + Drop, S: Source, K: Sink>(
    lister: L,
    text: Page,
    source: &mut S,
    sink: &mut K,
) -> (Listing, L)
    requires stands { L.stands lister [] }
    requires lines { L.lines [] ≡ text }
    requires room { length text ≤ 3000 }
    ensures listed { IsListedBy L.stands L.lines L.whole (S.left source.old) (S.left source.new) (K.held sink.old) (K.held sink.new) result.1 result.0 }
    ensures cause { ListingHasCause (S.faults source.old) (S.faults source.new) (K.faults sink.old) (K.faults sink.new) result.0 }
{
    let mut writer = ListingWriter::new(lister, text);
    let mut piece = [0u8; 32768];
    let listing = read_all(&mut writer, &mut piece, source, sink);
    (listing, writer.into_lister())
}

/// Lists what the source has to its end.
pub(crate) fn list<L: Lister + Drop, S: Source, K: Sink>(
    lister: L,
    source: &mut S,
    sink: &mut K,
) -> Listing
    requires stands { L.stands lister [] }
    requires lines { L.lines [] ≡ [] }
    ensures listed { IsListed L.lines L.whole (S.left source.old) (S.left source.new) (K.held sink.old) (K.held sink.new) result }
    ensures cause { ListingHasCause (S.faults source.old) (S.faults source.new) (K.faults sink.old) (K.faults sink.new) result }
{
    let (listing, _) = list_by(lister, source, sink);
    listing
}

// Reads to the end, piece by piece.
fn read_all<L: Lister, S: Source, K: Sink>(
    writer: &mut ListingWriter<L>,
    piece: &mut [u8],
    source: &mut S,
    sink: &mut K,
) -> Listing
    requires piece { length piece.old ≡ 32768 }
    requires nothing { Follows L.stands L.lines writer.old [] (K.held sink.old) (K.held sink.old) }
    ensures listed { IsListedBy L.stands L.lines L.whole (S.left source.old) (S.left source.new) (K.held sink.old) (K.held sink.new) writer.new.lister result }
    ensures cause { ListingHasCause (S.faults source.old) (S.faults source.new) (K.faults sink.old) (K.faults sink.new) result }
{
    let mut left = MOST_BYTES;
    'pieces: loop {
        let room = left.min(PIECE) as usize;
        match writer.read_piece(&mut piece[..room], source, sink) {
            Ok(count) => left -= count as u64,
            Err(listing) => return listing,
        }
    }
}
