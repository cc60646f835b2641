//! A table from the first piece to the last.
ghost use Rattle.std.specs.Prelude.{◌≡◌, ◌≤◌, length};
ghost use Rattle.bus_line.specs.declared.cutter.TheConstants.{LAG};
ghost use Rattle.bus_monitor.specs.Scribes.{IsListed, ListingHasCause};
ghost use Rattle.bus_table.specs.Tables.{table_lines, table_text};
ghost use Rattle.bus_table.specs.Texts.{names_text};

use crate::Format;
use crate::table::{CsvTable, JsonTable, TableFormat, TableLister};
use bus_monitor::list::list_from;
use bus_monitor::{Listing, Page};
use bus_outside::{Sink, Source};

/// Reads a capture to its end, in pieces of at most 4,096 bytes, and writes its table while it reads: a row for each message where it closes, A
/// before B in one tick, then one for each that is open at the end. It takes no memory.
pub fn write_table<S: Source, K: Sink>(format: Format, source: &mut S, sink: &mut K) -> Listing
    ensures listed { IsListed (table_lines LAG format) (table_text LAG format) (S.left source.old) (S.left source.new) (K.held sink.old) (K.held sink.new) result }
    ensures cause { ListingHasCause (S.faults source.old) (S.faults source.new) (K.faults sink.old) (K.faults sink.new) result }
{
    match format {
        Format::Csv => write_by(CsvTable, source, sink),
        Format::Json => write_by(JsonTable, source, sink),
    }
}

fn write_by<F: TableFormat + Drop, S: Source, K: Sink>(
    format: F,
    source: &mut S,
    sink: &mut K,
) -> Listing
    ensures listed { IsListed (table_lines LAG F.kind) (table_text LAG F.kind) (S.left source.old) (S.left source.new) (K.held sink.old) (K.held sink.new) result }
    ensures cause { ListingHasCause (S.faults source.old) (S.faults source.new) (K.faults sink.old) (K.faults sink.new) result }
{
    let names = names(format.kind());
    let (listing, _) = list_from(TableLister::new(format), names, source, sink);
    listing
}

fn names(format: Format) -> Page
    ensures text { result ≡ names_text format }
    ensures short { length result ≤ 200 }
{
    let mut text = Page::new();
    match format {
        Format::Csv => text.text(
            "at,us,channel,form,rt,sub,count,code,from,from_sub,commands,outcome,answer,statuses,responses,gap,ticks,data,bad,bad_at\n",
        ),
        Format::Json => {}
    }
    text
}
