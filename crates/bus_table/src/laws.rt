//! Laws of the table, each a function with nothing to do.
ghost use Rattle.std.specs.Prelude.{◌≡◌, List, ◌++◌, flat_map};
ghost use Rattle.bus_base.specs.declared.samples.Pair.{Pair};
ghost use Rattle.bus_line.specs.declared.cutter.TheConstants.{LAG};
ghost use Rattle.bus_monitor.specs.Listings.{message_listing, end_line};
ghost use Rattle.bus_monitor.specs.Progress.{message_lines};
ghost use Rattle.bus_table.specs.Lines.{line_of};
ghost use Rattle.bus_table.specs.Tables.{rows, all_rows};

/// The lines of the message listing are made of the rows, one of each: those of the messages that closed, and all of a whole capture.
pub fn lines_of_messages_are_made_of_rows()
    ensures closed { (past : List Pair) → message_lines LAG past ≡ flat_map line_of (rows LAG past) }
    ensures whole { (past : List Pair) → message_listing LAG past ≡ flat_map line_of (all_rows LAG past) ++ end_line past }
{}
