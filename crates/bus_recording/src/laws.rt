//! Laws of recordings, functions with nothing to do.
ghost use Rattle.std.specs.Prelude.{◌≡◌, ℕ, true};
ghost use Rattle.bus_recording.specs.Tokens.{is_white};
ghost use Rattle.bus_recording.specs.Vcd as vcd;
ghost use Rattle.bus_recording.specs.Rows as rows;
ghost use Rattle.bus_recording.specs.declared.vcd.VcdReader.{VcdReader};
ghost use Rattle.bus_recording.specs.declared.rows.RowReader.{RowReader};

/// A recording that is refused stays as it is, whatever comes after it.
pub fn refusals_stay()
    ensures vcd { (byte : ℕ) (r : VcdReader) → vcd.is_refused r.place ≡ true → vcd.after_byte byte r ≡ r }
    ensures rows { (byte : ℕ) (r : RowReader) → rows.is_refused r.rows ≡ true → rows.after_byte byte r ≡ r }
{}

/// In a value change dump all white space is the same: lines mean nothing.
pub fn white_space_is_all_the_same()
    ensures reader { (a b : ℕ) (r : VcdReader) → is_white a ≡ true → is_white b ≡ true → vcd.after_byte a r ≡ vcd.after_byte b r }
    ensures moment { (a b : ℕ) (r : VcdReader) → is_white a ≡ true → is_white b ≡ true → vcd.moment_after a r ≡ vcd.moment_after b r }
{}
