//! Quiet ticks change nothing of a station before something is due. Laws alone, each the contract of an empty function.

ghost use Rattle.std.specs.Prelude.{◌≡◌, ℕ, suc, ◌+◌, Bool, true, false, List, [], ◌∷◌, ◌++◌, length, None};
ghost use Rattle.bus_base.specs.declared.samples.Drive.TheVariants.{Silent};
ghost use Rattle.bus_base.specs.declared.samples.Channel.{Channel};
ghost use Rattle.bus_base.specs.declared.samples.Pair.{Pair};
ghost use Rattle.bus_line.specs.Past.{runs, heard_within};
ghost use Rattle.bus_formats.specs.Plans.{TerminalData, StationData};
ghost use Rattle.bus_formats.specs.Times.{relay_wait};
ghost use Rattle.bus_model.specs.Memory.{Memory, TimedLoad, with_loads};
ghost use Rattle.bus_model.specs.Orders.{Obeyed, free, unkept};
ghost use Rattle.bus_model.specs.Standing.{Standing, promised_on};
ghost use Rattle.bus_model.specs.Hearing.{Moment, heard_on};
ghost use Rattle.bus_model.specs.Terminal.{standing, standing_after, drives, took_now, accepted_now};
ghost use Rattle.bus_model.specs.Course.{Take, course, drive_course};
ghost use Rattle.bus_model.specs.Control.{OutsideTake, so_far, course_after, hearing_after, drives_next};
ghost use Rattle.bus_base.specs.Samples.{quiet_pairs};
ghost use Rattle.bus_law_stations.specs.Silence.{quiet_moments, NothingDue, AreTaken, NothingStarts, StationRests, heard_more};

/// Quiet ticks on both channels change nothing that stands of a terminal while no burst runs and nothing is due: it keeps its memory, its last
/// order and what that left; it sends nothing, takes no block and accepts no control. At every lag.
pub fn quiet_ticks_change_no_terminal()
    ensures stands { (k : ℕ) (terminal : TerminalData) (loads : List TimedLoad) (memory : Memory) (heard : List Moment) (mays : List Bool) →
        NothingDue k terminal (standing k terminal loads memory heard) heard (length mays) →
        standing k terminal loads memory (quiet_moments mays ++ heard) ≡ standing k terminal loads memory heard }
    ensures silent { (k : ℕ) (terminal : TerminalData) (loads : List TimedLoad) (memory : Memory) (heard : List Moment) (mays : List Bool) →
        NothingDue k terminal (standing k terminal loads memory heard) heard (suc (length mays)) →
        drives k terminal loads record { memory = memory; ticks = quiet_moments mays ++ heard } ≡ Silent }
    ensures takes { (k : ℕ) (terminal : TerminalData) (loads : List TimedLoad) (memory : Memory) (heard : List Moment) (may : Bool) (mays : List Bool) →
        NothingDue k terminal (standing k terminal loads memory heard) heard (length (may ∷ mays)) →
        took_now k terminal loads record { memory = memory; ticks = quiet_moments (may ∷ mays) ++ heard } ≡ None }
    ensures accepts { (k : ℕ) (terminal : TerminalData) (loads : List TimedLoad) (memory : Memory) (heard : List Moment) (may : Bool) (mays : List Bool) →
        NothingDue k terminal (standing k terminal loads memory heard) heard (length (may ∷ mays)) →
        accepted_now k terminal loads record { memory = memory; ticks = quiet_moments (may ∷ mays) ++ heard } ≡ None }
{}

/// Quiet ticks on both channels change nothing of a controller while no answer that it awaits is overdue and no message is to start: until 24
/// ticks after the end of the burst that is to be answered (no-response time-out, MIL-STD-1553B 4.3.3.9), and until the next start. It sends
/// nothing. At every lag.
pub fn quiet_ticks_change_no_controller()
    ensures stands { (k : ℕ) (station : StationData) (starts : Bool) (takes : List Take) (past : List Pair) (n : ℕ) →
        AreTaken (length past) takes → NothingStarts k (course k station starts takes past) past n →
        course k station starts takes (quiet_pairs n ++ past) ≡ course k station starts takes past }
    ensures silent { (k : ℕ) (station : StationData) (starts : Bool) (takes : List Take) (past : List Pair) (n : ℕ) →
        AreTaken (length past) takes → NothingStarts k (course k station starts takes past) past (suc n) →
        drive_course k (quiet_pairs n ++ past) (course k station starts takes (quiet_pairs n ++ past)) ≡ Silent }
{}

/// Quiet ticks on both channels change nothing of a station while nothing is due of its terminal and of its controller: it holds control or
/// serves as before, its terminal heard these ticks, and it sends nothing. At every lag.
pub fn quiet_ticks_change_no_station()
    ensures stands { (k : ℕ) (station : StationData) (starts : Bool) (loads : List TimedLoad) (outside : List OutsideTake) (past : List Pair) (n : ℕ) →
        StationRests k station starts loads outside past n →
        (mays : List Bool) × (length mays ≡ n)
        × (so_far k station starts loads outside (quiet_pairs n ++ past) ≡ heard_more (so_far k station starts loads outside past) mays) }
    ensures course { (k : ℕ) (station : StationData) (starts : Bool) (loads : List TimedLoad) (outside : List OutsideTake) (past : List Pair) (n : ℕ) →
        StationRests k station starts loads outside past n →
        course_after k station starts loads outside (quiet_pairs n ++ past) ≡ course_after k station starts loads outside past }
    ensures terminal { (k : ℕ) (station : StationData) (starts : Bool) (loads : List TimedLoad) (outside : List OutsideTake) (past : List Pair) (n : ℕ) →
        StationRests k station starts loads outside past n →
        standing_after k station.terminal loads (hearing_after k station starts loads outside (quiet_pairs n ++ past))
        ≡ standing_after k station.terminal loads (hearing_after k station starts loads outside past) }
    ensures silent { (k : ℕ) (station : StationData) (starts : Bool) (loads : List TimedLoad) (outside : List OutsideTake) (past : List Pair) (n : ℕ) →
        StationRests k station starts loads outside past (suc n) → drives_next k station starts loads outside (quiet_pairs n ++ past) ≡ Silent }
{}

/// A promise that stands runs out with the 31st quiet tick after the burst in which it was made, as one that isn't kept: message error is set, and
/// nothing is owed (MIL-STD-1553B 4.4.3.5; the 31 ticks are the project's own). At every lag.
pub fn a_promise_runs_out_in_silence()
    ensures { (k : ℕ) (terminal : TerminalData) (loads : List TimedLoad) (memory : Memory) (heard : List Moment) (may : Bool) →
        let s : Standing = standing k terminal loads memory heard in
        let o : Obeyed = unkept terminal (with_loads terminal.address (length heard) loads s.memory) s.channel in
        ((c : Channel) → runs k (heard_on c heard) ≡ false) → promised_on k s s.channel ≡ true → length heard ≡ s.end + relay_wait →
        heard_within (heard_on s.channel heard) s.end (suc (length heard)) ≡ false →
        (standing k terminal loads memory (quiet_moments (may ∷ []) ++ heard) ≡ record s { memory = o.memory; duty = o.duty }) × (o.duty ≡ free) }
{}
