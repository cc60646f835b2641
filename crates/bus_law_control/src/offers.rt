//! How control passes by an offer: laws of the station that accepts it (dynamic bus control, MIL-STD-1553B 4.3.3.5.1.7.1). Laws alone, each the
//! contract of an empty function.

ghost use Rattle.std.specs.Prelude.{◌≡◌, ℕ, suc, ◌+◌, ◌≤◌, Bool, true, false, List, [], ◌∷◌, ◌++◌, length, Some, None};
ghost use Rattle.bus_base.specs.declared.samples.Channel.{Channel};
ghost use Rattle.bus_base.specs.declared.samples.Pair.{Pair};
ghost use Rattle.bus_words.specs.declared.word.Word.{Word};
ghost use Rattle.bus_line.specs.Past.{Burst, end_of, ended_now};
ghost use Rattle.bus_formats.specs.Plans.{StationData, TerminalData};
ghost use Rattle.bus_formats.specs.Times.{taking_over};
ghost use Rattle.bus_model.specs.Memory.{Memory, TimedLoad};
ghost use Rattle.bus_model.specs.Orders.{owes, due_after};
ghost use Rattle.bus_model.specs.Hearing.{Moment, heard_on};
ghost use Rattle.bus_model.specs.Terminal.{standing, memory_after, accepted_now};
ghost use Rattle.bus_model.specs.Course.{take_control};
ghost use Rattle.bus_model.specs.Control.{OutsideTake, unheard_ticks, moment_of, hear_more, outside_takes, so_far, course_after};
ghost use Rattle.bus_law_stations.specs.Legs.{HearsBurst, BeginsAnswer};
ghost use Rattle.bus_law_stations.specs.Turns.{Serves};
ghost use Rattle.bus_law_control.specs.Offers.{is_acceptance};

/// A terminal whose answer accepts control accepts it in the tick in which the end of that answer's burst is known, and not while it is sent;
/// nothing else is accepted: no answer that doesn't accept, and no other burst. At every lag.
pub fn a_status_that_accepts_is_accepted()
    ensures accepted { (k : ℕ) (terminal : TerminalData) (loads : List TimedLoad) (memory : Memory) (c : Channel) (heard ticks : List Moment)
        (first now : Moment) (burst : Burst) (words : List Word) → let s = standing k terminal loads memory heard in
        BeginsAnswer k terminal s c heard → HearsBurst k terminal s c heard (first ∷ ticks) → s.duty ≡ owes words true →
        ended_now k (heard_on c (now ∷ ((first ∷ ticks) ++ heard))) ≡ Some burst → 40 ≤ burst.ticks →
        accepted_now k terminal loads record { memory = memory; ticks = now ∷ ((first ∷ ticks) ++ heard) } ≡ Some (end_of burst) }
    ensures early { (k : ℕ) (terminal : TerminalData) (loads : List TimedLoad) (memory : Memory) (c : Channel) (heard ticks : List Moment) (now : Moment) →
        let s = standing k terminal loads memory heard in BeginsAnswer k terminal s c heard → HearsBurst k terminal s c heard (now ∷ ticks) →
        accepted_now k terminal loads record { memory = memory; ticks = (now ∷ ticks) ++ heard } ≡ None }
    ensures others { (k : ℕ) (terminal : TerminalData) (loads : List TimedLoad) (memory : Memory) (heard : List Moment) (now : Moment) →
        is_acceptance (standing k terminal loads memory heard).duty ≡ false →
        accepted_now k terminal loads record { memory = memory; ticks = now ∷ heard } ≡ None }
    ensures elsewhere { (k : ℕ) (terminal : TerminalData) (loads : List TimedLoad) (memory : Memory) (heard : List Moment) (now : Moment) →
        let s = standing k terminal loads memory heard in
        ((burst : Burst) → ended_now k (heard_on s.channel (now ∷ heard)) ≡ Some burst → burst.first ≡ due_after terminal s.end → ⊥) →
        accepted_now k terminal loads record { memory = memory; ticks = now ∷ heard } ≡ None }
{}

/// A serving station whose terminal accepts control holds it from the next tick on, its first command to start 40 ticks after its answer. Its
/// terminal keeps its memory, and heard nothing. At every lag.
pub fn an_accepting_station_takes_control()
    ensures hears { (k : ℕ) (station : StationData) (starts : Bool) (loads : List TimedLoad) (outside : List OutsideTake) (x : Pair) (past : List Pair) (e : ℕ) →
        let before = so_far k station starts loads outside past in let c = course_after k station starts loads outside past in
        Serves c → accepted_now k station.terminal loads (hear_more before.hearing (moment_of x c)) ≡ Some e →
        outside_takes k station starts loads outside (length past) outside ≡ [] → so_far k station starts loads outside (x ∷ past) ≡ record {
          takes = before.takes ++ record { heard = suc (length past); first = e + taking_over } ∷ [];
          hearing = record { memory = memory_after k station.terminal loads (hear_more before.hearing (moment_of x c)); ticks = unheard_ticks (x ∷ past) };
        } }
    ensures holds { (k : ℕ) (station : StationData) (starts : Bool) (loads : List TimedLoad) (outside : List OutsideTake) (x : Pair) (past : List Pair) (e : ℕ) →
        let before = so_far k station starts loads outside past in let c = course_after k station starts loads outside past in
        Serves c → accepted_now k station.terminal loads (hear_more before.hearing (moment_of x c)) ≡ Some e →
        outside_takes k station starts loads outside (length past) outside ≡ [] →
        course_after k station starts loads outside (x ∷ past) ≡ take_control (e + taking_over) c }
{}
