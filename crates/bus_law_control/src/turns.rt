//! What is known of each station after any ticks. Laws alone, each the contract of an empty function.

ghost use Rattle.std.specs.Prelude.{◌≡◌, ℕ, ◌<◌, ◌≤◌, Bool, true, false, List, ◌∷◌, length};
ghost use Rattle.std.specs.List.{All};
ghost use Rattle.bus_base.specs.declared.samples.Channel.{Channel};
ghost use Rattle.bus_base.specs.declared.samples.Pair.{Pair};
ghost use Rattle.bus_line.specs.Past.{quiet_ticks, runs};
ghost use Rattle.bus_formats.specs.Plans.{StationData, TerminalData};
ghost use Rattle.bus_formats.specs.declared.log.Attempt.{Attempt};
ghost use Rattle.bus_model.specs.Memory.{Memory, TimedLoad};
ghost use Rattle.bus_model.specs.Hearing.{heard_on};
ghost use Rattle.bus_model.specs.Standing.{at_rest};
ghost use Rattle.bus_model.specs.Terminal.{standing};
ghost use Rattle.bus_model.specs.Attempts.{Begun, Ended};
ghost use Rattle.bus_model.specs.Course.{Take, Course, course, close};
ghost use Rattle.bus_model.specs.Control.{OutsideTake, unheard_ticks, is_yielded, yielded_in, hearing_after, holds_control};
ghost use Rattle.bus_law_stations.specs.Silence.{AreTaken};
ghost use Rattle.bus_law_stations.specs.Turns.{KeepsControl, Serves};
ghost use Rattle.bus_law_control.specs.Keeping.{HoldsThrough};

/// An attempt that ended did so before now: none ended in a tick to come, so none is yielded there; one that ends in a tick is yielded there by its
/// outcome alone, and in a tick after which control is held none was. Without control no message runs. At every lag.
pub fn an_attempt_that_ended_did_so_before()
    ensures before { (k : ℕ) (station : StationData) (starts : Bool) (takes : List Take) (past : List Pair) →
        All (λ (a : Attempt). a.ended.0 < length past) (course k station starts takes past).ended }
    ensures yielded { (k : ℕ) (station : StationData) (starts : Bool) (takes : List Take) (past : List Pair) (tick : ℕ) → length past ≤ tick →
        yielded_in tick (course k station starts takes past).ended ≡ false }
    ensures kept { (k : ℕ) (station : StationData) (starts : Bool) (takes : List Take) (x : Pair) (past : List Pair) → AreTaken (length past) takes →
        (course k station starts takes (x ∷ past)).holds ≡ true → yielded_in (length past) (course k station starts takes (x ∷ past)).ended ≡ false }
    ensures closed { (c : Course) (begun : Begun) (e : Ended) (tick : ℕ) → yielded_in tick (close c begun e tick).ended ≡ is_yielded e.outcome }
    ensures serves { (k : ℕ) (station : StationData) (starts : Bool) (takes : List Take) (past : List Pair) →
        (course k station starts takes past).holds ≡ false → Serves (course k station starts takes past) }
{}

/// To the terminal of a station that holds control the bus was quiet in all ticks, so it is at rest. At every lag.
pub fn a_holder_has_heard_nothing()
    ensures heard { (k : ℕ) (station : StationData) (starts : Bool) (loads : List TimedLoad) (outside : List OutsideTake) (past : List Pair) →
        holds_control k station starts loads outside past ≡ true →
        (hearing_after k station starts loads outside past).ticks ≡ unheard_ticks past }
    ensures quiet { (c : Channel) (past : List Pair) → heard_on c (unheard_ticks past) ≡ quiet_ticks (length past) }
    ensures runs { (k : ℕ) (c : Channel) (past : List Pair) → runs k (heard_on c (unheard_ticks past)) ≡ false }
    ensures rests { (k : ℕ) (terminal : TerminalData) (loads : List TimedLoad) (memory : Memory) (past : List Pair) →
        standing k terminal loads memory (unheard_ticks past) ≡ at_rest memory }
{}

/// A station that holds control in all of some ticks, and after them, yields it in none of them. At every lag.
pub fn a_holder_keeps_control()
    ensures { (k : ℕ) (station : StationData) (starts : Bool) (loads : List TimedLoad) (outside : List OutsideTake) (past ticks : List Pair) →
        HoldsThrough k station starts loads outside past ticks → KeepsControl k station starts loads outside past ticks }
{}
