//! From one message to the next. Laws alone, each the contract of an empty function.

ghost use Rattle.std.specs.Prelude.{◌≢◌, ℕ, suc, ◌+◌, ◌≤◌, max, List, length};
ghost use Rattle.bus_base.specs.declared.samples.Pair.{Pair};
ghost use Rattle.bus_formats.specs.declared.form.Outcome.TheVariants.{Abandoned};
ghost use Rattle.bus_model.specs.Attempts.{Begun, Ended};
ghost use Rattle.bus_model.specs.Course.{Course, quiet_from, close};
ghost use Rattle.bus_model.specs.Starts.{needed_quiet};
ghost use Rattle.bus_law_messages.specs.Settled.{NoneStarts};

/// After an attempt that wasn't abandoned the next message doesn't start before the tick after its end, nor before both channels were quiet for as
/// long as its outcome asks for.
pub fn the_next_message_waits()
    ensures { (c : Course) (past : List Pair) (begun : Begun) (e : Ended) (tick : ℕ) → e.outcome ≢ Abandoned →
        length past ≤ max (suc tick) (quiet_from past + needed_quiet e.outcome) → NoneStarts (close c begun e tick) past 0 }
{}
