//! Moments in the midst of a message. Laws alone, each the contract of an empty function.

ghost use Rattle.std.specs.Prelude.{◌≡◌, ℕ, ◌+◌, List, ◌++◌};
ghost use Rattle.std.specs.List.{All};
ghost use Rattle.bus_base.specs.Samples.{quiet_pairs};
ghost use Rattle.bus_base.specs.declared.samples.Channel.{Channel};
ghost use Rattle.bus_base.specs.declared.samples.Part.{Part};
ghost use Rattle.bus_formats.specs.Plans.{StationData};
ghost use Rattle.bus_model.specs.Message.{After};
ghost use Rattle.bus_law_stations.specs.Silence.{NothingStarts};
ghost use Rattle.bus_law_phases.specs.Scenarios.{Scenario, trace_at, shown_at, course_of, StaysFrom};
ghost use Rattle.bus_law_phases.specs.Passages.{Passage, nothing_happens};
ghost use Rattle.bus_law_phases.specs.Silences.{GoesOnTo};
ghost use Rattle.bus_law_phases.specs.Moments.{Underway, LastsTo};

/// A moment in the midst of a message lasts in silence: while no answer is due, no promise runs out, and the station in control starts and ends
/// nothing, both channels are quiet, every station owes and promises what it did, and nothing comes to pass. At every lag, for any loads, with any
/// stations absent.
pub fn a_moment_lasts_in_silence()
    ensures { (w : Scenario) (t n place : ℕ) (holder : StationData) (c : Channel) (e : ℕ) (part : Part) (afters : List After) →
        Underway w (trace_at w t) place holder c e part afters →
        NothingStarts w.lag (course_of w holder (shown_at w t)) (shown_at w t) n → All (LastsTo (t + n) e) afters → StaysFrom w t →
        GoesOnTo w (shown_at w t) (t + n) →
        (shown_at w (t + n) ≡ quiet_pairs n ++ shown_at w t) × Underway w (trace_at w (t + n)) place holder c e part afters
        × (course_of w holder (shown_at w (t + n)) ≡ course_of w holder (shown_at w t)) × Passage w t (t + n) nothing_happens }
{}
