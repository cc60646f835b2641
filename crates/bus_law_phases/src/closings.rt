//! The end of a message. Laws alone, each the contract of an empty function.

ghost use Rattle.std.specs.Prelude.{◌≡◌, ℕ, false, suc, ◌+◌, List, ◌∷◌, map};
ghost use Rattle.std.specs.List.{All};
ghost use Rattle.bus_base.specs.Samples.{quiet_pair};
ghost use Rattle.bus_base.specs.declared.samples.Channel.{Channel};
ghost use Rattle.bus_base.specs.declared.samples.Part.{Part};
ghost use Rattle.bus_line.specs.Channels.{on_channel};
ghost use Rattle.bus_formats.specs.Plans.{StationData};
ghost use Rattle.bus_formats.specs.Times.{no_response, relay_wait};
ghost use Rattle.bus_model.specs.Attempts.{Begun, Ended};
ghost use Rattle.bus_model.specs.Course.{Course, close, quiet_from};
ghost use Rattle.bus_model.specs.Memory.{TimedLoad};
ghost use Rattle.bus_model.specs.Message.{Present, After, unmoved, after_command, after_answer, after_silence};
ghost use Rattle.bus_model.specs.Orders.{free};
ghost use Rattle.bus_model.specs.Standing.{is_owed};
ghost use Rattle.bus_model.specs.Strikes.{ShownBurst, burst_end};
ghost use Rattle.bus_model.specs.World.{Trace};
ghost use Rattle.bus_law_stations.specs.Silence.{NothingStarts};
ghost use Rattle.bus_law_table.specs.Stations.{IsNamedApart};
ghost use Rattle.bus_law_phases.specs.Scenarios.{Scenario, trace_at, shown_at, course_of, StaysFrom};
ghost use Rattle.bus_law_phases.specs.Passages.{Passage, nothing_happens};
ghost use Rattle.bus_law_phases.specs.Silences.{GoesOnTo};
ghost use Rattle.bus_law_phases.specs.Moments.{Underway, LastsTo};
ghost use Rattle.bus_law_phases.specs.Rests.{Rested};
ghost use Rattle.bus_law_phases.specs.Closings.{AwaitsAnswer, unanswered, StaysUnanswered, attempt_ends, HasItemsOf, IsClosed, stations_closed};

/// An answer that is awaited and doesn't come ends its message in the 25th quiet tick after the burst before it (no-response time-out, MIL-STD-1553B
/// 4.3.3.9), the first answer or a relay's second one. Nothing else comes to pass in that tick, where no answer is due in it and no promise runs
/// out. At every lag, for any loads, with any stations absent.
pub fn a_message_ends_without_response()
    ensures { (w : Scenario) (t place : ℕ) (holder : StationData) (c : Channel) (e : ℕ) (part : Part) (afters : List After) (begun : Begun) →
        Underway w (trace_at w t) place holder c e part afters → (awaits : AwaitsAnswer w (shown_at w t) holder begun e) → t ≡ e + no_response →
        All (LastsTo (suc t) e) afters → StaysFrom w t →
        let ended = unanswered w.lag begun (on_channel begun.state.channel (shown_at w t)) e awaits.waits in
        (shown_at w (suc t) ≡ quiet_pair ∷ shown_at w t) × Underway w (trace_at w (suc t)) place holder c e part afters
        × (course_of w holder (shown_at w (suc t)) ≡ close (course_of w holder (shown_at w t)) begun ended t)
        × (quiet_from (shown_at w (suc t)) ≡ quiet_from (shown_at w t)) × Passage w t (suc t) (attempt_ends holder begun ended t) }
{}

/// So a message whose awaited answer nobody owes is over with the 31st quiet tick after the burst before it, in which promises run out: then the moment lies
/// between two messages, and nothing came to pass but that its attempt ended. At every lag, for any loads, with any stations absent.
pub fn a_message_without_response_is_over()
    ensures over { (w : Scenario) (t place : ℕ) (holder : StationData) (part : Part) (burst : ShownBurst) (afters : List After) (begun : Begun) →
        IsNamedApart w.plan place holder → StaysFrom w t → (so : StaysUnanswered w t place holder part burst afters begun) →
        let ended = unanswered w.lag begun (on_channel begun.state.channel (shown_at w t)) (burst_end burst) so.awaits.waits in
        let over = suc (burst_end burst + relay_wait) in
        Rested w (trace_at w over) place holder (stations_closed holder begun ended (map (after_silence w.lag w.loads burst) afters))
        × (course_of w holder (shown_at w over) ≡ close (course_of w holder (shown_at w t)) begun ended (burst_end burst + no_response))
        × (quiet_from (shown_at w over) ≡ burst_end burst) × Passage w t over (attempt_ends holder begun ended (burst_end burst + no_response)) }
    ensures unpromised { (k : ℕ) (loads : List TimedLoad) (burst : ShownBurst) (afters : List After) → All (λ after. after.duty ≡ free) afters →
        map (λ after. after.station) (map (after_silence k loads burst) afters) ≡ map (λ after. after.station) afters }
{}

/// A promise to take the next burst runs out in the 31st quiet tick after the burst in which it was made (the 31 ticks are the project's own): where
/// no terminal owes an answer, and the station in control starts and ends nothing, every terminal that promised sets message error in that tick
/// (MIL-STD-1553B 4.4.3.5), all are free, and nothing comes to pass. At every lag, for any loads, with any stations absent.
pub fn promises_run_out()
    ensures { (w : Scenario) (t place : ℕ) (holder : StationData) (burst : ShownBurst) (e : ℕ) (part : Part) (afters : List After) →
        Underway w (trace_at w t) place holder burst.channel e part afters → t ≡ e + relay_wait →
        All (λ after. is_owed after.duty ≡ false) afters → NothingStarts w.lag (course_of w holder (shown_at w t)) (shown_at w t) 1 →
        StaysFrom w t → GoesOnTo w (shown_at w t) (suc t) →
        let settled : List After = map (after_silence w.lag w.loads burst) afters in
        (shown_at w (suc t) ≡ quiet_pair ∷ shown_at w t) × Underway w (trace_at w (suc t)) place holder burst.channel e part settled
        × All (λ after. after.duty ≡ free) settled × (course_of w holder (shown_at w (suc t)) ≡ course_of w holder (shown_at w t))
        × (quiet_from (shown_at w (suc t)) ≡ quiet_from (shown_at w t)) × Passage w t (suc t) nothing_happens }
{}

/// Where the station in control closed its message and keeps control, and no terminal owes or promises anything, the moment lies between two
/// messages, with the stations of the table after that attempt. At every lag.
pub fn a_closed_message_leaves_a_rest()
    ensures { (w : Scenario) (now : Trace) (place : ℕ) (holder : StationData) (c : Channel) (e : ℕ) (part : Part) (afters : List After)
        (before : Course) (begun : Begun) (ended : Ended) (tick : ℕ) → Underway w now place holder c e part afters →
        IsNamedApart w.plan place holder → IsClosed w now.shown holder before begun ended tick afters →
        Rested w now place holder (stations_closed holder begun ended afters) }
{}

/// A moment between two messages is one in which nobody owes or promises anything, after a burst that may have ended at any time.
pub fn a_rest_owes_nothing()
    ensures { (w : Scenario) (now : Trace) (place : ℕ) (holder : StationData) (stations : List Present) → Rested w now place holder stations →
        (c : Channel) (e : ℕ) (part : Part) → Underway w now place holder c e part (map unmoved stations) }
{}

/// In the table's entry of the station in control the items left and the live channel are those of its course between two messages, and neither a
/// command, nor an answer, nor silence changes them.
pub fn a_message_keeps_items_until_it_is_closed()
    ensures first { (w : Scenario) (now : Trace) (place : ℕ) (holder : StationData) (stations : List Present) → Rested w now place holder stations →
        All (HasItemsOf holder (course_of w holder now.shown)) (map unmoved stations) }
    ensures command { (holder : StationData) (c : Course) (k : ℕ) (loads : List TimedLoad) (burst : ShownBurst) (stations : List Present) →
        All (HasItemsOf holder c) (map unmoved stations) → All (HasItemsOf holder c) (map (after_command k loads burst) stations) }
    ensures answer { (holder : StationData) (c : Course) (k : ℕ) (loads : List TimedLoad) (burst : ShownBurst) (afters : List After) →
        All (HasItemsOf holder c) afters → All (HasItemsOf holder c) (map (after_answer k loads burst) afters) }
    ensures silence { (holder : StationData) (c : Course) (k : ℕ) (loads : List TimedLoad) (burst : ShownBurst) (afters : List After) →
        All (HasItemsOf holder c) afters → All (HasItemsOf holder c) (map (after_silence k loads burst) afters) }
{}
