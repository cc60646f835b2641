//! How control passes by an offer: laws of the station that offers it (dynamic bus control, MIL-STD-1553B 4.3.3.5.1.7.1; the doubt is the project's
//! own). Laws alone, each the contract of an empty function.

ghost use Rattle.std.specs.Prelude.{◌≡◌, ℕ, suc, ◌+◌, ◌<◌, ◌≤◌, Bool, true, false, List, [], ◌∷◌, ◌++◌, length, Option, Some, None};
ghost use Rattle.bus_base.specs.Samples.{quiet_pairs};
ghost use Rattle.bus_base.specs.declared.samples.Drive.TheVariants.{Silent};
ghost use Rattle.bus_base.specs.declared.samples.Pair.{Pair};
ghost use Rattle.bus_base.specs.declared.samples.Part.{Part};
ghost use Rattle.bus_base.specs.declared.samples.Part.TheVariants.{First};
ghost use Rattle.bus_line.specs.Channels.{on_channel, both_quiet, quiet_both};
ghost use Rattle.bus_line.specs.Past.{Burst, ended_now, end_of, rest_of};
ghost use Rattle.bus_formats.specs.Plans.{StationData};
ghost use Rattle.bus_formats.specs.Readings.{read_answer};
ghost use Rattle.bus_formats.specs.Times.{doubting};
ghost use Rattle.bus_formats.specs.declared.form.Outcome.TheVariants.{BadReply, Passed, Yielded};
ghost use Rattle.bus_formats.specs.declared.form.Reading.TheVariants.{Ends};
ghost use Rattle.bus_model.specs.Memory.{TimedLoad};
ghost use Rattle.bus_model.specs.Attempts.{Begun, Ended, without_words, is_offer};
ghost use Rattle.bus_model.specs.Course.{Take, Course, course, close, drive_course};
ghost use Rattle.bus_model.specs.Control.{OutsideTake, unheard, moment_of, so_far, course_after, doubts};
ghost use Rattle.bus_law_stations.specs.Silence.{AreTaken, AwaitsFirst};
ghost use Rattle.bus_law_stations.specs.Messages.{ShowsBurst};
ghost use Rattle.bus_law_stations.specs.Turns.{moments_of, with_moments, TakesNothing, Serves};
ghost use Rattle.bus_law_control.specs.Abandoning.{IsAnsweredSoon, AreKept};
ghost use Rattle.bus_law_control.specs.Offers.{IsDoubting};

/// A station whose message ends with its offer accepted serves from the next tick on, and its terminal has heard nothing of this one. At every lag.
pub fn a_passed_offer_gives_control()
    ensures { (k : ℕ) (station : StationData) (starts : Bool) (loads : List TimedLoad) (outside : List OutsideTake) (x : Pair) (past : List Pair)
        (begun : Begun) (e : Ended) → let before = so_far k station starts loads outside past in let c = course_after k station starts loads outside past in
        c.holds ≡ true → course k station starts before.takes (x ∷ past) ≡ close c begun e (length past) → e.outcome ≡ Passed →
        (so_far k station starts loads outside (x ∷ past) ≡ with_moments before (unheard ∷ []))
        × (course_after k station starts loads outside (x ∷ past) ≡ close c begun e (length past))
        × Serves (course_after k station starts loads outside (x ∷ past)) }
{}

/// A station that yields serves from the next tick on, and this tick is the first that its terminal hears: it hears the burst that begins in it
/// from its first tick on. At every lag.
pub fn a_yielding_station_hears_the_tick()
    ensures hears { (k : ℕ) (station : StationData) (starts : Bool) (loads : List TimedLoad) (outside : List OutsideTake) (x : Pair) (past : List Pair)
        (begun : Begun) (e : Ended) → let before = so_far k station starts loads outside past in let c = course_after k station starts loads outside past in
        c.holds ≡ true → course k station starts before.takes (x ∷ past) ≡ close c begun e (length past) → e.outcome ≡ Yielded →
        (so_far k station starts loads outside (x ∷ past) ≡ with_moments before (moment_of x (close c begun e (length past)) ∷ []))
        × (course_after k station starts loads outside (x ∷ past) ≡ close c begun e (length past))
        × Serves (course_after k station starts loads outside (x ∷ past)) }
    ensures goes_on { (k : ℕ) (station : StationData) (starts : Bool) (loads : List TimedLoad) (outside : List OutsideTake) (x : Pair)
        (past ticks : List Pair) (c : Course) → let before = so_far k station starts loads outside past in
        course_after k station starts loads outside (x ∷ past) ≡ c → Serves c →
        so_far k station starts loads outside (x ∷ past) ≡ with_moments before (moment_of x c ∷ []) →
        TakesNothing k station starts loads outside (x ∷ past) ticks →
        so_far k station starts loads outside (ticks ++ (x ∷ past)) ≡ with_moments before (moments_of c (ticks ++ x ∷ [])) }
{}

/// An offerer whose offer is answered badly doubts: its message runs on where both channels were quiet since the end of that answer. At every lag
/// with fewer than the eighty ticks for which it doubts.
pub fn an_offerer_doubts()
    ensures begins { (k : ℕ) (station : StationData) (starts : Bool) (takes : List Take) (past ticks : List Pair) (now : Pair) (begun : Begun) (e : ℕ)
        (burst : Burst) (part : Part) (status : Option ℕ) → let c : Course = course k station starts takes past in
        let shown : List Pair = now ∷ (ticks ++ past) in suc k < doubting → AreTaken (length past) takes → IsAnsweredSoon begun c past e →
        AwaitsFirst k begun (on_channel begun.state.channel past) e → ShowsBurst k begun.state.channel past ticks → AreKept begun e past ticks →
        ended_now k (on_channel begun.state.channel shown) ≡ Some burst → is_offer begun.entry.item.kind ≡ true →
        read_answer begun.entry.item.kind First burst.slots (rest_of burst) ≡ Ends (BadReply part) status →
        length shown ≤ end_of burst + quiet_both shown →
        (course k station starts takes shown ≡ c) × IsDoubting k begun (on_channel begun.state.channel shown) (end_of burst) }
    ensures stays { (k : ℕ) (begun : Begun) (past ticks : List Pair) (x : ℕ) → IsDoubting k begun (on_channel begun.state.channel past) x →
        IsDoubting k begun (on_channel begun.state.channel (ticks ++ past)) x }
    ensures seen { (k : ℕ) (station : StationData) (starts : Bool) (loads : List TimedLoad) (outside : List OutsideTake) (past : List Pair) (begun : Begun)
        (x : ℕ) → (course_after k station starts loads outside past).runs ≡ Some begun → IsDoubting k begun (on_channel begun.state.channel past) x →
        doubts k station starts loads outside past ≡ true }
{}

/// While both channels stay quiet a doubting offerer keeps control and sends nothing; with the eightieth tick its message ends with a bad reply,
/// and it keeps control. At every lag.
pub fn a_doubting_offerer_keeps_control_after_eighty_quiet_ticks()
    ensures waits { (k : ℕ) (station : StationData) (starts : Bool) (takes : List Take) (past : List Pair) (begun : Begun) (x n : ℕ) →
        let c : Course = course k station starts takes past in AreTaken (length past) takes → c.runs ≡ Some begun →
        IsDoubting k begun (on_channel begun.state.channel past) x → length past ≤ x + quiet_both past → length past + n < x + doubting →
        (course k station starts takes (quiet_pairs n ++ past) ≡ c)
        × (drive_course k (quiet_pairs n ++ past) (course k station starts takes (quiet_pairs n ++ past)) ≡ Silent) }
    ensures ends { (k : ℕ) (station : StationData) (starts : Bool) (takes : List Take) (past : List Pair) (begun : Begun) (x n : ℕ) →
        let c : Course = course k station starts takes past in AreTaken (length past) takes → c.runs ≡ Some begun →
        IsDoubting k begun (on_channel begun.state.channel past) x → length past ≤ x + quiet_both past → suc (length past + n) ≡ x + doubting →
        course k station starts takes (quiet_pairs (suc n) ++ past) ≡ close c begun (without_words (BadReply First) None None) (length past + n) }
{}

/// A doubting offerer yields to the first sample on either channel. At every lag.
pub fn a_doubting_offerer_yields_to_the_first_sample()
    ensures { (k : ℕ) (station : StationData) (starts : Bool) (takes : List Take) (past : List Pair) (now : Pair) (begun : Begun) (x : ℕ) →
        let c : Course = course k station starts takes past in AreTaken (length past) takes → c.runs ≡ Some begun →
        IsDoubting k begun (on_channel begun.state.channel past) x → x ≤ length past → both_quiet now ≡ false →
        course k station starts takes (now ∷ past) ≡ close c begun (without_words Yielded None None) (length past) }
{}
