//! The station in control beside an answer. Laws alone, each the contract of an empty function.

ghost use Rattle.std.specs.Prelude.{◌≡◌, ℕ, suc, ◌+◌, ◌<◌, false, List, length, Option, Some};
ghost use Rattle.bus_base.specs.declared.samples.Channel.{Channel};
ghost use Rattle.bus_base.specs.declared.samples.Pair.{Pair};
ghost use Rattle.bus_base.specs.declared.samples.Part.{Part};
ghost use Rattle.bus_base.specs.declared.samples.Part.TheVariants.{Second};
ghost use Rattle.bus_line.specs.Channels.{on_channel};
ghost use Rattle.bus_line.specs.Past.{Burst};
ghost use Rattle.bus_words.specs.declared.word.Word.{Word};
ghost use Rattle.bus_formats.specs.Plans.{StationData};
ghost use Rattle.bus_formats.specs.Readings.{read_answer};
ghost use Rattle.bus_formats.specs.Times.{settling_quiet};
ghost use Rattle.bus_formats.specs.declared.form.Outcome.{Outcome};
ghost use Rattle.bus_formats.specs.declared.form.Outcome.TheVariants.{Clear};
ghost use Rattle.bus_formats.specs.declared.form.Reading.TheVariants.{Good, Ends};
ghost use Rattle.bus_formats.specs.declared.plan.Kind.{Kind};
ghost use Rattle.bus_model.specs.Attempts.{Begun, Ended, without_words, is_offer};
ghost use Rattle.bus_model.specs.Course.{Course, gives, close, quiet_from};
ghost use Rattle.bus_model.specs.Starts.{usual, opening_after};
ghost use Rattle.bus_law_stations.specs.Silence.{AwaitsSecond};
ghost use Rattle.bus_law_phases.specs.Answers.{HoldsBeside};
ghost use Rattle.bus_law_phases.specs.Scenarios.{Scenario, course_of};
ghost use Rattle.bus_law_told.specs.Holders.{answer_read, HoldsInQuiet, IsAnsweredInTime, StartsInQuiet, closed_with};

/// Beside an answer the station in control sends nothing, and keeps control. Where its message waits for a relay's second answer it is read with its end,
/// as the end of the message. Where no message of it runs nothing changes, if the next one needs more quiet ticks than the lag has. At every lag below the
/// wait for an answer.
pub fn a_station_in_control_holds_beside_an_answer()
    ensures second { (w : Scenario) (past : List Pair) (holder : StationData) (c : Channel) (begun : Begun) (e : ℕ) (burst : Burst) (outcome : Outcome)
        (second : Option ℕ) → IsAnsweredInTime w past holder c begun e → (waits : AwaitsSecond w.lag begun (on_channel c past) e) →
        answer_read begun Second burst ≡ Ends outcome second →
        HoldsBeside w past holder c burst (closed_with w past holder c begun burst (without_words outcome (Some waits.status) second)) }
    ensures second_clear { (w : Scenario) (past : List Pair) (holder : StationData) (c : Channel) (begun : Begun) (e : ℕ) (burst : Burst)
        (second : ℕ) → IsAnsweredInTime w past holder c begun e → (waits : AwaitsSecond w.lag begun (on_channel c past) e) →
        answer_read begun Second burst ≡ Good second →
        HoldsBeside w past holder c burst (closed_with w past holder c begun burst (without_words Clear (Some waits.status) (Some second))) }
    ensures closed { (w : Scenario) (past : List Pair) (holder : StationData) (c : Channel) (burst : Burst) (need tick : ℕ) →
        StartsInQuiet w past holder c need tick → HoldsBeside w past holder c burst (course_of w holder past) }
{}

/// No answer to a message that doesn't offer control is read so that control is given away (dynamic bus control, MIL-STD-1553B 4.3.3.5.1.7.1), nor
/// is a second answer.
pub fn an_answer_without_an_offer_gives_no_control()
    ensures plain { (kind : Kind) (part : Part) (slots : List (Option Word)) (rest : ℕ) (outcome : Outcome) (status : Option ℕ) →
        is_offer kind ≡ false → read_answer kind part slots rest ≡ Ends outcome status → gives outcome ≡ false }
    ensures second { (kind : Kind) (slots : List (Option Word)) (rest : ℕ) (outcome : Outcome) (status : Option ℕ) →
        read_answer kind Second slots rest ≡ Ends outcome status → gives outcome ≡ false }
{}

/// After a message of which the next one waits until nobody can still answer (the 40 quiet ticks are the project's own), none starts before these
/// are over.
pub fn a_message_that_went_badly_leaves_quiet()
    ensures { (w : Scenario) (past : List Pair) (holder : StationData) (c : Channel) (before : Course) (begun : Begun) (ended : Ended) (tick e : ℕ) →
        w.lag < settling_quiet → HoldsInQuiet w past holder c → course_of w holder past ≡ close before begun ended tick →
        opening_after ended.outcome begun.state.channel tick ≡ usual settling_quiet (suc tick) → quiet_from past ≡ e →
        length past < e + settling_quiet → StartsInQuiet w past holder c settling_quiet (suc tick) }
{}
