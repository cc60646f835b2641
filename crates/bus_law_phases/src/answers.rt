//! One answer of a message. Laws alone, each the contract of an empty function.

ghost use Rattle.std.specs.Prelude.{◌≡◌, ℕ, suc, ◌+◌, ◌<◌, ◌≤◌, false, List, [], ◌∷◌, ◌++◌, length, Some, None};
ghost use Rattle.bus_base.specs.declared.samples.Channel.{Channel};
ghost use Rattle.bus_base.specs.declared.samples.Pair.{Pair};
ghost use Rattle.bus_base.specs.declared.samples.Part.TheVariants.{First, Second};
ghost use Rattle.bus_base.specs.declared.samples.Sample.{Sample};
ghost use Rattle.bus_base.specs.declared.samples.Part.{Part};
ghost use Rattle.bus_formats.specs.Accepted.{IsAccepted};
ghost use Rattle.bus_formats.specs.Plans.{StationData};
ghost use Rattle.bus_line.specs.Past.{Burst, end_of, rest_of};
ghost use Rattle.bus_line.specs.Channels.{on_channel};
ghost use Rattle.bus_formats.specs.Forms.{answers_of};
ghost use Rattle.bus_formats.specs.Readings.{read_answer};
ghost use Rattle.bus_formats.specs.declared.form.Reading.TheVariants.{Good};
ghost use Rattle.bus_formats.specs.declared.form.Shape.{Shape};
ghost use Rattle.bus_model.specs.Attempts.{Begun, Ended};
ghost use Rattle.bus_model.specs.Controller.{first_read, second_read};
ghost use Rattle.bus_model.specs.Course.{Course, gives, close};
ghost use Rattle.bus_model.specs.Endings.{abandoned_at};
ghost use Rattle.bus_model.specs.Message.{After};
ghost use Rattle.bus_model.specs.Strikes.{ShownBurst, burst_end, ShownAnswer};
ghost use Rattle.bus_law_stations.specs.Silence.{AwaitsFirst, AwaitsSecond};
ghost use Rattle.bus_law_phases.specs.Scenarios.{Scenario, shown_at, course_of, StaysFrom};
ghost use Rattle.bus_law_phases.specs.Answers.{AnswerBegins, burst_read, ShowsWhole, HoldsBeside, WaitsToRead, RestsBeside, attempts_ended, AnswerOver, HoldsBesideShown, BeginsAt, MayAbandon};
ghost use Rattle.bus_law_phases.specs.Commands.{attempt_recorded};

/// From the tick in which the answer to a burst begins, of which something is shown, to that in which its end is known: every station is what the
/// message table says, and what came to pass is what it says, whatever strikes the answer. The station in control only waits for it, or rests.
/// At lag 3, for any loads, with any stations absent.
pub fn an_answer_is_sent()
    ensures { (w : Scenario) (t place : ℕ) (holder : StationData) (part : Part) (burst : ShownBurst) (afters : List After) (answer : ShownAnswer)
        (later : Course) → w.lag ≡ 3 → IsAccepted w.plan → StaysFrom w t → AnswerBegins w t place holder part burst afters answer →
        HoldsBeside w (shown_at w t) holder burst.channel (burst_read answer.burst) later →
        AnswerOver w t (burst_end answer.burst + suc w.lag) place holder burst afters answer.burst later }
{}

/// A station in control that waits for an answer is silent beside it, and nothing changes of its controller until the end of the answer is known;
/// then the message ends as the answer is read, or a relay waits for its second answer. It is of a message that isn't abandoned, and gives no control
/// away. At every lag below the wait for an answer.
pub fn a_station_that_waits_reads_the_answer()
    ensures first { (w : Scenario) (past : List Pair) (holder : StationData) (begun : Begun) (e : ℕ) (burst : Burst) (ending : Ended) →
        WaitsToRead w past holder begun e → AwaitsFirst w.lag begun (on_channel begun.state.channel past) e →
        ((shown : List Pair) (heard : List Sample) →
        first_read w.lag begun.entry.item shown heard burst (read_answer begun.entry.item.kind First burst.slots (rest_of burst)) ≡ Some ending) →
        gives ending.outcome ≡ false →
        HoldsBeside w past holder begun.state.channel burst (close (course_of w holder past) begun ending (end_of burst + w.lag)) }
    ensures relayed { (w : Scenario) (past : List Pair) (holder : StationData) (begun : Begun) (e : ℕ) (burst : Burst) (shape : Shape) (status : ℕ) →
        WaitsToRead w past holder begun e → w.lag < 24 → AwaitsFirst w.lag begun (on_channel begun.state.channel past) e →
        read_answer begun.entry.item.kind First burst.slots (rest_of burst) ≡ Good status → (answers_of begun.entry.item.kind).second ≡ Some shape →
        HoldsBeside w past holder begun.state.channel burst (course_of w holder past)
        × ((x : Pair) (ticks : List Pair) → ShowsWhole w.lag begun.state.channel burst past x ticks →
        (v : AwaitsSecond w.lag begun (on_channel begun.state.channel (x ∷ (ticks ++ past))) (end_of burst)) × (v.status ≡ status)) }
    ensures second { (w : Scenario) (past : List Pair) (holder : StationData) (begun : Begun) (e : ℕ) (burst : Burst) (ending : Ended) →
        WaitsToRead w past holder begun e → (waits : AwaitsSecond w.lag begun (on_channel begun.state.channel past) e) →
        ((shown : List Pair) (heard : List Sample) →
        second_read w.lag begun.entry.item shown heard waits.status (read_answer begun.entry.item.kind Second burst.slots (rest_of burst)) ≡ Some ending) →
        gives ending.outcome ≡ false →
        HoldsBeside w past holder begun.state.channel burst (close (course_of w holder past) begun ending (end_of burst + w.lag)) }
{}

/// A station in control that has closed its message starts nothing beside an answer, and nothing changes of its controller: it needs more quiet
/// ticks than a burst may have in a row. At every lag.
pub fn a_station_that_rests_starts_nothing_beside_an_answer()
    ensures { (w : Scenario) (past : List Pair) (holder : StationData) (need : ℕ) (c : Channel) (burst : Burst) → RestsBeside w past holder need →
        HoldsBeside w past holder c burst (course_of w holder past) }
{}

/// The attempt that ended with an answer, as it is recorded: that of the message that was closed in this tick, or none.
pub fn an_attempt_ends_with_its_answer()
    ensures closed { (w : Scenario) (holder : StationData) (c : Course) (begun : Begun) (ending : Ended) (tick : ℕ) →
        attempts_ended w holder tick (close c begun ending tick) ≡ attempt_recorded holder.terminal.address begun ending tick ∷ [] }
    ensures none { (w : Scenario) (holder : StationData) (past : List Pair) (tick : ℕ) → length past ≤ tick →
        attempts_ended w holder tick (course_of w holder past) ≡ [] }
{}

/// So it is where the station in control might abandon the answer: what it does may depend on which samples of it were shown so far.
pub fn an_answer_is_sent_to_a_station_that_might_abandon_it()
    ensures sent { (w : Scenario) (t place : ℕ) (holder : StationData) (part : Part) (burst : ShownBurst) (afters : List After) (answer : ShownAnswer)
        (later : Course) → w.lag ≡ 3 → IsAccepted w.plan → StaysFrom w t → AnswerBegins w t place holder part burst afters answer →
        HoldsBesideShown w (shown_at w t) holder burst.channel answer.hits answer.sent.words (burst_read answer.burst) later →
        AnswerOver w t (burst_end answer.burst + suc w.lag) place holder burst afters answer.burst later }
    ensures begins { (w : Scenario) (t place : ℕ) (holder : StationData) (part : Part) (burst : ShownBurst) (afters : List After) (answer : ShownAnswer) →
        IsAccepted w.plan → AnswerBegins w t place holder part burst afters answer → BeginsAt t part answer }
{}

/// A station in control that might abandon an answer reads it like any other where it isn't abandoned: it is over, or its sample faded, in the tick
/// in which it would be. At every lag below the wait for an answer.
pub fn an_answer_that_might_be_abandoned_is_read()
    ensures first { (w : Scenario) (past : List Pair) (holder : StationData) (begun : Begun) (e : ℕ) (part : Part) (answer : ShownAnswer) (ending : Ended) →
        MayAbandon w past holder begun e → BeginsAt (length past) part answer →
        abandoned_at w.lag begun.entry.item.kind begun.entry.item.abandon e answer ≡ None →
        AwaitsFirst w.lag begun (on_channel begun.state.channel past) e →
        ((shown : List Pair) (heard : List Sample) → first_read w.lag begun.entry.item shown heard (burst_read answer.burst)
        (read_answer begun.entry.item.kind First answer.burst.slots (rest_of (burst_read answer.burst))) ≡ Some ending) →
        gives ending.outcome ≡ false →
        HoldsBesideShown w past holder begun.state.channel answer.hits answer.sent.words (burst_read answer.burst)
        (close (course_of w holder past) begun ending (burst_end answer.burst + w.lag)) }
    ensures relayed { (w : Scenario) (past : List Pair) (holder : StationData) (begun : Begun) (e : ℕ) (part : Part) (answer : ShownAnswer) (shape : Shape)
        (status : ℕ) → MayAbandon w past holder begun e → BeginsAt (length past) part answer →
        abandoned_at w.lag begun.entry.item.kind begun.entry.item.abandon e answer ≡ None →
        AwaitsFirst w.lag begun (on_channel begun.state.channel past) e → w.lag < 24 →
        read_answer begun.entry.item.kind First answer.burst.slots (rest_of (burst_read answer.burst)) ≡ Good status →
        (answers_of begun.entry.item.kind).second ≡ Some shape →
        HoldsBesideShown w past holder begun.state.channel answer.hits answer.sent.words (burst_read answer.burst) (course_of w holder past)
        × ((x : Pair) (ticks : List Pair) → ShowsWhole w.lag begun.state.channel (burst_read answer.burst) past x ticks →
        (v : AwaitsSecond w.lag begun (on_channel begun.state.channel (x ∷ (ticks ++ past))) (burst_end answer.burst)) × (v.status ≡ status)) }
{}
