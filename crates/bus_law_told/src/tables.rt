//! A message of the table by what is shown of its answers. Laws alone, each the contract of an empty function.

ghost use Rattle.std.specs.Prelude.{◌≡◌, ◌⊎◌, ℕ, ◌≤◌, Bool, false, List, [], ◌∷◌, ◌++◌, map, Option, Some, None, All};
ghost use Rattle.std.specs.List.{AllByRecursion as Each};
ghost use Rattle.bus_base.specs.declared.samples.Channel.{Channel};
ghost use Rattle.bus_base.specs.declared.samples.Pair.{Pair};
ghost use Rattle.bus_formats.specs.Accepted.{HasKindRanges, IsAccepted};
ghost use Rattle.bus_formats.specs.Plans.{ItemData, PlanData};
ghost use Rattle.bus_formats.specs.declared.fault.Fault.{Fault};
ghost use Rattle.bus_formats.specs.declared.fault.Hit.{Hit};
ghost use Rattle.bus_model.specs.Attempts.{is_offer};
ghost use Rattle.bus_model.specs.Control.{OutsideTake};
ghost use Rattle.bus_model.specs.Memory.{TimedLoad};
ghost use Rattle.bus_model.specs.Message.{Present, After, command_burst, after_command, after_answer, after_silence, answer_to, blocks_taken};
ghost use Rattle.bus_model.specs.Run.{quiet_after};
ghost use Rattle.bus_model.specs.Standing.{is_owed, is_promise};
ghost use Rattle.bus_model.specs.Strikes.{ShownBurst, burst_end, Answer, ShownAnswer, shown_answer};
ghost use Rattle.bus_law_duties.specs.Duties.{AreFree};
ghost use Rattle.bus_law_duties.specs.Ranges.{HasTimedLoadRanges};
ghost use Rattle.bus_law_plans.specs.Memories.{AreBlocks, HasWordRanges};
ghost use Rattle.bus_law_table.specs.Stations.{ArePresent};
ghost use Rattle.bus_law_moments.specs.Begun.{IsRanged};
ghost use Rattle.bus_law_told.specs.Tables.{IsToldByAnswers, IsAnswerTo, IsShownTo, HasNoWordLeft, command_shown, first_shown, second_shown};

/// A message that isn't abandoned and gives no control away, and beside which no answer runs on, is what its answers make of it: how it ends and when, and
/// which stations, blocks and bursts it leaves.
pub fn a_message_is_told_by_its_answers()
    ensures { (k : ℕ) (loads : List TimedLoad) (faults : List Fault) (attempt : ℕ) (item : ItemData) (channel : Channel) (start : ℕ)
        (stations : List Present) → HasKindRanges item.kind →
        IsToldByAnswers k loads faults attempt item channel start stations }
{}

/// Silence changes no station that promised nothing. After an answer whoever owes nothing is free; and a second answer changes no station, none takes a
/// block of it, and all are free after it.
pub fn stations_settle_once()
    ensures silence { (k : ℕ) (loads : List TimedLoad) (burst : ShownBurst) (afters : List After) → All (λ a. is_promise a.duty ≡ false) afters →
        map (λ a. a.station) (map (after_silence k loads burst) afters) ≡ map (λ a. a.station) afters }
    ensures settled { (k : ℕ) (loads : List TimedLoad) (answer : ShownBurst) (afters : List After) →
        All (λ a. is_owed a.duty ≡ false) (map (after_answer k loads answer) afters) → AreFree (map (after_answer k loads answer) afters) }
    ensures stations { (k : ℕ) (loads : List TimedLoad) (first second : ShownBurst) (afters : List After) →
        map (λ a. a.station) (map (after_answer k loads second) (map (after_answer k loads first) afters))
        ≡ map (λ a. a.station) (map (after_answer k loads first) afters) }
    ensures blocks { (k : ℕ) (loads : List TimedLoad) (first second : ShownBurst) (afters : List After) →
        blocks_taken k loads second (map (after_answer k loads second) (map (after_answer k loads first) afters)) ≡ [] }
    ensures duties { (k : ℕ) (loads : List TimedLoad) (first second : ShownBurst) (afters : List After) →
        AreFree (map (after_answer k loads second) (map (after_answer k loads first) afters)) }
{}

/// Bursts that follow one another leave both channels quiet from the end of the last one on.
pub fn bursts_end_with_the_last_one()
    ensures one { (command : ShownBurst) → quiet_after (command ∷ []) ≡ burst_end command }
    ensures more { (found : List ShownBurst) (e : ℕ) (later : ShownBurst) → quiet_after found ≡ e → e ≤ later.start →
        quiet_after (found ++ later ∷ []) ≡ burst_end later }
    ensures both { (found : List ShownBurst) (e : ℕ) (first second : ShownBurst) → quiet_after found ≡ e → e ≤ first.start →
        burst_end first ≤ second.start → quiet_after (found ++ first ∷ second ∷ []) ≡ burst_end second }
{}

/// The answer to the command of a message, and the answer to that answer, whatever faults strike both bursts: each is a status with data words, which
/// accepts no control where none is offered, and begins on the channel of the message, at least 4 and at most 20 dead ticks after the burst before it.
/// For a station of a plan whose ranges are kept. What is shown of one is shown as it was sent.
pub fn what_an_answer_of_the_table_is()
    ensures first { (k : ℕ) (loads : List TimedLoad) (channel : Channel) (start : ℕ) (hits : List Hit) (item : ItemData) (stations : List Present)
        (answer : Answer) → HasKindRanges item.kind → All HasTimedLoadRanges loads → Each IsRanged stations →
        let command = command_burst channel start hits item in
        answer_to command (map (after_command k loads command) stations) ≡ Some answer →
        IsAnswerTo command (is_offer item.kind) answer }
    ensures second { (k : ℕ) (loads : List TimedLoad) (channel : Channel) (start : ℕ) (hits : List Hit) (item : ItemData) (stations : List Present)
        (burst : ShownBurst) (answer : Answer) → HasKindRanges item.kind → Each IsRanged stations →
        let command = command_burst channel start hits item in
        answer_to burst (map (after_answer k loads burst) (map (after_command k loads command) stations)) ≡ Some answer →
        IsAnswerTo burst false answer }
    ensures shown { (burst : ShownBurst) (offers : Bool) (hits : List Hit) (answer : Option Answer) (shown : ShownAnswer) →
        shown_answer hits answer ≡ Some shown → ((a : Answer) → answer ≡ Some a → IsAnswerTo burst offers a) → IsShownTo burst offers shown }
    ensures loads { (loads : List TimedLoad) → AreBlocks loads → All HasTimedLoadRanges loads }
{}

/// Of an accepted plan: the stations of the table keep the ranges of the plan where they keep those of words, and each answer of a message that is shown
/// is one of the table, in its time. Where nothing is shown of one, nobody owes it, or no word of it is left.
pub fn the_answers_of_a_message_are_those_of_the_table()
    ensures ranged { (k : ℕ) (plan : PlanData) (loads : List TimedLoad) (outside : List OutsideTake) (absent : List ℕ) (past : List Pair)
        (stations : List Present) → IsAccepted plan → ArePresent k plan loads outside absent past stations → Each HasWordRanges stations →
        Each IsRanged stations }
    ensures first { (k : ℕ) (loads : List TimedLoad) (faults : List Fault) (attempt : ℕ) (item : ItemData) (channel : Channel) (start : ℕ)
        (stations : List Present) → HasKindRanges item.kind → Each IsRanged stations → All HasTimedLoadRanges loads →
        (first : ShownAnswer) → first_shown k loads faults attempt item channel start stations ≡ Some first →
        IsShownTo (command_shown k loads faults attempt item channel start stations) (is_offer item.kind) first }
    ensures second { (k : ℕ) (loads : List TimedLoad) (faults : List Fault) (attempt : ℕ) (item : ItemData) (channel : Channel) (start : ℕ)
        (stations : List Present) → HasKindRanges item.kind → Each IsRanged stations → (first second : ShownAnswer) →
        second_shown k loads faults attempt item channel start stations first ≡ Some second → IsShownTo first.burst false second }
    ensures silent { (hits : List Hit) (answer : Option Answer) → shown_answer hits answer ≡ None → (answer ≡ None) ⊎ HasNoWordLeft hits answer }
{}
