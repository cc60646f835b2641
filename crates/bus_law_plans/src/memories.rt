//! What terminals keep in each run of an accepted plan. Laws alone, each the contract of an empty function.

ghost use Rattle.std.specs.Prelude.{◌≡◌, ℕ, List, map, Some};
ghost use Rattle.bus_formats.specs.Accepted.{IsAccepted};
ghost use Rattle.bus_formats.specs.Plans.{StationData, PlanData};
ghost use Rattle.bus_model.specs.Memory.{TimedLoad};
ghost use Rattle.bus_model.specs.Run.{Run, Next, next_item, first_run, attempt, attempts_after};
ghost use Rattle.bus_model.specs.Message.{answer_to, after_command, after_answer};
ghost use Rattle.bus_model.specs.Strikes.{ShownBurst, Answer, ShownAnswer};
ghost use Rattle.bus_law_plans.specs.Entries.{IsRunOf, IsRunAmong};
ghost use Rattle.bus_law_plans.specs.Sent.{begun_of, command_of, first_of};
ghost use Rattle.bus_law_plans.specs.Memories.{AreBlocks, KeepsWordRanges, HasAnswerRanges};

/// In the run of an accepted plan what terminals keep is within the ranges of words: every block has at most 32 words, each below 65536, and
/// so are the last command, the synchronize word, the vector word and the BIT word. So it is at the beginning, and an attempt keeps it so,
/// where the blocks that are put up for sending meanwhile have such words too.
pub fn memories_keep_word_ranges()
    ensures first { (plan : PlanData) → IsAccepted plan → KeepsWordRanges (first_run plan) }
    ensures next { (k : ℕ) (plan : PlanData) (loads : List TimedLoad) (own : List StationData) (run : Run) → AreBlocks loads → IsRunAmong plan own run →
        KeepsWordRanges run → KeepsWordRanges (attempt k loads plan.faults run) }
    ensures each { (k : ℕ) (plan : PlanData) (loads : List TimedLoad) (n : ℕ) → IsAccepted plan → AreBlocks loads →
        KeepsWordRanges (attempts_after k loads plan.faults n (first_run plan)) }
{}

/// So the answers to the next message spell their words: each is a status word and at most 32 others, all of sixteen bits.
pub fn answers_keep_word_ranges()
    ensures first { (k : ℕ) (plan : PlanData) (loads : List TimedLoad) (run : Run) (next : Next) (answer : Answer) → AreBlocks loads → IsRunOf plan run →
        KeepsWordRanges run → next_item run ≡ Some next → let command : ShownBurst = command_of k loads plan.faults run (begun_of run next) in
        answer_to command (map (after_command k loads command) run.stations) ≡ Some answer → HasAnswerRanges answer.words }
    ensures second { (k : ℕ) (plan : PlanData) (loads : List TimedLoad) (run : Run) (next : Next) (first : ShownAnswer) (answer : Answer) →
        AreBlocks loads → IsRunOf plan run → KeepsWordRanges run → next_item run ≡ Some next →
        first_of k loads plan.faults run (begun_of run next) ≡ Some first → let command : ShownBurst = command_of k loads plan.faults run (begun_of run next) in
        answer_to first.burst (map (after_answer k loads first.burst) (map (after_command k loads command) run.stations)) ≡ Some answer →
        HasAnswerRanges answer.words }
{}
