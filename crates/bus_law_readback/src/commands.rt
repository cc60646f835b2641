//! What three commands write of one plan. Laws alone, each the contract of an empty function.

ghost use Rattle.std.specs.Prelude.{ℕ, List};
ghost use Rattle.bus_law_readback.specs.Calls.{Call, EndsAs, AreJoined, ListTheSameWords};
ghost use Rattle.bus_tool.specs.declared.words.Command.TheVariants as commands;

/// Where `run` and `capture` were given one text of a plan and both ended with 0 or 1, and `decode` was given what `capture` wrote, it doesn't refuse it; and
/// where it ends with 0, it wrote the lines of words that stand in the report that `run` wrote, and the number of ticks of that run.
pub fn decode_lists_the_words_of_the_report()
    ensures { (plan_text : List ℕ) (ran captured decoded : Call) → EndsAs ran commands.Run → EndsAs captured commands.Capture →
        EndsAs decoded commands.Decode → AreJoined plan_text ran captured decoded → ListTheSameWords ran decoded }
{}
