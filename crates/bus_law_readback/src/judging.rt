//! How the run of a plan is judged. Laws alone, each the contract of an empty function.

ghost use Rattle.std.specs.Prelude.{◌≡◌, ℕ, List, []};
ghost use Rattle.bus_formats.specs.Accepted.{IsAccepted};
ghost use Rattle.bus_formats.specs.Plans.{PlanData};
ghost use Rattle.bus_law_clean.specs.Undisturbed.{IsUndisturbed};
ghost use Rattle.bus_law_readback.specs.Calls.{Call, EndsAs, AreCapturedAndJudged, IsFoundClean};
ghost use Rattle.bus_law_run.specs.WorldIsRun.{plan_end};
ghost use Rattle.bus_line.specs.declared.cutter.TheConstants.{LAG};
ghost use Rattle.bus_model.specs.World.{world};
ghost use Rattle.bus_rules.specs.Breaches.{breaches};
ghost use Rattle.bus_tool.specs.declared.words.Command.TheVariants as commands;

/// The run of every accepted plan that names no fault, and of which no message may be abandoned, is judged clean: up to the tick in which it ends the channels
/// never overlap, each message keeps its gap, each answer comes in time and is the one that is due, each burst is whole, none is too long, and each opens a message
/// of one of the formats or answers one.
pub fn an_undisturbed_run_has_no_breach()
    ensures { (plan : PlanData) → IsAccepted plan → IsUndisturbed plan → breaches LAG (world LAG plan [] [] [] (plan_end plan)) ≡ [] }
{}

/// So, where `capture` was given such a plan and ended with 0 or 1, and `judge` was given what `capture` wrote, it finds no breach: its status is 0, unless reading
/// or writing failed, and all that it writes then is the line `clean` and the number of ticks of the run.
pub fn judge_finds_the_capture_of_an_undisturbed_run_clean()
    ensures { (plan : PlanData) (captured judged : Call) → EndsAs captured commands.Capture → EndsAs judged commands.Judge →
        AreCapturedAndJudged plan captured judged → IsFoundClean (plan_end plan) judged }
{}
