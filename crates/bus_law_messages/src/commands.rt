//! A command is sent. Laws alone, each the contract of an empty function.

ghost use Rattle.std.specs.Prelude.{◌≡◌, ℕ, suc, ◌+◌, ◌*◌, ◌<◌, ◌≤◌, List, length};
ghost use Rattle.bus_base.specs.declared.samples.Drive.{Drive};
ghost use Rattle.bus_base.specs.declared.samples.Pair.{Pair};
ghost use Rattle.bus_base.specs.declared.samples.Part.TheVariants.{Command};
ghost use Rattle.bus_words.specs.declared.word.Word.{Word};
ghost use Rattle.bus_formats.specs.Forms.{command_words};
ghost use Rattle.bus_formats.specs.Plans.{StationData, PlanData};
ghost use Rattle.bus_formats.specs.declared.fault.Hit.{Hit};
ghost use Rattle.bus_model.specs.Memory.{TimedLoad};
ghost use Rattle.bus_model.specs.Starts.{Entry, starts};
ghost use Rattle.bus_model.specs.Attempts.{Begun};
ghost use Rattle.bus_model.specs.Strikes.{added_by};
ghost use Rattle.bus_model.specs.Course.{Course};
ghost use Rattle.bus_model.specs.Control.{OutsideTake, course_after};
ghost use Rattle.bus_model.specs.World.{Trace, trace};
ghost use Rattle.bus_law_stations.specs.Messages.{BeginsMessage, message_begun};
ghost use Rattle.bus_law_messages.specs.Settled.{Settled, NoneTakes};
ghost use Rattle.bus_law_messages.specs.Commands.{LeavesWhole, CommandSent};
ghost use Rattle.bus_law_messages.specs.Ends.{CommandOver};

/// From a settled moment at which the next message of the station in control starts now, the world shows its command: in each tick that station
/// drives the sample that is due, and every other one is silent; the command's channel shows what the faults leave of its words, without a gap,
/// and the other channel is quiet. At every lag below a slot's forty ticks, for any loads, with any stations absent, where no station takes control
/// by itself meanwhile.
pub fn a_command_is_sent_alone()
    ensures { (k : ℕ) (plan : PlanData) (loads : List TimedLoad) (outside : List OutsideTake) (absent : List ℕ) (t place : ℕ) (holder : StationData)
        (entry : Entry) (hits : List Hit) (n : ℕ) → k < 40 → let before : Trace = trace k plan loads outside absent t in
        let c : Course = course_after k holder (starts plan holder) loads outside before.shown in
        let begun : Begun = message_begun c entry t in let words : List Word = command_words entry.item.kind in
        Settled k plan loads outside absent before place holder → BeginsMessage c before.shown entry →
        NoneTakes k plan loads outside place t (t + n) → LeavesWhole plan.faults Command before.driven hits words → n ≤ 40 * length words →
        (ticks : List Pair) × (sent : List (List Drive)) × CommandSent k plan loads outside absent before place begun hits n ticks sent }
{}

/// When the end of that command is known, k + 1 quiet ticks after its last sample: every serving station's terminal has obeyed the last command in
/// it that is for it, with the slots after it as the faults leave them, or has passed over it; and the message has ended Sent, if it expects no
/// answer, or waits for one. At every lag below the wait for an answer, for any loads, with any stations absent.
pub fn a_sent_command_is_heard()
    ensures { (k : ℕ) (plan : PlanData) (loads : List TimedLoad) (outside : List OutsideTake) (absent : List ℕ) (t place : ℕ) (holder : StationData)
        (entry : Entry) (hits : List Hit) → k < 24 → let before : Trace = trace k plan loads outside absent t in
        let c : Course = course_after k holder (starts plan holder) loads outside before.shown in
        let begun : Begun = message_begun c entry t in let words : List Word = command_words entry.item.kind in
        Settled k plan loads outside absent before place holder → BeginsMessage c before.shown entry →
        NoneTakes k plan loads outside place t (t + (40 * length words + suc k)) → LeavesWhole plan.faults Command before.driven hits words →
        added_by hits ≡ 0 → (ticks : List Pair) × (sent : List (List Drive)) × (silent : List (List Drive))
        × CommandOver k plan loads outside absent before place holder begun hits ticks sent silent }
{}
