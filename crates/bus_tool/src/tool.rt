//! The top call.
ghost use Rattle.std.specs.Prelude.{◌≡◌, ◌≤◌, map, string_bytes, vec_len};
ghost use Rattle.bus_tool.specs.Ends.{Ends, EndsRun};
ghost use Rattle.bus_tool.specs.Meaning.{meaning};

use crate::bench::bench;
use crate::bridging::bridge_input;
use crate::ended::Ended;
use crate::input::{Stop, read_input};
use crate::judging::judge_capture;
use crate::listing::{decode, messages};
use crate::load::load_input;
use crate::run::answer;
use crate::survey::survey_input;
use crate::text::Text;
use crate::words::{Command, command_of};
use bus_outside::{Sink, Source};
use bus_refusals::refuse_words;
use bus_subsystem::Subsystem;
use std::alloc::Global;

/// Does what the words ask for, and answers the program's status, with the bus whose run was written whole.
///
/// The words are the command line without the program's name. Of the 62 objects, places 0 to 30 serve as the recorders of the
/// addresses 0 to 30, and places 31 to 61 as the tallies of these addresses.
///
/// - 0: the input was read to its end and the whole text was written; of a run, a bridge or a benchmark, which reads nothing, 1, where the last attempt of some item
///   didn't go well, and of a survey or a load never.
/// - 2: the words have no meaning, and nothing was read.
/// - 3: the input is refused; a plan was read whole, a capture to its first wrong byte, and the lines of the ticks before it were written.
/// - 4: the source failed; a listing's lines so far were written, and nothing else.
/// - 5: the sink failed, and a front of the text that was due was written.
/// - 6: memory ran out, and nothing was written, or by a survey the lines of the faults before; never for a listing.
///
/// After `run` of an accepted plan, with 0, 1 or 5, those objects are left that the plan names, in order of address, and each has taken
/// the blocks that its terminal took. In all other cases the objects tell and say what they did and have the room that they had; only where
/// memory ran out for `run` may they have more.
pub fn bus_tool<S: Source, K: Sink>(
    alloc: Global,
    words: &[String],
    source: &mut S,
    sink: &mut K,
    subsystems: &mut Vec<Box<dyn Subsystem>>,
) -> Ended
    requires { vec_len subsystems.old ≡ 62 }
    ensures { Ends (S.left source.old) (S.left source.new) (K.held sink.old) (K.held sink.new)
        (S.faults source.old) (S.faults source.new) (K.faults sink.old) (K.faults sink.new) result.status result.bus
        (map (λ b. told b) subsystems.old.items) (map (λ b. told b) subsystems.new.items)
        (map (λ b. said b) subsystems.old.items) (map (λ b. said b) subsystems.new.items)
        (map (λ b. spare b) subsystems.old.items) (map (λ b. spare b) subsystems.new.items)
        (meaning (map string_bytes words.now)) }
{
    match command_of(words) {
        None => Ended {
            status: refuse_words(sink),
            bus: None,
        },
        Some(Command::Run) => run(Text::Report, alloc, source, sink, subsystems),
        Some(Command::Capture) => run(Text::Capture, alloc, source, sink, subsystems),
        Some(Command::Survey) => Ended {
            status: survey_input(alloc, source, sink),
            bus: None,
        },
        Some(Command::Load) => Ended {
            status: load_input(alloc, source, sink),
            bus: None,
        },
        Some(Command::Decode) => Ended {
            status: decode(source, sink),
            bus: None,
        },
        Some(Command::Messages) => Ended {
            status: messages(source, sink),
            bus: None,
        },
        Some(Command::Judge) => Ended {
            status: judge_capture(source, sink),
            bus: None,
        },
        Some(Command::Bridge) => Ended {
            status: bridge_input(alloc, source, sink),
            bus: None,
        },
        Some(Command::Bench { number, items }) => bench(alloc, number, items, sink),
    }
}

// A command that runs a plan and writes this text of the run.
fn run<S: Source, K: Sink>(
    text: Text,
    alloc: Global,
    source: &mut S,
    sink: &mut K,
    subsystems: &mut Vec<Box<dyn Subsystem>>,
) -> Ended
    requires { vec_len subsystems.old ≡ 62 }
    ensures { EndsRun (S.left source.old) (S.left source.new) (K.held sink.old) (K.held sink.new)
        (S.faults source.old) (S.faults source.new) (K.faults sink.old) (K.faults sink.new) result.status result.bus
        (map (λ b. told b) subsystems.old.items) (map (λ b. told b) subsystems.new.items)
        (map (λ b. said b) subsystems.old.items) (map (λ b. said b) subsystems.new.items)
        (map (λ b. spare b) subsystems.old.items) (map (λ b. spare b) subsystems.new.items) text }
{
    match read_input(alloc, source) {
        Err(Stop::Fault) => Ended {
            status: 4,
            bus: None,
        },
        Err(Stop::Memory) => Ended {
            status: 6,
            bus: None,
        },
        Ok(input) => answer(text, alloc, input.as_slice(), sink, subsystems),
    }
}
