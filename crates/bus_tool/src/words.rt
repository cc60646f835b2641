//! What the words of the command line mean.
ghost use Rattle.std.specs.Prelude.{◌≡◌, map, string_bytes};
ghost use Rattle.bus_tool.specs.Meaning.{meaning, command_named as named, bench_named as named_bench, IsInRange};

use bus_decimal::number_up_to;

/// What the program is asked to do.
#[derive(Clone, Copy, Debug, PartialEq, Eq)]
pub enum Command {
    /// Read a plan, run it, and write the report.
    Run,
    /// Read a plan, run it without its subsystems, and write the capture of what both channels show.
    Capture,
    /// Read a plan, run it without its subsystems once for each of its faults with that fault alone, and write a line for each of these runs.
    Survey,
    /// Read a plan, and write what each frame of the station that starts takes at most, and whether each next one starts in time.
    Load,
    /// Read a capture, and write the listing of its valid words.
    Decode,
    /// Read a capture, and write the listing of its messages.
    Messages,
    /// Read a capture, and write its breaches of the rules of timing.
    Judge,
    /// Read two plans and the terminals of one device, run both, and write what was handed on and the attempts of the second.
    Bridge,
    /// Read nothing, run the plan with so many messages, 1 to 4,096, that are drawn from a number, 0 to 2,147,483,647, on, and write one line.
    Bench { number: u32, items: u32 },
}

/// The command that the words mean, the program's name left out; none where they have no meaning. It takes no memory.
pub fn command_of(words: &[String]) -> Option<Command>
    ensures meaning { result ≡ meaning (map string_bytes words.now) }
    ensures range { IsInRange result }
{
    match words {
        [word] => command_named(word.as_str()),
        [word, number, items] => bench_named(word.as_str(), number.as_bytes(), items.as_bytes()),
        _ => None,
    }
}

fn command_named(word: &str) -> Option<Command>
    ensures meaning { result ≡ named word.now }
    ensures range { IsInRange result }
{
    if word == "run" {
        return Some(Command::Run);
    }
    if word == "capture" {
        return Some(Command::Capture);
    }
    if word == "survey" {
        return Some(Command::Survey);
    }
    if word == "load" {
        return Some(Command::Load);
    }
    if word == "decode" {
        return Some(Command::Decode);
    }
    if word == "messages" {
        return Some(Command::Messages);
    }
    if word == "judge" {
        return Some(Command::Judge);
    }
    if word == "bridge" {
        return Some(Command::Bridge);
    }
    None
}

// The benchmark with this number and so many messages, where the word asks for one.
fn bench_named(word: &str, number: &[u8], items: &[u8]) -> Option<Command>
    ensures meaning { result ≡ named_bench word.now number.now items.now }
    ensures range { IsInRange result }
{
    if word != "bench" {
        return None;
    }
    let number = number_up_to(2_147_483_647, number)?;
    let items = number_up_to(4_096, items)?;
    if items == 0 {
        return None;
    }
    Some(Command::Bench {
        number: number as u32,
        items: items as u32,
    })
}
