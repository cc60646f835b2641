//! The program `mastrolu-lines`: a recording on standard input, its capture on standard output.
#![tactic(auto)]

use bus_lines::lines_tool;
use bus_outside::{ReadSource, WriteSink};
use std::env;
use std::io::ErrorKind;
use std::process::ExitCode;

/// The status where memory for the words is refused.
const NO_MEMORY: u8 = 6;

fn main(rt: HostRuntime) -> ExitCode {
    let mut words = Vec::new(rt.alloc());
    match env::args(&rt) {
        Ok(args) => {
            for word in args.skip(1) {
                if words.push(word).is_err() {
                    return ExitCode::from(NO_MEMORY);
                }
            }
        }
        Err(error) if error.kind() == ErrorKind::OutOfMemory => return ExitCode::from(NO_MEMORY),
        // A word that is no text has no meaning, as every other.
        Err(_) => {
            if words.push(String::new(rt.alloc())).is_err() {
                return ExitCode::from(NO_MEMORY);
            }
        }
    }
    let mut source = ReadSource::new(rt.stdin());
    let mut sink = WriteSink::new(rt.stdout());
    ExitCode::from(lines_tool(words.as_slice(), &mut source, &mut sink))
}
