//! The program: its words, standard input and standard output, and the objects for subsystems, handed to the top call, whose status it
//! ends with.
#![tactic(auto)]

use bus_outside::{ReadSource, WriteSink};
use bus_subsystem::{Recorder, Subsystem, Tally};
use bus_tool::bus_tool;
use std::env;
use std::io::ErrorKind;
use std::process::ExitCode;

/// The status where memory for the words or the objects is refused.
const NO_MEMORY: u8 = 6;

/// Terminals have the addresses 0 to 30.
const ADDRESSES: usize = 31;

fn main(rt: HostRuntime) -> ExitCode {
    let mut words = Vec::new(rt.alloc());
    match env::args(&rt) {
        Ok(args) => {
            for word in args.skip(1) {
                if words.push(word).is_err() {
                    return ExitCode::from(NO_MEMORY);
                }
            }
        }
        Err(error) if error.kind() == ErrorKind::OutOfMemory => return ExitCode::from(NO_MEMORY),
        // A word that is no text has no meaning, and no words have none either.
        Err(_) => {}
    }
    // The recorders of the addresses 0 to 30, and then the tallies of these. They are made here, since no function may hand out a boxed object.
    let mut subsystems: Vec<Box<dyn Subsystem>> = Vec::new(rt.alloc());
    'recorders: for _ in 0..ADDRESSES {
        let Ok(recorder) = Box::new(rt.alloc(), Recorder::new(rt.alloc())) else {
            return ExitCode::from(NO_MEMORY);
        };
        if subsystems.push(recorder).is_err() {
            return ExitCode::from(NO_MEMORY);
        }
    }
    'tallies: for _ in 0..ADDRESSES {
        let Ok(tally) = Box::new(rt.alloc(), Tally::new()) else {
            return ExitCode::from(NO_MEMORY);
        };
        if subsystems.push(tally).is_err() {
            return ExitCode::from(NO_MEMORY);
        }
    }
    let mut source = ReadSource::new(rt.stdin());
    let mut sink = WriteSink::new(rt.stdout());
    let ended = bus_tool(
        rt.alloc(),
        words.as_slice(),
        &mut source,
        &mut sink,
        &mut subsystems,
    );
    ExitCode::from(ended.status)
}
