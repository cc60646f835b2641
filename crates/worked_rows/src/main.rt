//! Runs the worked rows. Each folder in rows/ is one: `args` has the words of a command line, one a line, `stdin` the input,
//! `stdout` the text and `status` the status with which the top call must end. What differs is named, and at last it says how many passed.
#![tactic(auto)]

use bus_outside::{MemorySink, MemorySource};
use bus_subsystem::{Recorder, Subsystem, Tally};
use bus_tool::bus_tool;
use std::{fs, io};

/// The most bytes that a row's text may have.
const ROOM: usize = 65_536;

/// Terminals have the addresses 0 to 30.
const ADDRESSES: usize = 31;

fn main(rt: HostRuntime) -> io::Result<()> {
    let mut passed = 0u64;
    for entry in fs::read_dir(&rt, "rows")? {
        let entry = entry?;
        let name = entry.file_name();
        if is_as_written(&rt, name)? {
            passed = passed.saturating_add(1);
        } else {
            println!(rt; "differs: {name}")?;
        }
    }
    println!(rt; "{passed} rows passed")
}

// Whether the top call ends with the text and the status of the row with this name.
fn is_as_written(rt: &HostRuntime, name: &str) -> io::Result<bool> {
    let args = read(rt, name, "args")?;
    let mut words = Vec::new(rt.alloc());
    for word in args.lines() {
        words.push(String::from_str(rt.alloc(), word)?)?;
    }
    let input = read(rt, name, "stdin")?;
    let mut source = MemorySource::new(input.into_bytes(), Vec::new(rt.alloc()), 4096);
    let mut sink = MemorySink::new(rt.alloc(), ROOM, Vec::new(rt.alloc()))?;
    let mut subsystems: Vec<Box<dyn Subsystem>> = Vec::new(rt.alloc());
    'recorders: for _ in 0..ADDRESSES {
        subsystems.push(Box::new(rt.alloc(), Recorder::new(rt.alloc()))?)?;
    }
    'tallies: for _ in 0..ADDRESSES {
        subsystems.push(Box::new(rt.alloc(), Tally::new())?)?;
    }
    let ended = bus_tool(
        rt.alloc(),
        words.as_slice(),
        &mut source,
        &mut sink,
        &mut subsystems,
    );
    let text = read(rt, name, "stdout")?;
    let status = read(rt, name, "status")?;
    let wanted: Option<u8> = status.trim().parse().ok();
    Ok(sink.bytes() == text.as_bytes() && wanted == Some(ended.status))
}

// One of a row's files.
fn read(rt: &HostRuntime, name: &str, file: &str) -> io::Result<String> {
    let path = format!(in rt.alloc(); "rows/{name}/{file}")?;
    fs::read_to_string(rt, path.as_str())
}
