//! The input of a command that reads a plan.
ghost use Rattle.std.specs.Prelude.{◌≡◌, ◌≤◌, ◌<◌, IfOk, Err};
ghost use Rattle.bus_outside.specs.Causes.{Rose};
ghost use Rattle.bus_tool.specs.Ends.{ReadsInput};
ghost use Rattle.bus_tool.specs.EndsBridge.{ReadsUpTo};

use bus_outside::Source;
use std::alloc::Global;

/// The most bytes of a plan's text.
pub const LIMIT: usize = 4_194_304;

/// Why an input was not read.
#[derive(Clone, Copy, Debug, PartialEq, Eq)]
pub enum Stop {
    /// The source failed.
    Fault,
    /// Memory ran out.
    Memory,
}

/// The bytes of the input: all of them, or the first `LIMIT` + 1 where there are more.
pub fn read_input<S: Source>(alloc: Global, source: &mut S) -> Result<Vec<u8>, Stop>
    ensures input { IfOk result (λ v. ReadsInput (S.left source.old) (S.left source.new) v.items) }
    ensures fault { result ≡ Err Stop.Fault → Rose (S.faults source.old) (S.faults source.new) }
    ensures later { S.faults source.old ≤ S.faults source.new }
{
    read_input_up_to(LIMIT, alloc, source)
}

/// The bytes of the input: all of them, or the first `most` + 1 where there are more.
pub fn read_input_up_to<S: Source>(
    most: usize,
    alloc: Global,
    source: &mut S,
) -> Result<Vec<u8>, Stop>
    requires { most < 4294967295 }
    ensures input { IfOk result (λ v. ReadsUpTo most (S.left source.old) (S.left source.new) v.items) }
    ensures fault { result ≡ Err Stop.Fault → Rose (S.faults source.old) (S.faults source.new) }
    ensures later { S.faults source.old ≤ S.faults source.new }
{
    let mut input = Vec::new(alloc);
    let mut piece = [0u8; 4096];
    'turns: while input.len() <= most {
        let room = piece.len().min(most + 1 - input.len());
        match source.read(&mut piece[..room]) {
            Ok(0) => return Ok(input),
            Ok(count) => {
                if input.extend_from_slice(&piece[..count]).is_err() {
                    return Err(Stop::Memory);
                }
            }
            Err(_) => return Err(Stop::Fault),
        }
    }
    Ok(input)
}
