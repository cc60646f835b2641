//! The writer of capture texts, one line at a time.
ghost use Rattle.std.specs.Prelude.{◌≡◌, ◌<◌, ◌≤◌, length};
ghost use Rattle.bus_capture.specs.Captures.{sample_byte, ticks_text};

use arrayvec::ArrayVec;
use bus_base::{Pair, Sample};

/// Leaves in `line` the text of 1 to 64 ticks: two bytes a tick, A before B, and a line feed. The text of a whole run is the
/// header and then these lines, each of 64 ticks but the last.
pub fn capture_line(pairs: &[Pair], line: &mut ArrayVec<u8, 129>)
    requires some { 0 < length pairs.now }
    requires fits { length pairs.now ≤ 64 }
    ensures { line.new.items ≡ ticks_text 0 pairs.now }
{
    line.clear();
    for pair in pairs {
        line.push(byte_of(pair.a));
        line.push(byte_of(pair.b));
    }
    line.push(b'\n');
}

fn byte_of(sample: Sample) -> u8
    ensures { result ≡ sample_byte sample }
{
    match sample {
        Sample::Plus => b'+',
        Sample::Minus => b'-',
        Sample::Quiet => b'.',
    }
}

#[cfg(test)]
mod tests {
    use super::*;

    #[test]
    fn a_line_is_two_bytes_a_tick(rt: HostRuntime) {
        let pairs = [
            Pair {
                a: Sample::Plus,
                b: Sample::Quiet,
            },
            Pair {
                a: Sample::Minus,
                b: Sample::Plus,
            },
        ];
        let mut line = ArrayVec::new();
        capture_line(&pairs, &mut line);
        assert_eq!(rt; line.as_slice(), b"+.-+\n".as_slice());
    }
}
