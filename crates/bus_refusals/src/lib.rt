//! What every program writes that refuses its words or a capture, and the status that it ends with. It stands above `bus_outside`, `bus_text` and
//! `bus_capture`, and below the programs' top calls, so that each phrase and each status stands once.
#![tactic(auto)]

ghost use Rattle.std.specs.Prelude.{◌≡◌, ◌≤◌, ◌++◌, length, codes};
ghost use Rattle.bus_refusals.specs.Refusals as spec;
ghost use Rattle.bus_text.specs.Texts.{line, number};

use bus_capture::CaptureRefusal;
use bus_outside::Sink;
use bus_text::Line;

/// Refuses words that mean nothing: writes the line that says so, and answers the status, 2, or 5 where the sink failed.
pub fn refuse_words<K: Sink>(sink: &mut K) -> u8
    ensures wrote { spec.WroteDue (K.held sink.old) (K.held sink.new) (K.faults sink.old) (K.faults sink.new) result 2 spec.words_refused }
    ensures later { K.faults sink.old ≤ K.faults sink.new }
{
    match sink.write(b"words refused\n") {
        Ok(()) => 2,
        Err(_) => 5,
    }
}

/// The line of a refused capture: what is wrong with it, and the offset of its first wrong byte.
pub fn capture_refusal_line(refusal: CaptureRefusal) -> Line
    ensures { result ≡ spec.capture_refusal_line refusal }
{
    match refusal {
        CaptureRefusal::Header(offset) => offset_line(" header", offset),
        CaptureRefusal::Byte(offset) => offset_line(" byte", offset),
        CaptureRefusal::HalfTick(offset) => offset_line(" half-tick", offset),
        CaptureRefusal::Long(offset) => offset_line(" long", offset),
    }
}

fn offset_line(name: &str, offset: u64) -> Line
    requires { length name.now ≤ 20 }
    ensures { result ≡ line (codes "capture refused" ++ (name.now ++ number offset)) }
{
    let mut line = Line::new();
    line.text("capture refused");
    line.text(name);
    line.number(offset);
    line.end();
    line
}
