//! What a capture is judged to be.
ghost use Rattle.bus_rules.specs.Judged.{IsJudged, JudgementHasCause};

use crate::capture_judge::Judge;
use bus_capture::CaptureRefusal;
use bus_monitor::{Listing, list_by};
use bus_outside::{Sink, Source};

/// How the judgement of a capture ended.
#[derive(Clone, Copy, Debug, PartialEq, Eq)]
pub enum Judgement {
    /// The capture was read to its end, and the whole judgement was written.
    Done {
        /// The ticks of the capture.
        ticks: u64,
        /// The breaches among them.
        breaches: u64,
    },
    /// The text is no capture. The breaches that are known in the ticks before the refused byte were written.
    Refused(CaptureRefusal),
    /// A read failed. The breaches that are known in the ticks before it were written.
    ReadFault,
    /// A write failed. A front of the lines was written.
    WriteFault,
}

/// Reads a capture to its end, in pieces of at most 4,096 bytes, and writes its breaches while it reads: a line for each where it becomes known, A before B in
/// one tick; then one for each burst that isn't over at the end, the number of breaches or `clean`, and the number of ticks. It takes no memory.
pub fn judge<S: Source, K: Sink>(source: &mut S, sink: &mut K) -> Judgement
    ensures judged { IsJudged (S.left source.old) (S.left source.new) (K.held sink.old) (K.held sink.new) result }
    ensures cause { JudgementHasCause (S.faults source.old) (S.faults source.new) (K.faults sink.old) (K.faults sink.new) result }
{
    let (listing, judge) = list_by(Judge::new(), source, sink);
    match listing {
        Listing::Done(ticks) => Judgement::Done {
            ticks,
            breaches: judge.count(),
        },
        Listing::Refused(refusal) => Judgement::Refused(refusal),
        Listing::ReadFault => Judgement::ReadFault,
        Listing::WriteFault => Judgement::WriteFault,
    }
}
