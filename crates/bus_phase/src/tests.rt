//! A recording, with the samples that a model of the rule gives, which was written apart from this one.
use crate::Phase;
use bus_base::Pair;
use bus_base::Sample::{self, Minus, Plus, Quiet};

// Channel A's samples; channel B is quiet.
const SAMPLES: [Sample; 24] = [
    Quiet, Quiet, Quiet, Quiet, Plus, Plus, Plus, Minus, Minus, Minus, Plus, Minus, Plus, Plus,
    Quiet, Quiet, Quiet, Quiet, Quiet, Quiet, Quiet, Quiet, Quiet, Quiet,
];

fn on_a(a: Sample) -> Pair {
    Pair { a, b: Quiet }
}

// a dead zone of 60 ns at the first crossing, a spike of 100 ns in a run, crossings up to 120 ns off, and a pulse of 100 ns in the silence
#[test]
fn a_burst_is_read(rt: HostRuntime) {
    let mut phase = Phase::new();
    phase.show(2_030_000, on_a(Plus));
    phase.show(3_480_000, on_a(Quiet));
    phase.show(3_540_000, on_a(Minus));
    phase.show(5_100_000, on_a(Plus));
    phase.show(5_490_000, on_a(Minus));
    phase.show(6_010_000, on_a(Plus));
    phase.show(6_110_000, on_a(Minus));
    phase.show(6_210_000, on_a(Plus));
    phase.show(6_930_000, on_a(Quiet));
    phase.show(9_000_000, on_a(Minus));
    phase.show(9_100_000, on_a(Quiet));
    assert_eq!(rt; phase.is_full(), false);
    phase.end(12_000_000);
    for sample in SAMPLES {
        assert_eq!(rt; phase.tell(), Some(on_a(sample)));
    }
    assert_eq!(rt; phase.tell(), None);
}
