//! Small recordings, with the moments and refusals that docs and other tools' exports give for them.
use crate::fields::Columns;
use crate::moment::Moment;
use crate::refusal::RecordingRefusal;
use crate::rows::RowReader;
use crate::vcd::VcdReader;
use crate::wires::{Wire, Wires};
use bus_base::{Pair, Sample};

fn vcd_end(text: &[u8]) -> Result<Moment, RecordingRefusal> {
    let mut reader = VcdReader::new(Wires {
        a_plus: Wire::named(b"D0"),
        a_minus: Wire::named(b"D1"),
        b_plus: Wire::unwanted(),
        b_minus: Wire::unwanted(),
    });
    for byte in text {
        let _ = reader.push(*byte);
    }
    reader.end()
}

fn on_a(at: u64, a: Sample) -> Moment {
    Moment {
        at,
        pair: Pair {
            a,
            b: Sample::Quiet,
        },
    }
}

// as sigrok-cli 0.7.2 writes it: several changes on a line, times in 10 ns
#[test]
fn a_dump_is_read(rt: HostRuntime) {
    assert_eq!(rt;
        vcd_end(
            b"$timescale 10 ns $end\n$var wire 1 ! D0 $end\n$var wire 1 # D1 $end\n$enddefinitions $end\n#0 0! 0#\n#410 1!\n#755 1# 0!"
        ),
        Ok(on_a(7_550_000, Sample::Minus))
    );
    assert_eq!(rt;
        vcd_end(
            b"$var wire 1 ! D0 $end $var reg 1 # D1 $end $timescale 1us $end $enddefinitions $end $dumpvars 1! b01 ! $end #3\n"
        ),
        Ok(on_a(3_000_000, Sample::Plus))
    );
}

#[test]
fn dumps_are_refused(rt: HostRuntime) {
    assert_eq!(rt;
        vcd_end(b"$enddefinitions $end"),
        Err(RecordingRefusal::NoTimescale)
    );
    assert_eq!(rt;
        vcd_end(
            b"$timescale 1ns $end $var wire 1 ! D0 $end $var wire 8 # D1 $end $enddefinitions $end"
        ),
        Err(RecordingRefusal::NoLine(1))
    );
    assert_eq!(rt; vcd_end(b"  x"), Err(RecordingRefusal::Token(2)));
    assert_eq!(rt;
        vcd_end(
            b"$timescale 1ns $end $var wire 1 ! D0 $end $var wire 1 # D1 $end $enddefinitions $end #7 #6"
        ),
        Err(RecordingRefusal::Time(88))
    );
    assert_eq!(rt;
        vcd_end(
            b"$timescale 1ns $end $var wire 1 ! D0 $end $var wire 1 # D1 $end $enddefinitions $end #7 q#"
        ),
        Err(RecordingRefusal::Token(88))
    );
}

fn volts_end(text: &[u8]) -> (Option<Moment>, u64) {
    let mut reader = RowReader::new(Columns {
        is_logic: false,
        step: 0,
        threshold: 2_500_000_000_000,
        a_plus: 2,
        a_minus: 0,
        b_plus: 0,
        b_minus: 0,
    });
    for byte in text {
        let _ = reader.push(*byte);
    }
    (reader.end().unwrap_or(None), reader.end_time())
}

// an oscilloscope's export: two lines of names, and times before the trigger
#[test]
fn volts_are_read(rt: HostRuntime) {
    let (last, end) = volts_end(
        b"Source,CH1\r\nSecond,Volt\r\n-1.0e-6,0.1\r\n 2.5E-07, -2.501\r\n",
    );
    assert_eq!(rt; last, None);
    assert_eq!(rt; end, 1_250_000);
    let (last, _) = volts_end(b"-0.000001;+2.5\n0;0.3e1");
    assert_eq!(rt; last, Some(on_a(1_000_000, Sample::Plus)));
}
