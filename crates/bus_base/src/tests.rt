// The rules of flip sets and fade sets, each refusal once, by lists of positions that were judged by hand.
use crate::{Channel, FadeRefusal, FadeSet, FlipRefusal, FlipSet, Pair, Sample};

#[test]
fn flip_sets(rt: HostRuntime) {
    // A word by its sync alone, a bit and the parity bit: neither changes the parity of the ones.
    let whole_sync = [0, 1, 2, 3, 4, 5];
    let bit_and_parity = [6, 7, 38, 39];
    let one_bit = [6, 7];
    let half_a_bit = [22];
    let half_a_sync = [0, 1, 2, 6, 7, 38, 39];
    let cases: [(&[u8], Option<FlipRefusal>); 10] = [
        (&[], Some(FlipRefusal::Empty)),
        (&[3, 40], Some(FlipRefusal::Position(1))),
        (&[5, 4, 200], Some(FlipRefusal::Position(2))),
        (&[5, 6, 6], Some(FlipRefusal::Order(2))),
        (&[9, 8, 7], Some(FlipRefusal::Order(1))),
        (&whole_sync, Some(FlipRefusal::Undetectable)),
        (&bit_and_parity, Some(FlipRefusal::Undetectable)),
        (&one_bit, None),
        (&half_a_bit, None),
        (&half_a_sync, None),
    ];
    for (positions, refusal) in cases {
        assert_eq!(rt; FlipSet::of(positions).err(), refusal, "at {positions:?}");
    }
}

#[test]
fn fade_sets(rt: HostRuntime) {
    let cases: [(&[u8], Option<FadeRefusal>); 9] = [
        (&[], Some(FadeRefusal::Empty)),
        (&[2], Some(FadeRefusal::Position(0))),
        (&[3, 39], Some(FadeRefusal::Position(1))),
        (&[8, 4, 40], Some(FadeRefusal::Position(2))),
        (&[7, 7], Some(FadeRefusal::Order(1))),
        (&[3, 4, 5, 5], Some(FadeRefusal::Order(3))),
        (&[3, 4, 5, 6], Some(FadeRefusal::Count)),
        (&[36, 37, 38], None),
        (&[3], None),
    ];
    for (positions, refusal) in cases {
        assert_eq!(rt; FadeSet::of(positions).err(), refusal, "at {positions:?}");
    }
}

#[test]
fn members(rt: HostRuntime) {
    match (FlipSet::of(&[0, 21, 39]), FadeSet::of(&[20, 21, 22])) {
        (Ok(flips), Ok(fades)) => {
            for position in 0..=255u8 {
                let flipped = position == 0 || position == 21 || position == 39;
                let faded = position == 20 || position == 21 || position == 22;
                assert_eq!(rt; flips.has(position), flipped, "flip at {position}");
                assert_eq!(rt; fades.has(position), faded, "fade at {position}");
            }
        }
        _ => assert!(rt; false, "a set was refused"),
    }
}

#[test]
fn channels(rt: HostRuntime) {
    let pair = Pair {
        a: Sample::Plus,
        b: Sample::Quiet,
    };
    assert_eq!(rt; pair.on(Channel::A), Sample::Plus);
    assert_eq!(rt; pair.on(Channel::A.other()), Sample::Quiet);
    assert_eq!(rt; Channel::B.other(), Channel::A);
}
