//! An item that is tried again twice, first on the same channel and then on the other.
ghost use Rattle.std.specs.Prelude.{◌≡◌};

use crate::*;
use arrayvec::ArrayVec;
use bus_base::Part;
use bus_formats::Kind;

fn item(channel: Option<Channel>) -> Item {
    let mut retry = ArrayVec::new();
    let _ = retry.try_push(Turn::Same);
    let _ = retry.try_push(Turn::Other);
    Item {
        kind: Kind::Transmit {
            from: 5,
            sub: 1,
            count: 1,
        },
        channel,
        gap: 8,
        retry,
        abandon: None,
    }
}

fn state(channel: Channel, turn: u8) -> RetryState
    ensures { result.turn ≡ turn }
{
    RetryState { channel, turn }
}

#[test]
fn tries_again_by_the_list(rt: HostRuntime) {
    let item = item(None);
    let live = ChannelState { live: Channel::A };
    let silent = Outcome::NoResponse(Part::First);
    let bad = Outcome::BadReply(Part::First);
    assert_eq!(rt; first_attempt(&item, live), state(Channel::A, 1));
    let second = next_attempt(&item, state(Channel::A, 1), silent);
    assert_eq!(rt; second, Choice::Again(state(Channel::A, 2)));
    let third = next_attempt(&item, state(Channel::A, 2), bad);
    assert_eq!(rt; third, Choice::Again(state(Channel::B, 3)));
    assert_eq!(rt;
        next_attempt(&item, state(Channel::B, 3), silent),
        Choice::Done
    );
    let refused = Outcome::Illegal(Part::First);
    assert_eq!(rt;
        next_attempt(&item, state(Channel::A, 1), refused),
        Choice::Done
    );
}

#[test]
fn moves_the_live_channel_by_a_clear_retry_alone(rt: HostRuntime) {
    let free = item(None);
    let bound = item(Some(Channel::A));
    let live = ChannelState { live: Channel::A };
    let moved = ChannelState { live: Channel::B };
    assert_eq!(rt;
        after(&free, state(Channel::B, 3), Outcome::Clear, live),
        moved
    );
    assert_eq!(rt;
        after(&free, state(Channel::B, 1), Outcome::Clear, live),
        live
    );
    assert_eq!(rt;
        after(&free, state(Channel::B, 3), Outcome::Sent, live),
        live
    );
    assert_eq!(rt;
        after(&bound, state(Channel::B, 3), Outcome::Clear, live),
        live
    );
}
