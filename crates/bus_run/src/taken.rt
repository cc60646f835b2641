//! What a terminal took, as the row of stations keeps it for one tick.
ghost use Rattle.std.specs.Prelude.{◌≡◌};

use bus_formats::Delivery;

/// A block that the terminal of a station took whole.
#[derive(Drop)]
pub struct TakenBlock {
    /// The station's address, 0 to 31.
    pub address: u8,
    /// The block, with the tick in which it was taken.
    pub delivery: Delivery,
}

impl TakenBlock {
    /// The same block once more. It takes no memory.
    pub fn of(address: u8, delivery: &Delivery) -> TakenBlock
        ensures { result ≡ record { address = address; delivery = delivery.now } }
    {
        TakenBlock {
            address,
            delivery: Delivery {
                tick: delivery.tick,
                channel: delivery.channel,
                sub: delivery.sub,
                broadcast: delivery.broadcast,
                words: delivery.words.copy(),
            },
        }
    }
}
