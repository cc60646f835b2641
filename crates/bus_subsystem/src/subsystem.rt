//! What a subsystem owes to the bus that delivers to it.

ghost use Rattle.std.specs.Prelude.{◌≡◌, ◌+◌, ◌≤◌, ◌<◌, ◌++◌, ℕ, List, [], length, IsOk, OnOk, Option};
ghost use Rattle.bus_formats.specs.declared.log.Delivery.{Delivery};
ghost use Rattle.bus_subsystem.specs.Deliveries.{Takes, Keeps};

use crate::LineText;
use bus_formats::Delivery;
use std::alloc::AllocError;

/// A subsystem behind a terminal: it takes each block that the terminal received (MIL-STD-1553B 4.3.3.5.1.5), in the tick in which
/// it came, and says one line of the report.
///
/// Room is made before a run, so that no delivery waits for memory.
pub trait Subsystem: Drop {
    /// The deliveries taken, in their order, where it tells them.
    ghost told: { Self → Option (List Delivery) };

    /// How many more deliveries it has room for.
    ghost spare: { Self → ℕ };

    /// The text that `line` adds to an empty text.
    ghost said: { Self → List ℕ };

    /// Makes room for n more deliveries. It forgets no room that it had, and takes nothing.
    ///
    /// # Errors
    ///
    /// `AllocError` where there is no memory for them, and never where there was room enough before.
    fn reserve(&mut self, n: usize) -> Result<(), AllocError>
        ensures room { OnOk result (n ≤ spare self.new) }
        ensures enough { n ≤ spare self.old → IsOk result }
        ensures spare { spare self.old ≤ spare self.new }
        ensures told { told self.new ≡ told self.old }
        ensures said { said self.new ≡ said self.old };

    /// Takes a delivery, for which there is room and whose subaddress is one of data, 1 to 30. It takes no memory.
    fn take(&mut self, delivery: Delivery)
        requires room { 0 < spare self.old }
        requires low { 0 < delivery.sub }
        requires high { delivery.sub < 31 }
        ensures told { Takes (told self.old) (told self.new) delivery }
        ensures spare { spare self.old ≤ spare self.new + 1 };

    /// Adds the subsystem's line to a text, where it fits. The text keeps what it held, and the line always fits in an empty one.
    fn line(&self, text: &mut LineText)
        ensures said { text.old ≡ [] → text.new ≡ said self.now }
        ensures fits { length text.old + length (said self.now) ≤ 512 → text.new ≡ text.old ++ said self.now }
        ensures keeps { Keeps text.old text.new };
}
