//! Which block a subaddress has received. Laws alone, each the contract of an empty function.

ghost use Rattle.std.specs.Prelude.{◌≡◌, ◌⊎◌, ℕ, List, ◌∷◌, length, Some};
ghost use Rattle.bus_formats.specs.Plans.{TerminalData};
ghost use Rattle.bus_model.specs.Memory.{Memory, TimedLoad, received_on};
ghost use Rattle.bus_model.specs.Orders.{Taken};
ghost use Rattle.bus_model.specs.Hearing.{Moment, Hearing};
ghost use Rattle.bus_model.specs.Terminal.{standing, memory_after, took_now};
ghost use Rattle.bus_law_ticks.specs.Blocks.{TookAt, TookLastAt, AreOfBurst};

/// After a tick the receive block of a subaddress is the block before it, or the block that the terminal took in that tick for that subaddress,
/// whole; and a block that it took is there then (valid and invalid data reception, MIL-STD-1553B 4.4.3.5, 4.4.3.6). Loads of its subsystem change
/// none of them. At every lag. A terminal has 31 blocks, of which subaddresses 1 to 30 have one each.
pub fn a_receive_block_stays_or_is_the_block_taken()
    ensures either { (k : ℕ) (terminal : TerminalData) (loads : List TimedLoad) (memory : Memory) (now : Moment) (past : List Moment) (sub : ℕ) →
        let earlier : Hearing = record { memory = memory; ticks = past } in let later : Hearing = record { memory = memory; ticks = now ∷ past } in
        (received_on (memory_after k terminal loads later) sub ≡ received_on (memory_after k terminal loads earlier) sub)
        ⊎ ((taken : Taken) × (took_now k terminal loads later ≡ Some taken) × (taken.sub ≡ sub)
        × (received_on (memory_after k terminal loads later) sub ≡ taken.words)) }
    ensures taken { (k : ℕ) (terminal : TerminalData) (loads : List TimedLoad) (memory : Memory) (now : Moment) (past : List Moment) (taken : Taken) →
        let later : Hearing = record { memory = memory; ticks = now ∷ past } in length memory.received ≡ 31 →
        took_now k terminal loads later ≡ Some taken → received_on (memory_after k terminal loads later) taken.sub ≡ taken.words }
    ensures loaded { (k : ℕ) (terminal : TerminalData) (loads : List TimedLoad) (memory : Memory) (ticks : List Moment) (sub : ℕ) →
        received_on (memory_after k terminal loads record { memory = memory; ticks = ticks }) sub
        ≡ received_on (standing k terminal loads memory ticks).memory sub }
{}

/// After any ticks the receive block of a subaddress is the last block that the terminal took for it or, where it took none, the block that it
/// kept before them (4.4.3.5, 4.4.3.6). At every lag.
pub fn a_receive_block_is_the_last_block_taken()
    ensures last { (k : ℕ) (terminal : TerminalData) (loads : List TimedLoad) (hearing : Hearing) (sub t : ℕ) (taken : Taken) →
        length hearing.memory.received ≡ 31 → TookLastAt k terminal loads hearing sub t taken →
        received_on (memory_after k terminal loads hearing) sub ≡ taken.words }
    ensures none { (k : ℕ) (terminal : TerminalData) (loads : List TimedLoad) (hearing : Hearing) (sub : ℕ) →
        ((t : ℕ) (taken : Taken) → TookAt k terminal loads hearing t taken → taken.sub ≡ sub → ⊥) →
        received_on (memory_after k terminal loads hearing) sub ≡ received_on hearing.memory sub }
{}

/// A block is taken only in the tick in which a burst's end becomes known, and its words are all that follow a command or status word in that
/// burst, each a valid data word, with nothing after them (4.4.3.5). At every lag.
pub fn a_block_taken_is_all_of_a_burst()
    ensures { (k : ℕ) (terminal : TerminalData) (loads : List TimedLoad) (memory : Memory) (now : Moment) (past : List Moment) (taken : Taken) →
        took_now k terminal loads record { memory = memory; ticks = now ∷ past } ≡ Some taken → AreOfBurst k (now ∷ past) taken.words }
{}
