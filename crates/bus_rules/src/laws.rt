//! Laws of the breaches, each a function with nothing to do.
ghost use Rattle.std.specs.Prelude.{◌≡◌, ◌<◌, ℕ, List, flat_map, nat_lt};
ghost use Rattle.bus_base.specs.declared.samples.Channel.{Channel};
ghost use Rattle.bus_base.specs.declared.samples.Pair.{Pair};
ghost use Rattle.bus_line.specs.Past.{Burst};
ghost use Rattle.bus_formats.specs.Times.{no_response};
ghost use Rattle.bus_monitor.specs.Listings.{bursts_on, messages_on};
ghost use Rattle.bus_rules.specs.Breaches.{known, is_damaged, longest_burst};
ghost use Rattle.bus_rules.specs.Named.{ticks_named, first_where, unknown_first};
ghost use Rattle.bus_rules.specs.declared.breach.Rule.TheVariants.{Word, Long, Unknown};

/// Of the bursts of a whole past that ended, exactly those have a breach that are damaged or too long; and of the messages of the listing exactly the unknown ones, in
/// their order, at every lag below the time-out of an answer.
pub fn the_listing_tells_which_bursts_are_breaches()
    ensures words { (k : ℕ) (c : Channel) (past : List Pair) → ticks_named Word c (known k past) ≡ flat_map (first_where is_damaged) (bursts_on k c past) }
    ensures longs { (k : ℕ) (c : Channel) (past : List Pair) →
        ticks_named Long c (known k past) ≡ flat_map (first_where (λ (b : Burst). nat_lt longest_burst b.ticks)) (bursts_on k c past) }
    ensures unknowns { (k : ℕ) (c : Channel) (past : List Pair) → k < no_response →
        ticks_named Unknown c (known k past) ≡ flat_map unknown_first (messages_on k c past) }
{}
