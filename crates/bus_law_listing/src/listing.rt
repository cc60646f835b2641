//! Bursts in the order of their ends, and the words in them. Laws alone, each the contract of an empty function.

ghost use Rattle.std.specs.Prelude.{◌≡◌, ℕ, ◌≤◌, false, List, ◌++◌, map, reverse, flat_map};
ghost use Rattle.bus_base.specs.declared.samples.Channel.{Channel};
ghost use Rattle.bus_base.specs.declared.samples.Pair.{Pair};
ghost use Rattle.bus_line.specs.Past.{runs};
ghost use Rattle.bus_line.specs.Channels.{WholeBurst, on_channel, valid, bursts};
ghost use Rattle.bus_formats.specs.Plans.{PlanData};
ghost use Rattle.bus_model.specs.Log.{words_of, words_in_order, bursts_in_order, heard_burst, log_of};
ghost use Rattle.bus_model.specs.Strikes.{ShownBurst};
ghost use Rattle.bus_model.specs.Control.{OutsideTake};
ghost use Rattle.bus_model.specs.Memory.{TimedLoad};
ghost use Rattle.bus_model.specs.Run.{Run};
ghost use Rattle.bus_model.specs.World.{Trace};
ghost use Rattle.bus_model.specs.WorldLog.{log_found};
ghost use Rattle.bus_model.specs.WorldLog as world;
ghost use Rattle.bus_law_listing.specs.Listing.{burst_found, found_in_order, EndBefore};

/// Where each burst of one list ended before each of another, the two are put in order one by one. Bursts that are found one after the other
/// are so, and those that are found are in order. At every lag.
pub fn bursts_are_listed_in_order()
    ensures splits { (firsts lasts : List WholeBurst) → EndBefore firsts lasts →
        found_in_order (firsts ++ lasts) ≡ found_in_order firsts ++ found_in_order lasts }
    ensures joins { (k : ℕ) (past : List Pair) (xs ys : List WholeBurst) → bursts k past ≡ found_in_order xs ++ found_in_order ys →
        bursts k past ≡ found_in_order (xs ++ ys) }
    ensures stays { (k : ℕ) (past : List Pair) → found_in_order (bursts k past) ≡ bursts k past }
{}

/// Where the bursts that are found are those of the table in the order of their ends, a monitor lists the bursts of the table. At every lag.
pub fn the_bursts_of_the_table_are_listed()
    ensures { (k : ℕ) (past : List Pair) (bs : List ShownBurst) → bursts k past ≡ found_in_order (map burst_found bs) →
        map world.heard_burst (bursts k past) ≡ bursts_in_order (map heard_burst bs) }
{}

/// Likewise the words: where no burst runs on either channel, the valid words are those of the table's bursts, in the order of their ticks, A
/// before B. At every lag below a slot's forty ticks.
pub fn the_words_of_the_table_are_listed()
    ensures { (k : ℕ) (past : List Pair) (bs : List ShownBurst) → k ≤ 39 → bursts k past ≡ found_in_order (map burst_found bs) →
        ((c : Channel) → runs k (on_channel c past) ≡ false) → map world.heard_word (valid k past) ≡ words_in_order (flat_map words_of bs) }
{}

/// So a world in which the bursts of a run are found, and no other, has the words and bursts of the run's log once no burst runs.
pub fn a_world_lists_its_run()
    ensures { (k : ℕ) (plan : PlanData) (loads : List TimedLoad) (outside : List OutsideTake) (absent : List ℕ) (trace : Trace) (run : Run) → k ≤ 39 →
        bursts k trace.shown ≡ found_in_order (map burst_found (reverse run.bursts)) → ((c : Channel) → runs k (on_channel c trace.shown) ≡ false) →
        ((log_found k plan loads outside absent trace).words ≡ (log_of run).words)
        × ((log_found k plan loads outside absent trace).bursts ≡ (log_of run).bursts) }
{}
