//! Bursts in order have no breach. Laws alone, each the contract of an empty function.

ghost use Rattle.std.specs.Prelude.{◌≡◌, ◌≤◌, ℕ, false, List, [], reverse};
ghost use Rattle.bus_base.specs.declared.samples.Channel.{Channel};
ghost use Rattle.bus_base.specs.declared.samples.Pair.{Pair};
ghost use Rattle.bus_line.specs.Past.{runs};
ghost use Rattle.bus_line.specs.Channels.{on_channel, bursts};
ghost use Rattle.bus_law_judge.specs.Rows.{AreInOrder};
ghost use Rattle.bus_rules.specs.Breaches.{breaches};

/// Where the bursts of a past follow one another in order, and none runs at its end, it has no breach: the channels never overlap, before each message both
/// are quiet for the least gap, and what else is asked of a burst is so of each of them. At every lag that is no shorter than the least gap.
pub fn bursts_in_order_are_judged_clean()
    ensures { (k : ℕ) (past : List Pair) → 3 ≤ k → ((c : Channel) → runs k (on_channel c past) ≡ false) →
        AreInOrder k (reverse (bursts k past)) → breaches k past ≡ [] }
{}
