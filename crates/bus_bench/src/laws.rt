//! A law of the plans that are drawn, the contract of a function that does nothing.
ghost use Rattle.std.specs.Prelude.{ℕ, ◌≤◌};
ghost use Rattle.bus_formats.specs.Accepted.{IsAccepted};
ghost use Rattle.bus_bench.specs.Generated.{bench_plan};

/// Each plan that is drawn, with at most 4,096 messages, is accepted.
pub fn each_plan_that_is_drawn_is_accepted()
    ensures { (number items : ℕ) → items ≤ 4096 → IsAccepted (bench_plan number items) }
{}
