//! Laws of bursts, functions with nothing to do.
ghost use Rattle.std.specs.Prelude.{◌≡◌, ◌≤◌, ◌+◌, ◌-◌, ◌++◌, ℕ, List, false, length, replicate, Option};
ghost use Rattle.bus_base.specs.declared.samples.Sample.TheVariants.{Quiet};
ghost use Rattle.bus_phase.specs.Times.{nearest};
ghost use Rattle.bus_phase.specs.Following.{followed};
ghost use Rattle.bus_phase.specs.declared.anchor.Anchor.{Anchor};
ghost use Rattle.bus_base.specs.declared.samples.Sample.{Sample};
ghost use Rattle.bus_base.specs.Samples.{is_quiet};
ghost use Rattle.bus_phase.specs.Bursts.{Crossing, track_in_burst, samples_over, run_samples, IsWithinTolerance, follower_at_lead, follower_in_burst, first_of};

/// Where no run of a burst is unsure and each crossing lies within 125 ns of a whole number of ticks from the one before, the samples are those of these
/// numbers, whatever is on the other channel and however they are told in between.
pub fn a_burst_within_tolerance_is_read_exactly()
    ensures { (level : Sample) (settled before now : ℕ) (waiting : List Sample) (crossings : List Crossing) → is_quiet level ≡ false →
        IsWithinTolerance (length waiting) before now crossings →
        samples_over level settled (track_in_burst level settled before now waiting) crossings
        ≡ waiting ++ run_samples level before now crossings }
{}

/// A burst's first run has as many samples as are nearest to its length, with quiet before it, and its first crossing becomes the anchor; its last run has as many
/// as are nearest to its length. No sample that waits is changed.
pub fn a_burst_begins_and_ends_with_whole_runs()
    ensures begins { (level next : Sample) (other anchor : Option Anchor) (settled since from at : ℕ) (waiting : List Sample) →
        is_quiet level ≡ false → is_quiet next ≡ false → first_of other anchor settled from at waiting ≤ settled + 64 →
        followed other settled at next (follower_at_lead level since from anchor waiting)
        ≡ follower_in_burst next at (first_of other anchor settled from at waiting) at
        ((waiting ++ replicate (first_of other anchor settled from at waiting - nearest (at - from) - settled - length waiting) Quiet)
        ++ replicate (nearest (at - from)) level) }
    ensures ends { (level : Sample) (other : Option Anchor) (settled since before at : ℕ) (waiting : List Sample) →
        is_quiet level ≡ false → before ≤ at → length waiting + nearest (at - before) ≤ 64 →
        (followed other settled at Quiet (follower_in_burst level since (settled + length waiting) before waiting)).row
        ≡ record { waiting = waiting ++ replicate (nearest (at - before)) level; level = Quiet } }
{}
