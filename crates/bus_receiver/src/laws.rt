//! Laws of channels at rest: those on which no burst runs.
ghost use Rattle.std.specs.Prelude.{◌≡◌, ◌<◌, ℕ, false, List};
ghost use Rattle.bus_base.specs.declared.samples.Channel.{Channel};
ghost use Rattle.bus_base.specs.declared.samples.Pair.{Pair};
ghost use Rattle.bus_base.specs.declared.samples.Sample.{Sample};
ghost use Rattle.bus_line.specs.Past.{runs};
ghost use Rattle.bus_line.specs.Channels.{on_channel, quiet_both};
ghost use Rattle.bus_receiver.specs.Cuts.{CuttersStand};
ghost use Rattle.bus_receiver.specs.declared.cutters.Cutters.{Cutters};

/// Cutters of channels at rest stand for all pasts after which both are at rest.
pub fn cutters_at_rest_stand_for_all_at_rest()
    ensures { (k : ℕ) (cutters : Cutters) (on_a on_b other_a other_b : List Sample) → CuttersStand k cutters on_a on_b →
        runs k on_a ≡ false → runs k on_b ≡ false → runs k other_a ≡ false → runs k other_b ≡ false → CuttersStand k cutters other_a other_b }
{}

/// Where both channels were quiet for more than k ticks in a row no burst runs on either.
pub fn channels_that_were_quiet_are_at_rest()
    ensures { (k : ℕ) (channel : Channel) (past : List Pair) → k < quiet_both past → runs k (on_channel channel past) ≡ false }
{}
