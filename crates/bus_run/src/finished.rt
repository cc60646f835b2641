//! What a run leaves.
ghost use Rattle.std.specs.Prelude.{◌≡◌, []};
ghost use Rattle.bus_line.specs.declared.cutter.TheConstants.{LAG};
ghost use Rattle.bus_formats.specs.Plans.{PlanData};
ghost use Rattle.bus_model.specs.Log.{run_log};
ghost use Rattle.bus_model.specs.World.{world};
ghost use Rattle.bus_model.specs.WorldLog.{world_log};
ghost use Rattle.bus_run.specs.Parts.{StationsStand};
ghost use Rattle.bus_run.specs.Stands.{FinishedStands};
ghost use Rattle.bus_law_run.specs.WorldIsRun.{plan_end};

use bus_formats::RunLog;
use bus_station::Station;

/// A bus whose run has ended, in the tick in which the run by the message table does. Only `Bus::finish` makes one, so that its stations were stepped
/// through the whole run.
#[derive(Drop)]
pub struct FinishedBus {
    pub(crate) stations: Vec<Station>,
    pub(crate) log: RunLog,
}

impl FinishedBus {
    /// The stations in the order of the plan, as they stand after the last tick.
    #[tactic(auto, unfolding(crate::specs::Stands::FinishedStands))]
    pub fn stations(&self) -> &[Station]
        ensures { (plan : PlanData) → FinishedStands plan self.now → StationsStand plan result.now (world LAG plan [] [] [] (plan_end plan)) }
    {
        &self.stations
    }

    /// The log of the run: that of the message table, and the one that is found in the world.
    #[tactic(auto, unfolding(crate::specs::Stands::FinishedStands))]
    pub fn log(&self) -> &RunLog
        ensures tables { (plan : PlanData) → FinishedStands plan self.now → result.now ≡ run_log LAG plan }
        ensures found { (plan : PlanData) → FinishedStands plan self.now → result.now ≡ world_log LAG plan (plan_end plan) }
    {
        &self.log
    }
}
