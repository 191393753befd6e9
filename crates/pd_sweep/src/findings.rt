//! What is found of a run beside its summary.

ghost use Rattle.std.specs.Prelude.{◌≡◌};
ghost use Rattle.pd_scenario.specs.Plans.{plan_of};
ghost use Rattle.pd_sweep.specs.Summaries.{AreFindings};

use crate::makers::{Makers, makers_of};
use crate::summary::{Summary, summary_of};
use pd_report::{Margin, least_margin};
use pd_run::Runner;
use pd_scenario::Scenario;

/// What is found of a run: its summary, the least that its contracts leave of the shared budget, and the ports of which a contract
/// is made at that instant.
#[derive(Clone, Copy, Debug)]
pub struct Findings {
    pub summary: Summary,
    pub margin: Margin,
    pub makers: Makers,
}

impl Findings {
    /// What is found of the run of a scenario.
    pub fn of<const N: usize, T: Runner<N>>(run: &T, scenario: &Scenario<N>) -> Findings
        ensures { AreFindings (plan_of scenario.now) (T.entries run.now) result }
    {
        let margin = least_margin(run, scenario);
        Findings {
            summary: summary_of(run),
            margin,
            makers: makers_of(run, margin.at),
        }
    }
}
