//! The run in which nothing is lost.

ghost use Rattle.std.specs.Prelude.{◌≡◌, IfErr, IfOk};
ghost use Rattle.pd_device.specs.declared.fault.BenchFault.TheVariants.{Memory as no_memory};
ghost use Rattle.pd_scenario.specs.Plans.{plan_of};
ghost use Rattle.pd_sweep.specs.Trials.{IsBase};

use crate::steps::steps_of;
use crate::{Findings, Step};
use pd_device::BenchFault;
use pd_run::Runner;
use pd_scenario::Scenario;
use std::alloc::Global;

/// What is kept of the run of a scenario, to tell others beside it: what is found of it, and its changes of contracts.
#[derive(Drop)]
pub struct Base {
    pub findings: Findings,
    pub steps: Vec<Step>,
}

impl Base {
    /// What is kept of the run of a scenario.
    ///
    /// # Errors
    /// `Memory`: there is none.
    pub fn of<const N: usize, T: Runner<N>>(
        alloc: Global,
        run: &T,
        scenario: &Scenario<N>,
    ) -> Result<Base, BenchFault>
        ensures value { IfOk result (λ base. IsBase (plan_of scenario.now) (T.entries run.now) base) }
        ensures memory { IfErr result (λ fault. fault ≡ no_memory) }
    {
        let Ok(steps) = steps_of(alloc, run, scenario.end_time()) else {
            return Err(BenchFault::Memory);
        };
        Ok(Base {
            findings: Findings::of(run, scenario),
            steps,
        })
    }
}
