//! The run in which a packet is lost, beside the one in which it isn't.

ghost use Rattle.std.specs.Prelude.{◌≡◌, IfOk};
ghost use Rattle.pd_scenario.specs.Plans.{plan_of};
ghost use Rattle.pd_sweep.specs.Beside.{AreInOrder, measures_by};
ghost use Rattle.pd_sweep.specs.Measures.{steps_of};
ghost use Rattle.pd_sweep.specs.Summaries.{AreFindings};
ghost use Rattle.pd_sweep.specs.Words.{makes_difference};

use crate::base::Base;
use crate::measure::are_steady;
use crate::steps::steps_of;
use crate::{Findings, Measure, are_same, measures};
use pd_run::Runner;
use pd_scenario::Scenario;
use std::alloc::{AllocError, Global};

/// What losing a packet leads to: what is found of the run in which it is lost, and how the contract of each port differs in it.
#[derive(Clone, Copy, Debug)]
pub struct Effect {
    pub findings: Findings,
    pub measures: [Measure; 8],
}

impl Effect {
    /// What the run of a variant comes to beside the base, up to an end.
    pub fn of<const N: usize, T: Runner<N>>(
        alloc: Global,
        run: &T,
        variant: &Scenario<N>,
        base: &Base,
        end: u64,
    ) -> Result<Effect, AllocError>
        requires { AreInOrder end base.now.steps.items }
        ensures found { IfOk result (λ effect. AreFindings (plan_of variant.now) (T.entries run.now) effect.findings) }
        ensures measured { IfOk result (λ effect.
            effect.measures ≡ measures_by end base.now.steps.items (steps_of end (T.entries run.now))) }
    {
        let steps = steps_of(alloc, run, end)?;
        Ok(Effect {
            findings: Findings::of(run, variant),
            measures: measures(base.steps.as_slice(), steps.as_slice(), end),
        })
    }

    /// Whether a contract is another at some instant, or at the end, or the least margin is.
    pub fn makes_difference(&self, old: &Findings) -> bool
        ensures { result ≡ makes_difference old.now self.now }
    {
        let (before, after) = (&old.summary.standing, &self.findings.summary.standing);
        let same_margin = old.margin.left == self.findings.margin.left;
        !(are_steady(&self.measures)
            && are_same(&before.contracts, &after.contracts)
            && same_margin)
    }
}
