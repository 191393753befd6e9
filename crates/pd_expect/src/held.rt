//! Whether an expectation holds of a run.

ghost use Rattle.std.specs.Prelude.{◌≡◌, IfOk};
ghost use Rattle.pd_scenario.specs.Plans.{plan_of};
ghost use Rattle.pd_expect.specs.Held.{IsHeld};

use crate::Expectation;
use crate::found::{found_in, is_met, last_time};
use crate::script::late_time;
use pd_run::Runner;
use pd_scenario::Scenario;
use std::alloc::{AllocError, Global};

/// Whether the expectation of a line holds of the run of a scenario. None where it names a time after the end: the run says nothing of
/// then.
///
/// # Errors
/// There is no memory.
pub fn holds<const N: usize, T: Runner<N>>(
    alloc: Global,
    run: &T,
    scenario: &Scenario<N>,
    line: &[u8],
    expectation: &Expectation,
) -> Result<Option<bool>, AllocError>
    ensures { IfOk result (λ verdict. IsHeld (plan_of scenario.now) (T.entries run.now) line.now expectation.now verdict) }
{
    let end = scenario.end_time();
    match late_time(end, last_time(expectation)) {
        Some(_) => Ok(None),
        None => {
            let found = found_in(alloc, expectation, run, scenario, line)?;
            Ok(Some(is_met(expectation, &found)))
        }
    }
}
