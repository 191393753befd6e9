//! What is told of the runs of scenarios.

ghost use Rattle.std.specs.Prelude.{IfOk, []};
ghost use Rattle.pd_scenario.specs.Plans.{plan_of};
ghost use Rattle.pd_why.specs.Answers.{TellsWhy};
ghost use Rattle.pd_desk.specs.Reports.{Reports, TellsDiff};

use crate::push_diff;
use pd_device::Output;
use pd_keep::Kept;
use pd_port::Meter;
use pd_report::{contracts, faults, margins};
use pd_run::{Plan, Runner};
use pd_scenario::Scenario;
use pd_why::{Form, Question, why};
use std::alloc::{AllocError, Global};

/// The contracts, faults and margins of a scenario's run.
#[tactic(auto, unfolding(crate::specs::Reports::report_text))]
fn report<const N: usize>(
    alloc: Global,
    scenario: &Scenario<N>,
    meter: &mut Meter,
) -> Result<Vec<u8>, AllocError>
    ensures { IfOk result (λ text. Reports scenario.now text.items) }
{
    let mut runner = Kept::<N>::empty(alloc);
    runner.replace(alloc, scenario, meter)?;
    let mut output = Output {
        writer: Vec::new(alloc),
        failures: 0,
    };
    if contracts(&runner, &mut output).is_err() {
        return Err(AllocError);
    }
    if faults(&runner, &mut output).is_err() {
        return Err(AllocError);
    }
    if margins(&runner, scenario, &mut output).is_err() {
        return Err(AllocError);
    }
    Ok(output.writer)
}

/// What differs between the contracts, faults and margins of two scenarios' runs: the lines that are in the first alone,
/// each behind `-`, and then those that are in the second alone, behind `+`.
///
/// # Errors
/// There is no memory for it.
pub fn run_diff<const N: usize>(
    alloc: Global,
    before: &Scenario<N>,
    now: &Scenario<N>,
    meter: &mut Meter,
) -> Result<Vec<u8>, AllocError>
    ensures { IfOk result (λ text. TellsDiff before.now now.now text.items) }
{
    let earlier = report(alloc, before, meter)?;
    let later = report(alloc, now, meter)?;
    let mut said = Vec::new(alloc);
    push_diff(alloc, &mut said, earlier.as_slice(), later.as_slice())?;
    Ok(said)
}

/// What bounds a port of a scenario.
///
/// # Errors
/// There is no memory for the run.
pub fn why_port<const N: usize>(
    alloc: Global,
    scenario: &Scenario<N>,
    question: &Question,
    meter: &mut Meter,
) -> Result<Vec<u8>, AllocError>
    ensures { IfOk result (λ text. TellsWhy Form.Words (plan_of scenario.now) question.now [] text.items) }
{
    let plan = Plan::of_scenario(alloc, scenario)?;
    let mut said = Vec::new(alloc);
    why(alloc, &plan, question, Form::Words, meter, &mut said)?;
    Ok(said)
}
