//! Where over a time less is left of the budget than is wanted.

ghost use Rattle.std.specs.Prelude.{◌≡◌, ◌≤◌, IfOk, map};
ghost use Rattle.pd_scenario.specs.Plan.{Plan};
ghost use Rattle.pd_scenario.specs.Plans.{plan_of};
ghost use Rattle.pd_scenario.specs.declared.budget.BudgetChange.{BudgetChange as ChangeData};
ghost use Rattle.pd_report.specs.LeastMargin.{margin_at};
ghost use Rattle.pd_report.specs.Margins.{contracts_at, power_on, up_to};
ghost use Rattle.pd_expect.specs.Low.{IsFirstLow, IsFirstOf, IsLeastOf, StaysTo, lesser_of, sooner, soonest_with};
ghost use Rattle.pd_expect.specs.OverTime.{IsSoonest};

use crate::contract::contract_at;
use crate::near::{Sign, nearest};
use pd_report::Margin;
use pd_run::Runner;
use pd_scenario::{BudgetChange, Scenario};
use std::alloc::{AllocError, Global};

/// Where over a time too little is left of the budget, in microseconds.
#[derive(Clone, Copy, Debug)]
pub struct Low {
    /// The first instant at whose end it is too little.
    pub at: u64,
    /// The first one after it at whose end it is enough again, if there is one.
    pub until: Option<u64>,
    /// The least of all that time, and when first.
    pub least: Margin,
}

/// The power of a port's contract at the end of an instant, in microwatts.
fn power_at<const N: usize, T: Runner<N>>(run: &T, port: u64, at: u64) -> u64
    ensures { result ≡ power_on (up_to at (T.entries run.now)) port }
{
    match contract_at(run, port, at) {
        None => 0,
        Some(contract) => u64::from(contract.mv) * u64::from(contract.ma),
    }
}

/// What the contracts of all ports take at the end of an instant, in microwatts. So wide a number holds it whatever they are.
fn contracts_at<const N: usize, T: Runner<N>>(run: &T, at: u64) -> u128
    ensures { result ≡ contracts_at (T.entries run.now) at }
{
    let mut total = 0u128;
    for port in 0..8u64 {
        total += u128::from(power_at(run, port + 1, at));
    }
    total
}

/// What they leave of the budget then, in microwatts.
fn margin_at<const N: usize, T: Runner<N>>(run: &T, scenario: &Scenario<N>, at: u64) -> u64
    ensures { result ≡ margin_at (plan_of scenario.now) (T.entries run.now) at }
{
    u128::from(scenario.force(at)).saturating_sub(contracts_at(run, at)) as u64
}

/// The sooner of two times, of which either may be none.
fn sooner(first: Option<u64>, second: Option<u64>) -> Option<u64>
    ensures { result ≡ sooner first second }
{
    match (first, second) {
        (Some(first), Some(second)) => Some(first.min(second)),
        (Some(first), None) => Some(first),
        (None, second) => second,
    }
}

/// The soonest time after an instant, of one time more.
fn soonest_with(at: u64, soonest: Option<u64>, time: u64) -> Option<u64>
    ensures { result ≡ soonest_with at soonest time }
{
    if at < time {
        sooner(soonest, Some(time))
    } else {
        soonest
    }
}

/// The soonest change of the budget after an instant.
fn next_budget(changes: &[BudgetChange], at: u64) -> Option<u64>
    ensures { IsSoonest (map (λ (c : ChangeData). c.at) changes.now) at result }
{
    let mut soonest = None;
    for change in changes {
        soonest = soonest_with(at, soonest, change.at);
    }
    soonest
}

/// The next instant at which the margin may be another.
fn next_margin<const N: usize, T: Runner<N>>(
    run: &T,
    changes: &[BudgetChange],
    at: u64,
) -> Option<u64>
    ensures { (plan : Plan) → plan.forces ≡ changes.now → StaysTo plan (T.entries run.now) at result }
{
    sooner(
        nearest(run, &Sign::AnyChange, 0, at).after,
        next_budget(changes, at),
    )
}

/// The first instant from one to another at whose end it is enough, or isn't, if there is one.
fn first_of<const N: usize, T: Runner<N>>(
    run: &T,
    scenario: &Scenario<N>,
    changes: &[BudgetChange],
    wanted: u64,
    enough: bool,
    from: u64,
    to: u64,
) -> Option<u64>
    requires { (plan_of scenario.now).forces ≡ changes.now }
    ensures { IsFirstOf (plan_of scenario.now) (T.entries run.now) wanted enough from to result }
{
    let mut at = from;
    while at <= to {
        let is_enough = wanted <= margin_at(run, scenario, at);
        if is_enough == enough {
            return Some(at);
        }
        match next_margin(run, changes, at) {
            Some(next) => at = next,
            None => return None,
        }
    }
    None
}

/// The lesser of two margins, and the first where both are the same.
fn lesser(least: Margin, other: Margin) -> Margin
    ensures { result ≡ lesser_of least other }
{
    if other.left < least.left {
        other
    } else {
        least
    }
}

/// The least that is left from one instant to another, and the first of these at which it is.
fn least_of<const N: usize, T: Runner<N>>(
    run: &T,
    scenario: &Scenario<N>,
    changes: &[BudgetChange],
    from: u64,
    to: u64,
) -> Margin
    requires changes { (plan_of scenario.now).forces ≡ changes.now }
    requires some { from ≤ to }
    ensures { IsLeastOf (plan_of scenario.now) (T.entries run.now) from to result }
{
    let mut at = from;
    let mut least = Margin {
        at,
        left: margin_at(run, scenario, at),
    };
    while at <= to {
        let left = margin_at(run, scenario, at);
        least = lesser(least, Margin { at, left });
        match next_margin(run, changes, at) {
            Some(next) => at = next,
            None => return least,
        }
    }
    least
}

/// Where from one instant to another too little is left of the budget, if it is.
///
/// # Errors
/// There is no memory.
pub(crate) fn first_low<const N: usize, T: Runner<N>>(
    alloc: Global,
    run: &T,
    scenario: &Scenario<N>,
    wanted: u64,
    from: u64,
    to: u64,
) -> Result<Option<Low>, AllocError>
    ensures { IfOk result (λ low. IsFirstLow (plan_of scenario.now) (T.entries run.now) wanted from to low) }
{
    let forces = scenario.forces(alloc)?;
    let changes = forces.as_slice();
    let Some(at) = first_of(run, scenario, changes, wanted, false, from, to) else {
        return Ok(None);
    };
    let end = scenario.end_time();
    let until = first_of(run, scenario, changes, wanted, true, at, end);
    let least = least_of(run, scenario, changes, from, to);
    Ok(Some(Low { at, until, least }))
}
