//! What losing packets leads to.

ghost use Rattle.std.specs.Prelude.{◌≡◌, ◌<◌, ◌≤◌, IfErr, IfOk, MatchOption, OnOk, Some, length, nat_lt, reverse, slice_get, take};
ghost use Rattle.pd_run.specs.Shown.{Shows};
ghost use Rattle.pd_device.specs.declared.fault.BenchFault.TheVariants.{Memory as no_memory};
ghost use Rattle.pd_scenario.specs.Plans.{plan_of};
ghost use Rattle.pd_sweep.specs.Sets.{AreOfRun, are_any, members};
ghost use Rattle.pd_sweep.specs.Trials.{AreAhead, AreBefore, IsBaseOf, IsNext, IsRunOf, IsTrial, StandsFor, goes_on, plan_with};

use crate::base::Base;
use crate::effect::Effect;
use crate::hit::are_hit;
use crate::sets::{further, losing, wait};
use crate::{Campaign, Packets};
use pd_device::BenchFault;
use pd_port::Meter;
use pd_run::{Plan, Runner};
use pd_scenario::Scenario;
use std::alloc::{AllocError, Global};

/// What comes of losing packets.
#[derive(Clone, Copy, Debug)]
pub enum Outcome {
    /// The run in which they are lost, beside the one in which none is.
    Ran(Effect),
    /// An event doesn't hit its packet.
    Missed,
    /// The last packet is disturbed already.
    Disturbed,
}

/// Packets, and what comes of losing them in one run.
#[derive(Clone, Copy, Debug)]
pub struct Trial {
    pub packets: Packets,
    pub outcome: Outcome,
}

/// Whether the entry at an index is before a time.
fn is_before<const N: usize, T: Runner<N>>(run: &T, index: usize, at: u64) -> bool
    requires { index < length (T.entries run.now) }
    ensures { MatchOption (slice_get (T.entries run.now) index) ⊥ (λ move. result ≡ nat_lt move.1.at at) }
{
    match run.entry(index) {
        Some((_, entry)) => entry.at < at,
        None => false,
    }
}

/// The place half way from one to another.
fn half_way(low: usize, high: usize) -> usize
    requires { low < high }
    ensures from { low ≤ result }
    ensures below { result < high }
{
    low + (high - low) / 2
}

/// The place of the first entry that isn't before a time, by halves.
pub(crate) fn place_at<const N: usize, T: Runner<N>>(run: &T, at: u64) -> usize
    ensures within { result ≤ length (T.entries run.now) }
    ensures before { AreBefore at (take result (T.entries run.now)) }
{
    let mut low = 0;
    let mut high = run.len();
    while low < high {
        let middle = half_way(low, high);
        if is_before(run, middle, at) {
            low = middle + 1;
        } else {
            high = middle;
        }
    }
    low
}

impl Trial {
    /// Whether one packet more may be lost.
    fn goes_on(&self, campaign: &Campaign) -> bool
        ensures { result ≡ goes_on campaign.now self.now }
    {
        matches!(self.outcome, Outcome::Ran(_)) && self.packets.count() < campaign.any.min(3)
    }
}

/// The sets that a trial leads to wait before the others, where the runner stands for its run.
pub(crate) fn go_on<const N: usize, T: Runner<N>>(
    alloc: Global,
    waiting: &mut Vec<Packets>,
    run: &T,
    scenario: &Scenario<N>,
    campaign: &Campaign,
    trial: &Trial,
) -> Result<(), BenchFault>
    requires known { AreOfRun N trial.now.packets }
    requires stands { StandsFor scenario.now campaign.now trial.now (T.entries run.now) }
    ensures value { OnOk result (AreAhead N scenario.now campaign.now trial.now (reverse waiting.old.items) (reverse waiting.new.items)) }
    ensures memory { IfErr result (λ fault. fault ≡ no_memory) }
{
    if !trial.goes_on(campaign) {
        return Ok(());
    }
    let Ok(sets) = further(alloc, run, campaign, &trial.packets) else {
        return Err(BenchFault::Memory);
    };
    match wait(waiting, sets) {
        Ok(()) => Ok(()),
        Err(_) => Err(BenchFault::Memory),
    }
}

/// The next of the sets that wait, where one more may be tried.
pub(crate) fn next_of(waiting: &mut Vec<Packets>, left: u64) -> Option<Packets>
    ensures { IsNext left (reverse waiting.old.items) (reverse waiting.new.items) result }
{
    if left == 0 {
        return None;
    }
    waiting.pop()
}

/// Whether sets wait.
pub(crate) fn are_any(waiting: &[Packets]) -> bool
    ensures { result ≡ are_any (reverse waiting.now) }
{
    !waiting.is_empty()
}

/// Runs the plan in which packets are lost.
fn run_where_lost<const N: usize, T: Runner<N>>(
    alloc: Global,
    run: &mut T,
    scenario: &Scenario<N>,
    plan: &Plan<N>,
    campaign: &Campaign,
    packets: &Packets,
    meter: &mut Meter,
) -> Result<(), AllocError>
    requires plan { plan.now ≡ plan_of scenario.now }
    requires known { AreOfRun N packets.now }
    ensures plan { OnOk result (T.plan run.new ≡ Some (plan_with scenario.now campaign.now packets.now)) }
    ensures run { OnOk result (Shows (plan_with scenario.now campaign.now packets.now) (T.entries run.new)) }
{
    // Read for the prover alone: that a scenario has few events.
    let _events = scenario.events();
    let changed = losing(alloc, plan, campaign, packets)?;
    run.run_plan(alloc, changed, meter)
}

/// What comes of losing packets of which the last isn't disturbed already.
fn outcome_of<const N: usize, T: Runner<N>>(
    alloc: Global,
    run: &mut T,
    scenario: &Scenario<N>,
    plan: &Plan<N>,
    base: &Base,
    campaign: &Campaign,
    packets: &Packets,
    meter: &mut Meter,
) -> Result<Outcome, AllocError>
    requires base { IsBaseOf scenario.now base.now }
    requires plan { plan.now ≡ plan_of scenario.now }
    requires known { AreOfRun N packets.now }
    ensures value { IfOk result (λ outcome. IsRunOf scenario.now (plan_with scenario.now campaign.now packets.now)
        (members packets.now) outcome) }
    ensures run { OnOk result (Shows (plan_with scenario.now campaign.now packets.now) (T.entries run.new)) }
{
    run_where_lost(alloc, run, scenario, plan, campaign, packets, meter)?;
    if !are_hit(alloc, scenario, campaign, packets, run)? {
        return Ok(Outcome::Missed);
    }
    let effect = Effect::of(alloc, run, scenario, base, scenario.end_time())?;
    Ok(Outcome::Ran(effect))
}

/// Loses packets of the run of a scenario, of which the plan and the base are kept. The runner, which may stand for any run, stands for
/// the one in which they are lost from then on, where there is one.
///
/// # Errors
/// `Memory`: there is none.
pub(crate) fn try_packets<const N: usize, T: Runner<N>>(
    alloc: Global,
    run: &mut T,
    scenario: &Scenario<N>,
    plan: &Plan<N>,
    base: &Base,
    campaign: &Campaign,
    packets: Packets,
    meter: &mut Meter,
) -> Result<Trial, BenchFault>
    requires base { IsBaseOf scenario.now base.now }
    requires plan { plan.now ≡ plan_of scenario.now }
    requires known { AreOfRun N packets }
    ensures packets { IfOk result (λ trial. trial.packets ≡ packets) }
    ensures value { IfOk result (λ trial. IsTrial N scenario.now campaign.now trial) }
    ensures stands { IfOk result (λ trial. StandsFor scenario.now campaign.now trial (T.entries run.new)) }
    ensures memory { IfErr result (λ fault. fault ≡ no_memory) }
{
    if packets.last().disturbed {
        return Ok(Trial {
            packets,
            outcome: Outcome::Disturbed,
        });
    }
    match outcome_of(alloc, run, scenario, plan, base, campaign, &packets, meter) {
        Ok(outcome) => Ok(Trial { packets, outcome }),
        Err(_) => Err(BenchFault::Memory),
    }
}
