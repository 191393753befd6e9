//! The steps of the curves.

ghost use Rattle.std.specs.Prelude.{◌≡◌, ◌≤◌, ◌∷◌, ◌*◌, [], ◌-◌, IfOk, OnOk, length, replicate, slice_index, sum, take};
ghost use Rattle.pd_chart.specs.Chart.{value_of};
ghost use Rattle.pd_chart.specs.Curves.{changes_hold, curves_after, curves_start, floor_on, floors, greatest, has_level, held};
ghost use Rattle.pd_chart.specs.Curves.{level_of, margin, tightest, with_level};
ghost use Rattle.pd_port.specs.Happens.{is_budget};
ghost use Rattle.pd_report.specs.Margins.{power_left};
ghost use Rattle.pd_report.specs.Walk.{noted};
ghost use Rattle.pd_scenario.specs.Plan.{force};

use crate::Frame;
use pd_port::{ContractChange, What};
use pd_run::Plan;
use pd_setup::Happening;
use pd_show::Seen;
use std::alloc::{AllocError, Global};
use std::marker::Model;

/// A step: from when on, in microseconds, the budget, the power of each port's contract, and what each port holds of the budget, in
/// microwatts.
#[derive(Clone, Copy, Debug, Drop)]
pub struct Level {
    pub at: u32,
    pub budget: u64,
    pub powers: [u64; 8],
    pub holds: [u64; 8],
}

/// A curve: the budget, what the contracts of the first ports take of it, or what a port, numbered from 1, holds of it, upon the
/// contracts of those before it.
#[derive(Clone, Copy, Debug)]
pub enum Curve {
    Budget,
    Contracts(usize),
    Holds(usize),
}

/// The powers of the ports' contracts, what the ports hold, the time of the last step, and the steps.
#[derive(Drop)]
pub struct Curves {
    powers: [u64; 8],
    holds: [u64; 8],
    at: u32,
    levels: Vec<Level>,
}

impl Model for Curves {
    ghost use Rattle.pd_chart.specs.Curves.{CurvesData};

    ghost Value = { CurvesData };

    ghost view = { λ c. record { powers = c.powers; holds = c.holds; at = c.at; levels = c.levels.items } };
}

/// The power that a change of a contract leaves, in microwatts.
fn power_of(change: ContractChange) -> u64
    ensures { result ≡ power_left change }
{
    match change {
        ContractChange::Made(contract) => u64::from(contract.mv) * u64::from(contract.ma),
        ContractChange::Lost => 0,
    }
}

/// The powers after a change on a port.
fn noted(powers: [u64; 8], port: usize, change: Option<ContractChange>) -> [u64; 8]
    requires from_one { 1 ≤ port }
    requires known { port ≤ 8 }
    ensures { result ≡ noted powers port change }
{
    let mut powers = powers;
    if let Some(change) = change {
        powers[port - 1] = power_of(change);
    }
    powers
}

/// The holds after a move.
fn held(holds: [u64; 8], seen: &Seen) -> [u64; 8]
    requires from_one { 1 ≤ seen.now.port }
    requires known { seen.now.port ≤ 8 }
    ensures { result ≡ held holds seen.now }
{
    let mut holds = holds;
    holds[seen.port - 1] = seen.after.hold;
    holds
}

/// The floor of a port, in microwatts; 0 where there is no such port.
#[tactic(auto, using(std::proofs::lemmas::List::get_or_past))]
fn floor_on<const N: usize>(plan: &Plan<N>, port: usize) -> u64
    requires { 1 ≤ port }
    ensures { result ≡ floor_on plan.now port }
{
    // It tells how many ports there are.
    let _end = plan.end();
    if N < port {
        return 0;
    }
    u64::from(plan.settings(port).floor_mw()) * 1_000
}

/// The floors of eight ports.
fn floors<const N: usize>(plan: &Plan<N>) -> [u64; 8]
    ensures { result ≡ floors plan.now }
{
    [
        floor_on(plan, 1),
        floor_on(plan, 2),
        floor_on(plan, 3),
        floor_on(plan, 4),
        floor_on(plan, 5),
        floor_on(plan, 6),
        floor_on(plan, 7),
        floor_on(plan, 8),
    ]
}

/// Whether the budget changes.
fn tells_budget(what: &What) -> bool
    ensures { result ≡ is_budget what.now }
{
    match what {
        What::Event(event) => matches!(event.happening(), Happening::Budget),
        _ => false,
    }
}

/// Whether the port holds another power after the move.
fn changes_hold(seen: &Seen) -> bool
    ensures { result ≡ changes_hold seen.now }
{
    seen.before.hold != seen.after.hold
}

/// Whether a move is a step: a contract, a hold or the budget changes, and the window isn't over.
fn has_level(frame: Frame, seen: &Seen) -> bool
    ensures { result ≡ has_level frame seen.now }
{
    seen.entry.at <= u64::from(frame.to)
        && (seen.entry.contract.is_some()
            || changes_hold(seen)
            || tells_budget(&seen.entry.due.what))
}

impl Curves {
    /// No contract, and each port's floor, from the start of the window on.
    ///
    /// # Errors
    /// There is no memory.
    #[tactic(auto, unfolding(crate::specs::Curves::curves_start))]
    pub fn new<const N: usize>(
        alloc: Global,
        frame: Frame,
        plan: &Plan<N>,
    ) -> Result<Curves, AllocError>
        ensures { IfOk result (λ c. c ≡ curves_start frame plan.now) }
    {
        let holds = floors(plan);
        let mut levels = Vec::new(alloc);
        levels.push(Level {
            at: frame.from,
            budget: plan.force(u64::from(frame.from)),
            powers: [0; 8],
            holds,
        })?;
        Ok(Curves {
            powers: [0; 8],
            holds,
            at: frame.from,
            levels,
        })
    }

    /// One more step; of those of one instant the last one stands.
    fn push_level(&mut self, level: Level) -> Result<(), AllocError>
        ensures { OnOk result (self.new ≡ with_level self.old level) }
    {
        let count = self.levels.len();
        let kept = if self.at == level.at {
            count.saturating_sub(1)
        } else {
            count
        };
        self.levels.truncate(kept);
        self.levels.push(level)?;
        let powers = level.powers;
        let holds = level.holds;
        self.powers = powers;
        self.holds = holds;
        self.at = level.at;
        Ok(())
    }

    /// The curves after one more move.
    ///
    /// # Errors
    /// There is no memory.
    #[tactic(auto, unfolding(crate::specs::Curves::curves_after))]
    pub fn see(&mut self, frame: Frame, seen: &Seen) -> Result<(), AllocError>
        requires from_one { 1 ≤ seen.now.port }
        requires known { seen.now.port ≤ 8 }
        ensures { OnOk result (self.new ≡ curves_after frame self.old seen.now) }
    {
        let powers = noted(self.powers, seen.port, seen.entry.contract);
        let holds = held(self.holds, seen);
        if !has_level(frame, seen) {
            self.powers = powers;
            self.holds = holds;
            return Ok(());
        }
        let at = (seen.entry.at as u32).max(frame.from);
        self.push_level(Level {
            at,
            budget: seen.budget,
            powers,
            holds,
        })
    }

    /// The steps.
    pub fn levels(&self) -> &[Level]
        ensures { result.now ≡ self.now.levels }
    {
        self.levels.as_slice()
    }
}

/// The sum of powers. So wide a number holds it whatever they are.
fn total(powers: &[u64]) -> u128
    requires { length powers.now ≤ 8 }
    ensures value { result ≡ sum powers.now }
    ensures fits { result ≤ 8 * 18446744073709551616 }
{
    let mut total = 0u128;
    for power in powers {
        total += u128::from(*power);
    }
    total
}

impl Level {
    /// What it leaves of the budget, in microwatts.
    pub(crate) fn margin(&self) -> u64
        ensures { result ≡ margin self.now }
    {
        u128::from(self.budget).saturating_sub(total(&self.powers)) as u64
    }

    /// What the contracts take of the budget, in microwatts.
    pub(crate) fn taken(&self) -> u128
        ensures { result ≡ sum self.now.powers }
    {
        total(&self.powers)
    }

    /// What the contracts of the ports before one take of the budget, in microwatts.
    fn upon(&self, port: usize) -> u128
        ensures value { result ≡ sum (take (port - 1) self.now.powers) }
        ensures fits { result ≤ 8 * 18446744073709551616 }
    {
        total(&self.powers[..port.saturating_sub(1).min(8)])
    }

    /// What a port holds of the budget, in microwatts; nothing where there is no such port.
    fn hold(&self, port: usize) -> u128
        ensures value { result ≡ slice_index self.now.holds (port - 1) }
        ensures fits { result ≤ 18446744073709551615 }
    {
        match self.holds.get(port.saturating_sub(1)) {
            Some(hold) => u128::from(*hold),
            None => 0,
        }
    }

    /// The value of a curve.
    pub(crate) fn value(&self, curve: Curve) -> u128
        ensures { result ≡ value_of curve self.now }
    {
        match curve {
            Curve::Budget => u128::from(self.budget),
            Curve::Contracts(count) => total(&self.powers[..count.min(8)]),
            Curve::Holds(port) => self.upon(port) + self.hold(port),
        }
    }
}

/// The step that leaves the least, the first of those that leave as much.
pub(crate) fn tightest(first: Level, levels: &[Level]) -> Level
    ensures { result ≡ tightest first levels.now }
{
    let mut least = first;
    for level in levels {
        if level.margin() < least.margin() {
            least = *level;
        }
    }
    least
}

/// The greatest budget.
pub(crate) fn greatest(levels: &[Level]) -> u64
    ensures { result ≡ greatest levels.now }
{
    let mut top = 0;
    for level in levels {
        top = level.budget.max(top);
    }
    top
}
