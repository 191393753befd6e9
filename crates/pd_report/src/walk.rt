//! What the contracts take of the shared budget, from instant to instant.

ghost use Rattle.std.specs.Prelude.{◌≡◌, ◌+◌, ◌-◌, ◌*◌, ◌<◌, ◌≤◌, ◌++◌, ◌^◌, List, ℕ, [], length, sum, take, decimal, codes, replicate};
ghost use Rattle.std.specs.Prelude.{IfSome, unwrap_or};
ghost use Rattle.pd_scenario.specs.Places.{AreInOrder, StandsAt};
ghost use Rattle.pd_report.specs.LeastMargin.{margin_of};
ghost use Rattle.pd_report.specs.Margins.{margin_text, power_left};
ghost use Rattle.pd_report.specs.Walk.{GoesOnTo, KnowsBudget, line_after, noted_walk, standing_of};
ghost use Rattle.pd_scenario.specs.ByTime.{IsByTime};
ghost use Rattle.pd_scenario.specs.Plan.{Plan};
ghost use Rattle.pd_scenario.specs.Plans.{plan_of};

use pd_device::Text;
use pd_port::ContractChange;
use pd_scenario::{BudgetChange, Scenario, budget_at, next_at, passed};

/// The most bytes of a line.
pub(crate) const WIDTH: usize = 160;

/// What stands at the end of an instant, in microwatts: what the contracts take, and the budget.
#[derive(Clone, Copy, PartialEq, Eq)]
pub(crate) struct Standing {
    pub contracts: u128,
    pub budget: u64,
}

/// How far a walk over the entries of a run and the changes of the budget has come: how many entries it has seen, the power
/// of each port's contract after them in microwatts, the instant at which it stands in microseconds, what stood before that,
/// the changes of the budget in their order, how many of them have come, the budget there in microwatts, and when it changes
/// next.
#[derive(Drop)]
pub(crate) struct Walk<'a> {
    pub seen: usize,
    pub powers: [u64; 8],
    pub at: u64,
    pub before: Option<Standing>,
    pub order: &'a [BudgetChange],
    pub place: usize,
    pub budget: u64,
    pub next: Option<u64>,
}

impl<'a> Walk<'a> {
    /// A walk that has seen nothing, at the instant 0.
    pub fn new<const N: usize>(scenario: &Scenario<N>, order: &'a [BudgetChange]) -> Walk<'a>
        requires { IsByTime (plan_of scenario.now).forces order.now }
        ensures seen { result.seen ≡ 0 }
        ensures powers { result.powers ≡ replicate 8 0 }
        ensures at { result.at ≡ 0 }
        ensures before { result.before ≡ None }
        ensures knows { KnowsBudget (plan_of scenario.now) result }
    {
        let place = passed(order, 0, 0);
        Walk {
            seen: 0,
            powers: [0; 8],
            at: 0,
            before: None,
            order,
            place,
            budget: budget_at(order, place, scenario.budget()),
            next: next_at(order, place),
        }
    }

    /// Sees one more entry: its port, and the change of that port's contract.
    pub fn note(&mut self, port: usize, change: Option<ContractChange>)
        requires from_one { 1 ≤ port }
        requires known { port ≤ 8 }
        requires room { self.old.seen < 2 ^ 64 - 1 }
        ensures { self.new ≡ noted_walk self.old port change }
    {
        if let Some(change) = change {
            self.powers[port - 1] = power_of(change);
        }
        self.seen += 1;
    }

    /// What stands at the instant of the walk, once all its entries are seen.
    fn standing(&self) -> Standing
        ensures { result ≡ standing_of self.now }
    {
        Standing {
            contracts: total(&self.powers),
            budget: self.budget,
        }
    }

    /// What the contracts leave of the budget then, in microwatts.
    pub fn margin(&self) -> u64
        ensures { result ≡ margin_of (standing_of self.now) }
    {
        let standing = self.standing();
        u128::from(standing.budget).saturating_sub(standing.contracts) as u64
    }

    /// The line of the instant at which the walk stands, if there is one.
    pub fn line(&self) -> Option<Text<WIDTH>>
        ensures text { unwrap_or result [] ≡ line_after self.now.before self.now.at (standing_of self.now) }
        ensures short { IfSome result (λ line. length line ≤ WIDTH) }
    {
        let standing = self.standing();
        match self.before {
            Some(before) if before == standing => None,
            _ => Some(margin_line(self.at, standing)),
        }
    }

    /// Goes on to a later instant.
    pub fn go_on(&mut self, at: u64)
        requires later { self.old.at < at }
        requires in_order { AreInOrder self.old.order.now }
        requires stands { StandsAt self.old.order.now self.old.place self.old.at }
        ensures { (plan : Plan) → KnowsBudget plan self.old → GoesOnTo plan self.old at self.new }
    {
        self.before = Some(self.standing());
        self.at = at;
        self.place = passed(self.order, self.place, at);
        self.budget = budget_at(self.order, self.place, self.budget);
        self.next = next_at(self.order, self.place);
    }
}

/// The power in microwatts that a change of a contract leaves.
fn power_of(change: ContractChange) -> u64
    ensures { result ≡ power_left change }
{
    match change {
        ContractChange::Made(contract) => u64::from(contract.mv) * u64::from(contract.ma),
        ContractChange::Lost => 0,
    }
}

/// The sum of the powers. So wide a number holds it whatever they are.
fn total(powers: &[u64; 8]) -> u128
    ensures { result ≡ sum powers.now }
{
    let mut total = 0u128;
    for power in powers {
        total += u128::from(*power);
    }
    total
}

/// The line of what stands at the end of an instant.
#[tactic(auto, unfolding(crate::specs::Margins::margin_text))]
fn margin_line(at: u64, standing: Standing) -> Text<WIDTH>
    ensures text { result ≡ margin_text at standing.contracts standing.budget }
    ensures short { length result ≤ WIDTH }
{
    let margin = u128::from(standing.budget).saturating_sub(standing.contracts);
    let mut text = Text::new();
    text.push_right(at);
    text.push_all(b" contracts ");
    text.push_wide(standing.contracts);
    text.push_all(b" margin ");
    text.push_wide(margin);
    text.push_all(b"\n");
    text
}
