//! Who holds how much of the budget.

ghost use Rattle.std.specs.Prelude.{◌≡◌, ◌↔◌, ℕ, ◌+◌, ◌-◌, ◌<◌, ◌≤◌, ◌^◌, max, length, sum, slice_index, slice_set, All, IsTrue, nat_le};
ghost use Rattle.pd_ledger.specs.Account.{Account, free_of, total_with};
ghost use Rattle.pd_ledger.specs.Offer.{answer_of};

use crate::offer::{offer, offers};
use pd_objects::{Answer, Query};
use std::marker::Model;

/// The budget of N ports, 1 to 8, and the floor and the hold of each, in microwatts.
///
/// No floor is below 500,000, no hold is below its port's floor, and the floors add to at most the budget.
/// Ports are numbered from 1.
#[derive(Drop)]
pub struct Ledger<const N: usize> {
    budget: u64,
    floors: [u64; 8],
    holds: [u64; 8],
    // Eight holds add to more than a `u64` holds.
    total: u128,
}

impl<const N: usize> Model for Ledger<N> {
    ghost use Rattle.std.specs.Prelude.{take};
    ghost use Rattle.pd_ledger.specs.Account.{Account, IsLedger};

    ghost Value = { Account };

    ghost view = { λ l. record { budget = l.budget; floors = take N l.floors; holds = take N l.holds } };

    ghost invariant = { λ l. IsLedger N l.budget (take N l.floors) (take N l.holds) l.total };
}

impl<const N: usize> Ledger<N> {
    /// A ledger of 1 to 8 ports for this budget and these floors, in microwatts; each port holds its floor.
    pub fn new(budget: u64, floors: &[u64]) -> Ledger<N>
        requires some { 1 ≤ N }
        requires few { N ≤ 8 }
        requires count { length floors.now ≡ N }
        requires least { All (λ floor. 500000 ≤ floor) floors.now }
        requires funded { sum floors.now ≤ budget }
        ensures { result ≡ record { budget = budget; floors = floors.now; holds = floors.now } }
    {
        Ledger::with_holds(budget, floors, floors)
    }

    /// A ledger of 1 to 8 ports for this budget, these floors and these holds, in microwatts. Together the ports may hold more
    /// than the budget.
    pub fn with_holds(budget: u64, floors: &[u64], holds: &[u64]) -> Ledger<N>
        requires some { 1 ≤ N }
        requires few { N ≤ 8 }
        requires count { length floors.now ≡ N }
        requires held_count { length holds.now ≡ N }
        requires least { All (λ floor. 500000 ≤ floor) floors.now }
        requires floored { (p : ℕ) → p < N → slice_index floors.now p ≤ slice_index holds.now p }
        requires funded { sum floors.now ≤ budget }
        ensures { result ≡ record { budget = budget; floors = floors.now; holds = holds.now } }
    {
        let mut kept = [0; 8];
        kept[..N].copy_from_slice(floors);
        let mut held = [0; 8];
        held[..N].copy_from_slice(holds);
        Ledger {
            budget,
            floors: kept,
            holds: held,
            total: total(holds),
        }
    }

    /// The budget less the other ports' holds, and at least the port's floor.
    pub fn free(&self, port: usize) -> u64
        requires first { 1 ≤ port }
        requires last { port ≤ N }
        ensures free { result ≡ free_of self.now (port - 1) }
        ensures least { 500000 ≤ result }
    {
        let others = self.total - u128::from(self.holds[port - 1]);
        let left = u128::from(self.budget).saturating_sub(others) as u64;
        left.max(self.floors[port - 1])
    }

    /// What a port is answered: the current of each supply that it asks for, whether a power is free, or whether its hold
    /// may stay.
    pub fn answer(&self, port: usize, query: &Query) -> Answer
        requires first { 1 ≤ port }
        requires last { port ≤ N }
        ensures { result ≡ answer_of self.now (port - 1) query.now }
    {
        match query {
            Query::Offer { supplies, limit_ma } => {
                Answer::Offer(offer(self.free(port), *limit_ma, supplies))
            }
            Query::Fits { power } => Answer::Fits(*power <= self.free(port)),
            Query::Keep { power } => Answer::Fits(self.stays(port, *power)),
        }
    }

    /// Whether this is what a port is answered; told without making the answer.
    pub fn answers(&self, port: usize, query: &Query, answer: &Answer) -> bool
        requires first { 1 ≤ port }
        requires last { port ≤ N }
        ensures { IsTrue result ↔ (answer.now ≡ answer_of self.now (port - 1) query.now) }
    {
        match (query, answer) {
            (Query::Offer { supplies, limit_ma }, Answer::Offer(currents)) => {
                offers(self.free(port), *limit_ma, supplies, currents)
            }
            (Query::Fits { power }, Answer::Fits(fits)) => *fits == (*power <= self.free(port)),
            (Query::Keep { power }, Answer::Fits(fits)) => *fits == self.stays(port, *power),
            _ => false,
        }
    }

    /// From now on the port holds this much, in microwatts: no more than is free to it, or than it held.
    pub fn set_hold(&mut self, port: usize, hold: u64)
        requires first { 1 ≤ port }
        requires last { port ≤ N }
        requires least { slice_index self.old.floors (port - 1) ≤ hold }
        requires most { hold ≤ max (free_of self.old (port - 1)) (slice_index self.old.holds (port - 1)) }
        ensures { self.new ≡ record self.old { holds = slice_set self.old.holds (port - 1) hold } }
    {
        self.total = self.total - u128::from(self.holds[port - 1]) + u128::from(hold);
        self.holds[port - 1] = hold;
    }

    /// From now on the ports share this budget, in microwatts. What they hold stays, and may be more.
    pub fn set_budget(&mut self, budget: u64)
        requires { sum self.old.floors ≤ budget }
        ensures { self.new ≡ record self.old { budget = budget } }
    {
        self.budget = budget;
    }

    /// Whether so much power of a port, the lower ports' holds and the higher ports' floors fit the budget.
    fn stays(&self, port: usize, power: u64) -> bool
        requires first { 1 ≤ port }
        requires last { port ≤ N }
        ensures { result ≡ nat_le (total_with self.now (port - 1) power) self.now.budget }
    {
        let lower = total(&self.holds[..port - 1]);
        let higher = total(&self.floors[port..N]);
        u128::from(power) + (lower + higher) <= u128::from(self.budget)
    }
}

/// What these powers add to.
fn total(powers: &[u64]) -> u128
    requires { sum powers.now < 2 ^ 67 }
    ensures { result ≡ sum powers.now }
{
    powers.iter().map(|power| u128::from(*power)).sum()
}
