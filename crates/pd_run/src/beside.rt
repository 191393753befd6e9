//! Two plans beside one another.

ghost use Rattle.std.specs.Prelude.{◌≡◌, ℕ, ◌+◌, ◌-◌, ◌<◌, ◌≤◌, ◌⊎◌, ◌↔◌, IfOk, IsTrue, All, false, length};
ghost use Rattle.std.specs.Prelude.{slice_index, slice_index_or, slice_set};
ghost use Rattle.pd_scenario.specs.Plan.{IsPlan, script_of, force};
ghost use Rattle.pd_run.specs.UpTo.{AgreeAs, had_by, events_in};
ghost use Rattle.pd_run.specs.Beside.{AreBeside, HasCounts, IsApart};

use crate::Plan;
use crate::had::{events_from, had_by};
use pd_scenario::BudgetChange;
use pd_setup::Event;
use std::alloc::{AllocError, Global};
use std::marker::Model;

/// How far two plans ask the same from one time to another: not at all, the same events of each port until the same end, or also the
/// same of the shared budget.
#[derive(Clone, Copy)]
pub enum Agreement {
    Not,
    Scripts,
    Both,
}

/// Two plans of N ports beside one another, gone through from time to time: how many events of each port's script have been.
#[derive(Drop)]
pub struct Beside<const N: usize> {
    at: u64,
    // Most edits leave the budget as it is at all times.
    same_budget: bool,
    // And the scripts of most ports, whose events need not be counted.
    same_scripts: Vec<bool>,
    old_had: Vec<usize>,
    new_had: Vec<usize>,
}

impl<const N: usize> Model for Beside<N> {
    ghost use Rattle.pd_run.specs.Beside.{BesideData, HasCounts};

    ghost Value = { BesideData };

    ghost view = { λ b. record {
      at = b.at;
      same_budget = b.same_budget;
      same_scripts = b.same_scripts.items;
      old_had = b.old_had.items;
      new_had = b.new_had.items;
    } };

    ghost invariant = { λ b. HasCounts N (record {
      at = b.at;
      same_budget = b.same_budget;
      same_scripts = b.same_scripts.items;
      old_had = b.old_had.items;
      new_had = b.new_had.items;
    }) };
}

impl<const N: usize> Beside<N> {
    /// Both plans at the start.
    ///
    /// # Errors
    /// There is no memory.
    pub fn new(alloc: Global, old: &Plan<N>, plan: &Plan<N>) -> Result<Beside<N>, AllocError>
        ensures are { IfOk result (λ beside. AreBeside old.now plan.now beside) }
        ensures at { IfOk result (λ beside. beside.at ≡ 0) }
    {
        Ok(Beside {
            at: 0,
            same_budget: have_same_budget(old, plan),
            same_scripts: same_scripts(alloc, old, plan)?,
            old_had: vec![in alloc; 0; N]?,
            new_had: vec![in alloc; 0; N]?,
        })
    }

    /// Goes on to a time. How far both plans ask the same until then.
    pub fn advance(&mut self, old: &Plan<N>, plan: &Plan<N>, to: u64) -> Agreement
        requires are { AreBeside old.now plan.now self.old }
        requires later { self.old.at ≤ to }
        ensures agree { AgreeAs result old.now plan.now self.old.at to }
        ensures are { AreBeside old.now plan.now self.new }
        ensures at { self.new.at ≡ to }
    {
        let budget_alike = self.budget_alike(old, plan, to);
        let events_alike = self.pass_all(old, plan, to);
        let ends_alike = end_alike(old, plan, to);
        self.at = to;
        match (events_alike && ends_alike, budget_alike) {
            (true, true) => Agreement::Both,
            (true, false) => Agreement::Scripts,
            (false, _) => Agreement::Not,
        }
    }

    // Whether both plans have the same budget at each instant until a time.
    fn budget_alike(&self, old: &Plan<N>, plan: &Plan<N>, to: u64) -> bool
        requires { AreBeside old.now plan.now self.now }
        ensures { IsTrue result ↔ ((t : ℕ) → self.now.at ≤ t → t < to → force old.now t ≡ force plan.now t) }
    {
        self.same_budget || same_forces(old, plan, self.at, to)
    }

    // The counts of each port go on to a time. Whether each has the same events until then in both plans.
    fn pass_all(&mut self, old: &Plan<N>, plan: &Plan<N>, to: u64) -> bool
        requires are { AreBeside old.now plan.now self.old }
        requires later { self.old.at ≤ to }
        ensures same { IsTrue result ↔ ((p : ℕ) → p < N
            → events_in self.old.at to (script_of old.now p) ≡ events_in self.old.at to (script_of plan.now p)) }
        ensures old_had { (p : ℕ) → p < N → IsApart self.new p → slice_index self.new.old_had p ≡ had_by to (script_of old.now p) }
        ensures new_had { (p : ℕ) → p < N → IsApart self.new p → slice_index self.new.new_had p ≡ had_by to (script_of plan.now p) }
        ensures same_budget { self.new.same_budget ≡ self.old.same_budget }
        ensures same_scripts { self.new.same_scripts ≡ self.old.same_scripts }
        ensures old_plan { IsPlan N old.now }
        ensures new_plan { IsPlan N plan.now }
    {
        let _ends = (old.end(), plan.end());
        let mut all = true;
        for port in 0..N {
            let same = self.same_scripts[port] || self.pass(old, plan, port, to);
            all = all && same;
        }
        all
    }

    // The same for one port, the ports being numbered from 0 here.
    fn pass(&mut self, old: &Plan<N>, plan: &Plan<N>, port: usize, to: u64) -> bool
        requires known { port < N }
        requires later { self.old.at ≤ to }
        requires old_had { slice_index self.old.old_had port ≡ had_by self.old.at (script_of old.now port) }
        requires new_had { slice_index self.old.new_had port ≡ had_by self.old.at (script_of plan.now port) }
        ensures same { IsTrue result
            ↔ (events_in self.old.at to (script_of old.now port) ≡ events_in self.old.at to (script_of plan.now port)) }
        ensures counts { HasCounts N self.old }
        ensures passed { self.new ≡ record self.old {
          old_had = slice_set self.old.old_had port (had_by to (script_of old.now port));
          new_had = slice_set self.old.new_had port (had_by to (script_of plan.now port));
        } }
    {
        let old_from = self.old_had[port];
        let new_from = self.new_had[port];
        let old_to = had_by(old, port + 1, old_from, to);
        let new_to = had_by(plan, port + 1, new_from, to);
        self.old_had[port] = old_to;
        self.new_had[port] = new_to;
        let old_events = events_from(old, port + 1, old_from, old_to);
        let new_events = events_from(plan, port + 1, new_from, new_to);
        same_events(old_events, new_events)
    }
}

// Of each port whether both plans have the same script.
fn same_scripts<const N: usize>(
    alloc: Global,
    old: &Plan<N>,
    plan: &Plan<N>,
) -> Result<Vec<bool>, AllocError>
    ensures count { IfOk result (λ same. length same.items ≡ N) }
    ensures same { IfOk result (λ same. (p : ℕ) → p < N → IsTrue (slice_index_or same.items p false)
        ↔ (script_of old.now p ≡ script_of plan.now p)) }
{
    let mut same = Vec::new(alloc);
    for port in 0..N {
        same.push(same_events(old.script(port + 1), plan.script(port + 1)))?;
    }
    Ok(same)
}

// Whether both are the same events.
pub(crate) fn same_events(events: &[Event], others: &[Event]) -> bool
    ensures { IsTrue result ↔ (events.now ≡ others.now) }
{
    match (events, others) {
        ([], []) => true,
        ([event, events @ ..], [other, others @ ..]) => {
            event.same(other) && same_events(events, others)
        }
        _ => false,
    }
}

// Whether the budget and its changes are the same.
fn have_same_budget<const N: usize>(old: &Plan<N>, plan: &Plan<N>) -> bool
    ensures same { IsTrue result → (t : ℕ) → force old.now t ≡ force plan.now t }
    ensures old_plan { IsPlan N old.now }
    ensures new_plan { IsPlan N plan.now }
{
    old.budget() == plan.budget() && same_changes(old.forces(), plan.forces())
}

// Whether both are the same changes in the same order.
pub(crate) fn same_changes(changes: &[BudgetChange], others: &[BudgetChange]) -> bool
    ensures { IsTrue result ↔ (changes.now ≡ others.now) }
{
    match (changes, others) {
        ([], []) => true,
        ([change, changes @ ..], [other, others @ ..]) => {
            is_same_change(change, other) && same_changes(changes, others)
        }
        _ => false,
    }
}

fn is_same_change(change: &BudgetChange, other: &BudgetChange) -> bool
    ensures { IsTrue result ↔ (change.now ≡ other.now) }
{
    change.id == other.id && change.at == other.at && change.budget == other.budget
}

// Whether both plans have the same budget at each instant from one time to another.
fn same_forces<const N: usize>(old: &Plan<N>, plan: &Plan<N>, from: u64, to: u64) -> bool
    ensures { IsTrue result ↔ ((t : ℕ) → from ≤ t → t < to → force old.now t ≡ force plan.now t) }
{
    if to <= from {
        return true;
    }
    if old.force(from) != plan.force(from) {
        return false;
    }
    let same_at_old = same_at(old.forces(), old, plan, from, to);
    let same_at_new = same_at(plan.forces(), old, plan, from, to);
    same_at_old && same_at_new
}

// Whether both plans have the same budget at each of these changes that is between two times.
fn same_at<const N: usize>(
    changes: &[BudgetChange],
    old: &Plan<N>,
    plan: &Plan<N>,
    from: u64,
    to: u64,
) -> bool
    ensures { IsTrue result
        ↔ All (λ change. from ≤ change.at → change.at < to → force old.now change.at ≡ force plan.now change.at) changes.now }
{
    for change in changes {
        if !is_same_at(change, old, plan, from, to) {
            return false;
        }
    }
    true
}

// Whether both plans have the same budget at a change, where it is between two times.
fn is_same_at<const N: usize>(
    change: &BudgetChange,
    old: &Plan<N>,
    plan: &Plan<N>,
    from: u64,
    to: u64,
) -> bool
    ensures { IsTrue result
        ↔ (from ≤ change.now.at → change.now.at < to → force old.now change.now.at ≡ force plan.now change.now.at) }
{
    change.at < from || to <= change.at || old.force(change.at) == plan.force(change.at)
}

// Whether both plans end together, or neither before a time.
fn end_alike<const N: usize>(old: &Plan<N>, plan: &Plan<N>, to: u64) -> bool
    ensures { IsTrue result ↔ ((old.now.end ≡ plan.now.end) ⊎ ((to ≤ old.now.end) × (to ≤ plan.now.end))) }
{
    old.end() == plan.end() || to <= old.end() && to <= plan.end()
}
