//! The runner that runs each plan from its start.

ghost use Rattle.std.specs.Prelude.{◌≡◌, ℕ, ◌+◌, ◌≤◌, ◌∷◌, ◌++◌, List, [], IfOk, OnOk, OnErr, map, length, Some};
ghost use Rattle.pd_port.specs.Meter.{raised};
ghost use Rattle.pd_scenario.specs.Plans.{plan_of};
ghost use Rattle.pd_run.specs.Cost.{IsPaid, CostsAllMoves};
ghost use Rattle.pd_run.specs.Shown.{Shows, IsShown};

use crate::{Live, Note, Plan, Runner};
use pd_port::{Entry, Meter};
use pd_scenario::Scenario;
use std::alloc::{AllocError, Global};
use std::marker::Model;

/// A runner that runs each plan from its start.
#[derive(Drop)]
pub struct Plain<const N: usize> {
    plan: Option<Plan<N>>,
    entries: Vec<(usize, Entry)>,
}

impl<const N: usize> Model for Plain<N> {
    ghost use Rattle.pd_run.specs.Shown.{Shown, AreEntriesOf};

    ghost Value = { Shown };

    ghost view = { λ r. record { plan = r.plan; entries = r.entries.items } };

    ghost invariant = { λ r. AreEntriesOf N r.plan r.entries.items };
}

impl<const N: usize> Runner<N> for Plain<N> {
    ghost plan = { λ r. r.plan };

    ghost entries = { λ r. r.entries };

    ghost costs = { CostsAllMoves };

    fn empty(alloc: Global) -> Plain<N> {
        Plain {
            plan: None,
            entries: Vec::new(alloc),
        }
    }

    fn run_plan(
        &mut self,
        alloc: Global,
        next: Plan<N>,
        meter: &mut Meter,
    ) -> Result<(), AllocError>
        ensures plan { OnOk result (self.new.plan ≡ Some next.entry) }
        ensures run { OnOk result (Shows next.entry self.new.entries) }
        ensures same_plan { OnErr result (self.new.plan ≡ self.old.plan) }
        ensures same_run { OnErr result (self.new.entries ≡ self.old.entries) }
        ensures rises { meter.old ≤ meter.new }
        ensures cost { OnOk result (meter.new ≡ raised meter.old (length self.new.entries)) }
        ensures paid { OnOk result (IsPaid CostsAllMoves self.old.plan next.entry meter.old meter.new) }
    {
        let entries = run(alloc, &next, meter)?;
        let _end = next.end();
        self.entries = entries;
        self.plan = Some(next);
        Ok(())
    }

    fn replace(
        &mut self,
        alloc: Global,
        scenario: &Scenario<N>,
        meter: &mut Meter,
    ) -> Result<(), AllocError>
        ensures plan { OnOk result (self.new.plan ≡ Some (plan_of scenario.now)) }
        ensures run { OnOk result (Shows (plan_of scenario.now) self.new.entries) }
        ensures same_plan { OnErr result (self.new.plan ≡ self.old.plan) }
        ensures same_run { OnErr result (self.new.entries ≡ self.old.entries) }
        ensures rises { meter.old ≤ meter.new }
        ensures cost { OnOk result (meter.new ≡ raised meter.old (length self.new.entries)) }
        ensures paid { OnOk result (IsPaid CostsAllMoves self.old.plan (plan_of scenario.now) meter.old meter.new) }
    {
        let plan = Plan::of_scenario(alloc, scenario)?;
        self.run_plan(alloc, plan, meter)
    }

    fn len(&self) -> usize {
        let _plan = &self.plan;
        self.entries.len()
    }

    fn entry(&self, i: usize) -> Option<(usize, &Entry)> {
        let (port, entry) = self.entries.get(i)?;
        Some((*port, entry))
    }

    fn next_with(&self, note: Note, from: usize) -> usize {
        let mut at = from.min(self.entries.len());
        while let Some((port, entry)) = self.entries.get(at) {
            if note.is_left_by(*port, entry) {
                return at;
            }
            at += 1;
        }
        at
    }
}

// Runs a plan from its start: its ports and entries in turn, with a step of the meter for each.
fn run<const N: usize>(
    alloc: Global,
    plan: &Plan<N>,
    meter: &mut Meter,
) -> Result<Vec<(usize, Entry)>, AllocError>
    ensures run { IfOk result (λ entries. Shows plan.now entries.items) }
    ensures cost { IfOk result (λ entries. meter.new ≡ raised meter.old (length entries.items)) }
    ensures rises { meter.old ≤ meter.new }
{
    let _count = meter.count();
    let mut live = Live::new(alloc, plan)?;
    let mut entries = Vec::new(alloc);
    while let Some((port, due)) = live.next(plan) {
        let answer = live.reply(plan, port, &due);
        let entry = live.step(alloc, plan, port, &due, answer, meter)?;
        entries.push((port, entry))?;
    }
    Ok(entries)
}
