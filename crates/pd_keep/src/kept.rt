//! The runner that keeps its moves.

ghost use Rattle.std.specs.Prelude.{◌≡◌, ℕ, ◌≤◌, List, [], Option, Some, None, IfOk, OnOk, OnErr, IsTrue, IsFalse, map, length, slice_get};
ghost use Rattle.std.specs.Prelude.{option_map};
ghost use Rattle.pd_scenario.specs.Plans.{plan_of};
ghost use Rattle.pd_run.specs.Cost.{IsPaid};
ghost use Rattle.pd_run.specs.Shown.{Shows, SafeRun, IsShown};
ghost use Rattle.pd_run.specs.Run.{shown};
ghost use Rattle.pd_keep.specs.Cost.{CostsFreshMoves};
ghost use Rattle.pd_keep.specs.Fresh.{IsCharged};
ghost use Rattle.pd_keep.specs.Running.{running, Keeps};
ghost use Rattle.pd_keep.specs.Spans.{IsKept, moves_of};

use crate::rerun::rerun;
use crate::spans::Spans;
use crate::spare::Spare;
use pd_port::{Entry, Meter};
use pd_run::{Note, Plan, Runner};
use pd_scenario::Scenario;
use std::alloc::{AllocError, Global};
use std::marker::Model;
use std::mem;

/// What is kept of a run: its plan, and in spans its moves with the ports before and after them.
#[derive(Drop)]
pub struct KeptRun<const N: usize> {
    plan: Plan<N>,
    spans: Spans,
}

/// A runner that keeps its run. Where a scenario is replaced by another, the spans and the moves that the old run has too are
/// taken from it, and the meter rises by the others alone.
#[derive(Drop)]
pub struct Kept<const N: usize> {
    run: Option<KeptRun<N>>,
    spare: Spare,
}

impl<const N: usize> Model for Kept<N> {
    ghost use Rattle.pd_keep.specs.Running.{running, Keeps};
    ghost use Rattle.pd_keep.specs.Fresh.{Running};

    ghost Value = { Running };

    ghost view = { λ k. running N k.run };

    ghost invariant = { λ k. Keeps N k.run };
}

impl<const N: usize> Runner<N> for Kept<N> {
    ghost plan = { λ r. r.plan };

    ghost entries = { λ r. map shown r.moves };

    ghost costs = { CostsFreshMoves };

    fn empty(alloc: Global) -> Kept<N> {
        Kept {
            run: None,
            spare: Spare::new(alloc),
        }
    }

    fn run_plan(
        &mut self,
        alloc: Global,
        next: Plan<N>,
        meter: &mut Meter,
    ) -> Result<(), AllocError>
        ensures plan { OnOk result (self.new.plan ≡ Some next.entry) }
        ensures moves { OnOk result (SafeRun next.entry self.new.moves) }
        ensures cost { OnOk result (IsCharged self.old next.entry self.new.moves meter.old meter.new) }
        ensures paid { OnOk result (IsPaid CostsFreshMoves self.old.plan next.entry meter.old meter.new) }
        ensures same { OnErr result (self.new ≡ self.old) }
        ensures run { OnOk result (Shows next.entry (map shown self.new.moves)) }
        ensures same_plan { OnErr result (self.new.plan ≡ self.old.plan) }
        ensures same_run { OnErr result (map shown self.new.moves ≡ map shown self.old.moves) }
        ensures rises { meter.old ≤ meter.new }
    {
        let spans = spans_of(alloc, &self.run, &next, &mut self.spare, meter)?;
        let old = mem::replace(&mut self.run, Some(KeptRun { plan: next, spans }));
        let_go(old, &mut self.spare);
        Ok(())
    }

    fn replace(
        &mut self,
        alloc: Global,
        scenario: &Scenario<N>,
        meter: &mut Meter,
    ) -> Result<(), AllocError>
        ensures plan { OnOk result (self.new.plan ≡ Some (plan_of scenario.now)) }
        ensures moves { OnOk result (SafeRun (plan_of scenario.now) self.new.moves) }
        ensures cost { OnOk result (IsCharged self.old (plan_of scenario.now) self.new.moves meter.old meter.new) }
        ensures paid { OnOk result (IsPaid CostsFreshMoves self.old.plan (plan_of scenario.now) meter.old meter.new) }
        ensures same { OnErr result (self.new ≡ self.old) }
        ensures run { OnOk result (Shows (plan_of scenario.now) (map shown self.new.moves)) }
        ensures same_plan { OnErr result (self.new.plan ≡ self.old.plan) }
        ensures same_run { OnErr result (map shown self.new.moves ≡ map shown self.old.moves) }
        ensures rises { meter.old ≤ meter.new }
    {
        let plan = Plan::of_scenario(alloc, scenario)?;
        self.run_plan(alloc, plan, meter)
    }

    fn len(&self) -> usize {
        match &self.run {
            Some(run) => run.spans.len(),
            None => 0,
        }
    }

    fn entry(&self, i: usize) -> Option<(usize, &Entry)> {
        let run = self.run.as_ref()?;
        run.spans.entry(i)
    }

    fn next_with(&self, note: Note, from: usize) -> usize {
        match &self.run {
            Some(run) => run.spans.next_with(note, from),
            None => 0,
        }
    }
}

// Lets an old run go. Its room is spare, where the run that is kept now doesn't have it.
fn let_go<const N: usize>(old: Option<KeptRun<N>>, spare: &mut Spare) {
    if let Some(old) = old {
        old.spans.take_back(spare);
    }
}

// The run of a plan, beside what is kept of another.
fn spans_of<const N: usize>(
    alloc: Global,
    run: &Option<KeptRun<N>>,
    plan: &Plan<N>,
    spare: &mut Spare,
    meter: &mut Meter,
) -> Result<Spans, AllocError>
    requires { Keeps N run.now }
    ensures kept { IfOk result (λ spans. IsKept N plan.now spans) }
    ensures charge { IfOk result (λ spans. IsCharged (running N run.now) plan.now (moves_of spans) meter.old meter.new) }
    ensures rises { meter.old ≤ meter.new }
{
    match run {
        Some(old) => rerun(alloc, &old.plan, &old.spans, plan, spare, meter),
        None => {
            let none = Spans::new(alloc, Vec::new(alloc));
            rerun(alloc, plan, &none, plan, spare, meter)
        }
    }
}
