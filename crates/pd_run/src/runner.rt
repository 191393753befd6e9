//! What runs scenarios.

ghost use Rattle.std.specs.Prelude.{◌≡◌, ℕ, ◌≤◌, List, [], Option, Some, None, OnOk, OnErr, IfSome, length, slice_get, option_map};
ghost use Rattle.pd_port.specs.declared.entry.Entry.{Entry as EntryData};
ghost use Rattle.pd_scenario.specs.Plan.{Plan};
ghost use Rattle.pd_scenario.specs.Plans.{plan_of};
ghost use Rattle.pd_run.specs.Cost.{Costs, IsPaid};
ghost use Rattle.pd_run.specs.Notes.{IsNextWith};
ghost use Rattle.pd_run.specs.Shown.{Shows, AreEntriesOf};

use crate::{Note, Plan};
use pd_port::{Entry, Meter};
use pd_scenario::Scenario;
use std::alloc::{AllocError, Global};

/// What stands for the run of one scenario of N ports, 1 to 8, or for none.
pub trait Runner<const N: usize> {
    /// The scenario's plan, if there is one.
    ghost plan: { Self → Option Plan };

    /// The port of each move, numbered from 1, and its entry.
    ghost entries: { Self → List (ℕ × EntryData) };

    /// What it costs to go from one plan, or from none, to another.
    ghost costs: { Costs };

    /// A runner that stands for no scenario.
    fn empty(alloc: Global) -> Self
        ensures plan { plan result ≡ None }
        ensures entries { entries result ≡ [] };

    /// Stands for the run of this plan from now on. The meter rises by what that costs, and never falls.
    ///
    /// # Errors
    /// There is no memory. The runner stands for what it stood for; the meter may have risen.
    fn run_plan(
        &mut self,
        alloc: Global,
        next: Plan<N>,
        meter: &mut Meter,
    ) -> Result<(), AllocError>
        ensures plan { OnOk result (plan self.new ≡ Some next.entry) }
        ensures run { OnOk result (Shows next.entry (entries self.new)) }
        ensures same_plan { OnErr result (plan self.new ≡ plan self.old) }
        ensures same_run { OnErr result (entries self.new ≡ entries self.old) }
        ensures paid { OnOk result (IsPaid costs (plan self.old) next.entry meter.old meter.new) }
        ensures rises { meter.old ≤ meter.new };

    /// Stands for this scenario's run from now on. The meter rises by what that costs, and never falls.
    ///
    /// # Errors
    /// There is no memory. The runner stands for what it stood for; the meter may have risen.
    fn replace(
        &mut self,
        alloc: Global,
        scenario: &Scenario<N>,
        meter: &mut Meter,
    ) -> Result<(), AllocError>
        ensures plan { OnOk result (plan self.new ≡ Some (plan_of scenario.now)) }
        ensures run { OnOk result (Shows (plan_of scenario.now) (entries self.new)) }
        ensures same_plan { OnErr result (plan self.new ≡ plan self.old) }
        ensures same_run { OnErr result (entries self.new ≡ entries self.old) }
        ensures paid { OnOk result (IsPaid costs (plan self.old) (plan_of scenario.now) meter.old meter.new) }
        ensures rises { meter.old ≤ meter.new };

    /// The number of moves.
    fn len(&self) -> usize
        ensures count { result ≡ length (entries self.now) }
        ensures run { AreEntriesOf N (plan self.now) (entries self.now) };

    /// The port of a move and its entry, by its place in the run.
    fn entry(&self, i: usize) -> Option<(usize, &Entry)>
        ensures entry { option_map (λ r. (r.0, r.1.now)) result ≡ slice_get (entries self.now) i }
        ensures run { AreEntriesOf N (plan self.now) (entries self.now) };

    /// The first place from one on whose entry leaves such a note, or the number of moves where none does.
    fn next_with(&self, note: Note, from: usize) -> usize
        ensures { IsNextWith note (entries self.now) from result };
}
