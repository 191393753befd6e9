//! The changes of the shared budget, and the last one at a time, for whoever asks for many times.

ghost use Rattle.std.specs.Prelude.{◌≡◌, List, IfOk};
ghost use Rattle.pd_scenario.specs.Plan.{last_change};
ghost use Rattle.pd_scenario.specs.Plans.{plan_of};

use crate::{BudgetChange, Scenario};
use std::alloc::{AllocError, Global};
use std::marker::Model;

/// Changes of the shared budget, in the order of their making and again in that of their times, which finds one without going
/// over them all.
#[derive(Drop)]
pub struct Changes {
    made: Vec<BudgetChange>,
    by_time: Vec<BudgetChange>,
}

impl Model for Changes {
    ghost use Rattle.std.specs.Prelude.{List};
    ghost use Rattle.pd_scenario.specs.declared.budget.BudgetChange.{BudgetChange as ChangeData};
    ghost use Rattle.pd_scenario.specs.ByTime.{IsByTime};

    ghost Value = { List ChangeData };

    ghost view = { λ c. c.made.items };

    ghost invariant = { λ c. IsByTime c.made.items c.by_time.items };
}

impl Changes {
    /// The changes that a scenario makes.
    ///
    /// # Errors
    /// There is no memory.
    pub fn of_scenario<const N: usize>(
        alloc: Global,
        scenario: &Scenario<N>,
    ) -> Result<Changes, AllocError>
        ensures { IfOk result (λ changes. changes ≡ (plan_of scenario.now).forces) }
    {
        // What a valid scenario keeps: its ids differ.
        let _events = scenario.events();
        let made = scenario.forces(alloc)?;
        let mut by_time = scenario.forces(alloc)?;
        by_time.sort_unstable_by_key(|change| (change.at, change.id));
        Ok(Changes { made, by_time })
    }

    /// The same changes.
    ///
    /// # Errors
    /// There is no memory.
    pub fn copy(&self, alloc: Global) -> Result<Changes, AllocError>
        ensures { IfOk result (λ changes. changes ≡ self.now) }
    {
        let mut made = Vec::new(alloc);
        made.extend_from_slice(&self.made)?;
        let mut by_time = Vec::new(alloc);
        by_time.extend_from_slice(&self.by_time)?;
        Ok(Changes { made, by_time })
    }

    /// The changes in the order of their making.
    pub fn as_slice(&self) -> &[BudgetChange]
        ensures { result.now ≡ self.now }
    {
        self.made.as_slice()
    }

    /// The last change at or before a time: by time, and at one time by id.
    pub fn last_by(&self, at: u64) -> Option<BudgetChange>
        ensures { result ≡ last_change self.now at }
    {
        let count = self.by_time.partition_point(|change| change.at <= at);
        if count == 0 {
            None
        } else {
            Some(self.by_time[count - 1])
        }
    }
}
