//! What a scenario is warned of.

ghost use Rattle.std.specs.Prelude.{◌≡◌, ◌++◌, OnOk, IfOk};
ghost use Rattle.pd_warn.specs.Stated.{stated};
ghost use Rattle.pd_warn.specs.Warnings.{AreWarnings};

use crate::Warning;
use crate::names::{push_cables, push_late_events, push_sinks};
use crate::plain::push_uncounted;
use crate::run::push_run;
use crate::shares::{greatest_budget, push_shares};
use pd_port::Meter;
use pd_run::Plan;
use pd_scenario::Scenario;
use std::alloc::{AllocError, Global};

/// Warns of what a scenario says.
#[tactic(auto, unfolding(crate::specs::Stated::stated))]
fn push_stated<const N: usize>(
    out: &mut Vec<Warning>,
    scenario: &Scenario<N>,
) -> Result<(), AllocError>
    ensures { OnOk result (out.new.items ≡ out.old.items ++ stated scenario.now) }
{
    push_late_events(out, scenario.end_us(), scenario.events())?;
    push_cables(out, scenario.events(), scenario.cables())?;
    push_sinks(out, scenario.events(), scenario.sinks())?;
    let greatest = greatest_budget(scenario.budget_mw(), scenario.end_us(), scenario.events());
    push_shares(out, greatest, scenario.ports())?;
    push_uncounted(out, scenario, scenario.events())
}

/// What a scenario has that is accepted and surely not meant. First what it says: events after the end in the order of their
/// making, cables and then sinks that no event attaches, ports with too little of the budget, and sinks without Power Delivery that
/// want more than the floor of their port. Then what comes of its run, in the order of time: events that are ignored, and disturbances
/// that meet no packet.
///
/// # Errors
/// There is no memory.
pub fn warnings<const N: usize>(
    alloc: Global,
    scenario: &Scenario<N>,
    meter: &mut Meter,
) -> Result<Vec<Warning>, AllocError>
    ensures { IfOk result (λ ws. AreWarnings N scenario.now ws.items) }
{
    let plan = Plan::of_scenario(alloc, scenario)?;
    let mut out = Vec::new(alloc);
    push_stated(&mut out, scenario)?;
    push_run(alloc, &mut out, &plan, meter)?;
    Ok(out)
}
