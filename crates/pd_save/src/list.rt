//! A scenario as lines.

ghost use Rattle.std.specs.Prelude.{◌≡◌, ◌++◌, OnOk, IfOk};
ghost use Rattle.std.specs.List.Sorted.{IsPermutation};
ghost use Rattle.pd_save.specs.EditLines.{IsInOrder, Lists};

use crate::edit_lines::{push_cables, push_events, push_ports, push_sinks, push_top};
use pd_scenario::{Scenario, ScenarioEvent};
use std::alloc::{AllocError, Global};

fn copied(alloc: Global, events: &[ScenarioEvent]) -> Result<Vec<ScenarioEvent>, AllocError>
    ensures { IfOk result (λ v. v.items ≡ events.now) }
{
    let mut copies = Vec::new(alloc);
    for event in events {
        copies.push(event.copy())?;
    }
    Ok(copies)
}

/// The events in the order of time, and at one time of their ids.
fn in_order(alloc: Global, events: &[ScenarioEvent]) -> Result<Vec<ScenarioEvent>, AllocError>
    ensures same { IfOk result (λ v. IsPermutation events.now v.items) }
    ensures order { IfOk result (λ v. IsInOrder v.items) }
{
    let mut order = copied(alloc, events)?;
    order.sort_by_key(|event| (event.at, event.id))?;
    Ok(order)
}

/// A scenario as the lines of an edit script: its end, its budget, floors and supplies by port, cables, sinks, and the
/// events in the order of time. How often a cable is asked and whether a port's power is unconstrained, which no line sets,
/// are told in comments.
///
/// # Errors
/// There is no memory.
#[tactic(auto, unfolding(crate::specs::EditLines::list_text))]
pub fn list_scenario<const N: usize>(
    alloc: Global,
    scenario: &Scenario<N>,
) -> Result<Vec<u8>, AllocError>
    ensures { IfOk result (λ v. Lists scenario.now v.items) }
{
    let order = in_order(alloc, scenario.events())?;
    let mut text = Vec::new(alloc);
    push_top(&mut text, scenario)?;
    push_ports(&mut text, 1, scenario.ports())?;
    push_cables(&mut text, scenario.cables())?;
    push_sinks(&mut text, scenario.sinks())?;
    push_events(&mut text, order.as_slice())?;
    Ok(text)
}
