//! Where an edit breaks the rules of refusals.

ghost use Rattle.std.specs.Prelude.{◌≡◌, ◌++◌, IfOk, OnOk, filter};
ghost use Rattle.std.specs.List.{flat_map};
ghost use Rattle.pd_explain.specs.Places.{causes, is_broken, reasons, reasons_at};

use crate::broken::is_broken;
use crate::places::push_places;
use crate::{Place, Reason};
use pd_edit::REFUSALS;
use pd_edit_lines::{Edit, EditFault};
use pd_scenario::Scenario;
use std::alloc::{AllocError, Global};

/// The places at which the rule is broken.
fn broken<const N: usize>(
    alloc: Global,
    scenario: &Scenario<N>,
    places: Vec<Place>,
) -> Result<Vec<Place>, AllocError>
    ensures { IfOk result (λ v. v.items ≡ filter (is_broken N scenario.now) places.items) }
{
    places
        .into_iter()
        .filter(
            |place| -> bool
                ensures { result ≡ is_broken N scenario.entry.now place.now }
            { is_broken(scenario, place) },
        )
        .collect(alloc)
}

/// The places at which an edit breaks the rule of a refusal: each of them, and nothing else, in the order of the line's
/// words.
fn causes<const N: usize>(
    alloc: Global,
    fault: EditFault,
    scenario: &Scenario<N>,
    edit: &Edit,
) -> Result<Vec<Place>, AllocError>
    ensures { IfOk result (λ v. v.items ≡ causes fault N scenario.now edit.now) }
{
    let mut places = Vec::new(alloc);
    push_places(&mut places, fault, scenario, edit)?;
    broken(alloc, scenario, places)
}

/// Adds a refusal with each of these places.
fn push_reasons(
    reasons: &mut Vec<Reason>,
    fault: EditFault,
    places: Vec<Place>,
) -> Result<(), AllocError>
    ensures { OnOk result (reasons.new.items ≡ reasons.old.items ++ reasons_at fault places.items) }
{
    for place in places {
        reasons.push(Reason { fault, place })?;
    }
    Ok(())
}

/// Adds a refusal with each place at which it applies to an edit.
fn push_causes<const N: usize>(
    alloc: Global,
    reasons: &mut Vec<Reason>,
    fault: EditFault,
    scenario: &Scenario<N>,
    edit: &Edit,
) -> Result<(), AllocError>
    ensures { OnOk result (reasons.new.items ≡ reasons.old.items ++ reasons_at fault (causes fault N scenario.now edit.now)) }
{
    let places = causes(alloc, fault, scenario, edit)?;
    push_reasons(reasons, fault, places)
}

/// Adds each of these refusals with each place at which it applies to an edit.
fn push_all<const N: usize>(
    alloc: Global,
    reasons: &mut Vec<Reason>,
    faults: &[EditFault],
    scenario: &Scenario<N>,
    edit: &Edit,
) -> Result<(), AllocError>
    ensures { OnOk result (reasons.new.items
        ≡ reasons.old.items ++ flat_map (λ fault. reasons_at fault (causes fault N scenario.now edit.now)) faults.now) }
{
    for fault in faults {
        push_causes(alloc, reasons, *fault, scenario, edit)?;
    }
    Ok(())
}

/// Each place at which any refusal applies to an edit, and nothing else: in the order of the refusals' numbers, and of one
/// refusal in the order of the line's words. The first is of the refusal that the edit is answered with.
///
/// # Errors
/// There is no memory.
pub fn reasons<const N: usize>(
    alloc: Global,
    scenario: &Scenario<N>,
    edit: &Edit,
) -> Result<Vec<Reason>, AllocError>
    ensures { IfOk result (λ v. v.items ≡ reasons N scenario.now edit.now) }
{
    let mut reasons = Vec::new(alloc);
    push_all(alloc, &mut reasons, &REFUSALS, scenario, edit)?;
    Ok(reasons)
}
