//! Lists of events, cables, sinks and settings with one changed.

ghost use Rattle.std.specs.Prelude.{◌≡◌, ◌≤◌, ◌==◌, ℕ, true, not, [], ◌∷◌, ◌++◌, filter, map, bytes_eq, IfOk, if◌then◌else◌};
ghost use Rattle.pd_edit.specs.Edits.{moved_event, changed_event, event_kind_of, without_cable, without_sink, changed_port, with_floor};
ghost use Rattle.pd_edit.specs.Edits.{AreSupplies};
ghost use Rattle.pd_edit.specs.Refusals.{kind_in_range};

use crate::made::{changed_event, event_kind_of, moved_event, with_floor_at, with_supplies_at};
use arrayvec::ArrayVec;
use pd_edit_lines::EditKind;
use pd_objects::Supply;
use pd_scenario::{Name, NamedCable, NamedSink, ScenarioEvent};
use pd_setup::Settings;
use std::alloc::{AllocError, Global};

/// The events and one more.
pub(crate) fn with_event(
    alloc: Global,
    events: &[ScenarioEvent],
    event: ScenarioEvent,
) -> Result<Vec<ScenarioEvent>, AllocError>
    ensures { IfOk result (λ v. v.items ≡ events.now ++ event ∷ []) }
{
    let mut copies: Vec<_> = events.iter().map(|old| old.copy()).collect(alloc)?;
    copies.push(event)?;
    Ok(copies)
}

/// The events without the one of an id.
pub(crate) fn without_event(
    alloc: Global,
    events: &[ScenarioEvent],
    id: u64,
) -> Result<Vec<ScenarioEvent>, AllocError>
    ensures { IfOk result (λ v. v.items ≡ filter (λ e. not (e.id == id)) events.now) }
{
    let others = events.iter().filter(|event| u64::from(event.id) != id);
    others.map(|event| event.copy()).collect(alloc)
}

/// The events with the one of an id at another time, in microseconds.
pub(crate) fn with_time(
    alloc: Global,
    events: &[ScenarioEvent],
    id: u64,
    at: u32,
) -> Result<Vec<ScenarioEvent>, AllocError>
    ensures { IfOk result (λ v. v.items ≡ map (moved_event id at) events.now) }
{
    events
        .iter()
        .map(|event| moved_event(id, at, event))
        .collect(alloc)
}

/// The events with another kind of the one of an id.
pub(crate) fn with_kind(
    alloc: Global,
    events: &[ScenarioEvent],
    id: u64,
    kind: &EditKind,
) -> Result<Vec<ScenarioEvent>, AllocError>
    requires { kind_in_range kind.now ≡ true }
    ensures { IfOk result (λ v. v.items ≡ map (changed_event id (event_kind_of kind.now)) events.now) }
{
    let kind = event_kind_of(kind);
    events
        .iter()
        .map(|event| changed_event(id, &kind, event))
        .collect(alloc)
}

/// The cables and one more.
pub(crate) fn with_new_cable(
    alloc: Global,
    cables: &[NamedCable],
    cable: NamedCable,
) -> Result<Vec<NamedCable>, AllocError>
    ensures { IfOk result (λ v. v.items ≡ cables.now ++ cable ∷ []) }
{
    let mut copies: Vec<_> = cables.iter().map(|old| old.copy()).collect(alloc)?;
    copies.push(cable)?;
    Ok(copies)
}

/// The cables with another in place of the one of its name.
pub(crate) fn with_other_cable(
    alloc: Global,
    cables: &[NamedCable],
    new: &NamedCable,
) -> Result<Vec<NamedCable>, AllocError>
    ensures { IfOk result (λ v. v.items ≡ map (λ old. if bytes_eq old.name new.now.name then new.now else old) cables.now) }
{
    cables
        .iter()
        .map(|old| if old.name.as_str() == new.name.as_str() {
            new.copy()
        } else {
            old.copy()
        })
        .collect(alloc)
}

/// The cables without the one of a name.
pub(crate) fn without_cable(
    alloc: Global,
    cables: &[NamedCable],
    name: &Name,
) -> Result<Vec<NamedCable>, AllocError>
    ensures { IfOk result (λ v. v.items ≡ without_cable name.now cables.now) }
{
    let others = cables
        .iter()
        .filter(|cable| cable.name.as_str() != name.as_str());
    others.map(|cable| cable.copy()).collect(alloc)
}

/// The sinks and one more.
pub(crate) fn with_new_sink(
    alloc: Global,
    sinks: &[NamedSink],
    sink: NamedSink,
) -> Result<Vec<NamedSink>, AllocError>
    ensures { IfOk result (λ v. v.items ≡ sinks.now ++ sink ∷ []) }
{
    let mut copies: Vec<_> = sinks.iter().map(|old| old.copy()).collect(alloc)?;
    copies.push(sink)?;
    Ok(copies)
}

/// The sinks with another in place of the one of its name.
pub(crate) fn with_other_sink(
    alloc: Global,
    sinks: &[NamedSink],
    new: &NamedSink,
) -> Result<Vec<NamedSink>, AllocError>
    ensures { IfOk result (λ v. v.items ≡ map (λ old. if bytes_eq old.name new.now.name then new.now else old) sinks.now) }
{
    sinks
        .iter()
        .map(|old| if old.name.as_str() == new.name.as_str() {
            new.copy()
        } else {
            old.copy()
        })
        .collect(alloc)
}

/// The sinks without the one of a name.
pub(crate) fn without_sink(
    alloc: Global,
    sinks: &[NamedSink],
    name: &Name,
) -> Result<Vec<NamedSink>, AllocError>
    ensures { IfOk result (λ v. v.items ≡ without_sink name.now sinks.now) }
{
    let others = sinks
        .iter()
        .filter(|sink| sink.name.as_str() != name.as_str());
    others.map(|sink| sink.copy()).collect(alloc)
}

/// The settings with another floor of one port, in mW.
pub(crate) fn with_port_floor(
    alloc: Global,
    settings: &[Settings],
    port: u64,
    mw: u32,
) -> Result<Vec<Settings>, AllocError>
    requires least { 500 ≤ mw }
    requires most { mw ≤ 100000 }
    ensures { IfOk result (λ v. v.items ≡ changed_port port (with_floor mw) settings.now) }
{
    let mut copies = Vec::new(alloc);
    for (i, own) in settings.iter().enumerate() {
        copies.push(with_floor_at(i as u64 + 1, port, own, mw))?;
    }
    Ok(copies)
}

/// The settings with other supplies of one port.
pub(crate) fn with_port_supplies(
    alloc: Global,
    settings: &[Settings],
    port: u64,
    supplies: &ArrayVec<Supply, 7>,
) -> Result<Vec<Settings>, AllocError>
    requires { AreSupplies supplies.now.items }
    ensures { IfOk result (λ v. v.items ≡ changed_port port (λ s. record s { supplies = supplies.now.items }) settings.now) }
{
    let mut copies = Vec::new(alloc);
    for (i, own) in settings.iter().enumerate() {
        copies.push(with_supplies_at(i as u64 + 1, port, own, supplies))?;
    }
    Ok(copies)
}
