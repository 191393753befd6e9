//! Names and ids that differ, and names that are there.

ghost use Rattle.std.specs.Prelude.{◌≡◌, nat_lt, is_some, IfOk, IfSome};
ghost use Rattle.std.specs.List.{list_all, IsAllAdjacentAnswer};
ghost use Rattle.pd_scenario.specs.Scenarios.{names_differ, ids_differ};
ghost use Rattle.pd_scenario_text.specs.Names.{texts, cable_names, sink_names, has_text, Has, kind_is_in, is_in, name_check};

use pd_scenario::{NamedCable, NamedSink, ScenarioEvent, ScenarioEventKind, ScenarioHappening};
use pd_setup::EventKind;
use std::alloc::{AllocError, Global};
use std::collections::BTreeSet;

fn cable_names<'a>(alloc: Global, cables: &'a [NamedCable]) -> Result<Vec<&'a str>, AllocError>
    ensures { IfOk result (λ v. texts v.items ≡ cable_names cables.now) }
{
    let mut names = Vec::new(alloc);
    for cable in cables {
        names.push(cable.name.as_str())?;
    }
    Ok(names)
}

fn sink_names<'a>(alloc: Global, sinks: &'a [NamedSink]) -> Result<Vec<&'a str>, AllocError>
    ensures { IfOk result (λ v. texts v.items ≡ sink_names sinks.now) }
{
    let mut names = Vec::new(alloc);
    for sink in sinks {
        names.push(sink.name.as_str())?;
    }
    Ok(names)
}

/// The names in a set, or nothing where two are the same.
fn set_of<'a>(alloc: Global, names: &[&'a str]) -> Result<Option<BTreeSet<&'a str>>, AllocError>
    ensures differ { IfOk result (λ set. is_some set ≡ names_differ (texts names.now)) }
    ensures members { IfOk result (λ set. IfSome set (Has (texts names.now))) }
{
    let mut seen = BTreeSet::new(alloc);
    for name in names {
        let is_new = seen.insert(*name)?;
        if !is_new {
            return Ok(None);
        }
    }
    Ok(Some(seen))
}

/// Whether each event's id is less than the next one's.
fn ids_rise(events: &[ScenarioEvent]) -> bool
    ensures { IsAllAdjacentAnswer (λ a b less. less ≡ nat_lt a.id b.id) events.now result }
{
    events.is_sorted_by(
        |event, next| -> bool
            ensures { result ≡ nat_lt event.now.id next.now.id }
        { event.id < next.id },
    )
}

/// Whether no two events have one id. Where the ids rise, that is known without a set.
fn ids_differ(alloc: Global, events: &[ScenarioEvent]) -> Result<bool, AllocError>
    ensures { IfOk result (λ differ. differ ≡ ids_differ events.now) }
{
    if ids_rise(events) {
        return Ok(true);
    }
    let mut seen = BTreeSet::new(alloc);
    for event in events {
        let is_new = seen.insert(event.id)?;
        if !is_new {
            return Ok(false);
        }
    }
    Ok(true)
}

fn has_text(set: &BTreeSet<&str>, name: &str) -> bool
    ensures { result ≡ has_text set.now name.now }
{
    set.contains(name)
}

fn kind_is_in(cables: &BTreeSet<&str>, sinks: &BTreeSet<&str>, kind: &ScenarioEventKind) -> bool
    ensures { result ≡ kind_is_in cables.now sinks.now kind.now }
{
    match kind {
        EventKind::Attach { cable, sink } => {
            has_text(cables, cable.as_str()) && has_text(sinks, sink.as_str())
        }
        _ => true,
    }
}

fn is_in(cables: &BTreeSet<&str>, sinks: &BTreeSet<&str>, happening: &ScenarioHappening) -> bool
    ensures { result ≡ is_in cables.now sinks.now happening.now }
{
    match happening {
        ScenarioHappening::OnPort { kind, .. } => kind_is_in(cables, sinks, kind),
        ScenarioHappening::Budget { .. } => true,
    }
}

fn all_are_in(cables: &BTreeSet<&str>, sinks: &BTreeSet<&str>, events: &[ScenarioEvent]) -> bool
    ensures { result ≡ list_all (λ e. is_in cables.now sinks.now e.happening) events.now }
{
    events
        .iter()
        .all(|event| is_in(cables, sinks, &event.happening))
}

/// Whether all names that events give are there, or nothing where two names or two ids are the same.
///
/// # Errors
/// There is no memory.
pub fn check_names(
    alloc: Global,
    cables: &[NamedCable],
    sinks: &[NamedSink],
    events: &[ScenarioEvent],
) -> Result<Option<bool>, AllocError>
    ensures { IfOk result (λ known. known ≡ name_check cables.now sinks.now events.now) }
{
    let cable_names = cable_names(alloc, cables)?;
    let sink_names = sink_names(alloc, sinks)?;
    let Some(cables) = set_of(alloc, &cable_names)? else {
        return Ok(None);
    };
    let Some(sinks) = set_of(alloc, &sink_names)? else {
        return Ok(None);
    };
    if !ids_differ(alloc, events)? {
        return Ok(None);
    }
    Ok(Some(all_are_in(&cables, &sinks, events)))
}
