//! The tables of one kind: whether a refusal applies to one of them, and what they say.

ghost use Rattle.std.specs.Prelude.{◌≡◌, map, IfOk, All};
ghost use Rattle.std.specs.List.{list_all, list_any};
ghost use Rattle.toml.specs.View.{table_view};
ghost use Rattle.pd_scenario_tables.specs.Seen.{views};
ghost use Rattle.pd_scenario_tables.specs.Tables.{fails, event_fails, event_at, IsSound, IsSoundPort};
ghost use Rattle.pd_scenario_tables.specs.Clean.{is_clean, is_clean_event};
ghost use Rattle.pd_scenario_tables.specs.Convert.{settings_of, cable_of, sink_of, event_of};

use pd_scenario::{NamedCable, NamedSink, ScenarioEvent};
use pd_scenario_tables::{
    ScenarioFault, TableKind, Version, cable_of, event_fails, event_of, fails, is_clean,
    is_clean_event, settings_of, sink_of,
};
use pd_setup::Settings;
use std::alloc::{AllocError, Global};
use toml::Table;

/// Whether a refusal applies to one of the tables of a kind.
pub fn some_fails(
    fault: ScenarioFault,
    version: Version,
    ports: u64,
    kind: TableKind,
    tables: &[&Table],
) -> bool
    ensures { result ≡ list_any (fails fault version ports kind) (views tables.now) }
{
    tables
        .iter()
        .any(|table| fails(fault, version, ports, kind, table))
}

/// Whether a refusal applies to one of the events.
pub fn some_event_fails(
    fault: ScenarioFault,
    version: Version,
    ports: u64,
    tables: &[&Table],
) -> bool
    ensures { result ≡ list_any (event_fails fault version ports) (views tables.now) }
{
    tables
        .iter()
        .any(|table| event_fails(fault, version, ports, table))
}

/// Whether none of the refusals up to the names applies to a table of a kind.
pub fn all_clean(version: Version, ports: u64, kind: TableKind, tables: &[&Table]) -> bool
    ensures { result ≡ list_all (is_clean version ports kind) (views tables.now) }
{
    tables
        .iter()
        .all(|table| is_clean(version, ports, kind, table))
}

/// Whether none of the refusals up to the names applies to an event.
pub fn all_clean_events(version: Version, ports: u64, tables: &[&Table]) -> bool
    ensures { result ≡ list_all (is_clean_event version ports) (views tables.now) }
{
    tables
        .iter()
        .all(|table| is_clean_event(version, ports, table))
}

/// What the ports are set to.
///
/// # Errors
/// There is no memory.
pub fn all_settings(alloc: Global, tables: &[&Table]) -> Result<Vec<Settings>, AllocError>
    requires { All (λ t. IsSoundPort (table_view t.now)) tables.now }
    ensures { IfOk result (λ v. v.items ≡ map settings_of (views tables.now)) }
{
    let mut all = Vec::new(alloc);
    for table in tables {
        all.push(settings_of(table))?;
    }
    Ok(all)
}

/// The cables.
///
/// # Errors
/// There is no memory.
pub fn all_cables(alloc: Global, tables: &[&Table]) -> Result<Vec<NamedCable>, AllocError>
    requires { All (λ t. IsSound TableKind.Cable (table_view t.now)) tables.now }
    ensures { IfOk result (λ v. v.items ≡ map cable_of (views tables.now)) }
{
    let mut all = Vec::new(alloc);
    for table in tables {
        all.push(cable_of(table))?;
    }
    Ok(all)
}

/// The sinks.
///
/// # Errors
/// There is no memory.
pub fn all_sinks(alloc: Global, tables: &[&Table]) -> Result<Vec<NamedSink>, AllocError>
    requires { All (λ t. IsSound TableKind.Sink (table_view t.now)) tables.now }
    ensures { IfOk result (λ v. v.items ≡ map sink_of (views tables.now)) }
{
    let mut all = Vec::new(alloc);
    for table in tables {
        all.push(sink_of(table))?;
    }
    Ok(all)
}

/// The events of a file of a version.
///
/// # Errors
/// There is no memory.
pub fn all_events(
    alloc: Global,
    version: Version,
    tables: &[&Table],
) -> Result<Vec<ScenarioEvent>, AllocError>
    requires { All (λ t. IsSound (TableKind.Event (event_at version (table_view t.now))) (table_view t.now)) tables.now }
    ensures { IfOk result (λ v. v.items ≡ map (event_of version) (views tables.now)) }
{
    let mut all = Vec::new(alloc);
    for table in tables {
        all.push(event_of(version, table))?;
    }
    Ok(all)
}
