//! Each place at which the tables of a file break a rule.

ghost use Rattle.std.specs.Prelude.{◌≡◌, ◌≤◌, ◌++◌, OnOk, length};
ghost use Rattle.std.specs.List.{flat_map};
ghost use Rattle.toml.specs.View.{table_view};
ghost use Rattle.pd_scenario_tables.specs.Seen.{views};
ghost use Rattle.pd_scenario_tables.specs.Ports.{counted};
ghost use Rattle.pd_scenario_text.specs.FileTables.{tables_of};
ghost use Rattle.pd_scenario_text.specs.Refusals.{refusals};
ghost use Rattle.pd_misfits.specs.Lines.{file_text};
ghost use Rattle.pd_misfits.specs.Spots.{file_spot};
ghost use Rattle.pd_places.specs.FirstLines.{added};
ghost use Rattle.pd_places.specs.Same.{same_text};
ghost use Rattle.pd_places.specs.Funds.{budgets_text, funds_text};
ghost use Rattle.pd_places.specs.Known.{known_text};
ghost use Rattle.pd_places.specs.Counts.{counts_text};
ghost use Rattle.pd_places.specs.Places.{other_text, refusal_text, places_text};

use crate::collect::{floors_of, ids_of, names_of};
use crate::counts::push_count;
use crate::first_lines::FirstLines;
use crate::funds::{push_events_low, push_low};
use crate::known::push_events_known;
use crate::same::push_same_values;
use pd_misfits::{File, Spot, explain_tables, explain_top, file_spot};
use pd_scenario_tables::{Key, ScenarioFault, counted, number_at, tables_at, version_at};
use std::alloc::{AllocError, Global};
use toml::Table;

/// The refusals whose rules the top table has, and which need no count of the ports.
const TOP_REFUSALS: [ScenarioFault; 4] = [
    ScenarioFault::UnknownKey,
    ScenarioFault::WrongType,
    ScenarioFault::MissingKey,
    ScenarioFault::Range,
];

/// The refusals of tables, the least number first.
const REFUSALS: [ScenarioFault; 10] = [
    ScenarioFault::UnknownKey,
    ScenarioFault::WrongType,
    ScenarioFault::MissingKey,
    ScenarioFault::Range,
    ScenarioFault::Name,
    ScenarioFault::Duplicate,
    ScenarioFault::Supplies,
    ScenarioFault::Floors,
    ScenarioFault::UnknownName,
    ScenarioFault::Limit,
];

/// Writes where names and ids stand twice, up to as many as are told.
#[tactic(auto, unfolding(crate::specs::Same::same_text))]
fn push_duplicates<'a>(
    alloc: Global,
    told: &mut FirstLines,
    spot: &Spot<'a>,
    top: &'a Table,
) -> Result<(), AllocError>
    ensures { OnOk result (told.new ≡ added told.old (same_text spot.now (tables_of (table_view top.now)))) }
{
    let cables = tables_at(alloc, top, Key::Cable)?;
    let cable_names = names_of(alloc, &cables)?;
    let sinks = tables_at(alloc, top, Key::Sink)?;
    let sink_names = names_of(alloc, &sinks)?;
    let events = tables_at(alloc, top, Key::Event)?;
    let ids = ids_of(alloc, &events)?;
    push_same_values(alloc, told, spot, &cable_names, &sink_names, &ids)
}

/// Writes which budgets are too low for the floors of at most eight ports.
#[tactic(auto, unfolding(crate::specs::Funds::budgets_text))]
fn push_budgets<'a>(
    alloc: Global,
    text: &mut Vec<u8>,
    spot: &Spot<'a>,
    ports: &[&Table],
    top: &'a Table,
) -> Result<(), AllocError>
    requires ports { views ports.now ≡ (tables_of (table_view top.now)).ports }
    requires few { length ports.now ≤ 8 }
    ensures { OnOk result (text.new.items ≡ text.old.items ++ budgets_text spot.now (tables_of (table_view top.now))) }
{
    let floors = floors_of(ports);
    let events = tables_at(alloc, top, Key::Event)?;
    let mw = u64::from(number_at(top, Key::Budget));
    push_low(alloc, text, spot, Key::Budget, mw, floors)?;
    push_events_low(alloc, text, spot, version_at(top), floors, &events)
}

/// Writes which budgets are too low, where there are no more ports than there may be.
fn push_funds<'a>(
    alloc: Global,
    text: &mut Vec<u8>,
    spot: &Spot<'a>,
    top: &'a Table,
) -> Result<(), AllocError>
    ensures { OnOk result (text.new.items ≡ text.old.items ++ funds_text spot.now (tables_of (table_view top.now))) }
{
    let ports = tables_at(alloc, top, Key::Port)?;
    if ports.len() > 8 {
        return Ok(());
    }
    push_budgets(alloc, text, spot, &ports, top)
}

/// Writes which names of events no table has, up to as many as are told.
fn push_known<'a>(
    alloc: Global,
    told: &mut FirstLines,
    spot: &Spot<'a>,
    top: &'a Table,
) -> Result<(), AllocError>
    ensures { OnOk result (told.new ≡ added told.old (known_text spot.now (tables_of (table_view top.now)))) }
{
    let cables = tables_at(alloc, top, Key::Cable)?;
    let cable_names = names_of(alloc, &cables)?;
    let sinks = tables_at(alloc, top, Key::Sink)?;
    let sink_names = names_of(alloc, &sinks)?;
    let events = tables_at(alloc, top, Key::Event)?;
    let names = (cable_names.as_slice(), sink_names.as_slice());
    push_events_known(alloc, told, spot, version_at(top), names, &events)
}

/// Writes of which tables there are too many, or too few.
#[tactic(auto, unfolding(crate::specs::Counts::counts_text))]
fn push_counts(
    alloc: Global,
    text: &mut Vec<u8>,
    spot: &Spot<'_>,
    top: &Table,
) -> Result<(), AllocError>
    ensures { OnOk result (text.new.items ≡ text.old.items ++ counts_text spot.now (tables_of (table_view top.now))) }
{
    let ports = tables_at(alloc, top, Key::Port)?;
    let cables = tables_at(alloc, top, Key::Cable)?;
    let sinks = tables_at(alloc, top, Key::Sink)?;
    let events = tables_at(alloc, top, Key::Event)?;
    push_count(alloc, text, spot, "ports", 1, 8, ports.len() as u64)?;
    push_count(alloc, text, spot, "cables", 0, 64, cables.len() as u64)?;
    push_count(alloc, text, spot, "sinks", 0, 64, sinks.len() as u64)?;
    push_count(alloc, text, spot, "events", 0, 4_096, events.len() as u64)
}

/// Writes where a refusal of single tables applies.
fn push_misfits<'a>(
    alloc: Global,
    text: &mut Vec<u8>,
    file: &'a File,
    fault: ScenarioFault,
    top: &'a Table,
) -> Result<(), AllocError>
    ensures { OnOk result (text.new.items ≡ text.old.items ++ file_text file.now fault (tables_of (table_view top.now))) }
{
    let said = explain_tables(alloc, file, fault, top)?;
    text.extend_from_slice(said.as_slice())
}

/// Writes where a refusal applies, up to as many lines as are told.
fn push_refusal<'a>(
    alloc: Global,
    told: &mut FirstLines,
    file: &'a File,
    fault: ScenarioFault,
    top: &'a Table,
) -> Result<(), AllocError>
    ensures { OnOk result (told.new ≡ added told.old (refusal_text file.now fault (tables_of (table_view top.now)))) }
{
    let spot = file_spot(alloc, file, fault);
    let mut text = Vec::new(alloc);
    match fault {
        ScenarioFault::Duplicate => return push_duplicates(alloc, told, &spot, top),
        ScenarioFault::UnknownName => return push_known(alloc, told, &spot, top),
        ScenarioFault::Floors => push_funds(alloc, &mut text, &spot, top)?,
        ScenarioFault::Limit => push_counts(alloc, &mut text, &spot, top)?,
        _ => push_misfits(alloc, &mut text, file, fault, top)?,
    }
    told.add(text.as_slice())
}

/// Writes where each of some refusals applies, up to as many lines as are told.
fn push_refusals<'a>(
    alloc: Global,
    told: &mut FirstLines,
    file: &'a File,
    faults: &[ScenarioFault],
    top: &'a Table,
) -> Result<(), AllocError>
    ensures { OnOk result (told.new
        ≡ added told.old (flat_map (λ refusal. refusal_text file.now refusal (tables_of (table_view top.now))) faults.now)) }
{
    for fault in faults {
        if told.is_full() {
            return Ok(());
        }
        push_refusal(alloc, told, file, *fault, top)?;
    }
    Ok(())
}

/// Writes where another refusal than one that is told already applies in the top table.
#[tactic(auto, unfolding(crate::specs::FirstLines::added))]
fn push_other<'a>(
    alloc: Global,
    told: &mut FirstLines,
    file: &'a File,
    fault: ScenarioFault,
    top: &'a Table,
    other: ScenarioFault,
) -> Result<(), AllocError>
    ensures { OnOk result (told.new ≡ added told.old (other_text file.now fault (tables_of (table_view top.now)) other)) }
{
    if other.number() == fault.number() {
        return Ok(());
    }
    let said = explain_top(alloc, file, other, top)?;
    told.add(said.as_slice())
}

/// Writes where each of some refusals other than one that is told already applies in the top table.
fn push_others<'a>(
    alloc: Global,
    told: &mut FirstLines,
    file: &'a File,
    fault: ScenarioFault,
    top: &'a Table,
    others: &[ScenarioFault],
) -> Result<(), AllocError>
    ensures { OnOk result (told.new
        ≡ added told.old (flat_map (other_text file.now fault (tables_of (table_view top.now))) others.now)) }
{
    for other in others {
        push_other(alloc, told, file, fault, top, *other)?;
    }
    Ok(())
}

/// Writes a line for each place at which the tables of a scenario file break a rule, with what stands there and what is
/// wanted, up to as many as are told: those of the least refusal first, then in the order of the file. Each table is told by its place
/// among those of its kind, from 1. Where the ports can't be counted, that is told first, and of the others what is in the top table.
///
/// # Errors
/// There is no memory; some of the lines may stand there.
pub(crate) fn push_places<'a>(
    alloc: Global,
    told: &mut FirstLines,
    file: &'a File,
    top: &'a Table,
) -> Result<(), AllocError>
    ensures { OnOk result (told.new ≡ added told.old (places_text file.now (table_view top.now))) }
{
    match counted(top) {
        Ok(_) => push_refusals(alloc, told, file, &REFUSALS, top),
        Err(fault) => {
            push_refusal(alloc, told, file, fault, top)?;
            push_others(alloc, told, file, fault, top, &TOP_REFUSALS)
        }
    }
}
