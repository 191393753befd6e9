//! Where a file breaks the rule of a refusal.

ghost use Rattle.std.specs.Prelude.{◌≡◌, ◌++◌, ◌+◌, ◌<◌, ◌^◌, OnOk, IfOk, length};
ghost use Rattle.toml.specs.View.{table_view};
ghost use Rattle.pd_scenario_tables.specs.Seen.{views};
ghost use Rattle.pd_scenario_tables.specs.Tables.{tables_at};
ghost use Rattle.pd_scenario_text.specs.FileTables.{tables_of};
ghost use Rattle.pd_misfits.specs.Lines.{table_spot, list_text, events_text, lists_text, tables_text, file_text, top_text};
ghost use Rattle.pd_misfits.specs.Spots.{file_spot};

use crate::event::event_spot;
use crate::spot::{File, Spot};
use crate::table::{Refused, push_table};
use pd_scenario_tables::{Key, ScenarioFault, TableKind, event_at, tables_at, version_at};
use pd_text::{Piece, Unit};
use std::alloc::{AllocError, Global};
use toml::Table;

/// A table of a list, by its place among those of its kind, from 1.
///
/// # Errors
/// There is no memory.
pub fn table_spot<'a>(
    alloc: Global,
    spot: &Spot<'a>,
    word: &'a str,
    number: u64,
) -> Result<Spot<'a>, AllocError>
    ensures { IfOk result (λ own. own ≡ table_spot spot.now word.now number) }
{
    spot.table(
        alloc,
        word,
        number,
        &[
            Piece::Name(word.as_bytes(), b"table", word.as_bytes()),
            Piece::Number(b" ", b"number", Unit::Plain, number),
            Piece::LineWords(b": "),
        ],
    )
}

/// Writes where the tables of a kind break the rule of a refusal.
fn push_list<'a>(
    alloc: Global,
    text: &mut Vec<u8>,
    spot: &Spot<'a>,
    word: &'a str,
    refused: Refused,
    kind: TableKind,
    tables: &[&'a Table],
) -> Result<(), AllocError>
    ensures { OnOk result (text.new.items ≡ text.old.items
        ++ list_text spot.now word.now refused.fault refused.version refused.ports kind 1 (views tables.now)) }
{
    let mut number = 1;
    for table in tables {
        let own = table_spot(alloc, spot, word, number)?;
        push_table(alloc, text, &own, refused, kind, table)?;
        number += 1;
    }
    Ok(())
}

/// Writes where the events break the rule of a refusal.
fn push_events<'a>(
    alloc: Global,
    text: &mut Vec<u8>,
    spot: &Spot<'a>,
    refused: Refused,
    tables: &[&'a Table],
) -> Result<(), AllocError>
    ensures { OnOk result (text.new.items
        ≡ text.old.items ++ events_text spot.now refused.fault refused.version refused.ports 1 (views tables.now)) }
{
    let mut number = 1;
    for table in tables {
        let own = event_spot(alloc, spot, refused.version, number, table)?;
        let kind = TableKind::Event(event_at(refused.version, table));
        push_table(alloc, text, &own, refused, kind, table)?;
        number += 1;
    }
    Ok(())
}

/// The top table of a file, of which a refusal is told.
pub fn file_spot(alloc: Global, file: &File, fault: ScenarioFault) -> Spot<'_>
    ensures { result ≡ file_spot file.now fault }
{
    Spot::of_file(alloc, file, fault)
}

/// Writes where the tables of a list of the file break the rule of a refusal.
fn push_kind<'a>(
    alloc: Global,
    text: &mut Vec<u8>,
    spot: &Spot<'a>,
    refused: Refused,
    list: (&'a str, Key, TableKind),
    top: &'a Table,
) -> Result<(), AllocError>
    ensures { OnOk result (text.new.items ≡ text.old.items
        ++ list_text spot.now list.entry.0.now refused.fault refused.version refused.ports list.entry.2 1
        (tables_at list.entry.1 (table_view top.now))) }
{
    let (word, key, kind) = list;
    let tables = tables_at(alloc, top, key)?;
    push_list(alloc, text, spot, word, refused, kind, &tables)
}

/// Writes where the tables of all lists of the file break the rule of a refusal.
#[tactic(auto, unfolding(crate::specs::Lines::lists_text))]
fn push_lists<'a>(
    alloc: Global,
    text: &mut Vec<u8>,
    spot: &Spot<'a>,
    refused: Refused,
    top: &'a Table,
) -> Result<(), AllocError>
    ensures { OnOk result (text.new.items
        ≡ text.old.items ++ lists_text spot.now refused.fault refused.version refused.ports (tables_of (table_view top.now))) }
{
    let events = tables_at(alloc, top, Key::Event)?;
    let ports = ("port", Key::Port, TableKind::Port);
    let cables = ("cable", Key::Cable, TableKind::Cable);
    let sinks = ("sink", Key::Sink, TableKind::Sink);
    push_kind(alloc, text, spot, refused, ports, top)?;
    push_kind(alloc, text, spot, refused, cables, top)?;
    push_kind(alloc, text, spot, refused, sinks, top)?;
    push_events(alloc, text, spot, refused, &events)
}

/// Writes where the tables of a file of so many ports break the rule of a refusal.
#[tactic(auto, unfolding(crate::specs::Lines::tables_text))]
fn push_tables<'a>(
    alloc: Global,
    text: &mut Vec<u8>,
    spot: &Spot<'a>,
    fault: ScenarioFault,
    ports: u64,
    top: &'a Table,
) -> Result<(), AllocError>
    ensures { OnOk result (text.new.items ≡ text.old.items ++ tables_text spot.now fault ports (tables_of (table_view top.now))) }
{
    let refused = Refused {
        fault,
        version: version_at(top),
        ports,
    };
    push_table(alloc, text, spot, refused, TableKind::Top, top)?;
    push_lists(alloc, text, spot, refused, top)
}

/// A line for each place at which the tables of a scenario file break the rule of a refusal, with what stands there and what
/// is wanted: unknown and missing keys, types, ranges, names, and supplies; none for any other refusal. Each table is told
/// by its place among those of its kind, from 1.
///
/// # Errors
/// There is no memory.
pub fn explain_tables<'a>(
    alloc: Global,
    file: &'a File,
    fault: ScenarioFault,
    top: &'a Table,
) -> Result<Vec<u8>, AllocError>
    ensures { IfOk result (λ v. v.items ≡ file_text file.now fault (tables_of (table_view top.now))) }
{
    let spot = file_spot(alloc, file, fault);
    let ports = tables_at(alloc, top, Key::Port)?;
    let mut text = Vec::new(alloc);
    push_tables(alloc, &mut text, &spot, fault, ports.len() as u64, top)?;
    Ok(text)
}

/// The lines of those places that are in the top table, whose rules need no count of the ports.
///
/// # Errors
/// There is no memory.
pub fn explain_top<'a>(
    alloc: Global,
    file: &'a File,
    fault: ScenarioFault,
    top: &'a Table,
) -> Result<Vec<u8>, AllocError>
    ensures { IfOk result (λ v. v.items ≡ top_text file.now fault (tables_of (table_view top.now))) }
{
    let spot = file_spot(alloc, file, fault);
    let ports = tables_at(alloc, top, Key::Port)?;
    let refused = Refused {
        fault,
        version: version_at(top),
        ports: ports.len() as u64,
    };
    let mut text = Vec::new(alloc);
    push_table(alloc, &mut text, &spot, refused, TableKind::Top, top)?;
    Ok(text)
}
