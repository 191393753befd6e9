//! Refusal 9: budgets below what the floors add to.

ghost use Rattle.std.specs.Prelude.{◌≡◌, ◌++◌, OnOk};
ghost use Rattle.toml.specs.View.{table_view};
ghost use Rattle.pd_scenario_tables.specs.Seen.{views};
ghost use Rattle.pd_misfits.specs.Lines.{line};
ghost use Rattle.pd_places.specs.Numbered.{numbered};
ghost use Rattle.pd_places.specs.Funds.{low_sentence, low_part, event_low_part};

use pd_misfits::{Spot, event_spot, push_number, push_quoted};
use pd_scenario_tables::{EventName, Key, Version, event_at, number_at};
use std::alloc::{AllocError, Global};
use toml::Table;

/// Writes a budget, and what the floors add to, in mW.
#[tactic(auto, unfolding(crate::specs::Funds::low_sentence))]
fn push_low_sentence(text: &mut Vec<u8>, key: Key, mw: u64, floors: u64) -> Result<(), AllocError>
    ensures { OnOk result (text.new.items ≡ text.old.items ++ low_sentence key mw floors) }
{
    push_quoted(text, key.text().as_bytes())?;
    text.extend_from_slice(b" is ")?;
    push_number(text, mw)?;
    text.extend_from_slice(b", below ")?;
    push_number(text, floors)?;
    text.extend_from_slice(b" mW, what the floors add to")
}

/// Writes a line for a budget that is too low.
pub fn push_low(
    alloc: Global,
    text: &mut Vec<u8>,
    spot: &Spot<'_>,
    key: Key,
    mw: u64,
    floors: u64,
) -> Result<(), AllocError>
    ensures { OnOk result (text.new.items ≡ text.old.items ++ low_part spot.now key mw floors) }
{
    if mw == 0 || mw >= floors {
        return Ok(());
    }
    let mut sentence = Vec::new(alloc);
    push_low_sentence(&mut sentence, key, mw, floors)?;
    let word = key.text().as_bytes();
    spot.push_line(alloc, text, word, sentence.as_slice(), b"")
}

/// Writes a line for an event that changes the budget to one that is too low.
fn push_event_low<'a>(
    alloc: Global,
    text: &mut Vec<u8>,
    spot: &Spot<'a>,
    version: Version,
    floors: u64,
    number: u64,
    table: &'a Table,
) -> Result<(), AllocError>
    ensures { OnOk result (text.new.items ≡ text.old.items ++ event_low_part spot.now version floors number (table_view table.now)) }
{
    match event_at(version, table) {
        EventName::Budget => {
            let own = event_spot(alloc, spot, version, number, table)?;
            let mw = u64::from(number_at(table, Key::Mw));
            push_low(alloc, text, &own, Key::Mw, mw, floors)
        }
        EventName::OnPort(_) | EventName::Unknown => Ok(()),
    }
}

/// Writes a line for each event that changes the budget to one that is too low.
pub fn push_events_low<'a>(
    alloc: Global,
    text: &mut Vec<u8>,
    spot: &Spot<'a>,
    version: Version,
    floors: u64,
    tables: &[&'a Table],
) -> Result<(), AllocError>
    ensures { OnOk result (text.new.items ≡ text.old.items ++ numbered (event_low_part spot.now version floors) 1 (views tables.now)) }
{
    let mut number = 1;
    for table in tables {
        push_event_low(alloc, text, spot, version, floors, number, table)?;
        number += 1;
    }
    Ok(())
}
