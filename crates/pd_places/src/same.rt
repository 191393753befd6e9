//! Refusal 7: names and ids that stand at an earlier table of the same kind.

ghost use Rattle.std.specs.Prelude.{◌≡◌, ◌-◌, ◌≤◌, ◌++◌, OnOk, Some, bytes_eq, codes};
ghost use Rattle.std.specs.Bool.{OnTrue};
ghost use Rattle.std.specs.List.{position_from};
ghost use Rattle.pd_scenario_text.specs.Names.{texts};
ghost use Rattle.pd_misfits.specs.Lines.{line};
ghost use Rattle.pd_places.specs.FirstLines.{added};
ghost use Rattle.pd_places.specs.Same.{same_sentence, same_part, first_name, same_name_part, same_names_text};
ghost use Rattle.pd_places.specs.Same.{first_id, same_id_part, same_ids_text};

use crate::first_lines::FirstLines;
use pd_misfits::{Spot, push_number, push_quoted, table_spot};
use pd_scenario_tables::Key;
use std::alloc::{AllocError, Global};
use std::collections::BTreeSet;

/// Writes the value at a key, and the number of the first table that has it.
#[tactic(auto, unfolding(crate::specs::Same::same_sentence))]
fn push_same_sentence(
    text: &mut Vec<u8>,
    key: Key,
    value: &[u8],
    word: &str,
    first: u64,
) -> Result<(), AllocError>
    ensures { OnOk result (text.new.items ≡ text.old.items ++ same_sentence key value.now word.now first) }
{
    push_quoted(text, key.text().as_bytes())?;
    text.extend_from_slice(b" is ")?;
    text.extend_from_slice(value)?;
    text.extend_from_slice(b", as of ")?;
    text.extend_from_slice(word.as_bytes())?;
    text.push(b' ')?;
    push_number(text, first)
}

/// Writes a line for a table before which another stands that has its value.
fn push_same<'a>(
    alloc: Global,
    text: &mut Vec<u8>,
    spot: &Spot<'a>,
    word: &'a str,
    key: Key,
    value: &[u8],
    number: usize,
    before: Option<usize>,
) -> Result<(), AllocError>
    ensures { OnOk result (text.new.items ≡ text.old.items ++ same_part spot.now word.now key value.now number before) }
{
    match before {
        Some(before) if before < number.saturating_sub(1) => {
            let own = table_spot(alloc, spot, word, number as u64)?;
            let mut sentence = Vec::new(alloc);
            push_same_sentence(&mut sentence, key, value, word, before as u64 + 1)?;
            let named = key.text().as_bytes();
            own.push_line(alloc, text, named, sentence.as_slice(), b"")
        }
        _ => Ok(()),
    }
}

/// How many names stand before the first that is a name.
fn position_of(names: &[&str], name: &str) -> Option<usize>
    ensures { result ≡ position_from (λ other. bytes_eq other.now name.now) 0 names.now }
{
    names.iter().position(|other| *other == name)
}

/// How many names of tables stand before the first that is the same.
fn first_name(names: &[&str], name: &str) -> Option<usize>
    ensures { result ≡ first_name (texts names.now) name.now }
{
    position_of(names, name)
}

/// Writes a line for a name that an earlier table has; a new one is the first of its kind.
#[tactic(auto, unfolding(crate::specs::FirstLines::added))]
fn push_same_name<'a>(
    alloc: Global,
    told: &mut FirstLines,
    spot: &Spot<'a>,
    word: &'a str,
    names: &[&str],
    number: usize,
    name: &str,
    is_new: bool,
) -> Result<(), AllocError>
    requires from_one { 1 ≤ number }
    requires first { OnTrue is_new (first_name (texts names.now) name.now ≡ Some (number - 1)) }
    ensures { OnOk result (told.new ≡ added told.old (same_name_part spot.now word.now (texts names.now) number name.now)) }
{
    if is_new {
        return Ok(());
    }
    if name.is_empty() {
        return Ok(());
    }
    let mut value = Vec::new(alloc);
    push_quoted(&mut value, name.as_bytes())?;
    let before = first_name(names, name);
    let mut line = Vec::new(alloc);
    push_same(
        alloc,
        &mut line,
        spot,
        word,
        Key::Name,
        value.as_slice(),
        number,
        before,
    )?;
    told.add(line.as_slice())
}

/// Writes a line for each name that an earlier table has, up to as many as are told. The names that came before are kept in a set:
/// the first of its kind is looked for only where there is one.
fn push_same_names<'a>(
    alloc: Global,
    told: &mut FirstLines,
    spot: &Spot<'a>,
    word: &'a str,
    names: &[&str],
) -> Result<(), AllocError>
    ensures { OnOk result (told.new ≡ added told.old (same_names_text spot.now word.now (texts names.now))) }
{
    let mut seen = BTreeSet::new(alloc);
    let mut number = 1;
    for name in names {
        if told.is_full() {
            return Ok(());
        }
        let is_new = seen.insert(*name)?;
        push_same_name(alloc, told, spot, word, names, number, name, is_new)?;
        number += 1;
    }
    Ok(())
}

/// How many ids stand before the first that is the same.
fn first_id(ids: &[u32], id: u32) -> Option<usize>
    ensures { result ≡ first_id ids.now id }
{
    ids.iter().position(|other| *other == id)
}

/// Writes a line for an id that an earlier event has; a new one is the first of its kind.
#[tactic(auto, unfolding(crate::specs::FirstLines::added))]
fn push_same_id(
    alloc: Global,
    told: &mut FirstLines,
    spot: &Spot<'_>,
    ids: &[u32],
    number: usize,
    id: u32,
    is_new: bool,
) -> Result<(), AllocError>
    requires from_one { 1 ≤ number }
    requires first { OnTrue is_new (first_id ids.now id ≡ Some (number - 1)) }
    ensures { OnOk result (told.new ≡ added told.old (same_id_part spot.now ids.now number id)) }
{
    if is_new {
        return Ok(());
    }
    if id == 0 {
        return Ok(());
    }
    let mut value = Vec::new(alloc);
    push_number(&mut value, u64::from(id))?;
    let before = first_id(ids, id);
    let mut line = Vec::new(alloc);
    push_same(
        alloc,
        &mut line,
        spot,
        "event",
        Key::Id,
        value.as_slice(),
        number,
        before,
    )?;
    told.add(line.as_slice())
}

/// Writes a line for each id that an earlier event has, up to as many as are told. The ids that came before are kept in a set.
fn push_same_ids(
    alloc: Global,
    told: &mut FirstLines,
    spot: &Spot<'_>,
    ids: &[u32],
) -> Result<(), AllocError>
    ensures { OnOk result (told.new ≡ added told.old (same_ids_text spot.now ids.now)) }
{
    let mut seen = BTreeSet::new(alloc);
    let mut number = 1;
    for id in ids {
        if told.is_full() {
            return Ok(());
        }
        let is_new = seen.insert(*id)?;
        push_same_id(alloc, told, spot, ids, number, *id, is_new)?;
        number += 1;
    }
    Ok(())
}

/// Writes a line for each name of a cable, each of a sink and each id that an earlier table has, up to as many as are told.
pub fn push_same_values(
    alloc: Global,
    told: &mut FirstLines,
    spot: &Spot<'_>,
    cables: &[&str],
    sinks: &[&str],
    ids: &[u32],
) -> Result<(), AllocError>
    ensures { OnOk result (told.new
        ≡ added told.old
        (same_names_text spot.now (codes "cable") (texts cables.now)
        ++ (same_names_text spot.now (codes "sink") (texts sinks.now) ++ same_ids_text spot.now ids.now))) }
{
    push_same_names(alloc, told, spot, "cable", cables)?;
    push_same_names(alloc, told, spot, "sink", sinks)?;
    push_same_ids(alloc, told, spot, ids)
}
