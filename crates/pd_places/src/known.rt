//! Refusal 10: an attach by a name that no cable, or no sink, has.

ghost use Rattle.std.specs.Prelude.{◌≡◌, ◌-◌, ◌++◌, OnOk, bytes_eq, take};
ghost use Rattle.std.specs.List.{list_any, flat_map};
ghost use Rattle.toml.specs.View.{table_view};
ghost use Rattle.pd_scenario_tables.specs.Seen.{views};
ghost use Rattle.pd_scenario_text.specs.Names.{texts};
ghost use Rattle.pd_misfits.specs.Lines.{line};
ghost use Rattle.pd_places.specs.Numbered.{numbered};
ghost use Rattle.pd_places.specs.FirstLines.{added};
ghost use Rattle.pd_places.specs.Known.{more_names, most_names, name_word, names_text, stranger_words, stranger_sentence};
ghost use Rattle.pd_places.specs.Known.{event_known_part, stranger_part, attach_part};

use crate::collect::word_at;
use crate::first_lines::FirstLines;
use pd_hints::{nearest, push_meant};
use pd_misfits::{Spot, event_spot, push_number, push_quoted};
use pd_scenario_tables::{EventName, Key, Version, event_at};
use pd_setup::EventKind;
use std::alloc::{AllocError, Global};
use toml::Table;

#[tactic(auto, unfolding(crate::specs::Known::name_word))]
fn push_name_word(text: &mut Vec<u8>, name: &str) -> Result<(), AllocError>
    ensures { OnOk result (text.new.items ≡ text.old.items ++ name_word name.now) }
{
    text.push(b' ')?;
    push_quoted(text, name.as_bytes())
}

fn push_name_words(text: &mut Vec<u8>, names: &[&str]) -> Result<(), AllocError>
    ensures { OnOk result (text.new.items ≡ text.old.items ++ flat_map name_word (texts names.now)) }
{
    for name in names {
        push_name_word(text, name)?;
    }
    Ok(())
}

/// So many of the names that there are are told.
const MOST_NAMES: usize = 8;

/// The first of the names, as many as are told.
fn first_names<'a, 'b>(names: &'a [&'b str]) -> &'a [&'b str]
    ensures { result.now ≡ take most_names names.now }
{
    if names.len() <= MOST_NAMES {
        names
    } else {
        &names[..MOST_NAMES]
    }
}

/// Writes how many more names there are than are told, where there are any.
#[tactic(auto, unfolding(crate::specs::Known::more_names))]
fn push_more(text: &mut Vec<u8>, count: usize) -> Result<(), AllocError>
    ensures { OnOk result (text.new.items ≡ text.old.items ++ more_names (count - most_names)) }
{
    if count <= MOST_NAMES {
        return Ok(());
    }
    text.extend_from_slice(b" and ")?;
    push_number(text, (count - MOST_NAMES) as u64)?;
    text.extend_from_slice(b" more")
}

/// Writes the names that there are: eight at most, and how many more.
#[tactic(auto, unfolding(crate::specs::Known::names_text))]
fn push_names(text: &mut Vec<u8>, names: &[&str]) -> Result<(), AllocError>
    ensures { OnOk result (text.new.items ≡ text.old.items ++ names_text (texts names.now)) }
{
    if names.is_empty() {
        return text.extend_from_slice(b" none");
    }
    push_name_words(text, first_names(names))?;
    push_more(text, names.len())
}

/// Writes that a name is none of those that there are.
#[tactic(auto, unfolding(crate::specs::Known::stranger_words))]
fn push_stranger_words(text: &mut Vec<u8>, key: Key, names: &[&str]) -> Result<(), AllocError>
    ensures { OnOk result (text.new.items ≡ text.old.items ++ stranger_words key (texts names.now)) }
{
    text.extend_from_slice(b", the name of no ")?;
    text.extend_from_slice(key.text().as_bytes())?;
    text.extend_from_slice(b"; there are")?;
    push_names(text, names)
}

/// Writes a name that no table has, and those that there are.
#[tactic(auto, unfolding(crate::specs::Known::stranger_sentence))]
fn push_stranger_sentence(
    text: &mut Vec<u8>,
    key: Key,
    names: &[&str],
    name: &str,
) -> Result<(), AllocError>
    ensures { OnOk result (text.new.items ≡ text.old.items ++ stranger_sentence key (texts names.now) name.now) }
{
    push_quoted(text, key.text().as_bytes())?;
    text.extend_from_slice(b" is ")?;
    push_quoted(text, name.as_bytes())?;
    push_stranger_words(text, key, names)
}

/// Whether a name is one of some.
fn is_one_of(names: &[&str], name: &str) -> bool
    ensures { result ≡ list_any (λ other. bytes_eq other.now name.now) names.now }
{
    names.iter().any(|other| *other == name)
}

/// Whether a table has a name.
fn has_name(names: &[&str], name: &str) -> bool
    ensures { result ≡ list_any (λ other. bytes_eq other name.now) (texts names.now) }
{
    is_one_of(names, name)
}

/// Writes a line for a name that no table has.
#[tactic(auto, unfolding(crate::specs::FirstLines::added))]
fn push_stranger(
    alloc: Global,
    told: &mut FirstLines,
    spot: &Spot<'_>,
    key: Key,
    names: &[&str],
    name: &str,
) -> Result<(), AllocError>
    ensures { OnOk result (told.new ≡ added told.old (stranger_part spot.now key (texts names.now) name.now)) }
{
    if name.is_empty() || has_name(names, name) {
        return Ok(());
    }
    let mut sentence = Vec::new(alloc);
    push_stranger_sentence(&mut sentence, key, names, name)?;
    let mut hint = Vec::new(alloc);
    push_meant(&mut hint, nearest(name.as_bytes(), names))?;
    let word = key.text().as_bytes();
    let mut line = Vec::new(alloc);
    spot.push_line(alloc, &mut line, word, sentence.as_slice(), hint.as_slice())?;
    told.add(line.as_slice())
}

/// Writes a line for each name of an attach that no table has.
#[tactic(auto, unfolding(crate::specs::Known::attach_part))]
fn push_attach(
    alloc: Global,
    told: &mut FirstLines,
    spot: &Spot<'_>,
    cables: &[&str],
    sinks: &[&str],
    table: &Table,
) -> Result<(), AllocError>
    ensures { OnOk result (told.new
        ≡ added told.old (attach_part spot.now (texts cables.now) (texts sinks.now) (table_view table.now))) }
{
    push_stranger(
        alloc,
        told,
        spot,
        Key::Cable,
        cables,
        word_at(table, Key::Cable),
    )?;
    push_stranger(
        alloc,
        told,
        spot,
        Key::Sink,
        sinks,
        word_at(table, Key::Sink),
    )
}

/// Writes a line for each name of an event that no table has.
#[tactic(auto, unfolding(crate::specs::FirstLines::added))]
fn push_event_known<'a>(
    alloc: Global,
    told: &mut FirstLines,
    spot: &Spot<'a>,
    version: Version,
    names: (&[&str], &[&str]),
    number: u64,
    table: &'a Table,
) -> Result<(), AllocError>
    ensures { OnOk result (told.new
        ≡ added told.old
        (event_known_part spot.now version (texts names.entry.0.now) (texts names.entry.1.now) number (table_view table.now))) }
{
    match event_at(version, table) {
        EventName::OnPort(EventKind::Attach { .. }) => {
            let own = event_spot(alloc, spot, version, number, table)?;
            push_attach(alloc, told, &own, names.0, names.1, table)
        }
        _ => Ok(()),
    }
}

/// Writes a line for each name of the events that no table has, up to as many as are told: the names of the cables, and of the
/// sinks.
pub fn push_events_known<'a>(
    alloc: Global,
    told: &mut FirstLines,
    spot: &Spot<'a>,
    version: Version,
    names: (&[&str], &[&str]),
    tables: &[&'a Table],
) -> Result<(), AllocError>
    ensures { OnOk result (told.new
        ≡ added told.old
        (numbered (event_known_part spot.now version (texts names.entry.0.now) (texts names.entry.1.now)) 1 (views tables.now))) }
{
    let mut number = 1;
    for table in tables {
        if told.is_full() {
            return Ok(());
        }
        push_event_known(alloc, told, spot, version, names, number, table)?;
        number += 1;
    }
    Ok(())
}
