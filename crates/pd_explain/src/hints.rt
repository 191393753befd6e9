//! Hints: which word, name or number may have been meant.

ghost use Rattle.std.specs.Prelude.{◌≡◌, ◌++◌, OnOk, find, map, option_map};
ghost use Rattle.pd_hints.specs.Slips.{is_slip, meant_text, nearest};
ghost use Rattle.pd_scenario.specs.declared.named.NamedCable.{NamedCable as NamedCableData};
ghost use Rattle.pd_scenario.specs.declared.named.NamedSink.{NamedSink as NamedSinkData};
ghost use Rattle.pd_edit_lines.specs.Words.{words};
ghost use Rattle.pd_explain.specs.Hints.{first_reading, near_keyword, near_slot, near_word, stop_hint};
ghost use Rattle.pd_explain.specs.Sentences.{hint};

use crate::Place;
use pd_edit_lines::{Row, Slot, Stop, next};
use pd_hints::{is_slip, nearest, push_meant};
use pd_scenario::{Name, NamedCable, NamedSink, Scenario};
use pd_units::{push_number_reading, push_rating_reading, push_word_reading, unit_at};
use std::alloc::AllocError;

const PLUGS: [&str; 5] = ["none", "ack", "nak", "busy", "silent"];

const MODES: [&str; 3] = ["pd", "plain", "greedy"];

/// The first cable of whose name a name is a slip.
fn near_cable<'a>(name: &Name, cables: &'a [NamedCable]) -> Option<&'a NamedCable>
    ensures { option_map (λ x. x.now) result ≡ find (λ (c : NamedCableData). is_slip name.now c.name) cables.now }
{
    cables.iter().find(|cable| is_slip(name.as_str().as_bytes(), cable.name.as_str().as_bytes()))
}

fn near_cable_name<'a>(name: &Name, cables: &'a [NamedCable]) -> Option<&'a str>
    ensures { option_map (λ x. x.now) result ≡ option_map (λ (c : NamedCableData). c.name)
        (find (λ (c : NamedCableData). is_slip name.now c.name) cables.now) }
{
    near_cable(name, cables).map(|cable| cable.name.as_str())
}

/// Writes which cable may have been meant by a name.
fn push_near_cable(text: &mut Vec<u8>, name: &Name, cables: &[NamedCable]) -> Result<(), AllocError>
    ensures { OnOk result (text.new.items
        ≡ text.old.items ++ meant_text (nearest name.now (map (λ cable. cable.name) cables.now))) }
{
    push_meant(text, near_cable_name(name, cables))
}

/// The first sink of whose name a name is a slip.
fn near_sink<'a>(name: &Name, sinks: &'a [NamedSink]) -> Option<&'a NamedSink>
    ensures { option_map (λ x. x.now) result ≡ find (λ (s : NamedSinkData). is_slip name.now s.name) sinks.now }
{
    sinks.iter().find(|sink| is_slip(name.as_str().as_bytes(), sink.name.as_str().as_bytes()))
}

fn near_sink_name<'a>(name: &Name, sinks: &'a [NamedSink]) -> Option<&'a str>
    ensures { option_map (λ x. x.now) result ≡ option_map (λ (s : NamedSinkData). s.name)
        (find (λ (s : NamedSinkData). is_slip name.now s.name) sinks.now) }
{
    near_sink(name, sinks).map(|sink| sink.name.as_str())
}

/// Writes which sink may have been meant by a name.
fn push_near_sink(text: &mut Vec<u8>, name: &Name, sinks: &[NamedSink]) -> Result<(), AllocError>
    ensures { OnOk result (text.new.items
        ≡ text.old.items ++ meant_text (nearest name.now (map (λ sink. sink.name) sinks.now))) }
{
    push_meant(text, near_sink_name(name, sinks))
}

/// Writes which name may have been meant at a place where one isn't there, and in which other unit a number that isn't allowed.
pub(crate) fn push_hint<const N: usize>(
    text: &mut Vec<u8>,
    scenario: &Scenario<N>,
    place: &Place,
) -> Result<(), AllocError>
    ensures { OnOk result (text.new.items ≡ text.old.items ++ hint scenario.now place.now) }
{
    match place {
        Place::Cable { name } => push_near_cable(text, name, scenario.cables()),
        Place::Sink { name } => push_near_sink(text, name, scenario.sinks()),
        Place::Number {
            quantity,
            value,
            ..
        } => push_number_reading(text, *quantity, *value),
        Place::Rating { rating } => push_rating_reading(text, *rating),
        _ => Ok(()),
    }
}

fn near_keyword(word: &[u8], keyword: &'static str) -> Option<&'static str>
    ensures { option_map (λ x. x.now) result ≡ near_keyword word.now keyword.now }
{
    if !keyword.is_empty() && is_slip(word, keyword.as_bytes()) {
        Some(keyword)
    } else {
        None
    }
}

/// The first word that may stand at a place of which a word is a slip.
#[tactic(auto, unfolding(crate::specs::Hints::near_slot))]
fn near_slot(word: &[u8], slot: Slot) -> Option<&'static str>
    ensures { option_map (λ x. x.now) result ≡ near_slot word.now slot }
{
    match slot {
        Slot::Plug => nearest(word, &PLUGS),
        Slot::Mode => nearest(word, &MODES),
        _ => near_keyword(word, slot.keyword()),
    }
}

/// The first of what may follow of which a word is a slip.
fn near_word(word: &[u8], rows: &[Row]) -> Option<&'static str>
    ensures { option_map (λ x. x.now) result ≡ near_word word.now rows.now }
{
    for row in rows {
        if let Some(near) = near_slot(word, row.slot) {
            return Some(near);
        }
    }
    None
}

/// Writes what number a word is, where it has a unit behind it and the first of what may follow is a number of that kind.
fn push_first_reading(text: &mut Vec<u8>, word: &[u8], rows: &[Row]) -> Result<(), AllocError>
    ensures { OnOk result (text.new.items ≡ text.old.items ++ first_reading word.now rows.now) }
{
    match rows {
        [row, ..] => push_word_reading(text, unit_at(row.slot), word),
        [] => Ok(()),
    }
}

/// Writes which word, or which number, may have been meant where a line stops.
pub(crate) fn push_stop_hint(text: &mut Vec<u8>, stop: &Stop<'_>) -> Result<(), AllocError>
    ensures { OnOk result (text.new.items ≡ text.old.items ++ stop_hint stop.now.front (words stop.now.rest.now)) }
{
    let Some((word, _)) = next(stop.rest) else {
        return Ok(());
    };
    push_meant(text, near_word(word, stop.rows()))?;
    push_first_reading(text, word, stop.rows())
}
