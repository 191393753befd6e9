//! What is told first of an event.

ghost use Rattle.std.specs.Prelude.{◌≡◌, IfOk, codes};
ghost use Rattle.toml.specs.View.{table_view};
ghost use Rattle.pd_scenario_tables.specs.Tables.{event_at, value_at};
ghost use Rattle.pd_misfits.specs.Lines.{end_words, event_spot, kind_words, known_word, port_words, told_pieces, whole_of, word_of};
ghost use Rattle.pd_misfits.specs.Spots.{spot_in};

use crate::spot::Spot;
use pd_scenario_tables::{EventName, Key, Version, event_at, value_at};
use pd_text::Piece::{LineWords, Name, Number, Text, Whole};
use pd_text::Unit;
use std::alloc::{AllocError, Global};
use toml::{Table, Value};

/// The whole number at a key.
fn whole_at(table: &Table, key: Key) -> Option<i64>
    ensures { result ≡ whole_of (value_at key (table_view table.now)) }
{
    match value_at(table, key) {
        Some(Value::Integer(number)) => Some(*number),
        _ => None,
    }
}

/// The word of a kind.
fn kind_at(table: &Table) -> &[u8]
    ensures { result.now ≡ word_of (value_at Key.Kind (table_view table.now)) }
{
    match value_at(table, Key::Kind) {
        Some(Value::String(word)) => word.as_bytes(),
        _ => b"",
    }
}

/// The kind, where the file's version has it.
fn known_kind(version: Version, table: &Table) -> &[u8]
    ensures { result.now ≡ known_word (event_at version (table_view table.now)) (value_at Key.Kind (table_view table.now)) }
{
    match event_at(version, table) {
        EventName::Unknown => b"",
        EventName::OnPort(_) | EventName::Budget => kind_at(table),
    }
}

fn port_words(id: Option<i64>) -> &'static [u8]
    ensures { result.now ≡ port_words id }
{
    match id {
        None => b" (port ",
        Some(_) => b", port ",
    }
}

fn kind_words(id: Option<i64>, port: Option<i64>) -> &'static [u8]
    ensures { result.now ≡ kind_words id port }
{
    match (id, port) {
        (None, None) => b" (",
        _ => b", ",
    }
}

fn end_words(id: Option<i64>, port: Option<i64>, kind: &[u8]) -> &'static [u8]
    ensures { result.now ≡ end_words id port kind.now }
{
    match (id, port, kind) {
        (None, None, []) => b": ",
        _ => b"): ",
    }
}

/// An event of which this is known.
fn told_spot<'a>(
    alloc: Global,
    spot: &Spot<'a>,
    number: u64,
    id: Option<i64>,
    port: Option<i64>,
    kind: &'a [u8],
) -> Result<Spot<'a>, AllocError>
    ensures { IfOk result (λ own. own ≡ spot_in spot.now (codes "event") number (told_pieces number id port kind.now)) }
{
    spot.table(
        alloc,
        "event",
        number,
        &[
            Name(b"event", b"table", b"event"),
            Number(b" ", b"number", Unit::Plain, number),
            Whole(b" (id ", b"id", id),
            Whole(port_words(id), b"port", port),
            Text(kind_words(id, port), b"kind", kind),
            LineWords(end_words(id, port, kind)),
        ],
    )
}

/// An event by its place among the events, from 1, and its id, its port and its kind, where these can be read.
///
/// # Errors
/// There is no memory.
pub fn event_spot<'a>(
    alloc: Global,
    spot: &Spot<'a>,
    version: Version,
    number: u64,
    table: &'a Table,
) -> Result<Spot<'a>, AllocError>
    ensures { IfOk result (λ own. own ≡ event_spot spot.now version number (table_view table.now)) }
{
    let id = whole_at(table, Key::Id);
    let port = whole_at(table, Key::Port);
    told_spot(alloc, spot, number, id, port, known_kind(version, table))
}
