//! Which word may have been meant where a line stops to be one of a test script.

ghost use Rattle.std.specs.Prelude.{◌≡◌, ◌++◌, OnOk, find, map, option_map};
ghost use Rattle.pd_edit_lines.specs.Words.{words};
ghost use Rattle.pd_explain.specs.Hints.{near_keyword};
ghost use Rattle.pd_hints.specs.Slips.{meant_text, nearest};
ghost use Rattle.pd_expect.specs.Stops.{is_short_for, line_stop_hint, message_names, near_at, near_name, near_slot, near_word, side_words};

use crate::named::begins;
use crate::rows::{Row, rows};
use crate::slot::Slot;
use crate::stop::{Stop, stop_of};
use pd_edit_lines::next;
use pd_hints::{is_slip, nearest, push_meant};
use std::alloc::AllocError;

const SIDES: [&str; 3] = ["src", "snk", "cbl"];

/// The names of messages, as `KINDS` has their kinds.
const NAMES: [&str; 13] = [
    "GoodCRC",
    "Accept",
    "Reject",
    "PS_RDY",
    "Get_Source_Cap",
    "Get_Sink_Cap",
    "Wait",
    "Soft_Reset",
    "Not_Supported",
    "Source_Capabilities",
    "Request",
    "Sink_Capabilities",
    "Vendor_Defined",
];

/// Whether a word has four letters or more, all but the last of which begin a name.
fn is_short_for(word: &[u8], name: &[u8]) -> bool
    ensures { result ≡ is_short_for word.now name.now }
{
    match word {
        [front @ .., _] => word.len() > 3 && begins(front, name),
        [] => false,
    }
}

/// The first of some names for which a word is short.
fn first_long<'a>(word: &[u8], names: &[&'a str]) -> Option<&'a str>
    ensures { result ≡ find (λ name. is_short_for word.now name.now) names.now }
{
    names
        .iter()
        .copied()
        .find(|name| is_short_for(word, name.as_bytes()))
}

/// The same, as a text.
fn long_name<'a>(word: &[u8], names: &[&'a str]) -> Option<&'a str>
    ensures { option_map (λ x. x.now) result ≡ find (is_short_for word.now) (map (λ x. x.now) names.now) }
{
    first_long(word, names)
}

/// The first of some names of which a word is a slip, or else the first for which it is short.
fn near_name<'a>(word: &[u8], names: &[&'a str]) -> Option<&'a str>
    ensures { option_map (λ x. x.now) result ≡ near_name word.now (map (λ x. x.now) names.now) }
{
    match nearest(word, names) {
        Some(name) => Some(name),
        None => long_name(word, names),
    }
}

/// The message that may have been meant.
#[tactic(auto, unfolding(crate::specs::Stops::message_names))]
fn near_message(word: &[u8]) -> Option<&'static str>
    ensures { option_map (λ x. x.now) result ≡ near_name word.now message_names }
{
    near_name(word, &NAMES)
}

fn near_keyword(word: &[u8], keyword: &'static str) -> Option<&'static str>
    ensures { option_map (λ x. x.now) result ≡ near_keyword word.now keyword.now }
{
    if !keyword.is_empty() && is_slip(word, keyword.as_bytes()) {
        Some(keyword)
    } else {
        None
    }
}

/// The first word that may stand at a place and of which a word is a slip.
#[tactic(auto, unfolding(crate::specs::Stops::near_slot))]
fn near_slot(word: &[u8], slot: Slot) -> Option<&'static str>
    ensures { option_map (λ x. x.now) result ≡ near_slot word.now slot }
{
    match slot {
        Slot::Side => nearest(word, &SIDES),
        Slot::Name => near_message(word),
        _ => near_keyword(word, slot.keyword()),
    }
}

/// The first of what may follow.
#[tactic(auto, unfolding(crate::specs::Stops::near_word))]
fn near_word(word: &[u8], rows: &[Row]) -> Option<&'static str>
    ensures { option_map (λ x. x.now) result ≡ near_word word.now rows.now }
{
    let [row, others @ ..] = rows else {
        return None;
    };
    match near_slot(word, row.slot) {
        Some(near) => Some(near),
        None => near_word(word, others),
    }
}

/// The word that may have been meant where a line stops.
fn near_at(stop: &Stop<'_>) -> Option<&'static str>
    ensures { option_map (λ x. x.now) result ≡ near_at (stop.now.begun, words stop.now.rest.now) }
{
    let (word, _) = next(stop.rest)?;
    near_word(word, rows(stop.begun))
}

/// Writes which word may have been meant where a line stops to be one of a test script, if there is one.
#[tactic(auto, unfolding(crate::specs::Stops::line_stop_hint))]
pub(crate) fn push_stop_hint(text: &mut Vec<u8>, line: &[u8]) -> Result<(), AllocError>
    ensures { OnOk result (text.new.items ≡ text.old.items ++ line_stop_hint line.now) }
{
    push_meant(text, near_at(&stop_of(line)))
}
