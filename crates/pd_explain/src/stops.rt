//! What is said of a line that is none of an edit script.

ghost use Rattle.std.specs.Prelude.{◌≡◌, ◌≤◌, ◌++◌, OnOk, length, map};
ghost use Rattle.std.specs.List.{flat_map};
ghost use Rattle.pd_edit_lines.specs.Words.{words};
ghost use Rattle.pd_edit_lines.specs.Slots.{text_of};
ghost use Rattle.pd_edit_lines.specs.declared.rows.Row.{Row as RowData};
ghost use Rattle.pd_explain.specs.Stops.{may_end, choices, expected_text, visible, found_text, stop_text, syntax_text, row_text};
ghost use Rattle.pd_explain.specs.Stops.{end_text, syntax_hint, too_long_text, word_place};

use crate::hints::push_stop_hint;
use crate::texts::{push_between, push_number};
use pd_edit_lines::{Front, Row, Stop, next, stop_of};
use std::alloc::AllocError;

/// The most bytes of a line that isn't skipped.
const LONGEST_LINE: usize = 256;

/// Whether a line may end behind such a beginning.
fn may_end(front: Front) -> bool
    ensures { result ≡ may_end front }
{
    matches!(
        front,
        Front::Whole
            | Front::SinkRevision
            | Front::SecondMv
            | Front::ThirdMv
            | Front::FourthMv
            | Front::FifthMv
            | Front::SixthMv
            | Front::SeventhMv
    )
}

/// How many words a line has.
fn word_count(line: &[u8]) -> usize
    ensures value { result ≡ length (words line.now) }
    ensures bound { result ≤ length line.now }
{
    let mut count = 0;
    let mut rest = line;
    while let Some((_, others)) = next(rest) {
        count += 1;
        rest = others;
    }
    count
}

fn push_choice(text: &mut Vec<u8>, row: &Row) -> Result<(), AllocError>
    ensures { OnOk result (text.new.items ≡ text.old.items ++ row_text row.now) }
{
    text.extend_from_slice(row.slot.text().as_bytes())?;
    text.extend_from_slice(b", ")
}

/// Writes what may stand at a place of a line.
fn push_choices(text: &mut Vec<u8>, rows: &[Row]) -> Result<(), AllocError>
    ensures { OnOk result (text.new.items ≡ text.old.items ++ flat_map row_text rows.now) }
{
    for row in rows {
        push_choice(text, row)?;
    }
    Ok(())
}

/// Writes that the end may stand there, where it may, and what is behind it.
#[tactic(auto, unfolding(crate::specs::Stops::end_text))]
fn push_end(text: &mut Vec<u8>, front: Front) -> Result<(), AllocError>
    ensures { OnOk result (text.new.items ≡ text.old.items ++ end_text front) }
{
    if may_end(front) {
        text.extend_from_slice(b"the end, found ")
    } else {
        text.extend_from_slice(b"found ")
    }
}

/// Writes what was expected.
#[tactic(auto, unfolding(crate::specs::Stops::expected_text))]
fn push_expected(text: &mut Vec<u8>, stop: &Stop<'_>) -> Result<(), AllocError>
    ensures { OnOk result (text.new.items ≡ text.old.items ++ expected_text stop.now.front) }
{
    text.extend_from_slice(b": expected ")?;
    push_choices(text, stop.rows())?;
    push_end(text, stop.front)
}

/// A byte as it is shown.
fn visible(byte: u8) -> u8
    ensures { result ≡ visible byte }
{
    if 33 <= byte && byte <= 126 {
        byte
    } else {
        b'?'
    }
}

fn push_visible(text: &mut Vec<u8>, word: &[u8]) -> Result<(), AllocError>
    ensures { OnOk result (text.new.items ≡ text.old.items ++ map visible word.now) }
{
    for byte in word {
        text.push(visible(*byte))?;
    }
    Ok(())
}

/// Writes the first word of what is left.
fn push_found(text: &mut Vec<u8>, rest: &[u8]) -> Result<(), AllocError>
    ensures { OnOk result (text.new.items ≡ text.old.items ++ found_text (words rest.now)) }
{
    let Some((word, _)) = next(rest) else {
        return text.extend_from_slice(b"the end");
    };
    text.push(b'`')?;
    push_visible(text, word)?;
    text.push(b'`')?;
    Ok(())
}

/// The place of the first of the words that are left of a line, from 1.
fn place_of(line: &[u8], rest: &[u8]) -> u64
    requires { length line.now ≤ 256 }
    ensures { result ≡ word_place (words line.now) (words rest.now) }
{
    (word_count(line).saturating_sub(word_count(rest)) + 1) as u64
}

/// Writes where a line stops to be one of an edit script.
#[tactic(auto, unfolding(crate::specs::Stops::stop_text))]
fn push_stop(text: &mut Vec<u8>, line: &[u8], stop: &Stop<'_>) -> Result<(), AllocError>
    requires { length line.now ≤ 256 }
    ensures { OnOk result (text.new.items ≡ text.old.items ++ stop_text (words line.now) (stop.now.front, words stop.now.rest.now)) }
{
    text.extend_from_slice(b"word ")?;
    push_number(text, place_of(line, stop.rest))?;
    push_expected(text, stop)?;
    push_found(text, stop.rest)
}

#[tactic(auto, unfolding(crate::specs::Stops::too_long_text))]
fn push_too_long(text: &mut Vec<u8>, bytes: u64) -> Result<(), AllocError>
    ensures { OnOk result (text.new.items ≡ text.old.items ++ too_long_text bytes) }
{
    push_between(text, "the line has ", bytes, " bytes, above 256")
}

/// Writes why a line is none of an edit script: the place of the word at which it stops to be one, what may stand there, and what
/// stands there.
#[tactic(auto, unfolding(crate::specs::Stops::syntax_text))]
pub(crate) fn push_syntax_text(text: &mut Vec<u8>, line: &[u8]) -> Result<(), AllocError>
    ensures { OnOk result (text.new.items ≡ text.old.items ++ syntax_text line.now) }
{
    if line.len() > LONGEST_LINE {
        return push_too_long(text, line.len() as u64);
    }
    push_stop(text, line, &stop_of(line))
}

/// Writes which word may have been meant where a line stops to be one of an edit script.
#[tactic(auto, unfolding(crate::specs::Stops::syntax_hint))]
pub(crate) fn push_syntax_hint(text: &mut Vec<u8>, line: &[u8]) -> Result<(), AllocError>
    ensures { OnOk result (text.new.items ≡ text.old.items ++ syntax_hint line.now) }
{
    if line.len() > LONGEST_LINE {
        return Ok(());
    }
    push_stop_hint(text, &stop_of(line))
}
