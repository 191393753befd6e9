//! Where a line that begins with `expect` or `lose` stops to be one of a test script, and what is said of that.

ghost use Rattle.std.specs.Prelude.{◌≡◌, ◌++◌, OnOk, length, map};
ghost use Rattle.std.specs.List.{flat_map};
ghost use Rattle.pd_edit_lines.specs.Words.{words};
ghost use Rattle.pd_explain.specs.Stops.{visible, word_place};
ghost use Rattle.pd_expect.specs.Stops.{end_text, expected_text, found_there, line_stop_text, next_begun, row_choice};
ghost use Rattle.pd_expect.specs.Stops.{stop_from, stop_text};
ghost use Rattle.pd_expect.specs.Table.{rows};
ghost use Rattle.pd_expect.specs.declared.rows.Begun.TheVariants as begun;

use crate::lines::is_comment;
use crate::rows::{Begun, Row, rows};
use crate::slot::Slot;
use crate::words::push_wide;
use pd_edit_lines::next;
use std::alloc::AllocError;

/// Where a line stops: the words before it begin a line that goes on by the rows of this beginning, and the first word of what is
/// left, if there is one, fits none of them.
#[derive(Clone, Copy)]
pub(crate) struct Stop<'a> {
    pub begun: Begun,
    pub rest: &'a [u8],
}

/// What stands at the beginning of a line after one more word; `None` where the word can't stand there.
fn next_begun(begun: Begun, word: &[u8]) -> Option<Begun>
    ensures { result ≡ next_begun begun word.now }
{
    rows(begun)
        .iter()
        .find(|row| row.slot.fits(word))
        .map(|row| row.to)
}

/// Where a line stops to be one of a test script.
pub(crate) fn stop_of(line: &[u8]) -> Stop<'_>
    ensures { (result.begun, words result.rest.now) ≡ stop_from begun.Start (words line.now) }
{
    let mut begun = Begun::Start;
    let mut rest = line;
    while let Some((word, others)) = next(rest) {
        let Some(to) = next_begun(begun, word) else {
            return Stop { begun, rest };
        };
        begun = to;
        rest = others;
    }
    Stop { begun, rest }
}

/// How many words a line has.
fn word_count(line: &[u8]) -> usize
    ensures { result ≡ length (words line.now) }
{
    let mut count = 0;
    let mut rest = line;
    while let Some((_, others)) = next(rest) {
        count += 1;
        rest = others;
    }
    count
}

/// The place of the first of the words that are left of a line, from 1.
fn place_of(line: &[u8], rest: &[u8]) -> u128
    ensures { result ≡ word_place (words line.now) (words rest.now) }
{
    word_count(line).saturating_sub(word_count(rest)) as u128 + 1
}

/// Writes what may stand at a place of a line, with a comma behind it.
fn push_choice(text: &mut Vec<u8>, row: &Row) -> Result<(), AllocError>
    ensures { OnOk result (text.new.items ≡ text.old.items ++ row_choice row.now) }
{
    match row.slot {
        Slot::Opening | Slot::Inner => Ok(()),
        slot => {
            text.extend_from_slice(slot.text().as_bytes())?;
            text.extend_from_slice(b", ")
        }
    }
}

fn push_choices(text: &mut Vec<u8>, rows: &[Row]) -> Result<(), AllocError>
    ensures { OnOk result (text.new.items ≡ text.old.items ++ flat_map row_choice rows.now) }
{
    for row in rows {
        push_choice(text, row)?;
    }
    Ok(())
}

/// That the end may stand there, where it may, and what is behind it.
fn end_text(begun: Begun) -> &'static [u8]
    ensures { result.now ≡ end_text begun }
{
    if begun.may_end() {
        b"the end, found "
    } else {
        b"found "
    }
}

/// Writes what was expected.
#[tactic(auto, unfolding(crate::specs::Stops::expected_text))]
fn push_expected(text: &mut Vec<u8>, begun: Begun) -> Result<(), AllocError>
    ensures { OnOk result (text.new.items ≡ text.old.items ++ expected_text begun) }
{
    text.extend_from_slice(b": expected ")?;
    push_choices(text, rows(begun))?;
    text.extend_from_slice(end_text(begun))
}

/// A byte as it is shown.
fn visible(byte: u8) -> u8
    ensures { result ≡ visible byte }
{
    if 33 <= byte && byte <= 126 {
        byte
    } else {
        b'?'
    }
}

fn push_visible(text: &mut Vec<u8>, word: &[u8]) -> Result<(), AllocError>
    ensures { OnOk result (text.new.items ≡ text.old.items ++ map visible word.now) }
{
    for byte in word {
        text.push(visible(*byte))?;
    }
    Ok(())
}

/// Writes the first word of what is left, or that the line is over there.
fn push_found(text: &mut Vec<u8>, rest: &[u8]) -> Result<(), AllocError>
    ensures { OnOk result (text.new.items ≡ text.old.items ++ found_there (words rest.now)) }
{
    let Some((word, _)) = next(rest) else {
        return text.extend_from_slice(b"the end");
    };
    if is_comment(word) {
        return text.extend_from_slice(b"the end");
    }
    text.push(b'`')?;
    push_visible(text, word)?;
    text.push(b'`')?;
    Ok(())
}

/// Writes where a line stops.
#[tactic(auto, unfolding(crate::specs::Stops::stop_text))]
fn push_stop(text: &mut Vec<u8>, line: &[u8], stop: &Stop<'_>) -> Result<(), AllocError>
    ensures { OnOk result (text.new.items ≡ text.old.items ++ stop_text (words line.now) (stop.now.begun, words stop.now.rest.now)) }
{
    text.extend_from_slice(b"word ")?;
    push_wide(text, place_of(line, stop.rest))?;
    push_expected(text, stop.begun)?;
    push_found(text, stop.rest)
}

/// Writes at which word a line stops to be one of a test script, what may stand there, and what stands there.
#[tactic(auto, unfolding(crate::specs::Stops::line_stop_text))]
pub(crate) fn push_line_stop(text: &mut Vec<u8>, line: &[u8]) -> Result<(), AllocError>
    ensures { OnOk result (text.new.items ≡ text.old.items ++ line_stop_text line.now) }
{
    push_stop(text, line, &stop_of(line))
}
