//! Words behind `but`, of faults that don't count.

ghost use Rattle.std.specs.Prelude.{◌≡◌, length, option_map};
ghost use Rattle.pd_edit_lines.specs.Words.{end_of, words};
ghost use Rattle.pd_expect.specs.Lines.{behind_buts, behind_of, but_at, is_but, is_excepted, quoted, words_of, wrong_but, wrong_text};

use crate::fault_texts::is_fault_text;
use crate::lines::{after_word, quoted, words_of};
use crate::seek::is_told;
use crate::span::cut;
use pd_edit_lines::next;
use pd_line::Fault;

/// What stands behind the first words in quotation marks of a line.
pub(crate) fn behind_of(line: &[u8]) -> &[u8]
    ensures { result.now ≡ behind_of (quoted line.now) }
{
    match quoted(line) {
        Some((_, behind)) => behind,
        None => b"",
    }
}

/// `but "WORDS"`: the words, and what stands behind them.
fn but_at(line: &[u8]) -> Option<(&[u8], &[u8])>
    ensures { option_map (λ x. (x.0.now, x.1.now)) result ≡ but_at line.now }
{
    let (before, opened) = cut(b'"', line)?;
    let named = after_word(b"but", before)?;
    match next(named) {
        None => cut(b'"', opened),
        Some(_) => None,
    }
}

/// What stands behind some of these, at most as many as the first text has bytes.
#[tactic(auto, unfolding(crate::specs::Lines::behind_buts))]
pub(crate) fn behind_buts<'a>(most: &[u8], line: &'a [u8]) -> &'a [u8]
    ensures { result.now ≡ behind_buts most.now line.now }
{
    let [_, most @ ..] = most else {
        return line;
    };
    match but_at(line) {
        None => line,
        Some((_, behind)) => behind_buts(most, behind),
    }
}

/// Whether a fault is told in the words of one of them.
#[tactic(auto, unfolding(crate::specs::Lines::is_but))]
fn is_but(most: &[u8], line: &[u8], fault: Fault) -> bool
    ensures { result ≡ is_but most.now line.now fault }
{
    let [_, most @ ..] = most else {
        return false;
    };
    match but_at(line) {
        None => false,
        Some((text, behind)) => is_told(fault, text) || is_but(most, behind, fault),
    }
}

/// Whether a fault is told in words that a line excepts.
pub(crate) fn is_excepted(line: &[u8], fault: Fault) -> bool
    ensures { result ≡ is_excepted (quoted line.now) fault }
{
    let behind = behind_of(line);
    is_told(fault, words_of(line)) || is_but(behind, behind, fault)
}

/// The first of the words behind `but` in which no fault is told.
#[tactic(auto, unfolding(crate::specs::Lines::wrong_but))]
fn wrong_but<'a>(most: &[u8], line: &'a [u8]) -> Option<&'a [u8]>
    ensures { option_map (λ x. x.now) result ≡ wrong_but most.now line.now }
{
    let [_, most @ ..] = most else {
        return None;
    };
    match but_at(line) {
        None => None,
        Some((text, _)) if !is_fault_text(text) => Some(text),
        Some((_, behind)) => wrong_but(most, behind),
    }
}

/// Words of a line in which no fault is told, if there are any.
pub(crate) fn wrong_text(line: &[u8]) -> Option<&[u8]>
    ensures { option_map (λ x. x.now) result ≡ wrong_text (quoted line.now) }
{
    let first = words_of(line);
    if !is_fault_text(first) {
        return Some(first);
    }
    let behind = behind_of(line);
    wrong_but(behind, behind)
}
