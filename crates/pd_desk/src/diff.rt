//! What of a text isn't in another, line by line.

ghost use Rattle.std.specs.Prelude.{◌≡◌, ◌++◌, ℕ, List, OnOk, IfOk, bytes_eq};
ghost use Rattle.std.specs.List.{list_any};
ghost use Rattle.std.specs.Str.Lines.{lines};
ghost use Rattle.pd_desk.specs.Diff.{has_line, own_line, own_lines, diff_text};

use pd_scene::first_line;
use std::alloc::{AllocError, Global};
use std::collections::HashSet;

/// The lines of a text, to look them up.
fn lines_of(alloc: Global, text: &[u8]) -> Result<HashSet<&[u8]>, AllocError>
    ensures { IfOk result (λ found. (line : List ℕ) → list_any (λ other. bytes_eq line other.now) found.keys
        ≡ has_line (lines text.now) line) }
{
    let mut found = HashSet::new(alloc);
    let mut rest = text;
    while let Some((line, others)) = first_line(rest) {
        found.insert(line)?;
        rest = others;
    }
    Ok(found)
}

/// Writes a line behind a sign, where it isn't one of others.
#[tactic(auto, unfolding(crate::specs::Diff::own_line))]
fn push_own_line(
    said: &mut Vec<u8>,
    sign: u8,
    line: &[u8],
    others: &HashSet<&[u8]>,
) -> Result<(), AllocError>
    ensures { OnOk result ((ls : List (List ℕ)) → has_line ls line.now ≡ list_any (λ other. bytes_eq line.now other.now) others.now.keys
        → said.new.items ≡ said.old.items ++ own_line sign ls line.now) }
{
    if others.contains(line) {
        return Ok(());
    }
    said.push(sign)?;
    said.push(b' ')?;
    said.extend_from_slice(line)?;
    said.push(b'\n')?;
    Ok(())
}

/// Writes the lines of a text that aren't in another, each behind a sign.
fn push_own_lines(
    alloc: Global,
    said: &mut Vec<u8>,
    sign: u8,
    text: &[u8],
    other: &[u8],
) -> Result<(), AllocError>
    ensures { OnOk result (said.new.items ≡ said.old.items ++ own_lines sign (lines other.now) (lines text.now)) }
{
    let others = lines_of(alloc, other)?;
    let mut rest = text;
    while let Some((line, behind)) = first_line(rest) {
        push_own_line(said, sign, line, &others)?;
        rest = behind;
    }
    Ok(())
}

/// Writes the lines that were in a text and aren't any more, each behind `-`, and then the new ones, behind `+`.
///
/// # Errors
/// There is no memory for it; some of it may stand in the text.
#[tactic(auto, unfolding(crate::specs::Diff::diff_text))]
pub fn push_diff(
    alloc: Global,
    said: &mut Vec<u8>,
    before: &[u8],
    now: &[u8],
) -> Result<(), AllocError>
    ensures { OnOk result (said.new.items ≡ said.old.items ++ diff_text before.now now.now) }
{
    push_own_lines(alloc, said, b'-', before, now)?;
    push_own_lines(alloc, said, b'+', now, before)
}
