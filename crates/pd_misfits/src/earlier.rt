//! Where a key stood before, that the text of a scenario file has twice.

ghost use Rattle.std.specs.Prelude.{◌≡◌, ◌≤◌, ◌<◌, ◌++◌, IfOk, IfSome, OnOk, drop, length};
ghost use Rattle.std.specs.List.{position_from};
ghost use Rattle.pd_misfits.specs.Texts.{IsEarlier, earlier_text, ends_name, front_to, is_before, is_first, name_of, without_front};

use crate::text::line_at;
use crate::values::{push_behind, push_quoted};
use std::alloc::{AllocError, Global};

/// Whether a byte may stand before a name: a blank or a bracket.
fn is_before(byte: u8) -> bool
    ensures { result ≡ is_before byte }
{
    matches!(byte, b'\t' | b' ' | b'[')
}

/// Whether a byte ends a name.
fn ends_name(byte: u8) -> bool
    ensures { result ≡ ends_name byte }
{
    matches!(byte, b'\t' | b'\n' | b'\r' | b' ' | b'.' | b'=' | b']')
}

/// Whether a byte may be the first of a name.
fn is_first(byte: u8) -> bool
    ensures { result ≡ is_first byte }
{
    !is_before(byte)
}

/// How many bytes stand before the first that may be the first of a name.
fn first_place(bytes: &[u8]) -> Option<usize>
    ensures value { result ≡ position_from is_first 0 bytes.now }
    ensures within { IfSome result (λ place. place < length bytes.now) }
{
    bytes.iter().position(|byte| is_first(*byte))
}

/// How many bytes stand before the first that ends a name.
fn end_place(bytes: &[u8]) -> Option<usize>
    ensures value { result ≡ position_from ends_name 0 bytes.now }
    ensures within { IfSome result (λ place. place < length bytes.now) }
{
    bytes.iter().position(|byte| ends_name(*byte))
}

/// How many bytes stand before a name.
fn front(bytes: &[u8]) -> usize
    ensures value { result ≡ front_to is_first bytes.now }
    ensures within { result ≤ length bytes.now }
{
    match first_place(bytes) {
        Some(place) => place,
        None => bytes.len(),
    }
}

/// How many bytes a name has that stands first.
fn name_end(bytes: &[u8]) -> usize
    ensures value { result ≡ front_to ends_name bytes.now }
    ensures within { result ≤ length bytes.now }
{
    match end_place(bytes) {
        Some(place) => place,
        None => bytes.len(),
    }
}

/// What stands behind blanks and brackets.
fn without_front(bytes: &[u8]) -> &[u8]
    ensures { result.now ≡ without_front bytes.now }
{
    let (_, rest) = bytes.split_at(front(bytes));
    rest
}

/// The name that stands first.
#[tactic(auto, unfolding(crate::specs::Texts::name_of))]
pub(crate) fn name_of(bytes: &[u8]) -> &[u8]
    ensures { result.now ≡ name_of bytes.now }
{
    let bytes = without_front(bytes);
    let (name, _) = bytes.split_at(name_end(bytes));
    name
}

/// Whether a line begins at a place of a text, and another between it and a later one.
fn begins_line(text: &[u8], at: usize, start: usize) -> bool
    requires order { at ≤ start }
    requires within { start ≤ length text.now }
{
    let (before, behind) = text.split_at(at);
    let (between, _) = behind.split_at(start - at);
    matches!(before, [] | [.., b'\n']) && between.contains(&b'\n')
}

/// Where a line begins, the last before that of a place, whose first name this is.
fn earlier(text: &[u8], start: usize, name: &[u8]) -> Option<usize>
    requires { start ≤ length text.now }
    ensures before { IfSome result (λ at. at < start) }
    ensures there { IfSome result (λ at. name_of (drop at text.now) ≡ name.now) }
{
    for at in (0..start).rev() {
        let (_, line) = text.split_at(at);
        if name_of(line) == name && begins_line(text, at, start) {
            return Some(at);
        }
    }
    None
}

#[tactic(auto, unfolding(crate::specs::Texts::earlier_text))]
fn push_earlier(text: &mut Vec<u8>, name: &[u8], number: u64) -> Result<(), AllocError>
    ensures { OnOk result (text.new.items ≡ text.old.items ++ earlier_text name.now number) }
{
    push_quoted(text, name)?;
    push_behind(text, " stands in line ", number)?;
    text.extend_from_slice(b" already")
}

/// In which line before a place of a text the name stands, too, that stands there first; nothing where none is found.
pub(crate) fn earlier_hint(alloc: Global, text: &[u8], start: usize) -> Result<Vec<u8>, AllocError>
    requires { start ≤ length text.now }
    ensures { IfOk result (λ v. IsEarlier text.now start v.items) }
{
    let mut hint = Vec::new(alloc);
    let (_, line) = text.split_at(start);
    let name = name_of(line);
    if let Some(at) = earlier(text, start, name) {
        push_earlier(&mut hint, name, line_at(text, at))?;
    }
    Ok(hint)
}
