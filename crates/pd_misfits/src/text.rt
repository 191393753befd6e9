//! Where the text of a scenario file breaks a rule.

ghost use Rattle.std.specs.Prelude.{◌≡◌, ◌≤◌, IfOk, length};
ghost use Rattle.pd_misfits.specs.Texts.{IsEarlier, line_at, syntax_front, TellsError};
ghost use Rattle.toml.specs.Errors.{IsMemory, IsWithin};

use crate::earlier::earlier_hint;
use pd_text::{Front, Piece, Unit};
use std::alloc::{AllocError, Global};
use toml::de::Error;

/// The number of the line in which a place of a text is, from 1.
pub(crate) fn line_at(text: &[u8], at: usize) -> u64
    requires { at ≤ length text.now }
    ensures { result ≡ line_at text.now at }
{
    let mut line = 1;
    for byte in &text[..at] {
        if *byte == b'\n' {
            line += 1;
        }
    }
    line
}

/// What is told first of a line from which on a file is no TOML.
#[tactic(auto, unfolding(crate::specs::Texts::syntax_front))]
fn syntax_front(alloc: Global, file: &Front, line: u64) -> Result<Front, AllocError>
    ensures { IfOk result (λ front. front ≡ syntax_front file.now line) }
{
    file.with(
        alloc,
        &[
            Piece::Number(b":", b"line", Unit::Plain, line),
            Piece::Number(b": refused ", b"refusal", Unit::Plain, 1),
            Piece::LineWords(b": "),
        ],
    )
}

/// Where the text has a key twice, in which line it stands before the error, as far as that is found; else nothing.
fn hint_of(alloc: Global, text: &[u8], error: &Error, start: usize) -> Result<Vec<u8>, AllocError>
    requires { start ≤ length text.now }
    ensures { IfOk result (λ v. IsEarlier text.now start v.items) }
{
    if error.message() == "duplicate key" {
        earlier_hint(alloc, text, start)
    } else {
        Ok(Vec::new(alloc))
    }
}

/// What is wrong in a text that is no TOML, by the error of the library that read it: the line in which that begins, and its words.
///
/// # Errors
/// There is no memory, or there was none as the text was read.
pub fn explain_error(
    alloc: Global,
    file: &Front,
    text: &[u8],
    error: &Error,
) -> Result<Vec<u8>, AllocError>
    requires within { IsWithin text.now error.now }
    ensures { IfOk result (λ v. (¬ IsMemory error.now) × TellsError file.now text.now error.now v.items) }
{
    let Some(span) = error.span() else {
        return Err(AllocError);
    };
    let front = syntax_front(alloc, file, line_at(text, span.start))?;
    let hint = hint_of(alloc, text, error, span.start)?;
    let mut said = Vec::new(alloc);
    let message = error.message().as_bytes();
    front.say(&mut said, b"", message, hint.as_slice())?;
    Ok(said)
}
