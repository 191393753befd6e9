//! Why a line is no expectation.

ghost use Rattle.std.specs.Prelude.{◌≡◌, ◌++◌, OnOk};
ghost use Rattle.pd_edit_lines.specs.Words.{next, words};
ghost use Rattle.pd_expect.specs.Lines.{test_line};
ghost use Rattle.pd_expect.specs.Refusals.{begins_with_expect, no_expectation_text, other_line};

use crate::TestLine;
use crate::refusal::wrong_words;
use crate::words::{push_bare_margin, push_empty_range, push_no_test, push_no_text};
use pd_edit_lines::{EditFault, next};
use pd_scene::refused_at;
use pd_text::Front;
use std::alloc::{AllocError, Global};

/// Whether the first word of a line is `expect`.
fn begins_with_expect(line: &[u8]) -> bool
    ensures { result ≡ begins_with_expect (next (words line.now)) }
{
    match next(line) {
        None => false,
        Some((word, _)) => word == b"expect".as_slice(),
    }
}

/// Writes that a line that stands there begins with another word.
#[tactic(auto, unfolding(crate::specs::Refusals::other_line))]
fn push_other(alloc: Global, text: &mut Vec<u8>, at: &Front) -> Result<(), AllocError>
    ensures { OnOk result (text.new.items ≡ text.old.items ++ other_line at.now) }
{
    let front = refused_at(alloc, at, EditFault::Syntax)?;
    front.say(text, b"", b"it isn't a line that begins with `expect`", b"")
}

/// Writes why a line that stands there is no expectation, as that is told of a line of a test script; nothing of one that is.
///
/// # Errors
/// There is no memory for it; some of it may stand in the text.
pub fn push_no_expectation(
    alloc: Global,
    text: &mut Vec<u8>,
    at: &Front,
    line: &[u8],
) -> Result<(), AllocError>
    ensures { OnOk result (text.new.items ≡ text.old.items ++ no_expectation_text line.now (test_line line.now) at.now) }
{
    match TestLine::read(line) {
        TestLine::Expect(_) => Ok(()),
        TestLine::EmptyRange(span) => push_empty_range(alloc, text, at, span),
        TestLine::BareMargin(bare) => push_bare_margin(alloc, text, at, bare),
        TestLine::NoFaultText => push_no_text(alloc, text, at, wrong_words(line)),
        TestLine::NoTest if begins_with_expect(line) => push_no_test(alloc, text, at, line),
        TestLine::NoTest | TestLine::Edit | TestLine::Lose(_) => push_other(alloc, text, at),
    }
}
