//! What comes of the lines of a test script, and how that is told.

ghost use Rattle.std.specs.Prelude.{◌≡◌, ◌++◌, IfOk, OnOk};
ghost use Rattle.pd_text.specs.Fronts.{front_of_file};
ghost use Rattle.pd_scene.specs.Script.{at_line};
ghost use Rattle.pd_expect.specs.Cases.{case_text, cases_text, in_form, passed_text, verdict_text};

use crate::bytes::Bytes;
use crate::found::Found;
use crate::words::{push_failure, push_pass};
use pd_scene::at_line;
use pd_text::{Form, Front};
use std::alloc::{AllocError, Global};

/// What comes of a line.
#[derive(Drop)]
pub enum Verdict {
    /// Its expectation is met.
    Passed,
    /// It isn't met: what there is in its place, and details of that.
    Failed { found: Found, details: Bytes },
    /// The line is refused, or its packet isn't lost: what is told of it, in words and as JSON objects.
    Refused { words: Bytes, objects: Bytes },
}

/// A line of a script of which something is to be told: its number, from 1, the line, and what comes of it.
#[derive(Drop)]
pub struct Case {
    pub number: u64,
    pub line: Bytes,
    pub verdict: Verdict,
}

/// Where the line of a number of a script stands, in a form.
pub(crate) fn place(
    alloc: Global,
    form: Form,
    name: &[u8],
    number: u64,
) -> Result<Front, AllocError>
    ensures { IfOk result (λ front. front ≡ at_line (front_of_file form name.now) number) }
{
    let file = Front::of_file(alloc, form, name)?;
    at_line(alloc, &file, number)
}

/// One of two texts, by the form.
fn in_form<'a>(form: Form, words: &'a [u8], objects: &'a [u8]) -> &'a [u8]
    ensures { result.now ≡ in_form form words.now objects.now }
{
    match form {
        Form::Words => words,
        Form::Json => objects,
    }
}

/// Writes that an expectation is met, where that is told.
fn push_passed(text: &mut Vec<u8>, passes: bool, at: &Front, line: &[u8]) -> Result<(), AllocError>
    ensures { OnOk result (text.new.items ≡ text.old.items ++ passed_text passes at.now line.now) }
{
    if passes {
        push_pass(text, at, line)
    } else {
        Ok(())
    }
}

/// Writes what is told of a line that stands there.
fn push_verdict(
    alloc: Global,
    text: &mut Vec<u8>,
    form: Form,
    passes: bool,
    at: &Front,
    line: &[u8],
    verdict: &Verdict,
) -> Result<(), AllocError>
    ensures { OnOk result (text.new.items ≡ text.old.items ++ verdict_text form passes at.now line.now verdict.now) }
{
    match verdict {
        Verdict::Passed => push_passed(text, passes, at, line),
        Verdict::Failed { found, details } => {
            push_failure(alloc, text, at, line, found, details.as_slice())
        }
        Verdict::Refused { words, objects } => {
            text.extend_from_slice(in_form(form, words.as_slice(), objects.as_slice()))
        }
    }
}

/// Writes what is told of a case.
#[tactic(auto, unfolding(crate::specs::Cases::case_text))]
pub(crate) fn push_case(
    alloc: Global,
    text: &mut Vec<u8>,
    form: Form,
    passes: bool,
    name: &[u8],
    case: &Case,
) -> Result<(), AllocError>
    ensures { OnOk result (text.new.items ≡ text.old.items ++ case_text form passes name.now case.now) }
{
    let at = place(alloc, form, name, case.number)?;
    push_verdict(
        alloc,
        text,
        form,
        passes,
        &at,
        case.line.as_slice(),
        &case.verdict,
    )
}

/// Writes what is told in a form of the cases of a script of a name: a line or an object of each that fails or is refused, and with
/// `passes` of each that passes too.
///
/// # Errors
/// There is no memory for it; some of it may stand in the text.
pub fn push_cases(
    alloc: Global,
    text: &mut Vec<u8>,
    form: Form,
    passes: bool,
    name: &[u8],
    cases: &[Case],
) -> Result<(), AllocError>
    ensures { OnOk result (text.new.items ≡ text.old.items ++ cases_text form passes name.now cases.now) }
{
    for case in cases {
        push_case(alloc, text, form, passes, name, case)?;
    }
    Ok(())
}
