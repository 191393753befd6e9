//! What came of test scripts, as a report of JUnit's form.

ghost use Rattle.std.specs.Prelude.{◌≡◌, ◌≤◌, ◌^◌, ◌++◌, IfOk, OnOk};
ghost use Rattle.std.specs.List.{flat_map};
ghost use Rattle.std.specs.Str.Lines.{lines};
ghost use Rattle.pd_edit_lines.specs.Words.{next};
ghost use Rattle.pd_expect.specs.Junit.{amount_of, amounts, case_head, case_name, case_place, case_xml, declaration, fault_case};
ghost use Rattle.pd_expect.specs.Junit.{fault_xml, faults, first_or_none, head};
ghost use Rattle.pd_expect.specs.Junit.{inner, junit, place_words, reason, suite_head, suite_xml, sum_of, told, verdict_pieces};
ghost use Rattle.pd_expect.specs.Words.{there_is};
ghost use Rattle.pd_expect.specs.Xml.{xml_text};

use crate::bytes::Bytes;
use crate::case::{Case, Verdict, push_case};
use crate::found::Found;
use crate::named::without;
use crate::tally::{Kind, count_of};
use crate::words::push_there_is;
use crate::xml::Xml::{Markup, Number, Seconds, Text};
use crate::xml::push_xml;
use pd_scene::first_line;
use pd_tell::push_number;
use pd_text::Form;
use std::alloc::{AllocError, Global};

/// What came of a test script.
#[derive(Drop)]
pub struct Suite {
    /// Its name.
    pub script: Bytes,
    /// What came of its lines, in order.
    pub cases: Vec<Case>,
    /// Why it couldn't be gone through, and nothing where it could.
    pub fault: Bytes,
    /// How long it took, in microseconds.
    pub micros: u64,
}

/// What is summed over scripts.
#[derive(Clone, Copy, Debug)]
pub(crate) enum Amount {
    Tests,
    Failures,
    Errors,
    Time,
}

/// What is told of a case in words, without the line's end.
fn told(alloc: Global, script: &[u8], case: &Case) -> Result<Vec<u8>, AllocError>
    ensures { IfOk result (λ text. text.items ≡ told script.now case.now) }
{
    let mut text = Vec::new(alloc);
    push_case(alloc, &mut text, Form::Words, true, script, case)?;
    let count = text.len().saturating_sub(1);
    text.truncate(count);
    Ok(text)
}

/// Where a line stands, as it is told.
#[tactic(auto, unfolding(crate::specs::Junit::place_words))]
fn place_words(alloc: Global, script: &[u8], line: u64) -> Result<Vec<u8>, AllocError>
    ensures { IfOk result (λ text. text.items ≡ place_words script.now line) }
{
    let mut text = Vec::new(alloc);
    text.extend_from_slice(script)?;
    text.extend_from_slice(b":")?;
    push_number(&mut text, line)?;
    text.extend_from_slice(b": ")?;
    Ok(text)
}

/// The first line of a text, without its end.
fn first_or_none(text: &[u8]) -> &[u8]
    ensures { result.now ≡ first_or_none (next (lines text.now)) }
{
    match first_line(text) {
        None => b"",
        Some((line, _)) => line,
    }
}

/// What is told first of a line that is refused, behind where it stands.
fn reason<'a>(
    alloc: Global,
    script: &[u8],
    line: u64,
    words: &'a [u8],
) -> Result<&'a [u8], AllocError>
    ensures { IfOk result (λ why. why.now ≡ reason script.now line words.now) }
{
    let place = place_words(alloc, script, line)?;
    Ok(first_or_none(without(words, place.len())))
}

/// Writes what begins the element of a case, up to its name.
fn push_name<'a>(text: &mut Vec<u8>, script: &'a [u8], case: &'a Case) -> Result<(), AllocError>
    ensures { OnOk result (text.new.items ≡ text.old.items ++ xml_text (case_name script.now case.now)) }
{
    push_xml(
        text,
        &[
            Markup(b"<testcase classname=\""),
            Text(script),
            Markup(b"\" name=\""),
            Number(case.number as u128),
            Markup(b": "),
            Text(case.line.as_slice()),
        ],
    )
}

/// Writes where the line of a case stands.
fn push_place(text: &mut Vec<u8>, script: &[u8], line: u64) -> Result<(), AllocError>
    ensures { OnOk result (text.new.items ≡ text.old.items ++ xml_text (case_place script.now line)) }
{
    push_xml(
        text,
        &[
            Markup(b"\" file=\""),
            Text(script),
            Markup(b"\" line=\""),
            Number(line as u128),
            Markup(b"\""),
        ],
    )
}

/// Writes what begins the element of a case.
#[tactic(auto, unfolding(crate::specs::Junit::case_head))]
fn push_head(text: &mut Vec<u8>, script: &[u8], case: &Case) -> Result<(), AllocError>
    ensures { OnOk result (text.new.items ≡ text.old.items ++ case_head script.now case.now) }
{
    push_name(text, script, case)?;
    push_place(text, script, case.number)
}

/// Writes the element in that of a case that didn't pass, and ends the latter.
fn push_inner<'a>(
    text: &mut Vec<u8>,
    name: &'a [u8],
    message: &'a [u8],
    words: &'a [u8],
) -> Result<(), AllocError>
    ensures { OnOk result (text.new.items ≡ text.old.items ++ xml_text (inner name.now message.now words.now)) }
{
    push_xml(
        text,
        &[
            Markup(b">\n<"),
            Markup(name),
            Markup(b" message=\""),
            Text(message),
            Markup(b"\">"),
            Text(words),
            Markup(b"</"),
            Markup(name),
            Markup(b">\n</testcase>\n"),
        ],
    )
}

/// What there is in place of what is expected.
fn there_is(alloc: Global, found: &Found, details: &[u8]) -> Result<Vec<u8>, AllocError>
    ensures { IfOk result (λ text. text.items ≡ there_is found.now details.now) }
{
    let mut text = Vec::new(alloc);
    push_there_is(&mut text, found, details)?;
    Ok(text)
}

/// Writes what came of a line, and ends the element of its case.
fn push_verdict(
    alloc: Global,
    text: &mut Vec<u8>,
    script: &[u8],
    line: u64,
    verdict: &Verdict,
    words: &[u8],
) -> Result<(), AllocError>
    ensures { OnOk result (text.new.items
        ≡ text.old.items ++ xml_text (verdict_pieces script.now line verdict.now words.now)) }
{
    match verdict {
        Verdict::Passed => push_xml(text, &[Markup(b"/>\n")]),
        Verdict::Failed { found, details } => {
            let message = there_is(alloc, found, details.as_slice())?;
            push_inner(text, b"failure", message.as_slice(), words)
        }
        Verdict::Refused { words: said, .. } => {
            let message = reason(alloc, script, line, said.as_slice())?;
            push_inner(text, b"error", message, words)
        }
    }
}

/// Writes a case.
#[tactic(auto, unfolding(crate::specs::Junit::case_xml))]
fn push_test(
    alloc: Global,
    text: &mut Vec<u8>,
    script: &[u8],
    case: &Case,
) -> Result<(), AllocError>
    ensures { OnOk result (text.new.items ≡ text.old.items ++ case_xml script.now case.now) }
{
    let words = told(alloc, script, case)?;
    push_head(text, script, case)?;
    push_verdict(
        alloc,
        text,
        script,
        case.number,
        &case.verdict,
        words.as_slice(),
    )
}

/// Writes the cases of a script.
fn push_tests(
    alloc: Global,
    text: &mut Vec<u8>,
    script: &[u8],
    cases: &[Case],
) -> Result<(), AllocError>
    ensures { OnOk result (text.new.items ≡ text.old.items ++ flat_map (case_xml script.now) cases.now) }
{
    for case in cases {
        push_test(alloc, text, script, case)?;
    }
    Ok(())
}

/// Writes that a script couldn't be gone through, as a case of its own.
fn push_fault_case(text: &mut Vec<u8>, script: &[u8], fault: &[u8]) -> Result<(), AllocError>
    ensures { OnOk result (text.new.items ≡ text.old.items ++ fault_case script.now fault.now) }
{
    push_xml(
        text,
        &[
            Markup(b"<testcase classname=\""),
            Text(script),
            Markup(b"\" name=\""),
            Text(script),
            Markup(b"\" file=\""),
            Text(script),
            Markup(b"\""),
        ],
    )?;
    push_inner(text, b"error", fault, fault)
}

/// The same, where it couldn't.
fn push_fault(text: &mut Vec<u8>, script: &[u8], fault: &[u8]) -> Result<(), AllocError>
    ensures { OnOk result (text.new.items ≡ text.old.items ++ fault_xml script.now fault.now) }
{
    if fault.is_empty() {
        Ok(())
    } else {
        push_fault_case(text, script, fault)
    }
}

/// How many cases it is that a script couldn't be gone through.
fn faults(fault: &[u8]) -> u128
    ensures { result ≡ faults fault.now }
{
    if fault.is_empty() { 0 } else { 1 }
}

/// One of the amounts of a script.
fn amount_of(what: Amount, suite: &Suite) -> u128
    ensures value { result ≡ amount_of what suite.now }
    ensures room { result ≤ 2 ^ 64 }
{
    match what {
        Amount::Tests => suite.cases.len() as u128 + faults(suite.fault.as_slice()),
        Amount::Failures => count_of(Kind::Failed, &suite.cases) as u128,
        Amount::Errors => {
            count_of(Kind::Refused, &suite.cases) as u128 + faults(suite.fault.as_slice())
        }
        Amount::Time => u128::from(suite.micros),
    }
}

/// The sum of one of the amounts over scripts.
fn sum_of(what: Amount, suites: &[Suite]) -> u128
    ensures { result ≡ sum_of what suites.now }
{
    let mut sum = 0;
    for suite in suites {
        sum += amount_of(what, suite);
    }
    sum
}

/// Writes amounts as attributes, and ends the beginning of their element.
fn push_amounts(
    text: &mut Vec<u8>,
    tests: u128,
    failures: u128,
    errors: u128,
    us: u128,
) -> Result<(), AllocError>
    ensures { OnOk result (text.new.items ≡ text.old.items ++ xml_text (amounts tests failures errors us)) }
{
    push_xml(
        text,
        &[
            Markup(b" tests=\""),
            Number(tests),
            Markup(b"\" failures=\""),
            Number(failures),
            Markup(b"\" errors=\""),
            Number(errors),
            Markup(b"\" time=\""),
            Seconds(us),
            Markup(b"\">\n"),
        ],
    )
}

/// Writes what begins the element of a script.
fn push_suite_head(text: &mut Vec<u8>, suite: &Suite) -> Result<(), AllocError>
    ensures { OnOk result (text.new.items ≡ text.old.items ++ suite_head suite.now) }
{
    push_xml(
        text,
        &[
            Markup(b"<testsuite name=\""),
            Text(suite.script.as_slice()),
            Markup(b"\""),
        ],
    )?;
    push_amounts(
        text,
        amount_of(Amount::Tests, suite),
        amount_of(Amount::Failures, suite),
        amount_of(Amount::Errors, suite),
        amount_of(Amount::Time, suite),
    )
}

/// Writes what came of a script.
#[tactic(auto, unfolding(crate::specs::Junit::suite_xml))]
fn push_suite(alloc: Global, text: &mut Vec<u8>, suite: &Suite) -> Result<(), AllocError>
    ensures { OnOk result (text.new.items ≡ text.old.items ++ suite_xml suite.now) }
{
    push_suite_head(text, suite)?;
    push_tests(alloc, text, suite.script.as_slice(), &suite.cases)?;
    push_fault(text, suite.script.as_slice(), suite.fault.as_slice())?;
    text.extend_from_slice(b"</testsuite>\n")
}

/// Writes what came of scripts, one after the other.
fn push_suites(alloc: Global, text: &mut Vec<u8>, suites: &[Suite]) -> Result<(), AllocError>
    ensures { OnOk result (text.new.items ≡ text.old.items ++ flat_map suite_xml suites.now) }
{
    for suite in suites {
        push_suite(alloc, text, suite)?;
    }
    Ok(())
}

/// What a report begins with.
#[tactic(auto, unfolding(crate::specs::Junit::declaration))]
fn declaration() -> &'static [u8]
    ensures { result.now ≡ declaration }
{
    b"<?xml version=\"1.0\" encoding=\"UTF-8\"?>\n<testsuites"
}

/// Writes what begins a report.
fn push_report_head(text: &mut Vec<u8>, suites: &[Suite]) -> Result<(), AllocError>
    ensures { OnOk result (text.new.items ≡ text.old.items ++ head suites.now) }
{
    text.extend_from_slice(declaration())?;
    push_amounts(
        text,
        sum_of(Amount::Tests, suites),
        sum_of(Amount::Failures, suites),
        sum_of(Amount::Errors, suites),
        sum_of(Amount::Time, suites),
    )
}

/// Writes a report of JUnit's form of what came of test scripts: the sums, and each case of each script once, in order. One that
/// couldn't be gone through is an error.
///
/// # Errors
/// There is no memory for it; some of it may stand in the text.
#[tactic(auto, unfolding(crate::specs::Junit::junit))]
pub fn push_junit(alloc: Global, text: &mut Vec<u8>, suites: &[Suite]) -> Result<(), AllocError>
    ensures { OnOk result (text.new.items ≡ text.old.items ++ junit suites.now) }
{
    push_report_head(text, suites)?;
    push_suites(alloc, text, suites)?;
    text.extend_from_slice(b"</testsuites>\n")
}
