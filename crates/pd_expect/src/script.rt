//! The lines of a test script, one after the other.

ghost use Rattle.std.specs.Prelude.{◌≡◌, ◌++◌, IfOk, OnOk};
ghost use Rattle.std.specs.Str.Lines.{lines};
ghost use Rattle.pd_scenario.specs.Plans.{plan_of};
ghost use Rattle.pd_expect.specs.Named.{script_lines};
ghost use Rattle.pd_expect.specs.Sentences.{last_time, late_time, port_of, unknown_port};
ghost use Rattle.pd_expect.specs.Tests.{AnswersAs, Expects, ExpectsInTime, IsAnswer, Judges, Loses, Tests, case_of};
ghost use Rattle.pd_expect.specs.declared.lines.TestLine.TheVariants.{Edit as line_is_edit};

use crate::bytes::Bytes;
use crate::case::{Case, Verdict};
use crate::details::details;
use crate::found::{found_in, is_met, last_time, port_of};
use crate::loss::lose;
use crate::named::without_mark;
use crate::refusal::{Places, Refusal, refused};
use crate::{Expectation, Lost, TestLine};
use pd_explain::is_port;
use pd_port::Meter;
use pd_run::Runner;
use pd_scenario::Scenario;
use pd_scene::{explain_line, first_line};
use std::alloc::{AllocError, Global};

/// The port among those that an expectation names that isn't there.
fn unknown_port(ports: usize, port: Option<u64>) -> Option<u64>
    ensures { result ≡ unknown_port ports port }
{
    match port {
        Some(port) if !is_port(ports, port) => Some(port),
        _ => None,
    }
}

/// Makes the edit of a line, or says why it is refused. What refuses it in words does so as objects too: the scenario stays.
#[tactic(auto, using(crate::proofs::EditLemmas::said_stays))]
fn edit<const N: usize>(
    alloc: Global,
    scenario: &mut Scenario<N>,
    at: &Places,
    line: &[u8],
) -> Result<Option<Verdict>, AllocError>
    ensures { IfOk result (λ verdict. AnswersAs N scenario.old at.now line.now line_is_edit
        (record { verdict = verdict; after = scenario.new })) }
{
    let mut words = Vec::new(alloc);
    explain_line(alloc, &mut words, &at.words, scenario, line)?;
    if words.is_empty() {
        return Ok(None);
    }
    let mut objects = Vec::new(alloc);
    explain_line(alloc, &mut objects, &at.objects, scenario, line)?;
    Ok(Some(Verdict::Refused {
        words: Bytes::of(words),
        objects: Bytes::of(objects),
    }))
}

/// Holds an expectation against the run of a scenario.
fn judge<const N: usize, T: Runner<N>>(
    alloc: Global,
    run: &mut T,
    scenario: &Scenario<N>,
    line: &[u8],
    expectation: &Expectation,
    meter: &mut Meter,
) -> Result<Verdict, AllocError>
    ensures { IfOk result (λ verdict. Judges scenario.now line.now expectation.now verdict) }
{
    run.replace(alloc, scenario, meter)?;
    let found = found_in(alloc, expectation, run, scenario, line)?;
    if is_met(expectation, &found) {
        return Ok(Verdict::Passed);
    }
    let details = details(alloc, expectation, run, line, &found)?;
    Ok(Verdict::Failed {
        found,
        details: Bytes::of(details),
    })
}

/// The last time that an expectation names, if it is after the end.
pub(crate) fn late_time(end: u64, time: Option<u64>) -> Option<u64>
    ensures { result ≡ late_time end time }
{
    match time {
        Some(time) if end < time => Some(time),
        _ => None,
    }
}

/// Holds an expectation against the run of a scenario, where it names no time after the end.
fn expect_in_time<const N: usize, T: Runner<N>>(
    alloc: Global,
    run: &mut T,
    scenario: &Scenario<N>,
    at: &Places,
    line: &[u8],
    expectation: &Expectation,
    meter: &mut Meter,
) -> Result<Verdict, AllocError>
    ensures { IfOk result (λ verdict. ExpectsInTime N scenario.now at.now line.now expectation.now
        (late_time (plan_of scenario.now).end (last_time expectation.now)) verdict) }
{
    let end = scenario.end_time();
    match late_time(end, last_time(expectation)) {
        None => judge(alloc, run, scenario, line, expectation, meter),
        Some(time) => {
            let refusal = Refusal::Late {
                expectation: *expectation,
                time,
                end,
            };
            refused(alloc, scenario, at, line, &refusal)
        }
    }
}

/// Holds an expectation against the run of a scenario, where the port that it names is there.
fn expect<const N: usize, T: Runner<N>>(
    alloc: Global,
    run: &mut T,
    scenario: &Scenario<N>,
    at: &Places,
    line: &[u8],
    expectation: &Expectation,
    meter: &mut Meter,
) -> Result<Verdict, AllocError>
    ensures { IfOk result (λ verdict. Expects N scenario.now at.now line.now expectation.now
        (unknown_port N (port_of expectation.now)) verdict) }
{
    match unknown_port(N, port_of(expectation)) {
        None => expect_in_time(alloc, run, scenario, at, line, expectation, meter),
        Some(port) => refused(alloc, scenario, at, line, &Refusal::NoPort(port)),
    }
}

/// Loses the packet that a line names, or says why it can't be.
fn lose_named<const N: usize, T: Runner<N>>(
    alloc: Global,
    run: &mut T,
    scenario: &mut Scenario<N>,
    at: &Places,
    line: &[u8],
    lost: &Lost,
    meter: &mut Meter,
) -> Result<Option<Verdict>, AllocError>
    ensures { IfOk result (λ verdict. Loses N scenario.old at.now line.now lost.now
        (record { verdict = verdict; after = scenario.new })) }
{
    match lose(alloc, run, scenario, lost, meter) {
        Ok(Ok(after)) => {
            *scenario = after;
            Ok(None)
        }
        Ok(Err(fault)) => {
            let verdict = refused(alloc, scenario, at, line, &Refusal::NotLost(fault))?;
            Ok(Some(verdict))
        }
        Err(_) => Err(AllocError),
    }
}

/// What a line of a test script comes to.
fn answer_line<const N: usize, T: Runner<N>>(
    alloc: Global,
    run: &mut T,
    scenario: &mut Scenario<N>,
    at: &Places,
    line: &[u8],
    meter: &mut Meter,
) -> Result<Option<Verdict>, AllocError>
    ensures { IfOk result (λ verdict. IsAnswer N scenario.old at.now line.now (record { verdict = verdict; after = scenario.new })) }
{
    let refusal = match TestLine::read(line) {
        TestLine::Edit => return edit(alloc, scenario, at, line),
        TestLine::Lose(lost) => return lose_named(alloc, run, scenario, at, line, &lost, meter),
        TestLine::Expect(expectation) => {
            let verdict = expect(alloc, run, scenario, at, line, &expectation, meter)?;
            return Ok(Some(verdict));
        }
        TestLine::EmptyRange(span) => Refusal::EmptyRange(span),
        TestLine::BareMargin(bare) => Refusal::BareMargin(bare),
        TestLine::NoFaultText => Refusal::NoFaultText,
        TestLine::NoTest => Refusal::NoTest,
    };
    let verdict = refused(alloc, scenario, at, line, &refusal)?;
    Ok(Some(verdict))
}

/// Adds the case of a line, if there is a verdict on it.
fn push_case(
    alloc: Global,
    cases: &mut Vec<Case>,
    number: u64,
    line: &[u8],
    verdict: Option<Verdict>,
) -> Result<(), AllocError>
    ensures { OnOk result (cases.new.items ≡ cases.old.items ++ case_of number line.now verdict) }
{
    let Some(verdict) = verdict else {
        return Ok(());
    };
    let line = Bytes::copied(alloc, line)?;
    cases.push(Case {
        number,
        line,
        verdict,
    })?;
    Ok(())
}

/// The cases of the lines of a script of a name.
fn test_lines<const N: usize, T: Runner<N>>(
    alloc: Global,
    run: &mut T,
    scenario: Scenario<N>,
    name: &[u8],
    script: &[u8],
    meter: &mut Meter,
) -> Result<Vec<Case>, AllocError>
    ensures { IfOk result (λ cases. Tests N scenario.entry name.now 1 (lines script.now) cases.items) }
{
    let mut scenario = scenario;
    let mut cases = Vec::new(alloc);
    let mut rest = script;
    let mut number = 1;
    while let Some((line, others)) = first_line(rest) {
        let at = Places::of(alloc, name, number)?;
        let verdict = answer_line(alloc, run, &mut scenario, &at, line, meter)?;
        push_case(alloc, &mut cases, number, line, verdict)?;
        rest = others;
        number += 1;
    }
    Ok(cases)
}

/// Goes through the lines of a test script of a name, each with the scenario as edited by then: makes edits, loses packets that are
/// named, and holds what is expected against the run. Says what comes of each expectation and of each line that is refused. The script
/// may have a byte order mark before its first line.
///
/// # Errors
/// There is no memory.
pub fn test_script<const N: usize, T: Runner<N>>(
    alloc: Global,
    run: &mut T,
    scenario: Scenario<N>,
    name: &[u8],
    script: &[u8],
    meter: &mut Meter,
) -> Result<Vec<Case>, AllocError>
    ensures { IfOk result (λ cases. Tests N scenario.entry name.now 1 (script_lines script.now) cases.items) }
{
    test_lines(alloc, run, scenario, name, without_mark(script), meter)
}
