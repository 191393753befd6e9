//! Expectations that each row is held against.

ghost use Rattle.std.specs.Prelude.{◌≡◌, ◌++◌, IfOk, List, OnOk, Option, Bool, option_map};
ghost use Rattle.std.specs.List.{list_all};
ghost use Rattle.pd_scenario.specs.Plans.{plan_of};
ghost use Rattle.pd_vary.specs.Conditions.{AreHeld, asked_port, condition_of, condition_port, further_port, holds};
ghost use Rattle.pd_vary.specs.Conditions.{no_condition_text, option_word};

use crate::Ask;
use crate::ask::greatest_port;
use pd_expect::{Expectation, TestLine, holds as is_held, port_of, push_no_expectation};
use pd_run::Runner;
use pd_scenario::Scenario;
use pd_text::{Form, Front};
use std::alloc::{AllocError, Global};

/// An expectation that each row is held against, and the line that says it.
#[derive(Clone, Copy, Debug)]
pub struct Condition<'a> {
    pub line: &'a [u8],
    pub expectation: Expectation,
}

/// Reads a line of a test script that begins with `expect`. None where it is none.
pub fn read_condition(line: &[u8]) -> Option<Condition<'_>>
    ensures { option_map (λ condition. (condition.line.now, condition.expectation)) result ≡ condition_of line.now }
{
    match TestLine::read(line) {
        TestLine::Expect(expectation) => Some(Condition { line, expectation }),
        _ => None,
    }
}

/// A line as it is named: behind its option.
fn option_word(alloc: Global, line: &[u8]) -> Result<Vec<u8>, AllocError>
    ensures { IfOk result (λ word. word.items ≡ option_word line.now) }
{
    let mut word = Vec::new(alloc);
    word.extend_from_slice(b"--where `")?;
    word.extend_from_slice(line)?;
    word.extend_from_slice(b"`")?;
    Ok(word)
}

/// Writes why a line is no condition, as `pdlab test` tells it of a line of a script; nothing of one that is.
///
/// # Errors
/// There is no memory for it; some of it may stand in the text.
pub fn push_no_condition(alloc: Global, text: &mut Vec<u8>, line: &[u8]) -> Result<(), AllocError>
    ensures { OnOk result (text.new.items ≡ text.old.items ++ no_condition_text line.now) }
{
    let word = option_word(alloc, line)?;
    let at = Front::of_file(alloc, Form::Words, word.as_slice())?;
    push_no_expectation(alloc, text, &at, line)
}

/// The greater of two ports; but 0, which no charger has, stands before any.
fn further_port(port: Option<usize>, other: Option<u64>) -> Option<usize>
    ensures { result ≡ further_port port other }
{
    match (port, other) {
        (port, None) => port,
        (None, Some(other)) => Some(other as usize),
        (Some(port), Some(other)) if port == 0 || other == 0 => Some(0),
        (Some(port), Some(other)) => Some(port.max(other as usize)),
    }
}

/// The port beside that of a condition.
fn condition_port(port: Option<usize>, condition: &Condition<'_>) -> Option<usize>
    ensures { result ≡ condition_port port condition.now }
{
    further_port(port, port_of(&condition.expectation))
}

/// The port that has to be there, so that all are of which something is asked or expected.
pub(crate) fn asked_port(asks: &[Ask], wheres: &[Condition<'_>]) -> Option<usize>
    ensures { result ≡ asked_port asks.now wheres.now }
{
    let mut port = greatest_port(asks);
    for condition in wheres {
        port = condition_port(port, condition);
    }
    port
}

/// Adds whether each condition holds of the run of a scenario.
#[tactic(auto, unfolding(crate::specs::Conditions::AreHeld))]
fn push_verdicts<const N: usize, T: Runner<N>>(
    alloc: Global,
    verdicts: &mut Vec<Option<bool>>,
    run: &T,
    scenario: &Scenario<N>,
    wheres: &[Condition<'_>],
) -> Result<(), AllocError>
    ensures { OnOk result ((more : List (Option Bool)) × AreHeld (plan_of scenario.now) (T.entries run.now) wheres.now more
        × (verdicts.new.items ≡ verdicts.old.items ++ more)) }
{
    let [first, more @ ..] = wheres else {
        return Ok(());
    };
    let verdict = is_held(alloc, run, scenario, first.line, &first.expectation)?;
    verdicts.push(verdict)?;
    push_verdicts(alloc, verdicts, run, scenario, more)
}

/// Whether each condition holds of the run of a scenario; none of one of a time after its end.
pub(crate) fn verdicts_of<const N: usize, T: Runner<N>>(
    alloc: Global,
    run: &T,
    scenario: &Scenario<N>,
    wheres: &[Condition<'_>],
) -> Result<Vec<Option<bool>>, AllocError>
    ensures { IfOk result (λ verdicts. AreHeld (plan_of scenario.now) (T.entries run.now) wheres.now verdicts.items) }
{
    let mut verdicts = Vec::new(alloc);
    push_verdicts(alloc, &mut verdicts, run, scenario, wheres)?;
    Ok(verdicts)
}

/// Whether a condition holds, where that is known.
fn holds(verdict: Option<bool>) -> bool
    ensures { result ≡ holds verdict }
{
    verdict.unwrap_or(false)
}

/// Whether all conditions hold.
pub(crate) fn all_hold(verdicts: &[Option<bool>]) -> bool
    ensures { result ≡ list_all holds verdicts.now }
{
    verdicts.iter().all(|verdict| holds(*verdict))
}
