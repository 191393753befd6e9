//! What comes of a row.

ghost use Rattle.std.specs.Prelude.{◌≡◌, ◌+◌, ◌<◌, ◌^◌, ◌++◌, IfErr, IfOk, OnOk, length, map};
ghost use Rattle.pd_device.specs.declared.fault.BenchFault.TheVariants.{Memory as no_memory};
ghost use Rattle.pd_edit.specs.Refusals.{Applies};
ghost use Rattle.pd_sweep.specs.Trials.{IsBaseOf};
ghost use Rattle.pd_vary.specs.Rows.{IsOutcome, all_hold, edited_line, lines_with, made};
ghost use Rattle.pd_vary.specs.Sets.{line_with, set_data};

use crate::condition::all_hold;
use crate::numbers::measure_run;
use crate::{EditSet, Question};
use pd_device::BenchFault;
use pd_edit::apply;
use pd_edit_lines::{EditFault, Line};
use pd_port::Meter;
use pd_run::Runner;
use pd_scenario::Scenario;
use pd_sweep::Base;
use std::alloc::{AllocError, Global};

/// Which of a row's edits is refused, numbered from 1, and why.
#[derive(Clone, Copy, Debug, PartialEq, Eq)]
pub struct Refusal {
    pub edit: u64,
    pub fault: EditFault,
}

/// What comes of a row.
#[derive(Debug, Drop)]
pub enum Outcome {
    /// One of its edits is refused, and nothing is run.
    Refused(Refusal),
    /// What was asked of its run, each where there is such a number; and whether each condition holds of it, where that is known.
    Ran {
        numbers: Vec<Option<u64>>,
        verdicts: Vec<Option<bool>>,
    },
}

impl Outcome {
    /// Whether all conditions hold of the row's run.
    pub fn all_hold(&self) -> bool
        ensures { result ≡ all_hold self.now }
    {
        match self {
            Outcome::Refused(_) => false,
            Outcome::Ran { verdicts, .. } => all_hold(verdicts.as_slice()),
        }
    }
}

/// The scenario after the edit of a line.
///
/// # Errors
/// Why it is refused, or `Memory`.
#[tactic(auto, unfolding(crate::specs::Rows::edited_line))]
fn edited<const N: usize>(
    alloc: Global,
    scenario: &Scenario<N>,
    line: &[u8],
) -> Result<Scenario<N>, EditFault>
    ensures { Applies result (edited_line N scenario.now line.now) }
{
    match Line::read(line) {
        Ok(Line::Edit(edit)) => apply(alloc, scenario, &edit),
        _ => Err(EditFault::Syntax),
    }
}

/// Adds the lines of sets with these values in their places.
///
/// # Errors
/// There is no memory; some of the lines may be there.
#[tactic(auto, unfolding(crate::specs::Rows::lines_with))]
pub(crate) fn push_lines(
    alloc: Global,
    lines: &mut Vec<Vec<u8>>,
    sets: &[EditSet],
    values: &[Vec<u8>],
) -> Result<(), AllocError>
    ensures { OnOk result (map (λ line. line.items) lines.new.items
        ≡ map (λ line. line.items) lines.old.items ++ lines_with (map set_data sets.now) (map (λ value. value.items) values.now)) }
{
    let [set, sets @ ..] = sets else {
        return Ok(());
    };
    let [value, values @ ..] = values else {
        return Ok(());
    };
    let mut line = Vec::new(alloc);
    set.push_line(&mut line, value.as_slice())?;
    lines.push(line)?;
    push_lines(alloc, lines, sets, values)
}

/// An edit of this number is refused.
fn refused(edit: u64, fault: EditFault) -> Outcome
    ensures { result ≡ Outcome.Refused (record { edit = edit; fault = fault }) }
{
    Outcome::Refused(Refusal { edit, fault })
}

/// Makes the edits of lines in turn, the first of which has this number, and measures the run of the scenario that they leave, which it
/// holds against the conditions.
#[tactic(auto, unfolding(crate::specs::Rows::made))]
pub(crate) fn outcome_of<const N: usize, T: Runner<N>>(
    alloc: Global,
    run: &mut T,
    scenario: &Scenario<N>,
    base: &Base,
    edited_so_far: &Scenario<N>,
    number: u64,
    lines: &[Vec<u8>],
    question: &Question<'_>,
    meter: &mut Meter,
) -> Result<Outcome, BenchFault>
    requires base { IsBaseOf scenario.now base.now }
    requires room { number + length lines.now < 2 ^ 64 }
    ensures value { IfOk result (λ outcome. IsOutcome scenario.now question.now.asks.now question.now.wheres.now
        (made N number (map (λ line. line.items) lines.now) edited_so_far.now) outcome) }
    ensures memory { IfErr result (λ fault. fault ≡ no_memory) }
{
    let [line, more @ ..] = lines else {
        return measure_run(alloc, run, scenario, base, edited_so_far, question, meter);
    };
    match edited(alloc, edited_so_far, line.as_slice()) {
        Ok(after) => {
            outcome_of(
                alloc,
                run,
                scenario,
                base,
                &after,
                number + 1,
                more,
                question,
                meter,
            )
        }
        Err(EditFault::Memory) => Err(BenchFault::Memory),
        Err(fault) => Ok(refused(number, fault)),
    }
}
