//! Each row in turn.

ghost use Rattle.std.specs.Prelude.{◌≡◌, ◌+◌, ◌<◌, ◌≤◌, ◌^◌, ◌++◌, IfErr, IfOk, OnOk, cond, length, map};
ghost use Rattle.std.specs.List.{flat_map, range_with_len};
ghost use Rattle.pd_device.specs.Device.{CountsFailure, Writes};
ghost use Rattle.pd_device.specs.declared.fault.BenchFault.TheVariants.{Memory as no_memory};
ghost use Rattle.pd_sweep.specs.Sweeps.{CountsSweep};
ghost use Rattle.pd_sweep.specs.Trials.{IsBaseOf};
ghost use Rattle.pd_vary.specs.Conditions.{asked_port};
ghost use Rattle.pd_vary.specs.Rows.{all_hold, lines_with};
ghost use Rattle.pd_vary.specs.Sets.{rows_of, set_data, values_at};
ghost use Rattle.pd_vary.specs.Tellings.{columns, head, row_text, summary};
ghost use Rattle.pd_vary.specs.Varies.{IsRow, Varies, kept_of_row};

use crate::condition::asked_port;
use crate::outcome::{outcome_of, push_lines};
use crate::set::push_row_values;
use crate::tell::{push_columns, push_row, push_summary};
use crate::{Ask, Condition, EditSet, Form, Outcome, few_rows};
use pd_device::{BenchFault, TextOut, write_all};
use pd_port::Meter;
use pd_run::Runner;
use pd_scenario::Scenario;
use pd_sweep::Base;
use std::alloc::{AllocError, Global};

/// What is varied, what is asked of each run, what is expected of it, in which form that is told, and whether what comes of the rows is
/// kept.
#[derive(Clone, Copy)]
pub struct Question<'a> {
    pub sets: &'a [EditSet],
    pub asks: &'a [Ask],
    pub wheres: &'a [Condition<'a>],
    pub form: Form,
    pub keeps: bool,
}

impl Question<'_> {
    /// The port that a charger has to have, so that it has all of which something is asked or expected.
    pub fn port(&self) -> Option<usize>
        ensures { result ≡ asked_port self.now.asks.now self.now.wheres.now }
    {
        asked_port(self.asks, self.wheres)
    }
}

/// What comes of a row, and what is told of it.
#[derive(Drop)]
pub(crate) struct Row {
    outcome: Outcome,
    text: Vec<u8>,
}

/// What comes of the rows in their order, where that is kept.
#[derive(Drop)]
pub struct Kept {
    pub outcomes: Vec<Outcome>,
}

/// The values of a row.
fn values_in(
    alloc: Global,
    sets: &[EditSet],
    row: u64,
    rows: u64,
) -> Result<Vec<Vec<u8>>, AllocError>
    requires { rows ≡ rows_of (map set_data sets.now) }
    ensures { IfOk result (λ values. map (λ value. value.items) values.items ≡ values_at (map set_data sets.now) row) }
{
    let mut values = Vec::new(alloc);
    push_row_values(alloc, &mut values, sets, row, rows)?;
    Ok(values)
}

/// The lines of sets with these values in their places.
fn lines_with(
    alloc: Global,
    sets: &[EditSet],
    values: &[Vec<u8>],
) -> Result<Vec<Vec<u8>>, AllocError>
    ensures { IfOk result (λ lines. map (λ line. line.items) lines.items
        ≡ lines_with (map set_data sets.now) (map (λ value. value.items) values.now)) }
{
    let mut lines = Vec::new(alloc);
    push_lines(alloc, &mut lines, sets, values)?;
    Ok(lines)
}

/// What is told of a row, the first of which is at 0.
fn told(
    alloc: Global,
    question: &Question<'_>,
    row: u64,
    lines: &[Vec<u8>],
    values: &[Vec<u8>],
    outcome: &Outcome,
) -> Result<Vec<u8>, AllocError>
    requires room { row + 1 < 2 ^ 64 }
    requires few { 1 + length lines.now < 2 ^ 64 }
    ensures { IfOk result (λ text. text.items ≡ row_text question.now.form (row + 1) (map (λ line. line.items) lines.now)
        (map (λ value. value.items) values.now) question.now.asks.now question.now.wheres.now outcome.now) }
{
    let (form, asks, wheres) = (question.form, question.asks, question.wheres);
    let mut text = Vec::new(alloc);
    push_row(
        alloc,
        &mut text,
        form,
        row + 1,
        lines,
        values,
        asks,
        wheres,
        outcome,
    )?;
    Ok(text)
}

/// Makes a row, and says what is told of it. The first is at 0.
fn made_row<const N: usize, T: Runner<N>>(
    alloc: Global,
    run: &mut T,
    scenario: &Scenario<N>,
    base: &Base,
    question: &Question<'_>,
    row: u64,
    rows: u64,
    meter: &mut Meter,
) -> Result<Row, BenchFault>
    requires base { IsBaseOf scenario.now base.now }
    requires rows { rows ≡ rows_of (map set_data question.now.sets.now) }
    requires there { row < rows }
    ensures value { IfOk result (λ made. IsRow N scenario.now question.now row made) }
    ensures memory { IfErr result (λ fault. fault ≡ no_memory) }
{
    let sets = question.sets;
    let Ok(values) = values_in(alloc, sets, row, rows) else {
        return Err(BenchFault::Memory);
    };
    let Ok(lines) = lines_with(alloc, sets, values.as_slice()) else {
        return Err(BenchFault::Memory);
    };
    let outcome = outcome_of(
        alloc,
        run,
        scenario,
        base,
        scenario,
        1,
        lines.as_slice(),
        question,
        meter,
    )?;
    match told(alloc, question, row, &lines, &values, &outcome) {
        Ok(text) => Ok(Row { outcome, text }),
        Err(_) => Err(BenchFault::Memory),
    }
}

/// What stands before the first row.
fn head(
    alloc: Global,
    form: Form,
    sets: usize,
    asks: &[Ask],
    wheres: usize,
) -> Result<Vec<u8>, AllocError>
    ensures { IfOk result (λ text. text.items ≡ head form sets asks.now wheres) }
{
    let mut text = Vec::new(alloc);
    match form {
        Form::Words | Form::Json => {}
        Form::Csv => push_columns(&mut text, sets, asks, wheres)?,
    }
    Ok(text)
}

/// What stands behind the last row.
fn summary(
    alloc: Global,
    question: &Question<'_>,
    rows: u64,
    holding: u64,
) -> Result<Vec<u8>, AllocError>
    ensures { IfOk result (λ text. text.items ≡ summary question.now.form question.now.wheres.now rows holding) }
{
    let mut text = Vec::new(alloc);
    push_summary(&mut text, question.form, question.wheres, rows, holding)?;
    Ok(text)
}

/// How many rows there are in which all conditions hold, with one more row.
fn counted(holding: u64, outcome: &Outcome) -> u64
    requires { holding + 1 < 2 ^ 64 }
    ensures value { result ≡ holding + cond (all_hold outcome.now) 1 0 }
    ensures few { result ≤ holding + 1 }
{
    if outcome.all_hold() {
        holding + 1
    } else {
        holding
    }
}

/// Keeps what comes of a row, where that is wanted.
fn keep(outcomes: &mut Vec<Outcome>, keeps: bool, row: Row) -> Result<(), BenchFault>
    ensures kept { OnOk result (outcomes.new.items ≡ outcomes.old.items ++ kept_of_row keeps row) }
    ensures memory { IfErr result (λ fault. fault ≡ no_memory) }
{
    if !keeps {
        return Ok(());
    }
    let Row { outcome, text: _ } = row;
    match outcomes.push(outcome) {
        Ok(()) => Ok(()),
        Err(_) => Err(BenchFault::Memory),
    }
}

/// Makes each combination of the values of some sets, in turn, in which the first set's turn slowest: makes the edits of its lines on a
/// scenario, runs what they leave, and writes what is asked of that run, beside the run of the scenario itself, and whether each
/// condition holds of it; or which edit is refused, and why, and runs nothing. Where there are conditions, it writes last in how many
/// rows all hold. Answers what comes of the rows, where that is kept; none, and writes nothing, where these are more than a million.
///
/// # Errors
/// `Memory` where there is none, `WriteFailed` where the writer failed or took no byte; the first few bytes of the text have gone out.
pub fn vary<const N: usize, T: Runner<N>, W: TextOut>(
    alloc: Global,
    run: &mut T,
    scenario: &Scenario<N>,
    question: &Question<'_>,
    writer: &mut W,
    meter: &mut Meter,
) -> Result<Option<Kept>, BenchFault>
    ensures text { Varies N scenario.now question.now result (W.taken writer.old) (W.taken writer.new) }
    ensures counts { CountsSweep result (W.failures writer.old) (W.failures writer.new) }
{
    let (sets, asks, wheres) = (question.sets, question.asks, question.wheres);
    let Some(rows) = few_rows(sets) else {
        return Ok(None);
    };
    let Ok(()) = run.replace(alloc, scenario, meter) else {
        return Err(BenchFault::Memory);
    };
    let base = Base::of(alloc, run, scenario)?;
    let Ok(head) = head(alloc, question.form, sets.len(), asks, wheres.len()) else {
        return Err(BenchFault::Memory);
    };
    write_all(writer, head.as_slice())?;
    let (mut holding, mut outcomes) = (0, Vec::new(alloc));
    for row in 0..rows {
        let made = made_row(alloc, run, scenario, &base, question, row, rows, meter)?;
        write_all(writer, made.text.as_slice())?;
        holding = counted(holding, &made.outcome);
        keep(&mut outcomes, question.keeps, made)?;
    }
    let Ok(last) = summary(alloc, question, rows, holding) else {
        return Err(BenchFault::Memory);
    };
    write_all(writer, last.as_slice())?;
    Ok(Some(Kept { outcomes }))
}
