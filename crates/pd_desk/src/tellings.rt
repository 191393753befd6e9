//! What the desk has of other commands: the transcript, the picture, the warnings, the guarantee, the sweep, the rows of varied values
//! and the tests of a scenario.

ghost use Rattle.std.specs.Prelude.{◌≡◌, ◌++◌, IfOk, MatchOption, None, OnOk, Some, codes};
ghost use Rattle.pd_sweep.specs.Sweeps.{WroteSweep};
ghost use Rattle.pd_vary.specs.Sets.{few_rows};
ghost use Rattle.pd_vary.specs.Varies.{sets_of};
ghost use Rattle.pd_desk.specs.Tellings.{Draws, TellsGuarantee, TellsRows, TellsShow, TellsTests, TellsWarned, sweep_look, warned_line};
ghost use Rattle.pd_desk.specs.Tellings.{warned_text};

use crate::copy::copied;
use pd_device::Output;
use pd_draw::{Look, draw};
use pd_expect::{Form as TestForm, TestTally, push_cases, test_script};
use pd_explain_text::push_sentence;
use pd_guarantee::{Form as BoundsForm, guarantee};
use pd_keep::Kept;
use pd_port::Meter;
use pd_run::{Plain, Plan, Runner};
use pd_scenario::Scenario;
use pd_show::{Choice, Form, show};
use pd_sweep::{Campaign, Form as SweepForm, Look as SweepLook, Tally, sweep};
use pd_vary::{Question, vary};
use pd_warn::{Warning, warnings};
use std::alloc::{AllocError, Global};

/// The transcript of a scenario's run: of a port, numbered from 1, or of all.
///
/// # Errors
/// There is no memory for it.
pub(crate) fn shown<const N: usize>(
    alloc: Global,
    scenario: &Scenario<N>,
    port: Option<usize>,
    meter: &mut Meter,
) -> Result<Vec<u8>, AllocError>
    ensures { IfOk result (λ text. TellsShow scenario.now port text.items) }
{
    let plan = Plan::of_scenario(alloc, scenario)?;
    let choice = Choice {
        port,
        from: 0,
        to: u64::MAX,
        good_crc: true,
        codes: false,
        form: Form::Words,
    };
    let mut output = Output {
        writer: Vec::new(alloc),
        failures: 0,
    };
    match show(alloc, &plan, &choice, &mut output, meter) {
        Ok(()) => Ok(output.writer),
        Err(_) => Err(AllocError),
    }
}

/// The picture of a scenario's run, as an SVG.
///
/// # Errors
/// There is no memory for it.
pub(crate) fn drawn<const N: usize>(
    alloc: Global,
    scenario: &Scenario<N>,
    meter: &mut Meter,
) -> Result<Vec<u8>, AllocError>
    ensures { IfOk result (λ text. Draws scenario.now text.items) }
{
    let plan = Plan::of_scenario(alloc, scenario)?;
    let look = Look {
        from: 0,
        to: u64::MAX,
        width: 1_200,
        port: None,
        holds: false,
    };
    draw(alloc, &plan, look, b"", meter)
}

/// Writes what a warning says, as a line.
fn push_warning(text: &mut Vec<u8>, warning: &Warning) -> Result<(), AllocError>
    ensures { OnOk result (text.new.items ≡ text.old.items ++ warned_line warning.now) }
{
    push_sentence(text, warning)?;
    text.extend_from_slice(b"\n")
}

/// Writes a line for each of these warnings.
fn push_warned(text: &mut Vec<u8>, warnings: &[Warning]) -> Result<(), AllocError>
    ensures { OnOk result (text.new.items ≡ text.old.items ++ warned_text warnings.now) }
{
    for warning in warnings {
        push_warning(text, warning)?;
    }
    Ok(())
}

/// What a scenario is warned of, a line each.
///
/// # Errors
/// There is no memory for it.
pub(crate) fn warned<const N: usize>(
    alloc: Global,
    scenario: &Scenario<N>,
    meter: &mut Meter,
) -> Result<Vec<u8>, AllocError>
    ensures { IfOk result (λ text. TellsWarned N scenario.now text.items) }
{
    let found = warnings(alloc, scenario, meter)?;
    let mut text = Vec::new(alloc);
    text.extend_from_slice(b"= warnings\n")?;
    push_warned(&mut text, &found)?;
    Ok(text)
}

/// What is sure for each port of a scenario's charger, a line for the port and one for each of its supplies.
///
/// # Errors
/// There is no memory for it.
pub(crate) fn guaranteed<const N: usize>(
    alloc: Global,
    scenario: &Scenario<N>,
) -> Result<Vec<u8>, AllocError>
    ensures { IfOk result (λ text. TellsGuarantee scenario.now text.items) }
{
    let said = guarantee(alloc, scenario, BoundsForm::Words)?;
    let mut text = Vec::new(alloc);
    text.extend_from_slice(b"= guarantee\n")?;
    text.extend_from_slice(said.as_slice())?;
    Ok(text)
}

/// A writer in which a head stands.
fn headed(alloc: Global, head: &[u8]) -> Result<Output<Vec<u8>>, AllocError>
    ensures { IfOk result (λ output. output.writer.items ≡ head.now) }
{
    let writer = Vec::from_slice(alloc, head)?;
    Ok(Output {
        writer,
        failures: 0,
    })
}

/// How a sweep is told: in words, of all packets or of those whose loss makes a difference.
fn sweep_look(all: bool) -> SweepLook
    ensures { result ≡ sweep_look all }
{
    SweepLook {
        form: SweepForm::Words,
        changed: !all,
        by_message: false,
    }
}

/// What losing packets of a scenario leads to, and what that comes to in all. The runs are made by a runner of their own.
///
/// # Errors
/// There is no memory for it.
pub(crate) fn swept<const N: usize>(
    alloc: Global,
    scenario: &Scenario<N>,
    campaign: &Campaign,
    all: bool,
    meter: &mut Meter,
) -> Result<(Tally, Vec<u8>), AllocError>
    ensures { IfOk result (λ told. WroteSweep N scenario.now campaign.now None (sweep_look all) (Some (codes "= sweep\n"))
        (Some told.1.items) told.0) }
{
    let mut output = headed(alloc, b"= sweep\n")?;
    let mut run = Kept::<N>::empty(alloc);
    let look = sweep_look(all);
    match sweep(
        alloc,
        &mut run,
        scenario,
        campaign,
        None,
        look,
        &mut output,
        meter,
    ) {
        Ok(tally) => Ok((tally, output.writer)),
        Err(_) => Err(AllocError),
    }
}

/// The rows of a question over a scenario, where they are no more than a million. The runs are made by a runner of their own.
///
/// # Errors
/// There is no memory for it.
pub(crate) fn varied<const N: usize>(
    alloc: Global,
    scenario: &Scenario<N>,
    question: &Question<'_>,
    meter: &mut Meter,
) -> Result<Option<Vec<u8>>, AllocError>
    ensures { IfOk result (λ told. MatchOption told (few_rows (sets_of question.now) ≡ None)
        (λ text. TellsRows N scenario.now question.now text.items)) }
{
    let mut output = headed(alloc, b"= vary\n")?;
    let mut run = Plain::<N>::empty(alloc);
    match vary(alloc, &mut run, scenario, question, &mut output, meter) {
        Ok(Some(_)) => Ok(Some(output.writer)),
        Ok(None) => Ok(None),
        Err(_) => Err(AllocError),
    }
}

/// What is told of the lines of a test script of a name, over a scenario, and how many passed and failed. The lines that edit change
/// nothing but what the lines behind them are held against.
///
/// # Errors
/// There is no memory for it.
pub(crate) fn tested<const N: usize>(
    alloc: Global,
    scenario: &Scenario<N>,
    name: &[u8],
    script: &[u8],
    meter: &mut Meter,
) -> Result<Vec<u8>, AllocError>
    ensures { IfOk result (λ text. TellsTests N scenario.now name.now script.now text.items) }
{
    let copy = copied(alloc, scenario)?;
    let mut run = Kept::<N>::empty(alloc);
    let cases = test_script(alloc, &mut run, copy, name, script, meter)?;
    let mut text = Vec::new(alloc);
    push_cases(
        alloc,
        &mut text,
        TestForm::Words,
        false,
        name,
        cases.as_slice(),
    )?;
    TestTally::of(cases.as_slice()).push(&mut text)?;
    Ok(text)
}
