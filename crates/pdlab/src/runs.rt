//! `pdlab show`, `why`, `guarantee` and `draw`: the scenario of a file, as the edits of a script leave it.

use crate::Ending;
use crate::answers::Counted;
use crate::fault::{output, tell};
use crate::opened::{Opened, open, reaches, tell_scene};
use crate::put::{put, put_file};
use pd_device::{BenchFault, Output, TextOut};
use pd_draw::{Look, draw_text};
use pd_guarantee::guarantee_text;
use pd_port::Meter;
use pd_show::{Choice, Form, SceneFault, show_text};
use pd_why::{Form as AnswerForm, Question, why_text};
use pd_words::{DrawOptions, Form as Asked, Scene, ShowOptions, WhyOptions, Window};
use std::alloc::{AllocError, Global};
use std::rt::Files;

/// What is shown of the run.
fn choice_of(options: &ShowOptions) -> Choice {
    Choice {
        port: options.window.port,
        from: options.window.from,
        to: options.window.to,
        good_crc: options.good_crc,
        codes: options.codes,
        form: match options.form {
            Asked::Words => Form::Words,
            Asked::Json => Form::Json,
            Asked::Csv => Form::Csv,
        },
    }
}

/// Whether all of a run is asked for.
fn is_whole(window: Window) -> bool {
    window.port.is_none() && window.from == 0 && window.to == u64::MAX
}

/// How many lines a run has in a form without anything in it.
fn heads(form: Asked) -> u64 {
    match form {
        Asked::Words | Asked::Json => 0,
        Asked::Csv => 1,
    }
}

/// Writes what is shown of the run of a scene.
///
/// # Errors
/// As of `show_text`.
fn shown<R: Alloc<A = Global>, W: TextOut>(
    rt: &R,
    opened: &Opened<'_>,
    choice: &Choice,
    out: &mut W,
) -> Result<(), SceneFault> {
    let (text, script) = (opened.text.as_slice(), opened.script.as_slice());
    let mut meter = Meter::new();
    show_text(
        rt.alloc(),
        text,
        script,
        opened.refused,
        choice,
        out,
        &mut meter,
    )
}

/// Shows the run on standard output, and says how many lines that took.
///
/// # Errors
/// Something kept it from being shown; that is told.
fn show_out<R: Print + Alloc<A = Global>, E: Print>(
    rt: &R,
    errors: &E,
    opened: &Opened<'_>,
    choice: &Choice,
) -> Result<u64, Ending> {
    let mut out = output(rt);
    match shown(rt, opened, choice, &mut out) {
        Ok(()) => Ok(out.writer.lines),
        Err(_) if out.writer.is_closed => Err(Ending::Closed),
        Err(fault) => Err(tell_scene(rt, errors, opened, choice.port, fault)),
    }
}

/// Shows the run in a file, and says how many lines that took.
///
/// # Errors
/// Something kept it from being shown; that is told.
fn show_in<R: Files + Alloc<A = Global>, E: Print>(
    rt: &R,
    errors: &E,
    opened: &Opened<'_>,
    choice: &Choice,
    file: &str,
) -> Result<u64, Ending> {
    let mut out = Output {
        writer: Counted::of(Vec::new(rt.alloc())),
        failures: 0,
    };
    match shown(rt, opened, choice, &mut out) {
        Ok(()) => put_file(rt, errors, file, out.writer.writer.as_slice())?,
        Err(SceneFault::Job(_)) => return Err(tell(errors, BenchFault::Memory)),
        Err(fault) => return Err(tell_scene(rt, errors, opened, choice.port, fault)),
    }
    Ok(out.writer.lines)
}

/// Shows the run. A part of it in which nothing is, is told.
///
/// # Errors
/// Something kept it from being shown; that is told.
pub fn show<R: Files + Input + Print + Alloc<A = Global>, E: Print>(
    rt: &R,
    errors: &E,
    scene: Scene<'_>,
    options: &ShowOptions,
) -> Result<Ending, Ending> {
    let opened = open(rt, errors, scene)?;
    reaches(rt, errors, &opened, options.window.from)?;
    let choice = choice_of(options);
    let lines = match scene.out {
        None => show_out(rt, errors, &opened, &choice)?,
        Some(file) => show_in(rt, errors, &opened, &choice, file)?,
    };
    if lines == heads(options.form) && !is_whole(options.window) {
        let _ = println!(errors; "{}: nothing of the run is in this part of it", opened.file);
        return Err(Ending::Refused);
    }
    Ok(opened.ending)
}

/// Tells what bounds a port in the run.
///
/// # Errors
/// Something kept it from being told; that is told.
pub fn why<R: Files + Input + Print + Alloc<A = Global>, E: Print>(
    rt: &R,
    errors: &E,
    scene: Scene<'_>,
    options: &WhyOptions,
) -> Result<Ending, Ending> {
    let opened = open(rt, errors, scene)?;
    let (text, script) = (opened.text.as_slice(), opened.script.as_slice());
    let question = Question {
        port: options.port,
        to: options.at,
    };
    let form = if options.json {
        AnswerForm::Json
    } else {
        AnswerForm::Words
    };
    let (refused, mut meter) = (opened.refused, Meter::new());
    match why_text(
        rt.alloc(),
        text,
        script,
        refused,
        &question,
        form,
        &mut meter,
    ) {
        Ok(said) => put(rt, errors, None, said.as_slice())?,
        Err(fault) => return Err(tell_scene(rt, errors, &opened, Some(question.port), fault)),
    }
    Ok(opened.ending)
}

/// Tells what is sure for each port, whatever is attached.
///
/// # Errors
/// Something kept it from being told; that is told.
pub fn guarantee<R: Files + Input + Print + Alloc<A = Global>, E: Print>(
    rt: &R,
    errors: &E,
    scene: Scene<'_>,
    json: bool,
) -> Result<Ending, Ending> {
    let opened = open(rt, errors, scene)?;
    let (text, script) = (opened.text.as_slice(), opened.script.as_slice());
    let form = if json {
        AnswerForm::Json
    } else {
        AnswerForm::Words
    };
    match guarantee_text(rt.alloc(), text, script, opened.refused, form) {
        Ok(said) => put(rt, errors, None, said.as_slice())?,
        Err(fault) => return Err(tell_scene(rt, errors, &opened, None, fault)),
    }
    Ok(opened.ending)
}

/// The name of a file without its folder, as a picture says it.
fn name_of(file: &str) -> &str {
    match file.rsplit_once('/') {
        _ if file == "-" => "standard input",
        Some((_, name)) => name,
        None => file,
    }
}

/// Whose run a picture is of: the names of its files.
///
/// # Errors
/// There is no memory.
pub fn names_of(alloc: Global, scene: Scene<'_>) -> Result<String, AllocError> {
    let scenario = name_of(scene.scenario);
    match scene.edits {
        None => String::from_str(alloc, scenario),
        Some(edits) => format!(in alloc; "{scenario}, {}", name_of(edits)),
    }
}

/// Draws the run.
///
/// # Errors
/// Something kept it from being drawn; that is told.
pub fn draw<R: Files + Input + Print + Alloc<A = Global>, E: Print>(
    rt: &R,
    errors: &E,
    scene: Scene<'_>,
    options: &DrawOptions,
) -> Result<Ending, Ending> {
    let opened = open(rt, errors, scene)?;
    reaches(rt, errors, &opened, options.window.from)?;
    let (text, script) = (opened.text.as_slice(), opened.script.as_slice());
    let look = Look {
        from: options.window.from,
        to: options.window.to,
        width: options.width,
        port: options.window.port,
        holds: options.holds,
    };
    let Ok(names) = names_of(rt.alloc(), scene) else {
        return Err(tell(errors, BenchFault::Memory));
    };
    let name = names.as_bytes();
    match draw_text(
        rt.alloc(),
        text,
        script,
        opened.refused,
        look,
        name,
        &mut Meter::new(),
    ) {
        Ok(picture) => put(rt, errors, scene.out, picture.as_slice())?,
        Err(fault) => return Err(tell_scene(rt, errors, &opened, look.port, fault)),
    }
    Ok(opened.ending)
}
