//! `pdlab vary SCENARIO [EDITS]`.

use crate::Ending;
use crate::fault::{output, tell};
use crate::opened::{Opened, open, tell_scene};
use crate::put::put_file;
use crate::runs::names_of;
use pd_device::{BenchFault, write_all};
use pd_plot::{Layout, plot};
use pd_port::Meter;
use pd_vary::{
    Ask, Condition, EditSet, Form, Kept, Question, SetFault, few_rows, push_no_condition,
    read_asks, read_condition, read_set, vary_text,
};
use pd_words::{Form as Asked, Scene, VaryOptions, usage_of};
use std::alloc::Global;
use std::rt::Files;

/// What is measured where the words don't say.
const USUAL: &str = "margin, faults, hard resets";

/// Tells how the command is used.
fn usage<E: Print>(errors: &E) -> Ending {
    let _ = println!(errors; "usage: pdlab {}", usage_of("vary"));
    Ending::Usage
}

/// Reads the sets.
///
/// # Errors
/// One of them is none, or there is no memory; that is told.
fn sets_of<R: Alloc<A = Global>, E: Print>(
    rt: &R,
    errors: &E,
    words: &[&str],
) -> Result<Vec<EditSet>, Ending> {
    let mut sets = Vec::new(rt.alloc());
    for word in words {
        let set = match read_set(rt.alloc(), word.as_bytes()) {
            Ok(set) => set,
            Err(SetFault::Memory) => return Err(tell(errors, BenchFault::Memory)),
            Err(fault) => {
                let _ = println!(errors; "--set `{word}`: {fault}");
                return Err(usage(errors));
            }
        };
        let Ok(()) = sets.push(set) else {
            return Err(tell(errors, BenchFault::Memory));
        };
    }
    if few_rows(sets.as_slice()).is_none() {
        let _ = errors.println("--set: the values have more than 1000000 combinations");
        return Err(usage(errors));
    }
    Ok(sets)
}

/// Reads what is asked.
///
/// # Errors
/// It names nothing, or there is no memory; that is told.
fn asks_of<R: Alloc<A = Global>, E: Print>(
    rt: &R,
    errors: &E,
    tell_words: Option<&str>,
) -> Result<Vec<Ask>, Ending> {
    let words = tell_words.unwrap_or(USUAL);
    match read_asks(rt.alloc(), words.as_bytes()) {
        Ok(Some(asks)) => Ok(asks),
        Ok(None) => {
            let _ = println!(errors;
                "--tell `{words}`: there are voltage, current, power, least power, greatest power, less power, more power and \
                 differs until, each with the number of a port, 1 to 8, and margin, lowest at, faults and hard resets, with commas \
                 between them"
            );
            Err(usage(errors))
        }
        Err(_) => Err(tell(errors, BenchFault::Memory)),
    }
}

/// Tells why a line is no expectation, and how the command is used.
fn tell_no_condition<R: Alloc<A = Global>, E: Print>(rt: &R, errors: &E, line: &str) -> Ending {
    let mut text = Vec::new(rt.alloc());
    match push_no_condition(rt.alloc(), &mut text, line.as_bytes()) {
        Ok(()) => {
            let _ = write_all(&mut output(errors), text.as_slice());
            usage(errors)
        }
        Err(_) => tell(errors, BenchFault::Memory),
    }
}

/// Reads what is expected of each row.
///
/// # Errors
/// A line says nothing that is expected, or there is no memory; that is told.
fn conditions_of<'a, R: Alloc<A = Global>, E: Print>(
    rt: &R,
    errors: &E,
    lines: &[&'a str],
) -> Result<Vec<Condition<'a>>, Ending> {
    let mut conditions = Vec::new(rt.alloc());
    for line in lines {
        let Some(condition) = read_condition(line.as_bytes()) else {
            return Err(tell_no_condition(rt, errors, line));
        };
        let Ok(()) = conditions.push(condition) else {
            return Err(tell(errors, BenchFault::Memory));
        };
    }
    Ok(conditions)
}

/// The file that a picture is written to, and how its rows are laid out.
#[derive(Clone, Copy)]
struct Picture<'f, 's> {
    file: &'f str,
    layout: Layout<'s>,
}

/// The picture that is drawn of the rows of sets, where one is asked for.
///
/// # Errors
/// The sets have none; that is told.
fn picture_of<'f, 's, E: Print>(
    errors: &E,
    file: Option<&'f str>,
    sets: &'s [EditSet],
) -> Result<Option<Picture<'f, 's>>, Ending> {
    let Some(file) = file else {
        return Ok(None);
    };
    match Layout::of(sets) {
        Ok(layout) => Ok(Some(Picture { file, layout })),
        Err(unfit) => {
            let _ = println!(errors; "vary: {unfit}");
            Err(usage(errors))
        }
    }
}

/// How it is told.
fn form_of(form: Asked) -> Form {
    match form {
        Asked::Words => Form::Words,
        Asked::Json => Form::Json,
        Asked::Csv => Form::Csv,
    }
}

/// Makes the rows, and writes what comes of each. Answers it, where it is kept.
///
/// # Errors
/// Something kept it from being told; that is told.
fn varied<R: Print + Alloc<A = Global>, E: Print>(
    rt: &R,
    errors: &E,
    opened: &Opened<'_>,
    question: &Question<'_>,
) -> Result<Option<Kept>, Ending> {
    let (text, script) = (opened.text.as_slice(), opened.script.as_slice());
    let (mut out, mut meter) = (output(rt), Meter::new());
    let port = question.port();
    match vary_text(
        rt.alloc(),
        text,
        script,
        opened.refused,
        question,
        &mut out,
        &mut meter,
    ) {
        Ok(kept) => Ok(kept),
        Err(_) if out.writer.is_closed => Err(Ending::Closed),
        Err(fault) => Err(tell_scene(rt, errors, opened, port, fault)),
    }
}

/// Draws what comes of the rows.
///
/// # Errors
/// It can't be written, or there is no memory; that is told.
fn draw<R: Files + Alloc<A = Global>, E: Print>(
    rt: &R,
    errors: &E,
    scene: Scene<'_>,
    picture: &Picture<'_, '_>,
    question: &Question<'_>,
    kept: &Kept,
) -> Result<(), Ending> {
    let Ok(names) = names_of(rt.alloc(), scene) else {
        return Err(tell(errors, BenchFault::Memory));
    };
    match plot(
        rt.alloc(),
        &picture.layout,
        question.asks,
        !question.wheres.is_empty(),
        kept.outcomes.as_slice(),
        names.as_bytes(),
    ) {
        Ok(drawn) => put_file(rt, errors, picture.file, drawn.as_slice()),
        Err(_) => Err(tell(errors, BenchFault::Memory)),
    }
}

/// Makes each combination of values of edit lines on the scenario of a file, as the edits of a script leave it, and tells what is measured
/// of its run, and whether what is expected holds; and draws that in a file, where one is named.
///
/// # Errors
/// Something kept it from being told; that is told.
pub fn vary<R: Files + Input + Print + Alloc<A = Global>, E: Print>(
    rt: &R,
    errors: &E,
    scene: Scene<'_>,
    options: &VaryOptions<'_>,
) -> Result<Ending, Ending> {
    let sets = sets_of(rt, errors, options.sets.as_slice())?;
    let picture = picture_of(errors, options.draw, sets.as_slice())?;
    let asks = asks_of(rt, errors, options.tell)?;
    let wheres = conditions_of(rt, errors, options.wheres.as_slice())?;
    let opened = open(rt, errors, scene)?;
    let question = Question {
        sets: sets.as_slice(),
        asks: asks.as_slice(),
        wheres: wheres.as_slice(),
        form: form_of(options.form),
        keeps: picture.is_some(),
    };
    let kept = varied(rt, errors, &opened, &question)?;
    if let (Some(picture), Some(kept)) = (&picture, &kept) {
        draw(rt, errors, scene, picture, &question, kept)?;
    }
    Ok(opened.ending)
}
