//! Logs that are read.

ghost use Rattle.std.specs.Prelude.{IfOk, None};
ghost use Rattle.std.specs.Str.Lines.{lines};
ghost use Rattle.pd_page.specs.Answers.{Answers};
ghost use Rattle.pd_page.specs.Calls.{Decodes};
ghost use Rattle.pd_page.specs.Logs.{TellsLog};

use crate::Ending;
use crate::answer::Answer;
use pd_log::{Begun, log_time, push_json, read};
use pd_scene::first_line;
use std::alloc::{AllocError, Global};

/// What the lines of a log say, a JSON object for each that says something.
fn log_text(alloc: Global, log: &[u8]) -> Result<Vec<u8>, AllocError>
    ensures { IfOk result (λ text. TellsLog 1 None (lines log.now) text.items) }
{
    let mut text = Vec::new(alloc);
    let mut rest = log;
    let mut number = 1;
    let mut begun: Option<Begun> = None;
    while let Some((line, others)) = first_line(rest) {
        let time = log_time(&begun, line);
        let told = read(alloc, line, begun)?;
        push_json(&mut text, number, time, None, &told.answer)?;
        begun = told.begun;
        rest = others;
        number += 1;
    }
    Ok(text)
}

/// The same as an answer.
fn decoded(alloc: Global, log: &[u8]) -> Answer
    ensures { Decodes log.now result.ending result.text.items }
{
    match log_text(alloc, log) {
        Ok(text) => Answer {
            ending: Ending::Done,
            text,
        },
        Err(_) => Answer::none(alloc, Ending::NoMemory),
    }
}

/// Tells as JSON objects what the lines of a log say.
#[unsafe(no_mangle)]
pub extern "C" fn page_decode(alloc: Global, log: &[u8], room: &mut [u8], len: &mut u64) -> u32
    ensures { Answers (Decodes log.now) result len.new room.old room.new }
{
    decoded(alloc, log).hand_over(room, len)
}
