//! `pdlab explain [--json] [--strict] SCENARIO [EDITS]`.

use crate::Ending;
use crate::fault::{output, tell, tell_unread, tell_unwritten};
use crate::put::put_out;
use crate::script_file::{read_input, read_script};
use pd_device::BenchFault;
use pd_explain_text::{Form, SceneFault, Telling, explain_text};
use pd_places::explain_places;
use pd_port::Meter;
use pd_words::{ExplainOptions, Scene};
use std::alloc::Global;
use std::rt::Files;

/// Tells where the scenario of a file, which couldn't be read, breaks rules. Where it breaks none, it was memory that was wanting.
fn tell_places<R: Print + Alloc<A = Global>, E: Print>(
    rt: &R,
    errors: &E,
    telling: &Telling<'_>,
    text: &[u8],
) -> Ending {
    match explain_places(rt.alloc(), telling.form, telling.file, text) {
        Ok(said) if !said.is_empty() => match put_out(rt, errors, said.as_slice()) {
            Ok(()) => Ending::Refused,
            Err(ending) => ending,
        },
        _ => tell(errors, BenchFault::Memory),
    }
}

/// How it ends where lines are refused or none is, and so many lines were told: where it is strict, a warning counts as a refusal.
fn ending(strict: bool, refused: bool, told: u64) -> Ending {
    if refused || (strict && told > 0) {
        Ending::Refused
    } else {
        Ending::Done
    }
}

/// Tells why lines of an edit script are refused, for the scenario of a file, and what that is warned of.
pub fn explained<R: Files + Input + Print + Alloc<A = Global>, E: Print>(
    rt: &R,
    errors: &E,
    scene: Scene<'_>,
    options: ExplainOptions,
) -> Ending {
    let text = match read_input(rt, scene.scenario) {
        Ok(text) => text,
        Err(error) => return tell_unread(errors, scene.scenario, &error),
    };
    let name = scene.edits.unwrap_or("-");
    let script = match read_script(rt, scene.edits) {
        Ok(script) => script,
        Err(error) => return tell_unread(errors, name, &error),
    };
    let (text, script) = (text.as_slice(), script.as_slice());
    let telling = Telling {
        file: scene.scenario.as_bytes(),
        edits: name.as_bytes(),
        form: if options.json {
            Form::Json
        } else {
            Form::Words
        },
        warns: true,
    };
    let (mut out, mut meter) = (output(rt), Meter::new());
    match explain_text(rt.alloc(), text, &telling, script, &mut meter, &mut out) {
        Ok(refused) => ending(options.strict, refused, out.writer.lines),
        Err(SceneFault::Job(fault)) => tell_unwritten(errors, &out, fault),
        Err(_) => tell_places(rt, errors, &telling, text),
    }
}
