//! The files of a command that is about one charger, and why nothing came of it.

use crate::Ending;
use crate::fault::{output, tell, tell_no_port, tell_refused, tell_unread};
use crate::script_file::{read_input, read_script};
use pd_device::BenchFault;
use pd_explain_text::{Form, Telling, explain_text};
use pd_port::Meter;
use pd_scenario_text::ScenarioFault;
use pd_scene::{Refused, SceneFault, end_of_scene};
use pd_words::Scene;
use std::alloc::Global;
use std::rt::Files;

/// What was read of the files of a scene.
#[derive(Drop)]
pub struct Opened<'a> {
    /// The name of the scenario's file.
    pub file: &'a str,
    /// Its bytes.
    pub text: Vec<u8>,
    /// The name of the edit script.
    pub edits: &'a str,
    /// The bytes of the edit script: none where none is named.
    pub script: Vec<u8>,
    /// What is done about a refused line of it.
    pub refused: Refused,
    /// How a command ends that does all that is left to do: as with a refused input where a refused line was passed over.
    pub ending: Ending,
}

/// Tells on standard error why lines of a script are refused, and says whether one is. What standard error doesn't take is lost, and of
/// a scenario that is refused what comes next tells.
///
/// # Errors
/// There is no memory.
fn tell_lines<R: Alloc<A = Global>, E: Print>(
    rt: &R,
    errors: &E,
    opened: &Opened<'_>,
) -> Result<bool, BenchFault> {
    let telling = Telling {
        file: b"",
        edits: opened.edits.as_bytes(),
        form: Form::Words,
        warns: false,
    };
    let (text, script) = (opened.text.as_slice(), opened.script.as_slice());
    let (mut out, mut meter) = (output(errors), Meter::new());
    match explain_text(rt.alloc(), text, &telling, script, &mut meter, &mut out) {
        Ok(any) => Ok(any),
        Err(SceneFault::Scenario(ScenarioFault::Memory)) => Err(BenchFault::Memory),
        Err(SceneFault::Job(BenchFault::Memory)) => Err(BenchFault::Memory),
        Err(SceneFault::Job(_)) => Ok(true),
        Err(_) => Ok(false),
    }
}

/// The files as they are told of before a command begins: where refused lines are passed over, each is told.
///
/// # Errors
/// There is no memory; that is told.
fn begun<'a, R: Alloc<A = Global>, E: Print>(
    rt: &R,
    errors: &E,
    opened: Opened<'a>,
) -> Result<Opened<'a>, Ending> {
    if opened.refused == Refused::Ends {
        return Ok(opened);
    }
    let ending = match tell_lines(rt, errors, &opened) {
        Ok(true) => Ending::Refused,
        Ok(false) => Ending::Done,
        Err(fault) => return Err(tell(errors, fault)),
    };
    Ok(Opened { ending, ..opened })
}

/// Reads the files of a scene. Where refused lines of the script are passed over, tells why they are refused.
///
/// # Errors
/// One of them can't be read, or there is no memory; that is told.
pub fn open<'a, R: Files + Input + Alloc<A = Global>, E: Print>(
    rt: &R,
    errors: &E,
    scene: Scene<'a>,
) -> Result<Opened<'a>, Ending> {
    let (file, edits) = (scene.scenario, scene.edits.unwrap_or("-"));
    let text = match read_input(rt, file) {
        Ok(text) => text,
        Err(error) => return Err(tell_unread(errors, file, &error)),
    };
    let script = match read_script(rt, scene.edits) {
        Ok(script) => script,
        Err(error) => return Err(tell_unread(errors, edits, &error)),
    };
    let opened = Opened {
        file,
        text,
        edits,
        script,
        refused: if scene.keep_going {
            Refused::Skipped
        } else {
            Refused::Ends
        },
        ending: Ending::Done,
    };
    begun(rt, errors, opened)
}

/// Tells why nothing, or not all, was done for a scene, of which a port may have been asked for.
pub fn tell_scene<R: Alloc<A = Global>, E: Print>(
    rt: &R,
    errors: &E,
    opened: &Opened<'_>,
    port: Option<usize>,
    fault: SceneFault,
) -> Ending {
    match fault {
        SceneFault::Scenario(fault) => tell_refused(errors, opened.file, fault),
        SceneFault::NoSuchPort => {
            tell_no_port(rt, errors, opened.file, opened.text.as_slice(), port)
        }
        SceneFault::Lines => match tell_lines(rt, errors, opened) {
            Ok(_) => Ending::Refused,
            Err(fault) => tell(errors, fault),
        },
        SceneFault::Job(fault) => tell(errors, fault),
    }
}

/// Sees that the run of a scene has a time from which on it is asked for.
///
/// # Errors
/// It ends before, or the scene is refused; that is told.
pub fn reaches<R: Alloc<A = Global>, E: Print>(
    rt: &R,
    errors: &E,
    opened: &Opened<'_>,
    from: u64,
) -> Result<(), Ending> {
    if from == 0 {
        return Ok(());
    }
    let end = ends_at(rt, errors, opened)?;
    if from <= end {
        return Ok(());
    }
    let file = opened.file;
    let _ = println!(errors;
        "{file}: nothing of the run is from {from} us on: it ends at {end} us"
    );
    Err(Ending::Refused)
}

/// When the run of a scene ends.
///
/// # Errors
/// The scene is refused; that is told.
pub fn ends_at<R: Alloc<A = Global>, E: Print>(
    rt: &R,
    errors: &E,
    opened: &Opened<'_>,
) -> Result<u64, Ending> {
    let (text, script) = (opened.text.as_slice(), opened.script.as_slice());
    match end_of_scene(rt.alloc(), text, script, opened.refused) {
        Ok(end) => Ok(end),
        Err(fault) => Err(tell_scene(rt, errors, opened, None, fault)),
    }
}
