//! `pdlab test [--json] [-v] [--junit FILE] SCRIPT..`.

use crate::Ending;
use crate::fault::{tell, tell_refused, tell_unread, why_unread};
use crate::put::{put_file, put_out};
use crate::script_file::read_input;
use pd_bench::read_whole;
use pd_desk::tell_reason;
use pd_device::{BenchFault, Output};
use pd_expect::{
    Bytes, Case, Form, SceneFault, Suite, TestTally, push_cases, push_junit, scenario_name,
    test_text,
};
use pd_port::Meter;
use pd_scenario_text::ScenarioFault;
use pd_scene::first_line;
use pd_words::TestOptions;
use std::alloc::{AllocError, Global};
use std::io;
use std::rt::{Clock, Files};
use std::time::Instant;

/// What came of a script.
#[derive(Drop)]
struct Came {
    /// What came of its lines.
    cases: Vec<Case>,
    /// Why it couldn't be gone through, and nothing where it could.
    fault: String,
    ending: Ending,
}

/// One that couldn't be gone through, for this reason.
///
/// # Errors
/// There was no memory for the reason; that is told.
fn untested<R: Alloc<A = Global>, E: Print>(
    rt: &R,
    errors: &E,
    ending: Ending,
    fault: Result<String, AllocError>,
) -> Result<Came, Ending> {
    match fault {
        Ok(fault) => Ok(Came {
            cases: Vec::new(rt.alloc()),
            fault,
            ending,
        }),
        Err(_) => Err(tell(errors, BenchFault::Memory)),
    }
}

/// What came of several scripts: what came of each, how many lines passed, failed and were refused, and the worst ending of one.
#[derive(Drop)]
struct Outcome {
    suites: Vec<Suite>,
    tally: TestTally,
    ending: Ending,
}

impl Outcome {
    /// Takes in what came of one more script, which took so many microseconds.
    ///
    /// # Errors
    /// There is no memory.
    fn take(
        &mut self,
        alloc: Global,
        script: &str,
        tested: Came,
        micros: u64,
    ) -> Result<(), AllocError> {
        self.tally = both(self.tally, TestTally::of(tested.cases.as_slice()));
        self.ending = self.ending.or_worse(tested.ending);
        let script = Bytes::copied(alloc, script.as_bytes())?;
        let fault = Bytes::copied(alloc, tested.fault.as_bytes())?;
        self.suites.push(Suite {
            script,
            cases: tested.cases,
            fault,
            micros,
        })?;
        Ok(())
    }
}

/// The counts of two scripts.
fn both(first: TestTally, second: TestTally) -> TestTally {
    TestTally {
        passed: first.passed.saturating_add(second.passed),
        failed: first.failed.saturating_add(second.failed),
        refused: first.refused.saturating_add(second.refused),
    }
}

/// The path of a file that stands beside another; a path that begins with a slash stands for itself.
fn beside(alloc: Global, script: &str, file: &str) -> Result<String, AllocError> {
    match script.rsplit_once('/') {
        Some((folder, _)) if !file.starts_with('/') => format!(in alloc; "{folder}/{file}"),
        _ => String::from_str(alloc, file),
    }
}

/// The scenario that a script names.
#[derive(Drop)]
struct NamedScenario {
    /// Its path from where the program stands.
    path: String,
    /// That, behind the place in the script that names it.
    place: String,
}

/// The number of the first line of a script up to which it names a scenario.
fn naming_line(text: &[u8]) -> u64 {
    let mut rest = text;
    let mut number: u64 = 1;
    while let Some((line, others)) = first_line(rest) {
        if scenario_name(line).is_some() {
            return number;
        }
        rest = others;
        number = number.saturating_add(1);
    }
    number
}

/// The scenario that a script names; none where it names none.
///
/// # Errors
/// There is no memory.
fn scenario_of(
    alloc: Global,
    script: &str,
    text: &[u8],
) -> Result<Option<NamedScenario>, AllocError> {
    let Some(Ok(file)) = scenario_name(text).map(|name| std::str::from_utf8(name)) else {
        return Ok(None);
    };
    let path = beside(alloc, script, file)?;
    let place = format!(in alloc; "{script}:{}: {path}", naming_line(text))?;
    Ok(Some(NamedScenario { path, place }))
}

/// Why a scenario is refused, in a line.
///
/// # Errors
/// There is no memory.
fn refused_words(alloc: Global, place: &str, fault: ScenarioFault) -> Result<String, AllocError> {
    let mut reason = Output {
        writer: Vec::new(alloc),
        failures: 0,
    };
    let Ok(()) = tell_reason(&mut reason, fault.number()) else {
        return Err(AllocError);
    };
    let number = fault.number();
    match std::str::from_utf8(reason.writer.as_slice()) {
        Ok(reason) => {
            format!(in alloc; "{place}: scenario refused {number}: {}", reason.trim_end())
        }
        Err(_) => format!(in alloc; "{place}: scenario refused {number}"),
    }
}

/// A script, or the scenario that it names, can't be read; that is told.
///
/// # Errors
/// There is no memory; that is told.
fn unread<R: Alloc<A = Global>, E: Print>(
    rt: &R,
    errors: &E,
    place: &str,
    error: &io::Error,
) -> Result<Came, Ending> {
    let ending = tell_unread(errors, place, error);
    let why = why_unread(error);
    untested(rt, errors, ending, format!(in rt.alloc(); "{place}: {why}"))
}

/// Goes through the lines of a script for the scenario that it names.
///
/// # Errors
/// There is no memory; that is told.
fn tested_on<R: Files + Alloc<A = Global>, E: Print>(
    rt: &R,
    errors: &E,
    script: &str,
    lines: &[u8],
    scenario: &NamedScenario,
) -> Result<Came, Ending> {
    let place = scenario.place.as_str();
    let text = match read_whole(rt, scenario.path.as_str()) {
        Ok(text) => text,
        Err(error) => return unread(rt, errors, place, &error),
    };
    let meter = &mut Meter::new();
    match test_text(rt.alloc(), text.as_slice(), script.as_bytes(), lines, meter) {
        Ok(cases) => judged(rt, errors, script, cases),
        Err(SceneFault::Scenario(fault)) => {
            let ending = tell_refused(errors, place, fault);
            untested(rt, errors, ending, refused_words(rt.alloc(), place, fault))
        }
        Err(_) => Err(tell(errors, BenchFault::Memory)),
    }
}

/// How a script ends that was gone through. One without an expectation passes in vain; that is told.
///
/// # Errors
/// There is no memory; that is told.
fn judged<R: Alloc<A = Global>, E: Print>(
    rt: &R,
    errors: &E,
    script: &str,
    cases: Vec<Case>,
) -> Result<Came, Ending> {
    let tally = TestTally::of(cases.as_slice());
    if tally == TestTally::none() {
        return vain(rt, errors, script, "no line expects anything");
    }
    let ending = if tally.failed == 0 && tally.refused == 0 {
        Ending::Done
    } else {
        Ending::Refused
    };
    Ok(Came {
        cases,
        fault: String::new(rt.alloc()),
        ending,
    })
}

/// A script in which there is nothing to go through, which is told.
///
/// # Errors
/// There is no memory; that is told.
fn vain<R: Alloc<A = Global>, E: Print>(
    rt: &R,
    errors: &E,
    script: &str,
    why: &str,
) -> Result<Came, Ending> {
    let _ = println!(errors; "{script}: {why}");
    untested(
        rt,
        errors,
        Ending::Refused,
        format!(in rt.alloc(); "{script}: {why}"),
    )
}

/// Goes through a script.
///
/// # Errors
/// There is no memory; that is told.
fn tested<R: Files + Input + Alloc<A = Global>, E: Print>(
    rt: &R,
    errors: &E,
    script: &str,
) -> Result<Came, Ending> {
    let lines = match read_input(rt, script) {
        Ok(lines) => lines,
        Err(error) => return unread(rt, errors, script, &error),
    };
    match scenario_of(rt.alloc(), script, lines.as_slice()) {
        Ok(Some(scenario)) => tested_on(rt, errors, script, lines.as_slice(), &scenario),
        Ok(None) => vain(
            rt,
            errors,
            script,
            "no line `# scenario FILE` names a scenario",
        ),
        Err(_) => Err(tell(errors, BenchFault::Memory)),
    }
}

/// Writes what is told of the lines of a script: of those that pass too, where that is asked for.
///
/// # Errors
/// It can't be written, or there is no memory; that is told.
fn put_cases<R: Print + Alloc<A = Global>, E: Print>(
    rt: &R,
    errors: &E,
    form: Form,
    passes: bool,
    script: &str,
    cases: &[Case],
) -> Result<(), Ending> {
    let mut text = Vec::new(rt.alloc());
    match push_cases(
        rt.alloc(),
        &mut text,
        form,
        passes,
        script.as_bytes(),
        cases,
    ) {
        Ok(()) => put_out(rt, errors, text.as_slice()),
        Err(_) => Err(tell(errors, BenchFault::Memory)),
    }
}

/// How many microseconds passed since a time, as far as the clock tells.
fn micros_since<R: Clock>(rt: &R, began: Option<Instant>) -> u64 {
    let (Some(began), Ok(now)) = (began, Instant::now(rt)) else {
        return 0;
    };
    u64::try_from(now.duration_since(began).as_micros()).unwrap_or(u64::MAX)
}

/// Writes how many expectations passed and failed, and how many lines were refused.
///
/// # Errors
/// It can't be written, or there is no memory; that is told.
fn close<R: Print + Alloc<A = Global>, E: Print>(
    rt: &R,
    errors: &E,
    tally: TestTally,
    form: Form,
) -> Result<(), Ending> {
    let mut text = Vec::new(rt.alloc());
    let told = match form {
        Form::Json => tally.push_object(&mut text),
        Form::Words => tally.push(&mut text),
    };
    match told {
        Ok(()) => put_out(rt, errors, text.as_slice()),
        Err(_) => Err(tell(errors, BenchFault::Memory)),
    }
}

/// Writes a report of JUnit's form to a file, where one is named.
///
/// # Errors
/// It can't be written, or there is no memory; that is told.
fn report<R: Files + Alloc<A = Global>, E: Print>(
    rt: &R,
    errors: &E,
    file: Option<&str>,
    suites: &[Suite],
) -> Result<(), Ending> {
    let Some(file) = file else {
        return Ok(());
    };
    let mut text = Vec::new(rt.alloc());
    match push_junit(rt.alloc(), &mut text, suites) {
        Ok(()) => put_file(rt, errors, file, text.as_slice()),
        Err(_) => Err(tell(errors, BenchFault::Memory)),
    }
}

/// Goes through these scripts, and tells of each line that fails or is refused; where it is asked for, of each that passes too. One
/// that can't be gone through is told, and the others go on; the worst ending is that of all.
///
/// # Errors
/// What is told can't be written, or there is no memory; that is told.
pub fn test<R: Files + Input + Print + Clock + Alloc<A = Global>, E: Print>(
    rt: &R,
    errors: &E,
    scripts: &[&str],
    options: &TestOptions<'_>,
) -> Result<Ending, Ending> {
    let (form, passes) = if options.json {
        (Form::Json, true)
    } else {
        (Form::Words, options.verbose)
    };
    let mut all = Outcome {
        suites: Vec::new(rt.alloc()),
        tally: TestTally::none(),
        ending: Ending::Done,
    };
    for script in scripts {
        let began = Instant::now(rt).ok();
        let one = tested(rt, errors, script)?;
        let micros = micros_since(rt, began);
        put_cases(rt, errors, form, passes, script, one.cases.as_slice())?;
        if all.take(rt.alloc(), script, one, micros).is_err() {
            return Err(tell(errors, BenchFault::Memory));
        }
    }
    close(rt, errors, all.tally, form)?;
    report(rt, errors, options.junit, all.suites.as_slice())?;
    Ok(all.ending)
}
