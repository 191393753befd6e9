//! `pdbench run SCENARIO EDITS`.

use crate::Ending;
use crate::fault::{tell, tell_refused};
use pd_bench::{Release, RunFault, read_whole, run_kept_releasing};
use pd_device::{BenchFault, Output};
use pd_port::Meter;
use std::alloc::Global;
use std::io::{BufWriter, Write};
use std::rt::Files;
use std::{io, mem};

/// What is kept of the last run isn't freed: the process ends after its one session, and gives its memory back as a whole. Freed move
/// by move it would take a tenth of a first run's time.
struct LeftToTheEnd;

impl Release for LeftToTheEnd {
    fn release<T: Drop>(runner: T) {
        mem::forget(runner);
    }
}

/// Runs a session over an edit script, for the scenario of a file. Both files are read before anything is said.
pub fn run<R: Files + Print + Eprint + Alloc<A = Global>>(
    rt: &R,
    scenario: &str,
    edits: &str,
) -> Ending {
    // Answers are short and many, and a call of the system takes longer than most of them.
    let Ok(writer) = BufWriter::new(rt.alloc(), io::writer(rt)) else {
        return tell(rt, BenchFault::Memory);
    };
    let (Ok(scenario), Ok(edits)) = (read_whole(rt, scenario), read_whole(rt, edits)) else {
        let _ = eprintln!(rt; "cannot read");
        return Ending::Fault;
    };
    let mut output = Output {
        writer,
        failures: 0,
    };
    let ran = run_kept_releasing::<LeftToTheEnd, _>(
        rt.alloc(),
        scenario.as_slice(),
        edits.as_slice(),
        &mut output,
        &mut Meter::new(),
    );
    match end(output.writer, ran) {
        Ok(_) => Ending::Done,
        Err(RunFault::Scenario(fault)) => tell_refused(rt, fault),
        Err(RunFault::Session(fault)) => tell(rt, fault),
    }
}

/// Writes what is left of a session's answers, and tells how it has ended. After a write that failed nothing is written any more.
fn end<T: Copy, W: Write + Drop>(
    mut writer: BufWriter<W>,
    ran: Result<T, RunFault>,
) -> Result<T, RunFault> {
    let ended = match ran {
        Err(RunFault::Session(BenchFault::WriteFailed)) => ran,
        _ => match writer.flush() {
            Err(_) if ran.is_ok() => Err(RunFault::Session(BenchFault::WriteFailed)),
            _ => ran,
        },
    };
    // As it is dropped, a writer tries once more.
    let _unwritten = writer.into_parts();
    ended
}
