//! `pd_cases plain SCENARIO EDITS`.

use pd_bench::{RunFault, read_whole, run_plain};
use pd_device::Output;
use pd_port::Meter;
use std::alloc::Global;
use std::io;
use std::rt::Files;

/// Does what `pdbench run` does, but runs each edit from the start. The answer is the status.
///
/// # Errors
/// A file can't be read.
pub fn run<R: Files + Print + Eprint + Alloc<A = Global>>(
    rt: &R,
    scenario: &str,
    edits: &str,
) -> io::Result<u8> {
    let scenario = read_whole(rt, scenario)?;
    let edits = read_whole(rt, edits)?;
    let mut out = Output {
        writer: io::writer(rt),
        failures: 0,
    };
    let done = run_plain(
        rt.alloc(),
        scenario.as_slice(),
        edits.as_slice(),
        &mut out,
        &mut Meter::new(),
    );
    match done {
        Ok(_) => Ok(0),
        Err(RunFault::Scenario(fault)) => {
            let _ = eprintln!(rt; "scenario refused {}", fault.number());
            Ok(1)
        }
        Err(RunFault::Session(fault)) => {
            let _ = eprintln!(rt; "fault {}", fault.number());
            Ok(3)
        }
    }
}
