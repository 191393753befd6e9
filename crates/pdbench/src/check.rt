//! `pdbench check SCENARIO`.

use crate::Ending;
use crate::fault::tell;
use pd_bench::{check_text, read_whole};
use pd_device::BenchFault;
use std::alloc::Global;
use std::rt::Files;

/// Tells whether the file has a scenario, or why not.
pub fn check<R: Files + Print + Eprint + Alloc<A = Global>>(rt: &R, scenario: &str) -> Ending {
    let Ok(scenario) = read_whole(rt, scenario) else {
        let _ = eprintln!(rt; "cannot read");
        return Ending::Fault;
    };
    let (told, ending) = match check_text(rt.alloc(), scenario.as_slice()) {
        Ok(()) => (rt.println("accepted"), Ending::Done),
        Err(fault) => (println!(rt; "refused {}", fault.number()), Ending::Refused),
    };
    match told {
        Ok(()) => ending,
        Err(_) => tell(rt, BenchFault::WriteFailed),
    }
}
