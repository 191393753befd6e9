//! `pdlab schema` and `pdlab new [PORTS]`: texts that need no file.

use crate::Ending;
use crate::fault::tell;
use crate::put::put_out;
use pd_device::BenchFault;
use pd_save::{SaveFault, new_text, schema_text};
use std::alloc::Global;

/// Writes the JSON Schema of scenario files.
///
/// # Errors
/// It can't be written, or there is no memory; that is told.
pub fn schema<R: Print + Alloc<A = Global>, E: Print>(
    rt: &R,
    errors: &E,
) -> Result<Ending, Ending> {
    match schema_text(rt.alloc()) {
        Ok(text) => {
            put_out(rt, errors, text.as_slice())?;
            Ok(Ending::Done)
        }
        Err(_) => Err(tell(errors, BenchFault::Memory)),
    }
}

/// Writes a scenario of 1 to 8 ports to begin with; of another number, of the nearest of these.
///
/// # Errors
/// It can't be written, there is no memory, or the text reads as no scenario, which is known of none; that is told.
pub fn new<R: Print + Alloc<A = Global>, E: Print>(
    rt: &R,
    errors: &E,
    ports: u64,
) -> Result<Ending, Ending> {
    match new_text(rt.alloc(), ports.max(1).min(8)) {
        Ok(text) => {
            put_out(rt, errors, text.as_slice())?;
            Ok(Ending::Done)
        }
        Err(SaveFault::Memory) => Err(tell(errors, BenchFault::Memory)),
        Err(SaveFault::Differs) => {
            let _ = println!(errors; "not written: the text would read as no scenario");
            Err(Ending::Fault)
        }
    }
}
