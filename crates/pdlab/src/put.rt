//! Texts that are written whole.

use crate::Ending;
use crate::at_keyboard::save;
use crate::fault::{output, tell_unwritten};
use pd_device::write_all;
use std::alloc::Global;
use std::rt::Files;

/// Writes a text to a file, or to standard output where none is named.
///
/// # Errors
/// It can't be written; that is told.
pub fn put<R: Files + Print + Alloc<A = Global>, E: Print>(
    rt: &R,
    errors: &E,
    file: Option<&str>,
    text: &[u8],
) -> Result<(), Ending> {
    match file {
        None => put_out(rt, errors, text),
        Some(file) => put_file(rt, errors, file, text),
    }
}

/// Writes a text to standard output.
///
/// # Errors
/// It can't be written; that is told.
pub fn put_out<R: Print, E: Print>(rt: &R, errors: &E, text: &[u8]) -> Result<(), Ending> {
    let mut out = output(rt);
    match write_all(&mut out, text) {
        Ok(()) => Ok(()),
        Err(fault) => Err(tell_unwritten(errors, &out, fault)),
    }
}

/// Writes a text to a file.
///
/// # Errors
/// It can't be written; that is told, and what stood there is left.
pub fn put_file<R: Files + Alloc<A = Global>, E: Print>(
    rt: &R,
    errors: &E,
    file: &str,
    text: &[u8],
) -> Result<(), Ending> {
    if save(rt, file, text).is_ok() {
        return Ok(());
    }
    let _ = println!(errors; "cannot write\n{file}: the file can't be written");
    Err(Ending::Fault)
}
