//! `pdlab --version`.

use crate::Ending;
use crate::beside::beside_program;
use crate::fault::tell;
use crate::put::put_out;
use pd_device::BenchFault;
use pd_words::VERSION;
use std::alloc::{AllocError, Global};
use std::fs::File;
use std::io;
use std::io::Read;
use std::rt::Files;

/// The file beside the program that says of which commit it was built, and with which kit; `tools/release` writes it.
const BUILT: &str = "BUILT";

/// The most bytes of it that are told.
const LIMIT: u64 = 1_024;

/// What a file says, up to the limit.
///
/// # Errors
/// It can't be read.
fn read_built<R: Files + Alloc<A = Global>>(rt: &R, file: &str) -> io::Result<Vec<u8>> {
    let mut bytes = Vec::new(rt.alloc());
    File::open(rt, file)?.take(LIMIT).read_to_end(&mut bytes)?;
    Ok(bytes)
}

/// The version, and below it what the program was built of, where that is known.
///
/// # Errors
/// There is no memory.
fn version_text<R: Files + Alloc<A = Global>>(rt: &R) -> Result<Vec<u8>, AllocError> {
    let file = beside_program(rt, BUILT)?;
    let mut text = Vec::new(rt.alloc());
    text.extend_from_slice(b"pdlab ")?;
    text.extend_from_slice(VERSION.as_bytes())?;
    text.extend_from_slice(b"\n")?;
    if let Ok(built) = read_built(rt, file.as_str()) {
        text.extend_from_slice(built.as_slice())?;
    }
    Ok(text)
}

/// Tells the program's version.
pub fn tell_version<R: Files + Print + Alloc<A = Global>, E: Print>(rt: &R, errors: &E) -> Ending {
    let Ok(text) = version_text(rt) else {
        return tell(errors, BenchFault::Memory);
    };
    match put_out(rt, errors, text.as_slice()) {
        Ok(()) => Ending::Done,
        Err(ending) => ending,
    }
}
