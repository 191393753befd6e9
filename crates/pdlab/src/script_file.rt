//! Files by their names, and standard input, whose name is `-`.

use pd_bench::read_whole;
use std::alloc::Global;
use std::io;
use std::io::Read;
use std::rt::Files;

/// The most bytes of a scenario or a script.
const LIMIT: usize = 1_048_576;

/// The bytes of a file, or of standard input where the name is `-`.
///
/// # Errors
/// They can't be read, for want of memory too, or are more than 1,048,576.
pub fn read_input<R: Files + Input + Alloc<A = Global>>(rt: &R, name: &str) -> io::Result<Vec<u8>> {
    if name != "-" {
        return read_whole(rt, name);
    }
    let mut bytes = Vec::new(rt.alloc());
    rt.reader().take(LIMIT as u64 + 1).read_to_end(&mut bytes)?;
    if bytes.len() > LIMIT {
        return Err(io::Error::from(io::ErrorKind::FileTooLarge));
    }
    Ok(bytes)
}

/// The bytes of an edit script: of a file or of standard input, and none where none is named.
///
/// # Errors
/// Those of `read_input`.
pub fn read_script<R: Files + Input + Alloc<A = Global>>(
    rt: &R,
    edits: Option<&str>,
) -> io::Result<Vec<u8>> {
    match edits {
        None => Ok(Vec::new(rt.alloc())),
        Some(name) => read_input(rt, name),
    }
}
