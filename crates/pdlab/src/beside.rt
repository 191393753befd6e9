//! Files that stand beside the program.

use std::alloc::{AllocError, Global};
use std::env;
use std::rt::Files;

/// The path of a file beside the program, or in this folder where the program's own place isn't known.
///
/// # Errors
/// There is no memory.
pub fn beside_program<R: Files + Alloc<A = Global>>(
    rt: &R,
    name: &str,
) -> Result<String, AllocError> {
    let place = env::current_exe(rt).ok();
    let program = place.as_ref().map_or("", |place| place.as_str());
    match program.rsplit_once('/') {
        Some((folder, _)) => format!(in rt.alloc(); "{folder}/{name}"),
        None => String::from_str(rt.alloc(), name),
    }
}
