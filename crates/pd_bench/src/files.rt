//! Files that are read whole.

ghost use Rattle.std.specs.Prelude.{◌≤◌, IfOk, vec_len};

use std::alloc::Global;
use std::fs::File;
use std::io;
use std::io::Read;
use std::rt::Files;

/// The most bytes of a file.
const LIMIT: usize = 1_048_576;

/// The bytes of a file of at most 1,048,576 bytes.
///
/// # Errors
/// The file can't be read, for want of memory too, or has more bytes.
pub fn read_whole<R: Files + Alloc<A = Global>>(rt: &R, path: &str) -> io::Result<Vec<u8>>
    ensures { IfOk result (λ bytes. vec_len bytes ≤ 1048576) }
{
    let mut bytes = Vec::new(rt.alloc());
    File::open(rt, path)?
        .take(LIMIT as u64 + 1)
        .read_to_end(&mut bytes)?;
    if bytes.len() > LIMIT {
        return Err(io::Error::from(io::ErrorKind::FileTooLarge));
    }
    Ok(bytes)
}
